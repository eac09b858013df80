// Standard input, however the reads are cut.
ghost use Rattle.std.specs.Prelude.{◌≡◌, ◌≤◌, length, IfOk};

use std::io::{self, Read};

// Fills the buffer until it is full or the input ends: the number of bytes. A proved loop has to end, so it has more turns than any run takes.
pub fn read_all(from: &mut impl Read, buffer: &mut [u8]) -> io::Result<usize>
    ensures { IfOk result (λ filled. filled ≤ length buffer.new) }
{
    let mut filled = 0;
    for _ in 0..u64::MAX {
        if filled == buffer.len() {
            break;
        }
        match from.read(&mut buffer[filled..])? {
            0 => break,
            count => filled += count,
        }
    }
    Ok(filled)
}
