// One rest line: A4, a station and its rest ticks.
ghost use Rattle.std.specs.Prelude.{◌≡◌, ◌+◌, ◌≤◌, length};
ghost use Rattle.lines.specs.Write.{overwritten};
ghost use Rattle.frame_put.specs.Rest.{rest_as};

use crate::frame::put_pair;

pub fn put_rest(buffer: &mut [u8], at: usize, station: u8, ticks: u8) -> usize
    requires { at + 7 ≤ length buffer.old }
    ensures { (result ≡ at + 7) × (buffer.new ≡ overwritten buffer.old at (rest_as station ticks)) }
{
    let number = put_pair(buffer, at, 0xA4, station);
    let end = lines::put_byte(buffer, number, ticks);
    lines::put_end(buffer, end)
}
