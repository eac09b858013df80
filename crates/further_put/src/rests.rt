// The rest lines of a batch, one for each station that rests, stations in rising order. The window lines go the same way, but over other items and by
// another line: one function for both would take the line as a closure that writes, which is no plainer than its loop of three lines.
ghost use Rattle.std.specs.Prelude.{◌≡◌, ◌==◌, not, ◌+◌, ◌≤◌, length, count_by};
ghost use Rattle.model.specs.Common.{joined};
ghost use Rattle.model.specs.Rest.{rest_text, rest_lines};
ghost use Rattle.lines.specs.Write.{overwritten};
ghost use Rattle.further_put.specs.Rests.{rest_piece};

use frame_put::put_rest;
use model::Batch;

pub fn put_rests(buffer: &mut [u8], at: usize, batch: Batch) -> usize
    requires { at + length (joined rest_text (rest_lines batch)) ≤ length buffer.old }
    ensures { (result ≡ at + length (joined rest_text (rest_lines batch))) × (buffer.new ≡ overwritten buffer.old at (joined rest_text (rest_lines batch))) }
{
    let mut next = at;
    for (s, ticks) in batch.rests.iter().enumerate() {
        next = put_rested(buffer, next, s as u8, *ticks);
    }
    next
}

// The number of their bytes.
pub fn rests_length(batch: Batch) -> usize
    ensures { (result ≡ length (joined rest_text (rest_lines batch))) × (result ≤ 112) }
{
    7 * resting(&batch.rests)
}

// How many stations rest.
fn resting(rests: &[u8; 16]) -> usize
    ensures { result ≡ count_by (λ ticks. not (ticks == 0)) rests.now }
{
    rests.iter().filter(|ticks| **ticks != 0).count()
}

// A station's line if it rests.
fn put_rested(buffer: &mut [u8], at: usize, station: u8, ticks: u8) -> usize
    requires { at + length (rest_piece station ticks) ≤ length buffer.old }
    ensures { (result ≡ at + length (rest_piece station ticks)) × (buffer.new ≡ overwritten buffer.old at (rest_piece station ticks)) }
{
    if ticks == 0 {
        return at;
    }
    put_rest(buffer, at, station, ticks)
}
