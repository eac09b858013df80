// The plan text where there is a plan: its first line, and then each job's start, jobs in rising order.
// (That n is at most 24 is asked in the contracts, here and in plan_text.rt: it is a plain number, as in the definition `plan_lines`.)
ghost use Rattle.std.specs.Prelude.{◌≡◌, ◌+◌, ◌*◌, ◌≤◌, length};
ghost use Rattle.model.specs.Limits.{most_jobs};
ghost use Rattle.lines.specs.Write.{overwritten};
ghost use Rattle.writing.specs.Plan.{found_lines, start_lines};

use frame_put::{put_head, put_start};

// The whole text at the buffer's front. (Latency, starts and total stand apart, as in the definition `plan_lines`.)
pub fn put_plan(buffer: &mut [u8], n: u8, latency: u16, starts: [u16; 24], total: u32) -> usize
    requires { (n ≤ most_jobs) × (19 + 9 * n ≤ length buffer.old) }
    ensures { (result ≡ 19 + 9 * n) × (buffer.new ≡ overwritten buffer.old 0 (found_lines n latency starts total)) }
{
    let next = put_head(buffer, 0, n, latency, total);
    put_starts(buffer, next, n, starts)
}

// The start lines. (The loop of three lines stands for each kind of line, as further_put says.)
fn put_starts(buffer: &mut [u8], at: usize, n: u8, starts: [u16; 24]) -> usize
    requires { (n ≤ most_jobs) × (at + 9 * n ≤ length buffer.old) }
    ensures { (result ≡ at + 9 * n) × (buffer.new ≡ overwritten buffer.old at (start_lines n starts)) }
{
    let jobs = usize::from(n);
    let mut next = at;
    for (i, start) in starts[..jobs].iter().enumerate() {
        next = put_start(buffer, next, i as u8, *start);
    }
    next
}
