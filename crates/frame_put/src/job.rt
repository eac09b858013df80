// One job line: A1, p, and the job's p masks, which a loop puts.
// (That p is at most 16 is asked in the contracts, and no invariant of a job: C's record holds any number.)
ghost use Rattle.std.specs.Prelude.{◌≡◌, ◌+◌, ◌*◌, ◌≤◌, length};
ghost use Rattle.model.specs.Common.{joined};
ghost use Rattle.model.specs.Limits.{most_ticks};
ghost use Rattle.model.specs.Line.{digits_of, two};
ghost use Rattle.model.specs.Format.{masks_of, job_line};
ghost use Rattle.lines.specs.Write.{overwritten};

use crate::frame::put_pair;
use model::Job;

pub fn put_job(buffer: &mut [u8], at: usize, job: Job) -> usize
    requires { (job.ticks ≤ most_ticks) × (at + (4 * job.ticks + 5) ≤ length buffer.old) }
    ensures { (result ≡ at + (4 * job.ticks + 5)) × (buffer.new ≡ overwritten buffer.old at (job_line job)) }
{
    let masks = put_pair(buffer, at, 0xA1, job.ticks as u8);
    let end = put_masks(buffer, masks, job);
    lines::put_end(buffer, end)
}

// A job's p masks. (The loop of three lines stands for each kind of line, as further_put says.)
fn put_masks(buffer: &mut [u8], at: usize, job: Job) -> usize
    requires { (job.ticks ≤ most_ticks) × (at + 4 * job.ticks ≤ length buffer.old) }
    ensures { (result ≡ at + 4 * job.ticks) × (buffer.new ≡ overwritten buffer.old at (digits_of (joined two (masks_of job)))) }
{
    let ticks = usize::from(job.ticks);
    let mut next = at;
    for mask in &job.masks[..ticks] {
        next = lines::put_two(buffer, next, *mask);
    }
    next
}
