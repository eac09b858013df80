// The batch text: the header, the n job lines, the m delay lines, the further lines kind after kind, each put where the one before it
// ends. Its length is worked out first, so that nothing is put into a buffer that is too short.
// (Bounded stands in the contracts: soundness finds it of a plain record, and a type around the batch would be for these few functions alone.)
ghost use Rattle.std.specs.Prelude.{◌≡◌, ◌+◌, ◌*◌, ◌≤◌, length};
ghost use Rattle.model.specs.Common.{joined};
ghost use Rattle.model.specs.Limits.{most_delays};
ghost use Rattle.model.specs.Batch.{delays_of};
ghost use Rattle.model.specs.Format.{job_line, jobs_of, delay_line, batch_file};
ghost use Rattle.lines.specs.Write.{overwritten};
ghost use Rattle.writing.specs.Bounded.{Bounded};

use frame_put::{put_delay, put_header, put_job};
use further_put::{put_rests, put_windows, rests_length, windows_length};
use model::Batch;

// The whole batch text at the buffer's front.
pub fn put_batch(buffer: &mut [u8], batch: Batch) -> usize
    requires bounded { Bounded batch }
    requires batch_in_bounds { length (batch_file batch) ≤ length buffer.old }
    ensures { (result ≡ length (batch_file batch)) × (buffer.new ≡ overwritten buffer.old 0 (batch_file batch)) }
{
    let jobs = put_header(buffer, 0, batch.edition as u8, batch.n, batch.m);
    let delays = put_jobs(buffer, jobs, batch);
    let windows = put_delays(buffer, delays, batch);
    let rests = put_windows(buffer, windows, batch);
    put_rests(buffer, rests, batch)
}

// The number of its bytes: two digits a byte, and a 0A a line.
pub fn batch_length(batch: Batch) -> usize
    requires { Bounded batch }
    ensures { result ≡ length (batch_file batch) }
{
    let n = usize::from(batch.n);
    let m = usize::from(batch.m);
    let mut size: usize = 9 + 11 * m + windows_length(batch) + rests_length(batch);
    for job in &batch.jobs[..n] {
        size += 4 * usize::from(job.ticks) + 5;
    }
    size
}

// The job lines. (The loop of three lines stands for each kind of line, as further_put says.)
fn put_jobs(buffer: &mut [u8], at: usize, batch: Batch) -> usize
    requires bounded { Bounded batch }
    requires batch_in_bounds { at + length (joined job_line (jobs_of batch)) ≤ length buffer.old }
    ensures { (result ≡ at + length (joined job_line (jobs_of batch))) × (buffer.new ≡ overwritten buffer.old at (joined job_line (jobs_of batch))) }
{
    let n = usize::from(batch.n);
    let mut next = at;
    for job in &batch.jobs[..n] {
        next = put_job(buffer, next, *job);
    }
    next
}

// The delay lines. (The loop: as for the job lines.)
fn put_delays(buffer: &mut [u8], at: usize, batch: Batch) -> usize
    requires { (batch.m ≤ most_delays) × (at + 11 * batch.m ≤ length buffer.old) }
    ensures { (result ≡ at + 11 * batch.m) × (buffer.new ≡ overwritten buffer.old at (joined delay_line (delays_of batch))) }
{
    let m = usize::from(batch.m);
    let mut next = at;
    for delay in &batch.delays[..m] {
        next = put_delay(buffer, next, *delay);
    }
    next
}
