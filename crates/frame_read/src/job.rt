// A job's frame: A1, p and p masks.
ghost use Rattle.std.specs.Prelude.{◌≡◌, ◌+◌, ◌*◌, ◌≤◌, length, drop};
ghost use Rattle.model.specs.Common.{pad};
ghost use Rattle.model.specs.Open.{job, wides};
ghost use Rattle.model.specs.Refusal.{told};

use crate::frame::Frame;
use limits::ticks_ok;
use model::{Job, Refusal};

// A place without a job.
pub const NO_JOB: Job = Job {
    ticks: 0,
    masks: [0u16; 16],
};

// The p masks of the frame, and 0 in the places past them.
fn masks_of(frame: &Frame<'_>, p: usize) -> [u16; 16]
    requires { (length frame.now ≡ 2 + 2 * p) × (p ≤ 16) }
    ensures { result ≡ pad 16 0 (wides (drop 2 frame.now)) }
{
    let mut masks = [0u16; 16];
    for a in 0..p {
        masks[a] = frame.wide(2 + 2 * a);
    }
    masks
}

pub fn job_frame(frame: &Frame<'_>) -> Result<Job, Refusal>
    ensures { told result ≡ job frame.now }
{
    if frame.len() < 2 {
        return Err(Refusal::Kind);
    }
    let p = frame.byte(1);
    if !frame.is(0xA1, 2 + 2 * usize::from(p)) {
        return Err(Refusal::Kind);
    }
    let ticks = u16::from(p);
    if !ticks_ok(ticks) {
        return Err(Refusal::Counts);
    }
    Ok(Job {
        ticks,
        masks: masks_of(frame, usize::from(p)),
    })
}
