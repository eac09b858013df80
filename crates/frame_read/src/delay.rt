// A delay's frame: A2, i, j and w.
ghost use Rattle.std.specs.Prelude.{◌≡◌};
ghost use Rattle.model.specs.Open.{delay};
ghost use Rattle.model.specs.Refusal.{told};

use crate::frame::Frame;
use limits::{jobs_ok, weight_ok};
use model::{Delay, Refusal};

// A delay between n jobs.
pub fn delay_frame(frame: &Frame<'_>, n: u8) -> Result<Delay, Refusal>
    ensures { told result ≡ delay n frame.now }
{
    if !frame.is(0xA2, 5) {
        return Err(Refusal::Kind);
    }
    let q = Delay {
        from: frame.byte(1),
        to: frame.byte(2),
        weight: frame.wide(3).cast_signed(),
    };
    if !jobs_ok(n, q) {
        return Err(Refusal::DelayJobs);
    }
    if !weight_ok(q) {
        return Err(Refusal::Weight);
    }
    Ok(q)
}
