// Kind A3 in a record from anywhere: a job with a line has ends within their limits, and one without has 0 and 65,535.
// (One call of `all` each: a function for them all would be that call.)
ghost use Rattle.std.specs.Prelude.{◌≡◌, ◌≤◌};
ghost use Rattle.batch_limits.specs.Further.{ends_pass, windows_pass, unlined};

use limits::ends_ok;
use model::{Batch, Window};

// What soundness asks of one job's ends.
#[tactic(auto, unfolding(crate::specs::Further::ends_pass))]
fn ends_pass(window: Window) -> bool
    ensures { result ≡ ends_pass window }
{
    if window.lined != 0 {
        ends_ok(window.earliest, window.latest)
    } else {
        window.earliest == 0 && window.latest == 65535
    }
}

// Each job below n passes.
pub fn windows_pass(batch: Batch) -> bool
    requires { batch.n ≤ 24 }
    ensures { result ≡ windows_pass batch }
{
    batch.windows[..usize::from(batch.n)]
        .iter()
        .all(|window| ends_pass(*window))
}

// No job below n has a line.
pub fn no_windows(batch: Batch) -> bool
    requires { batch.n ≤ 24 }
    ensures { result ≡ unlined batch }
{
    batch.windows[..usize::from(batch.n)]
        .iter()
        .all(|window| window.lined == 0)
}
