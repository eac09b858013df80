// The limits of a batch beside its delays: n and m, the ticks of the jobs below n, the edition and the further lines. No job is read before n is known to be
// within its limits, and none past n.
ghost use Rattle.std.specs.Prelude.{◌≡◌, ◌≤◌};
ghost use Rattle.batch_limits.specs.Limits.{ticks_pass, counts_pass, limits_pass};

use crate::further::{edition_pass, further_pass};
use limits::{counts_ok, ticks_ok};
use model::Batch;

// Each job below n has 1 to 16 ticks. (One call of `all`, as in the other tests: a function for them all would be that call.)
fn ticks_pass(batch: Batch) -> bool
    requires { batch.n ≤ 24 }
    ensures { result ≡ ticks_pass batch }
{
    batch.jobs[..usize::from(batch.n)]
        .iter()
        .all(|job| ticks_ok(job.ticks))
}

// n, m and each p are within their limits.
#[tactic(auto, using(crate::proofs::LimitLaws::few_jobs), unfolding(crate::specs::Limits::counts_pass))]
fn counts_pass(batch: Batch) -> bool
    ensures { result ≡ counts_pass batch }
{
    counts_ok(batch.n, batch.m) && ticks_pass(batch)
}

// So are the edition and the further lines.
#[tactic(auto, using(crate::proofs::LimitLaws::jobs_counted), unfolding(crate::specs::Limits::limits_pass))]
pub fn limits_pass(batch: Batch) -> bool
    ensures { result ≡ limits_pass batch }
{
    counts_pass(batch) && edition_pass(batch) && further_pass(batch)
}
