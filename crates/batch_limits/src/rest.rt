// Kind A4 in a record from anywhere: no station rests more than 7 ticks.
// (One call of `all` each: a function for them all would be that call.)
ghost use Rattle.std.specs.Prelude.{◌≡◌};
ghost use Rattle.batch_limits.specs.Further.{rests_pass, unrested};

use limits::rest_ok;
use model::Batch;

// Each station passes.
pub fn rests_pass(batch: Batch) -> bool
    ensures { result ≡ rests_pass batch }
{
    batch.rests.iter().all(|ticks| rest_ok(*ticks))
}

// No station has a line.
pub fn no_rests(batch: Batch) -> bool
    ensures { result ≡ unrested batch }
{
    batch.rests.iter().all(|ticks| *ticks == 0)
}
