// Whether some starts meet a batch's delays and ends: they do exactly where the delays, with no turn, have least starts between the ends. No least start passes
// 43,000.
ghost use Rattle.std.specs.Prelude.{◌≡◌};
ghost use Rattle.model.specs.Open.{delays_met};
ghost use Rattle.times.specs.Fill.{Small};
ghost use Rattle.times.specs.Ends.{earliest_read, latest_read};
ghost use Rattle.weights.specs.Delays.{DelaysSound, delays_read};

use crate::table::put_all;
use model::Batch;
use rounds::rounds::rounds;
use times::ends::{Ends, ends_of};
use times::latency::raised_latency;
use weights::Inequality;
use weights::delays::read_delays;

// With the delays and the ends as they were read from the batch. Only whether there are least starts is asked, so no job need stay.
pub fn read_delays_met(batch: Batch, delays: &[Inequality; 128], ends: &Ends) -> bool
    requires delays_sound { DelaysSound batch × Small (earliest_read batch) 20000 }
    requires delays_value { (delays.now ≡ delays_read batch) × ((ends.now.earliest ≡ earliest_read batch) × (ends.now.latest ≡ latest_read batch)) }
    ensures { result ≡ delays_met batch }
{
    let no_stays = [0u8; 24];
    let n = usize::from(batch.n);
    let mut table = [[65535u16; 24]; 24];
    put_all(&mut table, &delays[..usize::from(batch.m)]);
    let mut starts = ends.earliest;
    let mut latency = raised_latency(0, &no_stays, &starts);
    rounds(
        &table,
        &no_stays,
        &ends.latest,
        &mut starts,
        &mut latency,
        43017,
        (n + 3) / 4,
        n,
    )
}

pub fn delays_met(batch: Batch) -> bool
    requires { DelaysSound batch × Small (earliest_read batch) 20000 }
    ensures { result ≡ delays_met batch }
{
    // A sound batch's delays are always read.
    let Some(delays) = read_delays(batch) else {
        return false;
    };
    read_delays_met(batch, &delays, &ends_of(batch))
}
