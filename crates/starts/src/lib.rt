// Least starts (earliest start times) of a batch's delays and of the turns taken so far, by rounds over a local table of weights.
// A place of the table holds 65,535 where it is empty, and 1,000 less the weight otherwise.
#![tactic(auto)]

ghost use Rattle.std.specs.Prelude.{◌≡◌, ◌≤◌, ◌<◌, length};
ghost use Rattle.starts.specs.Table.{Placed};
ghost use Rattle.times.specs.Fill.{Small};
ghost use Rattle.times.specs.Latency.{latency_of};
ghost use Rattle.starts.specs.Least.{least_of};

use crate::table::{put_all, store_delays};
use rounds::rounds::rounds;
use weights::Inequality;

mod heaviest;
pub mod met;
mod table;

pub use heaviest::heaviest_of;

// Rounds from the starts that are lent, over the delays, each with the largest weight of its pair, and the turns, whose inequalities are the
// steps. The starts and their latency are raised in place, at most n times; a latency at or
// above the bound ends the rounds. Whether a round changed nothing and no start passes its latest is returned: the starts are then the least ones, if they were
// at or below these and at or above the earliest.
// Eight parameters: what they come from, the node's kit and trail, lies in a crate above, and a struct made anew at each node for this one call would be
// no plainer. The answer is a flag, as that of `rounds`: the clause says what stands in `starts` and `latency` where it is false, too (least_of).
#[tactic(auto, unfolding(crate::specs::Table::empty_table, crate::specs::Least::least_of))]
pub fn least_starts(
    n: usize,
    delays: &[Inequality],
    steps: &[Inequality],
    stays: &[u8; 24],
    latest: &[u16; 24],
    bound: u16,
    starts: &mut [u16; 24],
    latency: &mut u16,
) -> bool
    requires n_bound { n ≤ 24 }
    requires placed { Placed delays.now (length delays.now) }
    requires placed_2 { Placed steps.now (length steps.now) }
    requires small { Small stays.now 16 × (length starts.old ≡ 24) }
    requires latency_value { (latency.old ≡ latency_of stays.now starts.old 24) × ((latency.old < bound) × (bound ≤ 43017)) }
    ensures { record { starts = starts.new; latency = latency.new; found = result } ≡ least_of n delays.now steps.now stays.now latest.now bound starts.old latency.old }
{
    let mut table = [[65535u16; 24]; 24];
    store_delays(&mut table, delays);
    put_all(&mut table, steps);
    rounds(
        &table,
        stays,
        latest,
        starts,
        latency,
        bound,
        (n + 3) / 4,
        n,
    )
}
