// Rounds over the table: each start after k rounds comes from the starts after k − 1. A round takes the table four rows at a time: that is as
// much as it takes for the compiler to work on whole rows, and rows past n are empty, so they change nothing. The latency goes along: each round
// raises it by the new starts, and where it is at or above a bound, the rounds end.
ghost use Rattle.std.specs.Prelude.{◌≡◌, ◌*◌, ◌≤◌, ◌<◌, length};
ghost use Rattle.times.specs.Fill.{Small};
ghost use Rattle.rounds.specs.Rounds.{sum_at, lifted_of, highest_of, four_raised, round_of, rounds_of, timely};
ghost use Rattle.times.specs.Latency.{latency_of};

use times::ends::in_time;
use times::latency::raised_latency;

// Each start plus 1,000, of which a weight's code is taken.
fn lifted(old: &[u16; 24]) -> [u16; 24]
    requires { Small old.now 43016 }
    ensures { result ≡ lifted_of old.now }
{
    let mut high = [0; 24];
    for j in 0..24 {
        high[j] = old[j] + 1000;
    }
    high
}

// Old t_i plus the weight in column j of row i, by its code, where that is above 0, and else 0. So it is for an empty place: t_i + 1,000 is below 65,535.
#[tactic(auto, unfolding(crate::specs::Rounds::sum_at))]
fn sum(table: &[[u16; 24]; 24], high: &[u16; 24], i: usize, j: usize) -> u16
    requires { (i < 24) × (j < 24) }
    ensures { result ≡ sum_at table.now high.now j i }
{
    high[i].saturating_sub(table[i][j])
}

// Rows i to i + 3: each place keeps the largest of what it has and the sums of these rows.
fn raised(new: [u16; 24], table: &[[u16; 24]; 24], high: &[u16; 24], i: usize) -> [u16; 24]
    requires { i ≤ 20 }
    ensures { result ≡ four_raised table.now high.now i new }
{
    let mut more = [0; 24];
    for j in 0..24 {
        let first = sum(table, high, i, j).max(sum(table, high, i + 1, j));
        let second = sum(table, high, i + 2, j).max(sum(table, high, i + 3, j));
        more[j] = new[j].max(first.max(second));
    }
    more
}

// Each start, or what the sums ask of it. A round ends in this loop, which makes the array it returns: so the compiler keeps whole rows together.
fn highest(old: &[u16; 24], new: &[u16; 24]) -> [u16; 24]
    ensures { result ≡ highest_of old.now new.now }
{
    let mut starts = [0; 24];
    for j in 0..24 {
        starts[j] = old[j].max(new[j]);
    }
    starts
}

// The starts after one more round over the first 4 * fours rows.
fn round(table: &[[u16; 24]; 24], old: [u16; 24], fours: usize) -> [u16; 24]
    requires fours_bound { fours ≤ 6 }
    requires small { Small old 43016 }
    ensures { result ≡ round_of table.now old (4 * fours) }
{
    let high = lifted(&old);
    let mut new = [0; 24];
    for q in 0..fours {
        new = raised(new, table, &high, 4 * q);
    }
    highest(&old, &new)
}

// k rounds more: starts and latency are raised in place, together. A round that changes nothing ends them, since no later one would change anything; so
// does a latency at or above the bound. While they go on, no start is above 43,016. Whether a round changed nothing and no start passes its latest is
// returned. The recursion on the falling round number is 01's. The answer is a flag, and not an Option with the starts: the contract says what stands in
// `starts` and `latency` where it is false, too. Eight parameters, which the recursion hands on: a struct of them would be for this one function.
pub fn rounds(
    table: &[[u16; 24]; 24],
    stays: &[u8; 24],
    latest: &[u16; 24],
    starts: &mut [u16; 24],
    latency: &mut u16,
    bound: u16,
    fours: usize,
    k: usize,
) -> bool
    requires fours_bound { fours ≤ 6 }
    requires small { Small stays.now 16 }
    requires starts_len { length starts.old ≡ 24 }
    requires latency_value { (latency.old ≡ latency_of stays.now starts.old 24) × ((latency.old < bound) × (bound ≤ 43017)) }
    ensures { record { starts = starts.new; latency = latency.new; found = result } ≡ timely latest.now (rounds_of table.now stays.now fours bound starts.old latency.old k) }
{
    if k == 0 {
        return false;
    }
    let old = *starts;
    let new = round(table, old, fours);
    if old == new {
        return in_time(latest, &old);
    }
    let risen = raised_latency(*latency, stays, &new);
    *starts = new;
    *latency = risen;
    if bound <= risen {
        return false;
    }
    rounds(table, stays, latest, starts, latency, bound, fours, k - 1)
}
