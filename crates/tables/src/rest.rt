// A job's table widened by the rests: tick a stands at place a + 7, and a station stands at every place that is too close to a tick in which the job
// holds it. Two jobs then clash exactly where the one's table, widened, meets the other's as it is.
// (That a job has at most 16 ticks is asked in the contracts, and no invariant of a job: C's record holds any number.)
ghost use Rattle.std.specs.Prelude.{◌≡◌, List, ℕ, ◌+◌, ◌-◌, ◌≤◌, ◌<◌};
ghost use Rattle.tables.specs.Rest.{Resting, Longest, CloseAt, Closes, Rested, Near, Widens};

use crate::{Places, Rests};
use model::Job;

// The longest rest of a station.
pub fn longest_rest(rests: &[u8; 16]) -> usize
    requires { Resting rests.now }
    ensures { Longest rests.now result 16 }
{
    usize::from(rests.iter().copied().max().unwrap_or(0))
}

// The stations for which ticks `gap` apart are too close.
fn close_at(rests: &[u8; 16], gap: usize) -> u16
    ensures { CloseAt rests.now gap result 16 }
{
    let mut mask: u16 = 0;
    for (s, rest) in rests.iter().enumerate() {
        if gap <= usize::from(*rest) {
            mask |= 1u16 << s;
        }
    }
    mask
}

// The stations for which two ticks are too close, by the difference of the ticks + 22. Ticks further apart than the longest rest are too close for none.
// Where no station rests nobody asks, and nothing is worked out.
pub fn close_masks(rests: &[u8; 16], longest: usize) -> [u16; 45]
    requires { Longest rests.now longest 16 }
    ensures { 0 < longest → Closes rests.now result }
{
    let mut close = [0u16; 45];
    if longest != 0 {
        for e in 22 - longest..23 + longest {
            close[e] = close_at(rests, e.abs_diff(22));
        }
    }
    close
}

// What widening needs of the rests, worked out once for all jobs.
pub fn rested(rests: &[u8; 16]) -> Rests
    requires { Resting rests.now }
    ensures { Rested rests.now result }
{
    let longest = longest_rest(rests);
    Rests {
        longest,
        close: close_masks(rests, longest),
    }
}

// The stations of place x: those that are held, in one of the job's ticks, too close to it.
fn near_place(job: &Job, close: &[u16; 45], x: usize) -> u16
    requires { (job.now.ticks ≤ 16) × (x < 30) }
    ensures { (rests : List ℕ) → Closes rests close.now → Near rests job.now.masks job.now.ticks x result }
{
    let mut mask: u16 = 0;
    for a in 0..usize::from(job.ticks) {
        mask |= job.masks[a] & close[a + 29 - x];
    }
    mask
}

// The places where no station rests: the masks as they are.
fn as_it_is(job: &Job) -> [u16; 30]
    requires { job.now.ticks ≤ 16 }
    ensures { (rests : List ℕ) → Longest rests 0 16 → Widens rests job.now 7 (7 + job.now.ticks) result }
{
    let mut places = [0u16; 30];
    places[7..23].copy_from_slice(&job.masks);
    places
}

// The places where none rests more than `longest` ticks.
fn near_places(job: &Job, close: &[u16; 45], longest: usize) -> [u16; 30]
    requires { (job.now.ticks ≤ 16) × (longest ≤ 7) }
    ensures { (rests : List ℕ) → Closes rests close.now → Widens rests job.now (7 - longest) (7 + job.now.ticks + longest) result }
{
    let end = 7 + usize::from(job.ticks) + longest;
    let mut places = [0u16; 30];
    for x in 7 - longest..end {
        places[x] = near_place(job, close, x);
    }
    places
}

// The widened table.
pub fn widened(job: &Job, rests: &Rests) -> Places
    requires { (job.now.ticks ≤ 16) × (rests.now.longest ≤ 7) }
    ensures low { result.low ≡ 7 - rests.now.longest }
    ensures end { result.end ≡ 7 + job.now.ticks + rests.now.longest }
    ensures widens { (all : List ℕ) → Rested all rests.now → Widens all job.now result.low result.end result.masks }
{
    let longest = rests.longest;
    Places {
        low: 7 - longest,
        end: 7 + usize::from(job.ticks) + longest,
        masks: if longest == 0 {
            as_it_is(job)
        } else {
            near_places(job, &rests.close, longest)
        },
    }
}
