// How many ticks each job stays: what a run works out once. A job's finish is its start plus its stay.
ghost use Rattle.std.specs.Prelude.{◌≡◌, ◌≤◌, ℕ, ◌<◌, ◌≢◌, length, MatchOption, EachIndex, slice_index};
ghost use Rattle.model.specs.Plan.{stay};
ghost use Rattle.clashes.specs.List.{Tabled};
ghost use Rattle.times.specs.Stays.{stays_read};

use model::{Batch, Job};

// The number of the last tick that is not empty.
fn last_tick(masks: &[u16]) -> Option<usize>
    ensures { MatchOption result
        (EachIndex masks.now (λ k. slice_index masks.now k ≡ 0))
        (λ i. (i < length masks.now) × (slice_index masks.now i ≢ 0)
        × ((k : ℕ) → i < k → k < length masks.now → slice_index masks.now k ≡ 0)) }
{
    masks.iter().rposition(|mask| *mask != 0)
}

// The number of a job's last non-empty tick, plus 1; 0 where it holds no station. (Its ticks' limit is asked here: C's record holds any number.)
fn stay_of(job: Job) -> u8
    requires { job.ticks ≤ 16 }
    ensures { result ≡ stay job }
{
    match last_tick(&job.masks[..usize::from(job.ticks)]) {
        Some(last) => last as u8 + 1,
        None => 0,
    }
}

// The stay of each of the first n jobs, and 0 in the places past them.
pub fn stays_of(batch: Batch) -> [u8; 24]
    requires { Tabled batch }
    ensures { result ≡ stays_read batch }
{
    let mut stays = [0; 24];
    for i in 0..usize::from(batch.n) {
        stays[i] = stay_of(batch.jobs[i]);
    }
    stays
}
