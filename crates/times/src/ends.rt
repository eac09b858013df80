// The earliest and the latest start of each job: what a run works out once. And whether starts are in time.
ghost use Rattle.std.specs.Prelude.{◌≡◌, ◌≤◌};
ghost use Rattle.times.specs.Ends.{earliest_read, latest_read, none_late};

use model::Batch;

// Those of the first n jobs, and 0 in the places past them.
#[derive(Clone, Copy)]
pub struct Ends {
    pub earliest: [u16; 24],
    pub latest: [u16; 24],
}

pub fn ends_of(batch: Batch) -> Ends
    requires { batch.n ≤ 24 }
    ensures { (result.earliest ≡ earliest_read batch) × (result.latest ≡ latest_read batch) }
{
    let mut earliest = [0; 24];
    let mut latest = [0; 24];
    for i in 0..usize::from(batch.n) {
        let window = batch.windows[i];
        earliest[i] = window.earliest;
        latest[i] = window.latest;
    }
    Ends { earliest, latest }
}

// Whether no start passes its latest. The loop does not stop at the first that does, as `all` would: without a way out it is compiled to whole vectors.
pub fn in_time(latest: &[u16; 24], starts: &[u16; 24]) -> bool
    ensures { result ≡ none_late latest.now starts.now 24 }
{
    let mut timely = true;
    for j in 0..24 {
        if latest[j] < starts[j] {
            timely = false;
        }
    }
    timely
}
