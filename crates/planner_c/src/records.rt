// The record as C holds it: numbers alone, so that any bytes are one.
ghost use Rattle.std.specs.Prelude.{◌≡◌};
ghost use Rattle.planner_c.specs.Records.{best_in, search_in, record_of};

use model::{Batch, Search, Turn};

// `found` and `ended` are 0 for no and anything else for yes; without a best, `latency` and `starts` are not looked at. No byte of it is padding.
#[repr(C)]
#[derive(Clone, Copy)]
pub struct Record {
    pub total: u32,
    pub latency: u16,
    pub found: u8,
    pub ended: u8,
    pub starts: [u16; 24],
    pub batch: Batch,
    pub path: [Turn; 1024],
}

// Best as the two numbers say.
fn best_in(found: u8, latency: u16) -> Option<u16>
    ensures { result ≡ best_in found latency }
{
    if found == 0 {
        return None;
    }
    Some(latency)
}

// The search that a record stands for.
impl From<Record> for Search {
    ghost from_gives = { λ state search. search ≡ search_in state };

    #[inline(never)]
    #[tactic(auto, unfolding(crate::specs::Records::search_in))]
    fn from(state: Record) -> Search {
        let batch = state.batch;
        let path = state.path;
        let starts = state.starts;
        Search {
            batch,
            path,
            best: best_in(state.found, state.latency),
            starts,
            total: state.total,
            ended: state.ended != 0,
        }
    }
}

// The record of a search.
impl From<Search> for Record {
    ghost from_gives = { λ search state. state ≡ record_of search };

    #[inline(never)]
    #[tactic(auto, unfolding(crate::specs::Records::record_of))]
    fn from(search: Search) -> Record {
        Record {
            total: search.total,
            latency: search.best.unwrap_or(0),
            found: u8::from(search.best.is_some()),
            ended: u8::from(search.ended),
            starts: search.starts,
            batch: search.batch,
            path: search.path,
        }
    }
}
