// Whether a record from anywhere is sound, and in the same pass what a run works on: the clash list, the delays, the stays and the ends as
// arrays, and the path's turns as numbers. Nothing past a limit is read before the limit is known to hold.
#![tactic(auto)]

ghost use Rattle.std.specs.Prelude.{◌≡◌};
ghost use Rattle.model.specs.Sound.{sound};
ghost use Rattle.soundness.specs.Examined.{Examines};

use crate::path::read_path;
use crate::state::state_ok;
use batch_limits::limits_pass;
use clashes::{Clashes, list_clashes};
use model::Search;
use starts::met::read_delays_met;
use times::ends::{Ends, ends_of};
use times::stays::stays_of;
use weights::Inequality;
use weights::delays::read_delays;

mod best;
mod path;
mod state;

pub use path::Route;

// What a run works on.
#[derive(Clone, Copy)]
pub struct Examined {
    pub clashes: Clashes,
    pub delays: [Inequality; 128],
    pub stays: [u8; 24],
    pub ends: Ends,
    pub route: Route,
}

// What a run works on, if the record is sound.
pub fn examine(search: Search) -> Option<Examined>
    ensures { Examines search result }
{
    let batch = search.batch;
    if !limits_pass(batch) {
        return None;
    }
    let delays = read_delays(batch)?;
    let mut clashes = Clashes {
        count: 0,
        codes: [0; 1024],
    };
    list_clashes(&batch, &mut clashes);
    if 1024 < clashes.count {
        return None;
    }
    let ends = ends_of(batch);
    if !read_delays_met(batch, &delays, &ends) {
        return None;
    }
    let route = read_path(&search.path, clashes.count)?;
    if !state_ok(&search, &route) {
        return None;
    }
    Some(Examined {
        clashes,
        delays,
        stays: stays_of(batch),
        ends,
        route,
    })
}

// Whether the record is sound.
pub fn is_sound(search: Search) -> bool
    ensures { result ≡ sound search }
{
    examine(search).is_some()
}
