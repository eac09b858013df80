// What soundness asks beside the batch and the turns: only empty places after the turns, no turn at all if the search has ended, the total, and best.
ghost use Rattle.std.specs.Prelude.{◌≡◌, ◌≤◌, length};
ghost use Rattle.model.specs.Clash.{clashes};
ghost use Rattle.model.specs.Sound.{sound_path};
ghost use Rattle.soundness.specs.Path.{Routed};
ghost use Rattle.soundness.specs.Examined.{state_sound};

use crate::best::best_ok;
use crate::path::{Route, rest_empty};
use model::Search;

// Empty places follow the path's turns, and an ended search has none.
fn path_ok(search: &Search, route: &Route) -> bool
    requires { Routed search.now.path (length (clashes search.now.batch)) route.now }
    ensures { result ≡ sound_path search.now }
{
    rest_empty(&search.path[route.depth..]) && (!search.ended || route.depth == 0)
}

// The path, the total and best.
#[tactic(auto, unfolding(crate::specs::Examined::state_sound))]
pub fn state_ok(search: &Search, route: &Route) -> bool
    requires reads { Routed search.now.path (length (clashes search.now.batch)) route.now }
    requires n_bound { search.now.batch.n ≤ 24 }
    ensures { result ≡ state_sound search.now }
{
    path_ok(search, route)
        && search.total <= 100000000
        && best_ok(usize::from(search.batch.n), search.best, &search.starts)
}
