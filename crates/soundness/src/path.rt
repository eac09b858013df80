// A path: its turns up to the first empty place, read in one pass that marks the clashes it has seen, and then only empty places.
ghost use Rattle.std.specs.Prelude.{◌≡◌, not, ◌≤◌, ◌<◌};
ghost use Rattle.model.specs.Search.{is_turn};
ghost use Rattle.soundness.specs.Path.{turn_code, turn_new, rest_empty, Reads};

use model::{EMPTY, Turn};

// The turns of a path: turn k is 2 * clash + side, for k below depth. An array with its depth beside it: there is no heap, and a run goes on to write its
// turns past depth.
#[derive(Clone, Copy)]
pub struct Route {
    pub depth: usize,
    pub turns: [u16; 1024],
}

// A place without a turn.
#[tactic(auto, unfolding(model::specs::Search::is_turn))]
fn is_empty(t: Turn) -> bool
    ensures { result ≡ not (is_turn t) }
{
    t == EMPTY
}

// A turn names one of the count clashes, with side 0 or 1, and its clash is not marked.
#[tactic(auto, unfolding(crate::specs::Path::turn_new))]
fn turn_ok(t: Turn, count: usize, marks: &[bool; 1024]) -> bool
    requires { count ≤ 1024 }
    ensures { result ≡ turn_new count marks.now t }
{
    let clash = usize::from(t.clash);
    clash < count && t.side <= 1 && !marks[clash]
}

// A turn as one number.
fn code_of(t: Turn) -> u16
    requires { (t.clash < 1024) × (t.side ≤ 1) }
    ensures { result ≡ turn_code t }
{
    2 * t.clash + t.side
}

// The turns up to the first empty place, if they are sound: each names one of the count clashes with side 0 or 1, and no clash that an
// earlier one names.
pub fn read_path(path: &[Turn; 1024], count: usize) -> Option<Route>
    requires { count ≤ 1024 }
    ensures { Reads path.now count result }
{
    let mut turns = [0u16; 1024];
    let mut marks = [false; 1024];
    for (k, t) in path.iter().enumerate() {
        if is_empty(*t) {
            return Some(Route { depth: k, turns });
        }
        if !turn_ok(*t, count, &marks) {
            return None;
        }
        marks[usize::from(t.clash)] = true;
        turns[k] = code_of(*t);
    }
    Some(Route { depth: 1024, turns })
}

// No turn stands in these places. A fold, and not `all`, which stops at the first turn: without a way out it is compiled to whole vectors, since `copied`
// loads each place in one piece.
pub fn rest_empty(rest: &[Turn]) -> bool
    ensures { result ≡ rest_empty rest.now }
{
    rest.iter()
        .copied()
        .fold(true, |empty, t| empty & is_empty(t))
}
