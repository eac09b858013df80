// The path of the record, put together from the numbers that a run works on.
ghost use Rattle.std.specs.Prelude.{◌≡◌, ◌≤◌};
ghost use Rattle.model.specs.Common.{pad};
ghost use Rattle.model.specs.Search.{empty};
ghost use Rattle.node.specs.Walk.{turns_in};

use model::{EMPTY, Turn};

// The first depth turns, and empty places behind them. (Turns and depth stand apart, as a Trail and a Walk have them.)
pub fn path_of(turns: &[u16; 1024], depth: usize) -> [Turn; 1024]
    requires { depth ≤ 1024 }
    ensures { result ≡ pad 1024 empty (turns_in turns.now depth) }
{
    let mut path = [EMPTY; 1024];
    for k in 0..depth {
        let turn = turns[k];
        path[k] = Turn {
            clash: turn / 2,
            side: turn % 2,
        };
    }
    path
}
