// A turn's inequality, as the table takes it.
ghost use Rattle.std.specs.Prelude.{◌≡◌};
ghost use Rattle.clashes.specs.First.{Named};
ghost use Rattle.weights.specs.Turn.{turn_inequality};

use crate::Inequality;

// The inequality of a turn on the clash with this code: t_j − t_i ≥ d + 1 on side 0, t_i − t_j ≥ 1 − d on side 1. The code's
// last part is d + 22, and a weight's code is 1,000 less it: that of d + 1 is 1021 − (d + 22), and that of 1 − d is d + 22 + 977.
#[tactic(auto, unfolding(crate::specs::Turn::turn_from, crate::specs::Turn::turn_to, crate::specs::Turn::turn_code))]
pub fn turn_inequality(clash: u16, turn: u16) -> Inequality
    requires { Named clash }
    ensures { result ≡ turn_inequality clash turn }
{
    let i = (clash / 2048) as u8;
    let j = (clash / 64 % 32) as u8;
    let lifted = clash % 64;
    if turn % 2 == 0 {
        Inequality {
            from: i,
            to: j,
            code: 1021 - lifted,
        }
    } else {
        Inequality {
            from: j,
            to: i,
            code: lifted + 977,
        }
    }
}
