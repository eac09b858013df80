// The largest weight of each pair's delays: what a run works out once.
ghost use Rattle.std.specs.Prelude.{◌≡◌, ◌≤◌};
ghost use Rattle.starts.specs.Table.{Placed, heaviest_of};

use crate::table::put_all;
use weights::{BLANK, Inequality};

// The first m delays, each with its code lowered to the smallest of its pair, that of the largest weight, and blank places past them: so they can be stored
// in any order, without a comparison.
pub fn heaviest_of(m: usize, delays: &[Inequality; 128]) -> [Inequality; 128]
    requires m_bound { m ≤ 128 }
    requires placed { Placed delays.now m }
    ensures { result ≡ heaviest_of m delays.now }
{
    let mut table = [[65535u16; 24]; 24];
    put_all(&mut table, &delays[..m]);
    let mut heaviest = [BLANK; 128];
    for k in 0..m {
        let q = delays[k];
        let i = usize::from(q.from);
        let j = usize::from(q.to);
        heaviest[k] = Inequality {
            from: q.from,
            to: q.to,
            code: table[i][j],
        };
    }
    heaviest
}
