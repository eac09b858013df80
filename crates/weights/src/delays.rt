// A batch's delays as a list of inequalities: what a run works out once.
ghost use Rattle.std.specs.Prelude.{◌≡◌, ◌≤◌};
ghost use Rattle.weights.specs.Code.{Limited, coded};
ghost use Rattle.weights.specs.Delays.{ReadsDelays};

use crate::{BLANK, Inequality};
use delay_array::array_columns;
use delay_list::delay_at;
use limits::delay_ok;
use model::Batch;

// 1,000 less a weight, which is no more than that.
fn code_of(w: i16) -> u16
    requires { Limited w }
    ensures { result ≡ coded w }
{
    (1000 - w) as u16
}

// The first m delays, tested and coded, if each of them passes. The places past them are blank.
pub fn read_delays(batch: Batch) -> Option<[Inequality; 128]>
    requires { batch.m ≤ 128 }
    ensures { ReadsDelays batch result }
{
    let m = usize::from(batch.m);
    let columns = array_columns(&batch.delays, m);
    let mut list = [BLANK; 128];
    for k in 0..m {
        let q = delay_at(&columns, k);
        if !delay_ok(batch.n, q) {
            return None;
        }
        list[k] = Inequality {
            from: q.from,
            to: q.to,
            code: code_of(q.weight),
        };
    }
    Some(list)
}
