// A batch's array of delays, passed on as a list.
#![tactic(auto)]

ghost use Rattle.std.specs.Prelude.{◌≡◌, ◌≤◌, take};
ghost use Rattle.delay_list.specs.Columns.{columns_of};

use delay_list::{Columns, list_columns};
use model::Delay;

// The columns of the first m delays. (m stands beside the array: C's record has 128 places.)
pub fn array_columns(delays: &[Delay; 128], m: usize) -> Columns
    requires { m ≤ 128 }
    ensures { result ≡ columns_of (take m delays.now) }
{
    list_columns(&delays[..m])
}
