// The working table: 24 rows of 24 weights, each place empty or the largest weight for that pair. Row i has what starts in job i. Delays and turns
// come as lists of inequalities, with the weight's code, 1,000 less the weight. An empty place holds 65,535 and is no Option: the rounds take it off as
// any code, without a test.
ghost use Rattle.std.specs.Prelude.{◌≡◌, ◌<◌, length};
ghost use Rattle.starts.specs.Table.{put_in, store_in, with_put, with_stored, Placed};

use weights::Inequality;

// A place keeps the smaller of what it has and a weight's code: the larger weight.
#[tactic(auto, unfolding(crate::specs::Table::put_in, crate::specs::Table::store_in))]
fn put(table: &mut [[u16; 24]; 24], from: u8, to: u8, code: u16)
    requires { (from < 24) × (to < 24) }
    ensures { table.new ≡ put_in table.old from to code }
{
    let i = usize::from(from);
    let j = usize::from(to);
    // No `min`: that stores each time, which is slower where turns of a deep path fall on the same place.
    if code < table[i][j] {
        table[i][j] = code;
    }
}

// A place gets a weight's code, whatever it has.
#[tactic(auto, unfolding(crate::specs::Table::store_in))]
fn store(table: &mut [[u16; 24]; 24], from: u8, to: u8, code: u16)
    requires { (from < 24) × (to < 24) }
    ensures { table.new ≡ store_in table.old from to code }
{
    table[usize::from(from)][usize::from(to)] = code;
}

// A list's inequalities, each place keeping the largest: a batch's delays, or the turns taken.
#[tactic(auto, unfolding(crate::specs::Table::with_put))]
pub fn put_all(table: &mut [[u16; 24]; 24], list: &[Inequality])
    requires { Placed list.now (length list.now) }
    ensures { table.new ≡ with_put list.now table.old (length list.now) }
{
    for q in list {
        put(table, q.from, q.to, q.code);
    }
}

// A list's delays, each place getting the last: without a comparison, for delays that have the smallest code of their pair.
// (Not `put_all`: the clause is `with_stored` and not `with_put`; each node stores the delays, and they need no comparison.)
#[tactic(auto, unfolding(crate::specs::Table::with_stored))]
pub fn store_delays(table: &mut [[u16; 24]; 24], list: &[Inequality])
    requires { Placed list.now (length list.now) }
    ensures { table.new ≡ with_stored list.now table.old (length list.now) }
{
    for q in list {
        store(table, q.from, q.to, q.code);
    }
}
