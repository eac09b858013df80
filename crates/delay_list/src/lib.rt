// The delays of a batch as one list of records, walked from the first to the last. What is left of the walk are three parallel arrays, the
// columns of the list, out of which each delay can be read again.
#![tactic(auto)]

ghost use Rattle.std.specs.Prelude.{◌≡◌, ◌≤◌, ◌<◌, length, set};
ghost use Rattle.delay_list.specs.Columns.{columns_of, delay_at};

use model::Delay;

// Place k of each column is a part of delay k. The places past the last delay are 0.
// The columns stay: the law ColumnLaws.batch_delays, which the page of promises names, speaks of them.
#[derive(Clone, Copy)]
pub struct Columns {
    pub from: [u8; 128],
    pub to: [u8; 128],
    pub weight: [i16; 128],
}

// The parts of a delay, each stored in its column at place k. (The clause names the three arrays: one place of each changes.)
fn store(columns: &mut Columns, k: usize, q: Delay)
    requires { k < 128 }
    ensures { columns.new ≡ record { from = set columns.old.from k q.from; to = set columns.old.to k q.to; weight = set columns.old.weight k q.weight } }
{
    columns.from[k] = q.from;
    columns.to[k] = q.to;
    columns.weight[k] = q.weight;
}

// The columns of a list.
pub fn list_columns(list: &[Delay]) -> Columns
    requires { length list.now ≤ 128 }
    ensures { result ≡ columns_of list.now }
{
    let mut columns = Columns {
        from: [0; 128],
        to: [0; 128],
        weight: [0; 128],
    };
    for (k, q) in list.iter().enumerate() {
        store(&mut columns, k, *q);
    }
    columns
}

// Delay k of a list, read out of its columns.
pub fn delay_at(columns: &Columns, k: usize) -> Delay
    requires { k < 128 }
    ensures { result ≡ delay_at columns.now k }
{
    Delay {
        from: columns.from[k],
        to: columns.to[k],
        weight: columns.weight[k],
    }
}
