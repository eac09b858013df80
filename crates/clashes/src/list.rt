// The clash list of a batch: by i, then j, then d, all rising, each once. Job i's table is widened by the rests, once for all jobs after it.
ghost use Rattle.std.specs.Prelude.{◌≡◌, ◌*◌, ◌≤◌, ◌<◌, replicate};
ghost use Rattle.clashes.specs.List.{put, pair_codes, list_of, Grown, Tabled};

use crate::Clashes;
use model::{Batch, Job};
use tables::{Places, rested, tables_meet, widened};

// Counts a code, and stores it where there is room.
fn put_code(clashes: &mut Clashes, code: usize)
    requires { (clashes.old.count < 65536) × (code < 65536) }
    ensures { clashes.new ≡ put clashes.old code }
{
    if clashes.count < 1024 {
        clashes.codes[clashes.count] = code as u16;
    }
    clashes.count += 1;
}

// Adds the clashes of two jobs, the first by its places, by rising distance; base is i * 2048 + j * 64. Further apart than the places and the second's
// ticks reach, the tables do not meet.
fn add_pair(clashes: &mut Clashes, first: &Places, second: &Job, base: usize)
    requires low_bound { (first.now.low ≤ 7) × ((7 ≤ first.now.end) × ((first.now.end ≤ 30) × (second.now.ticks ≤ 16))) }
    requires count_bound { (clashes.old.count ≤ 30000) × (base ≤ 48576) }
    ensures { Grown clashes.old clashes.new (pair_codes first.now.low first.now.end first.now.masks second.now base) 45 }
{
    for k in first.low + 16 - usize::from(second.ticks)..first.end + 15 {
        if tables_meet(first, second, k) {
            put_code(clashes, base + k);
        }
    }
}

// The clashes of a batch. All are counted, and the first 1,024 stored where the caller has room for them, so that no list is copied.
pub fn list_clashes(batch: &Batch, clashes: &mut Clashes)
    requires tabled { Tabled batch.now }
    requires codes_value { clashes.old.codes ≡ replicate 1024 0 }
    ensures { clashes.new ≡ list_of batch.now }
{
    let n = usize::from(batch.n);
    let rests = rested(&batch.rests);
    clashes.count = 0;
    for i in 0..n.saturating_sub(1) {
        let first = widened(&batch.jobs[i], &rests);
        for j in i + 1..n {
            // A copy, and not the batch's own: a code that is stored cannot change it, so that its ticks are read once for all distances.
            let second = batch.jobs[j];
            add_pair(clashes, &first, &second, i * 2048 + j * 64);
        }
    }
}
