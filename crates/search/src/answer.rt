// What a search that was run answers, and the starts of its plan in the caller's list.
ghost use Rattle.std.specs.Prelude.{◌≡◌, ◌++◌, ◌≤◌, length, take, drop};
ghost use Rattle.model.specs.Run.{answer_of, starts_after};

use model::{Answer, Search};

// The first n starts go to the front of the list, and the rest of it stays. (n stands beside them, and its bound in the contracts: C's record holds 24
// starts, and any n.)
fn give_starts(starts: &[u16; 24], n: usize, list: &mut [u16])
    requires { (n ≤ 24) × (n ≤ length list.old) }
    ensures { list.new ≡ take n starts.now ++ drop n list.old }
{
    // (No copy_from_slice, which asks for memmove: the library asks its linker for memcpy and memset alone.)
    for k in 0..n {
        list[k] = starts[k];
    }
}

// Spent when the search has not ended, a plan when it has ended with a best, no plan when it has ended without.
#[inline(never)]
pub fn answered(search: &Search, list: &mut [u16]) -> Answer
    requires { (search.now.batch.n ≤ 24) × (search.now.batch.n ≤ length list.old) }
    ensures { (result ≡ answer_of search.now.ended search.now.best search.now.total) × (list.new ≡ starts_after result search.now.batch.n search.now.starts list.old) }
{
    let total = search.total;
    if !search.ended {
        return Answer::Spent(total);
    }
    let Some(latency) = search.best else {
        return Answer::NoPlan(total);
    };
    give_starts(&search.starts, usize::from(search.batch.n), list);
    Answer::Plan(latency, total)
}
