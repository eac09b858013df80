// Two reservation tables at a distance, the first widened by the rests: whether some station stands in a place of the one and in a tick of the other
// that lies over it. A distance d is passed as k = d + 22; tick a of the first table is its place a + 7, so that place x lies over tick x + 15 - k of the
// second. Only what lies over each other is tested, mask against mask.
ghost use Rattle.std.specs.Prelude.{◌≡◌, ◌≤◌, ◌<◌};
ghost use Rattle.std.proofs.Math.IntN.{sub_ℕ};
ghost use Rattle.tables.specs.Tables.{shares, tables_meet};

use crate::Places;
use model::Job;

// Some station is in both masks.
fn share(first: u16, second: u16) -> bool
    ensures { result ≡ shares first second }
{
    first & second != 0
}

// Some station is in place x of the first table and in mask c of the second, with x - c = k - 15.
pub fn tables_meet(first: &Places, second: &Job, k: usize) -> bool
    requires low_le_end { (first.now.low ≤ first.now.end) × ((first.now.end ≤ 30) × (second.now.ticks ≤ 16)) }
    requires k_bound { k < 45 }
    ensures { result ≡ tables_meet first.now.low first.now.end first.now.masks second.now (sub_ℕ k 15) }
{
    // As first.low.max(k.saturating_sub(15)): tried, and the clash list took a fifth longer.
    let from = if k < first.low + 15 {
        first.low
    } else {
        k - 15
    };
    let last = first
        .end
        .min((usize::from(second.ticks) + k).saturating_sub(15));
    // As `(from..last).any(..)`: tried, and the proof of one goal didn't close.
    for x in from..last {
        if share(first.masks[x], second.masks[x + 15 - k]) {
            return true;
        }
    }
    false
}
