// The edition and the further lines of a record from anywhere, kind by kind.
ghost use Rattle.std.specs.Prelude.{◌≡◌, ◌≤◌};
ghost use Rattle.model.specs.Format.{further_of, has_none};
ghost use Rattle.model.specs.Sound.{sound_edition, sound_further};

use crate::rest::{no_rests, rests_pass};
use crate::window::{no_windows, windows_pass};
use model::Batch;

// The edition is 01, which has no further lines, or 02.
#[tactic(auto, unfolding(model::specs::Sound::sound_edition))]
pub fn edition_pass(batch: Batch) -> bool
    requires { batch.n ≤ 24 }
    ensures { result ≡ sound_edition batch }
{
    batch.edition == 2 || batch.edition == 1 && no_further(batch)
}

// There are no further lines.
#[tactic(auto, unfolding(model::specs::Format::has_none, model::specs::Format::further_of, crate::specs::Further::unlined, crate::specs::Further::unrested))]
fn no_further(batch: Batch) -> bool
    requires { batch.n ≤ 24 }
    ensures { result ≡ has_none (further_of batch) }
{
    no_windows(batch) && no_rests(batch)
}

// Each kind keeps its limits.
#[tactic(auto, unfolding(model::specs::Sound::sound_further, crate::specs::Further::windows_pass, crate::specs::Further::rests_pass))]
pub fn further_pass(batch: Batch) -> bool
    requires { batch.n ≤ 24 }
    ensures { result ≡ sound_further batch }
{
    windows_pass(batch) && rests_pass(batch)
}
