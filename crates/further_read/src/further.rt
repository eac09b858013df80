// The further lines of edition 02, kind after kind, up to the end of the file.
ghost use Rattle.std.specs.Prelude.{◌≡◌, ◌≤◌, length, drop};
ghost use Rattle.model.specs.Open.{nothing_left, read_further};
ghost use Rattle.model.specs.Refusal.{told};
ghost use Rattle.further_read.specs.Further.{further_told};

use crate::rests::read_rests;
use crate::windows::read_windows;
use lines::line_at;
use model::{Refusal, Window};

// What each kind says.
#[derive(Clone, Copy)]
pub struct FurtherRead {
    pub windows: [Window; 24],
    pub rests: [u8; 16],
}

// Behind the last kind the file ends: what is left is no line, or one of a kind that is unknown or falls.
fn nothing_left(file: &[u8], at: usize) -> Result<(), Refusal>
    ensures { told result ≡ nothing_left (drop at file.now) }
{
    if file.len() <= at {
        return Ok(());
    }
    match line_at(file, at) {
        None => Err(Refusal::Line),
        Some(_) => Err(Refusal::Kind),
    }
}

// The further lines of n jobs, from a place of the file.
pub fn read_further(file: &[u8], at: usize, n: u8) -> Result<FurtherRead, Refusal>
    requires { (at ≤ length file.now) × (n ≤ 24) }
    ensures { told result ≡ further_told (read_further n (drop at file.now)) }
{
    let (windows, next) = read_windows(file, at, n)?;
    let (rests, end) = read_rests(file, next)?;
    nothing_left(file, end)?;
    Ok(FurtherRead { windows, rests })
}
