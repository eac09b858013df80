// The rest lines of a batch file.
ghost use Rattle.std.specs.Prelude.{◌≡◌, ◌≤◌, length, drop};
ghost use Rattle.model.specs.Refusal.{told};
ghost use Rattle.further_read.specs.Rests.{rests_told, read_rests, rest_from};

use crate::kinds::{Kind, read_kind};
use frame_read::frame::Frame;
use frame_read::rest::rest_frame;
use model::Refusal;

// Kind A4: a station's rest.
#[derive(Clone, Copy)]
struct Rests;

impl Kind for Rests {
    type Place = u8;

    const BYTE: u8 = 0xA4;

    ghost BYTE = { 0xA4 };

    ghost one = { λ _. rest_from };

    fn line(&self, frame: &Frame<'_>, low: u8) -> Result<(u8, u8), Refusal> {
        rest_frame(frame, low)
    }
}

// The rests of all stations, from a place of the file, and the place behind the lines.
pub fn read_rests(file: &[u8], at: usize) -> Result<([u8; 16], usize), Refusal>
    requires { at ≤ length file.now }
    ensures { told result ≡ rests_told file.now (read_rests (drop at file.now)) }
{
    let mut rests = [0u8; 16];
    let place = read_kind(&Rests, &mut rests, file, at)?;
    Ok((rests, place))
}
