// A rest's frame: A4, a station and its rest ticks.
ghost use Rattle.std.specs.Prelude.{◌≡◌, List};
ghost use Rattle.model.specs.Refusal.{told};
ghost use Rattle.model.specs.Rest.{RestLine, rest};
ghost use Rattle.frame_read.specs.Numbered.{Lowest};
ghost use Rattle.frame_read.specs.Rest.{rest_station, rest_told};

use crate::frame::Frame;
use crate::numbered::rises;
use limits::rest_line_ok;
use model::Refusal;

// The station and its rest, after other lines: `low` is the lowest station that is above all of theirs.
pub fn rest_frame(frame: &Frame<'_>, low: u8) -> Result<(u8, u8), Refusal>
    ensures { (before : List RestLine) → Lowest rest_station low before → told result ≡ rest_told (rest before frame.now) }
{
    if !frame.is(0xA4, 3) {
        return Err(Refusal::Kind);
    }
    let station = frame.byte(1);
    let ticks = frame.byte(2);
    if !rises(station, 16, low) || !rest_line_ok(ticks) {
        return Err(Refusal::Rest);
    }
    Ok((station, ticks))
}
