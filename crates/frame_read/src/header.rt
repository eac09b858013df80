// A header's frame: A0, the edition, n and m.
ghost use Rattle.std.specs.Prelude.{◌≡◌};
ghost use Rattle.model.specs.Open.{header};
ghost use Rattle.model.specs.Refusal.{told};

use crate::frame::Frame;
use limits::{counts_ok, edition_ok};
use model::Refusal;

// The edition, n and m: plain numbers, as the definition `header` has them.
pub fn header_frame(frame: &Frame<'_>) -> Result<(u8, u8, u8), Refusal>
    ensures { told result ≡ header frame.now }
{
    if !frame.is(0xA0, 4) {
        return Err(Refusal::Kind);
    }
    let edition = frame.byte(1);
    if !edition_ok(edition) {
        return Err(Refusal::Edition);
    }
    let n = frame.byte(2);
    let m = frame.byte(3);
    if !counts_ok(n, m) {
        return Err(Refusal::Counts);
    }
    Ok((edition, n, m))
}
