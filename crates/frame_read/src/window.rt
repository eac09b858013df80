// A window's frame: A3, a job, its earliest and its latest start.
ghost use Rattle.std.specs.Prelude.{◌≡◌, List};
ghost use Rattle.model.specs.Refusal.{told};
ghost use Rattle.model.specs.Window.{WindowLine, window};
ghost use Rattle.frame_read.specs.Numbered.{Lowest};
ghost use Rattle.frame_read.specs.Window.{window_job, window_told};

use crate::frame::Frame;
use crate::numbered::rises;
use limits::ends_ok;
use model::{Refusal, Window};

// The job and its window, among n jobs, and after other lines: `low` is the lowest job that is above all of theirs.
pub fn window_frame(frame: &Frame<'_>, n: u8, low: u8) -> Result<(u8, Window), Refusal>
    ensures { (before : List WindowLine) → Lowest window_job low before → told result ≡ window_told (window n before frame.now) }
{
    if !frame.is(0xA3, 6) {
        return Err(Refusal::Kind);
    }
    let job = frame.byte(1);
    let earliest = frame.wide(2);
    let latest = frame.wide(4);
    if !rises(job, n, low) || !ends_ok(earliest, latest) {
        return Err(Refusal::Window);
    }
    let window = Window {
        lined: 1,
        earliest,
        latest,
    };
    Ok((job, window))
}
