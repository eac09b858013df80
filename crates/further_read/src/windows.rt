// The window lines of a batch file.
ghost use Rattle.std.specs.Prelude.{◌≡◌, ◌≤◌, length, drop};
ghost use Rattle.model.specs.Refusal.{told};
ghost use Rattle.further_read.specs.Windows.{windows_told, read_windows, window_from};

use crate::kinds::{Kind, read_kind};
use frame_read::frame::Frame;
use frame_read::window::window_frame;
use model::{NO_WINDOW, Refusal, Window};

// Kind A3 among n jobs: a job's window.
#[derive(Clone, Copy)]
struct Windows {
    n: u8,
}

impl Kind for Windows {
    type Place = Window;

    const BYTE: u8 = 0xA3;

    ghost BYTE = { 0xA3 };

    ghost one = { λ k. window_from k.n };

    fn line(&self, frame: &Frame<'_>, low: u8) -> Result<(u8, Window), Refusal> {
        window_frame(frame, self.n, low)
    }
}

// The windows of n jobs, from a place of the file, and the place behind the lines.
pub fn read_windows(file: &[u8], at: usize, n: u8) -> Result<([Window; 24], usize), Refusal>
    requires { (at ≤ length file.now) × (n ≤ 24) }
    ensures { told result ≡ windows_told file.now (read_windows n (drop at file.now)) }
{
    let mut windows = [NO_WINDOW; 24];
    let place = read_kind(&Windows { n }, &mut windows, file, at)?;
    Ok((windows, place))
}
