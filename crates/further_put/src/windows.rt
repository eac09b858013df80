// The window lines of a batch, one for each job that has one, jobs in rising order. (A batch comes by value: a proof does not know how long the arrays of
// structs are in one that is lent.)
// (That n is at most 24 is asked in the contracts, and no invariant of a batch: C's record holds any number.)
ghost use Rattle.std.specs.Prelude.{◌≡◌, ◌==◌, not, ◌+◌, ◌*◌, ◌≤◌, length, count_by};
ghost use Rattle.model.specs.Common.{joined};
ghost use Rattle.model.specs.Limits.{most_jobs};
ghost use Rattle.model.specs.Window.{window_text, window_lines};
ghost use Rattle.lines.specs.Write.{overwritten};
ghost use Rattle.further_put.specs.Windows.{window_piece};

use frame_put::put_window;
use model::{Batch, Window};

pub fn put_windows(buffer: &mut [u8], at: usize, batch: Batch) -> usize
    requires { (batch.n ≤ most_jobs) × (at + length (joined window_text (window_lines batch)) ≤ length buffer.old) }
    ensures { (result ≡ at + length (joined window_text (window_lines batch))) × (buffer.new ≡ overwritten buffer.old at (joined window_text (window_lines batch))) }
{
    let n = usize::from(batch.n);
    let mut next = at;
    for (i, window) in batch.windows[..n].iter().enumerate() {
        next = put_lined(buffer, next, i as u8, *window);
    }
    next
}

// The number of their bytes.
pub fn windows_length(batch: Batch) -> usize
    requires { batch.n ≤ most_jobs }
    ensures { (result ≡ length (joined window_text (window_lines batch))) × (result ≤ 13 * batch.n) }
{
    let n = usize::from(batch.n);
    13 * lined(&batch.windows[..n])
}

// How many places have a line.
fn lined(windows: &[Window]) -> usize
    ensures { result ≡ count_by (λ window. not (window.lined == 0)) windows.now }
{
    windows.iter().filter(|window| window.lined != 0).count()
}

// A job's line if it has one.
fn put_lined(buffer: &mut [u8], at: usize, job: u8, window: Window) -> usize
    requires { at + length (window_piece job window) ≤ length buffer.old }
    ensures { (result ≡ at + length (window_piece job window)) × (buffer.new ≡ overwritten buffer.old at (window_piece job window)) }
{
    if window.lined == 0 {
        return at;
    }
    put_window(buffer, at, job, window)
}
