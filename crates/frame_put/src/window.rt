// One window line: A3, a job, its earliest and its latest start.
ghost use Rattle.std.specs.Prelude.{◌≡◌, ◌+◌, ◌≤◌, length};
ghost use Rattle.lines.specs.Write.{overwritten};
ghost use Rattle.frame_put.specs.Window.{window_as};

use crate::frame::put_pair;
use model::Window;

pub fn put_window(buffer: &mut [u8], at: usize, job: u8, window: Window) -> usize
    requires { at + 13 ≤ length buffer.old }
    ensures { (result ≡ at + 13) × (buffer.new ≡ overwritten buffer.old at (window_as job window)) }
{
    let earliest = put_pair(buffer, at, 0xA3, job);
    let latest = lines::put_two(buffer, earliest, window.earliest);
    let end = lines::put_two(buffer, latest, window.latest);
    lines::put_end(buffer, end)
}
