// Frames where they are due in a file: one, or as many as are asked for, one after the other.
// (File and place stand apart, as in lines.)
ghost use Rattle.std.specs.Prelude.{◌≡◌, ◌≤◌, ℕ, List, length, drop};
ghost use Rattle.model.specs.Common.{Outcome};
ghost use Rattle.model.specs.Open.{header, job, delay, read_one, read_all};
ghost use Rattle.model.specs.Refusal.{told};
ghost use Rattle.reading.specs.Read.{one_told, all_told};

use frame_read::delay::delay_frame;
use frame_read::frame::Frame;
use frame_read::header::header_frame;
use frame_read::job::job_frame;
use lines::line_at;
use model::{Delay, Job, Refusal};

// A kind of line: what its frame says.
pub trait Kind {
    type Item: Copy;

    ghost says: { Self → List ℕ → Outcome Self.Item };

    fn read(&self, frame: &Frame<'_>) -> Result<Self::Item, Refusal>
        ensures { told result ≡ says self.now frame.now };
}

// The header: the edition, n and m.
// (Plain numbers, as the definition `header` has them.)
#[derive(Clone, Copy)]
pub struct HeaderLine;

impl Kind for HeaderLine {
    type Item = (u8, u8, u8);

    ghost says = { λ _. header };

    fn read(&self, frame: &Frame<'_>) -> Result<(u8, u8, u8), Refusal> {
        header_frame(frame)
    }
}

// A job.
#[derive(Clone, Copy)]
pub struct JobLine;

impl Kind for JobLine {
    type Item = Job;

    ghost says = { λ _. job };

    fn read(&self, frame: &Frame<'_>) -> Result<Job, Refusal> {
        job_frame(frame)
    }
}

// A delay between n jobs.
#[derive(Clone, Copy)]
pub struct DelayLine {
    pub n: u8,
}

impl Kind for DelayLine {
    type Item = Delay;

    ghost says = { λ k. delay k.n };

    fn read(&self, frame: &Frame<'_>) -> Result<Delay, Refusal> {
        delay_frame(frame, self.n)
    }
}

// The frame that is due at a place of the file, and the place behind it.
pub fn read_one<K: Kind>(kind: &K, file: &[u8], at: usize) -> Result<(K::Item, usize), Refusal>
    ensures { told result ≡ one_told file.now (read_one (K.says kind.now) (drop at file.now)) }
{
    if file.len() <= at {
        return Err(Refusal::Missing);
    }
    let Some(end) = line_at(file, at) else {
        return Err(Refusal::Line);
    };
    let item = kind.read(&Frame::new(file, at, end))?;
    Ok((item, end + 1))
}

// As many as `count`, before blanks, and the place behind them. (Kind and count stand apart, as in the definition `read_all`.)
pub fn read_all<K: Kind, const N: usize>(
    kind: &K,
    file: &[u8],
    at: usize,
    count: usize,
    blank: K::Item,
) -> Result<([K::Item; N], usize), Refusal>
    requires { (at ≤ length file.now) × (count ≤ N) }
    ensures { told result ≡ all_told N blank file.now (read_all (K.says kind.now) count (drop at file.now)) }
{
    let mut items = [blank; N];
    let mut place = at;
    for k in 0..count {
        let (item, next) = read_one(kind, file, place)?;
        items[k] = item;
        place = next;
    }
    Ok((items, place))
}
