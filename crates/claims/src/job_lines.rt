// The B1 lines of a plan text, read in one pass to its end, however many there are.
ghost use Rattle.std.specs.Prelude.{◌≡◌, ◌&&◌, ◌≤◌, length, drop, eqb};
ghost use Rattle.model.specs.Judge.{read_lines};
ghost use Rattle.claims.specs.JobLines.{lines_told, stored};

use crate::claim::read_job;

// How many they are, whether they name the jobs 0, 1, .. in order, and the starts of the first 24, with 0 in the places past them.
// `ordered` is no Option around the starts: lines out of order are still lines (refusal 18, and not 17). The count goes on past the 24 places, so
// that no slice's length could say it.
#[derive(Clone, Copy)]
pub struct Lines {
    pub count: usize,
    pub ordered: bool,
    pub starts: [u16; 24],
}

impl Lines {
    // A B0 line's n is a batch's, and the lines name the jobs 0 to n - 1 in order.
    pub fn names_jobs(&self, claimed: u8, n: u8) -> bool
        ensures { result ≡ (eqb claimed n && (self.now.ordered && eqb self.now.count n)) }
    {
        claimed == n && self.ordered && self.count == usize::from(n)
    }
}

// The jobs so far are in order, and this one is number k.
fn in_order(ordered: bool, job: u8, k: usize) -> bool
    ensures { result ≡ (ordered && eqb job k) }
{
    ordered && usize::from(job) == k
}

// The start of line k, where there is room for it.
fn store(starts: &mut [u16; 24], k: usize, start: u16)
    ensures { starts.new ≡ stored starts.old k start }
{
    if k < 24 {
        starts[k] = start;
    }
}

// All lines of a text from a place on, where all of them are B1 lines.
pub fn read_lines(text: &[u8], at: usize) -> Option<Lines>
    requires { at ≤ length text.now }
    ensures { result ≡ lines_told (read_lines (drop at text.now)) }
{
    let mut starts = [0u16; 24];
    let mut ordered = true;
    let mut place = at;
    let mut k: usize = 0;
    // A `while`: a turn goes on by a line, and k counts the lines.
    while place < text.len() {
        let line = read_job(text, place)?;
        ordered = in_order(ordered, line.job, k);
        store(&mut starts, k, line.start);
        place = line.next;
        k += 1;
    }
    Some(Lines {
        count: k,
        ordered,
        starts,
    })
}
