// A whole batch file: its header, its jobs, its delays, and what its edition has after them.
ghost use Rattle.std.specs.Prelude.{◌≡◌, [], ◌≤◌, length, drop};
ghost use Rattle.model.specs.Format.{no_further, batch_of};
ghost use Rattle.model.specs.Open.{read_rest, read_file};
ghost use Rattle.model.specs.Refusal.{told};
ghost use Rattle.further_read.specs.Further.{further_told};

use crate::frames::{DelayLine, HeaderLine, JobLine, read_all, read_one};
use frame_read::job::NO_JOB;
use further_read::{FurtherRead, read_further};
use model::{Batch, NO_DELAY, NO_WINDOW, Refusal};

// The batch of edition 01 with no jobs and no delays.
pub fn blank_batch() -> Batch
    ensures { result ≡ batch_of 1 [] [] no_further }
{
    Batch {
        n: 0,
        m: 0,
        edition: 1,
        jobs: [NO_JOB; 24],
        delays: [NO_DELAY; 128],
        windows: [NO_WINDOW; 24],
        rests: [0; 16],
    }
}

// What an edition has after its delays, from a place of the file: edition 01 nothing, and edition 02 its further lines.
// (Edition and n are plain numbers, as in the definition `read_rest`: n's limit is asked in the clause.)
fn read_rest(file: &[u8], at: usize, edition: u8, n: u8) -> Result<FurtherRead, Refusal>
    requires { (at ≤ length file.now) × (n ≤ 24) }
    ensures { told result ≡ further_told (read_rest edition n (drop at file.now)) }
{
    if edition != 1 {
        return read_further(file, at, n);
    }
    if at < file.len() {
        return Err(Refusal::Trailing);
    }
    Ok(FurtherRead {
        windows: [NO_WINDOW; 24],
        rests: [0; 16],
    })
}

// The batch of a file.
pub fn read_batch(file: &[u8]) -> Result<Batch, Refusal>
    ensures { told result ≡ read_file file.now }
{
    let ((edition, n, m), after_header) = read_one(&HeaderLine, file, 0)?;
    let (jobs, after_jobs) = read_all(&JobLine, file, after_header, usize::from(n), NO_JOB)?;
    let (delays, end) = read_all(&DelayLine { n }, file, after_jobs, usize::from(m), NO_DELAY)?;
    let FurtherRead { windows, rests } = read_rest(file, end, edition, n)?;
    Ok(Batch {
        n,
        m,
        edition: u16::from(edition),
        jobs,
        delays,
        windows,
        rests,
    })
}
