// Opening a batch file: its batch, or the first refusal; and then the fresh search of it.
ghost use Rattle.std.specs.Prelude.{◌≡◌};
ghost use Rattle.model.specs.Open.{open_file, opened};
ghost use Rattle.model.specs.Refusal.{told};

use crate::few::few_clashes;
use model::{Batch, Opened, Refusal, fresh};
use reading::{blank_batch, read_batch};
use starts::met::delays_met;

// The batch of a file that opens.
pub fn open_batch(file: &[u8]) -> Result<Batch, Refusal>
    ensures { told result ≡ open_file file.now }
{
    let batch = read_batch(file)?;
    if !few_clashes(&batch) {
        return Err(Refusal::Clashes);
    }
    if !delays_met(batch) {
        return Err(Refusal::Unmet);
    }
    Ok(batch)
}

// The fresh search of a file that opens; beside a refusal stands the one blank record (demand 1, OpeningLeaves.refused).
pub fn open_file(file: &[u8]) -> Opened
    ensures { result ≡ opened file.now }
{
    match open_batch(file) {
        Ok(batch) => Opened {
            answer: Ok(()),
            search: fresh(batch),
        },
        Err(refusal) => Opened {
            answer: Err(refusal),
            search: fresh(blank_batch()),
        },
    }
}
