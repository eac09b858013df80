// Judging: what the text claims beside the batch of the file, in the order of the refusals.
ghost use Rattle.std.specs.Prelude.{◌≡◌, true};
ghost use Rattle.model.specs.Format.{Within};
ghost use Rattle.model.specs.Open.{few_clashes};
ghost use Rattle.model.specs.Judge.{judge_text, judged};
ghost use Rattle.model.specs.Refusal.{told};

use crate::plan::is_right;
use claims::{read_head, read_lines};
use model::{Batch, Refusal};
use opening::open_batch;

// Beside a batch that was opened: 17, 18, 19.
fn judge_text(batch: &Batch, text: &[u8]) -> Result<(), Refusal>
    requires { Within batch.now × (few_clashes batch.now ≡ true) }
    ensures { told result ≡ judge_text batch.now text.now }
{
    let head = read_head(text).ok_or(Refusal::PlanText)?;
    let lines = read_lines(text, head.next).ok_or(Refusal::PlanText)?;
    if !lines.names_jobs(head.n, batch.n) {
        return Err(Refusal::PlanJobs);
    }
    if !is_right(batch, &lines.starts, head.latency) {
        return Err(Refusal::PlanWrong);
    }
    Ok(())
}

// The file is opened, and the text judged beside its batch.
pub fn judge_file(file: &[u8], text: &[u8]) -> Result<(), Refusal>
    ensures { result ≡ judged file.now text.now }
{
    let batch = open_batch(file)?;
    judge_text(&batch, text)
}
