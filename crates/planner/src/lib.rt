// The planner's public calls. None asks anything of its caller: whatever is wrong with what it is given is refused, by what 01 or 02 says.
#![tactic(auto)]

ghost use Rattle.std.specs.Prelude.{◌≡◌};
ghost use Rattle.model.specs.Open.{opened};
ghost use Rattle.model.specs.Run.{ran};
ghost use Rattle.model.specs.Text.{plan_text, batch_text, written};
ghost use Rattle.model.specs.Judge.{judged};

use model::{Opened, Ran, Refusal, Search};

// Opens a batch file: the fresh search of its batch, or a refusal, 1 to 10, 20 or 21, and the blank record.
pub fn open(file: &[u8]) -> Opened
    ensures { result ≡ opened file.now }
{
    opening::open_file(file)
}

// Visits nodes until the search has ended or the budget is used; with a plan, its starts are the first n places of `starts`.
// Refusals 11 to 14 leave the record and the list as they were.
pub fn run(search: Search, budget: u32, starts: &mut [u16]) -> Ran
    ensures { (result, starts.new) ≡ ran search budget starts.old }
{
    search::run_search(search, budget, starts)
}

// The plan text of an ended search into a buffer: the number of bytes, or a refusal, 12, 15 or 16, that leaves the buffer as it was.
pub fn write_plan(search: Search, buffer: &mut [u8]) -> Result<usize, Refusal>
    ensures { (result, buffer.new) ≡ written (plan_text search) buffer.old }
{
    writing::write_plan(search, buffer)
}

// The file of the record's batch into a buffer: the number of bytes, or a refusal, 12 or 16, that leaves the buffer as it was.
pub fn write_batch(search: Search, buffer: &mut [u8]) -> Result<usize, Refusal>
    ensures { (result, buffer.new) ≡ written (batch_text search) buffer.old }
{
    writing::write_batch(search, buffer)
}

// Judges a plan text beside its batch file: passed where its lines name the batch's jobs in order, its starts are a valid plan and its latency is theirs; or a
// refusal, the file's own, 1 to 10, 20 or 21, or 17, 18 or 19.
pub fn judge(file: &[u8], text: &[u8]) -> Result<(), Refusal>
    ensures { result ≡ judged file.now text.now }
{
    judging::judge_file(file, text)
}
