// The planner's calls for C: the caller keeps the record, plain numbers only, and lends it with its buffers. None asks anything of its caller
// beyond valid memory. Each that takes a record makes the planner's call on the search that it stands for; opening and running store what it yields.
// Judging takes none, and the version stands apart.
#![tactic(auto)]

ghost use Rattle.std.specs.Prelude.{◌≡◌};
ghost use Rattle.model.specs.Text.{plan_text, batch_text};
ghost use Rattle.planner_c.specs.Records.{search_in};
ghost use Rattle.planner_c.specs.Calls.{opened_record, ran_record, written_text, judged_number};

use model::{Answer, Search};
use records::Record;
use replies::{Reply, Text, number_of};

mod records;
mod replies;

// The version of all that C sees here, a number that its name carries too: it rises whenever the record's layout, a number's meaning or a call changes
// and when a call is added, and who was compiled for another version does not find this name.
#[unsafe(no_mangle)]
pub extern "C" fn planner_version_5() -> u32
    ensures { result ≡ 5 }
{
    5
}

// Opens a batch file: 0 and the record of its fresh search, or the refusal, 1 to 10, 20 or 21, which leaves the record as it was.
#[unsafe(no_mangle)]
pub extern "C" fn planner_open(file: &[u8], state: &mut Record) -> u8
    ensures { (result, state.new) ≡ opened_record state.old file.now }
{
    let opened = planner::open(file);
    match opened.answer {
        Ok(()) => {
            *state = Record::from(opened.search);
            0
        }
        Err(refusal) => refusal.number(),
    }
}

// Visits nodes until the search has ended or the budget is used; with a plan, its starts are the first n places of `starts`.
// Refusals 11 to 14 leave the record and the list as they were.
#[unsafe(no_mangle)]
pub extern "C" fn planner_run(state: &mut Record, budget: u32, starts: &mut [u16]) -> Reply
    ensures { ((result, state.new), starts.new) ≡ ran_record state.old budget starts.old }
{
    let ran = planner::run(Search::from(*state), budget, starts);
    match ran.answer {
        Answer::Refused(_) => {}
        Answer::Spent(_) | Answer::Plan(_, _) | Answer::NoPlan(_) => {
            *state = Record::from(ran.search);
        }
    }
    Reply::from(ran.answer)
}

// The plan text of an ended search into a buffer: the number of bytes, or a refusal, 12, 15 or 16, that leaves the buffer as it was.
#[unsafe(no_mangle)]
pub extern "C" fn planner_write_plan(state: &Record, buffer: &mut [u8]) -> Text
    ensures { (result, buffer.new) ≡ written_text (plan_text (search_in state.now)) buffer.old }
{
    Text::from(planner::write_plan(Search::from(*state), buffer))
}

// The file of the record's batch into a buffer: the number of bytes, or a refusal, 12 or 16, that leaves the buffer as it was.
#[unsafe(no_mangle)]
pub extern "C" fn planner_write_batch(state: &Record, buffer: &mut [u8]) -> Text
    ensures { (result, buffer.new) ≡ written_text (batch_text (search_in state.now)) buffer.old }
{
    Text::from(planner::write_batch(Search::from(*state), buffer))
}

// Judges a plan text beside its batch file: 0 where it passes, or the refusal, 1 to 10, 20, 21, or 17 to 19.
#[unsafe(no_mangle)]
pub extern "C" fn planner_judge(file: &[u8], text: &[u8]) -> u8
    ensures { result ≡ judged_number file.now text.now }
{
    number_of(planner::judge(file, text))
}
