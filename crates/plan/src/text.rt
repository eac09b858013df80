// From a batch file to the text that the program prints.
ghost use Rattle.std.specs.Prelude.{◌≡◌, ◌≤◌, length, replicate};
ghost use Rattle.model.specs.Limits.{most_jobs, most_budget};
ghost use Rattle.model.specs.Refusal.{number};
ghost use Rattle.model.specs.Run.{ran};
ghost use Rattle.model.specs.Text.{plan_text, refusal_line};
ghost use Rattle.model.specs.Program.{planned, printed, text_for, at_front};

use model::{Answer, Ran, Refusal, Search};

// The line BF and a refusal's number at the front of a buffer; its length.
fn refused(text: &mut [u8], refusal: Refusal) -> usize
    requires { 5 ≤ length text.old }
    ensures { (result, text.new) ≡ at_front (refusal_line (number refusal)) text.old }
{
    let kind = lines::put_byte(text, 0, 0xBF);
    let byte = lines::put_byte(text, kind, refusal.number());
    lines::put_end(text, byte)
}

// The plan text of an ended search; its length. The longest has one line of 19 bytes and 24 of 9.
fn plan_lines(search: Search, text: &mut [u8]) -> usize
    requires { 235 ≤ length text.old }
    ensures { (result, text.new) ≡ at_front (printed (plan_text search)) text.old }
{
    match planner::write_plan(search, text) {
        Ok(length) => length,
        Err(refusal) => refused(text, refusal),
    }
}

// One run with a budget of 1,000,000. Its starts are best's, which the plan text prints.
fn run_once(search: Search) -> Ran
    ensures { result ≡ (ran search most_budget (replicate most_jobs 0)).0 }
{
    let mut starts = [0u16; 24];
    planner::run(search, 1000000, &mut starts)
}

// Runs with budgets of 1,000,000 until an answer other than spent. 100 spent runs use up the limit on total, so that the next is refused.
fn searched(fresh: Search, text: &mut [u8]) -> usize
    requires { 235 ≤ length text.old }
    ensures { (result, text.new) ≡ at_front (printed (planned 101 fresh)) text.old }
{
    let mut search = fresh;
    for _ in 0..101u32 {
        let ran = run_once(search);
        search = ran.search;
        match ran.answer {
            Answer::Spent(_) => {}
            Answer::Refused(refusal) => return refused(text, refusal),
            Answer::Plan(_, _) | Answer::NoPlan(_) => return plan_lines(search, text),
        }
    }
    refused(text, Refusal::Total)
}

// The text for a batch file, at the front of a buffer; its length. (Buffer and length stand apart, as the definition `at_front` has them.)
pub fn plan_text(file: &[u8], text: &mut [u8]) -> usize
    requires { 235 ≤ length text.old }
    ensures { (result, text.new) ≡ at_front (text_for file.now) text.old }
{
    let opened = planner::open(file);
    match opened.answer {
        Ok(()) => searched(opened.search, text),
        Err(refusal) => refused(text, refusal),
    }
}
