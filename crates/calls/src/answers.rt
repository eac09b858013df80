// The answers of the planner's calls, as they are printed: a letter for the call, a letter for the case, and its numbers.
use crate::text::Output;
use model::{Answer, Refusal};
use std::fmt::Write;

// The answer of opening or of judging, behind the letter of the call: 0, or the refusal's number.
pub fn put_verdict(out: &mut Output, letter: u8, answer: Result<(), Refusal>) {
    out.put(letter);
    let _ = match answer {
        Ok(()) => write!(out, " 0"),
        Err(refusal) => write!(out, " {}", refusal.number()),
    };
}

// The answer of a run.
pub fn put_answer(out: &mut Output, answer: Answer) {
    let _ = match answer {
        Answer::Spent(total) => write!(out, "R S {total}"),
        Answer::Plan(latency, total) => write!(out, "R P {latency} {total}"),
        Answer::NoPlan(total) => write!(out, "R N {total}"),
        Answer::Refused(refusal) => write!(out, "R F {}", refusal.number()),
    };
}

// The answer of writing, behind the letter of the call.
pub fn put_written(out: &mut Output, letter: u8, answer: Result<usize, Refusal>) {
    out.put(letter);
    let _ = match answer {
        Ok(count) => write!(out, " W {count}"),
        Err(refusal) => write!(out, " F {}", refusal.number()),
    };
}
