// A check program over the planner's public calls: calls on standard input, one a line, and answers on standard output.
#![tactic(auto)]

mod answers;
mod calling;
mod commands;
mod digits;
mod numbers;
mod set;
mod show;
mod sum;
mod text;

use model::Search;
use std::io::Read;
use text::{Output, Text};

// A line of input.
type Line = Text<131080>;

fn main(rt: HostRuntime) {
    answer_all(&rt, planner::open(&[]).search);
}

// Answers each line, on the record that the one before it left. A proved loop has to end, and nothing says that input does: it has more turns than any
// run takes.
fn answer_all(rt: &(impl Input + Print), first: Search) {
    let mut from = rt.reader();
    let mut chunk = [0u8; 65536];
    let mut line = Line::new();
    let mut search = first;
    for _ in 0..u64::MAX {
        match from.read(&mut chunk) {
            Ok(0) | Err(_) => break,
            Ok(count) => search = take(rt, search, &chunk[..count], &mut line),
        }
    }
}

// Takes each byte into the line, and answers each line.
fn take(rt: &impl Print, first: Search, chunk: &[u8], line: &mut Line) -> Search {
    let mut search = first;
    for byte in chunk {
        if *byte == b'\n' {
            search = answer(rt, search, line);
            line.clear();
        } else {
            line.put(*byte);
        }
    }
    search
}

// Answers a line, `?` where it names no call. One that fills its room was too long and counts as empty, which names none.
fn answer(rt: &impl Print, search: Search, line: &Line) -> Search {
    let mut out = Output::new();
    let text = if line.is_full() { &[] } else { line.as_bytes() };
    let next = match commands::call(search, text, &mut out) {
        Some(next) => next,
        None => {
            out.put(b'?');
            search
        }
    };
    out.put(b'\n');
    let _ = rt.write_all(out.as_bytes());
    next
}
