// The program `plan`: a batch file on standard input, its shortest plan on standard output, or BF and the refusal's number.
// A failed read or write, and an argument, is told on standard error.
#![tactic(auto)]

mod input;
mod text;

use std::env::{Env, FillError};

fn main(rt: HostRuntime) {
    if has_arguments(&rt) {
        let _ = eprintln!(rt;
            "plan: takes no arguments; the batch file comes on standard input, as in: plan < FILE"
        );
        return;
    }
    plan_input(&rt);
}

// Whether there is an argument behind the program's name.
fn has_arguments(rt: &impl Env) -> bool {
    let mut first = [0u8; 1];
    !matches!(rt.arg(1, &mut first), Err(FillError::NotPresent))
}

// The text for what standard input has.
fn plan_input(rt: &(impl Input + Print + Eprint)) {
    let mut file = [0u8; 65536];
    match input::read_all(&mut rt.reader(), &mut file) {
        Ok(filled) => print(rt, &file[..filled]),
        Err(_) => {
            let _ = eprintln!(rt; "plan: standard input cannot be read");
        }
    }
}

// The text for a batch file.
fn print(rt: &(impl Print + Eprint), batch: &[u8]) {
    let mut text = [0u8; 256];
    let length = text::plan_text(batch, &mut text);
    if !write_text(rt, &text, length) {
        let _ = eprintln!(rt; "plan: standard output cannot be written");
    }
}

// The first `length` bytes of the text, if it has them. (Text and length stand apart, as `plan_text` answers them.)
fn write_text(rt: &impl Print, text: &[u8], length: usize) -> bool {
    if text.len() < length {
        return false;
    }
    rt.write_all(&text[..length]).is_ok()
}
