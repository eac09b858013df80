// The planner's calls, made on the present record: the record after it, or none where the line names no call. The answer goes into the line of output.
use crate::answers::{put_answer, put_verdict, put_written};
use crate::digits::read_file;
use crate::text::{Output, Text};
use model::Search;
use std::fmt::Write;

// What the places of a starts list hold before a run.
const PLACES: [u16; 32] = [
    60000, 60001, 60002, 60003, 60004, 60005, 60006, 60007, 60008, 60009, 60010, 60011, 60012,
    60013, 60014, 60015, 60016, 60017, 60018, 60019, 60020, 60021, 60022, 60023, 60024, 60025,
    60026, 60027, 60028, 60029, 60030, 60031,
];

// Opens the file of a line.
pub fn open(line: &[u8], out: &mut Output) -> Option<Search> {
    let mut room = Text::new();
    let file = read_file(line, &mut room)?;
    let opened = planner::open(file);
    put_verdict(out, b'O', opened.answer);
    Some(opened.search)
}

// Runs with a starts list of a length, and puts the list behind the answer.
pub fn run(search: Search, budget: u32, length: usize, out: &mut Output) -> Option<Search> {
    if 32 < length {
        return None;
    }
    let mut places = PLACES;
    let ran = planner::run(search, budget, &mut places[..length]);
    put_answer(out, ran.answer);
    let _ = write!(out, " :");
    put_list(out, &places[..length]);
    Some(ran.search)
}

// The places of a list, each after a blank.
pub fn put_list(out: &mut Output, list: &[u16]) {
    for place in list {
        let _ = write!(out, " {place}");
    }
}

// Writes the plan or the batch into a buffer of a size, and puts the buffer behind the answer. By the letter: one of two calls, and it is printed
// too, so that a closure beside it would be no plainer.
pub fn write(search: Search, letter: u8, size: usize, out: &mut Output) -> Option<Search> {
    if 4096 < size {
        return None;
    }
    let mut buffer = [b'.'; 4096];
    let answer = match letter {
        b'P' => planner::write_plan(search, &mut buffer[..size]),
        _ => planner::write_batch(search, &mut buffer[..size]),
    };
    put_written(out, letter, answer);
    let _ = write!(out, " : ");
    out.put_shown(&buffer[..size]);
    Some(search)
}

// Judges the second file of a line, a plan text, beside the first. The byte before its blank stands where a letter would.
pub fn judge(search: Search, line: &[u8], out: &mut Output) -> Option<Search> {
    if line.len() < 2 {
        return None;
    }
    let blank = 2 + line[2..].iter().position(|byte| *byte == b' ')?;
    let mut file_room = Text::new();
    let mut text_room = Text::new();
    let file = read_file(&line[..blank], &mut file_room)?;
    let text = read_file(&line[blank - 1..], &mut text_room)?;
    put_verdict(out, b'J', planner::judge(file, text));
    Some(search)
}
