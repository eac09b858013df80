// One line of input: which call it names, and with which numbers. The answer goes into the line of output.
use crate::calling::{judge, open, run, write};
use crate::numbers::numbers_of;
use crate::set::set;
use crate::show::show;
use crate::text::Output;
use model::Search;

// A line, one letter and what stands behind it: the record after its call, or none where it names no call.
// The letter comes with the input and names no step that is stored: a match.
pub fn call(search: Search, line: &[u8], out: &mut Output) -> Option<Search> {
    let letter = *line.first()?;
    match letter {
        b'O' => open(line, out),
        b'J' => judge(search, line, out),
        b'R' => {
            let [budget, length] = numbers_of::<2>(line)?;
            run(search, budget, length as usize, out)
        }
        b'P' | b'B' => {
            let [size] = numbers_of::<1>(line)?;
            write(search, letter, size as usize, out)
        }
        b'S' => {
            let numbers = numbers_of::<4>(line)?;
            Some(set_place(search, numbers, out))
        }
        b'D' => {
            numbers_of::<0>(line)?;
            show(&search, out);
            Some(search)
        }
        _ => None,
    }
}

// Setting a place of the record, by the numbers field, A, B and value.
fn set_place(search: Search, numbers: [u32; 4], out: &mut Output) -> Search {
    out.put(b'S');
    match set(search, numbers) {
        Some(next) => next,
        None => {
            out.put(b' ');
            out.put(b'?');
            search
        }
    }
}
