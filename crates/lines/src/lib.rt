// One line of upper-case hexadecimal, read in place from a file and written in place into a buffer.
#![tactic(auto)]

mod read;
mod write;

pub use read::{byte_at, line_at};
pub use write::{put_byte, put_end, put_four, put_two};
