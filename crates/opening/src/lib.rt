// A batch file to a fresh record: the batch that is read, with refusals 1 to 8, 20 and 21, and then 9 and 10.
#![tactic(auto)]

mod few;
mod open;

pub use open::{open_batch, open_file};
