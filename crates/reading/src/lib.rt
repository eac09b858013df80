// A batch file to its batch: line by line, frame by frame, with refusals 1 to 8, and 20 and 21 in the further lines of edition 02.
#![tactic(auto)]

mod batch;
mod frames;

pub use batch::{blank_batch, read_batch};
