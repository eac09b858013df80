// A plan text as it is read: its B0 line, and all B1 lines behind it. Whether they name a batch's jobs is asked here too, but no start is tested.
#![tactic(auto)]

mod claim;
mod job_lines;

pub use claim::{Head, read_head};
pub use job_lines::{Lines, read_lines};
