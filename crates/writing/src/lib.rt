// The batch text and the plan text of a record, into a buffer. Each line is put behind the one before it; nothing is written where
// the text does not fit.
// (Buffer and place stand apart, as frame_put says.)
#![tactic(auto)]

mod batch;
mod batch_text;
mod plan;
mod plan_text;

pub use batch_text::write_batch;
pub use plan_text::write_plan;
