// One line of a text, put at a place of a buffer. Each function answers the next place. (Buffer and place stand apart: a struct of both would hold a `&mut`,
// and its contracts would say no less, in more words. A kind is its byte, as in the definitions of the lines.)
#![tactic(auto)]

mod frame;
mod job;
mod rest;
mod window;

pub use frame::{put_delay, put_head, put_header, put_no_plan, put_start};
pub use job::put_job;
pub use rest::put_rest;
pub use window::put_window;
