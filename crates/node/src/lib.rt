// One node of the search: where its rounds begin, what they reach, and where it goes from there.
#![tactic(auto)]

mod back;
mod kit;
mod rows;
pub mod visit;

pub use kit::{Kit, Reach, Row, Trail, Walk};
