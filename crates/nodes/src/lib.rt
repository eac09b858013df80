// The nodes of a run, one after the other, until the search has ended or the budget is used.
#![tactic(auto)]

mod nodes;

pub use nodes::{Walked, visit_nodes};
