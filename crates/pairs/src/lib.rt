// The listed clashes by pairs of jobs, so that starts are held to all clashes of a pair at once.
#![tactic(auto)]

mod pairs;

pub use pairs::{Pairs, find_pairs, unmet};
