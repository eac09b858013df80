// A run: nodes until the search has ended or the budget is used, and its answer.
#![tactic(auto)]

mod answer;
mod path;
mod run;

pub use run::run_search;
