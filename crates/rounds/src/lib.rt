// Rounds over a table of weights: starts and their latency, raised together, up to a bound.
#![tactic(auto)]

pub mod rounds;
