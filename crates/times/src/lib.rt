// A batch's times as arrays: how long each job stays, and its earliest and latest start; and what is found of starts with them, their latency and whether
// they are in time. Places past n hold 0.
#![tactic(auto)]

pub mod ends;
pub mod latency;
pub mod stays;
