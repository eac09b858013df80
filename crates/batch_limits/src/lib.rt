// Whether a batch from anywhere keeps its limits: n and m, the ticks of its jobs, the edition and the further lines. Its delays are not looked at here.
// A batch goes by value here: behind a reference a proof has no length for an array of structs. That n is at most 24 is asked in the contracts, and not kept by a
// type: it is what is found out here, of a batch that promises nothing.
#![tactic(auto)]

mod batch;
mod further;
mod rest;
mod window;

pub use batch::limits_pass;
