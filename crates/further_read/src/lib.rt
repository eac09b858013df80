// The further lines of edition 02: those of each kind one after the other, kind after kind, up to the end of the file, with refusals 1, 2, 20 and 21.
#![tactic(auto)]

mod further;
mod kinds;
mod rests;
mod windows;

pub use further::{FurtherRead, read_further};
