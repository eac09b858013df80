// The further lines of edition 02, put one behind the other, kind by kind, and how long they are.
#![tactic(auto)]

mod rests;
mod windows;

pub use rests::{put_rests, rests_length};
pub use windows::{put_windows, windows_length};
