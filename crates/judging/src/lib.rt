// A plan text judged beside its batch file: the file's own refusals, and then 17, 18 and 19 (02, Q-1).
#![tactic(auto)]

mod judge;
mod plan;

pub use judge::judge_file;
