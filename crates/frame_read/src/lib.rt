// One frame of a batch file, read where it stands: its bytes, and for each kind what it says, with refusals 2 to 6, 20 and 21.
#![tactic(auto, using(model::proofs::OutcomeLaws::accepts_require, model::proofs::OutcomeLaws::refuses_require), unfolding(model::specs::Line::frame_is, model::specs::Open::header, model::specs::Open::job, model::specs::Open::job_in, model::specs::Open::delay, model::specs::Open::delay_in, model::specs::Open::signed, model::specs::Refusal::number, model::specs::Refusal::told))]

pub mod delay;
pub mod frame;
pub mod header;
pub mod job;
mod numbered;
pub mod rest;
pub mod window;
