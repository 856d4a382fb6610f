//! Stages in sequence, one frame at a time: what is the same for every effect.
#![tactic(auto)]

pub mod feed;
pub mod flow;
mod frozen;
mod moves;
mod one_to_one;
mod runs;
pub mod stage_calls;
