//! A ring buffer of samples for whole frames, each of as many samples as there are channels.
#![tactic(auto)]

mod ring;

pub use ring::Ring;
