// Written by scripts/effects from effects/*.toml. Do not edit.
//! The effect `fir`: sums of samples times coefficients, each one exact fraction, rounded once.
#![tactic(auto)]

mod channels;
pub mod fir;
mod kernel;
mod reduced;
mod split;

pub use fir::Fir;
