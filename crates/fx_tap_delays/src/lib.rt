// Written by scripts/effects from effects/*.toml. Do not edit.
//! Effects whose output frame depends on the input frame and on earlier ones: each sample is one exact fraction, rounded once.
#![tactic(auto)]

pub mod delay;
pub mod echo;
pub mod echos;
pub mod extents;
mod series_lines;
mod sums;
pub mod tapped;

pub use delay::Delay;
pub use echo::Echo;
pub use echos::Echos;
