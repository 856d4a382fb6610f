//! Exact numbers: gains in whole trillionths, rounding to samples, times, positions, delays in
//! milliseconds and coefficient files, each read from text exactly.
#![tactic(auto)]

mod capped;
mod clock;
mod coefficient_files;
mod count;
mod decimals;
mod delays;
mod extents;
mod gains;
pub mod inner;
mod number;
mod positions;
mod reciprocal;
mod reduced;
mod rounding;
mod sums;
mod terms;
mod times;

pub use coefficient_files::{CoefFault, Coefficients};
pub use delays::millis;
pub use gains::{Gain, MAX_GAIN, NumberFault, UNIT};
pub use positions::{Anchor, At, Position};
pub use rounding::round_clip;
pub use times::{MAX_POSITION, TimeFault, TimeSpec};
