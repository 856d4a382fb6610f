//! The effects of a plan: each with its resolved arguments, what it does to rate and channels, how many frames it holds, and how
//! many it makes.
#![tactic(auto)]

mod bounds;
mod effect;
mod registry;

pub use bounds::{MAX_LENGTH, hold, is_too_long, work};
pub use effect::Layout;
pub use registry::Effect;
