//! The stages of all effects as one type, and those that a plan's effects ask for.
#![tactic(auto)]

pub mod make;
mod registry;
pub mod stage;
pub mod thaw;

pub use make::stages_of;
pub use registry::EffectStage;
pub use thaw::{EffectArguments, arguments_of};
