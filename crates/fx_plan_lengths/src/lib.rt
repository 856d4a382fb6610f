//! How many frames the effects of a plan make of a sound, by its number of frames alone.
#![tactic(auto)]

mod lengths;
mod registry;
mod through;

pub use registry::frames_after;
pub use through::frames_through;
