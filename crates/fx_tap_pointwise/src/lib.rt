// Written by scripts/effects from effects/*.toml. Do not edit.
//! Memoryless effects: each output frame depends on one input frame. Each sample is one exact fraction, rounded once.
#![tactic(auto)]

pub mod around;
pub mod both;
mod channels;
pub mod dcshift;
pub mod mapped;
mod out_spec;
pub mod per_sample;
mod proper;
pub mod remix;
pub mod vol;

pub use dcshift::DcShift;
pub use out_spec::{OutSpec, Weight};
pub use remix::Remix;
pub use vol::Vol;
