// Written by scripts/effects from effects/*.toml. Do not edit.
//! Effects that cut a sound: they give frames unchanged, at other places or not at all.
#![tactic(auto)]

pub mod downsample;
pub mod extents;
pub mod factor;
pub mod fade;
mod lines;
mod many;
pub mod pad;
pub mod selected;
mod slopes;
pub mod trim;
pub mod upsample;

pub use downsample::Downsample;
pub use fade::Fade;
pub use pad::Pad;
pub use trim::Trim;
pub use upsample::Upsample;
