//! A chain that is fed a block at a time, and can be restored from the bytes that it was frozen to.
#![tactic(auto)]

mod frozen;
pub mod inner;
pub mod stream;
mod thawed;

pub use stream::{FeedFault, Stream, Waits};
