//! What `upsample` and `downsample` share.

pub mod words;

/// The greatest factor of a change of rate.
pub const MAX_FACTOR: u64 = 256;
