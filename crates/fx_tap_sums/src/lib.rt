//! Sums of samples times weights and gains, and their rounding: product by product, several side by side, and by transforms.
//! Nothing here depends on frames.
#![tactic(auto)]

mod channels;
pub mod convolve;
pub mod inner;
pub mod pairs;
mod products;
pub mod small;
mod sums;
pub mod transforms;
pub mod weights;

pub use channels::round_channel;
pub use products::dot;
