//! The functions on sums that the effects use.

pub use crate::sums::{
    Places, Sums, add_places, add_products, add_samples, add_wide_products, product,
    sample_or_silence,
};
