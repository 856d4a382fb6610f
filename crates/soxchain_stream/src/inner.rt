//! What a conversion of a whole file needs, beyond the public calls.

pub use crate::frozen::append_words;
pub use crate::thawed::to_words;
