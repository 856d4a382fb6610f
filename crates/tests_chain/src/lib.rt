//! The worked rows of fx_chain: bounds and steps; sounds in pieces beside frames one by one. They stand in a crate of their
//! own, so that fx_chain is not proved once more for them.
#![tactic(auto)]

#[cfg(test)]
mod bound_tests;
#[cfg(test)]
mod effect_rows;
#[cfg(test)]
mod feed_tests;
