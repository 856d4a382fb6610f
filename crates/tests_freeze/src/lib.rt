//! The worked rows of freezing and thawing chains. They stand in a crate of their own, which is proved beside the other rows of
//! chains.
#![tactic(auto)]

#[cfg(test)]
mod freeze_tests;
