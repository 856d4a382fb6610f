//! What the rows of tests_chain and tests_freeze share: what drives a chain, and plans of words. It stands below both, so that
//! they are proved side by side.
#![tactic(auto)]

pub mod driving;
pub mod words;
