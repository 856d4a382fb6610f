//! The texts of faults, as `Display` writes them. The derive that makes them states nothing of texts, so no clause can. They
//! stand in a crate of their own, which sees the faults of all libraries, so that those are not proved once more for them.
#![tactic(auto)]

#[cfg(test)]
mod text_tests;
