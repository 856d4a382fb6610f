//! The worked rows of fx_plan. They stand in a crate of their own, so that it is not proved once more for them,
//! and apart from tests_base, which need not wait for the effects.
#![tactic(auto)]

#[cfg(test)]
mod line_tests;
#[cfg(test)]
mod plan_tests;
