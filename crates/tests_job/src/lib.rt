//! Jobs over a disk that fails at each call in turn, and over an input that fails. They stand in a crate of their own, so that
//! soxchain_job is not proved once more for them.
#![tactic(auto)]

#[cfg(test)]
mod copying;
#[cfg(test)]
mod failing;
#[cfg(test)]
mod job_tests;
#[cfg(test)]
mod torn;
