//! Hashes beside those of the program xxhsum, and a job's file beside bytes that were made outside. They stand in a crate of their own, so that
//! soxchain_xxh64 and soxchain_job_file are not proved once more for them.
#![tactic(auto)]

#[cfg(test)]
mod file_tests;
#[cfg(test)]
mod front_tests;
#[cfg(test)]
mod hash_tests;
