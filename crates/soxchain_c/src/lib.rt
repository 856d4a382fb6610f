//! soxchain for C: one call that converts a sound in memory, and streams that are fed a block at a time.
//!
//! A slice is passed by C as a pointer and a length. The header is packaging/soxchain.h, and docs/library.md states what is
//! proved of these calls and what C must ensure.
#![tactic(auto)]

mod asked;
mod bytes_out;
pub mod conversion;
pub mod handle;
mod loose;
mod messages;
pub mod new_call;
mod planning;
mod slices;
pub mod status;
pub mod stream_calls;
mod texts;
