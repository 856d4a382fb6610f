//! The conversion from words and bytes to bytes, messages and a status.
#![tactic(auto)]

mod conversion;
mod file_messages;
pub mod inner;
mod message_writer;
mod messages;
mod prepared;
mod preparing;
mod ready;

pub use conversion::convert;
pub use fx_chain::{MAX_EFFECTS, Report, RunFault};
pub use ready::{Ready, finish, prepare};
