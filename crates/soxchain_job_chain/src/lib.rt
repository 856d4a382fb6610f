//! The chain of a plan as a conversion of a whole file, which can be frozen between two pieces of it.
#![tactic(auto)]

mod buffers;
pub mod chain_conversion;
mod coded_chain;
mod counts;
mod report;

pub use chain_conversion::ChainConversion;
