//! Sounds through the chain of a plan: a source, its stages, and a writer.
#![tactic(auto)]

pub mod chain;
pub mod inner;
mod plan_run;
mod snapshot;

pub use chain::Chain;
pub use fx_chain_flow::flow::{State, Step};
pub use fx_chain_run::{MAX_EFFECTS, Report, RunFault};
pub use plan_run::{BYTES_BESIDE_CHAIN, run};
pub use snapshot::Snapshot;
