//! A whole sound through a flow of any stages: a source, a flow, and a writer; early stop, and what is left after a fault.
#![tactic(auto)]

mod block;
mod drain;
mod flow_run;
mod frame_writer;
mod pump;
mod reading;
mod report;
mod target;

pub use flow_run::run_flow;
pub use pump::Cause;
pub use report::{MAX_EFFECTS, Report, RunFault};
pub use target::Target;
