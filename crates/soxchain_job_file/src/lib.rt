//! The bytes of OUT.job, in which a job keeps its checkpoint: format 2.
#![tactic(auto)]

mod compare;
mod fault;
mod identity;
mod job_file;
mod split;
mod version;
mod write;

pub use compare::difference;
pub use fault::JobFileFault;
pub use identity::{Difference, Identity, Runs, Stamp};
pub use job_file::{JobFile, keep_checkpoint, read_job_file};
pub use version::{FORMAT_VERSION, begins_as_job_file};
pub use write::write_job_file;
