//! The core of a conversion that survives a kill or a power cut at any moment, over a disk of four files.
//!
//! The output grows under the name `Part`. From time to time it is synced, and a checkpoint with the frozen conversion takes the
//! place of the last one. Once the output is complete and synced it is renamed to `Out`. A later run continues from the last
//! checkpoint. `run_once` is one run; `run_with_crashes` says what any number of runs leaves, each stopped at any moment.
#![tactic(auto)]

mod checkpoint;
mod conversion;
mod crashes;
mod disk;
mod fault;
mod files;
mod grow;
mod input;
mod memory;
mod pacing;
mod publish;
mod replace;
mod run;

pub use checkpoint::{Checkpoint, Progress, decode as decode_checkpoint};
pub use conversion::{Conversion, ConversionFault, ThawFault};
pub use crashes::{CrashingDisk, run_with_crashes};
pub use disk::{Disk, DiskFault, FileName};
pub use fault::Fault;
pub use files::{Files, MemoryDisk};
pub use grow::Offsets;
pub use input::{Input, InputFault};
pub use pacing::{Pace, Pacing};
pub use run::run_once;
