//! Plans: the words of the command line and of its effects, read into effects with resolved arguments, or refused by the first
//! fault.
#![tactic(auto)]

mod accepted;
mod answers;
pub mod bits;
mod command_line;
mod equality;
mod fault;
mod groups;
pub mod inner;
pub mod line;
mod listing;
mod name;
mod planned;
mod registry;
mod whole_sound;

pub use accepted::Plan;
pub use bits::Bits;
pub use command_line::{CommandLine, Endpoint, parse_line, plan};
pub use fault::PlanFault;
pub use fx_plan_words::PlanCause;
pub use line::{CommandWords, LineFault, read_line};
