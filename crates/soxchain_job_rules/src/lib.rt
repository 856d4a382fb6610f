//! The names of a job, and each decision over the files of people: what may stand under a name, how a run starts, what is removed,
//! and what must be so before OUT gets its name.
//!
//! Each rule is a function of what the system says. The program asks the system, calls these, and does what they answer.
#![tactic(auto)]

mod advice;
mod evidence;
mod names;
mod own_file;
mod pace;
mod places;
mod sound;
mod standing;

pub use advice::{Advice, Refusal, advice_of};
pub use evidence::{Claim, Evidence, Sighting, Start, StartRefusal, start_of};
pub use names::{JobNames, NamesFault, base_of, folder_of};
pub use own_file::OwnFile;
pub use pace::{Round, next_pieces};
pub use places::{Clash, FileId, Place, Rival, check_places};
pub use sound::{InputCheck, InputState, Stamp, input_check, is_own_part};
pub use standing::{Content, Standing, abandon_order, may_remove, may_use};
