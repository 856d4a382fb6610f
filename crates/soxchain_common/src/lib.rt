//! What both programs share: what they ask of the host, the words after the program's name, the coefficient files that these
//! name, whether OUT is the file that is read, and the texts of the programs on themselves and on the effects.
#![tactic(auto)]

mod about;
mod console;
mod effects;
mod files;
mod registry;
mod same_file;
mod words;

pub use about::{VERSION, answer_to};
pub use console::Console;
pub use effects::{EffectHelp, SOX_HAS_IT, TIME_LIMITS, effect_of};
pub use files::{FilesFault, Openings, read_files};
pub use same_file::{Identity, Inspects, is_input};
pub use words::{fault_of, words_of};
