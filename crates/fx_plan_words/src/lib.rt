//! What the words of all effects share: why words are refused, and the numbers, times and positions in them.
#![tactic(auto)]

mod capped;
mod fault;
mod numbers;

pub use capped::{NUMBER_CAP, capped_number};
pub use fault::{Mark, PlanCause, WordsRefusal, at_word, marked};
pub use numbers::{read_delay, read_frames, read_gain, read_gain_up_to, read_position};
