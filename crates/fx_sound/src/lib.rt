//! Sounds in RIFF WAVE and Sun AU: their heads, and their frames, read and written in pieces.
#![tactic(auto)]

mod au;
mod block;
pub mod buffer;
mod bulk;
pub mod fields;
mod fours;
mod frame_coding;
pub mod head;
pub mod inner;
mod output;
pub mod progress;
mod read;
mod sound;
pub mod source;
mod wave;
pub mod writing;

pub use head::{Head, HeadFault, Kind};
pub use progress::{MAX_FRAMES, Progress, ReadFault, TooLong, next_frame, take_frame};
pub use read::read_head;
pub use source::Source;
pub use writing::{HeadBytes, head_bytes};
