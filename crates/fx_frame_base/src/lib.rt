//! What all other crates stand on. Frames of samples, and the interface of stages: one frame at a time, many at a time, and how many
//! frames stages in sequence hold. Readers and writers of bytes, and the coding of samples as bytes. Lists by index and in pieces of
//! one size, as definitions and laws.
#![tactic(auto)]

/// Sixteen places, each read from `$samples` by its number. A literal is written at once, where a loop is not.
macro_rules! sixteen {
    ($read:ident, $samples:expr) => {
        [
            $read($samples, 0),
            $read($samples, 1),
            $read($samples, 2),
            $read($samples, 3),
            $read($samples, 4),
            $read($samples, 5),
            $read($samples, 6),
            $read($samples, 7),
            $read($samples, 8),
            $read($samples, 9),
            $read($samples, 10),
            $read($samples, 11),
            $read($samples, 12),
            $read($samples, 13),
            $read($samples, 14),
            $read($samples, 15),
        ]
    };
}

pub mod coding;
pub mod copies;
pub mod counted;
pub mod device;
pub mod feed;
pub mod frame;
pub mod holds;
pub mod io;
pub mod pending;
pub mod pipeline;
pub mod sample;
pub mod sink;
pub mod stage;
pub mod stage_core;
pub mod tape;
pub mod wide;

pub use coding::Coding;
pub use counted::Counted;
pub use device::Device;
pub use feed::{Feeds, Forecast, Passed, Passing};
pub use frame::{Frame, FrameOf};
pub use io::{ByteIn, ByteOut, Failed, ReadBeside, Rewind};
pub use sample::Sample;
pub use sink::Sink;
pub use stage::{Counters, Stage, ThawFault, Thaws};
pub use stage_core::StageCore;
pub use tape::Tape;
pub use wide::WideFrame;
