//! How much is converted at a time, and how often a checkpoint is written.
ghost use Rattle.std.specs.Prelude.{◌≡◌, ◌<◌};

use crate::Offsets;

/// How much is converted at a time, and how often a checkpoint is written.
#[derive(Clone, Copy, Debug, PartialEq, Eq)]
pub struct Pace {
    /// Bytes of the input in a piece, not 0.
    pub piece: usize,
    /// Pieces between two checkpoints, not 0.
    pub every: u64,
}

/// What chooses the pace of each round, as by a clock.
pub trait Pacing {
    /// The pace of the next round, which begins at these offsets.
    fn next(&mut self, offsets: &Offsets) -> Pace
        ensures some { (0 < result.piece) × (0 < result.every) };

    /// The pieces of a round are converted; its checkpoint is written next. So a pace can tell how long each of both takes.
    fn converted(&mut self);
}

impl Pacing for Pace {
    /// The same pace for each round, with 1 in place of each 0.
    fn next(&mut self, _offsets: &Offsets) -> Pace
        ensures some { (0 < result.piece) × (0 < result.every) }
        ensures same { 0 < self.old.piece → 0 < self.old.every → result ≡ self.old }
    {
        Pace {
            piece: if self.piece == 0 { 1 } else { self.piece },
            every: if self.every == 0 { 1 } else { self.every },
        }
    }

    /// A fixed pace needs no times.
    fn converted(&mut self)
        ensures { self.new ≡ self.old }
    {}
}
