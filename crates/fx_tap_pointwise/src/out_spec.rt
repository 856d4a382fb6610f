//! How much of a channel goes into a channel of the output.

use fx_fixed::Gain;
use smallvec::SmallVec;

/// How much of a channel goes into an output channel.
#[derive(Clone, Copy, Debug, Default, Drop, PartialEq, Eq)]
pub enum Weight {
    /// So much of it.
    Given(Gain),
    /// One over the number of contributions of its output channel, exactly.
    Share,
    /// All of it; also the value of the unused places of an `OutSpec`.
    #[default]
    One,
}

/// The contributions to an output channel: channels of the input, counted from 0, each with its weight. An empty one is
/// silence.
pub type OutSpec = SmallVec<(u8, Weight), 8>;
