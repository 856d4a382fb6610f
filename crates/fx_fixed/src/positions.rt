//! Positions in a sound.

ghost use Rattle.std.specs.Prelude.{◌≡◌, ◌<◌};
ghost use Rattle.fx_fixed.specs.Positions;
ghost use Rattle.fx_fixed.specs.Positions.{anchor_of, distance_of, position_by, position_of};

use crate::terms::{Terms, read_terms};
use crate::times::{MAX_POSITION, TimeFault, frames_between};

/// What a position is counted from.
#[derive(Clone, Copy, Debug, Drop, Eq, PartialEq)]
pub enum Anchor {
    Start,
    Previous,
    End,
}

/// A position: a number of frames after the start of a sound, or before its end.
#[derive(Clone, Copy, Debug, Drop, Eq, PartialEq)]
pub enum At {
    Start(u64),
    End(u64),
}

/// The start of the sound.
impl Default for At {
    ghost use Rattle.fx_fixed.specs.declared.positions.At.TheVariants.{Start};

    ghost is_default = { λ position. position ≡ Start 0 };

    fn default() -> At {
        At::Start(0)
    }
}

/// The anchor that a text's first byte names, and the rest of the text.
fn split_anchor(text: &[u8], default: Anchor) -> (Anchor, &[u8])
    ensures anchor { result.0 ≡ anchor_of default text.now }
    ensures distance { result.1.now ≡ distance_of text.now }
{
    match text {
        [b'=', rest @ ..] => (Anchor::Start, rest),
        [b'+', rest @ ..] => (Anchor::Previous, rest),
        [b'-', rest @ ..] => (Anchor::End, rest),
        _ => (default, text),
    }
}

/// A position this number of frames after the start.
fn start_at(ahead: u128, back: u128) -> Result<At, TimeFault>
    ensures { result ≡ Positions.start_at ahead back }
{
    Ok(At::Start(frames_between(ahead, back)?))
}

/// A position this number of frames before the end, and not after it.
fn end_at(ahead: u128, back: u128) -> Result<At, TimeFault>
    ensures { result ≡ Positions.end_at ahead back }
{
    let frames = ahead.saturating_sub(back);
    if frames > u128::from(MAX_POSITION) {
        return Err(TimeFault::TooFar);
    }
    Ok(At::End(frames as u64))
}

/// The position of these terms from an anchor.
fn from_anchor(anchor: Anchor, previous: At, terms: Terms) -> Result<At, TimeFault>
    ensures { result ≡ position_by anchor previous terms }
{
    let first = u128::from(terms.first);
    let added = u128::from(terms.added);
    let taken = u128::from(terms.taken);
    match (anchor, previous) {
        (Anchor::Start, _) => start_at(first + added, taken),
        (Anchor::Previous, At::Start(frames)) => {
            start_at(u128::from(frames) + first + added, taken)
        }
        (Anchor::Previous, At::End(frames)) => end_at(u128::from(frames) + taken, first + added),
        (Anchor::End, _) => end_at(first + taken, added),
    }
}

/// Positions as sox(1) writes them: `[=|+|-]` and a time.
pub struct Position;

impl Position {
    /// The position that a text names at a rate of at least 1: `=` counts from the start, `+` from
    /// the previous position, `-` back from the end, no sign from the default anchor. The first
    /// term goes in the anchor's direction, and each later term moves the position itself; a
    /// position after the end is at the end.
    ///
    /// Refused are, in this order: what `TimeSpec::frames` refuses of the terms, the sign not
    /// counted; a position before the start (`Negative`); one over `2^40` frames from the start or
    /// the end (`TooFar`).
    pub fn resolve(text: &str, rate: u32, default: Anchor, previous: At) -> Result<At, TimeFault>
        requires { 0 < rate }
        ensures { result ≡ position_of rate default previous text.now }
    {
        let (anchor, distance) = split_anchor(text.as_bytes(), default);
        let terms = read_terms(distance, rate)?;
        from_anchor(anchor, previous, terms)
    }
}
