//! Time specifications.

ghost use Rattle.std.specs.Prelude.{◌≡◌, ◌<◌};
ghost use Rattle.fx_fixed.specs.Times;
ghost use Rattle.fx_fixed.specs.Times.{time_of};

use crate::terms::read_terms;
use thiserror::Error;

/// The maximum number of frames of a time: `2^40`.
pub const MAX_POSITION: u64 = 1 << 40;

/// Why a text is no time or position.
#[derive(Clone, Copy, Debug, Drop, Eq, Error, PartialEq)]
pub enum TimeFault {
    #[error("not a time")]
    BadTime = 1,
    #[error("not a whole number of frames")]
    NotWhole = 2,
    #[error("a time before the start")]
    Negative = 3,
    #[error("a time of more than 2^40 frames")]
    TooFar = 4,
}

/// What is ahead less what is back, in frames: `Negative` below 0, `TooFar` over `2^40`.
pub(crate) fn frames_between(ahead: u128, back: u128) -> Result<u64, TimeFault>
    ensures { result ≡ Times.frames_between ahead back }
{
    if ahead < back {
        return Err(TimeFault::Negative);
    }
    if ahead - back > u128::from(MAX_POSITION) {
        return Err(TimeFault::TooFar);
    }
    Ok((ahead - back) as u64)
}

/// Times as sox(1) writes them: a term, then any number of `+` or `-`, each followed by a term. A
/// term is `[[hours:]minutes:]seconds[.frac][t]`, or a number of samples followed by `s`.
pub struct TimeSpec;

impl TimeSpec {
    /// The frames of a time at a rate of at least 1, at most `2^40`; each term is rounded to whole
    /// frames separately, halves up.
    ///
    /// Refused are, in this order: another form anywhere, over 80 bytes or over 18 digits in a run
    /// (`BadTime`); term by term a sample count that is not whole (`NotWhole`) and a term over
    /// `2^40` frames (`TooFar`); a sum below 0 (`Negative`); a sum over `2^40` (`TooFar`).
    pub fn frames(text: &str, rate: u32) -> Result<u64, TimeFault>
        requires { 0 < rate }
        ensures { result ≡ time_of rate text.now }
    {
        let terms = read_terms(text.as_bytes(), rate)?;
        let ahead = u128::from(terms.first) + u128::from(terms.added);
        frames_between(ahead, u128::from(terms.taken))
    }
}
