//! Why words are refused.

ghost use Rattle.std.specs.Prelude.{◌≡◌};
ghost use Rattle.fx_plan_words.specs.Faults.{mark};

use thiserror::Error;

/// Why a plan is refused.
#[derive(Clone, Copy, Debug, Drop, PartialEq, Eq, Error)]
pub enum PlanCause {
    /// The first word after the output is no name of an effect.
    #[error("the effect is unknown")]
    UnknownEffect = 1,
    /// The effect, or this use of it, is not supported.
    #[error("the effect is not in the profile")]
    NotInProfile = 2,
    /// The effect can begin only when the whole sound is known.
    #[error("the effect needs the whole sound")]
    NeedsWholeSound = 3,
    /// There are too few or too many words.
    #[error("the count of words is wrong")]
    WrongCount = 4,
    /// A word does not have the form required at its place.
    #[error("the argument is not well formed")]
    BadArgument = 5,
    /// A number is beyond its limits.
    #[error("the argument is out of range")]
    OutOfRange = 6,
    /// A position lies before the previous one.
    #[error("the position is behind")]
    PositionBehind = 7,
    /// A word names a channel that the sound does not have.
    #[error("there is no such channel")]
    NoSuchChannel = 8,
    /// There would be more than 16 channels.
    #[error("there are too many channels")]
    TooManyChannels = 9,
    /// The rate is no multiple of the factor.
    #[error("the rate is not divisible")]
    RateNotDivisible = 10,
    /// The rate would be over `2^32 - 1`.
    #[error("the rate is too large")]
    RateTooLarge = 11,
    /// There are more than 32 effects.
    #[error("there are too many effects")]
    TooManyEffects = 12,
    /// A coefficient file holds no list of coefficients.
    #[error("the coefficients are bad")]
    BadCoefficients = 13,
    /// The effects would hold more than `2^28` frames.
    #[error("the plan would hold too much")]
    HoldTooLarge = 14,
    /// The sound could become longer than `2^56` frames.
    #[error("the sound could become too long")]
    TooLong = 15,
    /// An allocation was refused.
    #[error("no memory for the plan")]
    Memory = 16,
}

/// Why the words of an effect are refused, and the number of the word. A call that allocates no memory returns no other
/// fault.
#[derive(Clone, Copy, Debug, Drop, PartialEq, Eq, Error)]
#[error("word {word}: {cause}")]
pub struct Mark {
    pub cause: PlanCause,
    pub word: usize,
}

/// Why an effect's words give no effect, of a call that allocates memory.
#[derive(Clone, Copy, Debug, Drop, PartialEq, Eq, Error)]
pub enum WordsRefusal {
    /// An allocation was refused.
    #[error("out of memory")]
    Memory,
    /// A word is refused.
    #[error("{0}")]
    Marked(Mark),
}

impl From<Mark> for WordsRefusal {
    ghost use Rattle.fx_plan_words.specs.declared.fault.WordsRefusal.TheVariants.{Marked};

    ghost from_gives = { λ m refusal. refusal ≡ Marked m };

    fn from(mark: Mark) -> WordsRefusal {
        WordsRefusal::Marked(mark)
    }
}

/// The fault of the word of this number.
pub fn at_word(cause: PlanCause, word: usize) -> Mark
    ensures { result ≡ mark cause word }
{
    Mark { cause, word }
}

/// A refused word, of a call that allocates memory.
pub fn marked(cause: PlanCause, word: usize) -> WordsRefusal
    ensures { result ≡ WordsRefusal.Marked (mark cause word) }
{
    at_word(cause, word).into()
}
