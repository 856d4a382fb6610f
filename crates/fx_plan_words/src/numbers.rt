//! Numbers and times in the words of effects.

ghost use Rattle.std.specs.Prelude.{◌≡◌, ◌<◌, ◌≤◌};
ghost use Rattle.fx_plan_words.specs.Numbers;
ghost use Rattle.fx_plan_words.specs.Numbers.{gain_in, gain_up_to, frames_in, delay_in, position_in};

use crate::fault::PlanCause;
use fx_fixed::{Anchor, At, Gain, NumberFault, Position, TimeFault, TimeSpec, UNIT, millis};

/// The fault of a plan that a number's fault is.
fn number_cause(fault: NumberFault) -> PlanCause
    ensures { result ≡ Numbers.number_cause fault }
{
    match fault {
        NumberFault::NotANumber | NumberFault::TooLong => PlanCause::BadArgument,
        NumberFault::OutOfRange => PlanCause::OutOfRange,
    }
}

/// The fault of a plan that a time's fault is.
fn time_cause(fault: TimeFault) -> PlanCause
    ensures { result ≡ Numbers.time_cause fault }
{
    match fault {
        TimeFault::BadTime | TimeFault::NotWhole | TimeFault::Negative => PlanCause::BadArgument,
        TimeFault::TooFar => PlanCause::OutOfRange,
    }
}

/// The gain that a word is.
#[tactic(auto, unfolding(crate::specs::Numbers::gain_in))]
pub fn read_gain(word: &str) -> Result<Gain, PlanCause>
    ensures { result ≡ gain_in word.now }
{
    Gain::parse(word).map_err(number_cause)
}

/// The gain from 0 to `maximum` units that a word is.
#[tactic(auto, unfolding(crate::specs::Numbers::gain_up_to))]
pub fn read_gain_up_to(maximum: u32, word: &str) -> Result<Gain, PlanCause>
    requires { maximum ≤ 1000 }
    ensures { result ≡ gain_up_to maximum word.now }
{
    let gain = read_gain(word)?;
    if gain.trillionths() < 0 || gain.trillionths().unsigned_abs() > u64::from(maximum) * UNIT {
        return Err(PlanCause::OutOfRange);
    }
    Ok(gain)
}

/// The frames of the time that a word is.
#[tactic(auto, unfolding(crate::specs::Numbers::frames_in))]
pub fn read_frames(rate: u32, word: &str) -> Result<u64, PlanCause>
    requires { 0 < rate }
    ensures { result ≡ frames_in rate word.now }
{
    TimeSpec::frames(word, rate).map_err(time_cause)
}

/// The frames of the delay in milliseconds that a word is.
#[tactic(auto, unfolding(crate::specs::Numbers::delay_in))]
pub fn read_delay(rate: u32, word: &str) -> Result<u64, PlanCause>
    requires { 0 < rate }
    ensures { result ≡ delay_in rate word.now }
{
    millis(word, rate).map_err(time_cause)
}

/// The position that a word is.
#[tactic(auto, unfolding(crate::specs::Numbers::position_in))]
pub fn read_position(rate: u32, default: Anchor, previous: At, word: &str) -> Result<At, PlanCause>
    requires { 0 < rate }
    ensures { result ≡ position_in rate default previous word.now }
{
    Position::resolve(word, rate, default, previous).map_err(time_cause)
}
