//! Clock times, read exactly.

ghost use Rattle.std.specs.Prelude.{◌≡◌, ◌+◌, ◌*◌, ◌^◌, ◌<◌, ◌≤◌, ◌↔◌, ◌∷◌, IsSome, IfSome, MatchOption, drop};
ghost use Rattle.std.specs.Char.{is_ascii_digit};
ghost use Rattle.std.specs.List.{prefix_len, take_while};
ghost use Rattle.std.specs.Str.Parse.{digits_value};
ghost use Rattle.fx_fixed.specs.Clock.{clock_of};
ghost use Rattle.fx_fixed.specs.ClockEnd.{BeginsNot, after_components, after_fraction};

use crate::number::power_of_ten;
use crate::times::{MAX_POSITION, TimeFault};

/// The maximum number of digits in a run.
pub(crate) const RUN_DIGITS: usize = 18;

/// The number of the digits at the front, of which there may be eighteen, and what follows them.
#[tactic(auto, using(crate::proofs::Powers::run_powers))]
fn digit_run(text: &[u8]) -> Option<(u64, &[u8])>
    ensures form { IsSome result ↔ (prefix_len is_ascii_digit text.now < 19) }
    ensures value { IfSome result (λ run. run.0 ≡ digits_value 10 (take_while is_ascii_digit text.now)) }
    ensures bound { IfSome result (λ run. run.0 < 10 ^ 18) }
    ensures size { IfSome result (λ run. run.0 < 10 ^ prefix_len is_ascii_digit text.now) }
    ensures rest { IfSome result (λ run. run.1.now ≡ drop (prefix_len is_ascii_digit text.now) text.now) }
{
    let mut value: u64 = 0;
    for (i, byte) in text.iter().enumerate() {
        if !byte.is_ascii_digit() {
            return Some((value, &text[i..]));
        }
        if i == RUN_DIGITS {
            return None;
        }
        value = value * 10 + u64::from(*byte - b'0');
    }
    Some((value, &[]))
}

/// What follows a byte at the front of a text.
fn after_byte(text: &[u8], byte: u8) -> Option<&[u8]>
    ensures { MatchOption result (BeginsNot byte text.now) (λ rest. text.now ≡ byte ∷ rest.now) }
{
    match text {
        [first, rest @ ..] if *first == byte => Some(rest),
        _ => None,
    }
}

/// The frames of seconds and a fraction of a second, of which the digits were read.
#[tactic(auto, using(crate::proofs::Powers::frames_split))]
fn frames_at(
    seconds: u128,
    digits: usize,
    fraction: u64,
    places: usize,
    rest: &[u8],
    rate: u32,
) -> Result<u64, TimeFault>
    requires seconds { seconds < 10 ^ 24 }
    requires digits { digits < 100 }
    requires fraction { fraction < 10 ^ places }
    requires places { places ≤ 18 }
    requires rate { 0 < rate }
    ensures { result ≡ after_fraction rate seconds digits fraction places rest.now }
{
    if digits + places == 0 {
        return Err(TimeFault::BadTime);
    }
    match rest {
        [] | [b't'] => {}
        _ => return Err(TimeFault::BadTime),
    }
    let power = power_of_ten(places as u32);
    let rate = u128::from(rate);
    let part = (2 * u128::from(fraction) * rate + power) / (2 * power);
    let frames = seconds * rate + part;
    if frames > u128::from(MAX_POSITION) {
        return Err(TimeFault::TooFar);
    }
    Ok(frames as u64)
}

/// The frames of a clock time of which the digits of the components were read.
fn end_of_clock(seconds: u128, digits: usize, rest: &[u8], rate: u32) -> Result<u64, TimeFault>
    requires seconds { seconds < 10 ^ 24 }
    requires digits { digits < 100 }
    requires rate { 0 < rate }
    ensures { result ≡ after_components rate seconds digits rest.now }
{
    match after_byte(rest, b'.') {
        Some(text) => {
            let Some((fraction, after)) = digit_run(text) else {
                return Err(TimeFault::BadTime);
            };
            frames_at(
                seconds,
                digits,
                fraction,
                text.len() - after.len(),
                after,
                rate,
            )
        }
        None => frames_at(seconds, digits, 0, 0, rest, rate),
    }
}

/// The frames of a clock time such as `1:23:45.5`, to the nearest, or its first fault.
#[tactic(auto, using(crate::proofs::Powers::seconds_fit))]
pub fn clock_frames(text: &[u8], rate: u32) -> Result<u64, TimeFault>
    requires { 0 < rate }
    ensures { result ≡ clock_of rate text.now }
{
    let mut seconds: u128 = 0;
    let mut digits = 0;
    let mut rest = text;
    for _count in 0..3u32 {
        let Some((value, after)) = digit_run(rest) else {
            return Err(TimeFault::BadTime);
        };
        seconds = 60 * seconds + u128::from(value);
        digits += rest.len() - after.len();
        match after_byte(after, b':') {
            Some(tail) => rest = tail,
            None => return end_of_clock(seconds, digits, after, rate),
        }
    }
    Err(TimeFault::BadTime)
}
