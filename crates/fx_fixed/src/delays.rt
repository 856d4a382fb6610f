//! Delays in milliseconds.

ghost use Rattle.std.specs.Prelude.{◌≡◌, ◌^◌, ◌<◌};
ghost use Rattle.fx_fixed.specs.Delays.{delay_of, millis_of};
ghost use Rattle.fx_fixed.specs.Clock.{within_reach};

use crate::decimals::{read_decimal, split_sign};
use crate::gains::NUMBER_BYTES;
use crate::number::MAX_EXPONENT;
use crate::times::{MAX_POSITION, TimeFault};

/// The decimals to which a number of milliseconds is rounded.
const MILLIS_DECIMALS: u32 = 9;

/// How many billionths of a millisecond make a second.
const SECOND: u128 = 1_000_000_000_000;

/// The frames of these billionths of a millisecond, from 1 to `2^40`.
fn delay_frames(billionths: u128, rate: u32) -> Result<u64, TimeFault>
    requires { billionths < 10 ^ 28 }
    ensures { result ≡ within_reach (delay_of rate billionths) }
{
    let frames = (billionths * u128::from(rate) / SECOND).max(1);
    if frames > u128::from(MAX_POSITION) {
        return Err(TimeFault::TooFar);
    }
    Ok(frames as u64)
}

/// The frames of a delay in milliseconds at a rate of at least 1, rounded down, from 1 to `2^40`.
/// The text is a decimal number, which is rounded to billionths first, halves away from zero.
///
/// Refused are, in this order: another form, or over 40 bytes (`BadTime`); an exponent outside -30
/// to 30 (`TooFar`); a number below zero once rounded (`Negative`); over `2^40` frames (`TooFar`).
pub fn millis(text: &str, rate: u32) -> Result<u64, TimeFault>
    requires { 0 < rate }
    ensures { result ≡ millis_of rate text.now }
{
    if text.len() > NUMBER_BYTES {
        return Err(TimeFault::BadTime);
    }
    let (is_negative, body) = split_sign(text.as_bytes());
    let Some(number) = read_decimal(body) else {
        return Err(TimeFault::BadTime);
    };
    if number.raised > MAX_EXPONENT || number.lowered > MAX_EXPONENT {
        return Err(TimeFault::TooFar);
    }
    // At one frame a second, more billionths than this are too far, and at any rate above too.
    let maximum = u128::from(MAX_POSITION + 1) * SECOND;
    let Some(billionths) = number.nearest_parts(MILLIS_DECIMALS, maximum) else {
        if is_negative {
            return Err(TimeFault::Negative);
        }
        return Err(TimeFault::TooFar);
    };
    if is_negative && billionths > 0 {
        return Err(TimeFault::Negative);
    }
    delay_frames(billionths, rate)
}
