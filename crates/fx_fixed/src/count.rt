//! Sample counts.

ghost use Rattle.std.specs.Prelude.{◌≡◌, ◌^◌, ◌<◌, ◌≤◌, length};
ghost use Rattle.fx_fixed.specs.Count.{count_of, whole_of};

use crate::clock::RUN_DIGITS;
use crate::decimals::read_decimal;
use crate::number::power_of_ten;
use crate::times::{MAX_POSITION, TimeFault};

/// A number, raised and lowered by these numbers of places, where that is whole and not too far.
#[tactic(auto, using(crate::proofs::Counting::whole_numbers))]
fn whole_frames(number: u128, raised: u32, lowered: u32) -> Result<u64, TimeFault>
    requires number { number < 10 ^ 36 }
    requires raised { raised ≤ 1000 }
    requires lowered { lowered ≤ 1000 }
    ensures { result ≡ whole_of number raised lowered }
{
    if number == 0 {
        return Ok(0);
    }
    if raised >= lowered {
        if raised - lowered > 12 {
            return Err(TimeFault::TooFar);
        }
        if number > u128::from(MAX_POSITION) {
            return Err(TimeFault::TooFar);
        }
        let frames = number * power_of_ten(raised - lowered);
        if frames > u128::from(MAX_POSITION) {
            return Err(TimeFault::TooFar);
        }
        return Ok(frames as u64);
    }
    if lowered - raised > 36 {
        return Err(TimeFault::NotWhole);
    }
    let power = power_of_ten(lowered - raised);
    if number % power != 0 {
        return Err(TimeFault::NotWhole);
    }
    let frames = number / power;
    if frames > u128::from(MAX_POSITION) {
        return Err(TimeFault::TooFar);
    }
    Ok(frames as u64)
}

/// The frames of a sample count, of which the text is what stands before its `s`, or its first fault.
pub fn count_frames(text: &[u8]) -> Result<u64, TimeFault>
    requires { length text.now < 100 }
    ensures { result ≡ count_of text.now }
{
    let Some(number) = read_decimal(text) else {
        return Err(TimeFault::BadTime);
    };
    if number.whole > RUN_DIGITS || number.places > RUN_DIGITS || number.exponent_digits > 2 {
        return Err(TimeFault::BadTime);
    }
    let lowered = number.places as u32 + number.lowered;
    whole_frames(number.digits.kept, number.raised, lowered)
}
