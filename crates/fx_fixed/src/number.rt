//! A decimal number as it was read.

ghost use Rattle.std.specs.Prelude.{◌≡◌, ℕ, ◌+◌, ◌*◌, ◌^◌, ◌<◌, ◌≤◌, List};
ghost use Rattle.std.specs.Option.{SomeIff};
ghost use Rattle.fx_fixed.specs.Rounding.{nearest_natural};

use crate::sums::Digits;

/// The greatest exponent of a number, up or down.
pub(crate) const MAX_EXPONENT: u32 = 30;

/// Stands for each exponent that is not below it: more than any number may have.
pub(crate) const EXPONENT_CAP: u32 = 100;

/// An unsigned decimal number as it is written.
#[derive(Clone, Copy)]
pub struct Decimal {
    /// All digits of the mantissa.
    pub digits: Digits,
    /// How many of them stand before the point, and how many after it.
    pub whole: usize,
    pub places: usize,
    /// How many digits the exponent has; 0 where there is none.
    pub exponent_digits: usize,
    /// By how many places the exponent raises or lowers the number, at most `EXPONENT_CAP`.
    pub raised: u32,
    pub lowered: u32,
    ghost places_max: { places < 100 },
}

/// Ten to an exponent.
#[tactic(auto, using(crate::proofs::Powers::powers))]
pub(crate) fn power_of_ten(exponent: u32) -> u128
    requires { exponent ≤ 38 }
    ensures value { result ≡ 10 ^ exponent }
    ensures minimum { 0 < result }
    ensures maximum { result ≤ 10 ^ 38 }
{
    10u128.pow(exponent)
}

/// A number times a power of ten, where that is at most a limit.
fn raise(number: u128, places: u32, maximum: u128) -> Option<u128>
    requires { maximum < 10 ^ 37 }
    ensures { SomeIff result (number * 10 ^ places ≤ maximum) (number * 10 ^ places) }
{
    if number == 0 {
        return Some(0);
    }
    if places > 37 {
        return None;
    }
    let power = power_of_ten(places);
    if number > maximum / power {
        return None;
    }
    Some(number * power)
}

/// A number over a power of ten, rounded, halves up.
fn lower(number: u128, places: u32) -> u128
    requires { number < 10 ^ 38 }
    ensures { result ≡ nearest_natural number (10 ^ places) }
{
    if places > 38 {
        return 0;
    }
    let power = power_of_ten(places);
    (2 * number + power) / (2 * power)
}

impl Decimal {
    ghost use Rattle.fx_fixed.specs.Decimals.{parts_of};
    ghost use Rattle.fx_fixed.specs.Shown.{Shows};

    /// The number counted in fractions of one and rounded, where that is at most a limit. One has as
    /// many parts as ten to the number of decimals.
    pub fn nearest_parts(self, decimals: u32, maximum: u128) -> Option<u128>
        requires raised { self.raised ≤ 30 }
        requires lowered { self.lowered ≤ 30 }
        requires decimals { decimals < 100 }
        requires limit { maximum < 10 ^ 37 }
        ensures { (body : List ℕ) → Shows self body →
            SomeIff result (parts_of (10 ^ decimals) body ≤ maximum) (parts_of (10 ^ decimals) body) }
    {
        let raised = decimals + self.digits.dropped + self.raised;
        let lowered = self.places as u32 + self.lowered;
        if raised >= lowered {
            return raise(self.digits.kept, raised - lowered, maximum);
        }
        let nearest = lower(self.digits.kept, lowered - raised);
        if nearest > maximum {
            return None;
        }
        Some(nearest)
    }
}
