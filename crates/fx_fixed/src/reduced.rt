//! Products over a denominator, reduced by a common divisor.
ghost use Rattle.std.specs.Prelude.{◌≡◌, ◌+◌, ◌*◌, ◌%◌, ◌^◌, ◌<◌, ◌≤◌, ℕ, pos, ◌*ℤ◌, length, slice_index_or, sum_by, unsigned_abs, IfSome};
ghost use Rattle.std.specs.Int.{IsGcd};
ghost use Rattle.fx_fixed.specs.Reduced.{IsReduced};

use crate::reciprocal::Denominator;

/// The greatest sum of the magnitudes of reduced weights: times samples they make sums that a `Denominator` rounds.
const MAX_COMMON_WEIGHT: u64 = 1 << 30;

/// The greatest denominator over which a `Denominator` rounds.
const MAX_DENOMINATOR: u128 = 1 << 61;

/// The greatest common divisor.
fn common_divisor(a: u128, b: u128) -> u128
    ensures { IsGcd a b result }
{
    let mut divisor = a;
    let mut rest = b;
    'steps: while rest != 0 {
        let next = divisor % rest;
        divisor = rest;
        rest = next;
    }
    divisor
}

/// A divisor of a denominator, and of the gain times each coefficient.
fn divisor_of(coefficients: &[i64], gain: i64, denominator: u128) -> u128
    requires { 0 < denominator }
    ensures positive { 0 < result }
    ensures whole { denominator % result ≡ 0 }
    ensures products { (k : ℕ) → k < length coefficients.now → (unsigned_abs gain * unsigned_abs (slice_index_or coefficients.now k (pos 0))) % result ≡ 0 }
{
    let size = u128::from(gain.unsigned_abs());
    let mut divisor = denominator;
    'coefficients: for place in 0..coefficients.len() {
        let product = size * u128::from(coefficients[place].unsigned_abs());
        divisor = common_divisor(divisor, product);
    }
    divisor
}

/// The magnitudes of weights, added.
fn size_of_weights(weights: &[i32]) -> u64
    requires { length weights.now ≤ 2 ^ 20 }
    ensures { result ≡ sum_by unsigned_abs weights.now }
{
    let mut size = 0;
    'weights: for weight in weights {
        size += u64::from(weight.unsigned_abs());
    }
    size
}

/// A gain times a coefficient over a divisor, where that is a weight of less than 32 bits.
fn weight_of(gain: i64, coefficient: i64, divisor: u128) -> Option<i32>
    requires positive { 0 < divisor }
    requires whole { (unsigned_abs gain * unsigned_abs coefficient) % divisor ≡ 0 }
    ensures { IfSome result (λ w. pos divisor *ℤ w ≡ gain *ℤ coefficient) }
{
    let size = u128::from(gain.unsigned_abs()) * u128::from(coefficient.unsigned_abs()) / divisor;
    if size > 0x7fff_ffff {
        return None;
    }
    let weight = size as i32;
    Some(if (gain < 0) != (coefficient < 0) {
        -weight
    } else {
        weight
    })
}

/// Reduces the gain times each coefficient over a denominator: writes the weights, and returns their denominator. None
/// where they are too large for sums of 64 bits; the weights then mean nothing.
pub fn reduce(
    coefficients: &[i64],
    gain: i64,
    denominator: u128,
    weights: &mut [i32],
) -> Option<Denominator>
    requires denominator { 0 < denominator }
    requires bound { length coefficients.now ≤ 2 ^ 20 }
    requires weights { length weights.old ≡ length coefficients.now }
    ensures reduced { IfSome result (IsReduced gain denominator coefficients.now weights.new) }
    ensures len { length weights.new ≡ length weights.old }
{
    let divisor = divisor_of(coefficients, gain, denominator);
    let below = denominator / divisor;
    if below > MAX_DENOMINATOR {
        return None;
    }
    'coefficients: for place in 0..coefficients.len() {
        let Some(weight) = weight_of(gain, coefficients[place], divisor) else {
            return None;
        };
        weights[place] = weight;
    }
    if size_of_weights(weights) > MAX_COMMON_WEIGHT {
        return None;
    }
    Some(Denominator::new(below as u64))
}
