//! Remainders modulo three primes, and the numbers that have them.
ghost use Rattle.std.specs.Prelude.{◌≡◌, ◌<◌, ◌≤◌, ◌*◌, ◌/◌, ◌^◌, ℤ, pos, unsigned_abs};
ghost use Rattle.fx_tap_sums.specs.Joined.{HasThree};
ghost use Rattle.fx_tap_sums.specs.Residues.{IsModulus, Same};

use super::factor::Factor;

/// The first modulus, a prime: 2,050 * 2^16 + 1.
pub(crate) const FIRST: u32 = 134_348_801;

/// The second modulus, a prime: 2,062 * 2^16 + 1.
pub(crate) const SECOND: u32 = 135_135_233;

/// The third modulus, a prime: 2,080 * 2^16 + 1.
pub(crate) const THIRD: u32 = 136_314_881;

/// Times the first modulus this is 1 modulo the second one.
pub(crate) const INVERSE_OF_FIRST: u32 = 112_612_866;

/// Times the product of the first two moduli this is 1 modulo the third one.
const INVERSE_OF_PAIR: u32 = 70_689_802;

/// Times the second modulus this is 1 modulo the third one.
const INVERSE_OF_SECOND: u32 = 75_730_605;

/// The product of the first two moduli.
const PAIR: i64 = 18_155_256_526_405_633;

/// The remainder of a number below twice the modulus.
#[inline(always)]
pub(crate) fn reduced<const P: u32>(number: u32) -> u32
    requires { number < 2 * P }
    ensures less { result < P }
    ensures same { Same (pos P) (pos result) (pos number) }
{
    if number < P { number } else { number - P }
}

/// A number below twice the modulus that is congruent to a weight.
#[inline(always)]
pub(crate) fn remainder<const P: u32>(weight: i32) -> u32
    requires { IsModulus P }
    ensures less { result < 2 * P }
    ensures same { Same (pos P) (pos result) weight }
    ensures bound { unsigned_abs weight ≤ 2 ^ 31 }
{
    let raised = (i64::from(weight) + (1 << 31)) as u32;
    raised % P + (P - (1 << 31) % P)
}

/// The number of magnitude at most 2^53 that is congruent to these modulo the first two primes.
#[inline(always)]
pub(crate) fn joined_two(first: u32, second: u32) -> i64
    requires first { first < 4 * FIRST }
    requires second { second < 4 * SECOND }
    ensures { (x : ℤ) → unsigned_abs x ≤ 2 ^ 53 → Same (pos FIRST) (pos first) x → Same (pos SECOND) (pos second) x → result ≡ x }
{
    let inverse: Factor<SECOND> = Factor::of(INVERSE_OF_FIRST);
    let turns = inverse.times(second + (8 * SECOND - first));
    let sum = i64::from(turns) * i64::from(FIRST) + i64::from(first);
    if turns > SECOND / 2 { sum - PAIR } else { sum }
}

/// The number of the least magnitude that has this remainder modulo the third prime.
#[inline(always)]
fn centred(remainder: u32) -> i64
    requires { remainder < THIRD }
    ensures small { unsigned_abs result ≤ THIRD / 2 }
    ensures same { Same (pos THIRD) result (pos remainder) }
{
    let number = i64::from(remainder);
    if remainder > THIRD / 2 {
        number - i64::from(THIRD)
    } else {
        number
    }
}

/// The number of magnitude at most 2^61 that is congruent to these modulo the three primes.
#[inline(always)]
pub(crate) fn joined_three(first: u32, second: u32, third: u32) -> i64
    requires first { first < 4 * FIRST }
    requires second { second < 4 * SECOND }
    requires third { third < 4 * THIRD }
    requires is { (x : ℤ) × HasThree first second third x }
    ensures { (x : ℤ) → HasThree first second third x → result ≡ x }
{
    let by_first: Factor<SECOND> = Factor::of(INVERSE_OF_FIRST);
    let turns = by_first.times(second + (8 * SECOND - first));
    let by_pair: Factor<THIRD> = Factor::of(INVERSE_OF_PAIR);
    let by_second: Factor<THIRD> = Factor::of(INVERSE_OF_SECOND);
    let whole = by_pair.times(third + (8 * THIRD - first));
    let part = by_second.times(turns);
    let pairs = centred(reduced::<THIRD>(whole + (THIRD - part)));
    pairs * PAIR + (i64::from(turns) * i64::from(FIRST) + i64::from(first))
}
