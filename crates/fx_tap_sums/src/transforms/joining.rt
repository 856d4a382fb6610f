//! Four numbers at a time by their remainders modulo the first two primes.
ghost use Rattle.std.specs.Prelude.{◌≡◌, ◌<◌, ◌≤◌, ◌*◌, ◌^◌, ℕ, ℤ, length};
ghost use Rattle.fx_tap_sums.specs.Joined.{AreJoined, AreRaised, HasBothAt};
ghost use Rattle.fx_tap_sums.specs.Residues.{AreFour, AreRemainders};

use super::factor::Factor;
use super::lanes::reduced_four;
use super::remainders::{FIRST, INVERSE_OF_FIRST, SECOND, joined_two};
use super::vectors::{
    add, add_wide, less_number, load, multiply_wide, subtract, times_number, widen,
};
use crate::convolve::put_lanes;
use std::simd::prelude::*;

/// The greatest multiple of the first modulus up to half of the product of the first two moduli.
const HALF: u64 = 9_077_628_196_028_416;

/// Eight times the second modulus plus the remainder of `HALF` modulo it.
const RAISE: u32 = 1_081_475_080;

/// The numbers that are congruent to these modulo the first two primes, plus `HALF`.
// From 0 on, so no lane needs to be centred.
#[inline(always)]
fn raised_two(first: u32x4, second: u32x4) -> u64x4
    requires first { AreFour (4 * FIRST) first }
    requires second { AreFour (4 * SECOND) second }
    ensures less { AreFour (2 ^ 55) result }
    ensures sums { AreRaised HALF first second result }
{
    let inverse: Factor<SECOND> = Factor::of(INVERSE_OF_FIRST);
    let difference = add(second, subtract(u32x4::splat(RAISE), first));
    let turns = reduced_four::<SECOND>(inverse.times_four(difference));
    add_wide(multiply_wide(turns, u32x4::splat(FIRST)), widen(first))
}

/// 256 times the numbers of magnitude at most 2^53 that are congruent to these modulo the first two primes.
#[inline(always)]
fn join_two(first: u32x4, second: u32x4) -> i64x4
    requires first { AreFour (4 * FIRST) first }
    requires second { AreFour (4 * SECOND) second }
    ensures four { length result ≡ 4 }
    ensures sums { AreJoined 256 first second result }
{
    less_number(times_number(raised_two(first, second), 256), 256 * HALF)
}

/// Writes 256 times the numbers of magnitude at most 2^53 that are congruent to these modulo the first two primes.
pub(crate) fn join_all(first: &[u32], second: &[u32], sums: &mut [i64])
    requires first_long { length sums.old ≤ length first.now }
    requires second_long { length sums.old ≤ length second.now }
    requires first_less { AreRemainders (4 * FIRST) first.now }
    requires second_less { AreRemainders (4 * SECOND) second.now }
    requires are { (i : ℕ) → i < length sums.old → (x : ℤ) × HasBothAt first.now second.now i x }
    ensures { AreJoined 256 first.now second.now sums.new }
{
    let mut at = 0;
    'groups: while at + 4 <= sums.len() {
        put_lanes(sums, at, join_two(load(first, at), load(second, at)));
        at += 4;
    }
    'rest: for place in at..sums.len() {
        sums[place] = 256 * joined_two(first[place], second[place]);
    }
}
