//! Four remainders at a time.
ghost use Rattle.std.specs.Prelude.{◌≡◌, ◌<◌, ◌≤◌, ◌+◌, ◌-◌, ◌*◌, ◌^◌, ℕ, pos, neg_ℤ, slice_index_or};
ghost use Rattle.fx_tap_sums.specs.Quarters.{difference_at, gather_first_at, gather_fourth_at, gather_second_at, gather_third_at, levels_of, minus_at, spread_at, spread_first_at, spread_fourth_at, spread_second_at, spread_third_at, sum_at, with_difference_at};
ghost use Rattle.fx_tap_sums.specs.Residues.{AreCongruent, AreFour, BoundOfFourGrowsBy, IsModulus};

use super::factor::Factor;
use super::vectors::{add, less_of_difference, subtract};
use std::simd::prelude::*;

/// The remainders of numbers below twice the modulus.
#[inline(always)]
pub(crate) fn reduced_four<const P: u32>(numbers: u32x4) -> u32x4
    requires modulus { IsModulus P }
    requires numbers { AreFour (2 * P) numbers }
    ensures less { AreFour P result }
    ensures same { AreCongruent P 4 result (λ k. pos (slice_index_or numbers k 0)) }
{
    less_of_difference(numbers, P)
}

/// The remainders of any numbers of 32 bits. It divides, so it is for tables and constants.
#[inline(always)]
pub(crate) fn remainders_of_four<const P: u32>(numbers: u32x4) -> u32x4
    requires modulus { IsModulus P }
    requires numbers { AreFour (2 ^ 32) numbers }
    ensures less { AreFour P result }
    ensures same { AreCongruent P 4 result (λ k. pos (slice_index_or numbers k 0)) }
{
    let one: Factor<P> = Factor::of(1);
    reduced_four::<P>(one.times_four(numbers))
}

/// A multiple of the modulus less each number below it.
#[inline(always)]
pub(crate) fn opposite_four<const P: u32, const TIMES: u32>(numbers: u32x4) -> u32x4
    requires modulus { IsModulus P }
    requires times { TIMES ≤ 8 }
    requires numbers { AreFour (TIMES * P) numbers }
    ensures less { AreFour (TIMES * P + 1) result }
    ensures same { AreCongruent P 4 result (λ k. neg_ℤ (pos (slice_index_or numbers k 0))) }
{
    subtract(u32x4::splat(TIMES * P), numbers)
}

/// `low + root * high` and `low - root * high`, each at most twice the modulus more than `low`.
#[inline(always)]
pub(crate) fn spread_four<const P: u32>(root: Factor<P>, low: u32x4, high: u32x4) -> (u32x4, u32x4)
    requires modulus { IsModulus P }
    requires low { AreFour (2 ^ 32 - 2 * P) low }
    requires high { AreFour (2 ^ 32) high }
    ensures low { BoundOfFourGrowsBy (2 * P) low result.0 }
    ensures high { BoundOfFourGrowsBy (2 * P) low result.1 }
    ensures plus { AreCongruent P 4 result.0 (spread_at (pos root.entry) low high) }
    ensures minus { AreCongruent P 4 result.1 (spread_at (neg_ℤ (pos root.entry)) low high) }
{
    let part = root.times_four(high);
    (add(low, part), add(low, opposite_four::<P, 2>(part)))
}

/// `low + high`, which is not corrected, and `inverse * (low - high)`.
#[inline(always)]
fn gather_open<const P: u32, const TIMES: u32>(
    inverse: Factor<P>,
    low: u32x4,
    high: u32x4,
) -> (u32x4, u32x4)
    requires modulus { IsModulus P }
    requires times { TIMES ≤ 8 }
    requires low { AreFour (TIMES * P) low }
    requires high { AreFour (TIMES * P) high }
    ensures low { AreFour (2 * TIMES * P) result.0 }
    ensures high { AreFour (2 * P) result.1 }
    ensures plus { (k : ℕ) → k < 4 → slice_index_or result.0 k 0 ≡ slice_index_or low k 0 + slice_index_or high k 0 }
    ensures minus { AreCongruent P 4 result.1 (difference_at (pos inverse.entry) low high) }
{
    (
        add(low, high),
        inverse.times_four(add(low, opposite_four::<P, TIMES>(high))),
    )
}

/// `low + high` and `inverse * (low - high)`, below four times the modulus as both are.
#[inline(always)]
pub(crate) fn gather_four<const P: u32>(
    inverse: Factor<P>,
    low: u32x4,
    high: u32x4,
) -> (u32x4, u32x4)
    requires modulus { IsModulus P }
    requires low { AreFour (4 * P) low }
    requires high { AreFour (4 * P) high }
    ensures low { AreFour (4 * P) result.0 }
    ensures high { AreFour (4 * P) result.1 }
    ensures plus { AreCongruent P 4 result.0 (sum_at low high) }
    ensures minus { AreCongruent P 4 result.1 (difference_at (pos inverse.entry) low high) }
{
    let (plus, minus) = gather_open::<P, 4>(inverse, low, high);
    (less_of_difference(plus, 4 * P), minus)
}

/// Two levels of `spread_four`: the first and third, and the second and fourth by `root`, then the first and second by
/// `low_root`, and the third and fourth by `high_root`.
#[inline(always)]
pub(crate) fn spread_two_levels<const P: u32>(
    root: Factor<P>,
    low_root: Factor<P>,
    high_root: Factor<P>,
    first: u32x4,
    second: u32x4,
    third: u32x4,
    fourth: u32x4,
) -> (u32x4, u32x4, u32x4, u32x4)
    requires modulus { IsModulus P }
    requires first { AreFour (2 ^ 32 - 4 * P) first }
    requires second { AreFour (2 ^ 32 - 4 * P) second }
    requires third { AreFour (2 ^ 32) third }
    requires fourth { AreFour (2 ^ 32) fourth }
    ensures first_less { BoundOfFourGrowsBy (4 * P) first result.0 }
    ensures second_less { BoundOfFourGrowsBy (4 * P) first result.1 }
    ensures third_less { BoundOfFourGrowsBy (4 * P) first result.2 }
    ensures fourth_less { BoundOfFourGrowsBy (4 * P) first result.3 }
    ensures first { AreCongruent P 4 result.0 (spread_first_at (levels_of root.entry low_root.entry high_root.entry) first second third fourth) }
    ensures second { AreCongruent P 4 result.1 (spread_second_at (levels_of root.entry low_root.entry high_root.entry) first second third fourth) }
    ensures third { AreCongruent P 4 result.2 (spread_third_at (levels_of root.entry low_root.entry high_root.entry) first second third fourth) }
    ensures fourth { AreCongruent P 4 result.3 (spread_fourth_at (levels_of root.entry low_root.entry high_root.entry) first second third fourth) }
{
    let (low, high) = spread_four(root, first, third);
    let (next_low, next_high) = spread_four(root, second, fourth);
    let (first, second) = spread_four(low_root, low, next_low);
    let (third, fourth) = spread_four(high_root, high, next_high);
    (first, second, third, fourth)
}

/// Two levels of `gather_four`: the way back of `spread_two_levels`. Sums are corrected once, after both levels.
#[inline(always)]
pub(crate) fn gather_two_levels<const P: u32>(
    inverse: Factor<P>,
    low_inverse: Factor<P>,
    high_inverse: Factor<P>,
    first: u32x4,
    second: u32x4,
    third: u32x4,
    fourth: u32x4,
) -> (u32x4, u32x4, u32x4, u32x4)
    requires modulus { IsModulus P }
    requires first { AreFour (4 * P) first }
    requires second { AreFour (4 * P) second }
    requires third { AreFour (4 * P) third }
    requires fourth { AreFour (4 * P) fourth }
    ensures first_less { AreFour (4 * P) result.0 }
    ensures second_less { AreFour (4 * P) result.1 }
    ensures third_less { AreFour (4 * P) result.2 }
    ensures fourth_less { AreFour (4 * P) result.3 }
    ensures first { AreCongruent P 4 result.0 (gather_first_at first second third fourth) }
    ensures second { AreCongruent P 4 result.1 (gather_second_at (levels_of inverse.entry low_inverse.entry high_inverse.entry) first second third fourth) }
    ensures third { AreCongruent P 4 result.2 (gather_third_at (levels_of inverse.entry low_inverse.entry high_inverse.entry) first second third fourth) }
    ensures fourth { AreCongruent P 4 result.3 (gather_fourth_at (levels_of inverse.entry low_inverse.entry high_inverse.entry) first second third fourth) }
{
    let (low, next_low) = gather_open::<P, 4>(low_inverse, first, second);
    let (high, next_high) = gather_open::<P, 4>(high_inverse, third, fourth);
    let (first, third) = gather_open::<P, 8>(inverse, low, high);
    let (second, fourth) = gather_open::<P, 2>(inverse, next_low, next_high);
    let first = less_of_difference(less_of_difference(first, 8 * P), 4 * P);
    (first, second, third, fourth)
}

/// Four numbers of each third before products of three thirds: with `part` the first less the third, the third plus
/// `half * part`, the second plus `turned_half * part`, and `half * part`.
#[inline(always)]
pub(crate) fn split_four_of_thirds<const P: u32>(
    half: Factor<P>,
    turned_half: Factor<P>,
    first: u32x4,
    second: u32x4,
    third: u32x4,
) -> (u32x4, u32x4, u32x4)
    requires modulus { IsModulus P }
    requires first { AreFour (2 * P) first }
    requires second { AreFour (2 * P) second }
    requires third { AreFour (2 * P) third }
    ensures first_less { AreFour (4 * P) result.0 }
    ensures second_less { AreFour (4 * P) result.1 }
    ensures third_less { AreFour (2 * P) result.2 }
    ensures first { AreCongruent P 4 result.0 (with_difference_at third (pos half.entry) first third) }
    ensures second { AreCongruent P 4 result.1 (with_difference_at second (pos turned_half.entry) first third) }
    ensures third { AreCongruent P 4 result.2 (difference_at (pos half.entry) first third) }
{
    let part = add(first, opposite_four::<P, 2>(third));
    let taken = half.times_four(part);
    let turned = turned_half.times_four(part);
    (add(third, taken), add(second, turned), taken)
}

/// Four numbers of each half of one product less those of another: `first - root * third` and `second - third`.
#[inline(always)]
pub(crate) fn join_four_of_thirds<const P: u32>(
    root: Factor<P>,
    first: u32x4,
    second: u32x4,
    third: u32x4,
) -> (u32x4, u32x4)
    requires modulus { IsModulus P }
    requires first { AreFour (4 * P) first }
    requires second { AreFour (4 * P) second }
    requires third { AreFour (4 * P) third }
    ensures first_less { AreFour (4 * P) result.0 }
    ensures second_less { AreFour (4 * P) result.1 }
    ensures first { AreCongruent P 4 result.0 (spread_at (neg_ℤ (pos root.entry)) first third) }
    ensures second { AreCongruent P 4 result.1 (minus_at second third) }
{
    let part = root.times_four(third);
    let low = add(first, opposite_four::<P, 2>(part));
    let high = add(second, opposite_four::<P, 4>(third));
    (
        less_of_difference(low, 4 * P),
        less_of_difference(high, 4 * P),
    )
}
