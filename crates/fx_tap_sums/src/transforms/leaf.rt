//! The product of four numbers and four others modulo x^4 - s: at this size each number is multiplied by each.
ghost use Rattle.std.specs.Prelude.{◌<◌, ◌≤◌, ◌+◌, ◌*◌, ◌/◌, ◌%◌, ◌^◌, ℤ, pos, ◌+ℤ◌, ◌*ℤ◌, length, slice_index_or};
ghost use Rattle.fx_tap_sums.specs.Multiplying.{MultipliesByLeaf};
ghost use Rattle.fx_tap_sums.specs.Residues.{AreCongruent, AreFour, AreRemainders, IsModulus, inverse_of_word};

use super::vectors::{add_wide, load, lower_bits, multiply_wide, narrow, upper_bits};
use std::simd::prelude::*;

/// Sums divided by 2^32 modulo the prime, by Montgomery's reduction: the prime is added so many times that the lower 32 bits are
/// zero, and only the upper ones stay. How many times is the lower bits times minus the inverse of the prime, modulo 2^32. The
/// prime P is 1 plus a multiple of 2^16, so modulo 2^32 the square of P - 1 is 0, and P * (P - 2), which is that square less 1, is
/// -1: minus the inverse of P is P - 2.
#[inline(always)]
fn reduced_sums<const P: u32>(sums: u64x4) -> u32x4
    requires modulus { IsModulus P }
    requires sums { AreFour (88 * P * P) sums }
    ensures less { AreFour (4 * P) result }
    ensures same { AreCongruent P 4 result (λ k. pos (inverse_of_word P) *ℤ pos (slice_index_or sums k 0)) }
{
    let low = narrow(lower_bits::<32>(sums));
    let turns = narrow(lower_bits::<32>(multiply_wide(low, u32x4::splat(P - 2))));
    let whole = add_wide(sums, multiply_wide(turns, u32x4::splat(P)));
    narrow(upper_bits::<32>(whole))
}

/// The product of four numbers and the weights of a leaf, which are stored backwards, modulo x^4 - s, divided by 2^32 modulo the
/// prime. The table of leaves has from a place on the four weights, and then s times each.
#[inline(always)]
pub(crate) fn multiply_four<const P: u32>(numbers: u32x4, leaves: &[u32], at: usize) -> u32x4
    requires modulus { IsModulus P }
    requires numbers { AreFour (22 * P) numbers }
    requires inside { at + 8 ≤ length leaves.now }
    requires leaves { AreRemainders P leaves.now }
    ensures less { AreFour (4 * P) result }
    ensures product { MultipliesByLeaf P leaves.now at numbers result }
{
    let one = multiply_wide(numbers.swizzle([0, 0, 0, 0]), load(leaves, at));
    let two = multiply_wide(numbers.swizzle([1, 1, 1, 1]), load(leaves, at + 1));
    let three = multiply_wide(numbers.swizzle([2, 2, 2, 2]), load(leaves, at + 2));
    let four = multiply_wide(numbers.swizzle([3, 3, 3, 3]), load(leaves, at + 3));
    reduced_sums::<P>(add_wide(add_wide(one, two), add_wide(three, four))).reverse()
}
