//! The passes before and after sums over three thirds of n numbers each. Where r * r is -1 modulo the prime, a product modulo
//! x^2n - 1 and one modulo x^n - r give the sums of at most n weights, from each place of the first two thirds on.
ghost use Rattle.std.specs.Prelude.{◌≡◌, ◌*◌, ℕ, pos, neg_ℤ, length};
ghost use Rattle.fx_tap_sums.specs.Quarters.{difference_at, minus_at, spread_at, with_difference_at};
ghost use Rattle.fx_tap_sums.specs.Residues.{AreCongruent, AreRemainders, IsModulus};

use super::factor::Factor;
use super::lanes::{join_four_of_thirds, split_four_of_thirds};
use super::vectors::{load, put};

/// Before the products: with `d` a number of the first third less that of the last, sets the first third to the last plus
/// `half * d`, adds `turned_half * d` to the second, and sets the last to `half * d`: `half` is half of 1, `turned_half` r times
/// that.
#[inline(always)]
pub(crate) fn split_thirds<const P: u32>(
    half: Factor<P>,
    turned_half: Factor<P>,
    first: &mut [u32],
    second: &mut [u32],
    third: &mut [u32],
)
    requires modulus { IsModulus P }
    requires groups { (n : ℕ) × (length first.old ≡ 4 * n) }
    requires as_many { length first.old ≡ length second.old }
    requires as_many_third { length first.old ≡ length third.old }
    requires first { AreRemainders (2 * P) first.old }
    requires second { AreRemainders (2 * P) second.old }
    requires third { AreRemainders (2 * P) third.old }
    ensures first_less { AreRemainders (4 * P) first.new }
    ensures second_less { AreRemainders (4 * P) second.new }
    ensures third_less { AreRemainders (2 * P) third.new }
    ensures first { AreCongruent P (length first.new) first.new (with_difference_at third.old (pos half.entry) first.old third.old) }
    ensures second { AreCongruent P (length first.new) second.new (with_difference_at second.old (pos turned_half.entry) first.old third.old) }
    ensures third { AreCongruent P (length first.new) third.new (difference_at (pos half.entry) first.old third.old) }
{
    'groups: for group in 0..first.len() / 4 {
        let at = 4 * group;
        let (one, two, three) = split_four_of_thirds(
            half,
            turned_half,
            load(first, at),
            load(second, at),
            load(third, at),
        );
        put(first, at, one);
        put(second, at, two);
        put(third, at, three);
    }
}

/// After the products: subtracts `root * e` from each number of the first third and `e` from that of the second, where `e` is
/// that of the last.
#[inline(always)]
pub(crate) fn join_thirds<const P: u32>(
    root: Factor<P>,
    first: &mut [u32],
    second: &mut [u32],
    third: &[u32],
)
    requires modulus { IsModulus P }
    requires groups { (n : ℕ) × (length first.old ≡ 4 * n) }
    requires as_many { length first.old ≡ length second.old }
    requires as_many_third { length first.old ≡ length third.now }
    requires first { AreRemainders (4 * P) first.old }
    requires second { AreRemainders (4 * P) second.old }
    requires third { AreRemainders (4 * P) third.now }
    ensures first_less { AreRemainders (4 * P) first.new }
    ensures second_less { AreRemainders (4 * P) second.new }
    ensures first { AreCongruent P (length first.new) first.new (spread_at (neg_ℤ (pos root.entry)) first.old third.now) }
    ensures second { AreCongruent P (length first.new) second.new (minus_at second.old third.now) }
{
    'groups: for group in 0..first.len() / 4 {
        let at = 4 * group;
        let (one, two) = join_four_of_thirds(
            root,
            load(first, at),
            load(second, at),
            load(third, at),
        );
        put(first, at, one);
        put(second, at, two);
    }
}
