//! Transforms of 2^levels times four remainders, in place. In the forward transform the numbers may grow by twice the modulus
//! at each level, and they still fit 32 bits after all levels, so nothing is corrected.
ghost use Rattle.std.specs.Prelude.{◌≡◌, ◌<◌, ◌≤◌, ◌+◌, ◌*◌, ◌^◌, ℕ, ℤ, List, pos, neg_ℤ, ◌*ℤ◌, ◌++◌, ◌-◌, length, slice_index_or};
ghost use Rattle.fx_tap_sums.specs.Multiplying.{MultipliesBy};
ghost use Rattle.fx_tap_sums.specs.Quarters.{difference_at, gather_first_at, gather_fourth_at, gather_second_at, gather_third_at, levels_at, spread_at, spread_first_at, spread_fourth_at, spread_second_at, spread_third_at, sum_at};
ghost use Rattle.fx_tap_sums.specs.Residues.{AreCongruent, AreRemainders, AreSame, BoundGrowsBy, IsModulus, Same};
ghost use Rattle.fx_tap_sums.specs.Transform.{AreRoots, IsTransform};

use super::factor::Factor;
use super::lanes::{
    gather_four, gather_two_levels, remainders_of_four, spread_four, spread_two_levels,
};
use super::leaf::multiply_four;
use super::vectors::{load, put};

/// Sets each pair of numbers to `low + root * high` and `low - root * high`. The bound of all grows by twice the modulus.
#[inline(always)]
fn spread<const P: u32>(root: Factor<P>, low: &mut [u32], high: &mut [u32])
    requires modulus { IsModulus P }
    requires groups { (n : ℕ) × (length low.old ≡ 4 * n) }
    requires as_many { length low.old ≡ length high.old }
    requires low { AreRemainders (2 ^ 32 - 2 * P) low.old }
    requires high { AreRemainders (2 ^ 32) high.old }
    ensures low { BoundGrowsBy (2 * P) low.old low.new }
    ensures high { BoundGrowsBy (2 * P) low.old high.new }
    ensures plus { AreCongruent P (length low.new) low.new (spread_at (pos root.entry) low.old high.old) }
    ensures minus { AreCongruent P (length low.new) high.new (spread_at (neg_ℤ (pos root.entry)) low.old high.old) }
{
    'groups: for group in 0..low.len() / 4 {
        let at = 4 * group;
        let (plus, minus) = spread_four(root, load(low, at), load(high, at));
        put(low, at, plus);
        put(high, at, minus);
    }
}

/// Sets each pair of numbers to `low + high` and `inverse * (low - high)`.
#[inline(always)]
fn gather<const P: u32>(inverse: Factor<P>, low: &mut [u32], high: &mut [u32])
    requires modulus { IsModulus P }
    requires groups { (n : ℕ) × (length low.old ≡ 4 * n) }
    requires as_many { length low.old ≡ length high.old }
    requires low { AreRemainders (4 * P) low.old }
    requires high { AreRemainders (4 * P) high.old }
    ensures low { AreRemainders (4 * P) low.new }
    ensures high { AreRemainders (4 * P) high.new }
    ensures plus { AreCongruent P (length low.new) low.new (sum_at low.old high.old) }
    ensures minus { AreCongruent P (length low.new) high.new (difference_at (pos inverse.entry) low.old high.old) }
{
    'groups: for group in 0..low.len() / 4 {
        let at = 4 * group;
        let (plus, minus) = gather_four(inverse, load(low, at), load(high, at));
        put(low, at, plus);
        put(high, at, minus);
    }
}

/// Two levels of `spread` in one pass: the first and third, and the second and fourth by the root at a place, then the first
/// and second by the root at 2 * place, and the third and fourth by that at 2 * place + 1. The bound of all grows by four times
/// the modulus.
#[inline(always)]
fn spread_quarters<const P: u32>(
    roots: &[Factor<P>],
    place: usize,
    first: &mut [u32],
    second: &mut [u32],
    third: &mut [u32],
    fourth: &mut [u32],
)
    requires modulus { IsModulus P }
    requires table { length roots.now ≡ 512 }
    requires place { place < 256 }
    requires groups { (n : ℕ) × (length first.old ≡ 4 * n) }
    requires as_many { length first.old ≡ length second.old }
    requires as_many_third { length first.old ≡ length third.old }
    requires as_many_fourth { length first.old ≡ length fourth.old }
    requires first { AreRemainders (2 ^ 32 - 4 * P) first.old }
    requires second { AreRemainders (2 ^ 32 - 4 * P) second.old }
    requires third { AreRemainders (2 ^ 32) third.old }
    requires fourth { AreRemainders (2 ^ 32) fourth.old }
    ensures first_less { BoundGrowsBy (4 * P) first.old first.new }
    ensures second_less { BoundGrowsBy (4 * P) first.old second.new }
    ensures third_less { BoundGrowsBy (4 * P) first.old third.new }
    ensures fourth_less { BoundGrowsBy (4 * P) first.old fourth.new }
    ensures first { AreCongruent P (length first.new) first.new (spread_first_at (levels_at roots.now place) first.old second.old third.old fourth.old) }
    ensures second { AreCongruent P (length first.new) second.new (spread_second_at (levels_at roots.now place) first.old second.old third.old fourth.old) }
    ensures third { AreCongruent P (length first.new) third.new (spread_third_at (levels_at roots.now place) first.old second.old third.old fourth.old) }
    ensures fourth { AreCongruent P (length first.new) fourth.new (spread_fourth_at (levels_at roots.now place) first.old second.old third.old fourth.old) }
{
    let root = roots[place];
    let low_root = roots[2 * place];
    let high_root = roots[2 * place + 1];
    'groups: for group in 0..first.len() / 4 {
        let at = 4 * group;
        let (one, two, three, four) = spread_two_levels(
            root,
            low_root,
            high_root,
            load(first, at),
            load(second, at),
            load(third, at),
            load(fourth, at),
        );
        put(first, at, one);
        put(second, at, two);
        put(third, at, three);
        put(fourth, at, four);
    }
}

/// Two levels of `gather` in one pass: the way back of `spread_quarters`.
#[inline(always)]
fn gather_quarters<const P: u32>(
    inverses: &[Factor<P>],
    place: usize,
    first: &mut [u32],
    second: &mut [u32],
    third: &mut [u32],
    fourth: &mut [u32],
)
    requires modulus { IsModulus P }
    requires table { length inverses.now ≡ 512 }
    requires place { place < 256 }
    requires groups { (n : ℕ) × (length first.old ≡ 4 * n) }
    requires as_many { length first.old ≡ length second.old }
    requires as_many_third { length first.old ≡ length third.old }
    requires as_many_fourth { length first.old ≡ length fourth.old }
    requires first { AreRemainders (4 * P) first.old }
    requires second { AreRemainders (4 * P) second.old }
    requires third { AreRemainders (4 * P) third.old }
    requires fourth { AreRemainders (4 * P) fourth.old }
    ensures first_less { AreRemainders (4 * P) first.new }
    ensures second_less { AreRemainders (4 * P) second.new }
    ensures third_less { AreRemainders (4 * P) third.new }
    ensures fourth_less { AreRemainders (4 * P) fourth.new }
    ensures first { AreCongruent P (length first.new) first.new (gather_first_at first.old second.old third.old fourth.old) }
    ensures second { AreCongruent P (length first.new) second.new (gather_second_at (levels_at inverses.now place) first.old second.old third.old fourth.old) }
    ensures third { AreCongruent P (length first.new) third.new (gather_third_at (levels_at inverses.now place) first.old second.old third.old fourth.old) }
    ensures fourth { AreCongruent P (length first.new) fourth.new (gather_fourth_at (levels_at inverses.now place) first.old second.old third.old fourth.old) }
{
    let inverse = inverses[place];
    let low_inverse = inverses[2 * place];
    let high_inverse = inverses[2 * place + 1];
    'groups: for group in 0..first.len() / 4 {
        let at = 4 * group;
        let (one, two, three, four) = gather_two_levels(
            inverse,
            low_inverse,
            high_inverse,
            load(first, at),
            load(second, at),
            load(third, at),
            load(fourth, at),
        );
        put(first, at, one);
        put(second, at, two);
        put(third, at, three);
        put(fourth, at, four);
    }
}

/// What the next levels ask of halves of 2^levels times four numbers. It does nothing: the conditions of a recursive call are
/// proved from facts that stand there already, and this call states them.
#[inline(always)]
fn are_halves(levels: usize, place: usize, low: usize, high: usize)
    requires levels { 0 < levels }
    requires same { low ≡ high }
    requires power { low + high ≡ 4 * 2 ^ levels }
    requires place { (place + 1) * (low + high) ≤ 4096 }
    ensures low { low ≡ 4 * 2 ^ (levels - 1) }
    ensures high { high ≡ 4 * 2 ^ (levels - 1) }
    ensures left { (2 * place + 1) * low ≤ 4096 }
    ensures left_high { (2 * place + 1) * high ≤ 4096 }
    ensures right { (2 * place + 1 + 1) * low ≤ 4096 }
    ensures right_high { (2 * place + 1 + 1) * high ≤ 4096 }
{}

/// Parts of remainders are remainders. It does nothing, as `are_halves`.
#[inline(always)]
fn are_parts<const P: u32>(whole: &[u32], front: &[u32], back: &[u32])
    requires whole { AreRemainders P whole.now }
    requires both { whole.now ≡ front.now ++ back.now }
    ensures front { AreRemainders P front.now }
    ensures back { AreRemainders P back.now }
{}

/// The bound of both halves at the next level. It does nothing, as `are_halves`.
#[inline(always)]
fn are_bounded<const P: u32>(levels: usize, low: &[u32], high: &[u32])
    requires some { 1 ≤ levels }
    requires bound { levels ≤ 10 }
    requires low { AreRemainders ((22 - 2 * levels) * P + 2 * P) low.now }
    requires high { AreRemainders ((22 - 2 * levels) * P + 2 * P) high.now }
    ensures low { AreRemainders ((22 - 2 * (levels - 1)) * P) low.now }
    ensures high { AreRemainders ((22 - 2 * (levels - 1)) * P) high.now }
{}

/// What the levels after the next two ask of a quarter of 2^levels times four numbers. It does nothing, as `are_halves`.
#[inline(always)]
fn is_quarter<const P: u32>(levels: usize, place: usize, next: usize, quarter: &[u32])
    requires levels { 5 ≤ levels }
    requires bound { levels ≤ 10 }
    requires power { 4 * length quarter.now ≡ 4 * 2 ^ levels }
    requires place { (place + 1) * (4 * length quarter.now) ≤ 4096 }
    requires next { next < 4 * (place + 1) }
    requires values { AreRemainders ((22 - 2 * levels) * P + 4 * P) quarter.now }
    ensures power { length quarter.now ≡ 4 * 2 ^ (levels - 2) }
    ensures place { (next + 1) * length quarter.now ≤ 4096 }
    ensures values { AreRemainders ((22 - 2 * (levels - 2)) * P) quarter.now }
{}

/// Transforms 2^levels times four numbers in reverse order, from a place of the table of roots on.
pub(crate) fn forward<const P: u32>(
    roots: &[Factor<P>],
    levels: usize,
    place: usize,
    values: &mut [u32],
)
    requires modulus { IsModulus P }
    requires table { length roots.now ≡ 512 }
    requires power { length values.old ≡ 4 * 2 ^ levels }
    requires place { (place + 1) * length values.old ≤ 4096 }
    requires values { AreRemainders ((22 - 2 * levels) * P) values.old }
    ensures values { AreRemainders P values.new }
    ensures transform { (h : List ℤ) → length h ≡ length values.old → AreSame P values.old h → IsTransform P roots.now levels place h values.new }
{
    if levels == 0 {
        put(values, 0, remainders_of_four::<P>(load(values, 0)));
        return;
    }
    let half = values.len() / 2;
    let (low, high) = values.split_at_mut(half);
    spread(roots[place], high, low);
    are_halves(levels, place, low.len(), high.len());
    are_bounded::<P>(levels, low, high);
    forward(roots, levels - 1, 2 * place, high);
    forward(roots, levels - 1, 2 * place + 1, low);
}

/// As `multiply`, eight numbers.
#[inline(always)]
fn multiply_eight<const P: u32>(
    root: Factor<P>,
    inverse: Factor<P>,
    leaves: &[u32],
    values: &mut [u32],
)
    requires modulus { IsModulus P }
    requires inverse { Same (pos P) (pos inverse *ℤ pos root) (pos 1) }
    requires eight { length values.old ≡ 8 }
    requires as_many { length leaves.now ≡ 16 }
    requires leaves { AreRemainders P leaves.now }
    requires values { AreRemainders (20 * P) values.old }
    ensures values { AreRemainders (4 * P) values.new }
    ensures product { (roots : List ℕ) (place : ℕ) → slice_index_or roots place 0 ≡ root.entry → MultipliesBy P 1 roots place leaves.now values.old values.new }
{
    let (low, high) = spread_four(root, load(values, 0), load(values, 4));
    let low = multiply_four::<P>(low, leaves, 8);
    let high = multiply_four::<P>(high, leaves, 0);
    let (low, high) = gather_four(inverse, low, high);
    put(values, 0, low);
    put(values, 4, high);
}

/// As `multiply`, 32 numbers. In code of its own their loops are unrolled: short loops of several lengths take more time.
#[inline(never)]
fn multiply_thirty_two<const P: u32>(
    roots: &[Factor<P>],
    inverses: &[Factor<P>],
    place: usize,
    leaves: &[u32],
    values: &mut [u32],
)
    requires modulus { IsModulus P }
    requires table { length roots.now ≡ 512 }
    requires beside { length inverses.now ≡ 512 }
    requires are { AreRoots P roots.now inverses.now }
    requires thirty_two { length values.old ≡ 32 }
    requires as_many { length leaves.now ≡ 64 }
    requires place { place < 128 }
    requires leaves { AreRemainders P leaves.now }
    requires values { AreRemainders (16 * P) values.old }
    ensures values { AreRemainders (4 * P) values.new }
    ensures product { MultipliesBy P 3 roots.now place leaves.now values.old values.new }
{
    let (low, high) = values.split_at_mut(16);
    let (first, second) = low.split_at_mut(8);
    let (third, fourth) = high.split_at_mut(8);
    let left = 2 * place;
    let right = 2 * place + 1;
    spread_quarters(roots, place, first, second, third, fourth);
    let (front, back) = leaves.split_at(32);
    let (one, two) = front.split_at(16);
    let (three, four) = back.split_at(16);
    multiply_eight(roots[2 * left], inverses[2 * left], four, first);
    multiply_eight(roots[2 * left + 1], inverses[2 * left + 1], three, second);
    multiply_eight(roots[2 * right], inverses[2 * right], two, third);
    multiply_eight(roots[2 * right + 1], inverses[2 * right + 1], one, fourth);
    gather_quarters(inverses, place, first, second, third, fourth);
}

/// As `multiply`, 64 numbers: by one level, since two would leave sixteen.
#[inline(always)]
fn multiply_sixty_four<const P: u32>(
    roots: &[Factor<P>],
    inverses: &[Factor<P>],
    place: usize,
    leaves: &[u32],
    values: &mut [u32],
)
    requires modulus { IsModulus P }
    requires table { length roots.now ≡ 512 }
    requires beside { length inverses.now ≡ 512 }
    requires are { AreRoots P roots.now inverses.now }
    requires sixty_four { length values.old ≡ 64 }
    requires as_many { length leaves.now ≡ 128 }
    requires place { place < 64 }
    requires leaves { AreRemainders P leaves.now }
    requires values { AreRemainders (14 * P) values.old }
    ensures values { AreRemainders (4 * P) values.new }
    ensures product { MultipliesBy P 4 roots.now place leaves.now values.old values.new }
{
    let (low, high) = values.split_at_mut(32);
    spread(roots[place], low, high);
    let (front, back) = leaves.split_at(64);
    multiply_thirty_two(roots, inverses, 2 * place, back, low);
    multiply_thirty_two(roots, inverses, 2 * place + 1, front, high);
    gather(inverses[place], low, high);
}

/// Multiplies 2^levels times four numbers, at least 32, by those whose transform is stored backwards in a spectrum, of which a
/// table has the leaves, modulo x^n - s, where s is the square of the root at a place of the table of roots. What is written is
/// 2^levels times the product, divided by 2^32 modulo the prime: times the number that multiplied by 2^32 is 1 modulo it.
pub(crate) fn multiply<const P: u32>(
    roots: &[Factor<P>],
    inverses: &[Factor<P>],
    levels: usize,
    place: usize,
    leaves: &[u32],
    values: &mut [u32],
)
    requires modulus { IsModulus P }
    requires table { length roots.now ≡ 512 }
    requires beside { length inverses.now ≡ 512 }
    requires are { AreRoots P roots.now inverses.now }
    requires levels { 3 ≤ levels }
    requires power { length values.old ≡ 4 * 2 ^ levels }
    requires as_many { length leaves.now ≡ 2 * length values.old }
    requires place { (place + 1) * length values.old ≤ 4096 }
    requires leaves { AreRemainders P leaves.now }
    requires values { AreRemainders ((22 - 2 * levels) * P) values.old }
    ensures values { AreRemainders (4 * P) values.new }
    ensures product { MultipliesBy P levels roots.now place leaves.now values.old values.new }
{
    if levels == 3 {
        multiply_thirty_two(roots, inverses, place, leaves, values);
        return;
    }
    if levels == 4 {
        multiply_sixty_four(roots, inverses, place, leaves, values);
        return;
    }
    let half = values.len() / 2;
    let (low, high) = values.split_at_mut(half);
    let (first, second) = low.split_at_mut(half / 2);
    let (third, fourth) = high.split_at_mut(half / 2);
    let left = 2 * place;
    let right = 2 * place + 1;
    spread_quarters(roots, place, first, second, third, fourth);
    let (front, back) = leaves.split_at(2 * half);
    let (one, two) = front.split_at(half);
    let (three, four) = back.split_at(half);
    are_parts::<P>(leaves, front, back);
    are_parts::<P>(front, one, two);
    are_parts::<P>(back, three, four);
    is_quarter::<P>(levels, place, 2 * left, first);
    is_quarter::<P>(levels, place, 2 * left + 1, second);
    is_quarter::<P>(levels, place, 2 * right, third);
    is_quarter::<P>(levels, place, 2 * right + 1, fourth);
    multiply(roots, inverses, levels - 2, 2 * left, four, first);
    multiply(roots, inverses, levels - 2, 2 * left + 1, three, second);
    multiply(roots, inverses, levels - 2, 2 * right, two, third);
    multiply(roots, inverses, levels - 2, 2 * right + 1, one, fourth);
    gather_quarters(inverses, place, first, second, third, fourth);
}
