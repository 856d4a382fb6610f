//! Weights prepared for transforms modulo one prime.
ghost use Rattle.std.specs.Prelude.{◌≡◌, ◌<◌, ◌≤◌, ◌+◌, ◌*◌, ◌^◌, ℕ, ℤ, List, pos, ◌*ℤ◌, length, slice_index_or, unsigned_abs, IfOk};
ghost use Rattle.fx_tap_sums.specs.Prepared.{ArePreparedModulo, AreSumsModulo, IsLoaded, IsPreparedWeights, IsSize};
ghost use Rattle.fx_tap_sums.specs.Residues.{AreRemainders, IsModulus};
ghost use Rattle.fx_tap_sums.specs.Transform.{AreRoots, AreSteps};
ghost use Rattle.fx_tap_sums.specs.Upper.{AreUpper};

use super::factor::Factor;
use super::leaves::leaves_of;
use super::loading::{load, load_upper, transformed};
use super::roots::{RootTable, table};
use super::thirds::{join_thirds, split_thirds};
use super::transform::multiply;
use std::alloc::{AllocError, Global};

/// Tables of roots modulo a prime and of their inverses, and the leaves of the transforms of weights among 1,024 numbers, 2,048
/// and 4,096.
#[derive(Drop)]
pub(crate) struct Prepared<const P: u32> {
    pub(crate) table: RootTable<P>,
    pub(crate) small: Vec<u32>,
    pub(crate) medium: Vec<u32>,
    pub(crate) large: Vec<u32>,
    /// The leaves among 1,024 numbers modulo x^1024 - r, where r is the root at place 1, the square of that at place 2.
    pub(crate) turned: Vec<u32>,
}

/// The leaves of the transform, from a place of the table of roots on, of weights, each times a scale, with zeros after them:
/// n numbers, 2^levels times four. A product with them is modulo x^n - s, where s is the square of the root at the place. It is
/// 2^levels times too large, and divided by 2^32 modulo the prime: the scale makes up for both.
fn prepared_weights<const P: u32>(
    alloc: Global,
    table: &RootTable<P>,
    levels: usize,
    place: usize,
    weights: &[i32],
) -> Result<Vec<u32>, AllocError>
    requires modulus { IsModulus P }
    requires table { length table.now.roots.items ≡ 512 }
    requires beside { length table.now.inverses.items ≡ 512 }
    requires are { AreRoots P table.now.roots.items table.now.inverses.items }
    requires levels { (8 ≤ levels) × (levels ≤ 10) }
    requires place { (place + 1) * (4 * 2 ^ levels) ≤ 4096 }
    requires bound { length weights.now ≤ 4 * 2 ^ levels }
    ensures { IfOk result (λ v. IsPreparedWeights P levels place weights.now table.now.roots.items table.now.inverses.items v.items) }
{
    let roots = &table.roots;
    let count = 4 << levels;
    let scale = Factor::of(1 << (32 - levels));
    let spectrum = transformed(alloc, roots, levels, place, count, scale, weights)?;
    leaves_of(alloc, roots, place, &spectrum)
}

/// Weights prepared with roots of the orders 4, 8, up to 1,024, and the inverses of these.
pub(crate) fn prepare<const P: u32>(
    alloc: Global,
    steps: &[u32],
    back: &[u32],
    weights: &[i32],
) -> Result<Prepared<P>, AllocError>
    requires modulus { IsModulus P }
    requires steps { AreSteps P steps.now back.now }
    requires bound { length weights.now ≤ 1024 }
    ensures { IfOk result (λ p. ArePreparedModulo P weights.now p) }
{
    let table = table(alloc, steps, back)?;
    let small = prepared_weights(alloc, &table, 8, 0, weights)?;
    let medium = prepared_weights(alloc, &table, 9, 0, weights)?;
    let large = prepared_weights(alloc, &table, 10, 0, weights)?;
    let turned = prepared_weights(alloc, &table, 8, 2, weights)?;
    Ok(Prepared {
        table,
        small,
        medium,
        large,
        turned,
    })
}

/// As `multiply_loaded`, 3,072 numbers: by a product of 2,048 and one of 1,024, modulo x^2048 - 1 and x^1024 - r, where r is the
/// root at place 1. The first 2,048 numbers have the sums.
fn multiply_thirds<const P: u32>(prepared: &Prepared<P>, values: &mut [u32])
    requires modulus { IsModulus P }
    requires values { length values.old ≡ 3072 }
    requires loaded { AreRemainders (2 * P) values.old }
    requires are { (ws : List ℤ) × ArePreparedModulo P ws prepared.now }
    ensures remainders { AreRemainders (4 * P) values.new }
    ensures sums { (ws window : List ℤ) → ArePreparedModulo P ws prepared.now → IsLoaded P window values.old → AreSumsModulo P ws window values.new }
{
    let roots = &prepared.table.roots;
    let inverses = &prepared.table.inverses;
    let root = roots[1];
    let half: Factor<P> = Factor::of(P / 2 + 1);
    let turned_half: Factor<P> = Factor::of(root.times(half.value()));
    let (front, third) = values.split_at_mut(2048);
    let (first, second) = front.split_at_mut(1024);
    split_thirds(half, turned_half, first, second, third);
    multiply(roots, inverses, 9, 0, &prepared.medium, front);
    multiply(roots, inverses, 8, 2, &prepared.turned, third);
    let (first, second) = front.split_at_mut(1024);
    join_thirds(root, first, second, third);
}

/// Replaces a zero and a window by numbers below four times the modulus, congruent to the sums of the weights times as many
/// numbers of the window, from each place on that has as many (`AreSumsModulo`).
fn multiply_loaded<const P: u32>(prepared: &Prepared<P>, values: &mut [u32])
    requires modulus { IsModulus P }
    requires values { IsSize (length values.old) }
    requires loaded { AreRemainders (2 * P) values.old }
    requires are { (ws : List ℤ) × ArePreparedModulo P ws prepared.now }
    ensures remainders { AreRemainders (4 * P) values.new }
    ensures sums { (ws window : List ℤ) → ArePreparedModulo P ws prepared.now → IsLoaded P window values.old → AreSumsModulo P ws window values.new }
{
    let roots = &prepared.table.roots;
    let inverses = &prepared.table.inverses;
    if values.len() == 1024 {
        multiply(roots, inverses, 8, 0, &prepared.small, values);
    } else if values.len() == 2048 {
        multiply(roots, inverses, 9, 0, &prepared.medium, values);
    } else if values.len() == 3072 {
        multiply_thirds(prepared, values);
    } else {
        multiply(roots, inverses, 10, 0, &prepared.large, values);
    }
}

/// Writes numbers below four times the modulus that are congruent to the sums of the weights times as many samples of the
/// window, from each of its places on.
pub(crate) fn convolve_modulo<const P: u32>(
    prepared: &Prepared<P>,
    window: &[i32],
    values: &mut [u32],
)
    requires modulus { IsModulus P }
    requires window { length window.now < length values.old }
    requires values { IsSize (length values.old) }
    requires are { (ws : List ℤ) × ArePreparedModulo P ws prepared.now }
    ensures remainders { AreRemainders (4 * P) values.new }
    ensures samples { (k : ℕ) → unsigned_abs (slice_index_or window.now k (pos 0)) ≤ 2 ^ 31 }
    ensures sums { (ws : List ℤ) → ArePreparedModulo P ws prepared.now → AreSumsModulo P ws window.now values.new }
{
    load::<P>(window, values);
    multiply_loaded(prepared, values);
}

/// The same of samples that are multiples of 256: numbers congruent to the sums of the weights times the samples divided by 256.
pub(crate) fn convolve_upper_modulo<const P: u32>(
    prepared: &Prepared<P>,
    window: &[i32],
    values: &mut [u32],
)
    requires modulus { IsModulus P }
    requires window { length window.now < length values.old }
    requires values { IsSize (length values.old) }
    requires are { (ws : List ℤ) × ArePreparedModulo P ws prepared.now }
    ensures remainders { AreRemainders (4 * P) values.new }
    ensures sums { (upper ws : List ℤ) → AreUpper window.now upper → ArePreparedModulo P ws prepared.now → AreSumsModulo P ws upper values.new }
{
    load_upper::<P>(window, values);
    multiply_loaded(prepared, values);
}
