//! Weights and samples as remainders, ready for transforms.
ghost use Rattle.std.specs.Prelude.{◌≡◌, ◌<◌, ◌≤◌, ◌+◌, ◌*◌, ◌^◌, ℕ, ℤ, List, pos, ◌∷◌, ◌*ℤ◌, length, map, slice_index_or, unsigned_abs, IfOk};
ghost use Rattle.fx_tap_sums.specs.Prepared.{padded_weights};
ghost use Rattle.fx_tap_sums.specs.Residues.{AreRemainders, AreSame, IsModulus, Same};
ghost use Rattle.fx_tap_sums.specs.Transform.{IsTransform};
ghost use Rattle.fx_tap_sums.specs.Upper.{AreUpper};

use super::factor::Factor;
use super::remainders::remainder;
use super::transform::forward;
use std::alloc::{AllocError, Global};

/// The remainders of weights, each times the scale, with zeros after them: so many in all.
fn scaled<const P: u32>(
    alloc: Global,
    count: usize,
    scale: Factor<P>,
    weights: &[i32],
) -> Result<Vec<u32>, AllocError>
    requires modulus { IsModulus P }
    requires bound { length weights.now ≤ count }
    ensures long { IfOk result (λ v. length v.items ≡ count) }
    ensures remainders { IfOk result (λ v. AreRemainders P v.items) }
    ensures same { IfOk result (λ v. AreSame P v.items (map (λ w. pos scale.entry *ℤ w) weights.now)) }
{
    let mut values = Vec::new(alloc);
    'weights: for place in 0..count {
        let value = if place < weights.len() {
            scale.times(remainder::<P>(weights[place]))
        } else {
            0
        };
        values.push(value)?;
    }
    Ok(values)
}

/// The transform, from a place of the table of roots on, of so many numbers, 2^levels times four: the weights, each times the
/// scale, with zeros after them.
pub(crate) fn transformed<const P: u32>(
    alloc: Global,
    roots: &[Factor<P>],
    levels: usize,
    place: usize,
    count: usize,
    scale: Factor<P>,
    weights: &[i32],
) -> Result<Vec<u32>, AllocError>
    requires modulus { IsModulus P }
    requires table { length roots.now ≡ 512 }
    requires count { count ≡ 4 * 2 ^ levels }
    requires place { (place + 1) * count ≤ 4096 }
    requires bound { length weights.now ≤ count }
    ensures long { IfOk result (λ v. length v.items ≡ count) }
    ensures remainders { IfOk result (λ v. AreRemainders P v.items) }
    ensures transform { IfOk result (λ v. IsTransform P roots.now levels place (padded_weights count (map (λ w. pos scale.entry *ℤ w) weights.now)) v.items) }
{
    let mut values = scaled(alloc, count, scale, weights)?;
    forward(roots, levels, place, &mut values);
    Ok(values)
}

/// A number below twice the modulus that is congruent to a sample.
#[inline(always)]
fn sample_remainder<const P: u32>(sample: i32) -> u32
    requires { IsModulus P }
    ensures less { result < 2 * P }
    ensures same { Same (pos P) (pos result) sample }
    ensures bound { unsigned_abs sample ≤ 2 ^ 31 }
{
    // 2^27 is the modulus less a small number, so the nearest multiple of it tells how often the modulus goes into the sample:
    // that takes less time than a division
    let turns = ((sample >> 26) + 1) >> 1;
    sample.wrapping_add((1 - turns).wrapping_mul(P as i32)) as u32
}

/// Writes a zero, numbers below twice the modulus that are congruent to samples, and zeros after them.
pub(crate) fn load<const P: u32>(window: &[i32], values: &mut [u32])
    requires modulus { IsModulus P }
    requires window { length window.now < length values.old }
    ensures remainders { AreRemainders (2 * P) values.new }
    ensures same { AreSame P values.new (pos 0 ∷ window.now) }
    ensures samples { (k : ℕ) → unsigned_abs (slice_index_or window.now k (pos 0)) ≤ 2 ^ 31 }
{
    values[0] = 0;
    'samples: for (place, sample) in window.iter().enumerate() {
        values[place + 1] = sample_remainder::<P>(*sample);
    }
    'rest: for place in window.len() + 1..values.len() {
        values[place] = 0;
    }
}

/// A number below twice the modulus that is congruent to a sample divided by 256, rounded down.
#[inline(always)]
fn upper_remainder<const P: u32>(sample: i32) -> u32
    requires { IsModulus P }
    ensures less { result < 2 * P }
    ensures same { (upper : ℤ) → sample ≡ pos 256 *ℤ upper → Same (pos P) (pos result) upper }
{
    ((sample >> 8) + P as i32) as u32
}

/// Writes a zero, numbers below twice the modulus that are congruent to samples divided by 256, and zeros after them.
pub(crate) fn load_upper<const P: u32>(window: &[i32], values: &mut [u32])
    requires modulus { IsModulus P }
    requires window { length window.now < length values.old }
    ensures remainders { AreRemainders (2 * P) values.new }
    ensures same { (upper : List ℤ) → AreUpper window.now upper → AreSame P values.new (pos 0 ∷ upper) }
{
    values[0] = 0;
    'samples: for (place, sample) in window.iter().enumerate() {
        values[place + 1] = upper_remainder::<P>(*sample);
    }
    'rest: for place in window.len() + 1..values.len() {
        values[place] = 0;
    }
}
