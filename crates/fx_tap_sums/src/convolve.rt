//! Sums of products of samples and small weights, in 64 bits, sixteen sums side by side.
ghost use Rattle.std.specs.Prelude.{◌≡◌, ◌<◌, ◌≤◌, ◌+◌, ◌*◌, ◌^◌, ℕ, pos, ◌+ℤ◌, ◌*ℤ◌, drop, length, slice_index_or, sum_by, unsigned_abs};
ghost use Rattle.fx_tap_sums.specs.Lanes.{LanesWithin};
ghost use Rattle.fx_tap_sums.specs.Convolution.{AreSmallSums, AreSums};
ghost use Rattle.fx_tap_sums.specs.Products.{sum_of_products};

use crate::pairs::put_turns;
use std::simd::prelude::*;

/// The weights times as many samples, added up.
pub fn small_dot(weights: &[i32], samples: &[i32]) -> i64
    requires as_many { length weights.now ≤ length samples.now }
    requires small { sum_by unsigned_abs weights.now ≤ 2 ^ 30 }
    ensures sum { result ≡ sum_of_products samples.now weights.now }
    ensures bound { unsigned_abs result ≤ 2 ^ 61 }
{
    let mut sum = 0;
    'taps: for tap in 0..weights.len() {
        sum += i64::from(samples[tap]) * i64::from(weights[tap]);
    }
    sum
}

/// Every second one of eight samples, from the first on.
#[inline(always)]
fn load_even(samples: &[i32], at: usize) -> i64x4
    requires { at + 8 ≤ length samples.now }
    ensures small { LanesWithin (2 ^ 31) result }
    ensures value { (k : ℕ) → k < 4 → slice_index_or result k (pos 0) ≡ slice_index_or samples.now (at + 2 * k) (pos 0) }
{
    // Each is read once more so that it is known to fit its type: the vector alone does not tell.
    let _read = (
        samples[at],
        samples[at + 2],
        samples[at + 4],
        samples[at + 6],
    );
    i32x8::from_slice(&samples[at..at + 8])
        .swizzle([0, 2, 4, 6])
        .cast::<i64>()
}

/// Every second one of eight samples, from the second on.
#[inline(always)]
fn load_odd(samples: &[i32], at: usize) -> i64x4
    requires { at + 8 ≤ length samples.now }
    ensures small { LanesWithin (2 ^ 31) result }
    ensures value { (k : ℕ) → k < 4 → slice_index_or result k (pos 0) ≡ slice_index_or samples.now (at + 1 + 2 * k) (pos 0) }
{
    let _read = (
        samples[at + 1],
        samples[at + 3],
        samples[at + 5],
        samples[at + 7],
    );
    i32x8::from_slice(&samples[at..at + 8])
        .swizzle([1, 3, 5, 7])
        .cast::<i64>()
}

/// Sums to which a weight times each of four samples is added.
#[inline(always)]
fn add_products(sums: i64x4, samples: i64x4, weight: i32) -> i64x4
    requires weight { unsigned_abs weight ≤ 2 ^ 30 }
    requires samples { LanesWithin (2 ^ 31) samples }
    requires sums { LanesWithin (2 ^ 61) sums }
    ensures small { LanesWithin (2 ^ 62) result }
    ensures value { (k : ℕ) → k < 4 → slice_index_or result k (pos 0) ≡ slice_index_or sums k (pos 0) +ℤ (slice_index_or samples k (pos 0) *ℤ weight) }
{
    let y = i64x4::splat(i64::from(weight));
    sums.strict_add(samples.strict_mul(y))
}

/// Writes four sums over those from a place on.
#[inline(always)]
pub(crate) fn put_lanes(sums: &mut [i64], at: usize, lanes: i64x4)
    requires free { at + 4 ≤ length sums.old }
    requires lanes { LanesWithin (2 ^ 61) lanes }
    ensures before { (i : ℕ) → i < at → slice_index_or sums.new i (pos 0) ≡ slice_index_or sums.old i (pos 0) }
    ensures put { (k : ℕ) → k < 4 → slice_index_or sums.new (at + k) (pos 0) ≡ slice_index_or lanes k (pos 0) }
{
    lanes.copy_to_slice(&mut sums[at..at + 4]);
}

/// Writes sixteen sums: of the weights times as many samples of the window, from each of its first sixteen places on.
#[inline(never)]
fn sixteen(weights: &[i32], window: &[i32], sums: &mut [i64])
    requires window { length weights.now + 15 ≤ length window.now }
    requires small { sum_by unsigned_abs weights.now ≤ 2 ^ 30 }
    requires sums { length sums.old ≡ 16 }
    ensures sums { (i : ℕ) → i < 16 → slice_index_or sums.new i (pos 0) ≡ sum_of_products (drop i window.now) weights.now }
    ensures bound { AreSmallSums 16 sums.new }
{
    let mut first = i64x4::splat(0);
    let mut second = i64x4::splat(0);
    let mut third = i64x4::splat(0);
    let mut fourth = i64x4::splat(0);
    'taps: for tap in 0..weights.len() {
        let weight = weights[tap];
        let low_even = load_even(window, tap);
        let low_odd = load_even(window, tap + 1);
        let high_even = load_even(window, tap + 8);
        let high_odd = load_odd(window, tap + 8);
        first = add_products(first, low_even, weight);
        second = add_products(second, low_odd, weight);
        third = add_products(third, high_even, weight);
        fourth = add_products(fourth, high_odd, weight);
    }
    put_turns(sums, 0, first, second);
    put_turns(sums, 8, third, fourth);
}

/// Writes the sums of the weights times as many samples of the window, from each of its places on.
pub fn convolve(weights: &[i32], window: &[i32], sums: &mut [i64])
    requires window { length weights.now + length sums.old ≤ length window.now + 1 }
    requires small { sum_by unsigned_abs weights.now ≤ 2 ^ 30 }
    ensures sums { AreSums weights.now window.now sums.new }
    ensures bound { AreSmallSums (length sums.new) sums.new }
{
    let mut at = 0;
    'groups: while at + 16 <= sums.len() {
        sixteen(weights, &window[at..], &mut sums[at..at + 16]);
        at += 16;
    }
    'rest: for place in at..sums.len() {
        sums[place] = small_dot(weights, &window[place..]);
    }
}
