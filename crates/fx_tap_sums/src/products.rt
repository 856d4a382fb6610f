//! Sums of products of samples and coefficients, four lanes at a time. A coefficient is split into two parts of 25 bits, so
//! that its products with samples are one instruction for two lanes, and lanes of 64 bits add 256 of them without overflow.
ghost use Rattle.std.specs.Prelude.{◌≡◌, ◌+◌, ◌*◌, ◌^◌, ◌≤◌, length, pos, neg_ℤ, ◌*ℤ◌, ◌+ℤ◌, ◌≤ℤ◌, unsigned_abs, All, drop};
ghost use Rattle.std.specs.Simd.Lanes.{chunk};
ghost use Rattle.fx_tap_sums.specs.Products.{sum_of_products};
ghost use Rattle.fx_tap_sums.specs.Lanes.{LanesWithin, WithinLane, joined, joined_lanes, lane_sum};

use std::simd::prelude::*;

/// A coefficient in two parts of 25 bits: the higher, which is signed, and the lower.
#[inline(always)]
fn split(coefficient: i64) -> (i32, i32)
    requires { unsigned_abs coefficient ≤ 10 ^ 15 }
    ensures value { coefficient ≡ joined result.0 result.1 }
    ensures high { WithinLane (2 ^ 25) result.0 }
    ensures low { WithinLane (2 ^ 25) result.1 }
{
    let high = coefficient >> 25;
    (high as i32, (coefficient - high * (1 << 25)) as i32)
}

/// Four samples.
#[inline(always)]
pub(crate) fn load(samples: &[i32], at: usize) -> i64x4
    requires { at + 4 ≤ length samples.now }
    ensures value { result ≡ chunk at 4 samples.now }
    ensures small { LanesWithin (2 ^ 31) result }
{
    i64x4::from_array([
        i64::from(samples[at]),
        i64::from(samples[at + 1]),
        i64::from(samples[at + 2]),
        i64::from(samples[at + 3]),
    ])
}

/// The parts of four coefficients.
#[inline(always)]
fn load_parts(coefficients: &[i64], at: usize) -> (i64x4, i64x4)
    requires free { at + 4 ≤ length coefficients.now }
    requires small { All (λ c. unsigned_abs c ≤ 10 ^ 15) coefficients.now }
    ensures value { chunk at 4 coefficients.now ≡ joined_lanes result.0 result.1 }
    ensures high { LanesWithin (2 ^ 25) result.0 }
    ensures low { LanesWithin (2 ^ 25) result.1 }
{
    let (h0, l0) = split(coefficients[at]);
    let (h1, l1) = split(coefficients[at + 1]);
    let (h2, l2) = split(coefficients[at + 2]);
    let (h3, l3) = split(coefficients[at + 3]);
    (
        i64x4::from_array([i64::from(h0), i64::from(h1), i64::from(h2), i64::from(h3)]),
        i64x4::from_array([i64::from(l0), i64::from(l1), i64::from(l2), i64::from(l3)]),
    )
}

/// Sums to which the products of two vectors are added, lane by lane.
#[inline(always)]
fn add_products(sums: i64x4, x: i64x4, y: i64x4, at: usize) -> i64x4
    requires at { at ≤ 252 }
    requires sums { LanesWithin (at * 2 ^ 54) sums }
    requires x { LanesWithin (2 ^ 31) x }
    requires y { LanesWithin (2 ^ 25) y }
    ensures value { lane_sum result ≡ (lane_sum sums +ℤ sum_of_products x y) }
    ensures small { LanesWithin ((at + 4) * 2 ^ 54) result }
{
    sums.strict_add(x.strict_mul(y))
}

/// Two numbers, added up.
#[inline(always)]
fn sum_two(a: i64, b: i64) -> i128
    ensures value { result ≡ (a +ℤ b) }
    ensures low { neg_ℤ (pos (2 ^ 64)) ≤ℤ result }
    ensures high { result ≤ℤ pos (2 ^ 64) }
{
    i128::from(a) + i128::from(b)
}

/// The lanes after `at` places, added up.
#[inline(always)]
fn sum_lanes(lanes: i64x4, at: usize) -> i128
    requires at { at ≤ 256 }
    requires lanes { LanesWithin (at * 2 ^ 54) lanes }
    ensures value { result ≡ lane_sum lanes }
    ensures low { neg_ℤ (pos (at * 2 ^ 56)) ≤ℤ result }
    ensures high { result ≤ℤ pos (at * 2 ^ 56) }
{
    let [a, b, c, d] = lanes.to_array();
    sum_two(a, b) + sum_two(c, d)
}

/// The sum whose parts, after `at` places, are these.
#[inline(always)]
fn join(high: i128, low: i128, at: usize) -> i128
    requires at { at ≤ 256 }
    requires high_low { neg_ℤ (pos (at * 2 ^ 56)) ≤ℤ high }
    requires high_high { high ≤ℤ pos (at * 2 ^ 56) }
    requires low_low { neg_ℤ (pos (at * 2 ^ 56)) ≤ℤ low }
    requires low_high { low ≤ℤ pos (at * 2 ^ 56) }
    ensures value { result ≡ joined high low }
    ensures low { neg_ℤ (pos (at * 2 ^ 85)) ≤ℤ result }
    ensures high { result ≤ℤ pos (at * 2 ^ 85) }
{
    high * (1 << 25) + low
}

/// The product of a sample and a coefficient.
fn product(sample: i32, coefficient: i64) -> i128
    requires { WithinLane (2 ^ 52) coefficient }
    ensures value { result ≡ sample *ℤ coefficient }
    ensures low { neg_ℤ (pos (2 ^ 83)) ≤ℤ result }
    ensures high { result ≤ℤ pos (2 ^ 83) }
{
    i128::from(sample) * i128::from(coefficient)
}

/// The products from one place on, added to a sum.
fn add_rest(start: i128, samples: &[i32], coefficients: &[i64], at: usize) -> i128
    requires as_many { length coefficients.now ≡ length samples.now }
    requires short { length samples.now ≤ 256 }
    requires small { All (λ c. unsigned_abs c ≤ 10 ^ 15) coefficients.now }
    requires low { neg_ℤ (pos (at * 2 ^ 85)) ≤ℤ start }
    requires high { start ≤ℤ pos (at * 2 ^ 85) }
    requires at { at ≤ length samples.now }
    ensures value { result ≡ (start +ℤ sum_of_products (drop at samples.now) (drop at coefficients.now)) }
    ensures low { neg_ℤ (pos (length samples.now * 2 ^ 85)) ≤ℤ result }
    ensures high { result ≤ℤ pos (length samples.now * 2 ^ 85) }
{
    let mut sum = start;
    for i in at..samples.len() {
        sum += product(samples[i], coefficients[i]);
    }
    sum
}

/// The products of at most 256 samples and coefficients, added up: lane by lane, one sum for each part, and one by one where
/// fewer than four are left.
fn short_dot(samples: &[i32], coefficients: &[i64]) -> i128
    requires as_many { length coefficients.now ≡ length samples.now }
    requires short { length samples.now ≤ 256 }
    requires small { All (λ c. unsigned_abs c ≤ 10 ^ 15) coefficients.now }
    ensures sum { result ≡ sum_of_products samples.now coefficients.now }
    ensures low { neg_ℤ (pos (length samples.now * 2 ^ 85)) ≤ℤ result }
    ensures high { result ≤ℤ pos (length samples.now * 2 ^ 85) }
{
    let mut high = i64x4::splat(0);
    let mut low = i64x4::splat(0);
    let mut at = 0;
    while at + 4 <= samples.len() {
        let x = load(samples, at);
        let (y_high, y_low) = load_parts(coefficients, at);
        high = add_products(high, x, y_high, at);
        low = add_products(low, x, y_low, at);
        at += 4;
    }
    let start = join(sum_lanes(high, at), sum_lanes(low, at), at);
    add_rest(start, samples, coefficients, at)
}

/// The products of the samples and the coefficients at the same places, added up. There are as many of the ones as of the
/// others, at most 1024, and a coefficient is at most `10^15` in magnitude.
pub fn dot(samples: &[i32], coefficients: &[i64]) -> i128
    requires as_many { length coefficients.now ≡ length samples.now }
    requires short { length samples.now ≤ 1024 }
    requires small { All (λ c. unsigned_abs c ≤ 10 ^ 15) coefficients.now }
    ensures sum { result ≡ sum_of_products samples.now coefficients.now }
    ensures low { neg_ℤ (pos (2 ^ 102)) ≤ℤ result }
    ensures high { result ≤ℤ pos (2 ^ 102) }
{
    let mut sum = 0;
    let mut at = 0;
    while at < samples.len() {
        let end = samples.len().min(at + 256);
        sum += short_dot(&samples[at..end], &coefficients[at..end]);
        at = end;
    }
    sum
}
