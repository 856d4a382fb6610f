//! Sums of products of weights and samples of 16 bits: two products at a time, sixteen sums side by side. A sample of a 16-bit
//! source is a multiple of 65,536.
ghost use Rattle.std.specs.Prelude.{◌≡◌, ◌<◌, ◌≤◌, ◌+◌, ◌-◌, ◌*◌, ◌%◌, ◌^◌, ℕ, true, pos, ◌+ℤ◌, ◌*ℤ◌, ◌↔◌, false, drop, length, slice_index_or, unsigned_abs, FitsSigned, IfNone, IfOk, IfSome};
ghost use Rattle.std.specs.Int.{w32};
ghost use Rattle.std.specs.Simd.Lanes.{Each1, zip2};
ghost use Rattle.fx_tap_sums.specs.Lanes.{LanesWithin};
ghost use Rattle.fx_tap_sums.specs.Added.{AddsEach};
ghost use Rattle.fx_tap_sums.specs.Convolution.{AreSmallSums, AreSums};
ghost use Rattle.fx_tap_sums.specs.Products.{sum_of_products};
ghost use Rattle.fx_tap_sums.specs.Pairs.{AreCarried, AreHalves, AreHalvesFor, ArePaired, ArePairedInParts, ArePairs, ArePairsOfParts, AreParts, AreWithin, EightHalves, FourFit, IsFloor, IsSplit, IsTable, PairsAdded, PairsFit, joined_at, joined_halves, pair_product};

use crate::convolve::{put_lanes, small_dot};
use std::alloc::{AllocError, Global};
use std::marker::Model;
use std::simd::prelude::*;

/// The products of eight numbers with eight others.
#[inline(always)]
fn multiply(x: i16x8, y: i16x8) -> i32x8
    requires x { EightHalves x }
    requires y { EightHalves y }
    ensures eight { length result ≡ 8 }
    ensures fits { Each1 (FitsSigned w32) result }
    ensures value { result ≡ zip2 (λ a b. a *ℤ b) x y }
{
    x.cast::<i32>().strict_mul(y.cast::<i32>())
}

/// The products of eight numbers with eight others, each two neighbours added up.
#[inline(always)]
fn multiply_pairs(x: i16x8, y: i16x8) -> i32x4
    requires x { EightHalves x }
    requires y { EightHalves y }
    requires fits { (k : ℕ) → k < 4 → unsigned_abs (pair_product x (2 * k) y (2 * k)) < 2 ^ 31 }
    ensures fits { FourFit result }
    ensures value { (k : ℕ) → k < 4 → slice_index_or result k (pos 0) ≡ pair_product x (2 * k) y (2 * k) }
{
    let products = multiply(x, y);
    let (even, odd) = products
        .extract::<0, 4>()
        .deinterleave(products.extract::<4, 4>());
    even.strict_add(odd)
}

/// Four sums, lane by lane.
#[inline(always)]
fn add_lanes(x: i32x4, y: i32x4) -> i32x4
    requires x { FourFit x }
    requires y { FourFit y }
    requires fits { (k : ℕ) → k < 4 → unsigned_abs (slice_index_or x k (pos 0) +ℤ slice_index_or y k (pos 0)) < 2 ^ 31 }
    ensures fits { FourFit result }
    ensures value { AddsEach 4 x y result }
{
    x.strict_add(y)
}

/// Eight neighbours.
#[inline(always)]
fn load_halves(halves: &[i16], at: usize) -> i16x8
    requires { at + 8 ≤ length halves.now }
    ensures fits { EightHalves result }
    ensures value { (k : ℕ) → k < 8 → slice_index_or result k (pos 0) ≡ slice_index_or halves.now (at + k) (pos 0) }
{
    // Each is read once more so that it is known to fit its type: the vector alone does not tell.
    let _read = (halves[at], halves[at + 1], halves[at + 2], halves[at + 3]);
    let _read = (
        halves[at + 4],
        halves[at + 5],
        halves[at + 6],
        halves[at + 7],
    );
    i16x8::from_slice(&halves[at..at + 8])
}

/// Four sums to which the products of two weights with two numbers are added.
#[inline(always)]
fn add_pairs(sums: i32x4, x: i16x8, weights: i16x8) -> i32x4
    requires { PairsFit sums x weights }
    ensures { PairsAdded sums x weights result }
{
    add_lanes(sums, multiply_pairs(x, weights))
}

/// High and low sums to which the products of the parts of two weights with two numbers are added.
#[inline(always)]
fn add_parts(
    high: i32x4,
    low: i32x4,
    x: i16x8,
    high_weights: i16x8,
    low_weights: i16x8,
) -> (i32x4, i32x4)
    requires high { PairsFit high x high_weights }
    requires low { PairsFit low x low_weights }
    ensures high { PairsAdded high x high_weights result.0 }
    ensures low { PairsAdded low x low_weights result.1 }
{
    (
        add_pairs(high, x, high_weights),
        add_pairs(low, x, low_weights),
    )
}

/// How often each of four numbers has 2^split in it, rounded down.
#[inline(always)]
fn carried(split: u32, low: i32x4) -> i32x4
    requires split { IsSplit split }
    requires low { FourFit low }
    ensures fits { FourFit result }
    ensures floor { (k : ℕ) → k < 4 → IsFloor (2 ^ split) (slice_index_or low k (pos 0)) (slice_index_or result k (pos 0)) }
{
    low >> i32x4::splat(split as i32)
}

/// The same sums with low ones from 0 on, below 2^split.
#[inline(always)]
fn carry(split: u32, high: i32x4, low: i32x4) -> (i32x4, i32x4)
    requires split { IsSplit split }
    requires high { FourFit high }
    requires low { FourFit low }
    requires small { (k : ℕ) → k < 4 → unsigned_abs (joined_at (2 ^ split) high low k) ≤ 2 ^ 31 * (2 ^ split - 1) }
    ensures high { FourFit result.0 }
    ensures low { FourFit result.1 }
    ensures value { (k : ℕ) → k < 4 → joined_at (2 ^ split) result.0 result.1 k ≡ joined_at (2 ^ split) high low k }
    ensures below { (k : ℕ) → k < 4 → unsigned_abs (slice_index_or result.1 k (pos 0)) ≤ 2 ^ 14 }
{
    let carried = carried(split, low);
    let rest = low.strict_sub(carried.strict_mul(i32x4::splat(1 << split)));
    (add_lanes(high, carried), rest)
}

/// Four sums, each 65,536 times.
#[inline(always)]
fn scale(sums: i32x4) -> i64x4
    requires { FourFit sums }
    ensures small { LanesWithin (2 ^ 61) result }
    ensures value { (k : ℕ) → k < 4 → slice_index_or result k (pos 0) ≡ slice_index_or sums k (pos 0) *ℤ pos 65536 }
{
    sums.cast::<i64>().strict_mul(i64x4::splat(65536))
}

/// High and low sums, joined.
#[inline(always)]
fn join_parts(split: u32, high: i32x4, low: i32x4) -> i64x4
    requires split { IsSplit split }
    requires high { FourFit high }
    requires low { FourFit low }
    ensures small { LanesWithin (2 ^ 46) result }
    ensures value { (k : ℕ) → k < 4 → slice_index_or result k (pos 0) ≡ joined_at (2 ^ split) high low k }
{
    let high = high.cast::<i64>().strict_mul(i64x4::splat(1 << split));
    low.cast::<i64>().strict_add(high)
}

/// High and low sums, joined, each 65,536 times.
#[inline(always)]
fn scale_parts(split: u32, high: i32x4, low: i32x4) -> i64x4
    requires split { IsSplit split }
    requires high { FourFit high }
    requires low { FourFit low }
    requires small { (k : ℕ) → k < 4 → unsigned_abs (joined_at (2 ^ split) high low k) ≤ 2 ^ 45 }
    ensures small { LanesWithin (2 ^ 61) result }
    ensures value { (k : ℕ) → k < 4 → slice_index_or result k (pos 0) ≡ joined_at (2 ^ split) high low k *ℤ pos 65536 }
{
    join_parts(split, high, low).strict_mul(i64x4::splat(65536))
}

/// Four sums and four others in turns.
#[inline(always)]
fn interleave(even: i64x4, odd: i64x4) -> (i64x4, i64x4)
    requires even { LanesWithin (2 ^ 61) even }
    requires odd { LanesWithin (2 ^ 61) odd }
    ensures low { LanesWithin (2 ^ 61) result.0 }
    ensures high { LanesWithin (2 ^ 61) result.1 }
    ensures first { (k : ℕ) → k < 2 → slice_index_or result.0 (2 * k) (pos 0) ≡ slice_index_or even k (pos 0) }
    ensures second { (k : ℕ) → k < 2 → slice_index_or result.0 (2 * k + 1) (pos 0) ≡ slice_index_or odd k (pos 0) }
    ensures third { (k : ℕ) → k < 2 → slice_index_or result.1 (2 * k) (pos 0) ≡ slice_index_or even (k + 2) (pos 0) }
    ensures fourth { (k : ℕ) → k < 2 → slice_index_or result.1 (2 * k + 1) (pos 0) ≡ slice_index_or odd (k + 2) (pos 0) }
{
    even.interleave(odd)
}

/// Writes four sums and four others in turns over those from a place on.
#[inline(always)]
pub(crate) fn put_turns(sums: &mut [i64], at: usize, even: i64x4, odd: i64x4)
    requires free { at + 8 ≤ length sums.old }
    requires even { LanesWithin (2 ^ 61) even }
    requires odd { LanesWithin (2 ^ 61) odd }
    ensures before { (i : ℕ) → i < at → slice_index_or sums.new i (pos 0) ≡ slice_index_or sums.old i (pos 0) }
    ensures even { (k : ℕ) → k < 4 → slice_index_or sums.new (at + 2 * k) (pos 0) ≡ slice_index_or even k (pos 0) }
    ensures odd { (k : ℕ) → k < 4 → slice_index_or sums.new (at + 2 * k + 1) (pos 0) ≡ slice_index_or odd k (pos 0) }
{
    let (low, high) = interleave(even, odd);
    put_lanes(sums, at, low);
    put_lanes(sums, at + 4, high);
}

/// The upper 16 bits of a sample, and whether the lower ones are zero.
#[inline(always)]
fn upper_half(sample: i32) -> (i16, bool)
    ensures upper { result.1 ≡ true → sample ≡ result.0 *ℤ pos 65536 }
    ensures exact { result.1 ≡ true ↔ unsigned_abs sample % 65536 ≡ 0 }
{
    let half = (sample >> 16) as i16;
    (half, i32::from(half) * 65536 == sample)
}

/// Writes the upper 16 bits of each sample, and tests that the lower ones are zero.
fn halve(window: &[i32], halves: &mut [i16]) -> bool
    requires { length window.now ≤ length halves.old }
    ensures upper { result ≡ true → (i : ℕ) → i < length window.now → slice_index_or window.now i (pos 0) ≡ slice_index_or halves.new i (pos 0) *ℤ pos 65536 }
    ensures exact { result ≡ true ↔ AreHalves (length window.now) window.now }
{
    let mut is_exact = true;
    'samples: for place in 0..window.len() {
        let (half, is_half) = upper_half(window[place]);
        halves[place] = half;
        is_exact &= is_half;
    }
    is_exact
}

/// Writes sixteen sums, each 65,536 times: of the weights times as many numbers, from each of the first sixteen places on.
#[inline(never)]
fn sixteen(weights: &[i32], table: &[i16], halves: &[i16], sums: &mut [i64])
    requires table { ArePairs weights.now table.now }
    requires halves { length weights.now + 16 ≤ length halves.now }
    requires sums { length sums.old ≡ 16 }
    ensures sums { (i : ℕ) → i < 16 → slice_index_or sums.new i (pos 0) ≡ sum_of_products (drop i halves.now) weights.now *ℤ pos 65536 }
    ensures bound { AreSmallSums 16 sums.new }
{
    let mut first = i32x4::splat(0);
    let mut second = i32x4::splat(0);
    let mut third = i32x4::splat(0);
    let mut fourth = i32x4::splat(0);
    'pairs: for pair in 0..weights.len().div_ceil(2) {
        let weights = load_halves(table, 8 * pair);
        let tap = 2 * pair;
        first = add_pairs(first, load_halves(halves, tap), weights);
        second = add_pairs(second, load_halves(halves, tap + 1), weights);
        third = add_pairs(third, load_halves(halves, tap + 8), weights);
        fourth = add_pairs(fourth, load_halves(halves, tap + 9), weights);
    }
    put_turns(sums, 0, scale(first), scale(second));
    put_turns(sums, 8, scale(third), scale(fourth));
}

/// As `sixteen`, of weights in two parts. The low sums are carried to the high ones after each interval of so many pairs.
#[inline(never)]
fn sixteen_of_parts<const SPLIT: u32>(
    weights: &[i32],
    high: &[i16],
    low: &[i16],
    interval: usize,
    halves: &[i16],
    sums: &mut [i64],
)
    requires tables { ArePairsOfParts SPLIT weights.now high.now low.now interval }
    requires halves { length weights.now + 16 ≤ length halves.now }
    requires sums { length sums.old ≡ 16 }
    requires interval { interval ≤ 128 }
    ensures sums { (i : ℕ) → i < 16 → slice_index_or sums.new i (pos 0) ≡ sum_of_products (drop i halves.now) weights.now *ℤ pos 65536 }
    ensures bound { AreSmallSums 16 sums.new }
{
    let mut high_first = i32x4::splat(0);
    let mut low_first = i32x4::splat(0);
    let mut high_second = i32x4::splat(0);
    let mut low_second = i32x4::splat(0);
    let mut high_third = i32x4::splat(0);
    let mut low_third = i32x4::splat(0);
    let mut high_fourth = i32x4::splat(0);
    let mut low_fourth = i32x4::splat(0);
    let pairs = weights.len().div_ceil(2);
    let mut start = 0;
    'intervals: while start < pairs {
        let end = pairs.min(start + interval);
        'pairs: for pair in start..end {
            let high_weights = load_halves(high, 8 * pair);
            let low_weights = load_halves(low, 8 * pair);
            let tap = 2 * pair;
            let first = load_halves(halves, tap);
            let second = load_halves(halves, tap + 1);
            let third = load_halves(halves, tap + 8);
            let fourth = load_halves(halves, tap + 9);
            (high_first, low_first) = add_parts(
                high_first,
                low_first,
                first,
                high_weights,
                low_weights,
            );
            (high_second, low_second) = add_parts(
                high_second,
                low_second,
                second,
                high_weights,
                low_weights,
            );
            (high_third, low_third) = add_parts(
                high_third,
                low_third,
                third,
                high_weights,
                low_weights,
            );
            (high_fourth, low_fourth) = add_parts(
                high_fourth,
                low_fourth,
                fourth,
                high_weights,
                low_weights,
            );
        }
        (high_first, low_first) = carry(SPLIT, high_first, low_first);
        (high_second, low_second) = carry(SPLIT, high_second, low_second);
        (high_third, low_third) = carry(SPLIT, high_third, low_third);
        (high_fourth, low_fourth) = carry(SPLIT, high_fourth, low_fourth);
        start = end;
    }
    put_turns(
        sums,
        0,
        scale_parts(SPLIT, high_first, low_first),
        scale_parts(SPLIT, high_second, low_second),
    );
    put_turns(
        sums,
        8,
        scale_parts(SPLIT, high_third, low_third),
        scale_parts(SPLIT, high_fourth, low_fourth),
    );
}

/// How many weights are prepared at most.
const MAX_WEIGHTS: usize = 256;

/// How many weights there are at least where two parts pay.
const MIN_OF_PARTS: usize = 12;

/// How many sums are made at once.
const MAX_SUMS: usize = 256;

/// Tests that the magnitudes of weights are at most `maximum`, and at most `whole` together.
fn are_within(weights: &[i32], maximum: u32, whole: u32) -> bool
    ensures within { result ≡ true → AreWithin maximum whole weights.now }
    ensures beyond { result ≡ false → AreWithin maximum whole weights.now → ⊥ }
{
    let mut left = whole;
    'weights: for place in 0..weights.len() {
        let size = weights[place].unsigned_abs();
        if size > maximum || left < size {
            return false;
        }
        left -= size;
    }
    true
}

/// The weight of a tap: 0 past the last one.
fn weight_at(weights: &[i32], tap: usize) -> i16
    requires { (k : ℕ) → k < length weights.now → unsigned_abs (slice_index_or weights.now k (pos 0)) ≤ 32767 }
    ensures { result ≡ slice_index_or weights.now tap (pos 0) }
{
    if tap >= weights.len() {
        return 0;
    }
    weights[tap] as i16
}

/// Each pair of neighbouring weights four times.
fn table_of(alloc: Global, weights: &[i32]) -> Result<Vec<i16>, AllocError>
    requires count { length weights.now ≤ 256 }
    requires halves { (k : ℕ) → k < length weights.now → unsigned_abs (slice_index_or weights.now k (pos 0)) ≤ 32767 }
    ensures { IfOk result (λ table. IsTable weights.now table.items) }
{
    let mut table = Vec::new(alloc);
    'places: for place in 0..8 * weights.len().div_ceil(2) {
        table.push(weight_at(weights, 2 * (place / 8) + place % 2))?;
    }
    Ok(table)
}

/// The high part of a weight, which counts 2^split times, and the low one.
fn parts_of(split: u32, weight: i32) -> (i32, i32)
    requires split { IsSplit split }
    requires weight { unsigned_abs weight ≤ 32767 * 2 ^ split }
    ensures value { weight ≡ joined_halves (2 ^ split) result.0 result.1 }
    ensures high { unsigned_abs result.0 ≤ 32767 }
    ensures low { unsigned_abs result.1 ≤ 8192 }
{
    let step = 1 << split;
    let high = (weight + step / 2) >> split;
    (high, weight - high * step)
}

/// At which power of two weights are split: 2^13 where they are small enough together, otherwise 2^14.
fn split_of(weights: &[i32]) -> u32
    requires { AreWithin 536854528 1073676288 weights.now }
    ensures split { IsSplit result }
    ensures within { AreWithin (32767 * 2 ^ result) (65536 * (2 ^ result - 1)) weights.now }
{
    if are_within(weights, 268_427_264, 536_805_376) {
        13
    } else {
        14
    }
}

/// Writes the parts of each weight.
fn split_into(split: u32, weights: &[i32], high: &mut [i32], low: &mut [i32])
    requires split { IsSplit split }
    requires small { (k : ℕ) → k < length weights.now → unsigned_abs (slice_index_or weights.now k (pos 0)) ≤ 32767 * 2 ^ split }
    requires high { length high.old ≡ length weights.now }
    requires low { length low.old ≡ length weights.now }
    ensures { AreParts (2 ^ split) weights.now high.new low.new }
{
    'weights: for place in 0..weights.len() {
        let (above, below) = parts_of(split, weights[place]);
        high[place] = above;
        low[place] = below;
    }
}

/// Tests that the magnitudes of so many low parts, wherever they stand, add up to at most 65,000.
fn are_carried(taps: usize, lows: &[i32]) -> bool
    requires taps { taps ≤ 256 }
    requires count { length lows.now ≤ 256 }
    ensures carried { result ≡ true → AreCarried taps lows.now }
    ensures beyond { result ≡ false → AreCarried taps lows.now → ⊥ }
{
    'places: for place in 0..lows.len() {
        let end = lows.len().min(place + taps);
        if !are_within(&lows[place..end], 65_000, 65_000) {
            return false;
        }
    }
    true
}

/// After how many pairs low sums are carried at the latest, 128 at most. 0 where one pair is too many.
fn max_interval(lows: &[i32]) -> usize
    requires { length lows.now ≤ 256 }
    ensures carried { AreCarried (2 * result) lows.now }
    ensures bound { result ≤ 128 }
    ensures maximal { result < 128 → AreCarried (2 * (result + 1)) lows.now → ⊥ }
{
    'intervals: for shorter in 0..128 {
        if !are_carried(2 * (shorter + 1), lows) {
            return shorter;
        }
    }
    128
}

/// The high parts of weights.
#[derive(Drop)]
struct HighParts {
    table: Vec<i16>,
    /// A high part counts 2^split times.
    split: u32,
    interval: usize,
}

/// Weights prepared for samples of 16 bits: the weights, and each pair of neighbours four times; in two parts where they are
/// not of 16 bits.
#[derive(Drop)]
pub struct Pairs {
    weights: Vec<i32>,
    low: Vec<i16>,
    high: Option<HighParts>,
}

// Prepared weights are the list of the weights.
impl Model for Pairs {
    ghost use Rattle.std.specs.Prelude.{◌≤◌, ℤ, List, length, IfNone, IfSome};
    ghost use Rattle.fx_tap_sums.specs.Pairs.{ArePairs, ArePairsOfParts};

    ghost Value = { List ℤ };

    ghost view = { λ s. s.weights.items };

    ghost invariant = { λ s. (length s.weights.items ≤ 256) × IfNone s.high (ArePairs s.weights.items s.low.items) × IfSome s.high (λ high. (high.interval ≤ 128) × ArePairsOfParts high.split s.weights.items high.table.items s.low.items high.interval) };
}

/// A copy of weights.
fn copied(alloc: Global, weights: &[i32]) -> Result<Vec<i32>, AllocError>
    ensures { IfOk result (λ copy. copy.items ≡ weights.now) }
{
    let mut copy = Vec::new(alloc);
    copy.extend_from_slice(weights)?;
    Ok(copy)
}

impl Pairs {
    /// Weights, prepared. None where there are more than 256, where they are too large, and where there are few in two parts,
    /// and only there; `AllocError` where memory is refused.
    pub fn of(alloc: Global, weights: &[i32]) -> Result<Option<Pairs>, AllocError>
        ensures value { IfOk result (λ s. IfSome s (λ v. v ≡ weights.now)) }
        ensures some { IfOk result (λ s. IfSome s (λ _. ArePaired weights.now)) }
        ensures none { IfOk result (λ s. IfNone s (ArePaired weights.now → ⊥)) }
    {
        if weights.len() > MAX_WEIGHTS {
            return Ok(None);
        }
        if !are_within(weights, 32_767, 65_535) {
            return Pairs::of_parts(alloc, weights);
        }
        let low = table_of(alloc, weights)?;
        let weights = copied(alloc, weights)?;
        Ok(Some(Pairs {
            weights,
            low,
            high: None,
        }))
    }

    /// As `of`, in two parts. None where one product after another is no slower.
    fn of_parts(alloc: Global, weights: &[i32]) -> Result<Option<Pairs>, AllocError>
        requires { length weights.now ≤ 256 }
        ensures value { IfOk result (λ s. IfSome s (λ v. v ≡ weights.now)) }
        ensures some { IfOk result (λ s. IfSome s (λ _. ArePairedInParts weights.now)) }
        ensures none { IfOk result (λ s. IfNone s (ArePairedInParts weights.now → ⊥)) }
    {
        if weights.len() < MIN_OF_PARTS || !are_within(weights, 536_854_528, 1_073_676_288) {
            return Ok(None);
        }
        // Smaller low parts are carried less often. They leave larger high ones, whose sums fit only if the weights are small.
        let split = split_of(weights);
        let mut high = Vec::new(alloc);
        high.resize(weights.len(), 0)?;
        let mut low = Vec::new(alloc);
        low.resize(weights.len(), 0)?;
        split_into(split, weights, &mut high, &mut low);
        // At least one pair can go before a carry: each low part is at most 2^13.
        let interval = max_interval(&low);
        let table = table_of(alloc, &high)?;
        let low = table_of(alloc, &low)?;
        let weights = copied(alloc, weights)?;
        Ok(Some(Pairs {
            weights,
            low,
            high: Some(HighParts {
                table,
                split,
                interval,
            }),
        }))
    }

    /// Writes sixteen sums, each 65,536 times: of the weights times as many numbers, from each of the first sixteen places on.
    fn sixteen(&self, halves: &[i16], sums: &mut [i64])
        requires halves { length self.now + 16 ≤ length halves.now }
        requires sums { length sums.old ≡ 16 }
        ensures sums { (i : ℕ) → i < 16 → slice_index_or sums.new i (pos 0) ≡ sum_of_products (drop i halves.now) self.now *ℤ pos 65536 }
        ensures bound { AreSmallSums 16 sums.new }
    {
        if let Some(high) = &self.high {
            let HighParts {
                table,
                split,
                interval,
            } = high;
            return if *split == 13 {
                sixteen_of_parts::<13>(&self.weights, table, &self.low, *interval, halves, sums)
            } else {
                sixteen_of_parts::<14>(&self.weights, table, &self.low, *interval, halves, sums)
            };
        }
        sixteen(&self.weights, &self.low, halves, sums);
    }

    /// As `convolve`, at most 256 sums.
    fn convolve_piece(&self, window: &[i32], sums: &mut [i64]) -> bool
        requires window { length self.now + length sums.old ≤ length window.now + 1 }
        requires count { length sums.old ≤ 256 }
        ensures exact { result ≡ true ↔ AreHalvesFor self.now sums.old window.now }
        ensures sums { result ≡ true → AreSums self.now window.now sums.new }
        ensures bound { result ≡ true → AreSmallSums (length sums.new) sums.new }
    {
        let weights = &self.weights;
        let mut halves = [0; MAX_WEIGHTS + MAX_SUMS];
        let count = window.len().min(weights.len() + sums.len());
        if !halve(&window[..count], &mut halves) {
            return false;
        }
        let mut at = 0;
        'groups: while at + 16 <= sums.len() {
            self.sixteen(&halves[at..], &mut sums[at..at + 16]);
            at += 16;
        }
        'rest: for place in at..sums.len() {
            sums[place] = small_dot(weights, &window[place..]);
        }
        true
    }

    /// Writes the sums of the weights times as many samples of the window, from each of its places on, where all of these
    /// samples, and the next one if there is one, are multiples of 65,536. False where they are not: the sums are any then.
    pub fn convolve(&self, window: &[i32], sums: &mut [i64]) -> bool
        requires window { length self.now + length sums.old ≤ length window.now + 1 }
        ensures exact { 0 < length sums.old → (result ≡ true ↔ AreHalvesFor self.now sums.old window.now) }
        ensures sums { result ≡ true → AreSums self.now window.now sums.new }
        ensures bound { result ≡ true → AreSmallSums (length sums.new) sums.new }
    {
        if !window.is_empty() && window[0] % 65_536 != 0 {
            return false;
        }
        let mut at = 0;
        'pieces: while at < sums.len() {
            let count = (sums.len() - at).min(MAX_SUMS);
            if !self.convolve_piece(&window[at..], &mut sums[at..at + count]) {
                return false;
            }
            at += count;
        }
        true
    }
}
