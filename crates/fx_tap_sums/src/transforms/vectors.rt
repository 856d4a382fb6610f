//! Four numbers at a time, lane by lane.
ghost use Rattle.std.specs.Prelude.{◌≡◌, ◌<◌, ◌≤◌, ◌+◌, ◌-◌, ◌*◌, ◌/◌, ◌%◌, ◌^◌, ℕ, pos, ◌-ℤ◌, length, slice_index_or};
ghost use Rattle.fx_tap_sums.specs.Residues.{AreFour};

use std::simd::prelude::*;

/// Four numbers from a place on.
#[inline(always)]
pub(crate) fn load(numbers: &[u32], at: usize) -> u32x4
    requires { at + 4 ≤ length numbers.now }
    ensures four { length result ≡ 4 }
    ensures value { (k : ℕ) → k < 4 → slice_index_or result k 0 ≡ slice_index_or numbers.now (at + k) 0 }
{
    u32x4::from_slice(&numbers[at..at + 4])
}

/// Writes four numbers over those from a place on.
#[inline(always)]
pub(crate) fn put(numbers: &mut [u32], at: usize, lanes: u32x4)
    requires free { at + 4 ≤ length numbers.old }
    requires lanes { AreFour (2 ^ 32) lanes }
    ensures before { (i : ℕ) → i < at → slice_index_or numbers.new i 0 ≡ slice_index_or numbers.old i 0 }
    ensures put { (k : ℕ) → k < 4 → slice_index_or numbers.new (at + k) 0 ≡ slice_index_or lanes k 0 }
    ensures after { (i : ℕ) → at + 4 ≤ i → slice_index_or numbers.new i 0 ≡ slice_index_or numbers.old i 0 }
{
    lanes.copy_to_slice(&mut numbers[at..at + 4]);
}

/// `x + y`.
#[inline(always)]
pub(crate) fn add(x: u32x4, y: u32x4) -> u32x4
    requires x { length x ≡ 4 }
    requires y { length y ≡ 4 }
    requires fits { (k : ℕ) → k < 4 → slice_index_or x k 0 + slice_index_or y k 0 < 2 ^ 32 }
    ensures four { length result ≡ 4 }
    ensures value { (k : ℕ) → k < 4 → slice_index_or result k 0 ≡ slice_index_or x k 0 + slice_index_or y k 0 }
{
    x.strict_add(y)
}

/// `x - y`.
#[inline(always)]
pub(crate) fn subtract(x: u32x4, y: u32x4) -> u32x4
    requires x { length x ≡ 4 }
    requires y { length y ≡ 4 }
    requires less { (k : ℕ) → k < 4 → slice_index_or y k 0 ≤ slice_index_or x k 0 }
    ensures four { length result ≡ 4 }
    ensures value { (k : ℕ) → k < 4 → slice_index_or result k 0 ≡ slice_index_or x k 0 - slice_index_or y k 0 }
{
    x.strict_sub(y)
}

/// `x * y`, in 64 bits.
#[inline(always)]
pub(crate) fn multiply_wide(x: u32x4, y: u32x4) -> u64x4
    requires x { AreFour (2 ^ 32) x }
    requires y { AreFour (2 ^ 32) y }
    ensures four { length result ≡ 4 }
    ensures value { (k : ℕ) → k < 4 → slice_index_or result k 0 ≡ slice_index_or x k 0 * slice_index_or y k 0 }
{
    x.cast::<u64>().strict_mul(y.cast::<u64>())
}

/// `x + y` in 64 bits.
#[inline(always)]
pub(crate) fn add_wide(x: u64x4, y: u64x4) -> u64x4
    requires x { length x ≡ 4 }
    requires y { length y ≡ 4 }
    requires fits { (k : ℕ) → k < 4 → slice_index_or x k 0 + slice_index_or y k 0 < 2 ^ 64 }
    ensures four { length result ≡ 4 }
    ensures value { (k : ℕ) → k < 4 → slice_index_or result k 0 ≡ slice_index_or x k 0 + slice_index_or y k 0 }
{
    x.strict_add(y)
}

/// Numbers of 32 bits in 64.
#[inline(always)]
pub(crate) fn widen(numbers: u32x4) -> u64x4
    requires { AreFour (2 ^ 32) numbers }
    ensures four { length result ≡ 4 }
    ensures value { (k : ℕ) → k < 4 → slice_index_or result k 0 ≡ slice_index_or numbers k 0 }
{
    numbers.cast::<u64>()
}

/// `x * number` in 64 bits.
#[inline(always)]
pub(crate) fn times_number(x: u64x4, number: u64) -> u64x4
    requires x { length x ≡ 4 }
    requires fits { (k : ℕ) → k < 4 → slice_index_or x k 0 * number < 2 ^ 64 }
    ensures four { length result ≡ 4 }
    ensures value { (k : ℕ) → k < 4 → slice_index_or result k 0 ≡ slice_index_or x k 0 * number }
{
    x.strict_mul(u64x4::splat(number))
}

/// `x - number`, with a sign.
#[inline(always)]
pub(crate) fn less_number(x: u64x4, number: u64) -> i64x4
    requires x { AreFour (2 ^ 63) x }
    requires number { number < 2 ^ 63 }
    ensures four { length result ≡ 4 }
    ensures value { (k : ℕ) → k < 4 → slice_index_or result k (pos 0) ≡ pos (slice_index_or x k 0) -ℤ pos number }
{
    x.cast::<i64>().strict_sub(i64x4::splat(number as i64))
}

/// Numbers that fit 32 bits.
#[inline(always)]
pub(crate) fn narrow(numbers: u64x4) -> u32x4
    requires { AreFour (2 ^ 32) numbers }
    ensures four { length result ≡ 4 }
    ensures value { (k : ℕ) → k < 4 → slice_index_or result k 0 ≡ slice_index_or numbers k 0 }
{
    numbers.cast::<u32>()
}

/// How often each number has 2^BITS in it.
#[inline(always)]
pub(crate) fn upper_bits<const BITS: u64>(numbers: u64x4) -> u64x4
    requires bits { BITS < 64 }
    requires four { length numbers ≡ 4 }
    ensures four { length result ≡ 4 }
    ensures value { (k : ℕ) → k < 4 → slice_index_or result k 0 ≡ slice_index_or numbers k 0 / 2 ^ BITS }
{
    numbers >> u64x4::splat(BITS)
}

/// The rest of each number, below 2^BITS.
#[inline(always)]
pub(crate) fn lower_bits<const BITS: u64>(numbers: u64x4) -> u64x4
    requires bits { BITS < 64 }
    requires four { length numbers ≡ 4 }
    ensures four { length result ≡ 4 }
    ensures value { (k : ℕ) → k < 4 → slice_index_or result k 0 ≡ slice_index_or numbers k 0 % 2 ^ BITS }
{
    numbers & u64x4::splat((1 << BITS) - 1)
}

/// `number * x - other * y`, of which only 32 bits are made: the products may be longer, the difference not.
#[inline(always)]
pub(crate) fn difference(number: u32, x: u32x4, other: u32, y: u32x4) -> u32x4
    requires x { length x ≡ 4 }
    requires y { length y ≡ 4 }
    requires less { (k : ℕ) → k < 4 → other * slice_index_or y k 0 ≤ number * slice_index_or x k 0 }
    requires fits { (k : ℕ) → k < 4 → number * slice_index_or x k 0 < other * slice_index_or y k 0 + 2 ^ 32 }
    ensures four { length result ≡ 4 }
    ensures value { (k : ℕ) → k < 4 → slice_index_or result k 0 ≡ number * slice_index_or x k 0 - other * slice_index_or y k 0 }
{
    u32x4::splat(number) * x - u32x4::splat(other) * y
}

/// The less of `x` and `x - number`, which is taken modulo 2^32.
#[inline(always)]
pub(crate) fn less_of_difference(x: u32x4, number: u32) -> u32x4
    requires x { AreFour (2 ^ 32) x }
    requires number { 0 < number }
    ensures four { length result ≡ 4 }
    ensures below { (k : ℕ) → k < 4 → slice_index_or x k 0 < number → slice_index_or result k 0 ≡ slice_index_or x k 0 }
    ensures above { (k : ℕ) → k < 4 → number ≤ slice_index_or x k 0 → slice_index_or result k 0 ≡ slice_index_or x k 0 - number }
{
    x.simd_min(x - u32x4::splat(number))
}
