//! Denominators prepared once: each rounding after that is one signed multiplication and a shift.
ghost use Rattle.std.specs.Prelude.{◌≡◌, ◌+◌, ◌*◌, ◌^◌, ◌<◌, ◌≤◌, false, not, true, unsigned_abs};
ghost use Rattle.fx_fixed.specs.Rounding.{clip_count, clipping, nearest, rounding};

use std::marker::Model;

/// A denominator from 1 to `2^61`, prepared to round whole sums over it.
#[derive(Drop)]
pub struct Denominator {
    value: u64,
    /// The sum and the denominator are both multiplied by it, which leaves the fraction as it is: 3 for a power of two, else 1.
    multiplier: i64,
    /// Slightly above 2^(64 + shift) over the multiplied denominator.
    factor: i64,
    /// 2^(63 + shift).
    half: i128,
    shift: u32,
}

// A prepared denominator is that number.
impl Model for Denominator {
    ghost use Rattle.std.specs.Prelude.{ℕ};
    ghost use Rattle.fx_fixed.specs.Reciprocal.{IsPreparedDenominator};

    ghost Value = { ℕ };

    ghost view = { λ d. d.value };

    ghost invariant = { λ d. IsPreparedDenominator d.value d.multiplier d.factor d.half d.shift };
}

/// A multiplier of a denominator, and a shift: the product lies strictly between `2^(shift + 1)` and `2^(shift + 2)`.
fn multiplier_of(value: u64) -> (u64, u32)
    requires minimum { 1 ≤ value }
    requires largest { value ≤ 2 ^ 61 }
    ensures positive { 1 ≤ result.0 }
    ensures small { result.0 ≤ 3 }
    ensures shift { result.1 ≤ 61 }
    ensures above { 2 * 2 ^ result.1 < result.0 * value }
    ensures below { result.0 * value < 4 * 2 ^ result.1 }
{
    let floor = value.ilog2();
    if value == 1 << floor {
        (3, floor)
    } else {
        (1, floor - 1)
    }
}

impl Denominator {
    /// Prepares a denominator from 1 to `2^61`.
    pub fn new(value: u64) -> Denominator
        requires minimum { 1 ≤ value }
        requires largest { value ≤ 2 ^ 61 }
        ensures { result ≡ value }
    {
        let (multiplier, shift) = multiplier_of(value);
        let power = 1_u128 << (64 + shift);
        // The factor is above the exact one, so that halves below 0 are rounded away from zero as those above 0 are.
        let factor = (power / u128::from(multiplier * value) + 1) as i64;
        Denominator {
            value,
            multiplier: multiplier as i64,
            factor,
            half: (power / 2) as i128,
            shift,
        }
    }

    /// The number itself.
    pub fn value(&self) -> u64
        ensures { result ≡ self.now }
    {
        self.value
    }

    /// The sample nearest to a sum over the denominator, halves away from zero, and whether it was clipped. The magnitude of
    /// the sum is at most `2^61`.
    #[inline(always)]
    pub fn round(&self, sum: i64) -> (i32, bool)
        requires { unsigned_abs sum ≤ 2 ^ 61 }
        ensures { result ≡ rounding sum self.now }
    {
        clip_whole(self.nearest(sum))
    }

    /// The same sample. Adds one to `clips` where it was clipped.
    #[inline(always)]
    pub fn round_and_count(&self, sum: i64, clips: &mut u64) -> i32
        requires small { unsigned_abs sum ≤ 2 ^ 61 }
        requires bound { clips.old < 2 ^ 63 }
        ensures sample { result ≡ (rounding sum self.now).0 }
        ensures clips { clips.new ≡ clips.old + clip_count (rounding sum self.now) }
    {
        let number = self.nearest(sum);
        if is_sample(number) {
            return number as i32;
        }
        clip_and_count(number, clips)
    }

    /// The same for a sum that is not clipped.
    #[inline(always)]
    pub fn round_within(&self, sum: i64) -> i32
        requires small { unsigned_abs sum ≤ 2 ^ 61 }
        requires within { (rounding sum self.now).1 ≡ false }
        ensures { rounding sum self.now ≡ (result, false) }
    {
        self.nearest(sum) as i32
    }

    /// The integer nearest to a sum over the denominator, halves away from zero.
    // A loop reads the factor from memory each time: where it is kept in a register its sign is lost, and three products are made.
    #[inline(always)]
    fn nearest(&self, sum: i64) -> i64
        requires { unsigned_abs sum ≤ 2 ^ 61 }
        ensures { result ≡ nearest sum self.now }
    {
        let scaled = i128::from(sum * self.multiplier);
        let product = scaled * i128::from(self.factor) + self.half;
        ((product >> 64) as i64) >> self.shift
    }
}

/// An integer clipped to the range of a sample, `-2^31` to `2^31 - 1`, and whether it was clipped.
#[inline(always)]
fn clip_whole(number: i64) -> (i32, bool)
    ensures { result ≡ clipping number }
{
    if is_sample(number) {
        return (number as i32, false);
    }
    clip_beyond(number)
}

/// Whether an integer is in the range of a sample. It is one comparison, and nearly every number is.
#[inline(always)]
fn is_sample(number: i64) -> bool
    ensures { (clipping number).1 ≡ not result }
{
    number >= -0x8000_0000 && number <= 0x7fff_ffff
}

/// An integer that is no sample, clipped.
// A call keeps loops in which it is rare from being made for vectors. It compares, although that is always true, since loops
// would compare once more for each sample if they knew it.
#[cold]
#[inline(never)]
fn clip_beyond(number: i64) -> (i32, bool)
    requires { (clipping number).1 ≡ true }
    ensures { result ≡ clipping number }
{
    let sample = end_beyond(number);
    (sample, i64::from(sample) != number)
}

/// An integer that is no sample, clipped. Adds one to `clips`.
// A loop that counts clips here alone keeps no flag of each sample.
#[cold]
#[inline(never)]
fn clip_and_count(number: i64, clips: &mut u64) -> i32
    requires clipped { (clipping number).1 ≡ true }
    requires bound { clips.old < 2 ^ 63 }
    ensures sample { result ≡ (clipping number).0 }
    ensures clips { clips.new ≡ clips.old + 1 }
{
    *clips += 1;
    end_beyond(number)
}

/// The end of the range of a sample beyond which an integer lies.
#[inline(always)]
fn end_beyond(number: i64) -> i32
    requires { (clipping number).1 ≡ true }
    ensures { result ≡ (clipping number).0 }
{
    if number < 0 { i32::MIN } else { i32::MAX }
}
