//! Sums of samples times gains and weights, each at its place.
ghost use Rattle.std.specs.Prelude.{◌≡◌, ◌<◌, ◌≤◌, ◌+◌, ◌*◌, ◌^◌, ℕ, ℤ, List, pos, ◌+ℤ◌, ◌*ℤ◌, length, slice_index_or, unsigned_abs};
ghost use Rattle.fx_tap_sums.specs.Added.{AddsEach, AddsScaled, FirstGrowAtMost, GrowAtMost};

use fx_fixed::{Gain, UNIT};

/// One sum for each channel, in trillionths.
pub type Sums = [i128; 16];

/// The sample of a channel, or silence.
#[inline(always)]
pub fn sample_or_silence(samples: &[i32], channel: usize) -> i32
    ensures { result ≡ slice_index_or samples.now channel (pos 0) }
{
    if channel < samples.len() {
        samples[channel]
    } else {
        0
    }
}

/// Sixteen samples, one for each channel, whatever their width.
pub trait Places {
    /// The samples.
    ghost list: { Self → List ℤ };

    /// The sample of a place.
    fn at(&self, place: usize) -> i64
        requires { place < 16 }
        ensures { result ≡ slice_index_or (list self.now) place (pos 0) };
}

impl Places for [i32; 16] {
    ghost list = { λ places. places };

    #[inline(always)]
    fn at(&self, place: usize) -> i64 {
        i64::from(self[place])
    }
}

impl Places for [i64; 16] {
    ghost list = { λ places. places };

    #[inline(always)]
    fn at(&self, place: usize) -> i64 {
        self[place]
    }
}

/// Adds a gain times the sample of each channel; the gain is at most 1 in magnitude.
#[inline(always)]
pub fn add_places<P: Places>(sums: &mut Sums, channels: usize, gain: Gain, samples: &P)
    requires channels { channels ≤ 16 }
    requires gain { unsigned_abs gain ≤ UNIT }
    requires small { (k : ℕ) → unsigned_abs (slice_index_or (P.list samples.now) k (pos 0)) ≤ 2 ^ 34 }
    requires free { (k : ℕ) → unsigned_abs (slice_index_or sums.old k (pos 0)) ≤ 2 ^ 100 }
    ensures added { AddsScaled channels sums.old sums.new gain (P.list samples.now) }
    ensures left { (k : ℕ) → channels ≤ k → slice_index_or sums.new k (pos 0) ≡ slice_index_or sums.old k (pos 0) }
{
    let factor = i128::from(gain.trillionths());
    for channel in 0..channels {
        sums[channel] += factor * i128::from(samples.at(channel));
    }
}

/// A weight times a sample.
#[inline(always)]
pub fn product(weight: i32, sample: i32) -> i64
    requires { unsigned_abs weight ≤ 2 ^ 27 }
    ensures value { result ≡ weight *ℤ sample }
    ensures bound { unsigned_abs result ≤ 2 ^ 58 }
{
    i64::from(weight) * i64::from(sample)
}

/// Adds a weight times each sample to the sum at its place.
#[inline(always)]
pub fn add_products(sums: &mut [i64], samples: &[i32], weight: i32)
    requires places { length samples.now ≡ length sums.old }
    requires weight { unsigned_abs weight ≤ 2 ^ 27 }
    requires free { (k : ℕ) → unsigned_abs (slice_index_or sums.old k (pos 0)) ≤ 2 ^ 61 }
    ensures added { AddsScaled (length sums.old) sums.old sums.new weight samples.now }
    ensures bound { GrowAtMost (2 ^ 58) sums.old sums.new }
    ensures samples { (k : ℕ) → k < length samples.now → unsigned_abs (slice_index_or samples.now k (pos 0)) ≤ 2 ^ 31 }
{
    let factor = i64::from(weight);
    for place in 0..samples.len() {
        sums[place] += factor * i64::from(samples[place]);
    }
}

/// Adds a weight times each sample, of at most `2^34`, to the sum at its place.
#[inline(always)]
pub fn add_wide_products(sums: &mut [i64], samples: &[i64], weight: i32)
    requires places { length samples.now ≡ length sums.old }
    requires weight { unsigned_abs weight ≤ 2 ^ 24 }
    requires samples { (k : ℕ) → unsigned_abs (slice_index_or samples.now k (pos 0)) ≤ 2 ^ 34 }
    requires free { (k : ℕ) → unsigned_abs (slice_index_or sums.old k (pos 0)) ≤ 2 ^ 61 }
    ensures added { AddsScaled (length sums.old) sums.old sums.new weight samples.now }
    ensures bound { GrowAtMost (2 ^ 58) sums.old sums.new }
{
    let factor = i64::from(weight);
    for place in 0..samples.len() {
        sums[place] += factor * samples[place];
    }
}

/// Writes the sum of each sample and the wide one at its place, which is at most `2^34`.
#[inline(always)]
pub fn add_samples(out: &mut [i64], samples: &[i32], wide: &[i64])
    requires places { (length samples.now ≡ length out.old) × (length wide.now ≡ length out.old) }
    requires wide { (k : ℕ) → unsigned_abs (slice_index_or wide.now k (pos 0)) ≤ 2 ^ 34 }
    ensures added { AddsEach (length out.old) samples.now wide.now out.new }
    ensures bound { FirstGrowAtMost (length out.old) (2 ^ 31) wide.now out.new }
{
    for place in 0..samples.len() {
        out[place] = i64::from(samples[place]) + wide[place];
    }
}
