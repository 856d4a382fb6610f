//! Coefficients in lowest terms; the same in pairs, for samples of 16 bits; and their spectrum where they are many.
ghost use Rattle.std.specs.Prelude.{◌≡◌, ◌<◌, ◌≤◌, ◌+◌, ◌^◌, ℕ, pos, drop, length, slice_index_or, unsigned_abs, IfOk, IfSome};
ghost use Rattle.fx_fixed.specs.Rounding.{rounding};
ghost use Rattle.fx_tap_sums.specs.SmallWeights.{SumsAs};
ghost use Rattle.fx_tap_sums.specs.Products.{sum_of_products};
ghost use Rattle.fx_tap_sums.specs.Convolution.{AreSums};

use fx_fixed::inner::Denominator;
use fx_tap_sums::convolve::{convolve, small_dot};
use fx_tap_sums::pairs::Pairs;
use fx_tap_sums::small::{Small, small_of};
use fx_tap_sums::transforms::Spectrum;
use std::alloc::{AllocError, Global};
use std::marker::Model;

/// How many weights there are at least where transforms pay.
const MIN_WEIGHTS: usize = 160;

/// How many weights there are at least where products of 16 bits pay, two at a time.
const MIN_PAIRED: usize = 6;

/// How many sums there are at least where products of 16 bits pay: sixteen sums are made side by side.
const MIN_PAIRED_SUMS: usize = 16;

/// How many weights there are at least where a transform has 4,096 numbers.
const MIN_LARGE: usize = 512;

/// How many products take about as long as a transform of 2,048 numbers, of samples of at most 24 bits. Fewer are sooner made
/// without one, sixteen sums side by side. This and the next three are estimates, between what instructions and what times of the
/// transforms say.
const PRODUCTS_OF_TRANSFORM: usize = 160_000;

/// The same of samples of more bits, whose transforms are modulo three primes.
const WIDE_PRODUCTS_OF_TRANSFORM: usize = 230_000;

/// The same of products of 16 bits with two digits a weight.
const DIGIT_PRODUCTS_OF_TRANSFORM: usize = 220_000;

/// The same of products of 16 bits with one digit a weight.
const PAIRED_PRODUCTS_OF_TRANSFORM: usize = 450_000;

/// The magnitude of a weight at most, where products of 16 bits take one digit a weight.
const MAX_DIGIT: u32 = 32_767;

/// To how much the magnitudes of weights add up at most there.
const MAX_OF_ONE_DIGIT: u64 = 65_535;

/// How many sums are made at once without a spectrum.
pub const SUMS_OF_PIECE: usize = 256;

/// At most 1024 weights in lowest terms, and the same prepared: for samples of 16 bits, where they are few and small enough,
/// and where they are many, for sums by transforms.
#[derive(Drop)]
pub struct Reduced {
    small: Small,
    pairs: Option<Pairs>,
    spectrum: Option<Spectrum>,
    /// How many products of samples of 16 bits take as long as a transform of 2,048 numbers.
    narrow_products: usize,
}

impl Model for Reduced {
    ghost use Rattle.std.specs.Prelude.{◌≡◌, ◌≤◌, ◌^◌, length, sum_by, unsigned_abs, IfSome};
    ghost use Rattle.fx_tap_sums.specs.Weights.{Weights};

    ghost Value = { Weights };

    ghost view = { λ s. s.small };

    ghost invariant = { λ s. (length s.small.weights ≤ 1024) × (sum_by unsigned_abs s.small.weights ≤ 2 ^ 30) × IfSome s.pairs (λ weights. weights ≡ s.small.weights) × IfSome s.spectrum (λ weights. weights ≡ s.small.weights) };
}

/// How many sums of `weights` products are best made at once by transforms: at most 3,584, by 512 weights.
fn max_by_transforms(weights: usize) -> usize
    requires { weights ≤ 1024 }
    ensures some { 1 ≤ result }
    ensures bound { result ≤ 3584 }
    ensures fits { weights + result ≤ 4096 }
{
    if weights < MIN_LARGE {
        2048 - weights
    } else {
        4096 - weights
    }
}

/// Does a transform that gives `sums` sums by `weights` weights take less time than their products, of which so many take as long
/// as a transform of 2,048 numbers? One of 1,024 takes half the time, one of 3,072 about 1.7 times as long, of 4,096 2.2 times.
pub(crate) fn pays(weights: usize, sums: usize, products_of_transform: usize) -> bool {
    let products = weights.saturating_mul(sums);
    let numbers = weights.saturating_add(sums);
    if numbers <= 1024 {
        products >= products_of_transform / 2
    } else if numbers <= 2048 {
        products >= products_of_transform
    } else if numbers <= 3072 {
        products >= (products_of_transform / 3).saturating_mul(5)
    } else {
        products >= (products_of_transform / 5).saturating_mul(11)
    }
}

/// How many products of samples of 16 bits take as long as a transform of 2,048 numbers.
fn narrow_products(weights: &[i32], is_paired: bool) -> usize {
    if !is_paired {
        return PRODUCTS_OF_TRANSFORM;
    }
    let mut total = 0u64;
    let mut largest = 0;
    for weight in weights {
        let size = weight.unsigned_abs();
        total = total.saturating_add(size.into());
        largest = size.max(largest);
    }
    if largest <= MAX_DIGIT && total <= MAX_OF_ONE_DIGIT {
        PAIRED_PRODUCTS_OF_TRANSFORM
    } else {
        DIGIT_PRODUCTS_OF_TRANSFORM
    }
}

/// The bits that are set in any of the samples.
fn bits_of(samples: &[i32]) -> u32 {
    let mut bits = 0;
    for sample in samples {
        bits |= sample.cast_unsigned();
    }
    bits
}

/// Weights prepared for samples of 16 bits. None where products of 32 bits are no slower, or where the weights do not fit.
fn pairs_of(alloc: Global, weights: &[i32]) -> Result<Option<Pairs>, AllocError>
    ensures { IfOk result (λ s. IfSome s (λ v. v ≡ weights.now)) }
{
    if weights.len() < MIN_PAIRED {
        return Ok(None);
    }
    Pairs::of(alloc, weights)
}

/// The spectrum of weights, whose magnitudes add up to at most 2^30. None where they are so few that transforms are no faster.
fn spectrum_of(alloc: Global, weights: &[i32]) -> Result<Option<Spectrum>, AllocError>
    ensures { IfOk result (λ s. IfSome s (λ v. v ≡ weights.now)) }
{
    if weights.len() < MIN_WEIGHTS {
        return Ok(None);
    }
    Spectrum::of(alloc, weights)
}

impl Reduced {
    /// At most 1024 coefficients over a denominator, in lowest terms. None where they are not small.
    pub fn of(
        alloc: Global,
        coefficients: &[i64],
        denominator: u64,
    ) -> Result<Option<Reduced>, AllocError>
        requires bound { length coefficients.now ≤ 1024 }
        requires some { 0 < denominator }
        ensures { IfOk result (λ reduced. IfSome reduced (SumsAs coefficients.now denominator)) }
    {
        let Some(small) = small_of(alloc, coefficients, denominator)? else {
            return Ok(None);
        };
        let pairs = pairs_of(alloc, &small.weights)?;
        let spectrum = spectrum_of(alloc, &small.weights)?;
        let narrow_products = narrow_products(&small.weights, pairs.is_some());
        Ok(Some(Reduced {
            small,
            pairs,
            spectrum,
            narrow_products,
        }))
    }

    /// What sums of the weights times samples are over.
    pub fn denominator(&self) -> &Denominator
        ensures { result.now ≡ self.now.denominator }
    {
        &self.small.denominator
    }

    /// How many sums are best made at once.
    pub fn max_at_once(&self) -> usize
        ensures some { 1 ≤ result }
        ensures bound { result ≤ 3584 }
        ensures fits { length self.now.weights + result ≤ 4096 }
    {
        if self.spectrum.is_none() {
            return SUMS_OF_PIECE;
        }
        max_by_transforms(self.small.weights.len())
    }

    /// The sum of the weights from one on times as many samples, rounded, and whether it was clipped.
    #[inline(always)]
    pub fn weigh(&self, from: usize, samples: &[i32]) -> (i32, bool)
        requires { from + length samples.now ≤ length self.now.weights }
        ensures { result ≡ rounding (sum_of_products samples.now (drop from self.now.weights)) self.now.denominator }
    {
        let weights = &self.small.weights[from..from + samples.len()];
        self.small.denominator.round(small_dot(weights, samples))
    }

    /// How many products of samples with these bits take as long as a transform of 2,048 numbers.
    fn products_of_transform(&self, bits: u32) -> usize {
        if bits & 0xFFFF == 0 {
            self.narrow_products
        } else if bits & 0xFF == 0 {
            PRODUCTS_OF_TRANSFORM
        } else {
            WIDE_PRODUCTS_OF_TRANSFORM
        }
    }

    /// As `convolve`, without transforms.
    fn add_up(&self, window: &[i32], sums: &mut [i64])
        requires window { length self.now.weights + length sums.old ≤ length window.now + 1 }
        ensures sums { AreSums self.now.weights window.now sums.new }
        ensures bound { (i : ℕ) → i < length sums.new → unsigned_abs (slice_index_or sums.new i (pos 0)) ≤ 2 ^ 61 }
    {
        if let Some(pairs) = &self.pairs {
            if sums.len() >= MIN_PAIRED_SUMS && pairs.convolve(window, sums) {
                return;
            }
        }
        convolve(&self.small.weights, window, sums);
    }

    /// Writes the sums of the weights times as many samples of the window, from each of its places on.
    pub fn convolve(&self, window: &[i32], sums: &mut [i64])
        requires window { length self.now.weights + length sums.old ≤ length window.now + 1 }
        ensures sums { AreSums self.now.weights window.now sums.new }
        ensures bound { (i : ℕ) → i < length sums.new → unsigned_abs (slice_index_or sums.new i (pos 0)) ≤ 2 ^ 61 }
    {
        let Some(spectrum) = &self.spectrum else {
            return self.add_up(window, sums);
        };
        let taps = self.small.weights.len();
        let products = self.products_of_transform(bits_of(window));
        let mut at = 0;
        'pieces: while at < sums.len() {
            let count = spectrum.count_at_once(sums.len() - at);
            if !pays(taps, count, products) {
                break;
            }
            spectrum.convolve(&window[at..], &mut sums[at..at + count]);
            at += count;
        }
        if at < sums.len() {
            self.add_up(&window[at..], &mut sums[at..]);
        }
    }
}
