//! Weights prepared for sums by transforms.
ghost use Rattle.std.specs.Prelude.{◌≡◌, ◌<◌, ◌≤◌, ◌+◌, ◌-◌, ℕ, ℤ, List, pos, ◌*ℤ◌, true, false, length, slice_index_or, sum_by, unsigned_abs, IfOk, IfNone, IfSome};
ghost use Rattle.fx_tap_sums.specs.Convolution.{AreSmallSums, AreSums};
ghost use Rattle.fx_tap_sums.specs.Prepared.{max_sums, ArePreparable, ArePrepared, ArePreparedModulo, AreSumsOf, AreSumsOfTwo, ExceedPreparable, HavePrepared, HaveTwoPrepared, IsSize};
ghost use Rattle.fx_tap_sums.specs.Upper.{AreUpper};

use super::joining::join_all;
use super::prepared::{Prepared, convolve_modulo, convolve_upper_modulo, prepare};
use super::primes::{
    BACK_OF_FIRST, BACK_OF_SECOND, BACK_OF_THIRD, STEPS_OF_FIRST, STEPS_OF_SECOND, STEPS_OF_THIRD,
};
use super::remainders::{FIRST, SECOND, THIRD, joined_three};
use std::alloc::{AllocError, Global};
use std::marker::Model;

/// To how much the magnitudes of weights add up at most.
const MAX_WHOLE: u32 = 1 << 30;

/// How many weights there are at least where transforms of 3,072 or 4,096 numbers take less time than several of 2,048.
const MIN_WEIGHTS_OF_LARGE: usize = 512;

/// How many sums a transform of 3,072 numbers gives at most: its last third has none.
const MAX_SUMS_OF_THIRDS: usize = 2048;

/// Weights prepared modulo three primes.
#[derive(Drop)]
pub(crate) struct Transforms {
    first: Prepared<FIRST>,
    second: Prepared<SECOND>,
    third: Prepared<THIRD>,
}

/// Weights prepared for sums by transforms: the weights, and the same modulo three primes.
#[derive(Drop)]
pub struct Spectrum {
    weights: Vec<i32>,
    transforms: Transforms,
}

// A spectrum is the list of its weights.
impl Model for Spectrum {
    ghost use Rattle.std.specs.Prelude.{◌≤◌, ℤ, List, length};
    ghost use Rattle.fx_tap_sums.specs.Prepared.{max_sums, ArePrepared};

    ghost Value = { List ℤ };

    ghost view = { λ s. s.weights.items };

    ghost invariant = { λ s. (length s.weights.items ≤ 1024) × ArePrepared s.transforms s.weights.items };
}

/// Tests that the magnitudes of weights add up to at most so much.
fn is_small(weights: &[i32], maximum: u32) -> bool
    ensures small { result ≡ true → sum_by unsigned_abs weights.now ≤ maximum }
    ensures large { result ≡ false → maximum < sum_by unsigned_abs weights.now }
{
    let mut left = maximum;
    'weights: for weight in weights {
        let size = weight.unsigned_abs();
        if left < size {
            return false;
        }
        left -= size;
    }
    true
}

/// At most 1,024 weights prepared modulo the three primes.
fn prepare_all(alloc: Global, weights: &[i32]) -> Result<Transforms, AllocError>
    requires { length weights.now ≤ 1024 }
    ensures first { IfOk result (λ t. ArePreparedModulo FIRST weights.now t.first) }
    ensures second { IfOk result (λ t. ArePreparedModulo SECOND weights.now t.second) }
    ensures third { IfOk result (λ t. ArePreparedModulo THIRD weights.now t.third) }
{
    let first = prepare(alloc, &STEPS_OF_FIRST, &BACK_OF_FIRST, weights)?;
    let second = prepare(alloc, &STEPS_OF_SECOND, &BACK_OF_SECOND, weights)?;
    let third = prepare(alloc, &STEPS_OF_THIRD, &BACK_OF_THIRD, weights)?;
    Ok(Transforms {
        first,
        second,
        third,
    })
}

/// Tests that all samples are multiples of 256.
fn are_upper(window: &[i32]) -> bool
    ensures { result ≡ true → (upper : List ℤ) × AreUpper window.now upper }
{
    let mut bits = 0;
    'samples: for sample in window {
        bits |= sample.cast_unsigned();
    }
    bits % 256 == 0
}

/// Writes numbers in 64 bits, as many as there are places.
fn put_wide(numbers: &[u32], wide: &mut [i64])
    requires { length wide.old ≤ length numbers.now }
    ensures { (i : ℕ) → i < length wide.new → slice_index_or wide.new i (pos 0) ≡ pos (slice_index_or numbers.now i 0) }
{
    'places: for (place, number) in wide.iter_mut().enumerate() {
        *number = i64::from(numbers[place]);
    }
}

impl Transforms {
    /// Writes the sums of prepared weights times as many samples of the window, which are multiples of 256, at most as many as
    /// one transform of SIZE numbers gives. Two primes determine the sums of the samples divided by 256.
    // Stack space is cleared only where this is called, as in convolve_whole.
    #[inline(never)]
    fn convolve_upper<const SIZE: usize>(&self, weights: usize, window: &[i32], sums: &mut [i64])
        requires size { IsSize SIZE }
        requires maximum { length sums.old ≤ max_sums SIZE }
        requires window { weights + length sums.old ≤ length window.now + 1 }
        requires bound { length window.now < SIZE }
        requires upper { (upper : List ℤ) × AreUpper window.now upper }
        requires prepared { HaveTwoPrepared self.now weights }
        ensures sums { AreSumsOfTwo self.now weights window.now sums.new }
        ensures bound { AreSmallSums (length sums.new) sums.new }
    {
        let mut first = [0; SIZE];
        convolve_upper_modulo(&self.first, window, &mut first);
        let mut second = [0; SIZE];
        convolve_upper_modulo(&self.second, window, &mut second);
        join_all(&first, &second, sums);
    }

    /// Writes the sums of prepared weights times as many samples of the window, at most as many as one transform of SIZE numbers
    /// gives.
    #[inline(never)]
    fn convolve_whole<const SIZE: usize>(&self, weights: usize, window: &[i32], sums: &mut [i64])
        requires size { IsSize SIZE }
        requires maximum { length sums.old ≤ max_sums SIZE }
        requires window { weights + length sums.old ≤ length window.now + 1 }
        requires bound { length window.now < SIZE }
        requires prepared { HavePrepared self.now weights }
        ensures sums { AreSumsOf self.now weights window.now sums.new }
        ensures bound { AreSmallSums (length sums.new) sums.new }
    {
        let mut values = [0; SIZE];
        convolve_modulo(&self.first, window, &mut values);
        put_wide(&values, sums);
        convolve_modulo(&self.second, window, &mut values);
        let mut third = [0; SIZE];
        convolve_modulo(&self.third, window, &mut third);
        'places: for (place, sum) in sums.iter_mut().enumerate() {
            *sum = joined_three(*sum as u32, values[place], third[place]);
        }
    }

    /// The same, by two primes where the samples are multiples of 256.
    fn convolve_any<const SIZE: usize>(&self, weights: usize, window: &[i32], sums: &mut [i64])
        requires size { IsSize SIZE }
        requires maximum { length sums.old ≤ max_sums SIZE }
        requires window { weights + length sums.old ≤ length window.now + 1 }
        requires piece { weights + length sums.old ≤ SIZE }
        requires prepared { HavePrepared self.now weights }
        ensures sums { AreSumsOf self.now weights window.now sums.new }
        ensures bound { AreSmallSums (length sums.new) sums.new }
    {
        let piece = &window[..window.len().min(SIZE - 1)];
        if are_upper(piece) {
            self.convolve_upper::<SIZE>(weights, piece, sums);
        } else {
            self.convolve_whole::<SIZE>(weights, piece, sums);
        }
    }

    /// Writes sums of prepared weights times as many samples of the window, at most as many as one transform gives.
    fn convolve_piece(&self, weights: usize, window: &[i32], sums: &mut [i64])
        requires window { weights + length sums.old ≤ length window.now + 1 }
        requires piece { weights + length sums.old ≤ 4096 }
        requires prepared { HavePrepared self.now weights }
        ensures sums { AreSumsOf self.now weights window.now sums.new }
        ensures bound { AreSmallSums (length sums.new) sums.new }
    {
        let numbers = weights + sums.len();
        if numbers <= 1024 {
            self.convolve_any::<1024>(weights, window, sums);
        } else if numbers <= 2048 {
            self.convolve_any::<2048>(weights, window, sums);
        } else if numbers <= 3072 && sums.len() <= MAX_SUMS_OF_THIRDS {
            self.convolve_any::<3072>(weights, window, sums);
        } else {
            self.convolve_any::<4096>(weights, window, sums);
        }
    }
}

impl Spectrum {
    /// That of at most 1,024 weights whose magnitudes add up to at most 2^30. None where there are more weights, or where
    /// their magnitudes add up to more, and only there; `AllocError` where memory is refused.
    pub fn of(alloc: Global, weights: &[i32]) -> Result<Option<Spectrum>, AllocError>
        ensures value { IfOk result (λ s. IfSome s (λ v. v ≡ weights.now)) }
        ensures some { IfOk result (λ s. IfSome s (λ _. ArePreparable weights.now)) }
        ensures none { IfOk result (λ s. IfNone s (ExceedPreparable weights.now)) }
    {
        if weights.len() > 1024 || !is_small(weights, MAX_WHOLE) {
            return Ok(None);
        }
        let transforms = prepare_all(alloc, weights)?;
        let mut copied = Vec::new(alloc);
        copied.extend_from_slice(weights)?;
        Ok(Some(Spectrum {
            weights: copied,
            transforms,
        }))
    }

    /// How many of so many sums are best made next: as many as one transform gives, of 1,024, 2,048, 3,072 or 4,096 numbers. It
    /// gives one for each number beyond those of the weights, but at most 2,048 of 3,072 numbers. The times are about 1, 2, 3.3 and
    /// 4.4: one of 3,072 numbers pays where one of 2,048 and one of 1,024 do not give all sums.
    pub fn count_at_once(&self, sums: usize) -> usize
        requires { 1 ≤ sums }
        ensures some { 1 ≤ result }
        ensures bound { result ≤ sums }
        ensures fits { length self.now + result ≤ 4096 }
    {
        let taps = self.weights.len();
        let small = 1024 - taps;
        let medium = 2048 - taps;
        let large = 4096 - taps;
        if sums <= small {
            sums
        } else if taps >= MIN_WEIGHTS_OF_LARGE && sums >= large {
            large
        } else if taps >= MIN_WEIGHTS_OF_LARGE && sums > medium + small {
            sums.min(3072 - taps).min(MAX_SUMS_OF_THIRDS)
        } else if sums < 2 * small {
            small
        } else {
            sums.min(medium)
        }
    }

    /// Writes the sums of the weights times as many samples of the window, from each of its places on.
    pub fn convolve(&self, window: &[i32], sums: &mut [i64])
        requires window { length self.now + length sums.old ≤ length window.now + 1 }
        ensures sums { AreSums self.now window.now sums.new }
        ensures bound { AreSmallSums (length sums.new) sums.new }
    {
        let taps = self.weights.len();
        let mut at = 0;
        'pieces: while at < sums.len() {
            let count = self.count_at_once(sums.len() - at);
            self.transforms
                .convolve_piece(taps, &window[at..], &mut sums[at..at + count]);
            at += count;
        }
    }
}
