//! Sums by transforms beside plain sums.
use crate::fixed_tests::REFUSED;
use fx_tap_sums::transforms::Spectrum;
use std::alloc::{AllocError, Global};

/// Numbers of 32 bits that look random, from a place on.
pub(crate) fn noise(place: usize) -> i32 {
    let mixed = (place as u64).wrapping_mul(0x9E37_79B9_7F4A_7C15);
    let turned = (mixed ^ (mixed >> 29)).wrapping_mul(0xBF58_476D_1CE4_E5B9);
    ((turned >> 32) as i64 - 2_147_483_648) as i32
}

/// Samples of all sizes; each eleventh is the least one, each thirteenth the greatest.
fn samples(alloc: Global, count: usize) -> Result<Vec<i32>, AllocError> {
    let mut samples = Vec::new(alloc);
    for place in 0..count {
        let sample = if place % 11 == 3 {
            i32::MIN
        } else if place % 13 == 5 {
            i32::MAX
        } else {
            noise(place)
        };
        samples.push(sample)?;
    }
    Ok(samples)
}

/// At most 1,024 weights whose magnitudes add up to at most 2^30.
fn weights(alloc: Global, count: usize) -> Result<Vec<i32>, AllocError> {
    let mut weights = Vec::new(alloc);
    for place in 0..count {
        weights.push(noise(place.wrapping_add(77_777)) / 2048)?;
    }
    Ok(weights)
}

/// Are these the sums of the definition, one for each place of a window?
pub(crate) fn are_sums(weights: &[i32], window: &[i32], sums: &[i64]) -> bool {
    if weights.len().saturating_add(sums.len()) > window.len().saturating_add(1) {
        return false;
    }
    for place in 0..sums.len() {
        let mut sum = 0i64;
        for tap in 0..weights.len() {
            let product = i64::from(window[place + tap]).wrapping_mul(i64::from(weights[tap]));
            sum = sum.wrapping_add(product);
        }
        if sums[place] != sum {
            return false;
        }
    }
    true
}

/// Writes the sums of these weights by transforms. False where there is no spectrum, or where the window is too short.
fn convolve(
    alloc: Global,
    weights: &[i32],
    window: &[i32],
    sums: &mut [i64],
) -> Result<bool, AllocError> {
    let Some(window) = window.get(..weights.len().saturating_add(sums.len())) else {
        return Ok(false);
    };
    match Spectrum::of(alloc, weights)? {
        Some(spectrum) => {
            spectrum.convolve(window, sums);
            Ok(true)
        }
        None => Ok(false),
    }
}

/// Are so many sums by transforms those of the definition?
fn is_right(
    alloc: Global,
    weights: &[i32],
    window: &[i32],
    count: usize,
) -> Result<bool, AllocError> {
    let mut sums = Vec::new(alloc);
    sums.resize(count, 1)?;
    Ok(convolve(alloc, weights, window, &mut sums)? && are_sums(weights, window, &sums))
}

/// Fails with a text where so many sums by transforms are not those of the definition.
fn check_sums(
    alloc: Global,
    text: &'static str,
    weights: &[i32],
    window: &[i32],
    count: usize,
) -> Result<(), &'static str> {
    match is_right(alloc, weights, window, count) {
        Ok(true) => Ok(()),
        Ok(false) => Err(text),
        Err(_refused) => Err(REFUSED),
    }
}

/// Sums by so many taps, of each of these counts in turn.
fn check_counts(
    alloc: Global,
    text: &'static str,
    window: &[i32],
    taps: usize,
    counts: &[usize],
) -> Result<(), &'static str> {
    let Ok(weights) = weights(alloc, taps) else {
        return Err(REFUSED);
    };
    for count in counts {
        check_sums(alloc, text, &weights, window, *count)?;
    }
    Ok(())
}

/// Sums by so many taps, of several counts in turn.
fn check_taps(
    alloc: Global,
    text: &'static str,
    window: &[i32],
    taps: usize,
) -> Result<(), &'static str> {
    let counts = [0, 1, 2, 1023, 1024, 1025, 2047, 2500];
    check_counts(alloc, text, window, taps, &counts)
}

/// Sums by each number of taps in turn.
fn check_all_taps(alloc: Global, window: &[i32]) -> Result<(), &'static str> {
    for (text, taps) in [
        ("no tap", 0),
        ("1 tap", 1),
        ("2 taps", 2),
        ("3 taps", 3),
        ("511 taps", 511),
        ("512 taps", 512),
        ("1023 taps", 1023),
        ("1024 taps", 1024),
    ] {
        check_taps(alloc, text, window, taps)?;
    }
    Ok(())
}

#[test]
fn sums_of_all_lengths(rt: HostRuntime) -> Result<(), &'static str> {
    match samples(rt.alloc(), 4000) {
        Ok(window) => check_all_taps(rt.alloc(), &window),
        Err(_refused) => Err(REFUSED),
    }
}

/// Sums by 1,024 taps and by 512, of counts beside those that a transform of 4,096 numbers gives.
fn check_large(alloc: Global, window: &[i32]) -> Result<(), &'static str> {
    let counts = [3071, 3072, 3073, 3583, 3584, 3585, 4097];
    for (text, taps) in [("512 taps", 512), ("1024 taps", 1024)] {
        check_counts(alloc, text, window, taps, &counts)?;
    }
    Ok(())
}

#[test]
fn sums_of_large_transforms(rt: HostRuntime) -> Result<(), &'static str> {
    match samples(rt.alloc(), 6000) {
        Ok(window) => check_large(rt.alloc(), &window),
        Err(_refused) => Err(REFUSED),
    }
}

/// The same of samples of 24 bits.
#[test]
fn sums_of_large_transforms_of_24_bits(rt: HostRuntime) -> Result<(), &'static str> {
    let Ok(mut window) = samples(rt.alloc(), 6000) else {
        return Err(REFUSED);
    };
    for sample in &mut window {
        *sample &= -256;
    }
    check_large(rt.alloc(), &window)
}

/// Samples of 24 bits, so that two primes determine the sums.
#[test]
fn sums_of_24_bits(rt: HostRuntime) -> Result<(), &'static str> {
    let Ok(mut window) = samples(rt.alloc(), 4000) else {
        return Err(REFUSED);
    };
    for sample in &mut window {
        *sample &= -256;
    }
    check_all_taps(rt.alloc(), &window)
}

/// Samples of 24 bits but for one of 32, which is the last in the window of 1,024 sums by 511 taps, and not in that of 1,023.
#[test]
fn sums_of_24_bits_and_one_of_32(rt: HostRuntime) -> Result<(), &'static str> {
    let Ok(mut window) = samples(rt.alloc(), 4000) else {
        return Err(REFUSED);
    };
    for sample in &mut window {
        *sample &= -256;
    }
    if let Some(last) = window.get_mut(1534) {
        *last = i32::MAX;
    }
    check_taps(rt.alloc(), "511 taps", &window, 511)
}

/// Are six sums by so many taps of one weight, of samples that are all the same, those of the definition?
fn is_right_of_alike(
    alloc: Global,
    sample: i32,
    weight: i32,
    taps: usize,
) -> Result<bool, AllocError> {
    let mut weights = Vec::new(alloc);
    weights.resize(taps, weight)?;
    let mut window = Vec::new(alloc);
    window.resize(taps.saturating_add(6), sample)?;
    is_right(alloc, &weights, &window, 6)
}

#[test]
fn largest_sums(rt: HostRuntime) -> Result<(), &'static str> {
    for (text, sample, weight, taps) in [
        ("least by 2^30", i32::MIN, 1_073_741_824, 1),
        ("least by -2^30", i32::MIN, -1_073_741_824, 1),
        ("greatest by 2^30", i32::MAX, 1_073_741_824, 1),
        ("least by 1024 of 2^20", i32::MIN, 1_048_576, 1024),
        ("least by 1024 of -2^20", i32::MIN, -1_048_576, 1024),
        ("greatest by 1024 of -2^20", i32::MAX, -1_048_576, 1024),
    ] {
        if is_right_of_alike(rt.alloc(), sample, weight, taps) != Ok(true) {
            return Err(text);
        }
    }
    Ok(())
}

/// Is there a spectrum of so many taps of one weight?
fn has_spectrum(alloc: Global, weight: i32, taps: usize) -> Result<bool, AllocError> {
    let mut weights = Vec::new(alloc);
    weights.resize(taps, weight)?;
    Ok(Spectrum::of(alloc, &weights)?.is_some())
}

#[test]
fn weights_refused(rt: HostRuntime) -> Result<(), &'static str> {
    for (text, weight, taps, is_fine) in [
        ("1 of 2^30", 1_073_741_824, 1, true),
        ("1 of more", 1_073_741_825, 1, false),
        ("1 of less than -2^30", -1_073_741_825, 1, false),
        ("1 of the least", i32::MIN, 1, false),
        ("1024 of 2^20", 1_048_576, 1024, true),
        ("1024 of more", 1_048_577, 1024, false),
        ("1024 of less than -2^20", -1_048_577, 1024, false),
        ("1025 of 0", 0, 1025, false),
    ] {
        if has_spectrum(rt.alloc(), weight, taps) != Ok(is_fine) {
            return Err(text);
        }
    }
    Ok(())
}
