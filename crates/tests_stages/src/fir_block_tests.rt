//! `fir` of many coefficients, fed blocks of a sound, beside sums that are added up one by one.
ghost use Rattle.std.specs.Prelude.{◌<◌, ◌≤◌, ◌^◌, ◌+◌, length};
ghost use Rattle.fx_frame_base.specs.Frame.{IsChannelCount};

use crate::driving::{REFUSED, drain, gain, stored};
use fx_fixed::Gain;
use fx_frame::{Feeds, Passed, Stage};
use fx_tap::Fir;
use std::alloc::{AllocError, Global};
use std::test::Fail;

/// How many blocks a sound has at the most.
const MAX_BLOCKS: u32 = 10_000;

/// A number of 32 bits that looks random.
fn noise(place: usize) -> i32 {
    let mixed = (place as u64).wrapping_mul(0x9E37_79B9_7F4A_7C15);
    let turned = (mixed ^ (mixed >> 29)).wrapping_mul(0xBF58_476D_1CE4_E5B9);
    ((turned >> 32) as i64 - 2_147_483_648) as i32
}

/// Samples of all sizes; each eleventh is the least one, each thirteenth the greatest.
fn sound(alloc: Global, count: usize) -> Result<Vec<i32>, AllocError> {
    let mut samples = Vec::new(alloc);
    for place in 0..count {
        samples.push(match (place % 11, place % 13) {
            (3, _) => i32::MIN,
            (_, 5) => i32::MAX,
            _ => noise(place),
        })?;
    }
    Ok(samples)
}

/// A coefficient below 0.05: of six decimals, or of twelve.
fn coefficient(alloc: Global, place: usize, is_fine: bool) -> Result<Gain, &'static str> {
    let size = i64::from(noise(place.wrapping_add(77_777)));
    let (size, decimals) = if is_fine {
        (size.wrapping_mul(20).wrapping_add(7), 12)
    } else {
        (size % 50_000, 6)
    };
    match format!(in alloc; "{size}e-{decimals}") {
        Ok(text) => gain(text.as_str()),
        Err(_refused) => Err(REFUSED),
    }
}

/// So many coefficients below 0.05: of six decimals, or of twelve.
fn coefficients(alloc: Global, count: usize, is_fine: bool) -> Result<Vec<Gain>, &'static str> {
    let mut gains = Vec::new(alloc);
    for place in 0..count {
        let gain = coefficient(alloc, place, is_fine)?;
        if gains.push(gain).is_err() {
            return Err(REFUSED);
        }
    }
    Ok(gains)
}

/// A sum in trillionths as a sample.
fn rounded(sum: i128) -> i32 {
    let size = sum.unsigned_abs().wrapping_add(500_000_000_000) / 1_000_000_000_000;
    let size = size.min(1 << 31) as i64;
    let whole = if sum < 0 { -size } else { size };
    whole.min(i64::from(i32::MAX)) as i32
}

/// What `fir` has to give for a sound, each sum added up one by one.
fn plainly(
    alloc: Global,
    coefficients: &[Gain],
    channels: usize,
    sound: &[i32],
) -> Result<Vec<i32>, AllocError> {
    let mut samples = Vec::new(alloc);
    let ahead = (coefficients.len().saturating_sub(1) / 2).wrapping_mul(channels);
    for place in 0..sound.len() {
        let mut sum = 0i128;
        let mut at = Some(place.wrapping_add(ahead));
        for coefficient in coefficients {
            let Some(from) = at else {
                break;
            };
            if let Some(sample) = sound.get(from) {
                let product = i128::from(coefficient.trillionths()).wrapping_mul((*sample).into());
                sum = sum.wrapping_add(product);
            }
            at = from.checked_sub(channels);
        }
        samples.push(rounded(sum))?;
    }
    Ok(samples)
}

/// Feeds a block, of which all has to be taken, into a room; how many samples are given.
fn feed_into(fir: &mut Fir, block: &[i32], free: &mut [i32]) -> Result<usize, &'static str> {
    let channels = fir.in_channels();
    if channels == 0 || channels > 16 || block.len() > 1 << 20 || fir.counters()[0] > 1 << 20 {
        return Err("not ready for the block");
    }
    let passed = fir.feed(block, free);
    if passed.taken.wrapping_mul(channels) != block.len() {
        return Err("not the whole block");
    }
    Ok(passed.given.wrapping_mul(channels))
}

/// Adds so many of the samples of a room.
fn add_part(free: &[i32], count: usize, given: &mut Vec<i32>) -> Result<(), &'static str> {
    let Some(samples) = free.get(..count) else {
        return Err("more than there is room for");
    };
    match given.extend_from_slice(samples) {
        Ok(()) => Ok(()),
        Err(_refused) => Err(REFUSED),
    }
}

/// Feeds a block, of which all has to be taken, and adds the samples that are given.
fn feed_block(
    alloc: Global,
    fir: &mut Fir,
    block: &[i32],
    given: &mut Vec<i32>,
) -> Result<(), &'static str> {
    let mut free = Vec::new(alloc);
    if free.resize(block.len(), 0).is_err() {
        return Err(REFUSED);
    }
    let count = feed_into(fir, block, &mut free)?;
    add_part(&free, count, given)
}

/// Makes a `fir` of these coefficients again from what it stores and counts.
fn thaw(
    alloc: Global,
    fir: &mut Fir,
    channels: usize,
    coefficients: &[Gain],
) -> Result<(), &'static str>
    requires channels { IsChannelCount channels }
    requires coefficients { (1 ≤ length coefficients.now) × (length coefficients.now ≤ 1024) }
{
    let Ok(frames) = stored(alloc, fir) else {
        return Err(REFUSED);
    };
    match Fir::thaw(alloc, channels, coefficients, &frames, &fir.counters()) {
        Ok(again) => {
            *fir = again;
            Ok(())
        }
        Err(_fault) => Err("not thawed"),
    }
}

/// Gives a `fir` the end, and adds the samples that come after it.
fn end(fir: &mut Fir, given: &mut Vec<i32>) -> Result<(), &'static str> {
    if !fir.is_dry() || fir.is_ended() {
        return Err("not ready for the end");
    }
    fir.end();
    drain(fir, given)
}

/// Feeds blocks of up to 3,000 frames, freezes and thaws after each, and then gives the end.
fn feed_blocks(
    alloc: Global,
    fir: &mut Fir,
    channels: usize,
    coefficients: &[Gain],
    sound: &[i32],
    given: &mut Vec<i32>,
) -> Result<(), &'static str>
    requires channels { IsChannelCount channels }
    requires coefficients { (1 ≤ length coefficients.now) × (length coefficients.now ≤ 1024) }
{
    let mut rest = sound;
    for block in 0..MAX_BLOCKS {
        if rest.is_empty() {
            break;
        }
        let frames = 1 + noise(block as usize).unsigned_abs() as usize % 3000;
        let size = rest.len().min(frames * channels);
        feed_block(alloc, fir, &rest[..size], given)?;
        rest = &rest[size..];
        thaw(alloc, fir, channels, coefficients)?;
    }
    end(fir, given)
}

/// Adds what a `fir` gives that is fed a sound in blocks, frozen and thawed after each, and then given the end.
fn feed(
    alloc: Global,
    coefficients: &[Gain],
    channels: usize,
    sound: &[i32],
    given: &mut Vec<i32>,
) -> Result<(), &'static str>
    requires channels { IsChannelCount channels }
{
    if coefficients.is_empty() || coefficients.len() > 1024 {
        return Err("no coefficient, or too many");
    }
    match Fir::new(alloc, channels, coefficients) {
        Ok(mut fir) => feed_blocks(alloc, &mut fir, channels, coefficients, sound, given),
        Err(_refused) => Err(REFUSED),
    }
}

/// Are these the samples that `fir` has to give for a sound?
fn are_right(
    alloc: Global,
    coefficients: &[Gain],
    channels: usize,
    sound: &[i32],
    given: &[i32],
) -> bool {
    match plainly(alloc, coefficients, channels, sound) {
        Ok(want) => want.as_slice() == given,
        Err(_refused) => false,
    }
}

/// Fails where a `fir` of these coefficients does not give what it has to, for so many frames.
fn filters(
    alloc: Global,
    coefficients: &[Gain],
    channels: usize,
    frames: usize,
) -> Result<(), &'static str>
    requires channels { IsChannelCount channels }
    requires frames { frames ≤ 2 ^ 20 }
{
    let Ok(sound) = sound(alloc, frames * channels) else {
        return Err(REFUSED);
    };
    let mut given = Vec::new(alloc);
    feed(alloc, coefficients, channels, &sound, &mut given)?;
    if are_right(alloc, coefficients, channels, &sound, &given) {
        Ok(())
    } else {
        Err("other samples")
    }
}

/// The same of so many coefficients: the error says how many.
fn filters_by(
    alloc: Global,
    count: usize,
    is_fine: bool,
    channels: usize,
    frames: usize,
) -> Result<(), Fail>
    requires channels { IsChannelCount channels }
    requires frames { frames ≤ 2 ^ 20 }
{
    let coefficients = coefficients(alloc, count, is_fine)?;
    match filters(alloc, &coefficients, channels, frames) {
        Ok(()) => Ok(()),
        Err(fault) => Err(format!(in alloc; "{fault} by {count} coefficients")?.into()),
    }
}

/// Leaves of each sample the bits of a mask.
fn mask(samples: &mut [i32], bits: i32) {
    for sample in samples {
        *sample &= bits;
    }
}

/// Fails where a `fir` of so many coefficients of six decimals does not give what it has to, for so many frames whose samples
/// have the bits of a mask.
fn filters_masked(alloc: Global, count: usize, bits: i32, frames: usize) -> Result<(), Fail>
    requires frames { frames ≤ 2 ^ 20 }
{
    let coefficients = coefficients(alloc, count, false)?;
    let Ok(mut sound) = sound(alloc, frames) else {
        return Err(REFUSED.into());
    };
    mask(&mut sound, bits);
    let mut given = Vec::new(alloc);
    feed(alloc, &coefficients, 1, &sound, &mut given)?;
    if are_right(alloc, &coefficients, 1, &sound, &given) {
        Ok(())
    } else {
        Err(format!(in alloc; "other samples by {count} coefficients")?.into())
    }
}

/// Samples of 16 bits: counts of coefficients beside those where products of 16 bits begin to take two digits a weight, and
/// where they end; and where transforms begin, and those of 1,024 numbers end.
#[test]
fn fir_of_16_bits(rt: HostRuntime) -> Result<(), Fail> {
    for count in [11, 12, 159, 160, 256, 257, 511, 512, 513] {
        filters_masked(rt.alloc(), count, -65_536, 5000)?;
    }
    Ok(())
}

/// Samples of 24 bits, whose transforms are modulo two primes.
#[test]
fn fir_of_24_bits(rt: HostRuntime) -> Result<(), Fail> {
    for count in [159, 160, 256, 511, 512, 513, 1024] {
        filters_masked(rt.alloc(), count, -256, 5000)?;
    }
    Ok(())
}

/// Counts of coefficients of six decimals beside those where another way of adding begins.
#[test]
fn fir_of_many(rt: HostRuntime) -> Result<(), Fail> {
    for count in [127, 128, 159, 160, 255, 256, 511, 512, 513, 1023, 1024] {
        filters_by(rt.alloc(), count, false, 1, 6000)?;
    }
    Ok(())
}

/// The same of coefficients of twelve decimals.
#[test]
fn fir_of_many_fine(rt: HostRuntime) -> Result<(), Fail> {
    for count in [255, 256, 511, 1024] {
        filters_by(rt.alloc(), count, true, 1, 6000)?;
    }
    Ok(())
}

/// Frames of two channels and of sixteen.
#[test]
fn fir_of_many_channels(rt: HostRuntime) -> Result<(), Fail> {
    for is_fine in [false, true] {
        filters_by(rt.alloc(), 500, is_fine, 2, 5000)?;
        filters_by(rt.alloc(), 500, is_fine, 16, 2500)?;
    }
    Ok(())
}

/// Sounds that are shorter than the coefficients, and hardly longer.
#[test]
fn fir_of_short_sounds(rt: HostRuntime) -> Result<(), Fail> {
    for frames in [0, 1, 511, 512, 1023, 1024] {
        filters_by(rt.alloc(), 1024, false, 1, frames)?;
    }
    Ok(())
}
