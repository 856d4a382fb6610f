//! Samples of 24 bits, four at a time, each in a lane of 32 bits: their bytes, three each side by side (RIFF WAVE, Sun AU),
//! are moved to their lanes, and from them, by one instruction.

ghost use Rattle.std.specs.Prelude.{◌≡◌, ◌++◌, [], ◌∷◌, count_by, length, reverse, take};
ghost use Rattle.std.specs.Int.{w64};
ghost use Rattle.std.specs.List.{flat_map};
ghost use Rattle.byteorder.specs.Endian.{little_bytes, low_bytes};
ghost use Rattle.fx_frame_base.specs.Coding.{is_too_large, limited, width_of};
ghost use Rattle.fx_sound.specs.FrameCoding.{bytes_of, clips_of, coded_samples};
ghost use Rattle.fx_frame_base.specs.Lists.{pieces};

use fx_frame::Coding;
use std::simd::prelude::*;

/// Twelve bytes, and four zeros after them.
#[inline(always)]
fn load_twelve(bytes: &[u8]) -> u8x16
    requires { length bytes.now ≡ 12 }
    ensures { result ≡ bytes.now ++ 0 ∷ 0 ∷ 0 ∷ 0 ∷ [] }
{
    let front = u8x8::from_slice(bytes);
    let last = u8x4::from_slice(&bytes[8..]);
    let back = last.shuffle(u8x4::splat(0), [0, 1, 2, 3, 4, 5, 6, 7]);
    front.shuffle(back, [0, 1, 2, 3, 4, 5, 6, 7, 8, 9, 10, 11, 12, 13, 14, 15])
}

/// Writes the first twelve bytes.
#[inline(always)]
fn store_twelve(bytes: u8x16, out: &mut [u8])
    requires { length out.old ≡ 12 }
    ensures { out.new ≡ take 12 bytes }
{
    bytes.extract::<0, 8>().copy_to_slice(&mut out[..8]);
    bytes.extract::<8, 4>().copy_to_slice(&mut out[8..]);
}

/// Writes the four samples of twelve bytes, each little-endian.
// The byte at place 12 is zero, so that a lane is its number times 2^8.
#[inline(always)]
fn read_little(bytes: &[u8], samples: &mut [i32])
    requires bytes { length bytes.now ≡ 12 }
    requires samples { length samples.old ≡ 4 }
    ensures { samples.new ≡ coded_samples Coding.S24Le 4 bytes.now }
{
    let lanes = load_twelve(bytes).swizzle([12, 0, 1, 2, 12, 3, 4, 5, 12, 6, 7, 8, 12, 9, 10, 11]);
    i32x4::from_le_bytes(lanes).copy_to_slice(samples);
}

/// The same, each big-endian.
#[inline(always)]
fn read_big(bytes: &[u8], samples: &mut [i32])
    requires bytes { length bytes.now ≡ 12 }
    requires samples { length samples.old ≡ 4 }
    ensures { samples.new ≡ coded_samples Coding.S24Be 4 bytes.now }
{
    let lanes = load_twelve(bytes).swizzle([12, 2, 1, 0, 12, 5, 4, 3, 12, 8, 7, 6, 12, 11, 10, 9]);
    i32x4::from_le_bytes(lanes).copy_to_slice(samples);
}

/// Writes the four samples of twelve bytes.
#[inline(always)]
pub(crate) fn read_four(coding: Coding, bytes: &[u8], samples: &mut [i32])
    requires width { width_of coding ≡ 3 }
    requires bytes { length bytes.now ≡ 12 }
    requires samples { length samples.old ≡ 4 }
    ensures { samples.new ≡ coded_samples coding 4 bytes.now }
{
    match coding {
        Coding::S24Be => read_big(bytes, samples),
        _ => read_little(bytes, samples),
    }
}

/// Four samples as numbers of 24 bits in lanes of four bytes, little-endian, and how many samples were clipped.
#[inline(always)]
fn limited_four(samples: &[i32]) -> (u8x16, u32)
    requires { length samples.now ≡ 4 }
    ensures lanes { result.0 ≡ flat_map (λ z. little_bytes 4 (low_bytes w64 4 (limited 3 z))) samples.now }
    ensures clips { result.1 ≡ count_by (is_too_large 3) samples.now }
{
    let largest = i32x4::splat(0x7f_ffff);
    // The proof knows that a sample read by index has 32 bits; all four are one load.
    let four = i32x4::from_array([samples[0], samples[1], samples[2], samples[3]]);
    let rounded = ((four >> i32x4::splat(7)) + i32x4::splat(1)) >> i32x4::splat(1);
    let clips = rounded.simd_gt(largest).to_bitmask().count_ones();
    (rounded.simd_min(largest).to_le_bytes(), clips)
}

/// Writes the three lowest bytes of four lanes, the lowest byte first.
// The last four places are the highest bytes of the lanes, which are not written.
#[inline(always)]
fn write_little(lanes: u8x16, out: &mut [u8])
    requires { length out.old ≡ 12 }
    ensures { out.new ≡ flat_map (take 3) (pieces 4 4 lanes) }
{
    store_twelve(
        lanes.swizzle([0, 1, 2, 4, 5, 6, 8, 9, 10, 12, 13, 14, 3, 7, 11, 15]),
        out,
    );
}

/// The same, the highest byte first.
#[inline(always)]
fn write_big(lanes: u8x16, out: &mut [u8])
    requires { length out.old ≡ 12 }
    ensures { out.new ≡ flat_map (λ lane. reverse (take 3 lane)) (pieces 4 4 lanes) }
{
    store_twelve(
        lanes.swizzle([2, 1, 0, 6, 5, 4, 10, 9, 8, 14, 13, 12, 3, 7, 11, 15]),
        out,
    );
}

/// Writes the twelve bytes of four samples, and returns how many samples were clipped.
#[inline(always)]
pub(crate) fn write_four(coding: Coding, samples: &[i32], out: &mut [u8]) -> u32
    requires width { width_of coding ≡ 3 }
    requires samples { length samples.now ≡ 4 }
    requires bytes { length out.old ≡ 12 }
    ensures bytes { out.new ≡ bytes_of coding samples.now }
    ensures clips { result ≡ clips_of coding samples.now }
{
    let (lanes, clips) = limited_four(samples);
    match coding {
        Coding::S24Be => write_big(lanes, out),
        _ => write_little(lanes, out),
    }
    clips
}
