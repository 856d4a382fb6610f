//! Rounding of exact fractions to samples.

ghost use Rattle.std.specs.Prelude.{◌≡◌, ◌-◌, ◌^◌, pos, ◌<ℤ◌, ◌≤ℤ◌, unsigned_abs, neg_ℤ};
ghost use Rattle.fx_fixed.specs.Rounding.{clipping, rounding, signed};

/// The integer of that sign and magnitude, clipped to the range of a sample, `-2^31` to
/// `2^31 - 1`, and whether it was clipped.
pub(crate) fn clip(magnitude: u128, is_negative: bool) -> (i32, bool)
    ensures { result ≡ clipping (signed is_negative magnitude) }
{
    if magnitude <= 0x7fff_ffff {
        if is_negative {
            (-(magnitude as i32), false)
        } else {
            (magnitude as i32, false)
        }
    } else if is_negative {
        (i32::MIN, magnitude != 0x8000_0000)
    } else {
        (i32::MAX, true)
    }
}

/// The sample nearest to `num / den`, halves away from zero, clipped to `-2^31` to `2^31 - 1`; true
/// beside it where it was clipped. The denominator is at most `2^90`, and the magnitude of the
/// numerator at most `2^126 - 2^90`.
pub fn round_clip(num: i128, den: i128) -> (i32, bool)
    requires positive { pos 0 <ℤ den }
    requires small_den { den ≤ℤ pos (2 ^ 90) }
    requires low { neg_ℤ (pos (2 ^ 126 - 2 ^ 90)) ≤ℤ num }
    requires high { num ≤ℤ pos (2 ^ 126 - 2 ^ 90) }
    ensures { result ≡ rounding num (unsigned_abs den) }
{
    let below = den.unsigned_abs();
    clip((2 * num.unsigned_abs() + below) / (2 * below), num < 0)
}
