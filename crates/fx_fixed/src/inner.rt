//! What the effects need beyond the public functions.

ghost use Rattle.std.specs.Prelude.{◌≡◌, ◌*ℤ◌};
ghost use Rattle.fx_fixed.specs.Rounding.{rounding};

pub use crate::capped::capped_number;
pub use crate::coefficient_files::MAX_COEFFICIENTS;
pub use crate::extents::{end_distance, max_end};
use crate::gains::{Gain, UNIT};
pub use crate::reciprocal::Denominator;
pub use crate::reduced::reduce;
use crate::rounding::clip;

/// A sample times a gain: the nearest sample, halves away from zero, and whether it was clipped. It
/// is `round_clip` of gain times sample over `UNIT`, by 64-bit divisions by that constant.
pub fn scale(gain: Gain, sample: i32) -> (i32, bool)
    ensures { result ≡ rounding (gain *ℤ sample) UNIT }
{
    let factor = gain.trillionths();
    let whole = factor.unsigned_abs() / UNIT;
    let part = factor.unsigned_abs() % UNIT;
    let magnitude = u64::from(sample.unsigned_abs());
    let high = magnitude / 65536;
    let low = magnitude % 65536;
    let product = part * high;
    // The remainder of the upper half goes on to the lower one, so nothing is rounded twice.
    let nearest = whole * magnitude
        + product / UNIT * 65536
        + (2 * (product % UNIT * 65536 + part * low) + UNIT) / (2 * UNIT);
    clip(u128::from(nearest), (factor < 0) != (sample < 0))
}
