//! The worked rows of `dcshift`.

use crate::driving::{decay, gives};
use crate::thawing::{comes_back, frozen};
use fx_frame::Stage;
use fx_tap::DcShift;

/// The rows of `dcshift`, and how many samples are clipped.
#[test]
fn dcshift_rows(rt: HostRuntime) -> Result<(), &'static str> {
    for (text, row, clips) in [
        ("0.5", "clips: 1073741824 -1 -> 2147483647 1073741823", 1),
        ("0.000000000233", "trillionths: 0 -> 1", 0),
    ] {
        gives(rt.alloc(), Ok(DcShift::new(1, decay(text)?)), row, clips)?;
    }
    Ok(())
}

/// A `dcshift` frozen and made again.
#[test]
fn dcshift_thawed(rt: HostRuntime) -> Result<(), &'static str> {
    let shift = decay("0.5")?;
    let (dcshift, frames) = frozen(rt.alloc(), Ok(DcShift::new(2, shift)))?;
    let made = DcShift::thaw(2, shift, &frames, &dcshift.counters());
    comes_back(dcshift, made, "no dcshift, or another one")
}
