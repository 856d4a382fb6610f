//! The worked rows of `vol`.

use crate::driving::{gain, gives, refused};
use crate::thawing::{comes_back, frozen};
use fx_frame::{Frame, Stage, WideFrame};
use fx_tap::Vol;

/// The rows of `vol`, and how many samples are clipped.
#[test]
fn vol_rows(rt: HostRuntime) -> Result<(), &'static str> {
    for (text, row, clips) in [
        (
            "1.5",
            "clips: 2147483647 -2147483648 1 -1 3 -> 2147483647 -2147483648 2 -2 5",
            2,
        ),
        ("0.000000000233", "trillionths: 2147483647 -> 1", 0),
        ("0.000000000232", "trillionths: 2147483647 -> 0", 0),
    ] {
        gives(rt.alloc(), Ok(Vol::new(1, gain(text)?)), row, clips)?;
    }
    Ok(())
}

/// A `vol` frozen and made again.
#[test]
fn vol_thawed(rt: HostRuntime) -> Result<(), &'static str> {
    let gain = gain("1.5")?;
    let (vol, frames) = frozen(rt.alloc(), Ok(Vol::new(2, gain)))?;
    let made = Vol::thaw(2, gain, &frames, &vol.counters());
    comes_back(vol, made, "no vol, or another one")
}

/// Clips without a pending frame, and a pending frame after the end.
#[test]
fn vol_refused() -> Result<(), &'static str> {
    let unity = gain("1")?;
    let idle = Vol::thaw(2, unity, &[], &[1, 1, 0, 0, 0, 2, 0, 0]);
    refused(idle, "a vol of clips with no frame")?;
    let frames = [WideFrame::from_frame(Frame::two(7, 7))];
    let over = Vol::thaw(2, unity, &frames, &[1, 0, 1, 0, 1, 0, 0, 0]);
    refused(over, "a vol with a frame after the end")
}
