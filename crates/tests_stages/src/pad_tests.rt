//! The worked rows of `pad`.

use crate::driving::{gives, holds_four, say};
use crate::thawing::{frozen_after, goes_on};
use fx_cut::Pad;
use fx_fixed::At;

/// The rows of `pad`.
#[test]
fn pad_rows(rt: HostRuntime) -> Result<(), &'static str> {
    let alloc = rt.alloc();
    let ends = Pad::new(alloc, 1, &[(2, At::Start(0)), (1, At::End(0))]);
    gives(alloc, ends, "empty sound: -> | 0 0 0", 0)?;
    let beyond = Pad::new(alloc, 1, &[(1, At::Start(9)), (2, At::End(0))]);
    gives(alloc, beyond, "past end: 1 2 -> 1 2 0 0", 0)?;
    for row in [
        "mixed anchors: 1 2 3 -> 1 0 0 2 | 0 3",
        "mixed anchors of one: 1 -> 1 0 0 0",
        "mixed anchors of none: -> 0",
    ] {
        let mixed = Pad::new(alloc, 1, &[(2, At::Start(1)), (1, At::End(1))]);
        gives(alloc, mixed, row, 0)?;
    }
    Ok(())
}

/// A `pad` frozen and made again, which goes on as the first one would.
#[test]
fn pad_thaws(rt: HostRuntime) -> Result<(), &'static str> {
    let alloc = rt.alloc();
    let pads = [(2, At::Start(1)), (1, At::End(1))];
    let pad = Pad::new(alloc, 1, &pads);
    let (frames, numbers) = frozen_after(alloc, pad, "pad: 1 2 -> 1")?;
    let again = Pad::thaw(alloc, 1, &pads, &frames, &numbers);
    goes_on(alloc, again, 2, "pad thawed: 3 -> 0 0 2 0 3")
}

/// Each request of a `pad` for memory refused in turn.
#[test]
fn growth_pad(rt: HostRuntime) -> Result<(), &'static str> {
    let pad = Pad::new(rt.alloc(), 2, &[(4, At::Start(1)), (1, At::End(3))]);
    say(&rt, holds_four(pad))
}
