//! The worked rows of `trim`.

use crate::driving::{gives, gives_holding, holds_four, refused, say};
use crate::thawing::{frozen_after, goes_on};
use fx_cut::Trim;
use fx_fixed::At;
use fx_frame::{Frame, WideFrame};

/// The rows of `trim`.
#[test]
fn trim_rows(rt: HostRuntime) -> Result<(), &'static str> {
    let alloc = rt.alloc();
    let two = Trim::new(alloc, 1, &[At::Start(2), At::Start(5)]);
    gives(alloc, two, "two positions: 1 2 3 4 5 6 7 8 -> 3 4 5", 0)?;
    let last = Trim::new(alloc, 1, &[At::End(3)]);
    gives_holding(alloc, last, 4, "last three: 1 2 3 4 5 -> | 3 4 5")?;
    let last = Trim::new(alloc, 1, &[At::End(3)]);
    gives(alloc, last, "last three of two: 1 2 -> 1 2", 0)?;
    let mixed = Trim::new(alloc, 1, &[At::Start(4), At::End(3)]);
    gives(alloc, mixed, "mixed anchors: 1 2 3 4 5 ->", 0)?;
    let whole = Trim::new(alloc, 1, &[At::Start(0), At::End(2)]);
    gives(alloc, whole, "start to end: 1 2 3 4 -> 1 2 |", 0)
}

/// A `trim` frozen and made again, which goes on as the first one would.
#[test]
fn trim_thaws(rt: HostRuntime) -> Result<(), &'static str> {
    let alloc = rt.alloc();
    let positions = [At::Start(1), At::End(1)];
    let trim = Trim::new(alloc, 1, &positions);
    let (frames, numbers) = frozen_after(alloc, trim, "trim: 1 2 3 -> 2")?;
    let again = Trim::thaw(alloc, 1, &positions, &frames, &numbers);
    goes_on(alloc, again, 3, "trim thawed: 4 5 -> 3 4")
}

/// A sound of five frames of which `trim 0` gives one.
#[test]
fn trim_refused(rt: HostRuntime) -> Result<(), &'static str> {
    let frames = [WideFrame::from_frame(Frame::one(7))];
    let numbers = [5, 0, 1, 0, 1, 1, 0, 0];
    let bound = Trim::thaw(rt.alloc(), 1, &[At::Start(0)], &frames, &numbers);
    refused(bound, "one of five")
}

/// Each request of a `trim` for memory refused in turn.
#[test]
fn growth_trim(rt: HostRuntime) -> Result<(), &'static str> {
    let trim = Trim::new(rt.alloc(), 2, &[At::Start(1), At::End(3)]);
    say(&rt, holds_four(trim))
}
