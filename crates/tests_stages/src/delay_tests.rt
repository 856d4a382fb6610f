//! The worked rows of `delay`.

use crate::driving::{gives, refused, say};
use crate::thawing::{comes_back, frozen};
use fx_frame::Stage;
use fx_tap::Delay;
use std::alloc::Global;

/// The rows of `delay`.
#[test]
fn delay_rows(rt: HostRuntime) -> Result<(), &'static str> {
    let alloc = rt.alloc();
    let one = Delay::new(alloc, 1, &[3]);
    gives(alloc, one, "empty sound: -> 0 0 0", 0)?;
    let first = Delay::new(alloc, 2, &[1]);
    gives(alloc, first, "first channel: 1 2 3 4 -> 0 2 1 4 3 0", 0)
}

/// Freezes a `delay` and makes it again.
fn delay_thawed(alloc: Global) -> Result<(), &'static str> {
    let (delay, frames) = frozen(alloc, Delay::new(alloc, 2, &[1]))?;
    let made = Delay::thaw(alloc, 2, &[1], &frames, &delay.counters());
    comes_back(delay, made, "no delay, or another one")
}

/// Each request of a `delay` for memory refused in turn.
#[test]
fn growth_delay(rt: HostRuntime) -> Result<(), &'static str> {
    say(&rt, delay_thawed(rt.alloc()))
}

/// A line with fewer frames than went by.
#[test]
fn delay_refused(rt: HostRuntime) -> Result<(), &'static str> {
    let short = Delay::thaw(rt.alloc(), 1, &[3], &[], &[5, 5, 0, 0, 0, 0, 0, 0]);
    refused(short, "a delay of too few frames")
}
