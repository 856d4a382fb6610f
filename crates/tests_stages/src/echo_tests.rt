//! The worked rows of `echo` and `echos`.

use crate::driving::{decay, gain, gives, say};
use crate::thawing::{comes_back, frozen};
use fx_frame::Stage;
use fx_tap::{Echo, Echos};
use std::alloc::Global;

/// The rows of `echo` at a rate of 8 frames a second: those of `echo 1 1 0.25 0.5`, and one of two taps.
#[test]
fn echo_rows(rt: HostRuntime) -> Result<(), &'static str> {
    let alloc = rt.alloc();
    let full = decay("1")?;
    let half = decay("0.5")?;
    for row in [
        "one tap: 10 20 30 -> 10 20 35 10 15",
        "rounds away: 1 -> 1 0 1",
        "rounds away below zero: -1 -> -1 0 -1",
    ] {
        let one = Echo::new(alloc, 1, full, full, &[(2, half)]);
        gives(alloc, one, row, 0)?;
    }
    let two = Echo::new(alloc, 1, half, full, &[(2, half), (2, half)]);
    gives(alloc, two, "two taps: 1 -> 1 0 1", 0)
}

/// The rows of `echos` with two lines.
#[test]
fn echos_two_rows(rt: HostRuntime) -> Result<(), &'static str> {
    let alloc = rt.alloc();
    let full = decay("1")?;
    let half = decay("0.5")?;
    let lines = Echos::new(alloc, 1, full, full, &[(2, half), (1, half)]);
    gives(alloc, lines, "two lines: 8 -> 8 4 4 4", 0)?;
    let quarter = decay("0.25")?;
    let decays = Echos::new(alloc, 1, full, full, &[(2, half), (1, quarter)]);
    gives(alloc, decays, "two decays: 8 -> 8 2 4 2", 0)
}

/// The rows of `echos` with more lines.
#[test]
fn echos_more_rows(rt: HostRuntime) -> Result<(), &'static str> {
    let alloc = rt.alloc();
    let full = decay("1")?;
    for (row, clips) in [
        ("three lines: 1 -> 1 3 2 1", 0),
        ("three lines: 2147483647 -> 2147483647*4", 2),
    ] {
        let three = Echos::new(alloc, 1, full, full, &[(1, full); 3]);
        gives(alloc, three, row, clips)?;
    }
    let seven = Echos::new(alloc, 1, full, gain("1000")?, &[(1, full); 7]);
    let row = "loudest: -2147483648*8 -> -2147483648*15";
    gives(alloc, seven, row, 15)
}

/// Freezes an `echo` and makes it again.
fn echo_thawed(alloc: Global) -> Result<(), &'static str> {
    let half = decay("0.5")?;
    let taps = [(1, half)];
    let (echo, frames) = frozen(alloc, Echo::new(alloc, 2, half, half, &taps))?;
    let numbers = echo.counters();
    let made = Echo::thaw(alloc, 2, half, half, &taps, &frames, &numbers);
    comes_back(echo, made, "no echo, or another one")
}

/// Each request of an `echo` for memory refused in turn.
#[test]
fn growth_echo(rt: HostRuntime) -> Result<(), &'static str> {
    say(&rt, echo_thawed(rt.alloc()))
}

/// Freezes an `echos` and makes it again.
fn echos_thawed(alloc: Global) -> Result<(), &'static str> {
    let half = decay("0.5")?;
    let lines = [(2, half), (1, half)];
    let (echos, frames) = frozen(alloc, Echos::new(alloc, 2, half, half, &lines))?;
    let numbers = echos.counters();
    let made = Echos::thaw(alloc, 2, half, half, &lines, &frames, &numbers);
    comes_back(echos, made, "no echos, or another one")
}

/// Each request of an `echos` for memory refused in turn.
#[test]
fn growth_echos(rt: HostRuntime) -> Result<(), &'static str> {
    say(&rt, echos_thawed(rt.alloc()))
}
