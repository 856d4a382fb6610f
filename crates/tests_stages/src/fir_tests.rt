//! The worked rows of `fir`.

use crate::driving::{gain, gives, refused, say};
use crate::thawing::{comes_back, frozen};
use fx_fixed::{Coefficients, Gain};
use fx_frame::{Frame, Stage, WideFrame};
use fx_tap::Fir;
use std::alloc::Global;

/// Fails with a row where a `fir` of these coefficients does not give what it says.
fn filters(alloc: Global, coefficients: &[Gain], row: &'static str) -> Result<(), &'static str> {
    if coefficients.is_empty() || coefficients.len() > 1024 {
        return Err("no coefficient, or too many");
    }
    gives(alloc, Fir::new(alloc, 1, coefficients), row, 0)
}

/// Fails with a row where a `fir` of the coefficients of a file does not give what it says.
fn filters_by_file(alloc: Global, file: &str, row: &'static str) -> Result<(), &'static str> {
    match Coefficients::parse(alloc, file.as_bytes()) {
        Ok(coefficients) => filters(alloc, &coefficients, row),
        Err(_fault) => Err("not a list of coefficients"),
    }
}

/// The rows of `fir`.
#[test]
fn fir_rows(rt: HostRuntime) -> Result<(), &'static str> {
    let alloc = rt.alloc();
    let quarter = gain("0.25")?;
    let low_pass = [quarter, gain("0.5")?, quarter];
    filters(alloc, &low_pass, "low pass: 4 8 -> 4 5")?;
    let text = "# low pass\n0.25 0.5 # mid\n0.25";
    filters_by_file(alloc, text, "low pass of a file: 4 8 -> 4 5")?;
    filters(alloc, &[gain("0")?, gain("1")?], "two: 4 8 -> 0 4")
}

/// Freezes a `fir` and makes it again.
fn fir_thawed(alloc: Global) -> Result<(), &'static str> {
    let half = gain("0.5")?;
    let (fir, frames) = frozen(alloc, Fir::new(alloc, 2, &[half, half]))?;
    let made = Fir::thaw(alloc, 2, &[half, half], &frames, &fir.counters());
    comes_back(fir, made, "no fir, or another one")
}

/// Each request of a `fir` for memory refused in turn.
#[test]
fn growth_fir(rt: HostRuntime) -> Result<(), &'static str> {
    say(&rt, fir_thawed(rt.alloc()))
}

/// A pending frame after the end.
#[test]
fn fir_refused(rt: HostRuntime) -> Result<(), &'static str> {
    let unity = gain("1")?;
    let frames = [WideFrame::from_frame(Frame::two(7, 7))];
    let fir = Fir::thaw(rt.alloc(), 2, &[unity], &frames, &[1, 0, 1, 0, 1, 0, 1, 0]);
    refused(fir, "a fir with a frame after the end")
}
