//! What comes of a row, printed.

use crate::outcome::{Outcome, at_once, in_two};
use crate::row::Row;
use soxchain::Report;
use std::{io, str};

/// Prints bytes in hexadecimal digits, four bytes a word.
fn show_bytes(rt: &HostRuntime, bytes: &[u8]) -> io::Result<()> {
    print!(rt; " ")?;
    for (place, byte) in bytes.iter().enumerate() {
        if place % 4 == 0 {
            print!(rt; " ")?;
        }
        print!(rt; "{byte:02x}")?;
    }
    println!(rt)
}

/// Prints the clips of effects that clipped.
fn show_clips(rt: &HostRuntime, report: &Report) -> io::Result<()> {
    for (place, clips) in report.clips.iter().enumerate() {
        if *clips > 0 {
            print!(rt; ", effect {} clips {clips}", place + 1)?;
        }
    }
    Ok(())
}

/// Prints status and report.
fn show_report(rt: &HostRuntime, name: &str, outcome: &Outcome) -> io::Result<()> {
    let report = &outcome.report;
    print!(rt;
        "{name}: status {}, frames in {}",
        outcome.status, report.frames_in
    )?;
    print!(rt;
        ", frames out {}, bytes out {}",
        report.frames_out, report.bytes_out
    )?;
    print!(rt; ", moves {}", report.moves)?;
    show_clips(rt, report)?;
    if report.out_clips > 0 {
        print!(rt; ", output clips {}", report.out_clips)?;
    }
    if report.missing > 0 || report.stray > 0 {
        print!(rt; ", missing {}, stray {}", report.missing, report.stray)?;
    }
    println!(rt)
}

/// Prints the bytes written and the messages.
fn show_outcome(rt: &HostRuntime, name: &str, outcome: &Outcome) -> io::Result<()> {
    show_report(rt, name, outcome)?;
    if !outcome.output.taken().is_empty() {
        show_bytes(rt, outcome.output.taken())?;
    }
    let messages = str::from_utf8(outcome.messages.taken()).unwrap_or("?\n");
    for message in messages.lines() {
        println!(rt; "  {message}")?;
    }
    Ok(())
}

/// Prints what came of a row where it differs from what came of it first.
fn show_other(rt: &HostRuntime, name: &str, first: &Outcome, other: &Outcome) -> io::Result<()> {
    if first.is_same(other) {
        return Ok(());
    }
    print!(rt; "DIFFERENT: ")?;
    show_outcome(rt, name, other)
}

/// Prints what comes of converting a row.
pub fn show_row(rt: &HostRuntime, row: &Row, words: &[String]) -> io::Result<()> {
    let name = row.name.as_str();
    let Some(piece) = row.pieces.first() else {
        return Ok(());
    };
    let first = at_once(rt.alloc(), row, words, *piece)?;
    show_outcome(rt, name, &first)?;
    for piece in &row.pieces {
        let whole = at_once(rt.alloc(), row, words, *piece)?;
        show_other(rt, name, &first, &whole)?;
        let parts = in_two(rt.alloc(), row, words, *piece)?;
        show_other(rt, name, &first, &parts)?;
    }
    Ok(())
}
