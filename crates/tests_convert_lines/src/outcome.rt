//! What comes of converting a row.

ghost use Rattle.std.specs.Prelude.{◌<◌};

use crate::row::{Failing, Row};
use fx_frame::{Sink, Tape};
use fx_sound::Source;
use soxchain::{Report, convert, finish, prepare};
use std::alloc::{AllocError, Global};

/// What a conversion answered, wrote and told.
#[derive(Drop)]
pub struct Outcome {
    pub status: u8,
    pub report: Report,
    pub output: Sink,
    pub messages: Sink,
}

impl Outcome {
    /// Did both answer, write and tell the same?
    pub fn is_same(&self, other: &Outcome) -> bool {
        self.status == other.status
            && self.report == other.report
            && self.output.taken() == other.output.taken()
            && self.messages.taken() == other.messages.taken()
    }
}

/// The call at which a device fails that moves so many bytes in pieces, 0 for none, and whether it fails for good.
fn call_of(failing: Failing, bytes: usize, piece: usize) -> (u64, bool)
    requires { 0 < piece }
{
    let begun = u64::from(bytes % piece > 0);
    match failing {
        Failing::Never => (0, false),
        Failing::AfterHead => (((bytes / piece) as u64).saturating_add(begun + 1), true),
        Failing::Once(call) => (call, false),
        Failing::Ever(call) => (call, true),
    }
}

/// The devices of a row: its reader, its writer, and the writer of its messages. A call moves at least one byte.
fn devices(alloc: Global, row: &Row, piece: usize) -> Result<(Tape, Sink, Sink), AllocError> {
    let piece = piece.max(1);
    let (call, for_good) = call_of(row.reader, row.input.len(), piece);
    let reader = Tape::new(Vec::from_slice(alloc, &row.input)?, piece, call, for_good);
    let (call, for_good) = call_of(row.writer, row.free, piece);
    let output = Sink::new(alloc, row.free, piece, call, for_good)?;
    let messages = Sink::new(alloc, row.messages_capacity, piece, 0, false)?;
    Ok((reader, output, messages))
}

/// A row converted in one call.
pub fn at_once(
    alloc: Global,
    row: &Row,
    words: &[String],
    piece: usize,
) -> Result<Outcome, AllocError> {
    let (reader, mut output, mut messages) = devices(alloc, row, piece)?;
    let (status, report, _reader) = convert(
        alloc,
        words,
        &row.files,
        reader,
        &mut output,
        &mut messages,
    );
    Ok(Outcome {
        status,
        report,
        output,
        messages,
    })
}

/// A row converted in two calls.
pub fn in_two(
    alloc: Global,
    row: &Row,
    words: &[String],
    piece: usize,
) -> Result<Outcome, AllocError> {
    let (reader, mut output, mut messages) = devices(alloc, row, piece)?;
    let mut source = Source::new(reader);
    let (status, report) = match prepare(alloc, words, &row.files, &mut source, &mut messages) {
        Ok(ready) => finish(ready, &mut source, &mut output, &mut messages),
        Err(status) => (status, Report::none()),
    };
    Ok(Outcome {
        status,
        report,
        output,
        messages,
    })
}
