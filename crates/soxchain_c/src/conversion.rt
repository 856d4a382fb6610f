//! A conversion in memory, to C.
ghost use Rattle.std.specs.Prelude.{◌≡◌, ℕ, List, [], length};
ghost use Rattle.fx_chain_run.specs.Report.{no_report};
ghost use Rattle.fx_plan.specs.Line.{texts};
ghost use Rattle.fx_plan.specs.Plans.{plan_bytes};
ghost use Rattle.soxchain_c.specs.Asked.{FaultAnswers};
ghost use Rattle.soxchain_c.specs.Conversion.{Conversion, ConversionOf, reported_report};
ghost use Rattle.soxchain_c.specs.Messages.{ReportedBytes};
ghost use Rattle.soxchain_c.specs.Buffer.{filled};
ghost use Rattle.soxchain_c.specs.Status.{code};

use crate::asked::{Asked, read_asked, refuse};
use crate::bytes_out::put;
use crate::messages::{Messages, Text};
use crate::slices::SliceReader;
use crate::status::{Status, number_of};
use crate::texts::TextFault;
use fx_chain::{MAX_EFFECTS, Report};
use fx_frame::Counted;
use soxchain::convert;
use std::alloc::Global;

/// What a conversion did, and the bytes of what it wrote and reported.
#[repr(C)]
#[derive(Drop)]
pub struct SoxchainReport {
    pub output_length: usize,
    pub messages_length: usize,
    pub frames_in: u64,
    pub frames_out: u64,
    pub bytes_out: u64,
    pub moves: u64,
    pub clips: [u64; MAX_EFFECTS],
    pub out_clips: u64,
    pub missing: u64,
    pub stray: u64,
}

/// A report to C.
fn report_of(report: &Report, output_length: usize, messages_length: usize) -> SoxchainReport
    ensures { result ≡ reported_report report.now output_length messages_length }
{
    SoxchainReport {
        output_length,
        messages_length,
        frames_in: report.frames_in,
        frames_out: report.frames_out,
        bytes_out: report.bytes_out,
        moves: report.moves,
        clips: report.clips,
        out_clips: report.out_clips,
        missing: report.missing,
        stray: report.stray,
    }
}

/// What a conversion returned, wrote and reported.
#[derive(Drop)]
struct Done {
    status: i32,
    report: Report,
    output: Vec<u8>,
    messages: Text,
}

/// Converts a sound in memory.
fn convert_asked(alloc: Global, asked: &Asked, input: &[u8]) -> Done
    ensures { Conversion (texts asked.now.words.items) (plan_bytes asked.now.files.items) input.now
        result.output.items result.messages.items result.status result.report }
{
    let mut output = Counted::new(Vec::new(alloc));
    let mut messages = Messages::new(alloc);
    let (status, report, _reader) = convert(
        alloc,
        &asked.words,
        &asked.files,
        SliceReader::new(input),
        &mut output,
        &mut messages,
    );
    Done {
        status: i32::from(status),
        report,
        output: output.into_inner(),
        messages: messages.into_text(),
    }
}

/// What is returned where words or files cannot be read.
fn unread(alloc: Global, fault: TextFault) -> Done
    ensures answers { (status : Status) × (result.status ≡ code status)
        × FaultAnswers fault (ReportedBytes result.messages.items) (result.messages.items ≡ []) status }
    ensures output { result.output.items ≡ [] }
    ensures report { result.report ≡ no_report }
{
    let mut delivered = Messages::new(alloc);
    let status = number_of(refuse(&mut delivered, fault));
    Done {
        status,
        report: Report::none(),
        output: Vec::new(alloc),
        messages: delivered.into_text(),
    }
}

/// Converts a sound in memory: the words are those of the command line, the files the bytes of the coefficient files, in order.
/// Output and messages are copied where the output buffer has space for all their bytes; the report has both lengths, also
/// where not.
#[unsafe(no_mangle)]
pub extern "C" fn soxchain_convert(
    alloc: Global,
    words: &[u8],
    word_ends: &[usize],
    files: &[u8],
    file_ends: &[usize],
    input: &[u8],
    output: &mut [u8],
    messages: &mut [u8],
    report: &mut SoxchainReport,
) -> i32
    ensures { (bytes : List ℕ) × (delivered : List ℕ) × (done : Report)
        × ConversionOf words.now word_ends.now files.now file_ends.now
        input.now bytes delivered result done
        × (report.new ≡ reported_report done (length bytes) (length delivered))
        × (output.new ≡ filled bytes output.old) × (messages.new ≡ filled delivered messages.old) }
{
    let done = match read_asked(alloc, words, word_ends, files, file_ends) {
        Ok(asked) => convert_asked(alloc, &asked, input),
        Err(fault) => unread(alloc, fault),
    };
    let delivered = done.messages.as_slice();
    *report = report_of(&done.report, done.output.len(), delivered.len());
    put(output, &done.output);
    put(messages, delivered);
    done.status
}
