//! The conversion of a sound, from words and bytes to bytes, messages and a status.
ghost use Rattle.std.specs.Prelude.{◌≡◌, Result};
ghost use Rattle.fx_plan.specs.Line.{Said, line_of_words, texts};
ghost use Rattle.fx_plan.specs.CommandLines.{LineReads};
ghost use Rattle.fx_plan.specs.Plans.{plan_bytes};
ghost use Rattle.fx_plan.specs.declared.line.LineFault.{LineFault};
ghost use Rattle.soxchain.specs.Convert.{Converted};
ghost use Rattle.soxchain.specs.Program.{Concludes};
ghost use Rattle.soxchain.specs.MessageWriter.{WritesMessage};

use crate::ready::{finish, prepare};
use fx_chain::Report;
use fx_frame::{ByteIn, ByteOut};
use fx_sound::Source;
use std::alloc::Global;

/// Converts a sound: `words` are those of the command line, `files` the bytes of its coefficient files, in order.
///
/// The words are `[-D] [-t wav|au] IN [-D] [-t wav|au] [-b 8|16|24|32] OUT [EFFECT [WORD ..] ..]`. The sound comes from the
/// reader and goes to the output, whatever IN and OUT are; where OUT is a file, a WAVE of odd length gets its zero byte.
/// Returns the status (0: all went well, 1: the words are refused, 2: every other fault), what was done, and the reader.
/// Faults and warnings go to `messages`, a line each; after a fault of that writer no more is written to it, and nothing
/// else changes.
pub fn convert<R: ByteIn, W: ByteOut, M: ByteOut>(
    alloc: Global,
    words: &[String],
    files: &[Vec<u8>],
    reader: R,
    output: &mut W,
    messages: &mut M,
) -> (u8, Report, R)
    // The words are a command line, or have a fault, or no memory was found for the line. A line that is refused reads and
    // writes nothing.
    ensures { (found : Result Said LineFault) × LineReads (line_of_words (texts words.now)) found × Concludes
        (λ line. Converted R.reads W.writes line (plan_bytes files.now) reader result.2 output.old output.new)
        ((result.2 ≡ reader) × (output.new ≡ output.old))
        (WritesMessage M.writes messages.old messages.new) result.0 result.1 found }
{
    let mut source = Source::new(reader);
    let ready = match prepare(alloc, words, files, &mut source, messages) {
        Ok(ready) => ready,
        Err(status) => return (status, Report::none(), source.into_inner()),
    };
    let (status, report) = finish(ready, &mut source, output, messages);
    (status, report, source.into_inner())
}
