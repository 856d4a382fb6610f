//! A conversion in two parts: preparation before the output is opened, and the run.
ghost use Rattle.std.specs.Prelude.{◌≡◌, ◌⊎◌, IfErr, IfOk, OnOk, Ok, Result};
ghost use Rattle.fx_chain.specs.Chain.{IsNewChain};
ghost use Rattle.fx_plan.specs.Line.{line_of_words, texts};
ghost use Rattle.fx_plan.specs.Plans.{plan_bytes};
ghost use Rattle.fx_plan.specs.Planning.{planning};
ghost use Rattle.soxchain.specs.Finishing.{Finished, ready_for};
ghost use Rattle.soxchain.specs.Messages.{line_label, line_message};
ghost use Rattle.soxchain.specs.Program.{status_of_line};
ghost use Rattle.soxchain.specs.Preparing.{IsPrepared};
ghost use Rattle.soxchain.specs.Readying.{LineRefused, LineUnready, Unready};
ghost use Rattle.soxchain.specs.Saying.{Says};
ghost use Rattle.soxchain.specs.MessageWriter.{WritesMessage};

use crate::message_writer::MessageWriter;
use crate::messages::{label_of_line, tell_fault, tell_line, tell_refusal, tell_warnings};
use crate::prepared::Prepared;
use crate::preparing::{prepare_line, status_of_fault};
use fx_chain::{Report, run};
use fx_frame::{ByteIn, ByteOut};
use fx_plan::{CommandLine, LineFault, Plan, parse_line};
use fx_sound::Source;
use std::alloc::Global;
use std::marker::Model;

/// A command line, and the plan and the new chain that it asks for: what `prepare` makes and `finish` runs.
#[derive(Drop)]
pub struct Ready {
    line: CommandLine,
    prepared: Prepared,
}

impl Model for Ready {
    ghost use Rattle.fx_chain.specs.Chain.{IsNewChain};
    ghost use Rattle.fx_plan.specs.Planning.{planning};
    ghost use Rattle.soxchain.specs.Finishing.{ReadyParts};

    ghost Value = { ReadyParts };

    ghost view = { λ r. record { line = r.line; prepared = r.prepared } };

    // The chain is that of the plan, and has taken nothing.
    ghost invariant = { λ r. IsNewChain (planning r.prepared.plan) r.prepared.chain };
}

impl Ready {
    /// The plan: of the line's effects, after the head that was read.
    pub fn plan(&self) -> &Plan
        ensures { result.now ≡ self.now.prepared.plan }
    {
        &self.prepared.plan
    }
}

/// Reads the head of a sound after a command line that was read, and makes the plan of its effects and their chain; `files` are
/// the bytes of the line's coefficient files, in order. Where they are refused, writes one message with the reason and returns
/// the status: 1 for a fault of the effects' words, 2 for every other.
pub fn prepare_for<R: ByteIn, M: ByteOut>(
    alloc: Global,
    line: &CommandLine,
    files: &[Vec<u8>],
    source: &mut Source<R>,
    message_writer: &mut MessageWriter<M>,
) -> Result<Prepared, u8>
    // The head, the plan and its chain, and no message.
    ensures prepared { IfOk result (IsPrepared R.reads line.now (plan_bytes files.now) source.old source.new) }
    ensures silent { OnOk result (message_writer.new ≡ message_writer.old) }

    // What the line asks for is refused.
    ensures refused { IfErr result (Unready R.reads line.now (plan_bytes files.now) source.old source.new
        (Says M.writes message_writer.old message_writer.new)) }
{
    match prepare_line(alloc, line, files, source) {
        Ok(prepared) => Ok(prepared),
        Err(refusal) => {
            tell_refusal(message_writer, line, &refusal);
            Err(refusal.status())
        }
    }
}

/// Writes one message why a command line is refused, and returns the status.
pub fn refuse_line<M: ByteOut>(fault: LineFault, message_writer: &mut MessageWriter<M>) -> u8
    ensures status { result ≡ status_of_line fault }
    ensures delivered { Says M.writes message_writer.old message_writer.new (line_message (line_label fault)) }
{
    tell_line(message_writer, label_of_line(fault));
    status_of_fault(fault)
}

/// Reads the words of a command line and the head of a sound, and makes the plan and its chain; `files` are the bytes of the
/// line's coefficient files, in order. Where they are refused, writes one message with the reason and returns the status: 1 for
/// a fault of the words, 2 for every other.
pub fn prepare<R: ByteIn, M: ByteOut>(
    alloc: Global,
    words: &[String],
    files: &[Vec<u8>],
    source: &mut Source<R>,
    messages: &mut M,
) -> Result<Ready, u8>
    // The line, the head, the plan and its chain, and no message.
    ensures line { IfOk result (λ ready. line_of_words (texts words.now) ≡ Ok ready.line) }
    ensures prepared { IfOk result (λ ready.
        IsPrepared R.reads ready.line (plan_bytes files.now) source.old source.new ready.prepared) }
    ensures silent { OnOk result (messages.new ≡ messages.old) }

    // The line is refused, or what it asks for is.
    ensures refused { IfErr result (λ status.
        let Written = WritesMessage M.writes messages.old messages.new in
        LineRefused (texts words.now) source.old source.new Written status
        ⊎ LineUnready R.reads (texts words.now) (plan_bytes files.now) source.old source.new Written status) }
{
    let mut message_writer = MessageWriter::new(messages);
    let line = match parse_line(alloc, words) {
        Ok(line) => line,
        Err(fault) => return Err(refuse_line(fault, &mut message_writer)),
    };
    match prepare_for(alloc, &line, files, source, &mut message_writer) {
        Ok(prepared) => Ok(Ready { line, prepared }),
        Err(status) => Err(status),
    }
}

/// As `finish`, for a command line that is kept.
pub fn finish_for<R: ByteIn, W: ByteOut, M: ByteOut>(
    line: &CommandLine,
    prepared: Prepared,
    source: &mut Source<R>,
    output: &mut W,
    message_writer: &mut MessageWriter<M>,
) -> (u8, Report)
    requires { IsNewChain (planning prepared.plan) prepared.chain }
    ensures { Finished R.reads W.writes (ready_for line.now prepared) source.old source.new output.old output.new
        (Says M.writes message_writer.old message_writer.new) result.0 result.1 }
{
    let Prepared { plan, mut chain } = prepared;
    match run(&mut chain, &plan, source, output) {
        Ok(report) => {
            tell_warnings(message_writer, line, &report);
            (0, report)
        }
        Err(fault) => {
            tell_fault(message_writer, line, &fault);
            (2, fault.report())
        }
    }
}

/// Runs what is ready, over the sound after the head, and reports warnings and the fault that stopped it. Returns the status,
/// 0 without a fault and else 2, and what was done. Allocates no memory.
pub fn finish<R: ByteIn, W: ByteOut, M: ByteOut>(
    ready: Ready,
    source: &mut Source<R>,
    output: &mut W,
    messages: &mut M,
) -> (u8, Report)
    ensures { Finished R.reads W.writes ready source.old source.new output.old output.new
        (WritesMessage M.writes messages.old messages.new) result.0 result.1 }
{
    let Ready { line, prepared } = ready;
    let mut message_writer = MessageWriter::new(messages);
    finish_for(&line, prepared, source, output, &mut message_writer)
}
