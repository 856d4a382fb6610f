//! The messages of the program, one line each.
ghost use Rattle.std.specs.Prelude.{◌≡◌, ◌++◌, length, min};
ghost use Rattle.fx_chain_run.specs.Report.{report_at};
ghost use Rattle.fx_plan.specs.CommandLines.{effects_in};
ghost use Rattle.soxchain.specs.Messages;
ghost use Rattle.soxchain.specs.Messages.{chain_message, effect_message, effect_warning, effect_warnings, effects_message, head_label, input_message, line_label, line_message, plan_label, plan_message, refusal_message, run_label, run_message, warning, warnings};
ghost use Rattle.soxchain.specs.Saying.{Says};

use crate::message_writer::MessageWriter;
use crate::preparing::Refusal;
use fx_chain::{MAX_EFFECTS, Report, RunFault};
use fx_frame::ByteOut;
use fx_plan::{CommandLine, LineFault, PlanCause, PlanFault};
use fx_sound::HeadFault;
use itoa::Buffer;

/// `soxchain: command line: 2 BadOption`, with the number and name of the fault.
pub fn tell_line<M: ByteOut>(message_writer: &mut MessageWriter<M>, fault: &str)
    ensures { Says M.writes message_writer.old message_writer.new (line_message fault.now) }
{
    message_writer.note("soxchain: command line: ", fault);
}

/// `soxchain: effect 1 vol: 5 BadArgument: x`, with the effect's number and name, the fault's number and name, and the word.
pub fn tell_effect<M: ByteOut>(
    message_writer: &mut MessageWriter<M>,
    number: usize,
    name: &str,
    fault: &str,
    word: &str,
)
    ensures { Says M.writes message_writer.old message_writer.new (effect_message number name.now fault.now word.now) }
{
    let mut buffer = Buffer::new();
    message_writer.sentence(
        "soxchain: effect ",
        buffer.format(number as u64),
        " ",
        name,
        ": ",
    );
    message_writer.text(fault);
    message_writer.note(": ", word);
}

/// `soxchain: effects: 14 HoldTooLarge`, with the number and name of the fault.
pub fn tell_effects<M: ByteOut>(message_writer: &mut MessageWriter<M>, fault: &str)
    ensures { Says M.writes message_writer.old message_writer.new (effects_message fault.now) }
{
    message_writer.note("soxchain: effects: ", fault);
}

/// `soxchain: input: 3 Truncated`, with the number and name of the fault.
pub fn tell_input<M: ByteOut>(message_writer: &mut MessageWriter<M>, fault: &str)
    ensures { Says M.writes message_writer.old message_writer.new (input_message fault.now) }
{
    message_writer.note("soxchain: input: ", fault);
}

/// `soxchain: run: 1 ReadFailed after frames 5`, with the number and name of the fault and the frames that were read.
pub fn tell_run<M: ByteOut>(message_writer: &mut MessageWriter<M>, fault: &str, frames: u64)
    ensures { Says M.writes message_writer.old message_writer.new (run_message fault.now frames) }
{
    let mut buffer = Buffer::new();
    message_writer.sentence(
        "soxchain: run: ",
        fault,
        " after frames ",
        buffer.format(frames),
        "\n",
    );
}

/// `soxchain: warning: input: missing bytes 3`, with what is counted and how often; nothing where that is 0.
pub fn tell_warning<M: ByteOut>(message_writer: &mut MessageWriter<M>, counted: &str, count: u64)
    ensures { Says M.writes message_writer.old message_writer.new (warning counted.now count) }
{
    if count == 0 {
        return;
    }
    let mut buffer = Buffer::new();
    message_writer.sentence(
        "soxchain: warning: ",
        counted,
        " ",
        buffer.format(count),
        "\n",
    );
}

/// Number and name of why a command line is refused.
pub fn label_of_line(fault: LineFault) -> &'static str
    ensures { result.now ≡ line_label fault }
{
    match fault {
        LineFault::MissingFile => "1 MissingFile",
        LineFault::BadOption => "2 BadOption",
        LineFault::NoOutputType => "3 NoOutputType",
        LineFault::BadBits => "4 BadBits",
        LineFault::Memory => "5 Memory",
    }
}

/// `soxchain: chain: no memory`.
pub fn tell_chain<M: ByteOut>(message_writer: &mut MessageWriter<M>)
    ensures { Says M.writes message_writer.old message_writer.new chain_message }
{
    message_writer.note("soxchain: chain: ", "no memory");
}

// Number and name of what is wrong with a head.
fn label_of_head(fault: HeadFault) -> &'static str
    ensures { result.now ≡ head_label fault }
{
    match fault {
        HeadFault::ReadFailed => "1 ReadFailed",
        HeadFault::UnknownType => "2 UnknownType",
        HeadFault::Truncated => "3 Truncated",
        HeadFault::BadHeader => "4 BadHeader",
        HeadFault::NotInProfile => "5 NotInProfile",
        HeadFault::TooManyChannels => "6 TooManyChannels",
        HeadFault::HeadTooLong => "7 HeadTooLong",
    }
}

// Number and name of why a run stopped.
fn label_of_run(fault: &RunFault) -> &'static str
    ensures { result.now ≡ run_label fault.now }
{
    match fault {
        RunFault::ReadFailed(_) => "1 ReadFailed",
        RunFault::WriteFailed(_) => "2 WriteFailed",
        RunFault::TooLong(_) => "3 TooLong",
    }
}

// Number and name of why a plan is refused.
fn label_of_plan(cause: PlanCause) -> &'static str
    ensures { result.now ≡ plan_label cause }
{
    match cause {
        PlanCause::UnknownEffect => "1 UnknownEffect",
        PlanCause::NotInProfile => "2 NotInProfile",
        PlanCause::NeedsWholeSound => "3 NeedsWholeSound",
        PlanCause::WrongCount => "4 WrongCount",
        PlanCause::BadArgument => "5 BadArgument",
        PlanCause::OutOfRange => "6 OutOfRange",
        PlanCause::PositionBehind => "7 PositionBehind",
        PlanCause::NoSuchChannel => "8 NoSuchChannel",
        PlanCause::TooManyChannels => "9 TooManyChannels",
        PlanCause::RateNotDivisible => "10 RateNotDivisible",
        PlanCause::RateTooLarge => "11 RateTooLarge",
        PlanCause::TooManyEffects => "12 TooManyEffects",
        PlanCause::BadCoefficients => "13 BadCoefficients",
        PlanCause::HoldTooLarge => "14 HoldTooLarge",
        PlanCause::TooLong => "15 TooLong",
        PlanCause::Memory => "16 Memory",
    }
}

// A fault that belongs to no single effect.
fn is_of_all(cause: PlanCause) -> bool
    ensures { result ≡ Messages.is_of_all cause }
{
    matches!(
        cause,
        PlanCause::HoldTooLarge | PlanCause::TooLong | PlanCause::Memory
    )
}

// A word of an effect, both counted from 1; no text where there is none.
fn reported_word(line: &CommandLine, number: usize, place: usize) -> &str
    ensures { result.now ≡ Messages.reported_word (effects_in line.now) number place }
{
    if number == 0 || place == 0 || number > line.effect_count() {
        return "";
    }
    if place > line.word_count(number) {
        return "";
    }
    line.word(number, place)
}

/// The message on effects that are refused.
pub fn tell_plan<M: ByteOut>(
    message_writer: &mut MessageWriter<M>,
    line: &CommandLine,
    fault: PlanFault,
)
    ensures { Says M.writes message_writer.old message_writer.new (plan_message (effects_in line.now) fault) }
{
    let label = label_of_plan(fault.cause);
    if is_of_all(fault.cause) {
        tell_effects(message_writer, label);
        return;
    }
    let name = reported_word(line, fault.effect, 1);
    let word = reported_word(line, fault.effect, fault.word);
    tell_effect(message_writer, fault.effect, name, label, word);
}

/// `soxchain: warning: effect 1 vol: clipped samples 2`, with the effect's number and name; nothing where the count is 0.
pub fn tell_effect_warning<M: ByteOut>(
    message_writer: &mut MessageWriter<M>,
    number: usize,
    name: &str,
    count: u64,
)
    ensures { Says M.writes message_writer.old message_writer.new (effect_warning number name.now count) }
{
    if count == 0 {
        return;
    }
    let mut buffer = Buffer::new();
    message_writer.sentence(
        "soxchain: warning: effect ",
        buffer.format(number as u64),
        " ",
        name,
        ": clipped samples ",
    );
    let mut digits = Buffer::new();
    message_writer.text(digits.format(count));
    message_writer.text("\n");
}

/// The warnings of the effects, first to last.
fn tell_effect_warnings<M: ByteOut>(
    message_writer: &mut MessageWriter<M>,
    line: &CommandLine,
    clips: &[u64; MAX_EFFECTS],
)
    ensures { Says M.writes message_writer.old message_writer.new (effect_warnings (effects_in line.now) clips.now (min (length (effects_in line.now)) 32)) }
{
    let count = line.effect_count().min(MAX_EFFECTS);
    let mut place = 0;
    while place < count {
        let name = reported_word(line, place + 1, 1);
        tell_effect_warning(message_writer, place + 1, name, clips[place]);
        place += 1;
    }
}

/// The warnings of a run.
pub fn tell_warnings<M: ByteOut>(
    message_writer: &mut MessageWriter<M>,
    line: &CommandLine,
    report: &Report,
)
    ensures { Says M.writes message_writer.old message_writer.new (warnings line.now report.now) }
{
    tell_warning(message_writer, "input: missing bytes", report.missing);
    tell_warning(message_writer, "input: stray bytes", report.stray);
    tell_effect_warnings(message_writer, line, &report.clips);
    tell_warning(message_writer, "output: clipped samples", report.out_clips);
}

/// The message on what is refused before the run.
pub fn tell_refusal<M: ByteOut>(
    message_writer: &mut MessageWriter<M>,
    line: &CommandLine,
    refusal: &Refusal,
)
    ensures { Says M.writes message_writer.old message_writer.new (refusal_message line.now refusal.now) }
{
    match refusal {
        Refusal::Head(fault) => tell_input(message_writer, label_of_head(*fault)),
        Refusal::Plan(fault) => tell_plan(message_writer, line, *fault),
        Refusal::Chain => tell_chain(message_writer),
    }
}

/// The messages on a run that stopped, after its warnings.
pub fn tell_fault<M: ByteOut>(
    message_writer: &mut MessageWriter<M>,
    line: &CommandLine,
    fault: &RunFault,
)
    ensures { let report = report_at fault.now in Says M.writes message_writer.old message_writer.new
        (warnings line.now report ++ run_message (run_label fault.now) report.frames_in) }
{
    let report = fault.report();
    tell_warnings(message_writer, line, &report);
    tell_run(message_writer, label_of_run(fault), report.frames_in);
}
