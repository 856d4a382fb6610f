//! The program soxchain-plan: what soxchain would do with the same words, computed from the words and the head of IN alone.
//!
//! Standard output gets the plan as text or, after `--json`, as one JSON object. A refusal has the message
//! and the status of soxchain, and then a line that says what to do.
#![tactic(auto)]

ghost use Rattle.std.specs.Prelude.{◌≡◌, Err};
ghost use Rattle.fx_plan.specs.Line.{line_of_words, texts};
ghost use Rattle.fx_plan.specs.Plans.{plan_bytes};
ghost use Rattle.soxchain_common.specs.About.{answer_of};
ghost use Rattle.soxchain.specs.Messages.{line_label, line_message};
ghost use Rattle.soxchain.specs.Program.{status_of_line};
ghost use Rattle.soxchain_plan.specs.Advising.{IsLineAdvice};
ghost use Rattle.soxchain_plan.specs.Answering.{PlanAnswers, PlanLines, Plans, Stops, Words, PlanWorks};

mod advice;
mod creating;
mod formats;
mod help;
mod host;
mod lengths;
mod options;
mod outline;
mod quoting;
mod reading;
mod showing;
mod stop;
mod style;
mod trailing;

use creating::output_fault;
use fx_frame::{ByteOut, Counted};
use fx_plan::{CommandLine, LineFault, parse_line, plan};
use fx_sound::Head;
use help::HELP;
use host::PlanHost;
use options::refused_word;
use outline::text_of;
use reading::{HeadRead, head_of};
use showing::{show, stopped};
use soxchain::inner::Refusal;
use soxchain_common::{Console, FilesFault, VERSION, answer_to, fault_of, read_files};
use std::process::ExitCode;
use stop::PlanStop;
use style::Style;
use trailing::bytes_beyond;

/// Shows the plan of a line, after the head of its input, which announces this end of the file, and returns the status. IN and OUT
/// are looked at only once there is a plan.
fn plan_line<H: PlanHost, M: ByteOut>(
    host: &mut H,
    style: Style,
    line: &CommandLine,
    head: &Head,
    end: Option<u64>,
    files: &[Vec<u8>],
    messages: &mut M,
) -> u8
    ensures { Plans (record { input = H.Input.reads; file = H.Reader.reads; output = H.Output.writes })
        H.machine H.looks H.creates M.writes style line.now (plan_bytes files.now) head.now end host.old host.new messages.old messages.new result }
{
    let plan = match plan(host.memory(), line, head, files) {
        Ok(plan) => plan,
        Err(fault) => {
            let stop = PlanStop::Refused(line, Refusal::Plan(fault));
            return stopped(host, style, &stop, messages);
        }
    };
    let beyond = bytes_beyond(host, line, head, end);
    let Some(text) = text_of(host.memory(), &plan, beyond, style) else {
        let refused = PlanStop::Refused(line, Refusal::Chain);
        return stopped(host, style, &refused, messages);
    };
    match output_fault(host, line) {
        Some((name, fault)) => {
            let stop = PlanStop::CannotCreate(name, fault);
            stopped(host, style, &stop, messages)
        }
        None => show(host, &text, 0, messages),
    }
}

/// Executes a command line, and returns the status.
fn answer_line<H: PlanHost, M: ByteOut>(
    host: &mut H,
    style: Style,
    line: &CommandLine,
    messages: &mut M,
) -> u8
    ensures { PlanWorks (record { input = H.Input.reads; file = H.Reader.reads; output = H.Output.writes })
        H.machine H.looks H.creates M.writes (record { opened = H.opened; unopened = H.unopened; closed = H.closed })
        style line.now host.old host.new messages.old messages.new result }
{
    let files = match read_files(host.memory(), host, line) {
        Ok(files) => files,
        Err(FilesFault::CannotRead(name)) => {
            return stopped(host, style, &PlanStop::CannotOpen(name), messages);
        }
        Err(FilesFault::Memory) => {
            return stopped(host, style, &PlanStop::Line(LineFault::Memory), messages);
        }
    };
    answer_files(host, style, line, &files, messages)
}

/// Executes a command line, with the bytes of its coefficient files, and returns the status.
fn answer_files<H: PlanHost, M: ByteOut>(
    host: &mut H,
    style: Style,
    line: &CommandLine,
    files: &[Vec<u8>],
    messages: &mut M,
) -> u8
    ensures { PlanLines (record { input = H.Input.reads; file = H.Reader.reads; output = H.Output.writes })
        H.machine H.looks H.creates M.writes (record { opened = H.opened; unopened = H.unopened; closed = H.closed })
        style line.now (plan_bytes files.now) host.old host.new messages.old messages.new result }
{
    let HeadRead { head, format, end } = match head_of(host, line) {
        Ok(read) => read,
        Err(name) => return stopped(host, style, &PlanStop::CannotOpen(name), messages),
    };
    match head {
        Ok(head) => plan_line(host, style, line, &head, end, files, messages),
        Err(fault) => {
            let stop = PlanStop::Head(line, fault, format);
            stopped(host, style, &stop, messages)
        }
    }
}

/// Executes the words, and returns the status.
fn answer_words<H: PlanHost, M: ByteOut>(host: &mut H, words: &[String], messages: &mut M) -> u8
    ensures { Words (record { input = H.Input.reads; file = H.Reader.reads; output = H.Output.writes })
        H.machine H.looks H.creates M.writes (record { opened = H.opened; unopened = H.unopened; closed = H.closed })
        (answer_of HELP.now VERSION.now) (texts words.now) host.old host.new messages.old messages.new result }
{
    if let Some(text) = answer_to(words, HELP, VERSION) {
        return show(host, text.as_bytes(), 0, messages);
    }
    let (style, words) = style::split(words);
    match parse_line(host.memory(), words) {
        Ok(line) => answer_line(host, style, &line, messages),
        Err(fault) => refuse_words(host, style, words, fault, messages),
    }
}

/// Refuses the words of a command line for this fault, and returns the status.
fn refuse_words<H: Console, M: ByteOut>(
    host: &mut H,
    style: Style,
    words: &[String],
    fault: LineFault,
    messages: &mut M,
) -> u8
    requires { fault ≡ LineFault.BadOption → line_of_words (texts words.now) ≡ Err LineFault.BadOption }
    ensures { Stops (record { input = H.Input.reads; file = H.Reader.reads; output = H.Output.writes })
        H.machine M.writes style (line_message (line_label fault)) (IsLineAdvice (texts words.now) fault) (status_of_line fault)
        host.old host.new messages.old messages.new result }
{
    match fault {
        LineFault::BadOption => {
            let stop = PlanStop::BadOption(refused_word(words));
            stopped(host, style, &stop, messages)
        }
        _ => stopped(host, style, &PlanStop::Line(fault), messages),
    }
}

/// Executes the program, and returns the status.
fn answer<H: PlanHost, M: ByteOut>(host: &mut H, messages: &mut M) -> u8
    ensures { PlanAnswers (record { input = H.Input.reads; file = H.Reader.reads; output = H.Output.writes })
        H.machine H.looks H.creates M.writes (record { opened = H.opened; unopened = H.unopened; closed = H.closed })
        (answer_of HELP.now VERSION.now) host.old host.new messages.old messages.new result }
{
    match host.words() {
        Ok(words) => answer_words(host, &words, messages),
        Err(error) => stopped(
            host,
            Style::Text,
            &PlanStop::Line(fault_of(&error)),
            messages,
        ),
    }
}

fn main(rt: HostRuntime) -> ExitCode {
    let mut host = rt;
    let mut messages = Counted::new(host.stderr());
    ExitCode::from(answer(&mut host, &mut messages))
}
