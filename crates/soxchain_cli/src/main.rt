//! The program soxchain: from a file or standard input to a file or standard output, messages on standard error.
#![tactic(auto)]

ghost use Rattle.soxchain_common.specs.About.{answer_of};
ghost use Rattle.soxchain_cli.specs.Named.{file_writer};
ghost use Rattle.soxchain_cli.specs.Working.{CliAnswers, Works, devices};

mod files;
mod help;
mod host;
mod same_file;

use files::{cannot_open, process};
use fx_frame::{ByteOut, Counted};
use fx_plan::{CommandLine, LineFault, parse_line};
use help::{HELP, tell_answer};
use host::Host;
use soxchain::inner::{MessageWriter, refuse_line};
use soxchain_common::{Console, FilesFault, VERSION, answer_to, fault_of, read_files};
use std::process::ExitCode;

/// Executes a command line, and returns the status.
fn work_line<H: Host, M: ByteOut>(
    host: &mut H,
    line: &CommandLine,
    message_writer: &mut MessageWriter<M>,
) -> u8
    ensures { Works (devices H.Input.reads H.Reader.reads H.Output.writes (file_writer H.Made.writes H.Made.rewinds))
        H.machine H.looks H.file_calls M.writes (record { opened = H.opened; unopened = H.unopened; closed = H.closed })
        line.now host.old host.new message_writer.old message_writer.new result }
{
    let files = match read_files(host.memory(), host, line) {
        Ok(files) => files,
        Err(FilesFault::CannotRead(name)) => return cannot_open(message_writer, name),
        Err(FilesFault::Memory) => return refuse_line(LineFault::Memory, message_writer),
    };
    process(host, line, &files, message_writer)
}

/// Executes the words, and returns the status.
fn work<H: Host, M: ByteOut>(host: &mut H, message_writer: &mut MessageWriter<M>) -> u8
    ensures { CliAnswers (devices H.Input.reads H.Reader.reads H.Output.writes (file_writer H.Made.writes H.Made.rewinds))
        H.machine H.looks H.file_calls M.writes (record { opened = H.opened; unopened = H.unopened; closed = H.closed })
        (answer_of HELP.now VERSION.now) host.old host.new message_writer.old message_writer.new result }
{
    let words = match host.words() {
        Ok(words) => words,
        Err(error) => return refuse_line(fault_of(&error), message_writer),
    };
    if let Some(answer) = answer_to(&words, HELP, VERSION) {
        return tell_answer(host, answer, message_writer);
    }
    match parse_line(host.memory(), &words) {
        Ok(line) => work_line(host, &line, message_writer),
        Err(fault) => refuse_line(fault, message_writer),
    }
}

fn main(rt: HostRuntime) -> ExitCode {
    let mut host = rt;
    let mut messages = Counted::new(host.stderr());
    let mut message_writer = MessageWriter::new(&mut messages);
    ExitCode::from(work(&mut host, &mut message_writer))
}
