//! The program soxchain-job: a conversion from a file to a file that survives a kill or a power cut.
//!
//! The conversion itself is that of soxchain, fed piece by piece by `run_once` of soxchain_job. What lies around it reads words, opens
//! files, compares what an earlier run left, and writes the record.
#![tactic(auto)]

mod convert;
mod digests;
mod fault;
mod folder;
mod hashed;
mod help;
mod input;
mod lock;
mod options;
mod own_files;
mod pacing;
mod places;
mod progress;
mod record;
mod resume;
mod sound_file;
mod status;

use convert::convert;
use fault::{JobFault, Stop};
use fx_frame::{ByteOut, Counted};
use fx_plan::{CommandLine, Endpoint, parse_line};
use help::HELP;
use options::{Options, Task, read_options};
use soxchain::inner::{MessageWriter, refuse_line, tell_cannot_open};
use soxchain_common::{Console, VERSION, answer_to, fault_of};
use soxchain_job_rules::{JobNames, NamesFault};
use status::{abandon, show_status};
use std::process::ExitCode;

/// The names of IN and OUT.
fn named<'a>(line: &'a CommandLine) -> Result<(&'a str, &'a str), JobFault<'a>> {
    match (line.input(), line.output()) {
        (Endpoint::Named(_), Endpoint::Named("")) => Err(JobFault::NotAFile("")),
        (Endpoint::Named(input), Endpoint::Named(output)) => Ok((input, output)),
        _ => Err(JobFault::StandardStream),
    }
}

/// Does what the options ask for, and returns the status.
fn do_task<'a, M: ByteOut>(
    host: &mut HostRuntime,
    options: &'a Options<'a>,
    line: &'a CommandLine,
    input: &'a str,
    names: &'a JobNames,
    message_writer: &mut MessageWriter<M>,
) -> Result<u8, Stop<'a>> {
    match options.task {
        Task::Convert => {
            convert(host, options, line, input, names, message_writer)?;
            Ok(0)
        }
        Task::Status => Ok(show_status(host, options.line, names)?),
        Task::Abandon => {
            abandon(host, line, input, names)?;
            Ok(0)
        }
    }
}

/// Executes a command line for a job of these names, and returns the status.
fn work_job<M: ByteOut>(
    host: &mut HostRuntime,
    options: &Options<'_>,
    line: &CommandLine,
    input: &str,
    names: &JobNames,
    message_writer: &mut MessageWriter<M>,
) -> u8 {
    match do_task(host, options, line, input, names, message_writer) {
        Ok(status) => status,
        Err(Stop::Reported(status)) => status,
        Err(Stop::Fault(fault)) => fault.tell(host),
    }
}

/// Executes a command line, and returns the status.
fn work_line<M: ByteOut>(
    host: &mut HostRuntime,
    options: &Options<'_>,
    line: &CommandLine,
    message_writer: &mut MessageWriter<M>,
) -> u8 {
    let (input, output) = match named(line) {
        Ok(both) => both,
        Err(fault) => return fault.tell(host),
    };
    match JobNames::of(host.alloc(), output, options.record) {
        Ok(names) => work_job(host, options, line, input, &names, message_writer),
        Err(NamesFault::Memory) => JobFault::Memory.tell(host),
        Err(NamesFault::RecordIs(file)) => JobFault::RecordIs(file).tell(host),
    }
}

/// Executes the words, and returns the status.
fn work<M: ByteOut>(host: &mut HostRuntime, message_writer: &mut MessageWriter<M>) -> u8 {
    let words = match host.words() {
        Ok(words) => words,
        Err(error) => return refuse_line(fault_of(&error), message_writer),
    };
    if let Some(text) = answer_to(&words, HELP, VERSION) {
        return match print!(host; "{text}") {
            Ok(()) => 0,
            Err(_) => {
                tell_cannot_open(message_writer, "-");
                2
            }
        };
    }
    let options = match read_options(&words) {
        Ok(options) => options,
        Err(fault) => return JobFault::Option(fault).tell(host),
    };
    match parse_line(host.alloc(), options.line) {
        Ok(line) => work_line(host, &options, &line, message_writer),
        Err(fault) => refuse_line(fault, message_writer),
    }
}

fn main(rt: HostRuntime) -> ExitCode {
    let mut host = rt;
    let mut messages = Counted::new(host.stderr());
    let mut message_writer = MessageWriter::new(&mut messages);
    ExitCode::from(work(&mut host, &mut message_writer))
}
