//! Why a job is refused or stops, as this program tells it. Faults of the conversion have the messages of soxchain.

use crate::options::OptionFault;
use soxchain_job_rules::{self as rules, OwnFile, Refusal, StartRefusal, advice_of};
use std::alloc::{AllocError, AllocFailed};
use std::{fmt, io};

/// Why nothing more is done.
#[derive(Drop)]
pub enum Stop<'a> {
    /// A message of soxchain was written, and this is the status.
    Reported(u8),
    /// A fault of the job.
    Fault(JobFault<'a>),
}

/// Why a job is refused or stops. Nothing is lost: the checkpoint, where there is one, is as the last run left it.
#[derive(Drop)]
pub enum JobFault<'a> {
    /// The options are refused.
    Option(OptionFault<'a>),
    /// IN or OUT is a standard stream.
    StandardStream,
    /// An input or OUT is no regular file.
    NotAFile(&'a str),
    /// IN does not say how long it is.
    NoSize(&'a str),
    /// The sound has more than 2^40 frames.
    TooLong,
    /// No memory was found.
    Memory,
    /// A call on this file failed.
    File(&'a str, io::Error),
    /// A file of the job is this input.
    IsInput(&'a str, &'a str),
    /// Two files of the job are one.
    IsOwn(&'a str, &'a str),
    /// The name of the record is that of another file of the job.
    RecordIs(OwnFile),
    /// What has this name is no file of a job.
    Foreign(&'a str),
    /// Another run has the job.
    Locked(&'a str),
    /// OUT.part has no checkpoint.
    NoCheckpoint(&'a str),
    /// The checkpoint is of another version.
    Version(&'a str, u64),
    /// The checkpoint is damaged.
    Damaged(&'a str),
    /// The job was begun with other words.
    OtherWords,
    /// A coefficient file has changed.
    OtherCoefficients,
    /// IN has another length.
    OtherLength,
    /// IN was changed after the job began.
    OtherTime,
    /// The first bytes of IN are not those that were read.
    OtherInput(u64),
    /// The part is not what was written.
    OtherPart(&'a str),
    /// The part is not there.
    PartMissing(&'a str),
    /// The part is not there, and OUT is not what was written.
    OtherOut(&'a str),
    /// IN changed while it was read.
    Changed,
}

/// What helps.
#[derive(Clone, Copy, Debug, PartialEq, Eq)]
enum Advice<'a> {
    /// To give the job up, and to begin it anew.
    Abandon,
    /// To move the file of this name away.
    MoveAway(&'a str),
    /// To repeat the command.
    Repeat,
    /// Nothing that this program knows.
    None,
}

impl<'a> From<JobFault<'a>> for Stop<'a> {
    fn from(fault: JobFault<'a>) -> Self {
        Stop::Fault(fault)
    }
}

impl From<AllocError> for Stop<'_> {
    fn from(_: AllocError) -> Self {
        Stop::Fault(JobFault::Memory)
    }
}

impl From<AllocError> for JobFault<'_> {
    fn from(_: AllocError) -> Self {
        JobFault::Memory
    }
}

impl<T: Drop> From<AllocFailed<T>> for JobFault<'_> {
    fn from(_: AllocFailed<T>) -> Self {
        JobFault::Memory
    }
}

impl<'a> JobFault<'a> {
    /// The status that the program ends with.
    pub fn status(&self) -> u8 {
        match self {
            JobFault::Option(_) | JobFault::StandardStream => 1,
            _ => 2,
        }
    }

    /// The refusal of a start that it is.
    fn refusal(&self) -> Option<StartRefusal> {
        Some(match self {
            JobFault::NoCheckpoint(_) => StartRefusal::PartWithoutCheckpoint,
            JobFault::OtherPart(_) => StartRefusal::OtherPart,
            JobFault::PartMissing(_) => StartRefusal::PartMissing,
            JobFault::OtherOut(_) => StartRefusal::OtherOut,
            JobFault::OtherInput(_) => StartRefusal::OtherInput,
            JobFault::Version(_, _)
            | JobFault::Damaged(_)
            | JobFault::OtherWords
            | JobFault::OtherCoefficients
            | JobFault::OtherLength
            | JobFault::OtherTime => StartRefusal::OtherJob,
            _ => return None,
        })
    }

    /// What helps.
    fn advice(&self) -> Advice<'a> {
        match self {
            JobFault::Foreign(name) => return Advice::MoveAway(name),
            JobFault::Changed => return Advice::Repeat,
            _ => {}
        }
        let Some(refusal) = self.refusal() else {
            return Advice::None;
        };
        match (advice_of(&Refusal::Start(refusal)), self.text()) {
            (rules::Advice::Abandon, _) => Advice::Abandon,
            (rules::Advice::MoveAway(_), Some((_, name, _))) => Advice::MoveAway(name),
            _ => Advice::None,
        }
    }

    /// Tells the fault on standard error, and returns the status. A failed write of it changes nothing.
    pub fn tell(&self, rt: &HostRuntime) -> u8 {
        let _reported = eprintln!(rt; "soxchain-job: {self}");
        let advice = self.advice();
        if advice != Advice::None {
            let _advised = eprintln!(rt; "soxchain-job: {advice}");
        }
        self.status()
    }
}

impl fmt::Display for Advice<'_> {
    fn fmt<W: fmt::Write>(&self, f: &mut fmt::Formatter<W>) -> fmt::Result {
        match self {
            Advice::Abandon => f.write_str(
                "--abandon removes OUT.part and the checkpoint, and the job begins anew",
            ),
            Advice::MoveAway(name) => write!(f, "move {name} away: it may be somebody's"),
            Advice::Repeat => f.write_str(
                "the same command compares it, and goes on or says why not",
            ),
            Advice::None => Ok(()),
        }
    }
}

impl fmt::Display for OptionFault<'_> {
    fn fmt<W: fmt::Write>(&self, f: &mut fmt::Formatter<W>) -> fmt::Result {
        match self {
            OptionFault::Unknown(option) => write!(f, "there is no option {option}: see --help"),
            OptionFault::NotAlone(option) => write!(f, "{option} stands alone: see --help"),
            OptionFault::NoValue(option) => write!(f, "{option} takes a value: see --help"),
            OptionFault::BadValue(option, value) => {
                write!(f, "{option} does not take {value}: see --help")
            }
        }
    }
}

/// The text of a fault, in parts: before the name of a file, the name, and after it.
type Text<'a> = (&'static str, &'a str, &'static str);

impl<'a> JobFault<'a> {
    /// The text of a fault that names at most one file; None of another one.
    fn text(&self) -> Option<Text<'a>> {
        Some(match self {
            JobFault::StandardStream => (
                "IN and OUT are files: a standard stream cannot be continued",
                "",
                "",
            ),
            JobFault::NotAFile(name) => ("", name, " is no regular file"),
            JobFault::NoSize(name) => ("", name, " does not say how long it is"),
            JobFault::TooLong => ("IN has more than 2^40 frames", "", ""),
            JobFault::Memory => ("out of memory", "", ""),
            JobFault::Foreign(name) => ("", name, " is no file of a job"),
            JobFault::Locked(name) => ("another run has this job: ", name, " is locked"),
            JobFault::NoCheckpoint(name) => ("", name, " exists, but no checkpoint of a job"),
            JobFault::Damaged(name) => ("", name, " is damaged"),
            JobFault::OtherWords => ("the job was begun with other words", "", ""),
            JobFault::OtherCoefficients => ("a coefficient file has changed", "", ""),
            JobFault::OtherLength => ("IN has changed its length", "", ""),
            JobFault::OtherTime => ("IN was changed after the job began", "", ""),
            JobFault::OtherPart(name) => ("", name, " is not what was written"),
            JobFault::PartMissing(name) => ("", name, " is missing"),
            JobFault::OtherOut(name) => (
                "",
                name,
                " is not what was written, and OUT.part is missing",
            ),
            JobFault::Changed => ("IN changed while it was read", "", ""),
            _ => return None,
        })
    }
}

impl fmt::Display for JobFault<'_> {
    fn fmt<W: fmt::Write>(&self, f: &mut fmt::Formatter<W>) -> fmt::Result {
        if let Some((before, name, after)) = self.text() {
            return write!(f, "{before}{name}{after}");
        }
        match self {
            JobFault::Option(fault) => write!(f, "{fault}"),
            JobFault::File(name, error) => write!(f, "{name}: {error}"),
            JobFault::IsInput(name, input) => write!(f, "{name} is the input {input}"),
            JobFault::IsOwn(name, other) => write!(f, "{name} and {other} are one file"),
            JobFault::RecordIs(file) => write!(f, "the record has the name of {file}"),
            JobFault::Version(name, version) => write!(
                f,
                "{name} is of version {version}, which this program does not read"
            ),
            JobFault::OtherInput(count) => write!(
                f,
                "IN has changed: its first {count} bytes are not those that were read"
            ),
            _ => Ok(()),
        }
    }
}
