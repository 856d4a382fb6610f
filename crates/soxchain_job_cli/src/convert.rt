//! One run of a job: what is checked before it, the run, and what is reported after it.
ghost use Rattle.fx_chain.specs.Chain.{IsNewChain};
ghost use Rattle.fx_plan.specs.Planning.{planning};
ghost use Rattle.soxchain_job.specs.Known.{BothKnown};

use crate::digests::split_summary;
use crate::fault::{JobFault, Stop};
use crate::folder::{JobFolder, JobInfo};
use crate::hashed::HashedConversion;
use crate::input::{OpenedInput, open_input};
use crate::lock::JobLock;
use crate::options::{Options, ShowProgress};
use crate::own_files::{create_own, look, remove_own};
use crate::pacing::Pacer;
use crate::places::check_names;
use crate::progress::{ProgressLine, SoundPlace};
use crate::record::{RecordBase, report_of};
use crate::resume::{Comparer, Heads, StartPoint, start_point};
use crate::sound_file::SoundFile;
use fx_frame::ByteOut;
use fx_plan::{CommandLine, LineFault, Plan};
use fx_plan_lengths::frames_through;
use fx_sound::{HeadBytes, MAX_FRAMES, head_bytes};
use soxchain::inner::{MessageWriter, Prepared, refuse_line, tell_cannot_open, tell_warnings};
use soxchain_common::{Console, FilesFault, is_input, read_files};
use soxchain_job::{Conversion, Disk, Fault, Input, Pacing, run_once};
use soxchain_job_chain::ChainConversion;
use soxchain_job_file::{Identity, Stamp};
use soxchain_job_rules::{InputState, JobNames, OwnFile};
use soxchain_xxh64::xxh64;
use std::alloc::{AllocError, Global};
use std::fs::OpenOptions;
use std::io::{ErrorKind, IsTerminal};

/// The bytes of the coefficient files of a line.
fn coefficients<'a, M: ByteOut>(
    host: &mut HostRuntime,
    line: &'a CommandLine,
    message_writer: &mut MessageWriter<M>,
) -> Result<Vec<Vec<u8>>, Stop<'a>> {
    match read_files(host.alloc(), host, line) {
        Ok(files) => Ok(files),
        Err(FilesFault::CannotRead(name)) => {
            tell_cannot_open(message_writer, name);
            Err(Stop::Reported(2))
        }
        Err(FilesFault::Memory) => Err(Stop::Reported(refuse_line(
            LineFault::Memory,
            message_writer,
        ))),
    }
}

/// Refuses an OUT that is IN, as soxchain does, and one that is there and is no regular file.
fn check_output<'a, M: ByteOut>(
    host: &mut HostRuntime,
    line: &CommandLine,
    out: &'a str,
    message_writer: &mut MessageWriter<M>,
) -> Result<(), Stop<'a>> {
    if is_input(host, line.input(), out) {
        tell_cannot_open(message_writer, out);
        return Err(Stop::Reported(2));
    }
    match look(host, out) {
        Ok(Some(found)) if !found.is_file() => Err(JobFault::NotAFile(out).into()),
        _ => Ok(()),
    }
}

/// Refuses an OUT that is there and may not be written, as soxchain does. Nothing is written to it.
fn check_writable<'a, M: ByteOut>(
    rt: &HostRuntime,
    out: &'a str,
    message_writer: &mut MessageWriter<M>,
) -> Result<(), Stop<'a>> {
    match OpenOptions::new().write(true).open(rt, out) {
        Err(error) if error.kind() != ErrorKind::NotFound => {
            tell_cannot_open(message_writer, out);
            Err(Stop::Reported(2))
        }
        _ => Ok(()),
    }
}

/// What a job is known by.
fn identity_of(
    alloc: Global,
    words: &[String],
    files: &[Vec<u8>],
    input: &InputState,
) -> Result<Identity, AllocError> {
    let mut identity = Identity {
        words: Vec::new(alloc),
        files: Vec::new(alloc),
        size: input.size,
        modified: Stamp {
            seconds: input.modified.seconds,
            nanoseconds: input.modified.nanoseconds,
        },
    };
    for word in words {
        identity.words.push(word.clone()?)?;
    }
    for file in files {
        identity.files.push(xxh64(file))?;
    }
    Ok(identity)
}

/// The head of an output of so many frames.
fn head_of(plan: &Plan, frames: u64) -> HeadBytes {
    head_bytes(
        plan.kind(),
        plan.rate(),
        plan.channels(),
        plan.coding(),
        Some(frames),
    )
}

/// Tries the place of the record: a file is made there and removed.
fn try_record<'a>(rt: &HostRuntime, names: &'a JobNames) -> Result<(), JobFault<'a>> {
    let name = names.name_of(OwnFile::NewRecord);
    let tried = match remove_own(rt, name) {
        Ok(()) => match create_own(rt, name) {
            Ok(_made) => remove_own(rt, name),
            Err(error) => Err(error),
        },
        Err(error) => Err(error),
    };
    match tried {
        Ok(()) => Ok(()),
        Err(error) => Err(JobFault::File(name, error)),
    }
}

/// The line of progress, where it is to be shown.
fn progress_line(
    rt: HostRuntime,
    show: ShowProgress,
    place: SoundPlace,
    at: u64,
) -> Option<ProgressLine> {
    let is_shown = match show {
        ShowProgress::Always => true,
        ShowProgress::Never => false,
        ShowProgress::Auto => rt.stderr().is_terminal(),
    };
    if is_shown {
        ProgressLine::new(rt, place, at).ok()
    } else {
        None
    }
}

/// The fault of a run that ended without OUT.
fn fault_of<'a>(
    fault: Fault,
    input: &'a str,
    names: &'a JobNames,
    sound: SoundFile,
    folder: JobFolder,
) -> JobFault<'a> {
    match fault {
        Fault::Memory => JobFault::Memory,
        Fault::Disk => match folder.into_error() {
            Some((file, error)) => JobFault::File(names.name_of(file), error),
            None => JobFault::Memory,
        },
        Fault::Input => match sound.into_error() {
            Some(error) => JobFault::File(input, error),
            None => JobFault::Memory,
        },
        Fault::InputChanged => JobFault::Changed,
        Fault::TooLong => JobFault::TooLong,
        Fault::BadCheckpoint => JobFault::Damaged(names.name_of(OwnFile::Checkpoint)),
    }
}

/// Runs a job over a disk and an input of whose bytes nothing is known. So any job does.
fn run_unknown<C: Conversion, D: Disk, I: Input, P: Pacing>(
    alloc: Global,
    disk: &mut D,
    conversion: &mut C,
    input: &mut I,
    pacing: &mut P,
) -> Result<(), Fault>
    requires { BothKnown D.model I.model → ⊥ }
{
    run_once(alloc, disk, conversion, input, pacing)
}

/// What is done for a job that is locked.
#[derive(Drop)]
struct Work<'a> {
    rt: HostRuntime,
    options: &'a Options<'a>,
    line: &'a CommandLine,
    input: &'a str,
    names: &'a JobNames,
}

impl<'a> Work<'a> {
    /// What this run continues from. Where that is another run, the place is reported.
    fn start(
        &self,
        opened: &mut OpenedInput,
        head: &[u8],
        identity: &Identity,
    ) -> Result<StartPoint, JobFault<'a>> {
        let rt = &self.rt;
        let comparer = Comparer {
            rt,
            heads: Heads::One(head),
            with_sha256: self.options.has_sha256,
        };
        let input = (self.input, &mut opened.file);
        let start = start_point(&comparer, input, self.names, identity)?;
        try_record(rt, self.names)?;
        if let Some(taken) = start.continued {
            opened.report_place(rt, taken);
        }
        Ok(start)
    }

    /// Converts from where the last run stopped, and tells the warnings.
    fn run<M: ByteOut>(
        &self,
        mut opened: OpenedInput,
        prepared: Prepared,
        identity: Identity,
        message_writer: &mut MessageWriter<M>,
    ) -> Result<(), Stop<'a>>
        requires { IsNewChain (planning prepared.plan) prepared.chain }
    {
        let (rt, names) = (self.rt, self.names);
        let alloc = rt.alloc();
        let Prepared { plan, chain } = prepared;
        let frames_out = frames_through(&plan, opened.frames());
        let head = head_of(&plan, frames_out);
        let StartPoint {
            runs,
            continued,
            hashes,
            part,
            found,
        } = self.start(&mut opened, head.as_slice(), &identity)?;
        let at = continued.unwrap_or(0);
        let progress = progress_line(rt, self.options.progress, opened.place(), at);
        let record = RecordBase::of(alloc, self.options.line, &plan, self.options.has_sha256)?;
        let OpenedInput {
            file,
            state,
            head_size,
            ..
        } = opened;
        let chain = ChainConversion::new(alloc, plan, chain, head_size, frames_out)?;
        let mut conversion = HashedConversion::new(chain, hashes);
        let info = JobInfo {
            identity,
            runs,
            record,
        };
        let mut folder = JobFolder::new(rt, names, info, part, found);
        let mut sound = SoundFile::new(rt, self.input, file, state, progress);
        let mut pacer = Pacer::new(rt, self.options.seconds);
        let result = run_unknown(alloc, &mut folder, &mut conversion, &mut sound, &mut pacer);
        sound.finish();
        if let Err(fault) = result {
            return Err(fault_of(fault, self.input, names, sound, folder).into());
        }
        if let Some((counts, _digests)) = folder.summary().and_then(split_summary) {
            tell_warnings(message_writer, self.line, &report_of(counts));
        }
        Ok(())
    }
}

/// Begins or continues the job of a line.
pub fn convert<'a, M: ByteOut>(
    host: &mut HostRuntime,
    options: &'a Options<'a>,
    line: &'a CommandLine,
    input: &'a str,
    names: &'a JobNames,
    message_writer: &mut MessageWriter<M>,
) -> Result<(), Stop<'a>> {
    check_output(host, line, names.name_of(OwnFile::Out), message_writer)?;
    check_names(host, line, input, names)?;
    check_writable(host, names.name_of(OwnFile::Out), message_writer)?;
    let files = coefficients(host, line, message_writer)?;
    let (opened, prepared) = open_input(host, line, input, &files, message_writer)?;
    if opened.frames() > MAX_FRAMES {
        return Err(JobFault::TooLong.into());
    }
    let rt = *host;
    let identity = identity_of(rt.alloc(), options.line, &files, &opened.state)?;
    let lock = JobLock::take(rt, names)?;
    let work = Work {
        rt,
        options,
        line,
        input,
        names,
    };
    let result = work.run(opened, prepared, identity, message_writer);
    lock.release();
    result
}
