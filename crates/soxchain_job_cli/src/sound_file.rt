//! IN as the input of a job.
ghost use Rattle.std.specs.Prelude.{◌≡◌, ◌<◌, ◌≤◌, true};
ghost use Rattle.soxchain_job.specs.Unknown.{unknown_input};

use crate::own_files::file_id;
use crate::progress::ProgressLine;
use soxchain_job::{Input, InputFault};
use soxchain_job_rules::{InputCheck, InputState, Stamp, input_check};
use std::fs::{self, File, Metadata};
use std::io::{self, ErrorKind};
use std::os::unix::fs::{FileExt, MetadataExt};

/// A time of the system: seconds since 1970, before that negative, and nanoseconds.
fn stamp(seconds: i64, nanoseconds: i64) -> Stamp {
    Stamp {
        seconds,
        nanoseconds: u32::try_from(nanoseconds).unwrap_or(0),
    }
}

/// What the system says of IN.
pub fn state_of(found: &Metadata) -> InputState {
    InputState {
        file: file_id(found),
        size: found.len(),
        modified: stamp(found.mtime(), found.mtime_nsec()),
        changed: stamp(found.ctime(), found.ctime_nsec()),
    }
}

/// A file that is read from any place, and the line of progress.
#[derive(Drop)]
pub struct SoundFile<'a> {
    rt: HostRuntime,
    name: &'a str,
    file: File,
    /// What the system said of it when it was opened.
    before: InputState,
    delivered: u64,
    failures: u64,
    /// It was found to be as it was, after its last read.
    is_confirmed: bool,
    progress: Option<ProgressLine>,
    /// Why the last call failed.
    error: Option<io::Error>,
}

impl<'a> SoundFile<'a> {
    /// An opened file of this name, and what the system said of it then.
    pub fn new(
        rt: HostRuntime,
        name: &'a str,
        file: File,
        before: InputState,
        progress: Option<ProgressLine>,
    ) -> SoundFile<'a> {
        SoundFile {
            rt,
            name,
            file,
            before,
            delivered: 0,
            failures: 0,
            is_confirmed: false,
            progress,
            error: None,
        }
    }

    /// Why the last call failed.
    pub fn into_error(self) -> Option<io::Error> {
        self.error
    }

    /// Ends the line of progress.
    pub fn finish(&self) {
        if let Some(progress) = &self.progress {
            progress.finish();
        }
    }

    /// Shows the progress at this byte of IN.
    fn show(&mut self, at: u64)
        ensures size { self.new.before.size ≡ self.old.before.size }
        ensures delivered { self.new.delivered ≡ self.old.delivered }
        ensures failures { self.new.failures ≡ self.old.failures }
    {
        if let Some(progress) = &mut self.progress {
            progress.update(at);
        }
    }

    /// Whether IN is still the file that it was: the open one, and the one of its name.
    fn is_unchanged(&self) -> io::Result<bool> {
        let opened = state_of(&self.file.metadata()?);
        let named = state_of(&fs::metadata(&self.rt, self.name)?);
        let is_same = input_check(&self.before, &opened) == InputCheck::Same;
        Ok(is_same && input_check(&self.before, &named) == InputCheck::Same)
    }

    /// Counts a call that failed. Memory is answered where no count is left: 2^64 calls never fail.
    fn fail(&mut self, error: io::Error) -> InputFault
        ensures size { self.new.before.size ≡ self.old.before.size }
        ensures delivered { self.new.delivered ≡ self.old.delivered }
        ensures later { self.old.failures ≤ self.new.failures }
        ensures failed { result ≡ InputFault.Failed → self.old.failures < self.new.failures }
        ensures named { result ≡ InputFault.Changed → ⊥ }
    {
        let Some(failures) = self.failures.checked_add(1) else {
            return InputFault::Memory;
        };
        self.failures = failures;
        self.error = Some(error);
        InputFault::Failed
    }
}

impl Input for SoundFile<'_> {
    // No contract states what a file contains.
    ghost model = { unknown_input (λ s. s.before.size) (λ s. s.delivered) (λ s. s.failures) (λ s. s.is_confirmed ≡ true) };

    ghost sized = { λ k. absurd k };

    fn len(&self) -> u64 {
        self.before.size
    }

    fn read(&mut self, at: u64, count: usize, piece: &mut Vec<u8>) -> Result<(), InputFault> {
        self.is_confirmed = false;
        // Memory is answered where no count is left: no file has 2^64 bytes.
        let (Some(delivered), Some(end)) = (
            self.delivered.checked_add(count as u64),
            piece.len().checked_add(count),
        ) else {
            return Err(InputFault::Memory);
        };
        let start = piece.len();
        let Ok(()) = piece.resize(end, 0) else {
            return Err(InputFault::Memory);
        };
        match self.file.read_exact_at(&mut piece[start..], at) {
            Ok(()) => {
                self.delivered = delivered;
                self.show(at.saturating_add(count as u64));
                Ok(())
            }
            // It has become shorter.
            Err(error) if error.kind() == ErrorKind::UnexpectedEof => Err(InputFault::Changed),
            Err(error) => Err(self.fail(error)),
        }
    }

    fn confirm(&mut self) -> Result<(), InputFault> {
        match self.is_unchanged() {
            Ok(true) => {
                self.is_confirmed = true;
                Ok(())
            }
            Ok(false) => Err(InputFault::Changed),
            Err(error) => Err(self.fail(error)),
        }
    }
}
