//! A disk and an input of whose bytes nothing is stated, as those of a system. One call of them fails, or the first write for which
//! there is no space; the disk has then done half of it.
ghost use Rattle.soxchain_job.specs.Unknown.{unknown_disk, unknown_input};
ghost use Rattle.std.specs.Prelude.{◌≡◌, ◌<◌, ◌≤◌, ◌+◌, IsErrOf, IsTrue, OnOk, length, true};
ghost use Rattle.std.proofs.Common.{arith};

use soxchain_job::{Disk, DiskFault, FileName, Files, Input, InputFault};
use std::alloc::{AllocError, Global};

/// Counts calls, of which one fails.
#[derive(Drop)]
pub struct Calls {
    /// Calls before the one that fails.
    pub left: u32,
    /// Bytes that can be written before a write fails for want of space.
    pub space: usize,
    /// How many have failed.
    pub failed: u32,
}

impl Calls {
    /// Calls of which the one after so many fails.
    pub fn new(left: u32) -> Calls {
        Calls {
            left,
            space: usize::MAX,
            failed: 0,
        }
    }

    /// Counts a call, and tells whether it fails.
    pub fn fails(&mut self) -> bool
        ensures later { self.old.failed ≤ self.new.failed }
        ensures counted { IsTrue result → self.old.failed < self.new.failed }
    {
        if self.left > 0 {
            self.left -= 1;
            return false;
        }
        self.fails_first()
    }

    /// Counts a call that writes so many bytes, and tells whether it fails.
    fn fails_to_write(&mut self, count: usize) -> bool
        ensures later { self.old.failed ≤ self.new.failed }
        ensures counted { IsTrue result → self.old.failed < self.new.failed }
    {
        if count > self.space {
            return self.fails_first();
        }
        self.space -= count;
        self.fails()
    }

    /// One call fails; those after it do not.
    fn fails_first(&mut self) -> bool
        ensures later { self.old.failed ≤ self.new.failed }
        ensures counted { IsTrue result → self.old.failed < self.new.failed }
    {
        if self.failed > 0 {
            return false;
        }
        self.failed = 1;
        true
    }
}

/// The answer of a call that fails, or does not.
pub fn answer(fails: bool) -> Result<(), DiskFault>
    ensures { IsErrOf result DiskFault.Failed → IsTrue fails }
{
    if fails {
        Err(DiskFault::Failed)
    } else {
        Ok(())
    }
}

/// The part of these bytes that a call writes.
fn written(bytes: &[u8], fails: bool) -> &[u8] {
    if fails {
        &bytes[..bytes.len() / 2]
    } else {
        bytes
    }
}

/// The file of this name.
pub fn file_of(files: &mut Files, name: FileName) -> &mut Option<Vec<u8>> {
    match name {
        FileName::Part => &mut files.part,
        FileName::NewCheckpoint => &mut files.new_checkpoint,
        FileName::Checkpoint => &mut files.checkpoint,
        FileName::Out => &mut files.out,
    }
}

/// Takes a file away.
pub fn taken(files: &mut Files, name: FileName) -> Option<Vec<u8>> {
    file_of(files, name).take()
}

/// Puts a file in the place of another.
pub fn put(files: &mut Files, name: FileName, file: Option<Vec<u8>>) {
    *file_of(files, name) = file;
}

/// A disk in memory.
#[derive(Drop)]
pub struct FailingDisk {
    pub alloc: Global,
    pub files: Files,
    pub calls: Calls,
}

impl FailingDisk {
    /// A disk with no files; the call after so many fails.
    pub fn new(alloc: Global, left: u32) -> FailingDisk {
        FailingDisk {
            alloc,
            files: Files {
                part: None,
                new_checkpoint: None,
                checkpoint: None,
                out: None,
            },
            calls: Calls::new(left),
        }
    }
}

impl Disk for FailingDisk {
    ghost model = { unknown_disk (λ d. d.calls.failed) };

    ghost shows = { λ d. tt };

    ghost counts_now = { λ d t c le now. tt };

    ghost only_now = { λ d c left. tt };

    ghost begun = { λ d. omega arith };

    fn read(&mut self, alloc: Global, name: FileName) -> Result<Option<Vec<u8>>, DiskFault> {
        answer(self.calls.fails())?;
        match file_of(&mut self.files, name) {
            None => Ok(None),
            Some(bytes) => Ok(Some(bytes.to_vec(alloc)?)),
        }
    }

    fn has(&mut self, name: FileName) -> Result<bool, DiskFault> {
        answer(self.calls.fails())?;
        Ok(file_of(&mut self.files, name).is_some())
    }

    fn write(&mut self, name: FileName, bytes: &[u8]) -> Result<(), DiskFault> {
        let fails = self.calls.fails_to_write(bytes.len());
        let file = written(bytes, fails).to_vec(self.alloc)?;
        put(&mut self.files, name, Some(file));
        answer(fails)
    }

    fn append(&mut self, name: FileName, bytes: &[u8]) -> Result<(), DiskFault> {
        let fails = self.calls.fails_to_write(bytes.len());
        let mut file = taken(&mut self.files, name).unwrap_or(Vec::new(self.alloc));
        file.extend_from_slice(written(bytes, fails))?;
        put(&mut self.files, name, Some(file));
        answer(fails)
    }

    fn truncate(&mut self, name: FileName, len: u64) -> Result<(), DiskFault> {
        let fails = self.calls.fails();
        let mut file = taken(&mut self.files, name).unwrap_or(Vec::new(self.alloc));
        if !fails {
            file.truncate(len as usize);
        }
        put(&mut self.files, name, Some(file));
        answer(fails)
    }

    fn sync(&mut self, _name: FileName) -> Result<(), DiskFault> {
        answer(self.calls.fails())
    }

    fn rename(&mut self, from: FileName, to: FileName) -> Result<(), DiskFault> {
        answer(self.calls.fails())?;
        let file = taken(&mut self.files, from);
        put(&mut self.files, to, file);
        Ok(())
    }

    fn remove(&mut self, name: FileName) -> Result<(), DiskFault> {
        answer(self.calls.fails())?;
        put(&mut self.files, name, None);
        Ok(())
    }
}

/// An input in memory.
#[derive(Drop)]
pub struct FailingInput {
    pub bytes: Vec<u8>,
    pub calls: Calls,
    /// How many bytes it has delivered.
    pub delivered: u64,
    /// Whether it is found to be another one when it is to be confirmed.
    pub is_changed: bool,
    /// It was confirmed after its last read.
    pub is_confirmed: bool,
}

impl Input for FailingInput {
    ghost model = { unknown_input (λ i. length i.bytes.items) (λ i. i.delivered) (λ i. i.calls.failed) (λ i. i.is_confirmed ≡ true) };

    ghost sized = { λ k. absurd k };

    fn len(&self) -> u64 {
        self.bytes.len() as u64
    }

    fn read(&mut self, at: u64, count: usize, piece: &mut Vec<u8>) -> Result<(), InputFault> {
        self.is_confirmed = false;
        if self.calls.fails() {
            return Err(InputFault::Failed);
        }
        let Some(delivered) = self.delivered.checked_add(count as u64) else {
            return Err(InputFault::Memory);
        };
        let at = at as usize;
        if piece
            .extend_from_slice(&self.bytes[at..at + count])
            .is_err()
        {
            return Err(InputFault::Memory);
        }
        self.delivered = delivered;
        Ok(())
    }

    fn confirm(&mut self) -> Result<(), InputFault> {
        if self.calls.fails() {
            return Err(InputFault::Failed);
        }
        if self.is_changed {
            return Err(InputFault::Changed);
        }
        self.is_confirmed = true;
        Ok(())
    }
}
