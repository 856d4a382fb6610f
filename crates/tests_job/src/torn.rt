//! A disk on which a crash loses or tears what was not synced. Nothing of its bytes is stated to a contract, as of those of a
//! system.
ghost use Rattle.soxchain_job.specs.Unknown.{unknown_disk};
ghost use Rattle.std.proofs.Common.{arith};
ghost use Rattle.std.specs.Prelude.{◌≡◌};

use crate::failing::{Calls, answer, file_of, put, taken};
use soxchain_job::{Disk, DiskFault, FileName, Files};
use std::alloc::{AllocError, Global};
use std::mem;

/// A change of a file that a call made and no sync has made durable.
#[derive(Drop)]
pub enum Change {
    Write(FileName, Vec<u8>),
    Append(FileName, Vec<u8>),
    Truncate(FileName, usize),
    Rename(FileName, FileName),
    Remove(FileName),
}

/// What a crash leaves of the changes that were not synced.
#[derive(Clone, Copy)]
pub struct Outcome {
    /// How many of them are whole, the oldest first.
    pub kept: usize,
    /// Whether half of the bytes of the next one are there too.
    pub is_torn: bool,
}

/// A disk in memory. The call after so many is the last one before the crash: what it changes may be lost, and it fails.
#[derive(Drop)]
pub struct TornDisk {
    pub alloc: Global,
    /// What is read.
    pub files: Files,
    /// What a crash leaves for certain.
    durable: Files,
    /// The changes of `files` that are not in `durable`, the oldest first.
    pub pending: Vec<Change>,
    pub calls: Calls,
}

/// No files.
fn no_files() -> Files {
    Files {
        part: None,
        new_checkpoint: None,
        checkpoint: None,
        out: None,
    }
}

/// A copy of a file.
fn copied(alloc: Global, file: &Option<Vec<u8>>) -> Result<Option<Vec<u8>>, AllocError> {
    match file {
        None => Ok(None),
        Some(bytes) => Ok(Some(bytes.to_vec(alloc)?)),
    }
}

impl Change {
    /// The file that it changes first.
    fn name(&self) -> FileName {
        match self {
            Change::Write(name, _) | Change::Append(name, _) => *name,
            Change::Truncate(name, _) | Change::Remove(name) => *name,
            Change::Rename(from, _) => *from,
        }
    }

    /// Makes the change, with the first `count` of its bytes.
    fn apply(&self, alloc: Global, files: &mut Files, count: usize) -> Result<(), AllocError> {
        match self {
            Change::Write(name, bytes) => {
                let file = bytes[..count.min(bytes.len())].to_vec(alloc)?;
                put(files, *name, Some(file));
            }
            Change::Append(name, bytes) => {
                let mut file = taken(files, *name).unwrap_or(Vec::new(alloc));
                file.extend_from_slice(&bytes[..count.min(bytes.len())])?;
                put(files, *name, Some(file));
            }
            Change::Truncate(name, len) => {
                let mut file = taken(files, *name).unwrap_or(Vec::new(alloc));
                file.truncate(*len);
                put(files, *name, Some(file));
            }
            Change::Rename(from, to) => {
                let file = taken(files, *from);
                put(files, *to, file);
            }
            Change::Remove(name) => put(files, *name, None),
        }
        Ok(())
    }

    /// Makes half of the change: of a write and an append. The others are made whole or not at all.
    fn tear(&self, alloc: Global, files: &mut Files) -> Result<(), AllocError> {
        match self {
            Change::Write(_, bytes) | Change::Append(_, bytes) => {
                self.apply(alloc, files, bytes.len() / 2)
            }
            _ => Ok(()),
        }
    }
}

/// Moves the changes of a file from those that are pending to the durable files.
fn persist(
    alloc: Global,
    name: FileName,
    pending: &mut Vec<Change>,
    durable: &mut Files,
) -> Result<(), AllocError> {
    let changes = mem::replace(pending, Vec::new(alloc));
    for change in changes {
        if change.name() == name {
            change.apply(alloc, durable, usize::MAX)?;
        } else {
            pending.push(change)?;
        }
    }
    Ok(())
}

impl TornDisk {
    /// A disk with an older output alone, durably. The crash comes at the call after so many.
    pub fn new(alloc: Global, left: u32, older: &[u8]) -> Result<TornDisk, AllocError> {
        let mut disk = TornDisk {
            alloc,
            files: no_files(),
            durable: no_files(),
            pending: Vec::new(alloc),
            calls: Calls::new(left),
        };
        disk.files.out = Some(older.to_vec(alloc)?);
        disk.durable.out = Some(older.to_vec(alloc)?);
        Ok(disk)
    }

    /// Makes a change that is not durable yet.
    fn change(&mut self, change: Change) -> Result<(), AllocError>
        ensures { self.new.calls ≡ self.old.calls }
    {
        change.apply(self.alloc, &mut self.files, usize::MAX)?;
        self.pending.push(change)?;
        Ok(())
    }

    /// Makes the changes of a file durable.
    fn make_durable(&mut self, name: FileName) -> Result<(), AllocError>
        ensures { self.new.calls ≡ self.old.calls }
    {
        persist(self.alloc, name, &mut self.pending, &mut self.durable)
    }

    /// A crash, and a new beginning: of the changes that were not synced this is left.
    pub fn crash(&mut self, outcome: Outcome) -> Result<(), AllocError> {
        let changes = mem::replace(&mut self.pending, Vec::new(self.alloc));
        for (place, change) in changes.into_iter().enumerate() {
            if place < outcome.kept {
                change.apply(self.alloc, &mut self.durable, usize::MAX)?;
            } else if place == outcome.kept && outcome.is_torn {
                change.tear(self.alloc, &mut self.durable)?;
            }
        }
        self.files = Files {
            part: copied(self.alloc, &self.durable.part)?,
            new_checkpoint: copied(self.alloc, &self.durable.new_checkpoint)?,
            checkpoint: copied(self.alloc, &self.durable.checkpoint)?,
            out: copied(self.alloc, &self.durable.out)?,
        };
        Ok(())
    }
}

impl Disk for TornDisk {
    ghost model = { unknown_disk (λ d. d.calls.failed) };

    ghost shows = { λ d. tt };

    ghost counts_now = { λ d t c le now. tt };

    ghost only_now = { λ d c left. tt };

    ghost begun = { λ d. omega arith };

    fn read(&mut self, alloc: Global, name: FileName) -> Result<Option<Vec<u8>>, DiskFault> {
        answer(self.calls.fails())?;
        Ok(copied(alloc, file_of(&mut self.files, name))?)
    }

    fn has(&mut self, name: FileName) -> Result<bool, DiskFault> {
        answer(self.calls.fails())?;
        Ok(file_of(&mut self.files, name).is_some())
    }

    fn write(&mut self, name: FileName, bytes: &[u8]) -> Result<(), DiskFault> {
        self.change(Change::Write(name, bytes.to_vec(self.alloc)?))?;
        answer(self.calls.fails())
    }

    fn append(&mut self, name: FileName, bytes: &[u8]) -> Result<(), DiskFault> {
        self.change(Change::Append(name, bytes.to_vec(self.alloc)?))?;
        answer(self.calls.fails())
    }

    fn truncate(&mut self, name: FileName, len: u64) -> Result<(), DiskFault> {
        self.change(Change::Truncate(name, len as usize))?;
        answer(self.calls.fails())
    }

    fn sync(&mut self, name: FileName) -> Result<(), DiskFault> {
        answer(self.calls.fails())?;
        Ok(self.make_durable(name)?)
    }

    fn rename(&mut self, from: FileName, to: FileName) -> Result<(), DiskFault> {
        self.change(Change::Rename(from, to))?;
        answer(self.calls.fails())?;
        Ok(self.make_durable(from)?)
    }

    fn remove(&mut self, name: FileName) -> Result<(), DiskFault> {
        self.change(Change::Remove(name))?;
        answer(self.calls.fails())?;
        Ok(self.make_durable(name)?)
    }
}
