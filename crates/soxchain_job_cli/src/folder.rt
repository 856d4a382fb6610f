//! The folder of OUT as the disk of a job.
ghost use Rattle.std.specs.Prelude.{◌≡◌, ◌<◌, ◌≤◌, IsErrOf};
ghost use Rattle.std.proofs.Common.{arith};
ghost use Rattle.soxchain_job.specs.Unknown.{unknown_disk};
ghost use Rattle.soxchain_job.specs.Disk.{CountsFaults};

use crate::digests::{Digests, FileHash, split_summary};
use crate::own_files::{
    create_own, file_id, look, no_regular_file, open_to_read, read_own, remove_own, sync_folder,
    sync_own,
};
use crate::record::{RecordBase, seconds_now};
use soxchain_job::{Checkpoint, Disk, DiskFault, FileName, decode_checkpoint};
use soxchain_job_file::{Identity, Runs, keep_checkpoint, read_job_file, write_job_file};
use soxchain_job_rules::{JobNames, OwnFile, is_own_part};
use soxchain_xxh64::hash_front;
use std::alloc::{AllocError, Global};
use std::fs::{self, File, Metadata, TryLockError};
use std::io::{self, ErrorKind, Seek, SeekFrom, Write};
use std::os::unix::fs::{MetadataExt, PermissionsExt, fchown};

/// The bits of a mode that a file keeps.
const MODE_BITS: u32 = 0o7777;

/// The bits of a mode that say who may read, write and run a file.
const ACCESS_BITS: u32 = 0o777;

/// Those of the group.
const GROUP_BITS: u32 = 0o070;

/// Those of the owner who reads and writes.
const OWNER_BITS: u32 = 0o600;

/// What a run finds, and what it writes into its files.
#[derive(Drop)]
pub struct JobInfo {
    pub identity: Identity,
    pub runs: Runs,
    pub record: RecordBase,
}

/// The folder of OUT: the files of a job, and its record, which is written once OUT has its name.
#[derive(Drop)]
pub struct JobFolder<'a> {
    rt: HostRuntime,
    names: &'a JobNames,
    info: JobInfo,
    /// The part, opened and locked, to be read, and written at its end.
    part: Option<File>,
    /// A new checkpoint that was written and not renamed yet.
    new_checkpoint: Option<File>,
    /// What the last checkpoint that was written or read records of a complete output.
    summary: Option<Vec<u8>>,
    /// What an output is known by that was complete when the run began.
    found: Option<Digests>,
    faults: u64,
    /// The file whose call failed last, and why.
    error: Option<(OwnFile, io::Error)>,
}

/// The file of a job that a disk of it has under this name.
fn own_file(name: FileName) -> OwnFile {
    match name {
        FileName::Part => OwnFile::Part,
        FileName::NewCheckpoint => OwnFile::NewCheckpoint,
        FileName::Checkpoint => OwnFile::Checkpoint,
        FileName::Out => OwnFile::Out,
    }
}

/// What a checkpoint records of a complete output; None where it is in progress.
fn summary_of(alloc: Global, checkpoint: &[u8]) -> Result<Option<Vec<u8>>, AllocError> {
    match decode_checkpoint(checkpoint) {
        Some(Checkpoint::Complete(summary)) => Ok(Some(summary.to_vec(alloc)?)),
        _ => Ok(None),
    }
}

/// The error of a part that is not what was written.
fn changed_part() -> io::Error {
    io::Error::new(
        ErrorKind::InvalidData,
        "it is not what was written: it was changed, replaced or removed meanwhile",
    )
}

/// Gives a file this mode, unless it has it.
fn set_mode(file: &File, mode: u32) -> io::Result<()> {
    let found = file.metadata()?;
    if found.mode() & MODE_BITS == mode {
        return Ok(());
    }
    let mut rights = found.permissions();
    rights.set_mode(mode);
    file.set_permissions(rights)
}

/// Gives a file the mode of another and, where that is permitted, its owner and group. Where it is not, nobody gets a right by it that
/// the other file did not give.
fn take_rights(file: &File, of: &Metadata) -> io::Result<()> {
    let own = file.metadata()?;
    let mut mode = of.mode() & MODE_BITS;
    let is_same_owner = own.uid() == of.uid() && own.gid() == of.gid();
    if !is_same_owner && fchown(file, Some(of.uid()), Some(of.gid())).is_err() {
        mode &= ACCESS_BITS;
        if own.gid() != of.gid() && fchown(file, None, Some(of.gid())).is_err() {
            mode &= !GROUP_BITS;
        }
    }
    set_mode(file, mode)
}

impl<'a> JobFolder<'a> {
    /// The folder of a job's files. `part` is opened and locked, where there is one; `found` is what an output is known by that is
    /// complete already.
    pub fn new(
        rt: HostRuntime,
        names: &'a JobNames,
        info: JobInfo,
        part: Option<File>,
        found: Option<Digests>,
    ) -> JobFolder<'a> {
        JobFolder {
            rt,
            names,
            info,
            part,
            new_checkpoint: None,
            summary: None,
            found,
            faults: 0,
            error: None,
        }
    }

    /// The summary of a complete job, once its checkpoint was written or read.
    pub fn summary(&self) -> Option<&[u8]> {
        self.summary.as_deref()
    }

    /// The file whose call failed last, and why.
    pub fn into_error(self) -> Option<(OwnFile, io::Error)> {
        self.error
    }

    /// The name of a file of the job.
    fn name_of(&self, name: FileName) -> &str {
        self.names.name_of(own_file(name))
    }

    /// Makes the names of the folder durable.
    fn sync_names(&self) -> io::Result<()> {
        sync_folder(&self.rt, self.names.folder_of(OwnFile::Out))
    }

    /// The result of a call on this file: an error is counted, and kept.
    fn counted<T: Drop>(&mut self, file: OwnFile, outcome: io::Result<T>) -> Result<T, DiskFault>
        ensures later { self.old.faults ≤ self.new.faults }
        ensures failed { IsErrOf result DiskFault.Failed → self.old.faults < self.new.faults }
    {
        match outcome {
            Ok(value) => Ok(value),
            Err(error) if error.kind() == ErrorKind::OutOfMemory => Err(DiskFault::Memory),
            Err(error) => {
                // Memory is answered where no count is left: 2^64 calls never fail.
                let Some(faults) = self.faults.checked_add(1) else {
                    return Err(DiskFault::Memory);
                };
                self.faults = faults;
                self.error = Some((file, error));
                Err(DiskFault::Failed)
            }
        }
    }

    /// Writes a checkpoint into a new file. What a run that was stopped left there is removed first.
    fn write_checkpoint(&mut self, checkpoint: &[u8]) -> io::Result<()>
        ensures { self.new.faults ≡ self.old.faults }
    {
        let alloc = self.rt.alloc();
        let name = self.names.name_of(OwnFile::NewCheckpoint);
        remove_own(&self.rt, name)?;
        let mut file = create_own(&self.rt, name)?;
        // A checkpoint has frames of the sound: nobody may read it who may not read OUT.
        if let Some(older) = self.older_out()? {
            let mode = file.metadata()?.mode() & older.mode() & ACCESS_BITS;
            set_mode(&file, mode | OWNER_BITS)?;
        }
        write_job_file(
            alloc,
            &mut file,
            &self.info.identity,
            self.info.runs,
            checkpoint,
        )?;
        self.new_checkpoint = Some(file);
        self.summary = summary_of(alloc, checkpoint)?;
        Ok(())
    }

    /// The last checkpoint; None where there is none, and no bytes where its file is damaged.
    fn read_checkpoint(&mut self, alloc: Global) -> io::Result<Option<Vec<u8>>>
        ensures { self.new.faults ≡ self.old.faults }
    {
        let Some(mut bytes) = read_own(&self.rt, self.names.name_of(OwnFile::Checkpoint))? else {
            return Ok(None);
        };
        let size = match read_job_file(alloc, &bytes) {
            Ok(file) => {
                self.summary = summary_of(alloc, file.checkpoint)?;
                file.checkpoint.len()
            }
            Err(_) => 0,
        };
        keep_checkpoint(&mut bytes, size);
        Ok(Some(bytes))
    }

    /// OUT as it is before it is replaced; None where there is none.
    fn older_out(&self) -> io::Result<Option<Metadata>> {
        match look(&self.rt, self.names.name_of(OwnFile::Out))? {
            Some(older) if !older.is_file() => Err(no_regular_file()),
            found => Ok(found),
        }
    }

    /// Makes the part where the run found none.
    fn make_part(&mut self) -> io::Result<()>
        ensures { self.new.faults ≡ self.old.faults }
    {
        if self.part.is_some() {
            return Ok(());
        }
        let file = create_own(&self.rt, self.names.name_of(OwnFile::Part))?;
        if let Err(TryLockError::Error(error)) = file.try_lock() {
            return Err(error);
        }
        self.part = Some(file);
        Ok(())
    }

    /// Writes at the end of the part.
    fn write_at_end(&mut self, bytes: &[u8]) -> io::Result<()>
        ensures { self.new.faults ≡ self.old.faults }
    {
        self.make_part()?;
        match &mut self.part {
            Some(part) => part.write_all(bytes),
            None => Ok(()),
        }
    }

    /// Truncates the part to `len` bytes, and makes an empty one where there is none. A shorter one is not filled. It has the rights of
    /// the file that it is to replace from then on.
    fn truncate_part(&mut self, len: u64) -> io::Result<()>
        ensures { self.new.faults ≡ self.old.faults }
    {
        self.make_part()?;
        let Some(part) = &self.part else {
            return Ok(());
        };
        if let Some(older) = self.older_out()? {
            take_rights(part, &older)?;
        }
        if part.metadata()?.len() < len {
            return Err(ErrorKind::UnexpectedEof.into());
        }
        part.set_len(len)
    }

    /// Makes a file and its name durable.
    fn make_durable(&self, name: FileName) -> io::Result<()> {
        match (name, &self.part, &self.new_checkpoint) {
            (FileName::Part, Some(part), _) => part.sync_all()?,
            (FileName::NewCheckpoint, _, Some(file)) => file.sync_all()?,
            // It was found when the run began.
            (FileName::Out, _, _) => match open_to_read(&self.rt, self.name_of(name))? {
                Some(out) => out.sync_all()?,
                None => return Err(ErrorKind::NotFound.into()),
            },
            _ => sync_own(&self.rt, self.name_of(name))?,
        }
        self.sync_names()
    }

    /// What the complete output is known by, as the checkpoint says.
    fn expected(&self) -> Option<Digests> {
        let (_counts, digests) = split_summary(self.summary()?)?;
        Some(digests)
    }

    /// Whether the part is the very file that was written, with the length and the digest of the output.
    fn is_part_written(&mut self) -> io::Result<bool>
        ensures { self.new.faults ≡ self.old.faults }
    {
        let (alloc, expected) = (self.rt.alloc(), self.expected());
        let named = look(&self.rt, self.names.name_of(OwnFile::Part))?.map(|found| file_id(&found));
        let (Some(part), Some(expected)) = (&mut self.part, expected) else {
            return Ok(false);
        };
        let opened = part.metadata()?;
        part.seek(SeekFrom::Start(0))?;
        let mut hash = FileHash::new(false);
        let (written, digest) = (expected.output.size, expected.output.xxh64);
        let size = hash_front(alloc, part, &mut hash, written.saturating_add(1))?;
        Ok(is_own_part(
            file_id(&opened),
            named,
            size,
            written,
            hash.xxh64.digest(),
            digest,
        ))
    }

    /// Gives the part the name of the output, with the rights of the file that it replaces. Refused where the part is not what was
    /// written.
    fn publish_part(&mut self) -> Result<(), (OwnFile, io::Error)>
        ensures { self.new.faults ≡ self.old.faults }
    {
        match self.is_part_written() {
            Ok(true) => {}
            Ok(false) => return Err((OwnFile::Part, changed_part())),
            Err(error) => return Err((OwnFile::Part, error)),
        }
        match self.replace_out() {
            Ok(()) => Ok(()),
            Err(error) => Err((OwnFile::Out, error)),
        }
    }

    /// Renames the part to OUT, with the rights of an older one.
    fn replace_out(&self) -> io::Result<()> {
        if let (Some(part), Some(older)) = (&self.part, self.older_out()?) {
            take_rights(part, &older)?;
            part.sync_all()?;
        }
        self.rename_own(OwnFile::Part, OwnFile::Out)
    }

    /// Renames a file of the job, and makes the names durable.
    fn rename_own(&self, from: OwnFile, to: OwnFile) -> io::Result<()> {
        fs::rename(&self.rt, self.names.name_of(from), self.names.name_of(to))?;
        self.sync_names()
    }

    /// Writes the record of the finished job: its bytes are durable before it gets its name.
    fn write_record(&self) -> io::Result<()> {
        let (alloc, names) = (self.rt.alloc(), self.names);
        let Some((counts, digests)) = split_summary(self.summary().unwrap_or(&[])) else {
            return Err(ErrorKind::InvalidData.into());
        };
        let digests = self.found.unwrap_or(digests);
        let ended = seconds_now(&self.rt);
        let text = self
            .info
            .record
            .finished(alloc, counts, &digests, self.info.runs, ended)?;
        let new_record = names.name_of(OwnFile::NewRecord);
        remove_own(&self.rt, new_record)?;
        let mut file = create_own(&self.rt, new_record)?;
        file.write_all(&text)?;
        file.sync_all()?;
        // Another job may have a record of this name.
        let written = file_id(&file.metadata()?);
        if look(&self.rt, new_record)?.map(|found| file_id(&found)) != Some(written) {
            return Err(io::Error::new(
                ErrorKind::InvalidData,
                "another job writes a record of this name",
            ));
        }
        fs::rename(&self.rt, new_record, names.name_of(OwnFile::Record))?;
        sync_folder(&self.rt, names.folder_of(OwnFile::Record))
    }
}

impl Disk for JobFolder<'_> {
    // No contract states what files contain, nor what a crash leaves of them.
    ghost model = { unknown_disk (λ f. f.faults) };

    ghost shows = { λ f. tt };

    ghost counts_now = { λ f t c le now. tt };

    ghost only_now = { λ f c left. tt };

    ghost begun = { λ f. omega arith };

    fn read(&mut self, alloc: Global, name: FileName) -> Result<Option<Vec<u8>>, DiskFault> {
        let result = match name {
            FileName::Checkpoint => self.read_checkpoint(alloc),
            _ => read_own(&self.rt, self.name_of(name)),
        };
        self.counted(own_file(name), result)
    }

    fn has(&mut self, name: FileName) -> Result<bool, DiskFault> {
        let result = match look(&self.rt, self.name_of(name)) {
            // Where the run has a part, it has to be there.
            Ok(None) if name == FileName::Part && self.part.is_some() => Err(changed_part()),
            Ok(found) => Ok(found.is_some()),
            Err(error) => Err(error),
        };
        self.counted(own_file(name), result)
    }

    fn write(&mut self, name: FileName, bytes: &[u8]) -> Result<(), DiskFault> {
        let result = match name {
            FileName::NewCheckpoint => self.write_checkpoint(bytes),
            // A run writes no other file anew.
            _ => Err(ErrorKind::Unsupported.into()),
        };
        self.counted(own_file(name), result)
    }

    fn append(&mut self, name: FileName, bytes: &[u8]) -> Result<(), DiskFault> {
        let result = match name {
            FileName::Part => self.write_at_end(bytes),
            _ => Err(ErrorKind::Unsupported.into()),
        };
        self.counted(own_file(name), result)
    }

    fn truncate(&mut self, name: FileName, len: u64) -> Result<(), DiskFault> {
        let result = match name {
            FileName::Part => self.truncate_part(len),
            _ => Err(ErrorKind::Unsupported.into()),
        };
        self.counted(own_file(name), result)
    }

    fn sync(&mut self, name: FileName) -> Result<(), DiskFault> {
        let result = self.make_durable(name);
        self.counted(own_file(name), result)
    }

    fn rename(&mut self, from: FileName, to: FileName) -> Result<(), DiskFault> {
        let (file, result) = match from {
            FileName::Part => match self.publish_part() {
                Ok(()) => (OwnFile::Out, Ok(())),
                Err((file, error)) => (file, Err(error)),
            },
            _ => (own_file(to), self.rename_own(own_file(from), own_file(to))),
        };
        self.counted(file, result)
    }

    /// Removes a file. The record is written before the checkpoint is removed: by then OUT has its name.
    fn remove(&mut self, name: FileName) -> Result<(), DiskFault> {
        if let FileName::Checkpoint = name {
            let written = self.write_record();
            self.counted(OwnFile::Record, written)?;
        }
        let result = match remove_own(&self.rt, self.name_of(name)) {
            Ok(()) => self.sync_names(),
            Err(error) => Err(error),
        };
        self.counted(own_file(name), result)
    }
}
