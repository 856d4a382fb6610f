//! A disk in memory, for tests. Each call is done at once, so a crash leaves what is there. It keeps each image that it has had.
ghost use Rattle.std.specs.Prelude.{◌≡◌, ◌⊎◌, ◌≤◌, [], ◌∷◌, ◌++◌, length, drop, IfOk, OnErr, OnOk};
ghost use Rattle.std.proofs.Common.{inl, refl, rules};
ghost use Rattle.soxchain_job.specs.Image.{at, bytes_at, put};
ghost use Rattle.soxchain_job.specs.declared.disk.DiskFault.TheVariants as DiskFaults;
ghost use Rattle.soxchain_job.specs.History.{image_of, items_of, memory_model, only_image};

use crate::{CrashingDisk, Disk, DiskFault, FileName, Files, MemoryDisk};
use std::alloc::{AllocError, AllocFailed, Global};

impl From<AllocError> for DiskFault {
    ghost from_gives = { λ _ e. e ≡ DiskFaults.Memory };

    fn from(_: AllocError) -> Self {
        DiskFault::Memory
    }
}

impl<T: Drop> From<AllocFailed<T>> for DiskFault {
    ghost from_gives = { λ _ e. e ≡ DiskFaults.Memory };

    fn from(_: AllocFailed<T>) -> Self {
        DiskFault::Memory
    }
}

impl MemoryDisk {
    /// A disk with these files.
    pub fn new(alloc: Global, files: Files) -> MemoryDisk
        ensures files { image_of result.files ≡ image_of files }
        ensures begins { memory_model.began result ≡ memory_model.moment result }
    {
        MemoryDisk {
            alloc,
            files,
            history: Vec::new(alloc),
            began: 0,
        }
    }
}

/// A copy of a file.
fn copied(alloc: Global, file: &Option<Vec<u8>>) -> Result<Option<Vec<u8>>, AllocError>
    ensures { IfOk result (λ r. items_of r ≡ items_of file.now) }
{
    match file {
        None => Ok(None),
        Some(bytes) => Ok(Some(bytes.to_vec(alloc)?)),
    }
}

/// A copy of all files.
fn all_copied(alloc: Global, files: &Files) -> Result<Files, AllocError>
    ensures { IfOk result (λ f. image_of f ≡ image_of files.now) }
{
    Ok(Files {
        part: copied(alloc, &files.part)?,
        new_checkpoint: copied(alloc, &files.new_checkpoint)?,
        checkpoint: copied(alloc, &files.checkpoint)?,
        out: copied(alloc, &files.out)?,
    })
}

/// The files with another one under this name.
fn with(
    alloc: Global,
    files: &Files,
    name: FileName,
    file: Option<Vec<u8>>,
) -> Result<Files, AllocError>
    ensures { IfOk result (λ f. image_of f ≡ put name (items_of file) (image_of files.now)) }
{
    let Files {
        part,
        new_checkpoint,
        checkpoint,
        out,
    } = all_copied(alloc, files)?;
    Ok(match name {
        FileName::Part => Files {
            part: file,
            new_checkpoint,
            checkpoint,
            out,
        },
        FileName::NewCheckpoint => Files {
            part,
            new_checkpoint: file,
            checkpoint,
            out,
        },
        FileName::Checkpoint => Files {
            part,
            new_checkpoint,
            checkpoint: file,
            out,
        },
        FileName::Out => Files {
            part,
            new_checkpoint,
            checkpoint,
            out: file,
        },
    })
}

/// Replaces all files, and keeps a copy of them.
fn replace(
    alloc: Global,
    files: &mut Files,
    history: &mut Vec<Files>,
    next: Files,
) -> Result<(), AllocError>
    ensures ok { OnOk result (image_of files.new ≡ image_of next) }
    ensures err { OnErr result (image_of files.new ≡ image_of files.old) }
    ensures history { OnOk result ((v : _) × (image_of v ≡ image_of files.old) × (history.new.items ≡ history.old.items ++ v ∷ [])) }
    ensures history_err { OnErr result (history.new.items ≡ history.old.items) }
{
    history.push(all_copied(alloc, files)?)?;
    *files = next;
    Ok(())
}

/// The file of this name.
fn file_of(files: &Files, name: FileName) -> &Option<Vec<u8>>
    ensures { items_of result.now ≡ at name (image_of files.now) }
{
    match name {
        FileName::Part => &files.part,
        FileName::NewCheckpoint => &files.new_checkpoint,
        FileName::Checkpoint => &files.checkpoint,
        FileName::Out => &files.out,
    }
}

/// The bytes of the file of this name, none where there is no file.
fn bytes_of(alloc: Global, files: &Files, name: FileName) -> Result<Vec<u8>, AllocError>
    ensures { IfOk result (λ v. v.items ≡ bytes_at name (image_of files.now)) }
{
    match file_of(files, name) {
        None => Ok(Vec::new(alloc)),
        Some(bytes) => bytes.to_vec(alloc),
    }
}

impl Disk for MemoryDisk {
    ghost model = { memory_model };

    ghost shows = { λ m. refl };

    ghost counts_now = { λ m t c le now. inl now };

    ghost only_now = { λ m c left. only_image m.history.items (image_of m.files) c left };

    ghost begun = { λ m. m.bounded };

    fn read(&mut self, alloc: Global, name: FileName) -> Result<Option<Vec<u8>>, DiskFault> {
        Ok(copied(alloc, file_of(&self.files, name))?)
    }

    fn has(&mut self, name: FileName) -> Result<bool, DiskFault> {
        Ok(file_of(&self.files, name).is_some())
    }

    fn write(&mut self, name: FileName, bytes: &[u8]) -> Result<(), DiskFault> {
        let next = with(
            self.alloc,
            &self.files,
            name,
            Some(bytes.to_vec(self.alloc)?),
        )?;
        Ok(replace(self.alloc, &mut self.files, &mut self.history, next)?)
    }

    fn append(&mut self, name: FileName, bytes: &[u8]) -> Result<(), DiskFault> {
        let mut all = bytes_of(self.alloc, &self.files, name)?;
        all.extend_from_slice(bytes)?;
        let next = with(self.alloc, &self.files, name, Some(all))?;
        Ok(replace(self.alloc, &mut self.files, &mut self.history, next)?)
    }

    fn truncate(&mut self, name: FileName, len: u64) -> Result<(), DiskFault> {
        let mut front = bytes_of(self.alloc, &self.files, name)?;
        front.truncate(len as usize);
        let next = with(self.alloc, &self.files, name, Some(front))?;
        Ok(replace(self.alloc, &mut self.files, &mut self.history, next)?)
    }

    fn sync(&mut self, name: FileName) -> Result<(), DiskFault> {
        Ok(())
    }

    fn rename(&mut self, from: FileName, to: FileName) -> Result<(), DiskFault> {
        let file = copied(self.alloc, file_of(&self.files, from))?;
        let both = with(self.alloc, &self.files, to, file)?;
        let next = with(self.alloc, &both, from, None)?;
        Ok(replace(self.alloc, &mut self.files, &mut self.history, next)?)
    }

    fn remove(&mut self, name: FileName) -> Result<(), DiskFault> {
        let next = with(self.alloc, &self.files, name, None)?;
        Ok(replace(self.alloc, &mut self.files, &mut self.history, next)?)
    }
}

impl CrashingDisk for MemoryDisk {
    fn crash(&mut self) {
        self.began = self.history.len();
    }
}
