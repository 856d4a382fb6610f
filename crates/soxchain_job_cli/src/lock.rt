//! The lock of a job: two runs never work on one OUT.

use crate::fault::JobFault;
use crate::own_files::{create_own, file_id, look, open_own, remove_own, standing_of};
use soxchain_job_rules::{JobNames, OwnFile, may_use};
use std::fs::{File, OpenOptions, TryLockError};
use std::io::{self, ErrorKind};

/// A locked job. The system ends the lock where a run is killed.
#[derive(Drop)]
pub struct JobLock<'a> {
    rt: HostRuntime,
    name: &'a str,
    file: File,
}

/// Whether an open file is still the one of this name. Another run may have removed it before it was locked here.
fn has_name(rt: &HostRuntime, file: &File, name: &str) -> io::Result<bool> {
    let opened = file_id(&file.metadata()?);
    Ok(match look(rt, name)? {
        Some(found) => file_id(&found) == opened,
        None => false,
    })
}

/// Opens the file of the lock, and makes it where there is none.
fn open_lock(rt: &HostRuntime, name: &str) -> io::Result<File> {
    match open_own(rt, name, OpenOptions::new().write(true))? {
        Some(file) => Ok(file),
        None => create_own(rt, name),
    }
}

/// Locks an open file of a job; refused where another run has it.
pub fn lock_file<'a>(file: &File, name: &'a str) -> Result<(), JobFault<'a>> {
    match file.try_lock() {
        Ok(()) => Ok(()),
        Err(TryLockError::WouldBlock) => Err(JobFault::Locked(name)),
        Err(TryLockError::Error(error)) => Err(JobFault::File(name, error)),
    }
}

impl<'a> JobLock<'a> {
    /// Locks a job; refused where another run has it, and where a foreign file has the name of the lock.
    pub fn take(rt: HostRuntime, names: &'a JobNames) -> Result<JobLock<'a>, JobFault<'a>> {
        let name = names.name_of(OwnFile::Lock);
        match standing_of(&rt, names, OwnFile::Lock) {
            Ok(standing) if may_use(OwnFile::Lock, &standing, false) => {}
            Ok(_) => return Err(JobFault::Foreign(name)),
            Err(error) => return Err(JobFault::File(name, error)),
        }
        let file = match open_lock(&rt, name) {
            Ok(file) => file,
            // Another run has made it just now.
            Err(error) if error.kind() == ErrorKind::AlreadyExists => {
                return Err(JobFault::Locked(name));
            }
            Err(error) => return Err(JobFault::File(name, error)),
        };
        lock_file(&file, name)?;
        match has_name(&rt, &file, name) {
            Ok(true) => Ok(JobLock { rt, name, file }),
            Ok(false) => Err(JobFault::Locked(name)),
            Err(error) => Err(JobFault::File(name, error)),
        }
    }

    /// Removes the file of the lock where it still has its name, and ends the lock.
    pub fn release(self) {
        if let Ok(true) = has_name(&self.rt, &self.file, self.name) {
            let _removed = remove_own(&self.rt, self.name);
        }
    }
}
