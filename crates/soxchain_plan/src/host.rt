//! The host that the program works on: what it says of an output without making it.
ghost use Rattle.std.specs.Prelude.{⊤};
ghost use Rattle.soxchain_plan.specs.Creating.{CreateAnswers};

use soxchain_common::{Console, Inspects};
use std::fs::{self, OpenOptions};
use std::io::ErrorKind;
use std::os::unix::fs::MetadataExt;

/// Why a file cannot be made or emptied.
#[derive(Clone, Copy, Debug, Drop, PartialEq, Eq)]
pub enum CreateFault {
    /// It is the file that is read.
    IsInput,
    /// Its folder does not exist, or is no folder.
    NoFolder,
    /// It is a folder.
    IsFolder,
    /// It may not be written, or not be made in its folder.
    NoPermission,
    /// Its file system is read-only.
    ReadOnly,
    /// Anything else.
    Other,
}

/// A host that also says whether a file could be made. Every call may change its state.
pub trait PlanHost: Console + Inspects {
    // What it said of making the file of this name, between the old and the new state.
    ghost creates: { CreateAnswers Self };

    /// Why the file of this name could not be made, or an older one emptied; None where that is not certain. It changes no file.
    fn create_fault(&mut self, name: &str) -> Option<CreateFault>
        ensures { creates self.old self.new name.now result };
}

/// The bit of a file's mode by which its owner may write it.
const OWNER_WRITES: u32 = 0o200;

/// The bits by which its group may, and everyone else.
const OTHERS_WRITE: u32 = 0o022;

/// The fault of a file that cannot be inspected or opened for this reason.
fn fault_of(kind: ErrorKind) -> CreateFault {
    match kind {
        ErrorKind::NotFound | ErrorKind::NotADirectory => CreateFault::NoFolder,
        ErrorKind::IsADirectory => CreateFault::IsFolder,
        ErrorKind::PermissionDenied => CreateFault::NoPermission,
        ErrorKind::ReadOnlyFilesystem => CreateFault::ReadOnly,
        _ => CreateFault::Other,
    }
}

/// The folder in which a file of this name is made.
fn folder_of(name: &str) -> &str {
    match name.rsplit_once('/') {
        Some(("", _)) => "/",
        Some((folder, _)) => folder,
        None => ".",
    }
}

/// Why no file can be made in this folder, where that is certain. The mode decides: of a folder of another user it is certain only
/// where neither its group nor everyone else may write, since the groups of the process are not known.
fn folder_fault(rt: &HostRuntime, folder: &str) -> Option<CreateFault> {
    let found = match fs::metadata(rt, folder) {
        Ok(found) => found,
        Err(error) => return Some(fault_of(error.kind())),
    };
    if !found.is_dir() {
        return Some(CreateFault::NoFolder);
    }
    let user = fs::metadata(rt, "/proc/self").ok()?.uid();
    let needed = if found.uid() == user {
        OWNER_WRITES
    } else {
        OTHERS_WRITE
    };
    if user == 0 || found.mode() & needed != 0 {
        return None;
    }
    Some(CreateFault::NoPermission)
}

/// Why a file of this name, which does not exist, cannot be made, where that is certain. Where the name is a link it is not: the
/// file would be made in another folder.
fn new_fault(rt: &HostRuntime, name: &str) -> Option<CreateFault> {
    if name.is_empty() {
        return Some(CreateFault::Other);
    }
    if fs::symlink_metadata(rt, name).is_ok() {
        return None;
    }
    folder_fault(rt, folder_of(name))
}

/// Why this file, which exists and is no folder, cannot be emptied. A device or pipe is not opened: that may have effects.
fn write_fault(rt: &HostRuntime, name: &str, is_plain: bool) -> Option<CreateFault> {
    if !is_plain {
        return None;
    }
    match OpenOptions::new().write(true).open(rt, name) {
        Ok(_file) => None,
        Err(error) => Some(fault_of(error.kind())),
    }
}

impl PlanHost for HostRuntime {
    // Nothing is known of the files of the host itself.
    ghost creates = { λ _ _ _ _. ⊤ };

    fn create_fault(&mut self, name: &str) -> Option<CreateFault> {
        match fs::metadata(self, name) {
            Ok(found) if found.is_dir() => Some(CreateFault::IsFolder),
            Ok(found) => write_fault(self, name, found.is_file()),
            Err(error) if error.kind() == ErrorKind::NotFound => new_fault(self, name),
            Err(error) => Some(fault_of(error.kind())),
        }
    }
}
