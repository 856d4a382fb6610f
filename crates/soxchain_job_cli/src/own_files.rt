//! The files of a job in the system. What stands under a name of the job is opened only where it is a regular file, and only where
//! the file that was opened is the one that stands there: so no link is followed, and nothing waits for a FIFO.

use soxchain_job_file::begins_as_job_file;
use soxchain_job_rules::{Content, FileId, JobNames, OwnFile, Standing};
use std::fs::{self, File, Metadata, OpenOptions};
use std::io::{self, ErrorKind, Read};
use std::os::unix::fs::MetadataExt;

/// What a record begins with.
const RECORD_START: &str = "{\n  \"began\": \"";

/// What follows the first member of a record, a time of twenty letters.
const RECORD_REST: &str = "\",\n  \"clips\": [";

/// The letters of a time.
const TIME_SIZE: usize = 20;

/// How many bytes tell what a file is.
const FRONT_SIZE: usize = 64;

/// How often a file is opened that is replaced meanwhile.
const TRIES: u32 = 8;

/// Which file the answer of the system is of.
pub fn file_id(found: &Metadata) -> FileId {
    FileId {
        device: found.dev(),
        inode: found.ino(),
    }
}

/// What stands under a name, no link followed; None where nothing does.
pub fn look(rt: &HostRuntime, name: &str) -> io::Result<Option<Metadata>> {
    match fs::symlink_metadata(rt, name) {
        Ok(found) => Ok(Some(found)),
        Err(error) if error.kind() == ErrorKind::NotFound => Ok(None),
        Err(error) => Err(error),
    }
}

/// Opens the regular file that stands under a name; None where nothing does.
pub fn open_own(rt: &HostRuntime, name: &str, how: &OpenOptions) -> io::Result<Option<File>> {
    for _ in 0..TRIES {
        let Some(found) = look(rt, name)? else {
            return Ok(None);
        };
        if !found.is_file() {
            return Err(no_regular_file());
        }
        match how.open(rt, name) {
            Ok(file) if file_id(&file.metadata()?) == file_id(&found) => return Ok(Some(file)),
            // Another run may have renamed or removed it just now.
            Ok(_) => {}
            Err(error) if error.kind() == ErrorKind::NotFound => {}
            Err(error) => return Err(error),
        }
    }
    Err(io::Error::new(
        ErrorKind::InvalidInput,
        "it was replaced while it was opened",
    ))
}

/// The error of a name under which something else stands than a regular file.
pub fn no_regular_file() -> io::Error {
    io::Error::new(ErrorKind::InvalidInput, "it is no regular file")
}

/// Opens the regular file that stands under a name to be read; None where nothing does.
pub fn open_to_read(rt: &HostRuntime, name: &str) -> io::Result<Option<File>> {
    open_own(rt, name, OpenOptions::new().read(true))
}

/// Opens a part, to be read, and written at its end; None where there is none.
pub fn open_part(rt: &HostRuntime, name: &str) -> io::Result<Option<File>> {
    open_own(rt, name, OpenOptions::new().read(true).append(true))
}

/// Makes an empty file under a name where nothing stands, to be read, and written at its end.
pub fn create_own(rt: &HostRuntime, name: &str) -> io::Result<File> {
    OpenOptions::new()
        .read(true)
        .append(true)
        .create_new(true)
        .open(rt, name)
}

/// The bytes of the regular file that stands under a name; None where nothing does.
pub fn read_own(rt: &HostRuntime, name: &str) -> io::Result<Option<Vec<u8>>> {
    let Some(mut file) = open_to_read(rt, name)? else {
        return Ok(None);
    };
    let mut bytes = Vec::new(rt.alloc());
    file.read_to_end(&mut bytes)?;
    Ok(Some(bytes))
}

/// Removes what stands under a name, where something does.
pub fn remove_own(rt: &HostRuntime, name: &str) -> io::Result<()> {
    match fs::remove_file(rt, name) {
        Err(error) if error.kind() != ErrorKind::NotFound => Err(error),
        _ => Ok(()),
    }
}

/// Makes the names of a folder durable.
pub fn sync_folder(rt: &HostRuntime, folder: &str) -> io::Result<()> {
    File::open(rt, folder)?.sync_all()
}

/// Makes the regular file that stands under a name durable, where there is one.
pub fn sync_own(rt: &HostRuntime, name: &str) -> io::Result<()> {
    match open_to_read(rt, name)? {
        Some(file) => file.sync_all(),
        None => Ok(()),
    }
}

/// Whether these first bytes of a file are those of a checkpoint of whatever version. The first version was JSON.
fn begins_as_other_version(front: &[u8]) -> bool {
    front.starts_with(b"soxchain-job ") || front.starts_with(b"{\"soxchain-job\":")
}

/// Whether these first bytes of a file are those of a record.
fn begins_as_record(front: &[u8]) -> bool {
    match front.strip_prefix(RECORD_START.as_bytes()) {
        Some(rest) => match rest.split_at_checked(TIME_SIZE) {
            Some((_time, after)) => after.starts_with(RECORD_REST.as_bytes()),
            None => false,
        },
        None => false,
    }
}

/// Whether these first bytes of a file may be those of a record that was not written whole.
fn begins_as_torn_record(front: &[u8]) -> bool {
    let start = RECORD_START.as_bytes();
    front.starts_with(start) || start.starts_with(front)
}

/// How the bytes of the regular file under a name begin.
fn content_of(rt: &HostRuntime, name: &str, file: OwnFile) -> io::Result<Content> {
    let Some(mut opened) = open_to_read(rt, name)? else {
        return Ok(Content::Empty);
    };
    let mut front = [0; FRONT_SIZE];
    let count = opened.read(&mut front)?;
    let front = &front[..count];
    let is_own = match file {
        OwnFile::Checkpoint => begins_as_job_file(front) || begins_as_other_version(front),
        OwnFile::NewCheckpoint => begins_as_job_file(front),
        OwnFile::Record => begins_as_record(front),
        OwnFile::NewRecord => begins_as_torn_record(front),
        OwnFile::Out | OwnFile::Part | OwnFile::Lock => false,
    };
    Ok(if front.is_empty() {
        Content::Empty
    } else if is_own {
        Content::Own
    } else {
        Content::Foreign
    })
}

/// What stands under the name of a file of a job.
pub fn standing_of(rt: &HostRuntime, names: &JobNames, file: OwnFile) -> io::Result<Standing> {
    let name = names.name_of(file);
    let Some(found) = look(rt, name)? else {
        return Ok(Standing::Nothing);
    };
    if !found.is_file() {
        return Ok(Standing::Other);
    }
    let content = match file {
        // The bytes of these two decide nothing.
        OwnFile::Out | OwnFile::Part => Content::Foreign,
        _ => content_of(rt, name, file)?,
    };
    Ok(Standing::Regular {
        links: found.nlink(),
        content,
    })
}
