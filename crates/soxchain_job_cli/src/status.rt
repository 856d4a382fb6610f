//! What `--status` and `--abandon` do.

use crate::fault::JobFault;
use crate::lock::JobLock;
use crate::own_files::{remove_own, standing_of, sync_folder};
use crate::places::check_names;
use crate::record::time_text;
use crate::resume::{Comparer, Found, Heads, find_checkpoint, locked_part};
use fx_plan::CommandLine;
use soxchain_job_rules::{Claim, JobNames, OwnFile, Standing, abandon_order, may_remove, may_use};
use std::io;

/// Whether a checkpoint is of these words.
fn is_of(found: &Found, words: &[String]) -> bool {
    found.identity.words.as_slice() == words
}

/// Shows a checkpoint on standard output.
fn show_checkpoint<'a>(rt: &HostRuntime, found: &Found) -> Result<(), JobFault<'a>> {
    let runs = found.runs;
    let began = time_text(rt.alloc(), runs.began)?;
    let size = found.identity.size;
    let shown = match found.claim {
        Claim::Complete => {
            println!(rt;
                "converted: 100%; the output is complete, and the next run gives it its name if it has none"
            )
        }
        _ => {
            let (taken, written) = (found.taken.size, found.written.size);
            let percent = taken.min(size).saturating_mul(100).checked_div(size);
            let percent = percent.unwrap_or(100);
            println!(rt;
                "converted: {percent}%, {taken} of {size} bytes of IN; OUT.part has {written} bytes"
            )
        }
    };
    let count = runs.count;
    let _shown = shown.and_then(|_| println!(rt; "runs: {count}, the first began {began}"));
    Ok(())
}

/// Shows the checkpoint of a job, and changes nothing. The status: 0 where the job can go on, 1 where there is none of these words.
pub fn show_status<'a>(
    rt: &HostRuntime,
    words: &[String],
    names: &'a JobNames,
) -> Result<u8, JobFault<'a>> {
    let Some(found) = find_checkpoint(rt, names)? else {
        let name = names.name_of(OwnFile::Checkpoint);
        let _shown = println!(rt; "no job: there is no {name}");
        return Ok(1);
    };
    show_checkpoint(rt, &found)?;
    if is_of(&found, words) {
        return Ok(0);
    }
    let _shown = println!(rt; "it was begun with other words");
    Ok(1)
}

/// Whether a new checkpoint or record stays where it is: the next run replaces it, or refuses it.
fn stays(file: OwnFile, standing: &Standing, has_checkpoint: bool) -> bool {
    match file {
        OwnFile::NewRecord => !has_checkpoint || !may_use(file, standing, false),
        OwnFile::NewCheckpoint => !has_checkpoint,
        _ => false,
    }
}

/// Whether the file of this name is there, and may be removed; refused where it is there and may not. A new record that is none by its
/// own bytes stays: the checkpoint does not say which name its record has.
fn is_to_be_removed<'a>(
    rt: &HostRuntime,
    names: &'a JobNames,
    file: OwnFile,
    has_checkpoint: bool,
) -> Result<bool, JobFault<'a>> {
    let name = names.name_of(file);
    match standing_of(rt, names, file) {
        Ok(Standing::Nothing) => Ok(false),
        Ok(standing) if stays(file, &standing, has_checkpoint) => Ok(false),
        Ok(standing) if may_remove(file, &standing, has_checkpoint) => Ok(true),
        Ok(_) if file == OwnFile::Part && !has_checkpoint => Err(JobFault::NoCheckpoint(name)),
        Ok(_) => Err(JobFault::Foreign(name)),
        Err(error) => Err(JobFault::File(name, error)),
    }
}

/// Removes a file of the job, durably.
fn remove_durably(rt: &HostRuntime, names: &JobNames, name: &str) -> io::Result<()> {
    remove_own(rt, name)?;
    sync_folder(rt, names.folder_of(OwnFile::Out))
}

/// Removes the part and the checkpoint of a job that is locked; refused before anything is removed.
fn remove_files<'a>(rt: &HostRuntime, names: &'a JobNames) -> Result<(), JobFault<'a>> {
    let has_checkpoint = is_to_be_removed(rt, names, OwnFile::Checkpoint, false)?;
    for file in abandon_order() {
        is_to_be_removed(rt, names, file, has_checkpoint)?;
    }
    let part_name = names.name_of(OwnFile::Part);
    let mut part = if has_checkpoint {
        locked_part(rt, part_name)?
    } else {
        None
    };
    // A part that is not what the checkpoint counts is somebody's. Of a damaged checkpoint nothing can be compared.
    if let Ok(Some(found)) = find_checkpoint(rt, names) {
        let comparer = Comparer {
            rt,
            heads: Heads::Any,
            with_sha256: false,
        };
        comparer.check_part(part_name, &mut part, &found)?;
    }
    for file in abandon_order() {
        let name = names.name_of(file);
        if !is_to_be_removed(rt, names, file, has_checkpoint)? {
            continue;
        }
        if let Err(error) = remove_durably(rt, names, name) {
            return Err(JobFault::File(name, error));
        }
    }
    Ok(())
}

/// Removes the part and the checkpoint of a job. The checkpoint goes last, so that no part is left without one.
pub fn abandon<'a>(
    rt: &HostRuntime,
    line: &'a CommandLine,
    input: &'a str,
    names: &'a JobNames,
) -> Result<(), JobFault<'a>> {
    check_names(rt, line, input, names)?;
    let lock = JobLock::take(*rt, names)?;
    let result = remove_files(rt, names);
    lock.release();
    result
}
