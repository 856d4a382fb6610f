//! Where the names of a job stand: none of them is an input, and no two are one file.

use crate::fault::JobFault;
use crate::input::check_regular;
use crate::own_files::file_id;
use fx_plan::CommandLine;
use soxchain_job_rules::{
    Clash, FileId, JobNames, OwnFile, Place, Rival, base_of, check_places, folder_of,
};
use std::fs;
use std::io::{self, ErrorKind};

/// All files of a job.
const OWN_FILES: [OwnFile; 7] = [
    OwnFile::Out,
    OwnFile::Part,
    OwnFile::Checkpoint,
    OwnFile::NewCheckpoint,
    OwnFile::Lock,
    OwnFile::Record,
    OwnFile::NewRecord,
];

/// The file that a name leads to, through links; None where it leads to nothing.
fn target_of(rt: &HostRuntime, name: &str) -> io::Result<Option<FileId>> {
    match fs::metadata(rt, name) {
        Ok(found) => Ok(Some(file_id(&found))),
        Err(error) if error.kind() == ErrorKind::NotFound => Ok(None),
        Err(error) => Err(error),
    }
}

/// Where a name stands.
fn place_of<'a>(rt: &HostRuntime, name: &'a str) -> io::Result<Place<'a>> {
    Ok(Place {
        folder: file_id(&fs::metadata(rt, folder_of(name))?),
        base: base_of(name),
        file: target_of(rt, name)?,
    })
}

/// The names of the inputs of a job: IN, and each coefficient file.
fn input_names<'a>(
    rt: &HostRuntime,
    line: &'a CommandLine,
    input: &'a str,
) -> Result<Vec<&'a str>, JobFault<'a>> {
    let mut names = Vec::new(rt.alloc());
    names.push(input)?;
    for number in 1..=line.coefficient_file_count() {
        names.push(line.coefficient_file(number))?;
    }
    Ok(names)
}

/// The fault of a name that is another one's file.
fn fault_of<'a>(clash: Clash, inputs: &[&'a str], names: &'a JobNames) -> JobFault<'a> {
    let name = names.name_of(clash.file);
    match clash.rival {
        Rival::Input(place) => match inputs.get(place) {
            Some(input) => JobFault::IsInput(name, input),
            None => JobFault::Foreign(name),
        },
        Rival::Own(other) => JobFault::IsOwn(name, names.name_of(other)),
    }
}

/// Refuses a job of whose names one is an input, or two are one file: by folder and last part, and by device and inode. Inputs that
/// are no regular files are refused too. Nothing is opened.
pub fn check_names<'a>(
    rt: &HostRuntime,
    line: &'a CommandLine,
    input: &'a str,
    names: &'a JobNames,
) -> Result<(), JobFault<'a>> {
    let alloc = rt.alloc();
    let inputs = input_names(rt, line, input)?;
    let mut input_places = Vec::new(alloc);
    for name in &inputs {
        check_regular(rt, name)?;
        // An input that is not there is told where it is opened.
        if let Ok(place) = place_of(rt, name) {
            input_places.push(place)?;
        }
    }
    let mut own_places = Vec::new(alloc);
    for file in OWN_FILES {
        let name = names.name_of(file);
        match place_of(rt, name) {
            Ok(place) => own_places.push((file, place))?,
            Err(error) => return Err(JobFault::File(name, error)),
        }
    }
    match check_places(&input_places, &own_places) {
        Ok(()) => Ok(()),
        Err(clash) => Err(fault_of(clash, &inputs, names)),
    }
}
