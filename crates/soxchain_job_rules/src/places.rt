//! Whether two names of a job, or a name of it and one of its inputs, lead to one file.
ghost use Rattle.std.specs.Prelude.{◌↔◌, IfErr, IfNone, IfSome, IsTrue, OnOk};
ghost use Rattle.soxchain_job_rules.specs.Places.{AreApart, IsApartFrom, IsApartFromOwn, IsFirstClash, IsFirstInput, IsFirstOwn, IsFirstRival, IsSameFile};

use crate::OwnFile;

/// A file, whatever its names are.
#[derive(Clone, Copy, Debug, PartialEq, Eq)]
pub struct FileId {
    /// The device that it is on.
    pub device: u64,
    /// Its number there.
    pub inode: u64,
}

/// Where a name leads. The folder of a name may have several names itself, so it is known by what the system says of it.
#[derive(Clone, Copy, Debug)]
pub struct Place<'a> {
    /// The folder in which the name stands.
    pub folder: FileId,
    /// The last part of the name.
    pub base: &'a str,
    /// The file to which the name leads, through symbolic links, if there is one.
    pub file: Option<FileId>,
}

/// What a file of a job is one with.
#[derive(Clone, Copy, Debug, PartialEq, Eq)]
pub enum Rival {
    /// An input, by its place in the list: 0 is IN, the others are coefficient files.
    Input(usize),
    /// Another file of the job.
    Own(OwnFile),
}

/// A file of a job that is one with another file.
#[derive(Clone, Copy, Debug, PartialEq, Eq)]
pub struct Clash {
    /// The file of the job.
    pub file: OwnFile,
    /// What it is one with.
    pub rival: Rival,
}

/// Whether two names lead to one file, or would once it is made.
fn is_same_file(a: &Place<'_>, b: &Place<'_>) -> bool
    ensures { IsTrue result ↔ IsSameFile a.now b.now }
{
    let is_same_name = a.folder == b.folder && a.base == b.base;
    is_same_name || (a.file.is_some() && a.file == b.file)
}

/// The first input that is one with a file of the job.
fn first_input(inputs: &[Place<'_>], place: &Place<'_>) -> Option<usize>
    ensures some { IfSome result (IsFirstInput inputs.now place.now) }
    ensures none { IfNone result (IsApartFrom place.now inputs.now) }
{
    for (index, input) in inputs.iter().enumerate() {
        if is_same_file(place, input) {
            return Some(index);
        }
    }
    None
}

/// The first file of a job that is one with another of its files.
fn first_own(own: &[(OwnFile, Place<'_>)], place: &Place<'_>) -> Option<OwnFile>
    ensures some { IfSome result (IsFirstOwn own.now place.now) }
    ensures none { IfNone result (IsApartFromOwn place.now own.now) }
{
    for (file, other) in own {
        if is_same_file(place, other) {
            return Some(*file);
        }
    }
    None
}

/// What a file of a job is one with: the first of the inputs, and then the first of the files of the job before it.
fn first_rival(
    inputs: &[Place<'_>],
    before: &[(OwnFile, Place<'_>)],
    place: &Place<'_>,
) -> Option<Rival>
    ensures some { IfSome result (IsFirstRival inputs.now before.now place.now) }
    ensures no_input { IfNone result (IsApartFrom place.now inputs.now) }
    ensures no_own { IfNone result (IsApartFromOwn place.now before.now) }
{
    if let Some(index) = first_input(inputs, place) {
        return Some(Rival::Input(index));
    }
    let file = first_own(before, place)?;
    Some(Rival::Own(file))
}

/// Refuses the files of a job where one of them is an input, or two of them are one. The first pair is reported: of the first such
/// file, with the first input, or else with the first file of the job before it.
pub fn check_places(inputs: &[Place<'_>], own: &[(OwnFile, Place<'_>)]) -> Result<(), Clash>
    ensures apart { OnOk result (AreApart inputs.now own.now) }
    ensures clash { IfErr result (IsFirstClash inputs.now own.now) }
{
    for (index, (file, place)) in own.iter().enumerate() {
        if let Some(rival) = first_rival(inputs, &own[..index], place) {
            return Err(Clash { file: *file, rival });
        }
    }
    Ok(())
}
