//! Whether a run begins, continues or is refused: what the checkpoint says is compared with IN, the part and OUT.
ghost use Rattle.std.specs.Prelude.{◌≡◌, ◌↔◌, None, Some};

use crate::digests::{Digests, FileHash, Hashes, frozen_digests, split_summary};
use crate::fault::JobFault;
use crate::lock::lock_file;
use crate::own_files::{open_part, open_to_read, read_own, standing_of};
use crate::record::seconds_now;
use soxchain_job::{Checkpoint, decode_checkpoint};
use soxchain_job_file::{Difference, Identity, JobFileFault, Runs, difference, read_job_file};
use soxchain_job_rules::{
    Claim, Evidence, JobNames, OwnFile, Sighting, Standing, StartRefusal, may_use, start_of,
};
use soxchain_xxh64::hash_front;
use std::alloc::Global;
use std::fs::File;
use std::io::{self, Read, Seek, SeekFrom};

/// The bytes of the longest head of an output.
const MAX_HEAD: usize = 68;

/// What the checkpoint of a job says, without the frozen conversion.
#[derive(Drop)]
pub struct Found {
    pub identity: Identity,
    pub runs: Runs,
    pub claim: Claim,
    /// What was taken of IN.
    pub taken: Hashed,
    /// What was written of the output.
    pub written: Hashed,
}

/// What a run continues from.
#[derive(Drop)]
pub struct StartPoint {
    pub runs: Runs,
    /// The bytes of IN that were taken by earlier runs; None where this one is the first.
    pub continued: Option<u64>,
    pub hashes: Hashes,
    /// The part, opened and locked, where there is one.
    pub part: Option<File>,
    /// What an output is known by that is complete already.
    pub found: Option<Digests>,
}

/// What was hashed of a file: how many bytes, and their XXH64.
#[derive(Clone, Copy, Debug, PartialEq, Eq)]
pub struct Hashed {
    pub size: u64,
    pub digest: u64,
}

/// The parts of a checkpoint; None where its bytes are damaged.
fn found_of(identity: Identity, runs: Runs, checkpoint: &[u8]) -> Option<Found> {
    match decode_checkpoint(checkpoint)? {
        Checkpoint::InProgress(progress) => {
            let (taken_digest, written_digest) = frozen_digests(progress.frozen)?;
            Some(Found {
                identity,
                runs,
                claim: Claim::InProgress {
                    written: progress.written,
                },
                taken: Hashed {
                    size: progress.taken,
                    digest: taken_digest,
                },
                written: Hashed {
                    size: progress.written,
                    digest: written_digest,
                },
            })
        }
        Checkpoint::Complete(summary) => {
            let (_counts, Digests { input, output }) = split_summary(summary)?;
            Some(Found {
                identity,
                runs,
                claim: Claim::Complete,
                taken: Hashed {
                    size: input.size,
                    digest: input.xxh64,
                },
                written: Hashed {
                    size: output.size,
                    digest: output.xxh64,
                },
            })
        }
    }
}

/// Reads the checkpoint of a job; None where there is none.
pub fn find_checkpoint<'a>(
    rt: &HostRuntime,
    names: &'a JobNames,
) -> Result<Option<Found>, JobFault<'a>> {
    let name = names.name_of(OwnFile::Checkpoint);
    match standing_of(rt, names, OwnFile::Checkpoint) {
        Ok(standing) if may_use(OwnFile::Checkpoint, &standing, false) => {}
        Ok(_) => return Err(JobFault::Foreign(name)),
        Err(error) => return Err(JobFault::File(name, error)),
    }
    let bytes = match read_own(rt, name) {
        Ok(Some(bytes)) => bytes,
        Ok(None) => return Ok(None),
        Err(error) => return Err(JobFault::File(name, error)),
    };
    let file = match read_job_file(rt.alloc(), &bytes) {
        Ok(file) => file,
        Err(JobFileFault::Version(version)) => return Err(JobFault::Version(name, version)),
        Err(JobFileFault::Foreign) => return Err(JobFault::Foreign(name)),
        Err(JobFileFault::Damaged) => return Err(JobFault::Damaged(name)),
        Err(JobFileFault::Memory) => return Err(JobFault::Memory),
    };
    match found_of(file.identity, file.runs, file.checkpoint) {
        Some(found) => Ok(Some(found)),
        None => Err(JobFault::Damaged(name)),
    }
}

/// Hashes the first bytes of a file, at most `count`.
fn hash_file(
    alloc: Global,
    file: &mut File,
    count: u64,
    with_sha256: bool,
) -> io::Result<(Hashed, FileHash)> {
    file.seek(SeekFrom::Start(0))?;
    let mut hash = FileHash::new(with_sha256);
    let size = hash_front(alloc, file, &mut hash, count)?;
    let digest = hash.xxh64.digest();
    Ok((Hashed { size, digest }, hash))
}

/// A file, of which this was hashed, compared with what the checkpoint says of it. None where there is no file.
fn sighting_of(hashed: Option<Hashed>, expected: Hashed) -> Sighting
    ensures same { (result ≡ Sighting.Same) ↔ (hashed ≡ Some expected) }
    ensures missing { (result ≡ Sighting.Missing) ↔ (hashed ≡ None) }
{
    match hashed {
        None => Sighting::Missing,
        Some(hashed) if hashed == expected => Sighting::Same,
        Some(_) => Sighting::Different,
    }
}

/// What a run finds that has a checkpoint of its job: what was hashed of IN, of the part and of OUT, against what the checkpoint says.
fn evidence_of(found: &Found, input: Hashed, part: Option<Hashed>, out: Option<Hashed>) -> Evidence
    ensures claim { result.claim ≡ found.now.claim }
    ensures input { (result.input ≡ Sighting.Same) ↔ (input ≡ found.now.taken) }
    ensures part { (result.part ≡ Sighting.Same) ↔ (part ≡ Some found.now.written) }
    ensures part_missing { (result.part ≡ Sighting.Missing) ↔ (part ≡ None) }
    ensures out { (result.out ≡ Sighting.Same) ↔ (out ≡ Some found.now.written) }
    ensures out_missing { (result.out ≡ Sighting.Missing) ↔ (out ≡ None) }
{
    Evidence {
        claim: found.claim,
        identity_is_same: true,
        input: sighting_of(Some(input), found.taken),
        part: sighting_of(part, found.written),
        out: sighting_of(out, found.written),
    }
}

/// Refuses a foreign file under a name of the job.
fn check_standings<'a>(
    rt: &HostRuntime,
    names: &'a JobNames,
    has_checkpoint: bool,
) -> Result<(), JobFault<'a>> {
    for file in [
        OwnFile::Out,
        OwnFile::Checkpoint,
        OwnFile::NewCheckpoint,
        OwnFile::Record,
        OwnFile::NewRecord,
        OwnFile::Part,
    ] {
        let name = names.name_of(file);
        // The checkpoint does not say which name its record has: a new record has to be one by its own bytes.
        let is_known = has_checkpoint && file != OwnFile::NewRecord;
        match standing_of(rt, names, file) {
            Ok(standing) if may_use(file, &standing, is_known) => {}
            Ok(_) if file == OwnFile::Part && !has_checkpoint => {
                return Err(JobFault::NoCheckpoint(name));
            }
            Ok(_) if file == OwnFile::Out => return Err(JobFault::NotAFile(name)),
            Ok(Standing::Other) if file == OwnFile::Record => {
                return Err(JobFault::NotAFile(name));
            }
            Ok(_) => return Err(JobFault::Foreign(name)),
            Err(error) => return Err(JobFault::File(name, error)),
        }
    }
    Ok(())
}

/// Refuses the checkpoint of another job.
fn check_identity<'a>(stored: &Identity, own: &Identity) -> Result<(), JobFault<'a>> {
    match difference(stored, own) {
        None => Ok(()),
        Some(Difference::Words) => Err(JobFault::OtherWords),
        Some(Difference::Coefficients) => Err(JobFault::OtherCoefficients),
        Some(Difference::Length) => Err(JobFault::OtherLength),
        Some(Difference::Time) => Err(JobFault::OtherTime),
    }
}

/// The fault of a start that is refused.
fn fault_of<'a>(refusal: StartRefusal, found: &Found, names: &'a JobNames) -> JobFault<'a> {
    let (part, out) = (names.name_of(OwnFile::Part), names.name_of(OwnFile::Out));
    match refusal {
        StartRefusal::PartWithoutCheckpoint => JobFault::NoCheckpoint(part),
        StartRefusal::OtherPart => JobFault::OtherPart(part),
        StartRefusal::PartMissing => JobFault::PartMissing(part),
        StartRefusal::OtherOut => JobFault::OtherOut(out),
        StartRefusal::OtherJob => JobFault::OtherWords,
        StartRefusal::InputMissing | StartRefusal::OtherInput => {
            JobFault::OtherInput(found.taken.size)
        }
    }
}

/// The start of a job that has no checkpoint.
fn begin(rt: &HostRuntime, with_sha256: bool) -> StartPoint {
    StartPoint {
        runs: Runs {
            began: seconds_now(rt),
            count: 1,
        },
        continued: None,
        hashes: Hashes::new(with_sha256),
        part: None,
        found: None,
    }
}

/// The part, opened and locked; None where there is none.
pub fn locked_part<'a>(rt: &HostRuntime, name: &'a str) -> Result<Option<File>, JobFault<'a>> {
    match open_part(rt, name) {
        Ok(Some(file)) => {
            lock_file(&file, name)?;
            Ok(Some(file))
        }
        Ok(None) => Ok(None),
        Err(error) => Err(JobFault::File(name, error)),
    }
}

/// Whether the first bytes of a file are those of a head, as far as there are any.
fn begins_as(file: &mut File, head: &[u8]) -> io::Result<bool> {
    file.seek(SeekFrom::Start(0))?;
    let mut front = [0; MAX_HEAD];
    let count = file.read(&mut front)?;
    Ok(front[..count].starts_with(head) || head.starts_with(&front[..count]))
}

/// What the output of a job may begin with.
#[derive(Clone, Copy)]
pub enum Heads<'a> {
    /// With this head.
    One(&'a [u8]),
    /// With that of a WAVE or of an AU.
    Any,
}

/// How the files of a job are compared with its checkpoint.
#[derive(Clone, Copy)]
pub struct Comparer<'a> {
    pub rt: &'a HostRuntime,
    pub heads: Heads<'a>,
    pub with_sha256: bool,
}

impl Comparer<'_> {
    /// Whether a part of which the checkpoint counts no byte may be that of the job: it is empty, or begins as the output does.
    fn may_be_begun(&self, file: &mut File) -> io::Result<bool> {
        match self.heads {
            Heads::One(head) => begins_as(file, head),
            Heads::Any => Ok(begins_as(file, b"RIFF")? || begins_as(file, b".snd")?),
        }
    }

    /// What was hashed of a file that has the output, or a part of it: as many bytes as the checkpoint counts, and of a complete
    /// output one more, if there are so many.
    fn hash_some(&self, file: &mut File, found: &Found) -> io::Result<(Hashed, FileHash)> {
        let size = found.written.size;
        let count = match found.claim {
            Claim::Complete => size.saturating_add(1),
            _ => size,
        };
        let (mut hashed, hash) = hash_file(self.rt.alloc(), file, count, self.with_sha256)?;
        // Nothing is hashed of a part that has just begun.
        if count == 0 && !self.may_be_begun(file)? {
            hashed.size = u64::MAX;
        }
        Ok((hashed, hash))
    }

    /// What was hashed of a file that has the output, or a part of it. None where there is no file.
    pub fn hash_output<'a>(
        &self,
        name: &'a str,
        file: &mut Option<File>,
        found: &Found,
    ) -> Result<(Option<Hashed>, FileHash), JobFault<'a>> {
        let Some(file) = file else {
            return Ok((None, FileHash::new(self.with_sha256)));
        };
        match self.hash_some(file, found) {
            Ok((hashed, hash)) => Ok((Some(hashed), hash)),
            Err(error) => Err(JobFault::File(name, error)),
        }
    }

    /// Refuses a part that is not what the checkpoint counts.
    pub fn check_part<'a>(
        &self,
        name: &'a str,
        part: &mut Option<File>,
        found: &Found,
    ) -> Result<(), JobFault<'a>> {
        let (hashed, _hash) = self.hash_output(name, part, found)?;
        match sighting_of(hashed, found.written) {
            Sighting::Different => Err(JobFault::OtherPart(name)),
            _ => Ok(()),
        }
    }
}

/// OUT, where a complete output may have its name already.
fn published<'a>(
    rt: &HostRuntime,
    name: &'a str,
    found: &Found,
    part: &Option<File>,
) -> Result<Option<File>, JobFault<'a>> {
    if found.claim != Claim::Complete || part.is_some() {
        return Ok(None);
    }
    match open_to_read(rt, name) {
        Ok(out) => Ok(out),
        Err(error) => Err(JobFault::File(name, error)),
    }
}

/// What the checkpoint says, compared with the files.
#[derive(Drop)]
struct Comparison {
    evidence: Evidence,
    hashes: Hashes,
    part: Option<File>,
}

/// Compares IN, the part, and OUT where the part is gone, with what the checkpoint says.
fn compare_all<'a>(
    comparer: &Comparer<'_>,
    (input_name, input): (&'a str, &mut File),
    names: &'a JobNames,
    found: &Found,
) -> Result<Comparison, JobFault<'a>> {
    let (rt, with_sha256) = (comparer.rt, comparer.with_sha256);
    let (part_name, out_name) = (names.name_of(OwnFile::Part), names.name_of(OwnFile::Out));
    let mut part = locked_part(rt, part_name)?;
    let (taken, input) = match hash_file(rt.alloc(), input, found.taken.size, with_sha256) {
        Ok(both) => both,
        Err(error) => return Err(JobFault::File(input_name, error)),
    };
    let (written, part_hash) = comparer.hash_output(part_name, &mut part, found)?;
    let mut out = published(rt, out_name, found, &part)?;
    let (published, out_hash) = comparer.hash_output(out_name, &mut out, found)?;
    let output = if published.is_some() {
        out_hash
    } else {
        part_hash
    };
    Ok(Comparison {
        evidence: evidence_of(found, taken, written, published),
        hashes: Hashes { input, output },
        part,
    })
}

/// How many runs wrote a checkpoint, this one included where it writes one.
fn runs_after(found: &Found) -> Runs {
    let more = match found.claim {
        Claim::Complete => 0,
        _ => 1,
    };
    Runs {
        began: found.runs.began,
        count: found.runs.count.saturating_add(more),
    }
}

/// What a run continues from that has a checkpoint.
fn continue_from<'a>(
    comparer: &Comparer<'_>,
    input: (&'a str, &mut File),
    names: &'a JobNames,
    found: &Found,
) -> Result<StartPoint, JobFault<'a>> {
    let Comparison {
        evidence,
        hashes,
        part,
    } = compare_all(comparer, input, names, found)?;
    if let Err(refusal) = start_of(&evidence) {
        return Err(fault_of(refusal, found, names));
    }
    let complete = match found.claim {
        Claim::Complete => Some(hashes.digests()?),
        _ => None,
    };
    Ok(StartPoint {
        runs: runs_after(found),
        continued: Some(found.taken.size),
        hashes,
        part,
        found: complete,
    })
}

/// What this run continues from; refused where the checkpoint is of another job, where IN, the part or OUT is not what it was, and
/// where a foreign file has a name of the job.
pub fn start_point<'a>(
    comparer: &Comparer<'_>,
    input: (&'a str, &mut File),
    names: &'a JobNames,
    identity: &Identity,
) -> Result<StartPoint, JobFault<'a>> {
    let rt = comparer.rt;
    let Some(found) = find_checkpoint(rt, names)? else {
        check_standings(rt, names, false)?;
        return Ok(begin(rt, comparer.with_sha256));
    };
    check_standings(rt, names, true)?;
    if let Err(fault) = check_identity(&found.identity, identity) {
        let name = names.name_of(OwnFile::Part);
        let mut part = locked_part(rt, name)?;
        // A part that is not the job's goes first: then the job can be given up.
        comparer.check_part(name, &mut part, &found)?;
        return Err(fault);
    }
    continue_from(comparer, input, names, &found)
}
