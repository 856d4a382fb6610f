//! The names of the files of a job.
ghost use Rattle.std.specs.Prelude.{◌≡◌, ◌⊎◌, ◌↔◌, ◌++◌, IfErr, IfNone, IfOk, IfSome, IsTrue, OnOk, codes, string_bytes};
ghost use Rattle.std.specs.Option.{option_copied};
ghost use Rattle.soxchain_job_rules.specs.NamesFault.{IsNamesFault};
ghost use Rattle.soxchain_job_rules.specs.declared.names.NamesFault.TheVariants.{Memory};
ghost use Rattle.soxchain_job_rules.specs.Names.{AreDistinct, IsFirstTaken, IsFree, JobTexts, base_text, folder_text, job_texts, own_name};

use crate::OwnFile;
use std::alloc::{AllocError, Global};
use std::marker::Model;
use thiserror::Error;

/// Why a job has no names.
#[derive(Clone, Copy, Debug, PartialEq, Eq, Error)]
pub enum NamesFault {
    /// An allocation was refused.
    #[error("out of memory")]
    Memory,
    /// The record would have the name of this file, or would be written under it.
    #[error("the record takes the name of {0}")]
    RecordIs(OwnFile),
}

impl From<AllocError> for NamesFault {
    ghost from_gives = { λ _ e. e ≡ Memory };

    fn from(_: AllocError) -> Self {
        NamesFault::Memory
    }
}

/// The names that begin with OUT.
#[derive(Drop)]
struct OutNames {
    out: String,
    part: String,
    checkpoint: String,
    new_checkpoint: String,
    lock: String,
}

/// The names of the files of a job: no two of them are one text.
#[derive(Drop)]
pub struct JobNames {
    of_out: OutNames,
    record_name: String,
    new_record: String,
}

impl Model for JobNames {
    ghost use Rattle.soxchain_job_rules.specs.Names.{JobTexts};

    ghost Value = { JobTexts };

    ghost use Rattle.soxchain_job_rules.specs.JobNames.{AreJobNames, texts_of};

    ghost view = { texts_of };

    ghost invariant = { AreJobNames };
}

/// A text, and this after it.
fn joined(alloc: Global, text: &str, suffix: &str) -> Result<String, AllocError>
    ensures { IfOk result (λ name. string_bytes name ≡ text.now ++ suffix.now) }
{
    let mut name = String::from_str(alloc, text)?;
    name.push_str(suffix)?;
    Ok(name)
}

impl OutNames {
    ghost use Rattle.soxchain_job_rules.specs.OutNames.{AreNamesOf};

    /// Those of this OUT.
    fn of(alloc: Global, out: &str) -> Result<OutNames, AllocError>
        ensures { (texts : JobTexts) → texts.out ≡ out.now → IfOk result (AreNamesOf texts) }
    {
        Ok(OutNames {
            out: String::from_str(alloc, out)?,
            part: joined(alloc, out, ".part")?,
            checkpoint: joined(alloc, out, ".job")?,
            new_checkpoint: joined(alloc, out, ".job.new")?,
            lock: joined(alloc, out, ".job.lock")?,
        })
    }

    /// The first file whose name the record takes.
    fn taken(&self, record_name: &str, new_record: &str) -> Option<OwnFile>
        ensures first { (texts : JobTexts) → AreNamesOf texts self.now → record_name.now ≡ texts.record_name
            → new_record.now ≡ own_name texts OwnFile.NewRecord → IfSome result (IsFirstTaken texts) }
        ensures none { (texts : JobTexts) → AreNamesOf texts self.now → record_name.now ≡ texts.record_name
            → new_record.now ≡ own_name texts OwnFile.NewRecord → IfNone result (IsFree texts) }
    {
        let is_taken = |name: &str| name == record_name || name == new_record;
        if is_taken(self.out.as_str()) {
            Some(OwnFile::Out)
        } else if is_taken(self.part.as_str()) {
            Some(OwnFile::Part)
        } else if is_taken(self.checkpoint.as_str()) {
            Some(OwnFile::Checkpoint)
        } else if is_taken(self.new_checkpoint.as_str()) {
            Some(OwnFile::NewCheckpoint)
        } else if is_taken(self.lock.as_str()) {
            Some(OwnFile::Lock)
        } else {
            None
        }
    }
}

/// The name of the record of a job: the one that is wanted, or else OUT with `.job.json` after it.
fn record_of(alloc: Global, out: &str, wanted: Option<&str>) -> Result<String, AllocError>
    ensures { IfOk result (λ name. string_bytes name ≡ (job_texts out.now (option_copied wanted.entry)).record_name) }
{
    match wanted {
        Some(name) => String::from_str(alloc, name),
        None => joined(alloc, out, ".job.json"),
    }
}

impl JobNames {
    /// The names of the job whose output has this name, and whose record has the wanted one, or else OUT with `.job.json` after it.
    pub fn of(alloc: Global, out: &str, wanted: Option<&str>) -> Result<JobNames, NamesFault>
        ensures names { IfOk result
            (λ names. names ≡ job_texts out.now (option_copied wanted.entry)) }
        ensures distinct { OnOk result
            (AreDistinct (job_texts out.now (option_copied wanted.entry))) }
        ensures taken { IfErr result
            (IsNamesFault (job_texts out.now (option_copied wanted.entry))) }
    {
        let of_out = OutNames::of(alloc, out)?;
        let record_name = record_of(alloc, out, wanted)?;
        let new_record = joined(alloc, &record_name, ".new")?;
        match of_out.taken(&record_name, &new_record) {
            Some(file) => Err(NamesFault::RecordIs(file)),
            None => Ok(JobNames {
                of_out,
                record_name,
                new_record,
            }),
        }
    }

    /// The name of a file of the job.
    pub fn name_of(&self, file: OwnFile) -> &str
        ensures name { result.now ≡ own_name self.now file }
        ensures distinct { AreDistinct self.now }
    {
        match file {
            OwnFile::Out => self.of_out.out.as_str(),
            OwnFile::Part => self.of_out.part.as_str(),
            OwnFile::Checkpoint => self.of_out.checkpoint.as_str(),
            OwnFile::NewCheckpoint => self.of_out.new_checkpoint.as_str(),
            OwnFile::Lock => self.of_out.lock.as_str(),
            OwnFile::Record => self.record_name.as_str(),
            OwnFile::NewRecord => self.new_record.as_str(),
        }
    }

    /// The folder of a file of the job.
    pub fn folder_of(&self, file: OwnFile) -> &str
        ensures { result.now ≡ folder_text (own_name self.now file) }
    {
        folder_of(self.name_of(file))
    }

    /// The last part of the name of a file of the job.
    pub fn base_of(&self, file: OwnFile) -> &str
        ensures { result.now ≡ base_text (own_name self.now file) }
    {
        base_of(self.name_of(file))
    }
}

/// The folder of a name: what stands before the last slash, `/` where that is nothing, and `.` where there is no slash.
pub fn folder_of(name: &str) -> &str
    ensures { result.now ≡ folder_text name.now }
{
    match name.rsplit_once('/') {
        Some((folder, _)) if folder.is_empty() => "/",
        Some((folder, _)) => folder,
        None => ".",
    }
}

/// The last part of a name: what stands after the last slash, or all where there is none.
pub fn base_of(name: &str) -> &str
    ensures { result.now ≡ base_text name.now }
{
    match name.rsplit_once('/') {
        Some((_, base)) => base,
        None => name,
    }
}
