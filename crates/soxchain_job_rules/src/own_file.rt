//! The files of a job.
ghost use Rattle.std.specs.Prelude.{Some};
ghost use Rattle.soxchain_job_rules.specs.OwnFile.{label_of};

use std::fmt;

/// A file of a job, by its name.
#[derive(Clone, Copy, Debug, PartialEq, Eq)]
pub enum OwnFile {
    /// The complete output.
    Out,
    /// The output while it grows.
    Part,
    /// The last checkpoint.
    Checkpoint,
    /// A checkpoint that is being written.
    NewCheckpoint,
    /// It is locked by the run that has the job.
    Lock,
    /// The record of the finished job.
    Record,
    /// The record while it is being written.
    NewRecord,
}

impl fmt::Display for OwnFile {
    ghost output = { λ file. Some (label_of file) };

    fn fmt<W: fmt::Write>(&self, f: &mut fmt::Formatter<W>) -> fmt::Result {
        f.write_str(match self {
            OwnFile::Out => "OUT",
            OwnFile::Part => "OUT.part",
            OwnFile::Checkpoint => "OUT.job",
            OwnFile::NewCheckpoint => "OUT.job.new",
            OwnFile::Lock => "OUT.job.lock",
            OwnFile::Record => "the record",
            OwnFile::NewRecord => "the record with .new after it",
        })
    }
}
