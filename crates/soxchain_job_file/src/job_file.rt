//! A file that was read.
ghost use Rattle.std.specs.Prelude.{◌≡◌, ◌↔◌, ◌++◌, ℕ, List, length, MatchOption, MatchResult, IfOk, IsErrOf};
ghost use Rattle.soxchain_job_file.specs.JobBytes.{FitsJob, FitsRuns, FitsWord, JobValue, front_bytes, job_bytes, job_value, runs_bytes, word_bytes};
ghost use Rattle.soxchain_job_file.specs.Versions.{IsForeign, IsOtherVersion};
ghost use Rattle.soxchain_job_file.specs.declared.identity.Runs.{Runs};

use crate::fault::JobFileFault;
use crate::identity::{Identity, Runs};
use crate::split::{split_identity, split_runs, split_word, unseal};
use crate::version::{fault_of, strip_first_line};
use std::alloc::{AllocError, Global};

/// The bytes of a hash.
const HASH_SIZE: usize = 8;

/// What the bytes of a file say.
#[derive(Drop)]
pub struct JobFile<'a> {
    pub identity: Identity,
    pub runs: Runs,
    pub checkpoint: &'a [u8],
}

/// Reads the bytes of a file.
pub fn read_job_file(alloc: Global, bytes: &[u8]) -> Result<JobFile<'_>, JobFileFault>
    ensures ok { IfOk result (λ file. bytes.now ≡ job_bytes (job_value file)) }
    ensures fits { IfOk result (λ file. FitsJob (job_value file)) }
    ensures read { (job : JobValue) → FitsJob job → bytes.now ≡ job_bytes job → MatchResult result
        (λ file. job_value file ≡ job) (λ fault. fault ≡ JobFileFault.Memory) }
    ensures foreign { IsErrOf result JobFileFault.Foreign ↔ IsForeign bytes.now }
    ensures version { (version : ℕ) →
        IsErrOf result (JobFileFault.Version version) ↔ IsOtherVersion bytes.now version }
{
    let Some(_) = strip_first_line(bytes) else {
        return Err(fault_of(bytes));
    };
    let Some(front) = unseal(bytes) else {
        return Err(JobFileFault::Damaged);
    };
    match split_file(alloc, front) {
        Ok(Some(file)) => Ok(file),
        Ok(None) => Err(JobFileFault::Damaged),
        Err(_) => Err(JobFileFault::Memory),
    }
}

/// The same of the bytes before their hash. None says that there is no file that they could be of.
fn split_file(alloc: Global, front: &[u8]) -> Result<Option<JobFile<'_>>, AllocError>
    ensures { IfOk result (λ found. MatchOption found
        ((job : JobValue) → FitsJob job → front.now ≡ front_bytes job → ⊥)
        (λ file. FitsJob (job_value file) × (front.now ≡ front_bytes (job_value file)))) }
{
    let Some(rest) = strip_first_line(front) else {
        return Ok(None);
    };
    let Some((identity, rest)) = split_identity(alloc, rest)? else {
        return Ok(None);
    };
    match split_rest(rest) {
        Some((runs, checkpoint)) => Ok(Some(JobFile {
            identity,
            runs,
            checkpoint,
        })),
        None => Ok(None),
    }
}

/// What follows the identity: the runs and the checkpoint, to the end.
fn split_rest(bytes: &[u8]) -> Option<(Runs, &[u8])>
    ensures { MatchOption result
        ((runs : Runs) (checkpoint : List ℕ) → FitsRuns runs → FitsWord (length checkpoint)
        → bytes.now ≡ runs_bytes runs ++ word_bytes (length checkpoint) ++ checkpoint → ⊥)
        (λ found. FitsRuns found.0 × FitsWord (length found.1.now)
        × (bytes.now ≡ runs_bytes found.0 ++ word_bytes (length found.1.now) ++ found.1.now)) }
{
    let (runs, rest) = split_runs(bytes)?;
    let (size, checkpoint) = split_word(rest)?;
    if size != checkpoint.len() as u64 {
        return None;
    }
    Some((runs, checkpoint))
}

/// Makes the bytes of a file those of its checkpoint, of this size, in their own place.
pub fn keep_checkpoint(bytes: &mut Vec<u8>, size: usize)
    ensures { (job : JobValue) → bytes.old.items ≡ job_bytes job
        → length job.checkpoint ≡ size → bytes.new.items ≡ job.checkpoint }
{
    let end = bytes.len().saturating_sub(HASH_SIZE);
    bytes.truncate(end);
    let start = end.saturating_sub(size);
    bytes.rotate_left(start);
    bytes.truncate(size);
}
