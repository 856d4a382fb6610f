//! The values that bytes begin with, each with the bytes after it. None says that they begin with no such value.
ghost use Rattle.std.specs.Prelude.{◌≡◌, ℕ, List, map, MatchOption, IfOk, string_bytes};
ghost use Rattle.std.specs.List.{flat_map};
ghost use Rattle.soxchain_job_file.specs.JobBytes.{FitsIdentity, FitsList, FitsRuns, FitsStamp, FitsText, FitsWord, identity_bytes, identity_value, list_bytes, runs_bytes, sealed, stamp_bytes, text_bytes, word_bytes};
ghost use Rattle.soxchain_job_file.specs.Splits.{Lacks, SoMany, Splits};

use crate::identity::{Identity, Runs, Stamp};
use byteorder::{ByteOrder, LittleEndian};
use soxchain_xxh64::xxh64;
use std::alloc::{AllocError, Global};

/// More nanoseconds than a moment has.
const NANOSECONDS: u64 = 1_000_000_000;

/// A number of 64 bits.
#[tactic(auto, using(crate::proofs::Splitting::word_lacks))]
pub fn split_word(bytes: &[u8]) -> Option<(u64, &[u8])>
    ensures { MatchOption result (Lacks word_bytes FitsWord bytes.now)
        (λ found. Splits word_bytes FitsWord bytes.now found.0 found.1.now) }
{
    let (word, rest) = bytes.split_first_chunk::<8>()?;
    Some((LittleEndian::read_u64(word), rest))
}

/// A text after its size.
fn split_text(bytes: &[u8]) -> Option<(&str, &[u8])>
    ensures { MatchOption result (Lacks text_bytes FitsText bytes.now)
        (λ found. Splits text_bytes FitsText bytes.now found.0.now found.1.now) }
{
    let (size, rest) = split_word(bytes)?;
    if size > rest.len() as u64 {
        return None;
    }
    let (text, rest) = rest.split_at(size as usize);
    let Ok(text) = str::from_utf8(text) else {
        return None;
    };
    Some((text, rest))
}

/// So many texts.
fn split_texts(
    alloc: Global,
    count: u64,
    bytes: &[u8],
) -> Result<Option<(Vec<String>, &[u8])>, AllocError>
    ensures { IfOk result (λ found. MatchOption found
        (Lacks (flat_map text_bytes) (SoMany FitsText count) bytes.now)
        (λ split. Splits (flat_map text_bytes) (SoMany FitsText count)
        bytes.now (map string_bytes split.0.items) split.1.now)) }
{
    let mut texts = Vec::new(alloc);
    let mut rest = bytes;
    'texts: for _ in 0..count {
        let Some((text, after)) = split_text(rest) else {
            return Ok(None);
        };
        texts.push(String::from_str(alloc, text)?)?;
        rest = after;
    }
    Ok(Some((texts, rest)))
}

/// The same after their count.
fn split_words(alloc: Global, bytes: &[u8]) -> Result<Option<(Vec<String>, &[u8])>, AllocError>
    ensures { IfOk result (λ found. MatchOption found
        (Lacks (list_bytes text_bytes) (FitsList FitsText) bytes.now)
        (λ split. Splits (list_bytes text_bytes) (FitsList FitsText)
        bytes.now (map string_bytes split.0.items) split.1.now)) }
{
    match split_word(bytes) {
        Some((count, rest)) => split_texts(alloc, count, rest),
        None => Ok(None),
    }
}

/// So many numbers.
fn split_numbers(
    alloc: Global,
    count: u64,
    bytes: &[u8],
) -> Result<Option<(Vec<u64>, &[u8])>, AllocError>
    ensures { IfOk result (λ found. MatchOption found
        (Lacks (flat_map word_bytes) (SoMany FitsWord count) bytes.now)
        (λ split. Splits (flat_map word_bytes) (SoMany FitsWord count)
        bytes.now split.0.items split.1.now)) }
{
    let mut numbers = Vec::new(alloc);
    let mut rest = bytes;
    'numbers: for _ in 0..count {
        let Some((number, after)) = split_word(rest) else {
            return Ok(None);
        };
        numbers.push(number)?;
        rest = after;
    }
    Ok(Some((numbers, rest)))
}

/// The same after their count.
fn split_files(alloc: Global, bytes: &[u8]) -> Result<Option<(Vec<u64>, &[u8])>, AllocError>
    ensures { IfOk result (λ found. MatchOption found
        (Lacks (list_bytes word_bytes) (FitsList FitsWord) bytes.now)
        (λ split. Splits (list_bytes word_bytes) (FitsList FitsWord)
        bytes.now split.0.items split.1.now)) }
{
    match split_word(bytes) {
        Some((count, rest)) => split_numbers(alloc, count, rest),
        None => Ok(None),
    }
}

/// A moment.
fn split_stamp(bytes: &[u8]) -> Option<(Stamp, &[u8])>
    ensures { MatchOption result (Lacks stamp_bytes FitsStamp bytes.now)
        (λ found. Splits stamp_bytes FitsStamp bytes.now found.0 found.1.now) }
{
    let (seconds, rest) = split_word(bytes)?;
    let (nanoseconds, rest) = split_word(rest)?;
    if nanoseconds >= NANOSECONDS {
        return None;
    }
    let stamp = Stamp {
        seconds: seconds.cast_signed(),
        nanoseconds: nanoseconds as u32,
    };
    Some((stamp, rest))
}

/// When a job began, and how many runs it has had.
pub fn split_runs(bytes: &[u8]) -> Option<(Runs, &[u8])>
    ensures { MatchOption result (Lacks runs_bytes FitsRuns bytes.now)
        (λ found. Splits runs_bytes FitsRuns bytes.now found.0 found.1.now) }
{
    let (began, rest) = split_word(bytes)?;
    let (count, rest) = split_word(rest)?;
    Some((Runs { began, count }, rest))
}

/// What a job is known by.
pub fn split_identity(alloc: Global, bytes: &[u8]) -> Result<Option<(Identity, &[u8])>, AllocError>
    ensures { IfOk result (λ found. MatchOption found
        (Lacks identity_bytes FitsIdentity bytes.now)
        (λ split. Splits identity_bytes FitsIdentity
        bytes.now (identity_value split.0) split.1.now)) }
{
    let Some((words, rest)) = split_words(alloc, bytes)? else {
        return Ok(None);
    };
    let Some((files, rest)) = split_files(alloc, rest)? else {
        return Ok(None);
    };
    let Some((size, rest)) = split_word(rest) else {
        return Ok(None);
    };
    let Some((modified, rest)) = split_stamp(rest) else {
        return Ok(None);
    };
    let identity = Identity {
        words,
        files,
        size,
        modified,
    };
    Ok(Some((identity, rest)))
}

/// The bytes before their hash.
pub fn unseal(bytes: &[u8]) -> Option<&[u8]>
    ensures { MatchOption result ((front : List ℕ) → bytes.now ≡ sealed front → ⊥)
        (λ front. bytes.now ≡ sealed front.now) }
{
    let (front, hash) = bytes.split_last_chunk::<8>()?;
    if LittleEndian::read_u64(hash) == xxh64(front) {
        Some(front)
    } else {
        None
    }
}
