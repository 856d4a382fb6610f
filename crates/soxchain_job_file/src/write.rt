//! The bytes of a file, as they are written.
ghost use Rattle.std.specs.Prelude.{◌≡◌, ◌++◌, map, string_bytes, length, IfOk, OnOk};
ghost use Rattle.std.specs.List.{flat_map};
ghost use Rattle.std.specs.Io.KnownBytes.{Appends};
ghost use Rattle.soxchain_xxh64.specs.Xxh64.{xxh64};
ghost use Rattle.soxchain_job_file.specs.JobBytes.{head_bytes, identity_bytes, identity_value, job_bytes, list_bytes, text_bytes, word_bytes};

use crate::identity::{Identity, Runs};
use crate::version::FIRST_LINE;
use byteorder::{LittleEndian, WriteBytesExt};
use soxchain_xxh64::Xxh64;
use std::alloc::Global;
use std::io::{self, Write};

/// Writes the file of a job: its parts go to the writer one after the other, and there is no copy of the checkpoint. The nanoseconds of
/// the moment are to be below 10^9, or the file is read as damaged. A write that fails leaves any beginning of the bytes.
pub fn write_job_file<W: Write>(
    alloc: Global,
    writer: &mut W,
    identity: &Identity,
    runs: Runs,
    checkpoint: &[u8],
) -> io::Result<()>
    ensures { OnOk result (Appends (W.contents writer.old) (W.contents writer.new)
        (job_bytes (record {
          identity = identity_value identity.now;
          runs = runs;
          checkpoint = checkpoint.now;
        }))) }
{
    let head = encode_head(alloc, identity, runs, checkpoint.len() as u64)?;
    let hash = hash_parts(&head, checkpoint);
    writer.write_all(&head)?;
    writer.write_all(checkpoint)?;
    writer.write_u64::<LittleEndian>(hash)
}

/// The hash of two parts, one after the other.
fn hash_parts(first: &[u8], second: &[u8]) -> u64
    ensures { result ≡ xxh64 (first.now ++ second.now) }
{
    let mut hasher = Xxh64::new();
    hasher.update(first);
    hasher.update(second);
    hasher.digest()
}

/// All before the checkpoint, of which this is the size.
fn encode_head(alloc: Global, identity: &Identity, runs: Runs, size: u64) -> io::Result<Vec<u8>>
    ensures { IfOk result
        (λ bytes. bytes.items ≡ head_bytes (identity_value identity.now) runs size) }
{
    let mut bytes = FIRST_LINE.to_vec(alloc)?;
    append_identity(&mut bytes, identity)?;
    append_word(&mut bytes, runs.began)?;
    append_word(&mut bytes, runs.count)?;
    append_word(&mut bytes, size)?;
    Ok(bytes)
}

/// What a job is known by.
fn append_identity(bytes: &mut Vec<u8>, identity: &Identity) -> io::Result<()>
    ensures { OnOk result
        (bytes.new.items ≡ bytes.old.items ++ identity_bytes (identity_value identity.now)) }
{
    append_texts(bytes, identity.words.as_slice())?;
    append_numbers(bytes, identity.files.as_slice())?;
    append_word(bytes, identity.size)?;
    append_word(bytes, identity.modified.seconds.cast_unsigned())?;
    append_word(bytes, u64::from(identity.modified.nanoseconds))
}

/// Texts after their count.
fn append_texts(bytes: &mut Vec<u8>, texts: &[String]) -> io::Result<()>
    ensures { OnOk result
        (bytes.new.items ≡ bytes.old.items ++ list_bytes text_bytes (map string_bytes texts.now)) }
{
    append_word(bytes, texts.len() as u64)?;
    for text in texts {
        append_word(bytes, text.len() as u64)?;
        bytes.extend_from_slice(text.as_bytes())?;
    }
    Ok(())
}

/// Numbers after their count.
fn append_numbers(bytes: &mut Vec<u8>, numbers: &[u64]) -> io::Result<()>
    ensures { OnOk result
        (bytes.new.items ≡ bytes.old.items ++ list_bytes word_bytes numbers.now) }
{
    append_word(bytes, numbers.len() as u64)?;
    for number in numbers {
        append_word(bytes, *number)?;
    }
    Ok(())
}

/// A number.
#[tactic(auto, unfolding(crate::specs::JobBytes::word_bytes))]
fn append_word(bytes: &mut Vec<u8>, number: u64) -> io::Result<()>
    ensures { OnOk result (bytes.new.items ≡ bytes.old.items ++ word_bytes number) }
{
    bytes.write_u64::<LittleEndian>(number)
}
