//! A checkpoint as bytes: 0, how many bytes of the input were taken and of the output written, each as 8 bytes, little-endian, and
//! the frozen conversion; or 1 and what is recorded of the conversion, once the output is complete.
ghost use Rattle.std.specs.Prelude.{◌≡◌, ◌<◌, ◌^◌, ◌++◌, ◌∷◌, ℕ, List, IfOk};
ghost use Rattle.std.specs.Int.{to_le_bytes, w64};
ghost use Rattle.soxchain_job.specs.Checkpoint.{IsCheckpointOf, IsComplete, IsInProgress, IsReadFrom, complete_bytes, in_progress_bytes};

use crate::Conversion;
use byteorder::{ByteOrder, LittleEndian};
use std::alloc::{AllocError, Global};

/// How far a job has come, as its checkpoint says.
#[derive(Clone, Copy)]
pub struct Progress<'a> {
    /// Bytes of the input that were taken.
    pub taken: u64,
    /// Bytes of the output that were written.
    pub written: u64,
    /// The frozen conversion.
    pub frozen: &'a [u8],
}

/// A checkpoint.
#[derive(Clone, Copy)]
pub enum Checkpoint<'a> {
    /// The job continues from here.
    InProgress(Progress<'a>),
    /// The output is complete, and this is recorded of it.
    Complete(&'a [u8]),
}

/// The first byte of a checkpoint in progress.
const IN_PROGRESS: u8 = 0;

/// The first byte of a complete one.
const COMPLETE: u8 = 1;

/// The bytes of a checkpoint in progress. The conversion writes its own into them: there is no copy of those.
pub fn encode<C: Conversion>(
    alloc: Global,
    taken: u64,
    written: u64,
    conversion: &C,
) -> Result<Vec<u8>, AllocError>
    ensures { IfOk result (λ bytes. IsCheckpointOf C.model.frozen_as conversion.now taken written bytes.items) }
{
    let mut bytes = Vec::new(alloc);
    bytes.push(IN_PROGRESS)?;
    bytes.extend_from_slice(&taken.to_le_bytes())?;
    bytes.extend_from_slice(&written.to_le_bytes())?;
    conversion.freeze(&mut bytes)?;
    Ok(bytes)
}

/// The bytes of the checkpoint of a complete output.
pub fn encode_complete(alloc: Global, summary: &[u8]) -> Result<Vec<u8>, AllocError>
    ensures { IfOk result (λ bytes. bytes.items ≡ complete_bytes summary.now) }
{
    let mut bytes = Vec::new(alloc);
    bytes.push(COMPLETE)?;
    bytes.extend_from_slice(summary)?;
    Ok(bytes)
}

/// The checkpoint of these bytes; None where there is none.
pub fn decode(bytes: &[u8]) -> Option<Checkpoint<'_>>
    ensures in_progress { (taken : ℕ) (written : ℕ) (frozen : List ℕ) → taken < 2 ^ 64 → written < 2 ^ 64
        → bytes.now ≡ in_progress_bytes taken written frozen → IsInProgress taken written frozen result }
    ensures complete { (summary : List ℕ) → bytes.now ≡ complete_bytes summary → IsComplete summary result }
    ensures exact { IsReadFrom bytes.now result }
{
    match bytes {
        [COMPLETE, summary @ ..] => Some(Checkpoint::Complete(summary)),
        [IN_PROGRESS, rest @ ..] => decode_progress(rest),
        _ => None,
    }
}

/// What follows the first byte of a checkpoint in progress.
fn decode_progress(bytes: &[u8]) -> Option<Checkpoint<'_>>
    ensures found { (taken : ℕ) (written : ℕ) (frozen : List ℕ) → taken < 2 ^ 64 → written < 2 ^ 64
        → bytes.now ≡ to_le_bytes w64 taken ++ to_le_bytes w64 written ++ frozen → IsInProgress taken written frozen result }
    ensures exact { IsReadFrom (0 ∷ bytes.now) result }
{
    let Some((taken, rest)) = bytes.split_first_chunk::<8>() else {
        return None;
    };
    let Some((written, frozen)) = rest.split_first_chunk::<8>() else {
        return None;
    };
    Some(Checkpoint::InProgress(Progress {
        taken: LittleEndian::read_u64(taken),
        written: LittleEndian::read_u64(written),
        frozen,
    }))
}
