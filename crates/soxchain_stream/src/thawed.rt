//! The numbers and frames that the bytes of a frozen chain are.
ghost use Rattle.std.specs.Prelude.{◌≡◌, ◌↔◌, ◌≤◌, flat_map, length, IfOk, IfSome, MatchOption, IsSome, map, List, ℕ};
ghost use Rattle.std.specs.Int.{cast_signed, w64};
ghost use Rattle.std.specs.List.{All};
ghost use Rattle.fx_frame_base.specs.Frame.{IsWideFrame, Samples};
ghost use Rattle.soxchain_stream.specs.Frozen.{AreStored, IsWord, frame_words, snapshot_bytes, snapshot_words, word};

use crate::frozen::{FORMAT_VERSION, MARK};
use byteorder::{ByteOrder, LittleEndian};
use fx_frame::WideFrame;
use fx_frame_base::frame::MAX_CHANNELS;
use std::alloc::{AllocError, Global};

/// Numbers and frames read from bytes.
#[derive(Drop)]
pub struct Stored {
    pub numbers: Vec<u64>,
    pub frames: Vec<WideFrame>,
}

/// The words that are these bytes; None where the bytes are no whole words.
pub fn to_words(alloc: Global, bytes: &[u8]) -> Result<Option<Vec<u64>>, AllocError>
    ensures some { IfOk result (λ found. IfSome found (λ words. flat_map word words.items ≡ bytes.now)) }
    ensures words { IfOk result (λ found. IfSome found (λ words. All IsWord words.items)) }
    ensures back { IfOk result (λ found.
        (words : List ℕ) → All IsWord words → flat_map word words ≡ bytes.now
        → MatchOption found ⊥ (λ w. w.items ≡ words)) }
{
    let mut words = Vec::new(alloc);
    let mut rest = bytes;
    while let Some((next, more)) = rest.split_first_chunk::<8>() {
        words.push(LittleEndian::read_u64(next))?;
        rest = more;
    }
    if rest.is_empty() {
        Ok(Some(words))
    } else {
        Ok(None)
    }
}

/// The frame of these samples as words; None where there are none or more than 16.
fn frame_of(words: &[u64]) -> Option<WideFrame>
    ensures some { IsSome result ↔ ((1 ≤ length words.now) × (length words.now ≤ 16)) }
    ensures value { IfSome result (λ f. f ≡ map (cast_signed w64) words.now) }
    ensures wide { IfSome result IsWideFrame }
{
    let count = words.len();
    if count > MAX_CHANNELS {
        return None;
    }
    let mut samples = [0; MAX_CHANNELS];
    for place in 0..count {
        samples[place] = words[place].cast_signed();
    }
    WideFrame::from_slice(&samples[..count])
}

/// The frames that are these words; None where there are none.
fn frames_of(alloc: Global, words: &[u64]) -> Result<Option<Vec<WideFrame>>, AllocError>
    ensures some { IfOk result (λ found. IfSome found (λ frames. flat_map frame_words frames.items ≡ words.now)) }
    ensures wide { IfOk result (λ found. IfSome found (λ frames. All IsWideFrame frames.items)) }
    ensures back { IfOk result (λ found.
        (frames : List Samples) → All IsWideFrame frames → flat_map frame_words frames ≡ words.now
        → MatchOption found ⊥ (λ f. f.items ≡ frames)) }
{
    let mut frames = Vec::new(alloc);
    let mut rest = words;
    while let Some((count, more)) = rest.split_first() {
        if *count > more.len() as u64 {
            return Ok(None);
        }
        let (samples, after) = more.split_at(*count as usize);
        let Some(frame) = frame_of(samples) else {
            return Ok(None);
        };
        frames.push(frame)?;
        rest = after;
    }
    Ok(Some(frames))
}

/// The numbers and frames that are these words; None where there are none.
fn stored_of(alloc: Global, words: &[u64]) -> Result<Option<Stored>, AllocError>
    ensures some { IfOk result (λ found. IfSome found (λ s. snapshot_words s.numbers.items s.frames.items ≡ words.now)) }
    ensures wide { IfOk result (λ found. IfSome found (λ s. All IsWideFrame s.frames.items)) }
    ensures back { IfOk result (λ found.
        (numbers : List ℕ) (frames : List Samples) → All IsWideFrame frames → snapshot_words numbers frames ≡ words.now
        → MatchOption found ⊥ (λ s. (s.numbers.items ≡ numbers) × (s.frames.items ≡ frames))) }
{
    let Some(([mark, version, count], rest)) = words.split_first_chunk::<3>() else {
        return Ok(None);
    };
    if *mark != MARK || *version != FORMAT_VERSION || *count > rest.len() as u64 {
        return Ok(None);
    }
    let (numbers, rest) = rest.split_at(*count as usize);
    let Some(frames) = frames_of(alloc, rest)? else {
        return Ok(None);
    };
    let numbers = Vec::from_slice(alloc, numbers)?;
    Ok(Some(Stored { numbers, frames }))
}

/// The numbers and frames of bytes; None where the bytes are not of this form.
pub fn thaw_from_bytes(alloc: Global, bytes: &[u8]) -> Result<Option<Stored>, AllocError>
    ensures some { IfOk result (λ found. IfSome found (λ s.
        snapshot_bytes s.numbers.items s.frames.items ≡ bytes.now)) }
    ensures stored { IfOk result (λ found. IfSome found (λ s. AreStored s.numbers.items s.frames.items)) }
    ensures back { IfOk result (λ found.
        (numbers : List ℕ) (frames : List Samples) → AreStored numbers frames
        → snapshot_bytes numbers frames ≡ bytes.now
        → MatchOption found ⊥ (λ s. (s.numbers.items ≡ numbers) × (s.frames.items ≡ frames))) }
{
    let Some(words) = to_words(alloc, bytes)? else {
        return Ok(None);
    };
    stored_of(alloc, &words)
}
