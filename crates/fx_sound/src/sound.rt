//! A whole sound in memory.

ghost use Rattle.std.specs.Prelude.{◌≡◌, ◌+◌, ◌≤◌, ◌*◌, drop, false, IfOk, IfErr, OnErr, Err, Ok, Some, length};
ghost use Rattle.fx_sound.specs.Fault.{is_sound_read_failed};
ghost use Rattle.fx_sound.specs.Container.{after_frames, container};
ghost use Rattle.fx_sound.specs.Known.{IfKnown};
ghost use Rattle.fx_sound.specs.Sound.{size_of, within_sound};
ghost use Rattle.fx_sound.specs.Source.{CountsReadFailure, to_come};
ghost use Rattle.fx_sound.specs.WholeSound.{outcome, CutShortAfter, IsAfterHead, IsHeadFault, ReadAllFrames};

use super::progress::{MAX_FRAMES, Progress, ReadFault, next_frame};
use crate::{Head, HeadFault, Kind, Source, read_head};
use fx_frame::{ByteIn, Frame};
use std::alloc::Global;
use thiserror::Error;

/// A whole sound.
#[derive(Drop)]
pub struct Sound {
    /// The content of its head.
    pub head: Head,
    /// Its whole frames.
    pub frames: Vec<Frame>,
    /// How many announced bytes were not there.
    pub missing: u64,
    /// How many bytes came after the last frame.
    pub stray: u64,
}

/// Why a sound was not read whole.
#[derive(Clone, Copy, Debug, PartialEq, Eq, Error)]
pub enum SoundFault {
    /// What is wrong with its head.
    #[error("the head: {0}")]
    Head(HeadFault),
    /// Why there was no next frame.
    #[error("the sound: {0}")]
    Read(ReadFault),
    /// An allocation was refused.
    #[error("no memory")]
    Memory,
}

/// The frames of a sound of which nothing was read, up to its end.
pub fn read_frames<R: ByteIn>(
    alloc: Global,
    source: &mut Source<R>,
    progress: &mut Progress,
) -> Result<Vec<Frame>, SoundFault>
    requires fresh { progress.old.frames ≡ 0 }
    requires begun { progress.old.over ≡ false }
    ensures whole { IfOk result (λ v. ReadAllFrames R.reads source.old source.new progress.old progress.new v.items) }
    ensures counted { OnErr result (progress.new ≡ after_frames progress.old progress.new.frames) }
    ensures read_failed { result ≡ Err (SoundFault.Read ReadFault.ReadFailed)
        → CutShortAfter R.reads source.old source.new progress.old progress.new.frames }
    ensures stands { OnErr result (is_sound_read_failed result ≡ false
        → IfKnown (to_come R.reads.rest source.old) (λ bytes.
        to_come R.reads.rest source.new ≡ Some (drop (progress.new.frames * size_of progress.old) bytes))) }
    ensures after_head { IfErr result IsAfterHead }
    ensures failures { CountsReadFailure R.reads (is_sound_read_failed result) source.old source.new }
    ensures too_long { result ≡ Err (SoundFault.Read ReadFault.TooLong)
        → IfKnown (to_come R.reads.rest source.old) (λ bytes.
        (MAX_FRAMES + 1) * size_of progress.old ≤ length (within_sound progress.old.left bytes)) }
{
    let mut frames = Vec::new(alloc);
    for _turn in 0..MAX_FRAMES + 1 {
        match next_frame(source, progress) {
            Ok(Some(frame)) => frames.push(frame).map_err(|_| SoundFault::Memory)?,
            Ok(None) => return Ok(frames),
            Err(fault) => return Err(SoundFault::Read(fault)),
        }
    }
    unreachable!()
}

/// A whole sound: its head and its frames, as the container defines them on all bytes at once.
pub fn read_sound<R: ByteIn>(
    alloc: Global,
    source: &mut Source<R>,
    expected: Option<Kind>,
) -> Result<Sound, SoundFault>
    ensures sound { IfOk result (λ s. IfKnown (to_come R.reads.rest source.old) (λ bytes.
        container expected bytes ≡ Ok (outcome s))) }
    ensures fault { IfErr result (λ e. IfKnown (to_come R.reads.rest source.old) (λ bytes.
        IsHeadFault (container expected bytes) e)) }
    ensures failures { CountsReadFailure R.reads (is_sound_read_failed result) source.old source.new }
{
    let head = read_head(source, expected).map_err(SoundFault::Head)?;
    let mut progress = Progress::new(&head);
    let frames = read_frames(alloc, source, &mut progress)?;
    Ok(Sound {
        head,
        frames,
        missing: progress.missing(),
        stray: progress.stray(),
    })
}
