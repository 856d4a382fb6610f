//! The frames of a sound, one after the other.

ghost use Rattle.std.specs.Prelude.{◌≡◌, ◌≤◌, ◌<◌, ◌+◌, ◌*◌, false, true, None, IfOk, IfSome, IfNone, OnErr, Ok, Err, length};
ghost use Rattle.fx_sound.specs.Source.{CountsReadFailure, Stays};
ghost use Rattle.fx_sound.specs.NextFrame.{CutShort, FollowsMaximum, HoldsRest, MetEnd, PassesBytes, ReachesEnd, TookFrame};
ghost use Rattle.fx_sound.specs.Sound.{HoldsNoMore, size_of, at_most_announced, after_frame, sound_after_end};
ghost use Rattle.fx_sound.specs.Container.{after_frames, start_of};
ghost use Rattle.fx_sound.specs.Fault.{is_read_failed};

use crate::frame_coding::decoded;
use crate::{Head, Source};
use fx_frame::{ByteIn, Coding, Frame, ReadBeside};
pub use fx_frame_base::stage::MAX_FRAMES;
use std::marker::Model;
use thiserror::Error;

/// Why there is no next frame.
#[derive(Clone, Copy, Debug, PartialEq, Eq, Error)]
pub enum ReadFault {
    /// A read failed.
    #[error("the reader failed")]
    ReadFailed = 1,
    /// A frame follows after 2^40 frames.
    #[error("the sound is too long")]
    TooLong = 2,
}

/// A frame follows after 2^40 frames.
#[derive(Clone, Copy, Debug, PartialEq, Eq, Error)]
#[error("the sound is too long")]
pub struct TooLong;

/// The progress of reading a sound.
#[derive(Drop)]
pub struct Progress {
    coding: Coding,
    channels: usize,
    // How many bytes a frame takes.
    size: usize,
    left: Option<u64>,
    frames: u64,
    missing: u64,
    stray: u64,
    is_over: bool,
}

impl Model for Progress {
    ghost use Rattle.std.specs.Prelude.{◌≡◌, ◌<◌, ◌≤◌};
    ghost use Rattle.fx_sound.specs.FrameCoding.{frame_size};
    ghost use Rattle.fx_sound.specs.Sound.{Reading};
    ghost use Rattle.fx_frame_base.specs.declared.stage.TheConstants.{MAX_FRAMES};

    ghost Value = { Reading };

    ghost view = { λ p. record { coding = p.coding; channels = p.channels; left = p.left; frames = p.frames; missing = p.missing; stray = p.stray; over = p.is_over } };

    ghost invariant = { λ p. (0 < p.channels) × (p.channels ≤ 16) × (p.size ≡ frame_size p.coding p.channels) × (p.frames ≤ MAX_FRAMES) };
}

impl Progress {
    /// Nothing of the sound after this head is read yet.
    pub fn new(head: &Head) -> Progress
        ensures { result ≡ start_of head.now }
    {
        Progress {
            coding: head.coding,
            channels: head.channels,
            size: head.channels * head.coding.width(),
            left: head.announced,
            frames: 0,
            missing: 0,
            stray: 0,
            is_over: false,
        }
    }

    /// How many frames were read.
    pub fn frames(&self) -> u64
        ensures { result ≡ self.now.frames }
    {
        self.frames
    }

    /// How many announced bytes were not there, once the end was reached.
    pub fn missing(&self) -> u64
        ensures { result ≡ self.now.missing }
    {
        self.missing
    }

    /// How many bytes came after the last frame, once the end was reached.
    pub fn stray(&self) -> u64
        ensures { result ≡ self.now.stray }
    {
        self.stray
    }

    /// How many bytes the next frame asks for.
    #[inline(always)]
    pub fn wanted(&self) -> usize
        ensures value { result ≡ at_most_announced self.now.left (size_of self.now) }
        ensures maximum { result ≤ size_of self.now }
        ensures bound { size_of self.now ≤ 64 }
    {
        match self.left {
            Some(left) if left < self.size as u64 => left as usize,
            _ => self.size,
        }
    }

    /// The channels of the frames.
    pub fn channels(&self) -> usize
        ensures value { result ≡ self.now.channels }
        ensures some { 1 ≤ result }
        ensures bound { result ≤ 16 }
    {
        self.channels
    }

    // The coding of the samples.
    pub(crate) fn coding(&self) -> Coding
        ensures { result ≡ self.now.coding }
    {
        self.coding
    }

    // How many bytes a frame takes.
    pub(crate) fn frame_size(&self) -> usize
        ensures value { result ≡ size_of self.now }
        ensures some { 1 ≤ result }
        ensures bound { result ≤ 64 }
    {
        let _width = self.coding.width();
        self.size
    }

    // How many whole frames lie in `held` bytes, as far as they are announced and few enough to be read.
    pub(crate) fn frames_in(&self, held: usize) -> usize
        ensures held { result * size_of self.now ≤ held }
        ensures announced { result * size_of self.now ≤ at_most_announced self.now.left (result * size_of self.now) }
        ensures bound { self.now.frames + result ≤ MAX_FRAMES }
        ensures begun { self.now.over ≡ true → result ≡ 0 }
        ensures all { HoldsNoMore self.now held result }
    {
        if self.is_over {
            return 0;
        }
        let announced = match self.left {
            Some(left) => left.min(held as u64),
            None => held as u64,
        };
        let frames = announced / self.frame_size() as u64;
        frames.min(MAX_FRAMES - self.frames) as usize
    }

    // Counts `count` frames.
    pub(crate) fn advance_by(&mut self, count: usize)
        requires { self.old.frames + count ≤ MAX_FRAMES }
        ensures { self.new ≡ after_frames self.old count }
    {
        let size = self.frame_size();
        self.frames += count as u64;
        self.left = match self.left {
            Some(left) => Some(left.saturating_sub((count * size) as u64)),
            None => None,
        };
    }

    // Counts a frame.
    #[inline(always)]
    fn advance(&mut self)
        requires { self.old.frames < MAX_FRAMES }
        ensures { self.new ≡ after_frame self.old }
    {
        self.frames += 1;
        self.left = match self.left {
            Some(left) => Some(left.saturating_sub(self.size as u64)),
            None => None,
        };
    }

    // Counts the bytes after the last frame, and the missing ones.
    #[inline(never)]
    fn finish(&mut self, got: usize)
        ensures { self.new ≡ sound_after_end self.old got }
    {
        self.stray = got as u64;
        self.missing = match self.left {
            Some(left) => left.saturating_sub(got as u64),
            None => 0,
        };
        self.is_over = true;
    }
}

/// The next frame of the sound; always `None` at its end, that is, at the announced size or the
/// end of the input.
///
/// No read is asked for once the announced bytes are there. After `TooLong` what is to come is unchanged. After `ReadFailed`
/// the source holds what came of the frame, and the progress is used only for its counts.
#[inline]
pub fn next_frame<R: ByteIn>(
    source: &mut Source<R>,
    progress: &mut Progress,
) -> Result<Option<Frame>, ReadFault>
    // A frame, or the end, and from then on.
    ensures frame { IfOk result (λ o. IfSome o (TookFrame R.reads source.old source.new progress.old progress.new)) }
    ensures end { IfOk result (λ o. IfNone o (progress.old.over ≡ false
        → MetEnd R.reads source.old source.new progress.old progress.new)) }
    ensures over { IfOk result (λ o. IfNone o (ReachesEnd progress.old progress.new)) }
    ensures stays { progress.old.over ≡ true
        → (result ≡ Ok None) × (progress.new ≡ progress.old) × (source.new ≡ source.old) }

    // The faults.
    ensures read_failed { result ≡ Err ReadFault.ReadFailed → CutShort R.reads source.old source.new progress.old }
    ensures too_long { result ≡ Err ReadFault.TooLong
        → FollowsMaximum R.reads.rest source.old progress.old × Stays R.reads.rest source.old source.new }
    ensures err { OnErr result (progress.new ≡ progress.old) }
    ensures failures { CountsReadFailure R.reads (is_read_failed result) source.old source.new }
    ensures maximum { progress.new.frames ≤ MAX_FRAMES }

    // No read where the bytes are there.
    ensures unread { at_most_announced progress.old.left (size_of progress.old) ≤ length source.old.bytes
        → source.new.reader ≡ source.old.reader }
{
    if progress.is_over {
        return Ok(None);
    }
    let Ok(()) = source.hold(progress.wanted()) else {
        return Err(ReadFault::ReadFailed);
    };
    match take_frame(source, progress) {
        Ok(next) => Ok(next),
        Err(TooLong) => Err(ReadFault::TooLong),
    }
}

/// The next frame from the bytes that are held; `None` where they are fewer than it asks for, which is the end where no more
/// are to come.
///
/// No read is asked for. After `TooLong` the source is unchanged.
#[inline]
pub fn take_frame<R: ReadBeside>(
    source: &mut Source<R>,
    progress: &mut Progress,
) -> Result<Option<Frame>, TooLong>
    requires begun { progress.old.over ≡ false }

    // A frame, or the end.
    ensures frame { IfOk result (λ o. IfSome o (TookFrame R.reads source.old source.new progress.old progress.new)) }
    ensures end { IfOk result (λ o. IfNone o (HoldsRest R.reads.rest source.old progress.old
        → MetEnd R.reads source.old source.new progress.old progress.new)) }
    ensures over { IfOk result (λ o. IfNone o (ReachesEnd progress.old progress.new)) }

    // Too many frames.
    ensures too_long { OnErr result (FollowsMaximum R.reads.rest source.old progress.old) }
    ensures err { OnErr result (progress.new ≡ progress.old) }

    ensures maximum { progress.new.frames ≤ MAX_FRAMES }
    ensures source { PassesBytes result source.old source.new progress.old }
{
    let size = progress.size;
    let got = source.held().min(progress.wanted());
    if got < size {
        source.consume(got);
        progress.finish(got);
        return Ok(None);
    }
    if progress.frames >= MAX_FRAMES {
        return Err(TooLong);
    }
    let frame = decoded(progress.coding, progress.channels, source.peek(size));
    source.consume(size);
    progress.advance();
    Ok(Some(frame))
}
