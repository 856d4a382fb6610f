//! The state that most stages have in common: the pending frame, its clips, and the counters.
ghost use Rattle.std.specs.Prelude.{◌≡◌, ◌+◌, ◌<◌, ◌^◌, None, true, is_some};
ghost use Rattle.fx_frame_base.specs.StageCore.{after_offering, after_passing, after_pending, core_counters, new_core, restored_core};

use crate::frame::Frame;
use crate::stage::Counters;

/// The pending frame of a stage, its clips, and the counters of the stage. Each call changes what its contract names, and nothing
/// else.
#[derive(Drop)]
pub struct StageCore {
    pending: Option<Frame>,
    pending_clips: u64,
    taken: u64,
    given: u64,
    clips: u64,
    ended: bool,
}

impl StageCore {
    /// The core of a new stage.
    pub const fn new() -> StageCore
        ensures { result ≡ new_core }
    {
        StageCore {
            pending: None,
            pending_clips: 0,
            taken: 0,
            given: 0,
            clips: 0,
            ended: false,
        }
    }

    /// The core of a stage that counted these, and holds this pending frame with so many clips.
    pub fn restored(pending: Option<Frame>, pending_clips: u64, counters: Counters) -> StageCore
        ensures { result ≡ restored_core pending pending_clips counters }
    {
        StageCore {
            pending,
            pending_clips,
            taken: counters.taken,
            given: counters.given,
            clips: counters.clips,
            ended: counters.ended,
        }
    }

    /// The pending frame, if there is one.
    #[inline(always)]
    pub fn pending(&self) -> Option<Frame>
        ensures { result ≡ self.now.pending }
    {
        self.pending
    }

    /// Whether a frame is pending.
    #[inline(always)]
    pub fn is_pending(&self) -> bool
        ensures { result ≡ is_some self.now.pending }
    {
        self.pending.is_some()
    }

    /// How many samples of the pending frame were clipped.
    #[inline(always)]
    pub fn pending_clips(&self) -> u64
        ensures { result ≡ self.now.pending_clips }
    {
        self.pending_clips
    }

    /// What the stage counted, and whether it was given the end.
    #[inline(always)]
    pub fn counter_values(&self) -> Counters
        ensures { result ≡ core_counters self.now }
    {
        Counters {
            taken: self.taken,
            given: self.given,
            clips: self.clips,
            ended: self.ended,
        }
    }

    /// How many frames the stage took.
    #[inline(always)]
    pub fn taken(&self) -> u64
        ensures { result ≡ self.now.taken }
    {
        self.counter_values().taken
    }

    /// Whether it was given the end.
    #[inline(always)]
    pub fn is_ended(&self) -> bool
        ensures { result ≡ self.now.ended }
    {
        self.ended
    }

    /// Counts a frame that the stage took, and that makes no frame yet.
    #[inline(always)]
    pub fn take(&mut self)
        requires { self.old.taken < 2 ^ 62 }
        ensures { self.new ≡ record self.old { taken = self.old.taken + 1 } }
    {
        self.taken += 1;
    }

    /// Counts a frame that the stage took, and keeps the frame made of it, with its clips, until it is given.
    #[inline(always)]
    pub fn offer(&mut self, frame: Frame, clips: u64)
        requires { self.old.taken < 2 ^ 62 }
        ensures { self.new ≡ after_offering frame clips self.old }
    {
        self.pending = Some(frame);
        self.pending_clips = clips;
        self.taken += 1;
    }

    /// Keeps this frame, of which no sample was clipped, until it is given; None: no frame is pending. It counts nothing: for a
    /// stage whose pending frame is not the one that it took last.
    #[inline(always)]
    pub fn set_pending(&mut self, pending: Option<Frame>)
        ensures { self.new ≡ record self.old { pending = pending; pending_clips = 0 } }
    {
        self.pending = pending;
        self.pending_clips = 0;
    }

    /// Gives the pending frame, and counts it and its clips; None, with nothing changed, where there is none.
    #[inline(always)]
    pub fn give(&mut self) -> Option<Frame>
        requires given { self.old.given < 2 ^ 62 }
        requires clips { self.old.clips + self.old.pending_clips < 2 ^ 63 }
        ensures frame { result ≡ self.old.pending }
        ensures none { result ≡ None → self.new ≡ self.old }
        ensures some { is_some result ≡ true → self.new ≡ after_pending self.old }
    {
        let frame = self.pending?;
        self.given += 1;
        self.clips += self.pending_clips;
        self.set_pending(None);
        Some(frame)
    }

    /// Counts a frame that the stage gave and that was never pending, and its clips.
    #[inline(always)]
    pub fn give_made(&mut self, clips: u64)
        requires given { self.old.given < 2 ^ 62 }
        requires clips { self.old.clips + clips < 2 ^ 63 }
        ensures { self.new ≡ record self.old { given = self.old.given + 1; clips = self.old.clips + clips } }
    {
        self.given += 1;
        self.clips += clips;
    }

    /// Counts frames that the stage took and gave in one call, and their clips.
    #[inline(always)]
    pub fn pass(&mut self, count: usize, clips: u64)
        requires taken { self.old.taken + count < 2 ^ 62 }
        requires given { self.old.given + count < 2 ^ 62 }
        requires clips { self.old.clips + clips < 2 ^ 63 }
        ensures { self.new ≡ after_passing count clips self.old }
    {
        self.taken += count as u64;
        self.given += count as u64;
        self.clips += clips;
    }

    /// Counts that the stage was given the end.
    pub fn end(&mut self)
        ensures { self.new ≡ record self.old { ended = true } }
    {
        self.ended = true;
    }

    /// Counts frames that the stage took in one call. `pass` is for a stage that gives one for each.
    #[inline(always)]
    pub fn take_many(&mut self, count: u64)
        requires { self.old.taken + count < 2 ^ 62 }
        ensures { self.new ≡ record self.old { taken = self.old.taken + count } }
    {
        self.taken += count;
    }

    /// Counts frames that the stage gave in one call, that were never pending and have no clips.
    #[inline(always)]
    pub fn give_many(&mut self, count: u64)
        requires { self.old.given + count < 2 ^ 62 }
        ensures { self.new ≡ record self.old { given = self.old.given + count } }
    {
        self.given += count;
    }
}
