//! The numbers of a stage in a snapshot, by name: those of a core, and all eight of a stage with a tail.
ghost use Rattle.std.specs.Prelude.{◌≡◌, ◌↔◌, true};
ghost use Rattle.fx_frame.specs.Numbers.{AreCoreNumbers, by_name, core_of};

use fx_frame_base::stage::MAX_TAKEN;
use fx_frame_base::{Counters, Frame, StageCore};

/// What a snapshot says of the core of a stage.
#[derive(Clone, Copy)]
pub struct CoreNumbers {
    /// The frames taken.
    pub taken: u64,
    /// The frames given.
    pub given: u64,
    /// 1 after the end, 0 before it.
    pub ended: u64,
    /// The clipped samples of the frames given.
    pub clips: u64,
    /// 1 if a frame is pending, else 0.
    pub pending_count: u64,
    /// The clipped samples of the pending frame.
    pub pending_clips: u64,
}

impl CoreNumbers {
    /// Whether these numbers can belong to a core whose frames have at most `max_clips` clipped samples each. The caller compares
    /// `pending_count` with the stored frames: that it is at most 1 is not tested here.
    pub fn are_valid(&self, max_clips: u64) -> bool
        ensures { result ≡ true ↔ AreCoreNumbers max_clips self.now }
    {
        self.ended <= 1
            && self.taken <= MAX_TAKEN
            && (self.pending_count != 0 || self.pending_clips == 0)
            && (self.pending_count == 0 || self.ended == 0)
            && self.pending_clips <= max_clips
            && self.clips <= self.given.saturating_mul(max_clips)
    }

    /// The core that has these numbers and this pending frame. `pending_count` is not read: the caller compares it with `pending`.
    pub fn restored(&self, pending: Option<Frame>) -> StageCore
        ensures { result ≡ core_of self.now pending }
    {
        let counters = Counters {
            taken: self.taken,
            given: self.given,
            clips: self.clips,
            ended: self.ended == 1,
        };
        StageCore::restored(pending, self.pending_clips, counters)
    }
}

/// What a snapshot says of a stage with a tail.
#[derive(Clone, Copy)]
pub struct TailNumbers {
    pub core: CoreNumbers,
    /// How many frames it stores: those of its lines, and the pending one.
    pub stored: u64,
    /// How many frames it still gives after the end, without the pending one.
    pub tail: u64,
}

impl TailNumbers {
    /// Names the eight numbers of a stage with a tail.
    pub fn of(numbers: &[u64; 8]) -> TailNumbers
        ensures { result ≡ by_name numbers.now }
    {
        let [
            taken,
            given,
            ended,
            clips,
            stored,
            tail,
            pending_count,
            pending_clips,
        ] = *numbers;
        TailNumbers {
            core: CoreNumbers {
                taken,
                given,
                ended,
                clips,
                pending_count,
                pending_clips,
            },
            stored,
            tail,
        }
    }
}
