ghost use Rattle.std.specs.Prelude.{◌≡◌, ◌<◌, ◌≤◌, ℕ, true, false, List, [], length, slice_index_or, MatchOption, MatchResult, IfOk, Err};
ghost use Rattle.fx_frame_base.specs.Frame.{Samples};
ghost use Rattle.fx_frame_base.specs.Stage.{Acts, Freezes, Gave, Took, Ended, IsDry, IsLined, IsWet, IsWithin, hold_of, kind, numbers_of, state_counters_of, spent};

use crate::frame::Frame;
use crate::wide::WideFrame;
use std::alloc::Global;
use thiserror::Error;

/// The maximum number of frames that the stage of an effect takes, where its arguments set no smaller limit.
pub const MAX_TAKEN: u64 = 1 << 56;

/// The maximum number of frames of a sound: of one that is read, and that a chain takes.
pub const MAX_FRAMES: u64 = 1 << 40;

/// The maximum number of effects of a chain.
pub const MAX_EFFECTS: usize = 32;

/// What a stage counted since it was made, and whether it was given the end.
#[derive(Clone, Copy, Debug, Drop, PartialEq, Eq)]
pub struct Counters {
    /// The frames that it took.
    pub taken: u64,
    /// The frames that it gave.
    pub given: u64,
    /// The samples that were clipped in the frames that it gave.
    pub clips: u64,
    /// It was given the end.
    pub ended: bool,
}

/// Takes frames one at a time and gives frames one at a time.
///
/// A stage is dry where it has no frame to give now. It takes a frame, or is given the end, only where
/// it is dry; then it is asked for frames until it is dry again. No call fails, and none takes memory.
/// It holds the frames of its line, or of its lines, and one pending frame.
pub trait Stage {
    /// The arguments that determine what it does, as contracts use them.
    ghost Recipe: { Type 0 };

    /// What it does, as a value of `Acts`.
    ghost acts: { Acts Self Recipe };

    /// The invariant of the stage.
    ghost sound: { Self → Type 0 };

    /// Takes a frame: what is still to be given for some frames to come is now what it was for this
    /// frame and them.
    fn take(&mut self, frame: Frame)
        requires dry { acts.dry self.old ≡ true }
        requires not_ended { (acts.counts self.old).ended ≡ false }
        requires channels { length frame ≡ (kind acts self.old).inputs }
        requires below_limit { (acts.counts self.old).taken < (kind acts self.old).limit }
        ensures { Took acts self.old self.new frame };

    /// Gives it the end: no frame will come.
    fn end(&mut self)
        requires dry { acts.dry self.old ≡ true }
        requires not_ended { (acts.counts self.old).ended ≡ false }
        ensures { Ended acts self.old self.new };

    /// Gives the next frame; None exactly where it is dry, and then nothing changes.
    fn give(&mut self) -> Option<Frame>
        ensures { MatchOption result ((acts.dry self.old ≡ true) × (self.new ≡ self.old)) (Gave acts self.old self.new) };

    /// Whether it has no frame to give now. Without the end it is dry exactly where it has given all frames
    /// that are due, after the end exactly where it has given all. Where it is dry it holds the frames of
    /// its line alone.
    fn is_dry(&self) -> bool
        ensures value { result ≡ acts.dry self.now }
        ensures dry { result ≡ true → IsDry acts self.now }
        ensures wet { result ≡ false → IsWet acts self.now }
        ensures lined { result ≡ true → IsLined acts self.now };

    /// What it counted, and whether it was given the end.
    fn counter_values(&self) -> Counters
        ensures taken { result.taken ≡ (acts.counts self.now).taken }
        ensures given { result.given ≡ (acts.counts self.now).given }
        ensures clips { result.clips ≡ (acts.counts self.now).clips }
        ensures ended { result.ended ≡ (acts.counts self.now).ended }
        ensures over { result.ended ≡ true → (z : List Samples) → acts.rest self.now z ≡ acts.rest self.now [] }
        ensures within { IsWithin acts self.now }
        ensures sound { sound self.now };

    /// The three state counters of the stage.
    fn state_counters(&self) -> [u64; 3]
        ensures { result ≡ state_counters_of acts self.now };

    /// Whether it was given the end.
    fn is_ended(&self) -> bool
        ensures value { result ≡ (acts.counts self.now).ended }
        ensures over { result ≡ true → (z : List Samples) → acts.rest self.now z ≡ acts.rest self.now [] }
    {
        self.counter_values().ended
    }

    /// Whether it gives nothing more, whatever input follows: true exactly where it is dry and has taken as many
    /// frames as are enough for its arguments.
    fn is_spent(&self) -> bool
        ensures value { result ≡ spent acts self.now }
        ensures nothing { result ≡ true → (z : List Samples) → acts.rest self.now z ≡ [] };

    /// How many frames it holds: those of its line, or of its lines, and the pending one.
    fn held(&self) -> u64
        ensures value { result ≡ length (acts.stored self.now) }
        ensures within { result ≤ hold_of (kind acts self.now) };

    /// How many frames it may hold.
    fn hold(&self) -> u64
        ensures value { result ≡ hold_of (kind acts self.now) }
        ensures capacity { acts.capacity self.now ≡ (kind acts self.now).line };

    /// How many samples were clipped in the frames that it gave.
    fn clips(&self) -> u64
        ensures { result ≡ (acts.counts self.now).clips }
    {
        self.counter_values().clips
    }

    /// The channels of the frames that it takes.
    fn in_channels(&self) -> usize
        ensures { result ≡ (kind acts self.now).inputs };

    /// The channels of the frames that it gives.
    fn out_channels(&self) -> usize
        ensures { result ≡ (kind acts self.now).outputs };

    /// The frames taken, the frames given, 1 after the end and else 0, the clips, the frames held, and
    /// three state counters.
    fn counters(&self) -> [u64; 8]
        ensures value { result ≡ numbers_of acts self.now }
        ensures within { IsWithin acts self.now }
        ensures sound { sound self.now }
    {
        let counter_values = self.counter_values();
        let [first, second, third] = self.state_counters();
        [
            counter_values.taken,
            counter_values.given,
            u64::from(counter_values.ended),
            counter_values.clips,
            self.held(),
            first,
            second,
            third,
        ]
    }

    /// The frame that it holds at a place, from 0: its line from the oldest frame on, then the pending
    /// one.
    fn stored(&self, j: usize) -> WideFrame
        requires { j < length (acts.stored self.now) }
        ensures { result ≡ slice_index_or (acts.stored self.now) j [] };

    /// More frames taken never mean fewer frames given.
    ghost rises: { (r : Recipe) (m n : ℕ) → m ≤ n → (acts.kind_of r).maximum m ≤ (acts.kind_of r).maximum n };
}

/// Why a stage or a chain cannot be made from frames and numbers.
#[derive(Clone, Copy, Debug, PartialEq, Eq, Drop, Error)]
pub enum ThawFault {
    /// The plan is not the one of the frames and numbers.
    #[error("the plan is another one")]
    WrongPlan = 1,
    /// No stage or chain of this plan stores and counts these.
    #[error("not a snapshot of this plan")]
    BadSnapshot = 2,
    /// An allocation was refused.
    #[error("out of memory")]
    Memory = 3,
}

/// A stage that can be restored from the frames that it stored and the numbers that it counted.
pub trait Thaws: Stage {
    /// The arguments that it is made with.
    type Arguments;

    /// What the arguments must satisfy.
    ghost fits: { Self.Arguments → Type 0 };

    /// A stage was made with the arguments.
    ghost made: { Self.Arguments → Self → Type 0 };

    /// The stage that stores these frames and counts these numbers: whichever stage of these arguments
    /// they came from, that stage is restored, unless memory is refused. BadSnapshot where there is no
    /// such stage, Memory where an allocation was refused.
    fn thaw(
        alloc: Global,
        arguments: &Self::Arguments,
        frames: &[WideFrame],
        numbers: &[u64; 8],
    ) -> Result<Self, ThawFault>
        requires { fits arguments.now }
        ensures made { IfOk result (λ t. made arguments.now t) }
        ensures named { (result ≡ Err ThawFault.WrongPlan) → ⊥ }
        ensures frozen { IfOk result (λ t. Freezes Self.acts t frames.now numbers.now) }
        ensures thawed { (s : Self) → Self.sound s → made arguments.now s → Freezes Self.acts s frames.now numbers.now
            → MatchResult result (λ t. t ≡ s) (λ e. e ≡ ThawFault.Memory) };

    /// What a stage was made with is unchanged where its recipe is.
    ghost made_stays: { (a : Self.Arguments) (s t : Self) → Self.acts.recipe t ≡ Self.acts.recipe s → made a s → made a t };
}
