//! Frames that go through stages in sequence, many at a time.
ghost use Rattle.std.specs.Prelude.{◌≡◌, ◌≤◌, ◌+◌, ◌*◌, ℕ, List, FitsSigned, drop, length, take, false, true};
ghost use Rattle.std.specs.Int.{w32};
ghost use Rattle.std.specs.List.{All};
ghost use Rattle.fx_frame_base.specs.Early.{MayPassEarly, PassedEarly, PassedInPlace, WhileHeld};
ghost use Rattle.fx_frame_base.specs.Feed.{IsAhead, IsOneToOne};
ghost use Rattle.fx_frame_base.specs.Frame.{IsChannelCount, Samples};
ghost use Rattle.fx_frame_base.specs.Holds.{kinds};
ghost use Rattle.fx_frame_base.specs.Lists.{pieces};
ghost use Rattle.fx_frame_base.specs.Pipeline.{AllAhead, AllKeep, AllOneToOne, AreReadyFor, EachInPlace, PipelineThrough, outputs_of};
ghost use Rattle.fx_frame_base.specs.Stage.{IsLined, kind};

use crate::feed::Feeds;

/// The maximum number of samples of the frames that leave a stage early at once: as many as stages with a line take together.
pub const MAX_EARLY_SAMPLES: usize = 64;

/// What holds frames, as a delay line does.
pub trait HoldsFrames {
    /// The frames that it holds, the oldest first.
    ghost frames: { Self → List Samples };
}

/// A stage after one that frames leave early.
///
/// All stages that can be fed have its call, and nothing is known of what `passed_while` says. So only a call of `pass_while` proves
/// which frames a line held while others went through this stage.
pub trait PassesWhile: Feeds {
    // One call passed frames through this stage, from the first to the second state, while a line held frames: those of the line,
    // those that were passed, and those that came out.
    ghost passed_while: { List Samples → List Samples → List Samples → Self → Self → Type 0 };

    /// As `pass_frames`, while the line of a stage before this one holds what it holds now.
    fn pass_while<L: HoldsFrames>(&mut self, line: &L, count: usize, samples: &mut [i32])
        requires waits { (Self.acts.dry self.old ≡ true) × ((Self.acts.counts self.old).ended ≡ false) }
        requires one_to_one { IsOneToOne Self.acts count self.old }
        requires ahead { IsAhead Self.acts count self.old }
        requires frame { IsChannelCount (kind Self.acts self.old).inputs }
        requires same_channels { (kind Self.acts self.old).outputs ≡ (kind Self.acts self.old).inputs }
        requires samples { length samples.old ≡ count * (kind Self.acts self.old).inputs }
        requires below_limit { (Self.acts.counts self.old).taken + count ≤ (kind Self.acts self.old).limit }
        ensures through { EachInPlace Self.acts count samples.old samples.new self.old self.new }
        ensures lined { IsLined Self.acts self.new }
        ensures passed { WhileHeld Self.acts passed_while (L.frames line.now) count samples.old samples.new self.old self.new };
}

impl<S: Feeds> PassesWhile for S {
    ghost passed_while = { λ _ _ _ _ _. Unit {0} };

    #[inline(always)]
    fn pass_while<L: HoldsFrames>(&mut self, _line: &L, count: usize, samples: &mut [i32]) {
        self.pass_frames(count, samples);
    }
}

/// Passes `count` frames of `channels` channels through stages in sequence, each of which gives one for each, and puts those that
/// come out in their place. All of them go through a stage before the first goes through the next, while the line of a stage
/// before these holds what it holds.
pub fn pass_in_place<S: PassesWhile, L: HoldsFrames>(
    stages: &mut [S],
    line: &L,
    channels: usize,
    count: usize,
    samples: &mut [i32],
)
    requires frame { IsChannelCount channels }
    requires some { 1 ≤ count }
    requires ready { AreReadyFor S.acts channels count stages.old }
    requires keep { AllKeep channels (kinds S.acts stages.old) }
    requires one_to_one { AllOneToOne S.acts count stages.old }
    requires ahead { AllAhead S.acts count stages.old }
    requires samples { length samples.old ≡ count * channels }
    ensures passed { PassedInPlace S.acts S.passed_while (L.frames line.now)
        channels count samples.old samples.new stages.old stages.new }
    ensures len { length samples.new ≡ length samples.old }
{
    let Some((first, rest)) = stages.split_first_mut() else {
        return;
    };
    first.pass_while(line, count, samples);
    pass_in_place(rest, line, channels, count, samples);
}

/// A stage of a kind that may have specialized code for several of its kind in sequence.
pub trait PassesPipeline: Feeds {
    /// Passes `count` frames at the front of the input through stages in sequence, in groups of at most one frame more than there
    /// are stages, and writes those that come out, one for each, to the front of the output. Returns how many it passed: none
    /// where it has no specialized code for these stages.
    fn pass_pipeline(
        stages: &mut [Self],
        channels: usize,
        outputs: usize,
        count: usize,
        input: &[i32],
        output: &mut [i32],
    ) -> usize
        requires frame { IsChannelCount channels }
        requires ready { AreReadyFor Self.acts channels count stages.old }
        requires outputs { outputs ≡ outputs_of channels (kinds Self.acts stages.old) }
        requires input { count * channels ≤ length input.now }
        requires free { count * outputs ≤ length output.old }
        ensures bound { result ≤ count }
        ensures frame { 1 ≤ result → 1 ≤ outputs }
        ensures samples { All (FitsSigned w32) (take (result * channels) input.now) }
        ensures through { PipelineThrough Self.acts (pieces channels result input.now) (pieces outputs result output.new) stages.old stages.new }
        ensures rest_unchanged { drop (result * outputs) output.new ≡ drop (result * outputs) output.old }
    {
        0
    }
}

/// A stage that may pass frames on early: to the stages after it, before as many others come.
pub trait PassesEarly: PassesPipeline {
    /// How many of the frames that it holds may go on before as many others come: none where what it gives depends on these.
    ghost early: { Self → ℕ };

    /// What `early` says.
    fn lined(&self) -> u64
        ensures { result ≡ early self.now };

    /// Passes `count` frames, for each of which it gives one, through this stage and those after it, and writes the frames that
    /// come out. Its oldest frames leave its line and go through the others first; then the frames that came take their places.
    /// With each call of the others a line is shown to hold what this stage had stored without those oldest frames.
    fn pass_early<F: PassesWhile>(
        &mut self,
        rest: &mut [F],
        count: usize,
        input: &[i32],
        output: &mut [i32],
    )
        requires { MayPassEarly Self.acts F.acts early count input.now output.old self.old rest.old }
        ensures { PassedEarly Self.acts F.acts F.passed_while count input.now output.new self.old rest.old self.new rest.new };
}
