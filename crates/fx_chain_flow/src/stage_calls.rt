//! The calls by which a flow hands frames to its stages and takes them from these.
ghost use Rattle.std.specs.Prelude.{ℕ, List, [], ◌∷◌, ◌≡◌, ◌<◌, ◌≤◌, ◌+◌, ◌*◌, length, true, false, take, drop, FitsSigned};
ghost use Rattle.std.specs.Int.{w32};
ghost use Rattle.std.specs.List.{All};
ghost use Rattle.fx_chain_flow.specs.Feed.{CanFeedOnly, FedOnly};
ghost use Rattle.fx_chain_flow.specs.StageCall.{At, ChangedAt, EndedWithin, GaveWithin, HandedThrough, StageCall, MayEnd, MayGive, MayBePassed, MayBePassedMany, MayTake, MayTakeMany, TookMany, TookWithin, WasPassed, WasPassedSamples, at_stage, end_to, given_on, through_all};
ghost use Rattle.fx_frame_base.specs.Feed.{PassedOn};
ghost use Rattle.fx_frame_base.specs.Holds.{kinds};
ghost use Rattle.fx_frame_base.specs.Lists.{pieces};
ghost use Rattle.fx_frame_base.specs.Pipeline.{AreReadyFor, PipelineThrough, outputs_of};
ghost use Rattle.fx_frame_base.specs.Stage.{IsDry, kind, spent};
ghost use Rattle.fx_frame_base.specs.Frame.{IsChannelCount};

use fx_frame_base::feed::take_many;
use fx_frame_base::frame::Frame;
use fx_frame_base::pipeline::{PassesEarly, PassesWhile};
use fx_frame_base::{Feeds, Passed, Passing};

/// The calls of a flow to its stages.
///
/// All stages that can be fed have them, and nothing is known of what `handed` says. So a flow proves an order of calls only by
/// making them in that order.
pub trait StageCalls: PassesEarly + PassesWhile {
    // One call led all stages from the first to the second state.
    ghost handed: { List Self → StageCall → List Self → Type 0 };

    /// Takes a frame from a stage.
    fn give_at(stages: &mut [Self], place: usize) -> Frame
        requires { At (MayGive Self.acts) place stages.old }
        ensures gave { ChangedAt (GaveWithin Self.acts result) place stages.old stages.new }
        ensures handed { handed stages.old (at_stage place [] (result ∷ [])) stages.new };

    /// Gives a stage a frame.
    fn take_at(stages: &mut [Self], place: usize, frame: Frame)
        requires { At (MayTake Self.acts (length frame)) place stages.old }
        ensures took { ChangedAt (TookWithin Self.acts frame) place stages.old stages.new }
        ensures handed { handed stages.old (at_stage place (frame ∷ []) []) stages.new };

    /// Gives a stage the end.
    fn end_at(stages: &mut [Self], place: usize)
        requires { At (MayEnd Self.acts) place stages.old }
        ensures ended { ChangedAt (EndedWithin Self.acts) place stages.old stages.new }
        ensures handed { handed stages.old (end_to place) stages.new };

    /// Passes a frame of `channels` channels, whose samples come first in sixteen places, to a stage. Where it gives one then,
    /// its samples come first, and its channels are in `channels`.
    fn pass_at(
        stages: &mut [Self],
        place: usize,
        keeps: bool,
        places: &mut [i32; 16],
        channels: &mut usize,
    ) -> Passing
        requires may { At (MayBePassed Self.acts keeps channels.old) place stages.old }
        requires frame { IsChannelCount channels.old }
        ensures passed { ChangedAt (WasPassed Self.acts result (take channels.old places.old) (take channels.new places.new)) place stages.old stages.new }
        ensures frame { IsChannelCount channels.new }
        ensures kept { keeps ≡ true → channels.new ≡ channels.old }
        ensures handed { handed stages.old (at_stage place (take channels.old places.old ∷ []) (given_on result (take channels.new places.new))) stages.new };

    /// Passes `count` frames of `channels` channels to a stage, which gives one for each, and puts these in their place.
    fn pass_frames_at(
        stages: &mut [Self],
        place: usize,
        channels: usize,
        count: usize,
        samples: &mut [i32],
    )
        requires may { At (MayBePassedMany Self.acts channels count) place stages.old }
        requires frame { IsChannelCount channels }
        requires samples { length samples.old ≡ count * channels }
        ensures passed { ChangedAt (WasPassedSamples Self.acts channels count samples.old samples.new) place stages.old stages.new }
        ensures handed { handed stages.old (at_stage place (pieces channels count samples.old) (pieces channels count samples.new)) stages.new };

    /// Gives the first stage `count` frames of `channels` channels, for which none is due.
    fn take_first(stages: &mut [Self], channels: usize, count: usize, input: &[i32])
        requires may { At (MayTakeMany Self.acts channels count) 0 stages.old }
        requires frame { IsChannelCount channels }
        requires input { length input.now ≡ count * channels }
        ensures took { ChangedAt (TookMany Self.acts (pieces channels count input.now)) 0 stages.old stages.new }
        ensures handed { handed stages.old (through_all (pieces channels count input.now) []) stages.new };

    /// As `pass_pipeline`.
    fn pass_all(
        stages: &mut [Self],
        channels: usize,
        outputs: usize,
        count: usize,
        input: &[i32],
        output: &mut [i32],
    ) -> usize
        requires frame { IsChannelCount channels }
        requires ready { AreReadyFor Self.acts channels count stages.old }
        requires outputs { outputs ≡ outputs_of channels (kinds Self.acts stages.old) }
        requires blocks { (count * channels ≤ length input.now) × (count * outputs ≤ length output.old) }
        ensures bound { result ≤ count }
        ensures frame { 1 ≤ result → 1 ≤ outputs }
        ensures samples { All (FitsSigned w32) (take (result * channels) input.now) }
        ensures through { PipelineThrough Self.acts (pieces channels result input.now) (pieces outputs result output.new) stages.old stages.new }
        ensures rest_unchanged { drop (result * outputs) output.new ≡ drop (result * outputs) output.old }
        ensures handed { handed stages.old (through_all (pieces channels result input.now) (pieces outputs result output.new)) stages.new };

    /// Feeds the only stage.
    fn feed_only(stages: &mut [Self], input: &[i32], output: &mut [i32]) -> Passed
        requires { CanFeedOnly Self.acts input.now stages.old }
        ensures fed { FedOnly Self.acts input.now output.old output.new result.taken result.given stages.old stages.new }
        ensures handed { HandedThrough Self.acts handed input.now output.new result stages.old stages.new };
}

impl<S: PassesEarly> StageCalls for S {
    ghost handed = { λ _ _ _. Unit {0} };

    #[inline(always)]
    fn give_at(stages: &mut [S], place: usize) -> Frame {
        let count = stages.len();
        prove!(place < count);
        let stage = &mut stages[place];
        let Some(frame) = stage.give() else {
            unreachable!()
        };
        let _held = stage.held();
        frame
    }

    #[inline(always)]
    fn take_at(stages: &mut [S], place: usize, frame: Frame) {
        let count = stages.len();
        prove!(place < count);
        let stage = &mut stages[place];
        stage.take(frame);
        let _held = stage.held();
    }

    #[inline(always)]
    fn end_at(stages: &mut [S], place: usize) {
        let count = stages.len();
        prove!(place < count);
        let stage = &mut stages[place];
        stage.end();
        let _held = stage.held();
    }

    #[inline(always)]
    fn pass_at(
        stages: &mut [S],
        place: usize,
        keeps: bool,
        places: &mut [i32; 16],
        channels: &mut usize,
    ) -> Passing {
        let count = stages.len();
        prove!(place < count);
        pass_to(&mut stages[place], keeps, places, channels)
    }

    #[inline(always)]
    fn pass_frames_at(
        stages: &mut [S],
        place: usize,
        _channels: usize,
        count: usize,
        samples: &mut [i32],
    ) {
        let all = stages.len();
        prove!(place < all);
        stages[place].pass_frames(count, samples);
    }

    #[inline(always)]
    fn take_first(stages: &mut [S], _channels: usize, count: usize, input: &[i32]) {
        let all = stages.len();
        prove!(0 < all);
        take_many(&mut stages[0], count, input);
    }

    #[inline(always)]
    fn pass_all(
        stages: &mut [S],
        channels: usize,
        outputs: usize,
        count: usize,
        input: &[i32],
        output: &mut [i32],
    ) -> usize {
        S::pass_pipeline(stages, channels, outputs, count, input, output)
    }

    #[inline(always)]
    fn feed_only(stages: &mut [S], input: &[i32], output: &mut [i32]) -> Passed {
        let count = stages.len();
        prove!(0 < count);
        let _held = stages[0].held();
        stages[0].feed(input, output)
    }
}

/// Passes a frame of `channels` channels, whose samples come first in sixteen places, to a stage. Where it gives one then, its
/// samples come first, and its channels are returned.
#[inline(always)]
fn pass_to<S: Feeds>(
    stage: &mut S,
    keeps: bool,
    places: &mut [i32; 16],
    channels: &mut usize,
) -> Passing
    requires dry { S.acts.dry stage.old ≡ true }
    requires not_ended { (S.acts.counts stage.old).ended ≡ false }
    requires not_spent { spent S.acts stage.old ≡ false }
    requires channels { channels.old ≡ (kind S.acts stage.old).inputs }
    requires frame { IsChannelCount channels.old }
    requires keep { keeps ≡ true → (kind S.acts stage.old).outputs ≡ (kind S.acts stage.old).inputs }
    requires below_limit { (S.acts.counts stage.old).taken < (kind S.acts stage.old).limit }
    ensures passed { PassedOn S.acts result stage.old stage.new (take channels.old places.old) (take channels.new places.new) }
    ensures frame { IsChannelCount channels.new }
    ensures kept { keeps ≡ true → channels.new ≡ channels.old }
    ensures determined { S.acts.dry stage.new ≡ true → IsDry S.acts stage.new }
{
    if keeps {
        stage.pass_samples(&mut places[..*channels])
    } else {
        stage.pass_places(places, channels)
    }
}
