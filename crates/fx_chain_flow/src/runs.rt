//! Frames that go through stages one after another, with no checks between two of them.
ghost use Rattle.std.specs.Prelude.{◌≡◌, ◌<◌, ◌≤◌, ◌+◌, ◌*◌, ℕ, FitsSigned, true, false, drop, length, take};
ghost use Rattle.std.specs.Int.{w32};
ghost use Rattle.std.specs.List.{All};
ghost use Rattle.fx_frame_base.specs.Lists.{pieces};
ghost use Rattle.fx_frame_base.specs.Pipeline.{AllOneToOne, AreReady, PipelineThrough, outputs_of};
ghost use Rattle.fx_frame_base.specs.Stage.{kind};
ghost use Rattle.fx_chain_flow.specs.Parts.{AllDetermined};
ghost use Rattle.fx_chain_flow.specs.Pipeline.{AllHeld, AllLined, WentThrough};
ghost use Rattle.fx_chain_flow.specs.Order.{WentEarly};
ghost use Rattle.fx_chain_flow.specs.StageCall.{At};
ghost use Rattle.fx_chain_flow.specs.Runs.{AllAhead, AllKeep, FrameInOrder, IsCommonForecast, IsNoneDueOfFirst, MayRunPipeline, RanPipeline, frame_out};
ghost use Rattle.fx_frame_base.specs.Holds.{kinds};
ghost use Rattle.fx_frame_base.specs.Frame.{IsChannelCount};

use crate::one_to_one::run_one_to_one;
use crate::stage_calls::StageCalls;
use fx_frame_base::feed::{SPACE, copy_samples, see_samples};
use fx_frame_base::pipeline::{MAX_EARLY_SAMPLES, PassesEarly};
use fx_frame_base::stage::Stage;
use fx_frame_base::{Feeds, Passed, Passing};

/// The result of passing a frame through stages.
#[derive(Clone, Copy)]
pub struct Passage {
    /// The last stage gave a frame for it.
    pub is_given: bool,
    /// A stage has another frame to give now.
    pub is_wet: bool,
}

/// Whether each stage gives frames of `channels` channels.
pub(crate) fn keeps_channels<S: Stage>(stages: &[S], channels: usize) -> bool
    ensures { result ≡ true → AllKeep channels (kinds S.acts stages.now) }
{
    'stages: for place in (0..stages.len()).rev() {
        if stages[place].out_channels() != channels {
            return false;
        }
    }
    true
}

/// For how many of the next frames it is known what stages in sequence do.
#[derive(Clone, Copy)]
pub(crate) struct CommonForecast {
    /// For that many no stage has had enough.
    pub ahead: usize,
    /// For each of that many each stage gives one.
    pub one_to_one: usize,
    /// For that many the first stage gives none; 0 where there is no stage.
    pub none_due: u64,
}

/// For how many of the next frames it is known what all stages do; `ahead` is at most `maximum`.
pub(crate) fn min_forecast<S: Feeds>(stages: &[S], maximum: usize) -> CommonForecast
    ensures maximum { result.ahead ≤ maximum }
    ensures ahead { AllAhead S.acts result.ahead stages.now }
    ensures one_to_one { AllOneToOne S.acts result.one_to_one stages.now }
    ensures none_due { IsNoneDueOfFirst S.acts result.none_due stages.now }
{
    let mut ahead = maximum;
    let mut one_to_one = maximum;
    let mut none_due = 0;
    'stages: for place in (0..stages.len()).rev() {
        let next = stages[place].forecast();
        ahead = (ahead as u64).min(next.ahead) as usize;
        one_to_one = (one_to_one as u64).min(next.one_to_one) as usize;
        none_due = next.none_due;
    }
    CommonForecast {
        ahead,
        one_to_one,
        none_due,
    }
}

/// The channels of the frames that go through stages.
#[derive(Clone, Copy)]
pub struct Widths {
    /// Those of the frames that go in.
    pub inputs: usize,
    /// Those of the frames that come out.
    pub outputs: usize,
    /// Each stage gives as many as go in.
    pub keeps: bool,
}

impl Widths {
    /// Those of stages that each give as many as go in.
    #[inline(always)]
    fn kept(channels: usize) -> Widths
        ensures { result ≡ record { inputs = channels; outputs = channels; keeps = true } }
    {
        Widths {
            inputs: channels,
            outputs: channels,
            keeps: true,
        }
    }
}

/// Passes a frame of `channels` channels, whose samples come first in sixteen places, through stages that are dry, one after
/// another. Where the last gives a frame, its samples then come first.
#[inline(always)]
fn pass_along<S: StageCalls>(
    stages: &mut [S],
    keeps: bool,
    channels: usize,
    places: &mut [i32; 16],
) -> Passage
    requires frame { IsChannelCount channels }
    requires ready { (taken maximum : ℕ) × (taken < maximum) × AreReady S.acts channels taken maximum stages.old }
    requires keep { keeps ≡ true → AllKeep channels (kinds S.acts stages.old) }
    requires determined { AllDetermined S.acts stages.old }
    requires held { AllHeld S.acts stages.old }
    ensures went { WentThrough S.acts (take channels places.old) (frame_out S.acts channels stages.old result places.new) stages.old stages.new }
    ensures frame { result.is_given ≡ true → IsChannelCount (outputs_of channels (kinds S.acts stages.old)) }
    ensures determined { result.is_wet ≡ false → AllDetermined S.acts stages.new }
    ensures order { FrameInOrder S.acts S.handed S.passed_while channels result places.old places.new stages.old stages.new }
{
    let mut is_wet = false;
    let mut width = channels;
    'stages: for place in 0..stages.len() {
        match S::pass_at(stages, place, keeps, places, &mut width) {
            Passing::Kept => {
                return Passage {
                    is_given: false,
                    is_wet,
                };
            }
            Passing::Through => {}
            Passing::More => is_wet = true,
        }
    }
    Passage {
        is_given: true,
        is_wet,
    }
}

/// Passes `count` frames at the front of the input through stages that are dry, each through all of them before the next, and
/// writes those that come out to the front of the output; fewer where a stage has more to give.
#[inline(always)]
fn run_frames<S: StageCalls>(
    stages: &mut [S],
    widths: Widths,
    count: usize,
    input: &[i32],
    output: &mut [i32],
) -> Passed
    requires { MayRunPipeline S.acts widths count input.now output.old stages.old }
    ensures { RanPipeline S.acts S.handed S.passed_while widths count input.now output.old output.new stages.old stages.new result }
{
    see_samples(&input[..count * widths.inputs]);
    let mut places = [0; 16];
    let mut given = 0;
    'frames: for taken in 0..count {
        let read = taken * widths.inputs;
        copy_samples(
            &input[read..read + widths.inputs],
            &mut places[..widths.inputs],
        );
        let passage = pass_along(stages, widths.keeps, widths.inputs, &mut places);
        if passage.is_given {
            let written = given * widths.outputs;
            copy_samples(
                &places[..widths.outputs],
                &mut output[written..written + widths.outputs],
            );
            given += 1;
        }
        if passage.is_wet {
            return Passed {
                taken: taken + 1,
                given,
            };
        }
    }
    Passed {
        taken: count,
        given,
    }
}

/// As `run_frames`, where the channels are often known beforehand.
fn run_by_frames<S: StageCalls>(
    stages: &mut [S],
    widths: Widths,
    count: usize,
    input: &[i32],
    output: &mut [i32],
) -> Passed
    requires { MayRunPipeline S.acts widths count input.now output.old stages.old }
    ensures { RanPipeline S.acts S.handed S.passed_while widths count input.now output.old output.new stages.old stages.new result }
{
    if !widths.keeps {
        return run_frames(stages, widths, count, input, output);
    }
    match widths.inputs {
        1 => run_frames(stages, Widths::kept(1), count, input, output),
        2 => run_frames(stages, Widths::kept(2), count, input, output),
        8 => run_frames(stages, Widths::kept(8), count, input, output),
        channels => run_frames(stages, Widths::kept(channels), count, input, output),
    }
}

/// How many frames, at most `maximum`, the first stage takes in one call, where it gives none for the next `none_due`.
fn none_due_of_first<S: Feeds>(stages: &[S], none_due: u64, maximum: usize) -> usize
    requires { IsNoneDueOfFirst S.acts none_due stages.now }
    ensures maximum { result ≤ maximum }
    ensures none_due { IsNoneDueOfFirst S.acts result stages.now }
    ensures narrow { 1 ≤ result → At (λ s. (kind S.acts s).outputs ≤ 16) 0 stages.now }
{
    if none_due == 0 || stages.is_empty() || stages[0].out_channels() > 16 {
        return 0;
    }
    let frames = SPACE / stages[0].out_channels().max(1);
    (maximum as u64).min(none_due.min(frames as u64)) as usize
}

/// How many frames, at most `maximum`, can leave the first stage before as many others come to it: a group, as far as it stores so
/// many. None where a batch is no smaller.
fn early_frames<S: PassesEarly>(stages: &[S], channels: usize, maximum: usize) -> usize
    ensures maximum { result ≤ maximum }
    ensures early { 1 ≤ result → At (λ s. result ≤ S.early s) 0 stages.now }
{
    if stages.len() < 2 {
        return 0;
    }
    let group = maximum.min(MAX_EARLY_SAMPLES / channels.max(1));
    let frames = (group as u64).min(stages[0].lined()) as usize;
    if frames <= stages.len().saturating_add(1) {
        return 0;
    }
    frames
}

/// Passes `count` frames at the front of the input through stages that keep the channels and give one for each, and writes those
/// that come out to the front of the output. As many leave the first stage early, and go through the others before those that came
/// take their places.
fn run_early<S: StageCalls>(
    stages: &mut [S],
    channels: usize,
    count: usize,
    input: &[i32],
    output: &mut [i32],
)
    requires frame { IsChannelCount channels }
    requires some { 1 ≤ count }
    requires early { At (λ s. count ≤ S.early s) 0 stages.old }
    requires ready { (taken maximum : ℕ) × (taken + count ≤ maximum) × AreReady S.acts channels taken maximum stages.old }
    requires keep { AllKeep channels (kinds S.acts stages.old) }
    requires one_to_one { AllOneToOne S.acts count stages.old }
    requires ahead { AllAhead S.acts count stages.old }
    requires lined { AllLined S.acts stages.old }
    requires input { count * channels ≤ length input.now }
    requires free { count * channels ≤ length output.old }
    ensures samples { All (FitsSigned w32) (take (count * channels) input.now) }
    ensures through { PipelineThrough S.acts (pieces channels count input.now) (pieces channels count output.new) stages.old stages.new }
    ensures early { WentEarly S.acts S.passed_while (pieces channels count input.now) (pieces channels count output.new) stages.old stages.new }
    ensures rest_unchanged { drop (count * channels) output.new ≡ drop (count * channels) output.old }
{
    let Some((first, rest)) = stages.split_first_mut() else {
        unreachable!()
    };
    let size = count * channels;
    let coming = &input[..size];
    see_samples(coming);
    first.pass_early(rest, count, coming, &mut output[..size]);
}

/// Passes frames at the front of the input through stages that are dry, `next.ahead` at most, as does `run`. Where the first stage
/// gives none, it takes all of them until it does. Where each stage gives one for each and keeps the channels, they go as a group
/// that leaves the first stage early, or else a few at a time. Others go as by `run_by_frames`.
fn run_apart<S: StageCalls>(
    stages: &mut [S],
    widths: Widths,
    next: CommonForecast,
    input: &[i32],
    output: &mut [i32],
) -> Passed
    requires may { MayRunPipeline S.acts widths next.ahead input.now output.old stages.old }
    requires forecast { IsCommonForecast S.acts next stages.old }
    ensures { RanPipeline S.acts S.handed S.passed_while widths next.ahead input.now output.old output.new stages.old stages.new result }
{
    let none_due = none_due_of_first(stages, next.none_due, next.ahead);
    if none_due > 0 {
        let frames = &input[..none_due * widths.inputs];
        see_samples(frames);
        S::take_first(stages, widths.inputs, none_due, frames);
        return Passed {
            taken: none_due,
            given: 0,
        };
    }
    if !widths.keeps || next.one_to_one == 0 {
        return run_by_frames(stages, widths, next.ahead, input, output);
    }
    let early = early_frames(stages, widths.inputs, next.one_to_one);
    if early > 0 {
        run_early(stages, widths.inputs, early, input, output);
        return Passed {
            taken: early,
            given: early,
        };
    }
    run_one_to_one(stages, widths.inputs, next.one_to_one, input, output);
    Passed {
        taken: next.one_to_one,
        given: next.one_to_one,
    }
}

/// Passes frames at the front of the input through stages that are dry, `next.ahead` at most: in one call where they have one for
/// exactly this sequence of effects, else as `run_apart`.
pub(crate) fn run<S: StageCalls>(
    stages: &mut [S],
    widths: Widths,
    next: CommonForecast,
    input: &[i32],
    output: &mut [i32],
) -> Passed
    requires may { MayRunPipeline S.acts widths next.ahead input.now output.old stages.old }
    requires forecast { IsCommonForecast S.acts next stages.old }
    ensures { RanPipeline S.acts S.handed S.passed_while widths next.ahead input.now output.old output.new stages.old stages.new result }
{
    if next.ahead == 0 {
        return Passed { taken: 0, given: 0 };
    }
    let passed = S::pass_all(
        stages,
        widths.inputs,
        widths.outputs,
        next.ahead,
        input,
        output,
    );
    if passed > 0 {
        return Passed {
            taken: passed,
            given: passed,
        };
    }
    run_apart(stages, widths, next, input, output)
}
