//! Frames that go through stages a few at a time, as long as each stage gives one frame for each that it takes.
ghost use Rattle.std.specs.Prelude.{◌≡◌, ◌+◌, ◌*◌, ◌≤◌, ℕ, drop, length};
ghost use Rattle.fx_frame_base.specs.Holds.{held_sum, hold_sum, kinds};
ghost use Rattle.fx_frame_base.specs.Lists.{pieces};
ghost use Rattle.fx_frame_base.specs.Pipeline.{AreReady, PipelineThrough};
ghost use Rattle.fx_chain_flow.specs.Pipeline.{AllLined};
ghost use Rattle.fx_chain_flow.specs.Runs.{AllAhead, AllKeep, AllOneToOne, MayRunOneToOne, RanAtAny, RanSamplesInOrder};
ghost use Rattle.fx_frame_base.specs.Frame.{IsChannelCount};

use crate::stage_calls::StageCalls;
use fx_frame_base::feed::see_samples;

/// Passes `count` frames through stages that are dry and give one for each, and writes those that come out. All of them go
/// through a stage before the first goes through the next: with the frames of the lines they are no more than the stages and
/// the inlet may hold, before the first stage, between any two, and after the last.
fn pass_batch<S: StageCalls>(
    stages: &mut [S],
    channels: usize,
    count: usize,
    input: &[i32],
    output: &mut [i32],
)
    requires frame { IsChannelCount channels }
    requires some { 1 ≤ count }
    requires ready { (taken maximum : ℕ) × (taken + count ≤ maximum) × AreReady S.acts channels taken maximum stages.old }
    requires keep { AllKeep channels (kinds S.acts stages.old) }
    requires one_to_one { AllOneToOne S.acts count stages.old }
    requires ahead { AllAhead S.acts count stages.old }
    requires lined { AllLined S.acts stages.old }
    requires bound { count ≤ 1 + length stages.old }
    requires input { length input.now ≡ count * channels }
    requires output { length output.old ≡ count * channels }
    ensures through { PipelineThrough S.acts (pieces channels count input.now) (pieces channels count output.new) stages.old stages.new }
    ensures lined { AllLined S.acts stages.new }
    ensures within { held_sum S.acts stages.new + count ≤ 1 + hold_sum (kinds S.acts stages.new) }
    ensures order { RanSamplesInOrder S.acts S.handed S.passed_while channels count input.now output.new stages.old stages.new }
{
    output.copy_from_slice(input);
    'stages: for place in 0..stages.len() {
        S::pass_frames_at(stages, place, channels, count, output);
    }
}

/// Passes `count` frames at the front of the input through stages that are dry and give one for each, and writes those that
/// come out to the front of the output.
///
/// They go a few at a time, all of them through a stage before the first goes through the next: as many as the inlet and the
/// stages can hold as pending frames together, so that with the frames of the lines there are never more than the flow may
/// hold.
pub(crate) fn run_one_to_one<S: StageCalls>(
    stages: &mut [S],
    channels: usize,
    count: usize,
    input: &[i32],
    output: &mut [i32],
)
    requires { MayRunOneToOne S.acts channels count input.now output.old stages.old }
    ensures ran { RanAtAny S.acts channels count (pieces channels count input.now) (pieces channels count output.new) stages.old stages.new }
    ensures rest_unchanged { drop (count * channels) output.new ≡ drop (count * channels) output.old }
    ensures lined { AllLined S.acts stages.new }
    ensures order { RanSamplesInOrder S.acts S.handed S.passed_while channels count input.now output.new stages.old stages.new }
{
    see_samples(&input[..count * channels]);
    let bound = stages.len().saturating_add(1);
    let mut done = 0;
    'pieces: while done < count {
        let piece = bound.min(count - done);
        let from = done * channels;
        let to = from + piece * channels;
        pass_batch(
            stages,
            channels,
            piece,
            &input[from..to],
            &mut output[from..to],
        );
        done += piece;
    }
}
