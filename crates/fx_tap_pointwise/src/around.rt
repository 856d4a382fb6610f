//! Three memoryless effects in sequence, of which the first and the last keep the number of channels: frames go through all
//! three in groups of at most four, one more than there are stages.
ghost use Rattle.std.specs.Prelude.{◌≡◌, ◌*◌, ◌^◌, ◌≤◌, FitsSigned, drop, length, take};
ghost use Rattle.std.specs.Int.{w32};
ghost use Rattle.std.specs.List.{All};
ghost use Rattle.fx_frame_base.specs.Frame.{IsChannelCount};
ghost use Rattle.fx_tap_pointwise.specs.Around.{GroupIsMade, PassedAround};
ghost use Rattle.fx_tap_pointwise.specs.Mapped.{ComesAfter, KeepsChannels, MayMapFrames};

use crate::mapped::{Mapped, MapsMany, PairWidths};
use fx_frame_base::feed::see_samples;
use fx_frame_base::frame::MAX_CHANNELS;

/// The maximum number of frames of a group: one more than there are stages.
const FRAMES_AT_ONCE: usize = 4;

/// The samples of a group whose frames have the maximum number of channels.
const SAMPLES_AT_ONCE: usize = FRAMES_AT_ONCE * MAX_CHANNELS;

/// How many samples each of three effects clipped.
#[derive(Clone, Copy)]
struct ClipsByStage {
    first: u64,
    middle: u64,
    last: u64,
}

/// Writes what the last effect makes of what the middle one makes of what the first makes of each frame of a group, and counts
/// how many samples each clipped. The samples between the stages go into `before` and `after`.
#[inline(always)]
fn group_by_three<A: MapsMany, B: MapsMany, C: MapsMany>(
    first: &A,
    middle: &B,
    last: &C,
    widths: PairWidths,
    count: usize,
    input: &[i32],
    output: &mut [i32],
    before: &mut [i32; SAMPLES_AT_ONCE],
    after: &mut [i32; SAMPLES_AT_ONCE],
) -> ClipsByStage
    requires inputs { (A.inputs first.now ≡ widths.inputs) × (A.outputs first.now ≡ widths.inputs) × (B.inputs middle.now ≡ widths.inputs) }
    requires outputs { (B.outputs middle.now ≡ widths.outputs) × (C.inputs last.now ≡ widths.outputs) × (C.outputs last.now ≡ widths.outputs) }
    requires frames { IsChannelCount widths.inputs × IsChannelCount widths.outputs }
    requires bound { count ≤ 4 }
    requires input { length input.now ≡ count * widths.inputs }
    requires output { length output.old ≡ count * widths.outputs }
    ensures made { GroupIsMade (A.mapped first.now) (B.mapped middle.now) (C.mapped last.now) widths count input.now output.new result }
{
    let inner = PairWidths {
        inputs: widths.inputs,
        outputs: widths.inputs,
    };
    let outer = PairWidths {
        inputs: widths.outputs,
        outputs: widths.outputs,
    };
    let before = &mut before[..count * widths.inputs];
    let after = &mut after[..count * widths.outputs];
    let first_clips = first.map_group(inner, count, input, before);
    let middle_clips = middle.map_group(widths, count, before, after);
    let last_clips = last.map_group(outer, count, after, output);
    ClipsByStage {
        first: first_clips,
        middle: middle_clips,
        last: last_clips,
    }
}

/// Writes what the last effect makes of what the middle one makes of what the first makes of each frame, in groups, and counts
/// how many samples each clipped.
#[inline(always)]
fn groups_by_three<A: MapsMany, B: MapsMany, C: MapsMany>(
    first: &A,
    middle: &B,
    last: &C,
    widths: PairWidths,
    count: usize,
    input: &[i32],
    output: &mut [i32],
) -> ClipsByStage
    requires inputs { (A.inputs first.now ≡ widths.inputs) × (A.outputs first.now ≡ widths.inputs) × (B.inputs middle.now ≡ widths.inputs) }
    requires outputs { (B.outputs middle.now ≡ widths.outputs) × (C.inputs last.now ≡ widths.outputs) × (C.outputs last.now ≡ widths.outputs) }
    requires frames { (widths.inputs ≤ 16) × (widths.outputs ≤ 16) }
    requires bound { count ≤ 2 ^ 56 }
    requires input { count * widths.inputs ≤ length input.now }
    requires free { count * widths.outputs ≤ length output.old }
    ensures made { GroupIsMade (A.mapped first.now) (B.mapped middle.now) (C.mapped last.now) widths count input.now output.new result }
    ensures rest_unchanged { drop (count * widths.outputs) output.new ≡ drop (count * widths.outputs) output.old }
{
    let _inputs = first.out_channels();
    let _outputs = middle.out_channels();
    let mut before = [0; SAMPLES_AT_ONCE];
    let mut after = [0; SAMPLES_AT_ONCE];
    let mut first_clips = 0;
    let mut middle_clips = 0;
    let mut last_clips = 0;
    let mut done = 0;
    // The number of frames of these groups is known beforehand, so what each effect does with one is unrolled.
    'groups: while done + FRAMES_AT_ONCE <= count {
        let read = done * widths.inputs;
        let frames = &input[read..read + FRAMES_AT_ONCE * widths.inputs];
        let written = done * widths.outputs;
        let made = &mut output[written..written + FRAMES_AT_ONCE * widths.outputs];
        let clips = group_by_three(
            first,
            middle,
            last,
            widths,
            FRAMES_AT_ONCE,
            frames,
            made,
            &mut before,
            &mut after,
        );
        first_clips += clips.first;
        middle_clips += clips.middle;
        last_clips += clips.last;
        done += FRAMES_AT_ONCE;
    }
    let rest = count - done;
    let rest_read = done * widths.inputs;
    let frames = &input[rest_read..rest_read + rest * widths.inputs];
    let rest_written = done * widths.outputs;
    let made = &mut output[rest_written..rest_written + rest * widths.outputs];
    let clips = group_by_three(
        first,
        middle,
        last,
        widths,
        rest,
        frames,
        made,
        &mut before,
        &mut after,
    );
    ClipsByStage {
        first: first_clips + clips.first,
        middle: middle_clips + clips.middle,
        last: last_clips + clips.last,
    }
}

/// Writes what the last effect makes of what the middle one makes of what the first makes of each frame, and counts how many
/// samples each clipped. The channels are often known beforehand.
#[inline(always)]
fn mapped_by_three<A: MapsMany, B: MapsMany, C: MapsMany>(
    first: &A,
    middle: &B,
    last: &C,
    widths: PairWidths,
    count: usize,
    input: &[i32],
    output: &mut [i32],
) -> ClipsByStage
    requires inputs { (A.inputs first.now ≡ widths.inputs) × (A.outputs first.now ≡ widths.inputs) × (B.inputs middle.now ≡ widths.inputs) }
    requires outputs { (B.outputs middle.now ≡ widths.outputs) × (C.inputs last.now ≡ widths.outputs) × (C.outputs last.now ≡ widths.outputs) }
    requires frames { (widths.inputs ≤ 16) × (widths.outputs ≤ 16) }
    requires bound { count ≤ 2 ^ 56 }
    requires input { count * widths.inputs ≤ length input.now }
    requires free { count * widths.outputs ≤ length output.old }
    ensures made { GroupIsMade (A.mapped first.now) (B.mapped middle.now) (C.mapped last.now) widths count input.now output.new result }
    ensures rest_unchanged { drop (count * widths.outputs) output.new ≡ drop (count * widths.outputs) output.old }
{
    match (widths.inputs, widths.outputs) {
        (1, 1) => {
            let known = PairWidths {
                inputs: 1,
                outputs: 1,
            };
            groups_by_three(first, middle, last, known, count, input, output)
        }
        (1, 2) => {
            let known = PairWidths {
                inputs: 1,
                outputs: 2,
            };
            groups_by_three(first, middle, last, known, count, input, output)
        }
        (2, 1) => {
            let known = PairWidths {
                inputs: 2,
                outputs: 1,
            };
            groups_by_three(first, middle, last, known, count, input, output)
        }
        (2, 2) => {
            let known = PairWidths {
                inputs: 2,
                outputs: 2,
            };
            groups_by_three(first, middle, last, known, count, input, output)
        }
        _ => groups_by_three(first, middle, last, widths, count, input, output),
    }
}

/// Passes `count` frames at the front of the input through three dry stages, in groups of at most four frames, one more than
/// there are stages, and writes those that come out to the front of the output.
pub fn pass_around<A: MapsMany + Drop, B: MapsMany + Drop, C: MapsMany + Drop>(
    first: &mut Mapped<A>,
    middle: &mut Mapped<B>,
    last: &mut Mapped<C>,
    count: usize,
    input: &[i32],
    output: &mut [i32],
)
    requires first { MayMapFrames count first.old }
    requires keep { KeepsChannels A.inputs A.outputs first.old × KeepsChannels C.inputs C.outputs last.old }
    requires middle { ComesAfter first.old (A.inputs first.old.mapping) middle.old (B.inputs middle.old.mapping) }
    requires last { ComesAfter middle.old (B.outputs middle.old.mapping) last.old (C.inputs last.old.mapping) }
    requires input { count * A.inputs first.old.mapping ≤ length input.now }
    requires free { count * B.outputs middle.old.mapping ≤ length output.old }
    ensures frame { 1 ≤ B.outputs middle.old.mapping }
    ensures samples { All (FitsSigned w32) (take (count * A.inputs first.old.mapping) input.now) }
    ensures through { PassedAround A.inputs A.outputs A.mapped B.inputs B.outputs B.mapped C.inputs C.outputs C.mapped
        count input.now output.new first.old first.new middle.old middle.new last.old last.new }
    ensures rest_unchanged { let n = count * B.outputs middle.old.mapping in drop n output.new ≡ drop n output.old }
{
    let widths = PairWidths {
        inputs: first.mapping().out_channels(),
        outputs: middle.mapping().out_channels(),
    };
    see_samples(&input[..count * widths.inputs]);
    let clips = mapped_by_three(
        first.mapping(),
        middle.mapping(),
        last.mapping(),
        widths,
        count,
        input,
        output,
    );
    first.count_passed(count, clips.first);
    middle.count_passed(count, clips.middle);
    last.count_passed(count, clips.last);
}
