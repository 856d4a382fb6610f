//! Stages that pass many frames in one piece, and the rest one at a time.
ghost use Rattle.std.specs.Prelude.{◌≡◌, ◌<◌, ◌≤◌, ◌+◌, ◌*◌, true, false, length};
ghost use Rattle.fx_frame_base.specs.Feed.{PassedOn, TookWithinSpace, FedBlock, KeepsRest, LeavesSpace, MayTakeAll, UsesInput};
ghost use Rattle.fx_frame_base.specs.Stage.{IsDry, kind, spent};
ghost use Rattle.fx_frame_base.specs.Frame.{IsChannelCount};

use fx_frame::{Passed, Passing, Stage};
use fx_frame_base::feed::{feed_by_frames, frame_at, pass_by_calls, put_frame};

/// A stage that can pass many frames in one piece.
pub trait PassesMany: Stage {
    /// Takes frames from the front of the input, and writes those that are given to the front of the output, as far as one
    /// piece goes; none where the stage is in no state for that. It takes a frame only while the output has space for one more;
    /// where it has no space for one frame, none is taken.
    fn pass_many(&mut self, input: &[i32], output: &mut [i32]) -> Passed
        requires channels { IsChannelCount (kind Self.acts self.old).inputs }
        requires below_limit { MayTakeAll Self.acts self.old input.now }
        ensures fed { FedBlock Self.acts self.old self.new result.taken input.now result.given output.new }
        ensures read { result.taken * (kind Self.acts self.old).inputs ≤ length input.now }
        ensures written { result.given * (kind Self.acts self.old).outputs ≤ length output.new }
        ensures rest_unchanged { KeepsRest Self.acts self.old result.given output.old output.new }
        ensures free { TookWithinSpace Self.acts self.old result.taken (length output.old) };
}

/// Passes a piece first, and then frame by frame. It takes a frame only while the output has space for one more; where it has
/// no space for one frame, none is taken.
fn feed_piece<S: PassesMany>(stage: &mut S, input: &[i32], output: &mut [i32]) -> Passed
    requires channels { IsChannelCount (kind S.acts stage.old).inputs }
    requires below_limit { MayTakeAll S.acts stage.old input.now }
    ensures fed { FedBlock S.acts stage.old stage.new result.taken input.now result.given output.new }
    ensures read { result.taken * (kind S.acts stage.old).inputs ≤ length input.now }
    ensures written { result.given * (kind S.acts stage.old).outputs ≤ length output.new }
    ensures rest_unchanged { KeepsRest S.acts stage.old result.given output.old output.new }
    ensures dry { LeavesSpace S.acts stage.old result.given output.new → S.acts.dry stage.new ≡ true }
    ensures used { UsesInput S.acts stage.old stage.new result.taken input.now result.given output.new }
    ensures free { TookWithinSpace S.acts stage.old result.taken (length output.old) }
{
    let inputs = stage.in_channels();
    let outputs = stage.out_channels();
    if outputs == 0 {
        return feed_by_frames(stage, input, output);
    }
    let piece = stage.pass_many(input, output);
    let read = piece.taken * inputs;
    let written = piece.given * outputs;
    let rest = feed_by_frames(stage, &input[read..], &mut output[written..]);
    Passed {
        taken: piece.taken + rest.taken,
        given: piece.given + rest.given,
    }
}

/// What `feed` does for a stage that can pass many frames: it gives what is pending, passes a piece, and then goes on frame by
/// frame. It takes a frame only while the output has space for one more; where it has no space for one frame, none is taken.
pub fn feed_by_pieces<S: PassesMany>(stage: &mut S, input: &[i32], output: &mut [i32]) -> Passed
    requires channels { IsChannelCount (kind S.acts stage.old).inputs }
    requires below_limit { MayTakeAll S.acts stage.old input.now }
    ensures fed { FedBlock S.acts stage.old stage.new result.taken input.now result.given output.new }
    ensures read { result.taken * (kind S.acts stage.old).inputs ≤ length input.now }
    ensures written { result.given * (kind S.acts stage.old).outputs ≤ length output.new }
    ensures rest_unchanged { KeepsRest S.acts stage.old result.given output.old output.new }
    ensures dry { LeavesSpace S.acts stage.old result.given output.new → S.acts.dry stage.new ≡ true }
    ensures used { UsesInput S.acts stage.old stage.new result.taken input.now result.given output.new }
    ensures free { TookWithinSpace S.acts stage.old result.taken (length output.old) }
{
    let inputs = stage.in_channels();
    let outputs = stage.out_channels();
    if outputs == 0 {
        return feed_by_frames(stage, input, output);
    }
    let waiting = feed_by_frames(stage, &input[..0], output);
    let read = waiting.taken * inputs;
    let written = waiting.given * outputs;
    let rest = feed_piece(stage, &input[read..], &mut output[written..]);
    Passed {
        taken: waiting.taken + rest.taken,
        given: waiting.given + rest.given,
    }
}

/// What `pass_samples` does for any stage that gives as many channels as it takes, by `take` and `give`.
#[inline(never)]
pub fn pass_by_frame<S: Stage>(stage: &mut S, samples: &mut [i32]) -> Passing
    requires dry { S.acts.dry stage.old ≡ true }
    requires not_ended { (S.acts.counts stage.old).ended ≡ false }
    requires not_spent { spent S.acts stage.old ≡ false }
    requires channels { length samples.old ≡ (kind S.acts stage.old).inputs }
    requires same_channels { (kind S.acts stage.old).outputs ≡ (kind S.acts stage.old).inputs }
    requires frame { IsChannelCount (length samples.old) }
    requires below_limit { (S.acts.counts stage.old).taken < (kind S.acts stage.old).limit }
    ensures passed { PassedOn S.acts result stage.old stage.new samples.old samples.new }
    ensures channels { length samples.new ≡ length samples.old }
    ensures determined { S.acts.dry stage.new ≡ true → IsDry S.acts stage.new }
{
    let channels = samples.len();
    let mut frame = frame_at(samples, 0, channels);
    let passing = pass_by_calls(stage, &mut frame);
    let _dry = stage.is_dry();
    if let Passing::Kept = passing {
        return Passing::Kept;
    }
    put_frame(samples, 0, &frame);
    passing
}
