//! Whole buffers of frames through a flow.
ghost use Rattle.std.specs.Prelude.{◌≡◌, ◌+◌, ◌*◌, ◌≤◌, ◌^◌, OnErr, OnOk, length};
ghost use Rattle.fx_chain_run.specs.Block.{AwaitsNext, Blocked, OutputBound, PassedHeld, PumpsFront, PumpsOn};
ghost use Rattle.fx_chain_flow.specs.Parts.{given_by, max_of, taken_of};
ghost use Rattle.fx_chain_flow.specs.Sound.{max_frames};
ghost use Rattle.fx_chain_flow.specs.Steps.{IsHungry};
ghost use Rattle.fx_frame_base.specs.Holds.{kinds};
ghost use Rattle.fx_frame_base.specs.Io.{CountsFailure};
ghost use Rattle.fx_sound.specs.Output.{bytes_put};

use crate::drain::drain;
use crate::frame_writer::FrameWriter;
use fx_chain_flow::flow::Flow;
use fx_frame::{ByteOut, Failed, ReadBeside};
use fx_frame_base::frame::MAX_CHANNELS;
use fx_frame_base::pipeline::PassesEarly;
use fx_sound::inner::BUFFER_SIZE;
use fx_sound::{Progress, Source};

/// The minimum number of frames that are tried, so that few places in a full frame writer do not slow down a flow that gives
/// nothing.
const MIN_FRAMES: usize = 32;

/// How many frames are tried at once where the frame writer has space for that many.
fn tried(channels: usize, free: usize) -> usize
    requires { 1 ≤ channels }
    ensures { result * channels ≤ BUFFER_SIZE }
{
    (BUFFER_SIZE / channels).min(free.max(MIN_FRAMES))
}

/// Passes frames that are held through a flow, and encodes what it gives into the frame writer, as far as there is space.
/// Nothing is read and nothing is written.
fn pass_block<R, S: PassesEarly>(
    flow: &mut Flow<S>,
    source: &mut Source<R>,
    progress: &mut Progress,
    frame_writer: &mut FrameWriter,
    input: &mut [i32],
    output: &mut [i32],
)
    requires input { length input.old ≡ BUFFER_SIZE }
    requires output { length output.old ≡ BUFFER_SIZE }
    requires hungry { IsHungry S.acts flow.old }
    requires width { flow.old.channels ≡ progress.old.channels }
    requires taken { taken_of flow.old ≡ progress.old.frames }
    requires fits { max_of (kinds S.acts flow.old.stages) max_frames ≤ 2 ^ 56 }
    requires free { bytes_put frame_writer.old.output ≤ 68 + 64 * given_by S.acts flow.old.left flow.old.stages }
    requires bound { frame_writer.old.clips ≤ 16 * given_by S.acts flow.old.left flow.old.stages }
    ensures blocked { Blocked S.acts flow.old flow.new source.old source.new progress.old progress.new
        frame_writer.old.coding frame_writer.old.clips frame_writer.new.clips frame_writer.old.output frame_writer.new.output }
    ensures free { bytes_put frame_writer.new.output ≤ 68 + 64 * given_by S.acts flow.new.left flow.new.stages }
    ensures bound { frame_writer.new.clips ≤ 16 * given_by S.acts flow.new.left flow.new.stages }
    ensures coding { frame_writer.new.coding ≡ frame_writer.old.coding }
{
    let _stages = flow.stages();
    let channels = progress.channels();
    let outputs = flow.out_channels();
    if outputs == 0 || outputs > MAX_CHANNELS {
        return;
    }
    let free = frame_writer.free(outputs);
    let count = progress.held_frames(source, tried(channels, free));
    let input = &mut input[..count * channels];
    progress.decode_held(source, count, input);
    let output = &mut output[..free * outputs];
    let passed = flow.feed(input, output);
    progress.pass_held(source, passed.taken);
    frame_writer.put(&output[..passed.given * outputs]);
}

/// Passes frames that are held through a flow, as many as the frame writer has space for, and then steps it until it waits.
/// Then it empties the frame writer: long filters need fewer products for a whole buffer than for its two parts.
pub fn pump_block<R: ReadBeside, S: PassesEarly, W: ByteOut>(
    flow: &mut Flow<S>,
    source: &mut Source<R>,
    progress: &mut Progress,
    frame_writer: &mut FrameWriter,
    writer: &mut W,
    input: &mut [i32],
    output: &mut [i32],
) -> Result<(), Failed>
    requires buffers { (length input.old ≡ BUFFER_SIZE) × (length output.old ≡ BUFFER_SIZE) }
    requires waits { AwaitsNext S.acts flow.old progress.old }
    requires fits { max_of (kinds S.acts flow.old.stages) max_frames ≤ 2 ^ 56 }
    requires bound { OutputBound S.acts flow.old frame_writer.old }
    ensures pumped { OnOk result (PumpsOn S.acts R.reads flow.old flow.new source.old source.new
        progress.old progress.new frame_writer.old frame_writer.new
        (W.writes.taken writer.old) (W.writes.taken writer.new)) }
    ensures cut_off { OnErr result (PumpsFront S.acts R.reads flow.old flow.new source.old source.new
        progress.old progress.new frame_writer.old frame_writer.new
        (W.writes.taken writer.old) (W.writes.taken writer.new)) }
    ensures passed { PassedHeld source.old source.new progress.old progress.new }
    ensures failures { CountsFailure (W.writes.failures writer.old) (W.writes.failures writer.new) result }
{
    pass_block(flow, source, progress, frame_writer, input, output);
    drain(flow, frame_writer, writer)?;
    let size = flow
        .out_channels()
        .saturating_mul(frame_writer.coding.width());
    frame_writer.output.make_way(writer, size)?;
    Ok(())
}
