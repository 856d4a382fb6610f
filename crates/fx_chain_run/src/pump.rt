//! Frames from a source through a flow to a writer.
ghost use Rattle.std.specs.Prelude.{◌≡◌, ◌+◌, ◌*◌, ◌≤◌, ◌^◌, true, OnErr, OnOk, length};
ghost use Rattle.fx_chain_run.specs.NextFrame.{CountsCause};
ghost use Rattle.fx_chain_run.specs.Pumping.{BeginsFlow, BeginsSound, FlowAfter, RunSent, RunTook, SourceAfter, WaitedForDue};
ghost use Rattle.fx_chain_run.specs.Through.{CutOffInto, DrainsInto};
ghost use Rattle.fx_chain_flow.specs.Parts.{given_by, max_of};
ghost use Rattle.fx_chain_flow.specs.Sound.{max_frames};
ghost use Rattle.fx_chain_flow.specs.Steps.{IsDone, IsHungry};
ghost use Rattle.fx_frame_base.specs.Holds.{kinds};
ghost use Rattle.fx_frame_base.specs.Io.{CountsFailure};
ghost use Rattle.fx_sound.specs.Output.{bytes_put};

use crate::block::pump_block;
use crate::drain::drain;
use crate::frame_writer::FrameWriter;
use crate::reading::next_frame;
use fx_chain_flow::flow::Flow;
use fx_frame::{ByteOut, Failed, ReadBeside};
use fx_frame_base::pipeline::PassesEarly;
use fx_sound::inner::BUFFER_SIZE;
use fx_sound::{MAX_FRAMES, Progress, Source};
use thiserror::Error;

/// Why a run stopped.
#[derive(Clone, Copy, Debug, Drop, PartialEq, Eq, Error)]
pub enum Cause {
    /// A read failed.
    #[error("the reader failed")]
    ReadFailed = 1,
    /// A write failed.
    #[error("the writer failed")]
    WriteFailed = 2,
    /// A frame follows after 2^40 frames.
    #[error("the sound is too long")]
    TooLong = 3,
}

impl From<Failed> for Cause {
    ghost use Rattle.fx_chain_run.specs.declared.pump.Cause.TheVariants.{WriteFailed};

    ghost from_gives = { λ _ cause. cause ≡ WriteFailed };

    fn from(_failed: Failed) -> Cause {
        Cause::WriteFailed
    }
}

/// Gives a flow the end, and sends what it then gives.
fn end_flow<S: PassesEarly, W: ByteOut>(
    flow: &mut Flow<S>,
    frame_writer: &mut FrameWriter,
    writer: &mut W,
) -> Result<(), Failed>
    requires hungry { IsHungry S.acts flow.old }
    requires fits { max_of (kinds S.acts flow.old.stages) max_frames ≤ 2 ^ 56 }
    requires free { bytes_put frame_writer.old.output ≤ 68 + 64 * given_by S.acts flow.old.left flow.old.stages }
    requires bound { frame_writer.old.clips ≤ 16 * given_by S.acts flow.old.left flow.old.stages }
    ensures drained { OnOk result (DrainsInto S.acts (record flow.old { ended = true }) flow.new frame_writer.old frame_writer.new
        (W.writes.taken writer.old) (W.writes.taken writer.new)) }
    ensures cut_off { OnErr result (CutOffInto S.acts (record flow.old { ended = true }) flow.new frame_writer.old frame_writer.new
        (W.writes.taken writer.old) (W.writes.taken writer.new)) }
    ensures done { OnOk result (IsDone S.acts flow.new) }
    ensures free { OnOk result (bytes_put frame_writer.new.output ≤ 2 ^ 63) }
    ensures failures { CountsFailure (W.writes.failures writer.old) (W.writes.failures writer.new) result }
{
    flow.end();
    drain(flow, frame_writer, writer)?;
    let _stages = flow.stages();
    Ok(())
}

/// Puts the head into the frame writer, and what a flow gives for the frames of a sound after it.
pub fn pump<R: ReadBeside, S: PassesEarly, W: ByteOut>(
    head: &[u8],
    flow: &mut Flow<S>,
    source: &mut Source<R>,
    progress: &mut Progress,
    frame_writer: &mut FrameWriter,
    writer: &mut W,
) -> Result<(), Cause>
    requires head { length head.now ≤ 68 }
    requires sound { BeginsSound progress.old frame_writer.old }
    requires flow { BeginsFlow S.acts flow.old progress.old.channels }
    requires fits { max_of (kinds S.acts flow.old.stages) max_frames ≤ 2 ^ 56 }
    ensures sent { RunSent S.acts R.reads result flow.old flow.new source.old source.new progress.old progress.new
        frame_writer.old frame_writer.new (W.writes.taken writer.old) (W.writes.taken writer.new) head.now }
    ensures flow { FlowAfter S.acts result flow.old flow.new progress.new.frames }
    ensures taken { RunTook S.acts R.reads result flow.old flow.new source.old source.new progress.old progress.new }
    ensures source { SourceAfter R.reads result source.old source.new progress.old progress.new }
    ensures waited { WaitedForDue S.acts R.reads R.asked flow.old frame_writer.old.coding head.now progress.old
        (W.writes.taken writer.old) source.old source.new.reader }
    ensures faults { CountsCause R.reads W.writes result source.old.reader source.new.reader writer.old writer.new }
{
    frame_writer.output.push(writer, head)?;
    let mut input = [0; BUFFER_SIZE];
    let mut output = [0; BUFFER_SIZE];
    for _turn in 0..MAX_FRAMES + 1 {
        let _stages = flow.stages();
        if flow.is_spent() {
            end_flow(flow, frame_writer, writer)?;
            return Ok(());
        }
        match next_frame(source, progress, &mut frame_writer.output, writer) {
            Ok(Some(frame)) => {
                flow.take(frame);
                drain(flow, frame_writer, writer)?;
            }
            Ok(None) => {
                end_flow(flow, frame_writer, writer)?;
                return Ok(());
            }
            Err(Cause::ReadFailed) => return Err(Cause::ReadFailed),
            Err(Cause::WriteFailed) => return Err(Cause::WriteFailed),
            Err(Cause::TooLong) => return Err(Cause::TooLong),
        }
        pump_block(
            flow,
            source,
            progress,
            frame_writer,
            writer,
            &mut input,
            &mut output,
        )?;
    }
    unreachable!()
}
