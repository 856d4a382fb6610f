//! A flow stepped until it waits, and what it gives sent.
ghost use Rattle.std.specs.Prelude.{◌≡◌, ◌+◌, ◌*◌, ◌≤◌, ◌^◌, OnErr, OnOk};
ghost use Rattle.fx_chain_run.specs.Through.{CutOffInto, DrainsInto, RunWaits};
ghost use Rattle.fx_chain_flow.specs.Parts.{given_by, max_of};
ghost use Rattle.fx_chain_flow.specs.Sound.{max_frames};
ghost use Rattle.fx_frame_base.specs.Holds.{kinds};
ghost use Rattle.fx_frame_base.specs.Io.{CountsFailure};
ghost use Rattle.fx_sound.specs.Output.{bytes_put};

use crate::frame_writer::FrameWriter;
use fx_chain_flow::flow::{Flow, State, Step};
use fx_frame::{ByteOut, Failed};
use fx_frame_base::pipeline::PassesEarly;

/// Steps a flow until it waits, and sends what it gives.
#[inline(always)]
pub fn drain<S: PassesEarly, W: ByteOut>(
    flow: &mut Flow<S>,
    frame_writer: &mut FrameWriter,
    writer: &mut W,
) -> Result<(), Failed>
    requires fits { max_of (kinds S.acts flow.old.stages) max_frames ≤ 2 ^ 56 }
    requires free { bytes_put frame_writer.old.output ≤ 68 + 64 * given_by S.acts flow.old.left flow.old.stages }
    requires bound { frame_writer.old.clips ≤ 16 * given_by S.acts flow.old.left flow.old.stages }
    ensures drained { OnOk result (DrainsInto S.acts flow.old flow.new frame_writer.old frame_writer.new
        (W.writes.taken writer.old) (W.writes.taken writer.new)) }
    ensures cut_off { OnErr result (CutOffInto S.acts flow.old flow.new frame_writer.old frame_writer.new
        (W.writes.taken writer.old) (W.writes.taken writer.new)) }
    ensures waits { OnOk result (RunWaits S.acts flow.new) }
    ensures free { OnOk result
        (bytes_put frame_writer.new.output ≤ 68 + 64 * given_by S.acts flow.new.left flow.new.stages) }
    ensures bound { frame_writer.new.clips ≤ 16 * given_by S.acts flow.new.left flow.new.stages }
    ensures coding { frame_writer.new.coding ≡ frame_writer.old.coding }
    ensures failures { CountsFailure (W.writes.failures writer.old) (W.writes.failures writer.new) result }
{
    while let State::Busy = flow.state() {
        let _stages = flow.stages();
        if let Step::Given(frame) = flow.step() {
            frame_writer.send(writer, &frame)?;
        }
    }
    Ok(())
}
