//! Frames passed to a flow many at a time.
ghost use Rattle.std.specs.Prelude.{◌≤◌, ◌+◌, ◌*◌, ℕ, length};
ghost use Rattle.fx_chain_flow.specs.Feed.{FlowFedSamples, FlowGaveSamples, FlowPlaced, FlowStopped, FlowTookWithinSpace};
ghost use Rattle.fx_chain_flow.specs.Order.{FedInOrder};
ghost use Rattle.fx_chain_flow.specs.Parts.{taken_of};
ghost use Rattle.fx_chain_flow.specs.Sound.{max_frames};
ghost use Rattle.fx_frame_base.specs.Frame.{IsChannelCount};

use crate::flow::{Flow, State, Step};
use crate::stage_calls::StageCalls;
use fx_frame_base::Passed;
use fx_frame_base::feed::put_frame;

/// What `feed` does, for any flow, one frame at a time.
pub(crate) fn feed_by_steps<S: StageCalls>(
    flow: &mut Flow<S>,
    input: &[i32],
    output: &mut [i32],
) -> Passed
    requires channels { IsChannelCount flow.old.channels }
    requires bound { (n : ℕ) → n * flow.old.channels ≤ length input.now → taken_of flow.old + n ≤ max_frames }
    ensures fed { FlowFedSamples S.acts flow.old input.now output.new result flow.new }
    ensures gave { FlowGaveSamples S.acts flow.old input.now output.new result flow.new }
    ensures placed { FlowPlaced S.acts flow.old input.now output.old output.new result }
    ensures stopped { FlowStopped S.acts flow.old input.now output.old output.new result flow.new }
    ensures free { FlowTookWithinSpace S.acts flow.old result.taken (length output.old) }
    ensures order { FedInOrder S.acts S.handed S.passed_while flow.old input.now output.new result flow.new }
{
    let widths = flow.widths();
    let mut read = 0;
    let mut written = 0;
    let mut taken = 0;
    let mut given = 0;
    'turns: while output.len() - written >= widths.outputs {
        let _stages = flow.stages();
        match flow.state() {
            State::Busy => {
                if let Step::Given(frame) = flow.step() {
                    put_frame(output, written, &frame);
                    written += frame.channels();
                    given += 1;
                }
            }
            State::Hungry => {
                if flow.is_spent() || input.len() - read < widths.inputs {
                    return Passed { taken, given };
                }
                let passed = flow.run(widths, &input[read..], &mut output[written..]);
                read += passed.taken * widths.inputs;
                written += passed.given * widths.outputs;
                taken += passed.taken;
                given += passed.given;
            }
            State::Done => return Passed { taken, given },
        }
        let _held = flow.held();
    }
    Passed { taken, given }
}
