//! A whole sound through the chain of a plan.
ghost use Rattle.std.specs.Prelude.{◌≡◌, ◌+◌, ◌*◌, IfErr, IfOk};
ghost use Rattle.fx_chain.specs.Chain.{IsNewChain, target_for};
ghost use Rattle.fx_chain_run.specs.FlowRun.{CountsCauses, CountsFlow, RanPart, RanWhole, SourceAt};
ghost use Rattle.fx_chain_run.specs.Report.{report_in};
ghost use Rattle.fx_sound.specs.Container.{start_of};
ghost use Rattle.fx_chain.specs.Theorem.{Ran};
ghost use Rattle.fx_chain_flow.specs.Parts.{given_by, taken_of};
ghost use Rattle.fx_chain_flow.specs.Steps.{IsHungry};
ghost use Rattle.fx_plan_effects.specs.Bounds.{work_of};
ghost use Rattle.fx_plan.specs.Planning.{planning};
ghost use Rattle.fx_sound.specs.Known.{IfKnown};
ghost use Rattle.fx_sound.specs.Source.{to_come};
ghost use Rattle.fx_chain_stages.specs.Stages.{effect_acts};

use crate::chain::Chain;
use fx_chain_run::{Cause, Report, RunFault, Target, run_flow};
use fx_frame::{ByteIn, ByteOut};
use fx_plan::Plan;
use fx_sound::Source;
use fx_sound::inner::BUFFER_SIZE;

/// The bytes that a run holds besides the chain and one frame in transit: the buffers of its source and of its output, and the
/// samples, of four bytes each, of a block before the chain and of one after it.
pub const BYTES_BESIDE_CHAIN: usize = 2 * BUFFER_SIZE + 2 * 4 * BUFFER_SIZE;

const _: () = prove!(BYTES_BESIDE_CHAIN == 40_960);

/// What is written where a plan is run.
fn target_of(plan: &Plan) -> Target
    ensures { result ≡ target_for (planning plan.now) }
{
    Target {
        kind: plan.kind(),
        coding: plan.coding(),
        rate: plan.rate(),
        channels: plan.channels(),
        named: plan.is_named(),
    }
}

/// Writes a streamed head, and what the new chain of this plan gives for all frames of the sound, whose head was read.
///
/// Once some effect needs no more input, no frame is read. After a failed read, and where the sound is too long, the frames
/// then due are written; after a failed write the writer has a prefix of the whole output. Allocates no memory.
pub fn run<R: ByteIn, W: ByteOut>(
    chain: &mut Chain,
    plan: &Plan,
    source: &mut Source<R>,
    writer: &mut W,
) -> Result<Report, RunFault>
    requires plan { chain.old.plan ≡ planning plan.now }
    requires hungry { IsHungry effect_acts chain.old.flow }
    requires nothing { (taken_of chain.old.flow ≡ 0)
        × (given_by effect_acts chain.old.flow.left chain.old.flow.stages ≡ 0) }

    // The result of a run of a new chain, as functions of the plan and the bytes.
    ensures ran { IsNewChain (planning plan.now) chain.old → IfKnown (to_come R.reads.rest source.old) (λ bytes.
        Ran (planning plan.now) bytes (W.writes.taken writer.old) (W.writes.taken writer.new) result) }

    // Without a fault all that the chain gives for the sound was written.
    ensures completed { IfOk result (RanWhole effect_acts R.reads W.writes chain.old.flow chain.new.flow
        (start_of chain.old.plan.head) source.old source.new writer.old writer.new (target_for chain.old.plan)) }

    // After a fault the frames then due were written, or a prefix of them.
    ensures stopped { IfErr result (RanPart effect_acts R.reads W.writes chain.old.flow chain.new.flow
        (start_of chain.old.plan.head) source.old source.new writer.old writer.new (target_for chain.old.plan)) }

    // The position of the source.
    ensures stands { SourceAt effect_acts R.reads W.writes chain.old.flow chain.new.flow
        (start_of chain.old.plan.head) source.old source.new writer.old writer.new result }

    // The counts.
    ensures counts { CountsFlow effect_acts (work_of chain.old.plan.acts)
        chain.old.flow chain.new.flow (report_in result) }
    ensures plan_stays { chain.new.plan ≡ chain.old.plan }

    // A fault is returned only where its cause was counted.
    ensures causes { CountsCauses effect_acts R.reads W.writes chain.old.flow chain.new.flow
        (start_of chain.old.plan.head) source.old source.new writer.old writer.new result }
{
    run_flow(
        &mut chain.flow,
        &plan.head(),
        target_of(plan),
        source,
        writer,
    )
}
