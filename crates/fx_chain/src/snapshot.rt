//! A chain as frames and numbers, and the chain that they came from.
ghost use Rattle.std.specs.Prelude.{◌≡◌, ◌≤◌, ◌+◌, ◌*◌, ◌↔◌, Err, IfOk, OnOk, length, option_to_list};
ghost use Rattle.std.specs.List.{All};
ghost use Rattle.fx_chain.specs.Snapshot.{IsSnapshotOf, IsSoundChain, RestoresChain};
ghost use Rattle.fx_chain_flow.specs.Feed.{held_of};
ghost use Rattle.fx_plan_effects.specs.Bounds.{hold_all};
ghost use Rattle.fx_plan.specs.Planning.{planning};
ghost use Rattle.fx_chain_stages.specs.Stages.{effect_acts};
ghost use Rattle.fx_chain_stages.specs.Narrow.{AreNarrow, IsNarrow};

use crate::chain::Chain;
use fx_chain_flow::flow::Flow;
use fx_chain_stages::arguments_of;
use fx_frame::WideFrame;
use fx_frame_base::stage::ThawFault;
use fx_plan::Plan;
use std::alloc::{AllocError, Global};

/// All that determines what a chain still gives: its plan, the frames that it holds, and what it counted.
#[derive(Drop)]
pub struct Snapshot {
    /// The chain's plan.
    pub plan: Plan,
    /// The frame in the inlet, if there is one; then of each effect in order its line from the oldest frame to the newest
    /// and the pending frame, if there is one. The line of `echos` is its lines from the first to the last.
    pub frames: Vec<WideFrame>,
    /// Eight of the inlet, then eight of each effect: frames taken, frames given, 1 after the end and else 0, clips, frames
    /// stored, and three state counters.
    pub numbers: Vec<u64>,
}

impl Chain {
    /// The chain as it is now, as frames and numbers; AllocError where memory for them is refused. The chain is
    /// unchanged. There are exactly `held()` frames, and 8 numbers for each effect and the inlet.
    ///
    /// Samples in a line of `echos` may be sums beyond 32 bits, no others.
    pub fn freeze(&self, alloc: Global) -> Result<Snapshot, AllocError>
        ensures frozen { IfOk result (λ s. IsSnapshotOf self.now s) }
        ensures frames { IfOk result (λ s. length s.frames.items ≡ held_of effect_acts self.now.flow) }
        ensures within { IfOk result (λ s. length s.frames.items ≤ hold_all self.now.plan.acts) }
        ensures numbers { IfOk result (λ s. length s.numbers.items ≡ 8 * (length self.now.plan.acts + 1)) }
        ensures narrow { OnOk result
            (AreNarrow (option_to_list self.now.flow.inlet) × All IsNarrow self.now.flow.stages) }
        ensures sound { OnOk result (IsSoundChain self.now) }
    {
        let _held = self.held();
        let (frames, numbers) = self.flow.freeze(alloc)?;
        let plan = self.plan.copy(alloc)?;
        Ok(Snapshot {
            plan,
            frames,
            numbers,
        })
    }

    /// The chain of this plan that was frozen as the snapshot. Whichever chain that was, one of the same value is restored. No
    /// result of a chain depends on anything but its value, as the contracts of its calls show: so the two return the same for
    /// every call, now and later.
    ///
    /// WrongPlan exactly where the plan is not equal to the snapshot's, BadSnapshot where no chain of the plan stores these
    /// frames and counts these numbers, Memory where an allocation was refused.
    pub fn thaw(alloc: Global, plan: &Plan, snapshot: &Snapshot) -> Result<Chain, ThawFault>
        ensures wrong_plan { (result ≡ Err ThawFault.WrongPlan) ↔ (planning plan.now ≡ planning snapshot.now.plan → ⊥) }
        ensures plan { IfOk result (λ c. c.plan ≡ planning plan.now) }
        ensures frozen { IfOk result (λ c. IsSnapshotOf c snapshot.now) }
        ensures thawed { RestoresChain (planning plan.now) snapshot.now result }
    {
        let is_same = *plan == snapshot.plan;
        if !is_same {
            return Err(ThawFault::WrongPlan);
        }
        let Ok(plan) = plan.copy(alloc) else {
            return Err(ThawFault::Memory);
        };
        let channels = plan.head().channels;
        let Ok(arguments) = arguments_of(alloc, channels, plan.effects()) else {
            return Err(ThawFault::Memory);
        };
        let flow = Flow::thaw(
            alloc,
            &arguments,
            channels,
            &snapshot.frames,
            &snapshot.numbers,
        )?;
        Ok(Chain { flow, plan })
    }
}
