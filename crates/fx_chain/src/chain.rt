//! The chain of a plan's effects.
ghost use Rattle.std.specs.Prelude.{◌≡◌, ◌<◌, ◌≤◌, ◌+◌, ◌-◌, ◌*◌, ℕ, IfOk, List, Some, [], length, map, slice_index, true};
ghost use Rattle.fx_chain.specs.Chain.{IsNewChain};
ghost use Rattle.fx_chain.specs.Feeding.{ChainFed, inputs_in, outputs_in};
ghost use Rattle.fx_chain_flow.specs.Parts.{AllNew, Parts, any_spent, moves_of, taken_of};
ghost use Rattle.fx_chain_flow.specs.Sound.{max_frames};
ghost use Rattle.fx_chain_flow.specs.Feed.{held_of};
ghost use Rattle.fx_chain_flow.specs.Steps.{GaveDue, StepsOn, clips_in_all, given_in_all, has_enough, IsDone, IsHungry, MovedOn, StateIs, Steps, StepsInSequence, rest_of};
ghost use Rattle.fx_frame_base.specs.Frame.{IsChannelCount, Samples};
ghost use Rattle.fx_frame_base.specs.Holds.{capacity_sum, total};
ghost use Rattle.fx_plan_effects.specs.Bounds.{hold_all, work_of};
ghost use Rattle.fx_plan_effects.specs.Meanings.{line_of_act};
ghost use Rattle.fx_plan.specs.Planning.{planning};
ghost use Rattle.fx_chain_stages.specs.Stages.{effect_acts};
ghost use Rattle.fx_chain_stages.specs.declared.registry.EffectStage.{EffectStage};

use fx_chain_flow::flow::{Flow, State, Step};
use fx_chain_stages::{EffectStage, stages_of};
use fx_frame::{Frame, Passed};
use fx_plan::Plan;
use std::alloc::{AllocError, Global};
use std::marker::Model;

/// The effects of a plan in sequence, after an inlet of one frame, and a copy of the plan.
///
/// It takes a frame, or is given the end, only where it is hungry; then it is stepped until it is hungry again, or done.
/// A step moves one frame. At every moment it holds at most the frames of its plan's `hold()`.
#[derive(Drop)]
pub struct Chain {
    pub(crate) flow: Flow<EffectStage>,
    pub(crate) plan: Plan,
}

impl Model for Chain {
    ghost use Rattle.fx_chain.specs.Chain.{ChainParts, IsChain};
    ghost use Rattle.fx_plan.specs.Planning.{planning};

    ghost Value = { ChainParts };

    ghost view = { λ c. record { plan = planning c.plan; flow = c.flow } };

    ghost invariant = { λ c. IsChain (record { plan = planning c.plan; flow = c.flow }) };
}

impl Chain {
    /// The chain of a plan, which has taken nothing; AllocError where memory is refused, for the lines of its effects or
    /// the copy of the plan. No other call allocates memory except `freeze` and `thaw`.
    pub fn new(alloc: Global, plan: &Plan) -> Result<Chain, AllocError>
        ensures made { IfOk result (λ c. IsNewChain (planning plan.now) c) }
        ensures new { IfOk result (λ c. AllNew effect_acts c.flow.stages) }
    {
        let plan = plan.copy(alloc)?;
        let channels = plan.head().channels;
        let stages = stages_of(alloc, channels, plan.effects())?;
        let flow = Flow::new(stages, channels);
        Ok(Chain { flow, plan })
    }

    /// What it waits for. Where it is hungry, it has given all frames that are due for those taken. However many steps are made
    /// in sequence from here on, they are no more than the plan's remaining work, and one for each effect: so it is hungry or
    /// done after at most that many.
    #[inline(always)]
    pub fn state(&self) -> State
        ensures state { StateIs effect_acts result self.now.flow }
        ensures bounded { (n : ℕ) (last : Parts EffectStage) → StepsInSequence effect_acts self.now.flow n last
            → n ≤ work_of self.now.plan.acts (taken_of self.now.flow) - moves_of effect_acts self.now.flow
            + length self.now.plan.acts }
        ensures due { result ≡ State.Hungry → GaveDue effect_acts self.now.flow }
    {
        self.flow.state()
    }

    /// Takes a frame of the input's channels; at most `2^40` of them.
    #[inline(always)]
    pub fn take(&mut self, frame: Frame)
        requires hungry { IsHungry effect_acts self.old.flow }
        requires channels { length frame ≡ self.old.plan.head.channels }
        requires bound { taken_of self.old.flow < max_frames }
        ensures { self.new ≡ record self.old { flow = record self.old.flow { inlet = Some frame } } }
    {
        self.flow.take(frame);
    }

    /// Gives it the end: no frame will come.
    pub fn end(&mut self)
        requires { IsHungry effect_acts self.old.flow }
        ensures { self.new ≡ record self.old { flow = record self.old.flow { ended = true } } }
    {
        self.flow.end();
    }

    /// Moves one frame from the last effect that is not dry; where all are dry, from the inlet; where that is empty too and
    /// the end was given, gives the end to the first effect that is not ended.
    #[inline(always)]
    pub fn step(&mut self) -> Step
        requires { StateIs effect_acts State.Busy self.old.flow }
        ensures steps { Steps effect_acts self.old.flow result self.new.flow }
        ensures moved { MovedOn effect_acts self.old.flow result self.new.flow }
        ensures sequence { StepsOn effect_acts self.old.flow self.new.flow }
        ensures plan { self.new.plan ≡ self.old.plan }
    {
        self.flow.step()
    }

    /// Takes frames from the front of the input, and writes those that are given to the front of the output: samples of
    /// frames lie one after another, channel by channel. Each frame goes through all effects before the next one is taken, as
    /// by `take` and `step`; until the output has no space for another frame, or the chain is done, or it is hungry and takes
    /// none, since the input is used up or some effect gives nothing more. A frame is taken only while the output has space for
    /// one more than was due before it. Where the output has no space for one frame, nothing changes; and once it has none,
    /// the call ends: the last step is the one that gave the last frame.
    pub fn feed(&mut self, input: &[i32], output: &mut [i32]) -> Passed
        requires channels { IsChannelCount (inputs_in self.old) }
        requires bound { (n : ℕ) → n * inputs_in self.old ≤ length input.now → taken_of self.old.flow + n ≤ max_frames }
        ensures fed { ChainFed self.old self.new input.now output.old output.new result }
    {
        self.flow.feed(input, output)
    }

    /// Samples per frame that it gives.
    pub fn outputs(&self) -> usize
        ensures value { result ≡ outputs_in self.now }
        ensures range { IsChannelCount result }
    {
        let _head = self.plan.head();
        let _effects = self.plan.effects();
        self.flow.out_channels()
    }

    /// How many frames it took.
    pub fn taken(&self) -> u64
        ensures value { result ≡ taken_of self.now.flow }
        ensures bound { result ≤ max_frames }
    {
        self.flow.taken()
    }

    /// How many frames left the inlet or an effect. For the frames taken it is at most the plan's `work`; where the chain is
    /// done, it is the frames taken and the frames that each effect gives in all.
    pub fn moves(&self) -> u64
        ensures value { result ≡ moves_of effect_acts self.now.flow }
        ensures within { result ≤ work_of self.now.plan.acts (taken_of self.now.flow) }
        ensures done { IsDone effect_acts self.now.flow
            → result ≡ taken_of self.now.flow + given_in_all effect_acts self.now.flow }
    {
        self.flow.moves()
    }

    /// How many frames it holds: in the inlet, in the lines of its effects, and pending. At most the plan's `hold`.
    pub fn held(&self) -> u64
        ensures value { result ≡ held_of effect_acts self.now.flow }
        ensures within { result ≤ hold_all self.now.plan.acts }
    {
        self.flow.held()
    }

    /// How many frames it may hold: the plan's `hold`. The capacities of the lines of its effects are those of the plan.
    pub fn hold(&self) -> u64
        ensures value { result ≡ hold_all self.now.plan.acts }
        ensures capacities { capacity_sum effect_acts self.now.flow.stages ≡ total line_of_act self.now.plan.acts }
    {
        self.flow.hold()
    }

    /// How many samples were clipped in the frames that effect `number`, counted from 1, gave.
    pub fn clips(&self, number: usize) -> u64
        requires first { 1 ≤ number }
        requires last { number ≤ length self.now.plan.acts }
        ensures value { result
            ≡ slice_index (map (λ s. (effect_acts.counts s).clips) self.now.flow.stages) (number - 1) }
        ensures done { IsDone effect_acts self.now.flow
            → result ≡ slice_index (clips_in_all effect_acts self.now.flow) (number - 1) }
    {
        self.flow.clips(number - 1)
    }

    /// Whether some effect gives nothing more, whatever input follows. Then no further frame changes what is still to be given.
    pub fn is_spent(&self) -> bool
        ensures value { result ≡ any_spent effect_acts self.now.flow.stages }
        ensures enough { IsHungry effect_acts self.now.flow → result ≡ has_enough effect_acts self.now.flow }
        ensures same { result ≡ true → (z : List Samples)
            → rest_of effect_acts self.now.flow z ≡ rest_of effect_acts self.now.flow [] }
    {
        self.flow.is_spent()
    }
}
