//! A chain that is fed a block at a time.
ghost use Rattle.std.specs.Prelude.{◌≡◌, ◌≢◌, ◌<◌, ◌≤◌, ◌+◌, ◌/◌, ◌%◌, Err, IfOk, MatchResult, OnErr, OnOk, false, length, true};
ghost use Rattle.fx_chain.specs.Chain.{ChainParts};
ghost use Rattle.fx_chain.specs.Snapshot.{IsSoundChain};
ghost use Rattle.fx_chain_flow.specs.Parts.{taken_of};
ghost use Rattle.fx_chain_flow.specs.Sound.{max_frames};
ghost use Rattle.fx_chain_flow.specs.Steps.{IsHungry};
ghost use Rattle.fx_plan_effects.specs.Bounds.{hold_all};
ghost use Rattle.fx_plan.specs.Planning.{planning};
ghost use Rattle.fx_chain_stages.specs.Stages.{effect_acts};
ghost use Rattle.soxchain_stream.specs.Snapshots.{AppendsChain, IsFrozenAs};

use crate::frozen::append_flow;
use crate::thawed::{Stored, thaw_from_bytes};
use fx_chain::inner::flow_of;
use fx_chain::{Chain, Snapshot};
use fx_chain_flow::flow::{MAX_FRAMES, State};
use fx_frame::{Passed, ThawFault};
use fx_plan::Plan;
use std::alloc::{AllocError, Global};
use thiserror::Error;

/// The chain of a plan, and the plan.
#[derive(Drop)]
pub struct Stream {
    pub chain: Chain,
    pub plan: Plan,
    ghost same: { chain.plan ≡ planning plan },
}

/// What a stream waits for.
#[derive(Clone, Copy, Debug, PartialEq, Eq)]
pub enum Waits {
    /// For frames or the end.
    Frames,
    /// For space in the output.
    Output,
    /// For nothing: all was given.
    Nothing,
    /// For the end: no frame changes what is still to be given.
    End,
}

/// Why nothing was taken.
#[derive(Clone, Copy, Debug, Drop, PartialEq, Eq, Error)]
pub enum FeedFault {
    /// The samples make no whole frames.
    #[error("the samples make no whole frames")]
    PartOfFrame = 1,
    /// More than 2^40 frames would have come.
    #[error("the sound is too long")]
    TooLong = 2,
}

impl Stream {
    ghost use Rattle.soxchain_stream.specs.Streams.{StreamWasFed, WaitsFor, stream_clips, ended, held_in};

    /// Samples per frame that it takes, 1 to 16.
    pub fn inputs(&self) -> usize
        ensures value { result ≡ self.now.chain.plan.head.channels }
        ensures some { 0 < result }
    {
        self.plan.head().channels
    }

    /// Samples per frame that it gives, 1 to 16.
    pub fn outputs(&self) -> usize
        ensures { result ≡ self.now.chain.plan.layout.channels }
    {
        self.plan.channels()
    }

    /// Frames per second that it gives.
    pub fn rate(&self) -> u32
        ensures { result ≡ self.now.chain.plan.layout.rate }
    {
        self.plan.rate()
    }

    /// What it waits for.
    pub fn waits(&self) -> Waits
        ensures { WaitsFor result self.now }
    {
        match self.chain.state() {
            State::Busy => Waits::Output,
            State::Done => Waits::Nothing,
            State::Hungry => {
                if self.chain.is_spent() {
                    Waits::End
                } else {
                    Waits::Frames
                }
            }
        }
    }

    /// Takes whole frames from the front of the input and writes those that are given to the front of the output, as
    /// `Chain::feed` does. Nothing is taken of samples that make no whole frames, nor of more than 2^40 frames in all; where
    /// the output has no space for one frame, nothing changes.
    pub fn feed(&mut self, input: &[i32], output: &mut [i32]) -> Result<Passed, FeedFault>
        ensures fed { IfOk result (λ passed. StreamWasFed self.old self.new input.now output.old output.new passed) }
        ensures part { result ≡ Err FeedFault.PartOfFrame → length input.now % self.old.chain.plan.head.channels ≢ 0 }
        ensures too_long { result ≡ Err FeedFault.TooLong → (length input.now % self.old.chain.plan.head.channels ≡ 0)
            × (max_frames < taken_of self.old.chain.flow + length input.now / self.old.chain.plan.head.channels) }
        ensures refused { OnErr result ((self.new ≡ self.old) × (output.new ≡ output.old)) }
        ensures whole { OnOk result (length input.now % self.old.chain.plan.head.channels ≡ 0) }
        ensures bound { OnOk result
            (taken_of self.old.chain.flow + length input.now / self.old.chain.plan.head.channels ≤ max_frames) }
    {
        let channels = self.inputs();
        if input.len() % channels != 0 {
            return Err(FeedFault::PartOfFrame);
        }
        let frames = (input.len() / channels) as u64;
        if frames > MAX_FRAMES - self.chain.taken() {
            return Err(FeedFault::TooLong);
        }
        Ok(self.chain.feed(input, output))
    }

    /// Gives it the end, where it waits for a frame. True where it did.
    pub fn end(&mut self) -> bool
        ensures delivered { result ≡ true → IsHungry effect_acts self.old.chain.flow × (self.new ≡ ended self.old) }
        ensures refused { result ≡ false → (IsHungry effect_acts self.old.chain.flow → ⊥) × (self.new ≡ self.old) }
    {
        let State::Hungry = self.chain.state() else {
            return false;
        };
        self.chain.end();
        true
    }

    /// The frames that it holds.
    pub fn held(&self) -> u64
        ensures { result ≡ held_in self.now }
    {
        self.chain.held()
    }

    /// The frames that it may hold.
    pub fn hold(&self) -> u64
        ensures { result ≡ hold_all self.now.chain.plan.acts }
    {
        self.chain.hold()
    }

    /// The samples that effect `number`, counted from 1, clipped; 0 where there is no such effect.
    pub fn clips(&self, number: usize) -> u64
        ensures { result ≡ stream_clips self.now number }
    {
        if number == 0 || number > self.plan.effect_count() {
            return 0;
        }
        self.chain.clips(number)
    }

    /// The chain as bytes; it is unchanged.
    pub fn freeze(&self, alloc: Global) -> Result<Vec<u8>, AllocError>
        ensures frozen { IfOk result (λ bytes. IsFrozenAs self.now.chain bytes.items) }
        ensures sound { OnOk result (IsSoundChain self.now.chain) }
    {
        let mut bytes = Vec::new(alloc);
        self.append_to(&mut bytes)?;
        Ok(bytes)
    }

    /// Appends the chain as bytes; it is unchanged. Memory is taken once, for all of them and a few further bytes. Beside
    /// them nothing is made that grows with what the chain holds.
    pub fn append_to(&self, bytes: &mut Vec<u8>) -> Result<(), AllocError>
        ensures frozen { OnOk result (AppendsChain self.now.chain bytes.old.items bytes.new.items) }
        ensures sound { OnOk result (IsSoundChain self.now.chain) }
    {
        append_flow(bytes, flow_of(&self.chain))?;
        Ok(())
    }

    /// Continues from a chain of the same plan that was frozen to these bytes: whichever it was, one of the same value takes
    /// the place of this one. Else the reason, and nothing has changed: Memory, or BadSnapshot where no chain of the plan was
    /// frozen so.
    pub fn thaw(&mut self, alloc: Global, bytes: &[u8]) -> Result<(), ThawFault>
        ensures frozen { OnOk result (IsFrozenAs self.new.chain bytes.now) }
        ensures plan { self.new.plan ≡ self.old.plan }
        ensures thawed { (c : ChainParts) → IsSoundChain c
            → c.plan ≡ self.old.chain.plan → IsFrozenAs c bytes.now
            → MatchResult result (λ _. self.new.chain ≡ c) (λ e. e ≡ ThawFault.Memory) }
        ensures refused { OnErr result (self.new ≡ self.old) }
        ensures named { (result ≡ Err ThawFault.WrongPlan) → ⊥ }
    {
        let stored = match thaw_from_bytes(alloc, bytes) {
            Ok(Some(stored)) => stored,
            Ok(None) => return Err(ThawFault::BadSnapshot),
            Err(AllocError) => return Err(ThawFault::Memory),
        };
        let Ok(plan) = self.plan.copy(alloc) else {
            return Err(ThawFault::Memory);
        };
        let Stored { numbers, frames } = stored;
        let snapshot = Snapshot {
            plan,
            frames,
            numbers,
        };
        match Chain::thaw(alloc, &self.plan, &snapshot) {
            Ok(chain) => {
                self.chain = chain;
                Ok(())
            }
            Err(fault) => Err(fault),
        }
    }
}
