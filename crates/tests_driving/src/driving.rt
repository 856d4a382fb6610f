//! Chains of words, driven frame by frame. An error says what went wrong.
ghost use Rattle.std.specs.Prelude.{◌≡◌, IfOk, length};
ghost use Rattle.fx_plan.specs.Planning.{planning};

use crate::words::plan_of;
use fx_chain::{Chain, Snapshot};
use fx_chain_flow::flow::{MAX_FRAMES, State, Step};
use fx_frame::Frame;
use fx_plan::Plan;
use std::alloc::Global;

/// More steps than a chain of these rows makes between two frames.
const MAX_STEPS: u32 = 1000;

/// What a chain did: the samples of the frames that it gave, and the most frames that it held after a call.
#[derive(Drop)]
pub struct Driven {
    pub samples: Vec<i32>,
    pub max_held: u64,
}

impl Driven {
    /// Nothing so far.
    pub fn new(alloc: Global) -> Driven {
        Driven {
            samples: Vec::new(alloc),
            max_held: 0,
        }
    }

    /// Sees how many frames a chain holds.
    fn see_held(&mut self, chain: &Chain) {
        self.max_held = self.max_held.max(chain.held());
    }
}

/// The frame of one sample.
pub fn mono(sample: i32) -> Frame
    ensures { length result ≡ 1 }
{
    Frame::one(sample)
}

/// The sample of a frame's first channel.
pub fn first_sample(frame: Frame) -> i32 {
    let _channels = frame.channels();
    frame.get(0)
}

/// The next step of a chain that is busy.
pub fn next_step(chain: &mut Chain) -> Option<Step>
    ensures { chain.new.plan ≡ chain.old.plan }
{
    let State::Busy = chain.state() else {
        return None;
    };
    Some(chain.step())
}

/// Steps a chain until it waits.
fn settle(chain: &mut Chain, driven: &mut Driven) -> Result<(), &'static str>
    ensures { chain.new.plan ≡ chain.old.plan }
{
    'steps: for _step in 0..MAX_STEPS {
        let Some(step) = next_step(chain) else {
            return Ok(());
        };
        driven.see_held(chain);
        if let Step::Given(frame) = step {
            if driven.samples.push(first_sample(frame)).is_err() {
                return Err("no memory for the samples");
            }
        }
    }
    Err("steps without end")
}

/// Lets a hungry chain of one channel take a frame of this sample.
pub fn put(chain: &mut Chain, sample: i32) -> Result<(), &'static str>
    requires { chain.old.plan.head.channels ≡ 1 }
    ensures { chain.new.plan ≡ chain.old.plan }
{
    let State::Hungry = chain.state() else {
        return Err("not hungry");
    };
    if chain.taken() >= MAX_FRAMES {
        return Err("too many frames");
    }
    chain.take(mono(sample));
    Ok(())
}

/// Tells a hungry chain the end.
pub fn tell_end(chain: &mut Chain) -> Result<(), &'static str>
    ensures { chain.new.plan ≡ chain.old.plan }
{
    let State::Hungry = chain.state() else {
        return Err("not hungry");
    };
    chain.end();
    Ok(())
}

/// Lets a chain of one channel take frames of these samples, and steps it until it is hungry after each.
pub fn feed(chain: &mut Chain, driven: &mut Driven, samples: &[i32]) -> Result<(), &'static str>
    requires { chain.old.plan.head.channels ≡ 1 }
    ensures { chain.new.plan ≡ chain.old.plan }
{
    'samples: for sample in samples {
        put(chain, *sample)?;
        driven.see_held(chain);
        settle(chain, driven)?;
    }
    Ok(())
}

/// Tells a chain the end, and steps it until it is done.
pub fn finish(chain: &mut Chain, driven: &mut Driven) -> Result<(), &'static str>
    ensures { chain.new.plan ≡ chain.old.plan }
{
    tell_end(chain)?;
    driven.see_held(chain);
    settle(chain, driven)?;
    let State::Done = chain.state() else {
        return Err("not done");
    };
    Ok(())
}

/// A chain, and what it did.
#[derive(Drop)]
pub struct Driver {
    pub chain: Chain,
    pub driven: Driven,
}

impl Driver {
    /// The new chain of a plan.
    pub fn new(alloc: Global, plan: &Plan) -> Result<Driver, &'static str>
        ensures { IfOk result (λ d. d.chain.plan ≡ planning plan.now) }
    {
        match Chain::new(alloc, plan) {
            Ok(chain) => Ok(Driver {
                chain,
                driven: Driven::new(alloc),
            }),
            Err(_refused) => Err("no memory for the chain"),
        }
    }

    /// Lets a chain of one channel take frames of these samples, as `feed` does.
    pub fn feed(&mut self, samples: &[i32]) -> Result<(), &'static str>
        requires { self.old.chain.plan.head.channels ≡ 1 }
        ensures { self.new.chain.plan ≡ self.old.chain.plan }
    {
        feed(&mut self.chain, &mut self.driven, samples)
    }

    /// Tells the chain the end, as `finish` does.
    pub fn finish(&mut self) -> Result<(), &'static str>
        ensures { self.new.chain.plan ≡ self.old.chain.plan }
    {
        finish(&mut self.chain, &mut self.driven)
    }
}

/// The new chain of these effects, and what it did.
pub fn driver_of(alloc: Global, effects: &str) -> Result<Driver, &'static str>
    ensures { IfOk result (λ d. d.chain.plan.head.channels ≡ 1) }
{
    let plan = plan_of(alloc, effects)?;
    Driver::new(alloc, &plan)
}

/// The new chain of these effects.
pub fn chain_of(alloc: Global, effects: &str) -> Result<Chain, &'static str>
    ensures { IfOk result (λ c. c.plan.head.channels ≡ 1) }
{
    let plan = plan_of(alloc, effects)?;
    match Chain::new(alloc, &plan) {
        Ok(chain) => Ok(chain),
        Err(_refused) => Err("no memory for the chain"),
    }
}

/// What a chain is frozen to.
pub fn frozen(alloc: Global, chain: &Chain) -> Result<Snapshot, &'static str>
    ensures { IfOk result (λ s. planning s.plan ≡ chain.now.plan) }
{
    match chain.freeze(alloc) {
        Ok(snapshot) => Ok(snapshot),
        Err(_refused) => Err("no memory for the snapshot"),
    }
}
