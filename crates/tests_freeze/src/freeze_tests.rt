//! The worked rows of freezing and thawing.
ghost use Rattle.std.specs.Prelude.{◌≡◌, IfOk, IfSome};
ghost use Rattle.fx_plan.specs.Planning.{planning};

use fx_chain::{Chain, Snapshot};
use fx_chain_flow::flow::{MAX_FRAMES, State, Step};
use fx_frame::WideFrame;
use fx_frame_base::stage::ThawFault;
use fx_plan::Plan;
use std::alloc::Global;
use tests_driving::driving::{
    Driven, Driver, chain_of, driver_of, first_sample, frozen, mono, next_step, put, tell_end,
};
use tests_driving::words::{TWELVE_EFFECTS, found_plan, plan_of};

/// More calls than a chain of these rows is given.
const MAX_CALLS: u32 = 1000;

const TWELVE_SAMPLES: [i32; 4] = [8, 8, 8, 8];

const TWELVE_OUTPUT: [i32; 9] = [0, 0, 8, 20, 28, 22, 10, 2, 0];

/// The chain of these effects after it took frames of these samples, hungry again, and what it did.
fn fed(alloc: Global, effects: &str, samples: &[i32]) -> Result<Driver, &'static str> {
    let mut driver = driver_of(alloc, effects)?;
    driver.feed(samples)?;
    Ok(driver)
}

/// The snapshot of the chain of these effects after it took frames of these samples.
fn snapshot_of(alloc: Global, effects: &str, samples: &[i32]) -> Result<Snapshot, &'static str> {
    let driver = fed(alloc, effects, samples)?;
    frozen(alloc, &driver.chain)
}

/// The snapshot of `trim -3s` after 1 2 3 4 5.
fn trim_snapshot(alloc: Global) -> Result<Snapshot, &'static str> {
    snapshot_of(alloc, "trim -3s", &[1, 2, 3, 4, 5])
}

/// The chain that a snapshot came from.
fn thawed(alloc: Global, snapshot: &Snapshot) -> Result<Chain, &'static str>
    ensures { IfOk result (λ c. c.plan ≡ planning snapshot.now.plan) }
{
    match Chain::thaw(alloc, &snapshot.plan, snapshot) {
        Ok(chain) => Ok(chain),
        Err(_fault) => Err("no chain of this snapshot"),
    }
}

/// What the chain of a snapshot does where it is given the end.
fn thawed_to_the_end(alloc: Global, snapshot: &Snapshot) -> Result<Driver, &'static str> {
    let chain = thawed(alloc, snapshot)?;
    let driven = Driven::new(alloc);
    let mut further = Driver { chain, driven };
    further.finish()?;
    Ok(further)
}

/// The fault for which a snapshot is refused with this plan, if it is.
fn refusal(alloc: Global, plan: &Plan, snapshot: &Snapshot) -> Option<ThawFault> {
    match Chain::thaw(alloc, plan, snapshot) {
        Ok(_chain) => None,
        Err(fault) => Some(fault),
    }
}

/// The sample of a frame's first channel.
fn first_wide(frame: &WideFrame) -> i64 {
    let _channels = frame.channels();
    frame.get(0)
}

/// Have frames these samples in their first channels?
fn have_samples(frames: &[WideFrame], samples: &[i64]) -> bool {
    if frames.len() != samples.len() {
        return false;
    }
    for (frame, sample) in frames.iter().zip(samples) {
        if first_wide(frame) != *sample {
            return false;
        }
    }
    true
}

/// Fails with a text where the chain of a snapshot does not give these samples where it is given the end.
fn ends_with(
    alloc: Global,
    snapshot: &Snapshot,
    samples: &[i32],
    text: &'static str,
) -> Result<(), &'static str> {
    let further = thawed_to_the_end(alloc, snapshot)?;
    if further.driven.samples.as_slice() == samples {
        Ok(())
    } else {
        Err(text)
    }
}

/// Fails where a snapshot is not refused with the plan of `trim -2s`.
fn needs_its_plan(alloc: Global, snapshot: &Snapshot) -> Result<(), &'static str> {
    let other = plan_of(alloc, "trim -2s")?;
    if refusal(alloc, &other, snapshot) == Some(ThawFault::WrongPlan) {
        Ok(())
    } else {
        Err("a snapshot is not refused with another plan")
    }
}

/// Fails where the copy of a plan is another plan.
fn copies(alloc: Global, plan: &Plan) -> Result<(), &'static str> {
    let Ok(copy) = plan.copy(alloc) else {
        return Err("no memory for the copy");
    };
    if copy == *plan {
        Ok(())
    } else {
        Err("the copy is another plan")
    }
}

/// Fails where that is not what is known of the snapshot of `trim -3s` after 1 2 3 4 5.
fn check_trim(alloc: Global, snapshot: &Snapshot) -> Result<(), &'static str> {
    if !have_samples(&snapshot.frames, &[3, 4, 5]) {
        return Err("other frames of a trim");
    }
    let numbers = [5, 5, 0, 0, 0, 0, 0, 0, 5, 0, 0, 0, 3, 0, 0, 0];
    if snapshot.numbers.as_slice() != numbers.as_slice() {
        return Err("other numbers of a trim");
    }
    ends_with(alloc, snapshot, &[3, 4, 5], "a trim gives other samples")?;
    needs_its_plan(alloc, snapshot)?;
    copies(alloc, &snapshot.plan)
}

/// A frozen `trim`: its frames and numbers, what it gives where it is thawed, and that it is refused with another plan.
#[test]
fn trim_frozen(rt: HostRuntime) -> Result<(), &'static str> {
    let snapshot = trim_snapshot(rt.alloc())?;
    check_trim(rt.alloc(), &snapshot)
}

/// Lets what a chain is frozen to go on to the end.
fn freeze_and_go_on(alloc: Global, chain: &Chain) -> Result<(), &'static str> {
    let snapshot = frozen(alloc, chain)?;
    thawed_to_the_end(alloc, &snapshot)?;
    Ok(())
}

/// Fails where a `trim` that was frozen does not go on as if nothing had been asked.
fn go_on_frozen(alloc: Global) -> Result<(), &'static str> {
    let mut driver = fed(alloc, "trim -3s", &[1, 2, 3, 4, 5])?;
    freeze_and_go_on(alloc, &driver.chain)?;
    driver.finish()?;
    if driver.driven.samples.as_slice() == [3, 4, 5].as_slice() {
        Ok(())
    } else {
        Err("a frozen trim gives other samples")
    }
}

/// A `trim` that is frozen and thawed on its way.
#[test]
fn frozen_trim_goes_on(rt: HostRuntime) -> Result<(), &'static str> {
    go_on_frozen(rt.alloc())
}

/// The chain of `upsample 2 delay 1s` that took a frame of 5.
fn took_five(alloc: Global) -> Result<Chain, &'static str> {
    let mut chain = chain_of(alloc, "upsample 2 delay 1s")?;
    put(&mut chain, 5)?;
    Ok(chain)
}

/// The snapshot of that chain after one step.
fn one_step_snapshot(alloc: Global) -> Result<Snapshot, &'static str> {
    let mut chain = took_five(alloc)?;
    if next_step(&mut chain) != Some(Step::Moved) {
        return Err("another step");
    }
    frozen(alloc, &chain)
}

/// Fails where that is not the snapshot of that chain after one step, or where it is not refused with a number less.
fn check_one_step(alloc: Global, snapshot: &mut Snapshot) -> Result<(), &'static str> {
    let numbers = [
        1, 1, 0, 0, 0, 0, 0, 0, 1, 0, 0, 0, 1, 1, 0, 0, 0, 0, 0, 0, 0, 0, 0, 0,
    ];
    if snapshot.numbers.as_slice() != numbers.as_slice() {
        return Err("other numbers after one step");
    }
    if snapshot.frames.as_slice() != [WideFrame::from_frame(mono(5))].as_slice() {
        return Err("other frames after one step");
    }
    snapshot.numbers.truncate(23);
    if refusal(alloc, &snapshot.plan, snapshot) != Some(ThawFault::BadSnapshot) {
        return Err("a number less is not refused");
    }
    Ok(())
}

/// A chain of two effects that is frozen between two steps.
#[test]
fn frozen_after_one_step(rt: HostRuntime) -> Result<(), &'static str> {
    let mut snapshot = one_step_snapshot(rt.alloc())?;
    check_one_step(rt.alloc(), &mut snapshot)
}

/// Steps a chain beside another one, which has to be the same.
fn step_beside(chain: &mut Chain, again: &mut Chain) -> Result<(), &'static str> {
    if again.held() != chain.held() {
        return Err("another number of frames held");
    }
    if next_step(again) != next_step(chain) {
        return Err("another step");
    }
    if again.moves() != chain.moves() {
        return Err("another number of hand-overs");
    }
    Ok(())
}

/// Steps a chain beside the one that its snapshot is thawed to, which has to be the same.
fn step_beside_thawed(alloc: Global, chain: &mut Chain) -> Result<(), &'static str> {
    let snapshot = frozen(alloc, chain)?;
    let mut again = thawed(alloc, &snapshot)?;
    step_beside(chain, &mut again)
}

/// The same chain, thawed after each step.
#[test]
fn thaw_after_each_step(rt: HostRuntime) -> Result<(), &'static str> {
    let mut chain = took_five(rt.alloc())?;
    for _step in 0..5 {
        step_beside_thawed(rt.alloc(), &mut chain)?;
    }
    Ok(())
}

/// An `echos` that is thawed with samples to come.
#[test]
fn thaw_echos(rt: HostRuntime) -> Result<(), &'static str> {
    let snapshot = snapshot_of(rt.alloc(), "echos 1 1 0.25 0.5 0.125 0.5", &[8])?;
    let text = "an echos gives other samples";
    ends_with(rt.alloc(), &snapshot, &[4, 4, 4], text)
}

/// What is wrong with a snapshot of one effect.
#[derive(Clone, Copy)]
enum Damage {
    /// The inlet took more than 2^40 frames.
    TooManyTaken,
    /// The third entry of the effect, 0 or 1, is 2.
    HalfEnded,
    /// A frame has two channels.
    Stereo,
    /// A sample has 33 bits.
    Wide,
    /// The last frame is not there.
    OneLess,
    /// No number is there.
    NoNumber,
}

/// The frame of these samples.
fn wide(samples: &[i64]) -> Result<WideFrame, &'static str> {
    match WideFrame::from_slice(samples) {
        Some(frame) => Ok(frame),
        None => Err("no frame"),
    }
}

/// Does the damage to a snapshot.
fn spoil(snapshot: &mut Snapshot, damage: Damage) -> Result<(), &'static str> {
    if snapshot.numbers.len() != 16 || snapshot.frames.len() != 3 {
        return Err("another snapshot");
    }
    match damage {
        Damage::TooManyTaken => snapshot.numbers[0] = MAX_FRAMES + 1,
        Damage::HalfEnded => snapshot.numbers[10] = 2,
        Damage::Stereo => snapshot.frames[0] = wide(&[3, 3])?,
        Damage::Wide => snapshot.frames[0] = wide(&[1 << 31])?,
        Damage::OneLess => snapshot.frames.truncate(2),
        Damage::NoNumber => snapshot.numbers.clear(),
    }
    Ok(())
}

/// Fails where the snapshot of `trim -3s` is not refused as a bad one after this damage.
fn is_refused_after(alloc: Global, damage: Damage) -> Result<(), &'static str> {
    let mut snapshot = trim_snapshot(alloc)?;
    spoil(&mut snapshot, damage)?;
    if refusal(alloc, &snapshot.plan, &snapshot) == Some(ThawFault::BadSnapshot) {
        Ok(())
    } else {
        Err("a damaged snapshot is not refused")
    }
}

/// Each damage in turn.
#[test]
fn thaw_refused(rt: HostRuntime) -> Result<(), &'static str> {
    for damage in [
        Damage::TooManyTaken,
        Damage::HalfEnded,
        Damage::Stereo,
        Damage::Wide,
        Damage::OneLess,
        Damage::NoNumber,
    ] {
        is_refused_after(rt.alloc(), damage)?;
    }
    Ok(())
}

/// The next call on the way of a chain of one channel through these samples and the end: a step, a frame or the end. False
/// where it is done.
fn advance(chain: &mut Chain, samples: &[i32], out: &mut Vec<i32>) -> Result<bool, &'static str>
    requires { chain.old.plan.head.channels ≡ 1 }
    ensures { chain.new.plan ≡ chain.old.plan }
{
    if let Some(step) = next_step(chain) {
        keep_given(step, out)?;
        return Ok(true);
    }
    let State::Hungry = chain.state() else {
        return Ok(false);
    };
    match samples.get(chain.taken() as usize) {
        Some(sample) => put(chain, *sample)?,
        None => tell_end(chain)?,
    }
    Ok(true)
}

/// Adds the sample of the frame that a step gave, if it did.
fn keep_given(step: Step, out: &mut Vec<i32>) -> Result<(), &'static str> {
    if let Step::Given(frame) = step {
        if out.push(first_sample(frame)).is_err() {
            return Err("no memory for the samples");
        }
    }
    Ok(())
}

/// Lets a chain of one channel go on through the rest of these samples and the end.
fn go_on(chain: &mut Chain, samples: &[i32], out: &mut Vec<i32>) -> Result<(), &'static str>
    requires { chain.old.plan.head.channels ≡ 1 }
{
    'calls: for _call in 0..MAX_CALLS {
        if !advance(chain, samples, out)? {
            return Ok(());
        }
    }
    Err("calls without end")
}

/// All that the chain of twelve effects gave, and what it is frozen to at the end.
#[derive(Drop)]
struct Ending {
    samples: Vec<i32>,
    snapshot: Snapshot,
}

impl Ending {
    /// The fault where it is not what has to come, with these numbers.
    fn compare(&self, numbers: &[u64]) -> Result<(), &'static str> {
        if self.samples.as_slice() != TWELVE_OUTPUT.as_slice() {
            return Err("other samples");
        }
        if self.snapshot.numbers.as_slice() != numbers {
            return Err("other numbers at the end");
        }
        Ok(())
    }
}

/// What a chain that is done is frozen to, beside the samples that it gave.
fn ended_with(alloc: Global, chain: &Chain, samples: Vec<i32>) -> Result<Ending, &'static str> {
    if chain.moves() != 106 {
        return Err("another number of hand-overs");
    }
    let snapshot = frozen(alloc, chain)?;
    Ok(Ending { samples, snapshot })
}

/// What the chain of a snapshot comes to where it goes on from there: all that is given, with what was given before, and all
/// numbers at the end.
fn outcome(alloc: Global, snapshot: &Snapshot, given: &[i32]) -> Result<Ending, &'static str>
    requires { (planning snapshot.now.plan).head.channels ≡ 1 }
{
    let mut again = thawed(alloc, snapshot)?;
    let Ok(mut out) = Vec::from_slice(alloc, given) else {
        return Err("no memory for the samples");
    };
    go_on(&mut again, &TWELVE_SAMPLES, &mut out)?;
    ended_with(alloc, &again, out)
}

/// Does the chain of twelve effects, thawed here, come to what it has to give, and to these numbers?
fn comes_to(
    alloc: Global,
    chain: &Chain,
    given: &[i32],
    numbers: &[u64],
) -> Result<(), &'static str>
    requires { chain.now.plan.head.channels ≡ 1 }
{
    let snapshot = frozen(alloc, chain)?;
    if snapshot.frames.len() > 23 || snapshot.numbers.len() != 104 {
        return Err("too many frames, or another number of numbers");
    }
    let end = outcome(alloc, &snapshot, given)?;
    end.compare(numbers)
}

/// Lets the chain of twelve effects go on to the end, and thaws it before every call.
fn go_on_thawed(alloc: Global, chain: &mut Chain, numbers: &[u64]) -> Result<(), &'static str>
    requires { chain.old.plan.head.channels ≡ 1 }
{
    let mut out = Vec::new(alloc);
    'calls: for _call in 0..MAX_CALLS {
        comes_to(alloc, chain, &out, numbers)?;
        if !advance(chain, &TWELVE_SAMPLES, &mut out)? {
            return Ok(());
        }
    }
    Err("calls without end")
}

/// What the new chain of twelve effects comes to, frozen and thawed at once.
fn whole_outcome(alloc: Global, chain: &Chain) -> Result<Ending, &'static str>
    requires { chain.now.plan.head.channels ≡ 1 }
{
    let snapshot = frozen(alloc, chain)?;
    outcome(alloc, &snapshot, &[])
}

/// The chain of twelve effects, thawed after every call.
#[test]
fn freeze_twelve_line(rt: HostRuntime) -> Result<(), &'static str> {
    let mut chain = chain_of(rt.alloc(), TWELVE_EFFECTS)?;
    let whole = whole_outcome(rt.alloc(), &chain)?;
    go_on_thawed(rt.alloc(), &mut chain, &whole.snapshot.numbers)
}

/// Freezes a chain and thaws it.
fn freeze_and_thaw(alloc: Global, chain: &Chain) -> Result<Chain, ThawFault> {
    let Ok(snapshot) = chain.freeze(alloc) else {
        return Err(ThawFault::Memory);
    };
    Chain::thaw(alloc, &snapshot.plan, &snapshot)
}

/// The new chain of twelve effects; None where memory for it is refused.
fn found_chain(alloc: Global) -> Option<Chain>
    ensures { IfSome result (λ c. c.plan.head.channels ≡ 1) }
{
    let plan = found_plan(alloc, TWELVE_EFFECTS)?;
    Chain::new(alloc, &plan).ok()
}

/// That chain, and room for what it gives; None where memory for them is refused.
fn found_driver(alloc: Global) -> Option<Driver>
    ensures { IfSome result (λ d. d.chain.plan.head.channels ≡ 1) }
{
    let chain = found_chain(alloc)?;
    let Ok(samples) = Vec::with_capacity(alloc, TWELVE_OUTPUT.len()) else {
        return None;
    };
    let driven = Driven {
        samples,
        max_held: 0,
    };
    Some(Driver { chain, driven })
}

/// Freezes and thaws the chain of twelve effects on its way, which then runs on as if nothing had been asked; the fault, if
/// there is one.
fn fault_on_the_way(alloc: Global, driver: &mut Driver) -> Result<Option<ThawFault>, &'static str>
    requires { driver.old.chain.plan.head.channels ≡ 1 }
{
    driver.feed(&TWELVE_SAMPLES)?;
    let fault = freeze_and_thaw(alloc, &driver.chain).err();
    driver.finish()?;
    if driver.driven.samples.as_slice() != TWELVE_OUTPUT.as_slice() {
        return Err("other samples");
    }
    Ok(fault)
}

/// What is said of freezing and thawing: `refused` where memory is wanting, `made` where none was.
fn said(alloc: Global) -> Result<&'static str, &'static str> {
    let Some(mut driver) = found_driver(alloc) else {
        return Ok("refused");
    };
    match fault_on_the_way(alloc, &mut driver)? {
        None => Ok("made"),
        Some(ThawFault::Memory) => Ok("refused"),
        Some(_fault) => Err("another fault than want of memory"),
    }
}

/// Each request for memory refused in turn; the frozen chain then runs on as if nothing had been asked.
#[test]
fn growth_freeze_thaw(rt: HostRuntime) -> Result<(), &'static str> {
    let said = said(rt.alloc())?;
    match println!(rt; "{said}") {
        Ok(()) => Ok(()),
        Err(_unwritten) => Err("nothing can be printed"),
    }
}
