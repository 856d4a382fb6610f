//! The worked rows of bounds and steps.
ghost use Rattle.std.specs.Prelude.{◌≡◌};
ghost use Rattle.fx_plan.specs.Planning.{planning};

use fx_chain::Chain;
use fx_chain_flow::flow::{State, Step};
use fx_plan::Plan;
use std::alloc::Global;
use tests_driving::driving::{Driver, chain_of, driver_of, mono, next_step, put, tell_end};
use tests_driving::words::{TWELVE_EFFECTS, plan_of};

const THREE_EFFECTS: &str = "pad 3s delay 4s echo 1 1 0.25 0.5";

/// Each frame twice as often, and then one frame later.
const TWO_EFFECTS: &str = "upsample 2 delay 1s";

/// Lets a chain of one channel take these samples and then the end.
fn pass(driver: &mut Driver, samples: &[i32]) -> Result<(), &'static str>
    requires { driver.old.chain.plan.head.channels ≡ 1 }
    ensures { driver.new.chain.plan ≡ driver.old.chain.plan }
{
    driver.feed(samples)?;
    driver.finish()?;
    if driver.chain.taken() != samples.len() as u64 {
        return Err("other frames taken");
    }
    Ok(())
}

/// Has the chain of a plan given these samples for a whole sound, within the bounds of the plan, at 8000 frames a second? The
/// bounds are the hold and, where they are said, the work for the frames of the sound and the number of hand-overs.
fn is_within(
    plan: &Plan,
    driver: &Driver,
    samples: &[i32],
    (hold, work_and_moves): (u64, Option<(u64, u64)>),
) -> bool {
    let counts = (plan.work(driver.chain.taken()), driver.chain.moves());
    driver.driven.samples.as_slice() == samples
        && plan.hold() == hold
        && driver.chain.hold() == hold
        && driver.driven.max_held <= hold
        && plan.rate() == 8000
        && work_and_moves.unwrap_or(counts) == counts
}

/// Fails with these effects where their chain does not give what is wanted for a sound and then the end, within these bounds.
fn check_bounds(
    alloc: Global,
    effects: &'static str,
    sound: &[i32],
    samples: &[i32],
    bounds: (u64, Option<(u64, u64)>),
) -> Result<(), &'static str> {
    let plan = plan_of(alloc, effects)?;
    let mut driver = Driver::new(alloc, &plan)?;
    pass(&mut driver, sound)?;
    if is_within(&plan, &driver, samples, bounds) {
        Ok(())
    } else {
        Err(effects)
    }
}

/// Makes these steps of a chain, which holds at most four frames after each.
fn make_steps(chain: &mut Chain, steps: &[Step]) -> Result<(), &'static str> {
    for step in steps {
        if next_step(chain) != Some(*step) {
            return Err("another step");
        }
        if chain.held() > 4 {
            return Err("more than four frames held");
        }
    }
    Ok(())
}

/// An empty sound through three effects, a `trim` before a `fade`, and each effect once.
#[test]
fn bounds(rt: HostRuntime) -> Result<(), &'static str> {
    let alloc = rt.alloc();
    let three = (10, Some((19, 19)));
    check_bounds(alloc, THREE_EFFECTS, &[], &[0; 9], three)?;
    let effects = "trim -3s fade t 0 0 2s";
    check_bounds(alloc, effects, &[100; 4], &[100, 100, 50], (8, None))?;
    let samples = [0, 0, 8, 20, 28, 22, 10, 2, 0];
    let twelve = (23, Some((119, 106)));
    check_bounds(alloc, TWELVE_EFFECTS, &[8; 4], &samples, twelve)
}

/// The steps of two effects that a frame goes through, and those after the end, of which two are idle.
fn make_idle_steps(chain: &mut Chain) -> Result<(), &'static str>
    requires { chain.old.plan.head.channels ≡ 1 }
{
    if chain.hold() != 4 {
        return Err("another hold");
    }
    put(chain, 5)?;
    if chain.held() != 1 {
        return Err("another number of frames held");
    }
    let steps = [
        Step::Moved,
        Step::Moved,
        Step::Given(mono(0)),
        Step::Moved,
        Step::Given(mono(5)),
    ];
    make_steps(chain, &steps)?;
    if chain.moves() != 5 {
        return Err("another number of hand-overs");
    }
    tell_end(chain)?;
    make_steps(chain, &[Step::Idle, Step::Idle, Step::Given(mono(0))])?;
    if chain.state() != State::Done || chain.moves() != 6 {
        return Err("not done, or another number of hand-overs");
    }
    Ok(())
}

/// Fails where a chain of two effects holds other frames, makes other steps, or is not done after them.
fn two_idle_steps(alloc: Global) -> Result<(), &'static str> {
    let mut chain = chain_of(alloc, TWO_EFFECTS)?;
    make_idle_steps(&mut chain)
}

/// Fails where a chain of two effects does not give all that is due, or takes no more.
fn all_that_is_due(alloc: Global) -> Result<(), &'static str> {
    let mut driver = driver_of(alloc, TWO_EFFECTS)?;
    driver.feed(&[5, 6])?;
    if driver.driven.samples.as_slice() != [0, 5, 0, 6].as_slice() || driver.chain.is_spent() {
        return Err("other samples are due, or it takes no more");
    }
    Ok(())
}

/// How many samples two effects clipped. None where the plan of the chain has another number of them.
fn clips_of_two(plan: &Plan, chain: &Chain) -> Option<(u64, u64)>
    requires { chain.now.plan ≡ planning plan.now }
{
    if plan.effect_count() != 2 {
        return None;
    }
    Some((chain.clips(1), chain.clips(2)))
}

/// Fails where a chain of two effects gives other samples for a whole sound, or counts other hand-overs or clips.
fn whole_sound_of_two_effects(alloc: Global) -> Result<(), &'static str> {
    let plan = plan_of(alloc, TWO_EFFECTS)?;
    let mut driver = Driver::new(alloc, &plan)?;
    pass(&mut driver, &[5, 6])?;
    let clips = clips_of_two(&plan, &driver.chain);
    let is_right = driver.driven.samples.as_slice() == [0, 5, 0, 6, 0].as_slice()
        && driver.chain.moves() == 11
        && clips == Some((0, 0));
    if is_right {
        Ok(())
    } else {
        Err("other samples, hand-overs or clips of a whole sound")
    }
}

/// Lets a chain of no effect give a frame, and tells it the end.
fn give_at_once(chain: &mut Chain) -> Result<(), &'static str>
    requires { chain.old.plan.head.channels ≡ 1 }
{
    put(chain, 5)?;
    if next_step(chain) != Some(Step::Given(mono(5))) {
        return Err("a chain of no effect gives another frame");
    }
    tell_end(chain)?;
    if chain.state() != State::Done {
        return Err("a chain of no effect is not done");
    }
    Ok(())
}

/// Fails where a chain of no effect does not give its frame, or is not done after the end.
fn empty_chain(alloc: Global) -> Result<(), &'static str> {
    let mut chain = chain_of(alloc, "")?;
    give_at_once(&mut chain)
}

/// Chains of two effects, and one of none.
#[test]
fn steps(rt: HostRuntime) -> Result<(), &'static str> {
    two_idle_steps(rt.alloc())?;
    all_that_is_due(rt.alloc())?;
    whole_sound_of_two_effects(rt.alloc())?;
    empty_chain(rt.alloc())
}
