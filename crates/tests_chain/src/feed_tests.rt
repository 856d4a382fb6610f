//! Chains that are fed pieces of a sound, beside chains that take its frames one by one.
ghost use Rattle.std.specs.Prelude.{◌≡◌, ◌<◌, ◌≤◌, IfOk};

use crate::effect_rows::EFFECTS;
use fx_chain::{Chain, Snapshot};
use fx_chain_flow::flow::{MAX_FRAMES, State};
use std::alloc::Global;
use tests_driving::driving::{Driven, Driver, driver_of, frozen};
use tests_driving::words::{TWELVE_EFFECTS, plan_of};

/// The most samples of a sound.
const SAMPLES: usize = 2500;

/// How many pieces the feeding of a row takes at the most.
const MAX_PIECES: u32 = 5000;

/// The greatest room for samples that are given.
const MAX_CAPACITY: u32 = 1400;

/// How long a sound is, and below which sizes its pieces and the rooms for what is given are chosen.
#[derive(Clone, Copy)]
struct Portions {
    samples: usize,
    piece: u32,
    free: u32,
}

/// A few frames at a time.
const SHORT: Portions = Portions {
    samples: 300,
    piece: 51,
    free: 40,
};

/// Among them more frames than go through several stages in one piece.
const LONG: Portions = Portions {
    samples: SAMPLES,
    piece: 2200,
    free: MAX_CAPACITY,
};

/// How many plans of random effects are fed.
const RANDOM_PLANS: u32 = 50;

/// A `fir` of 65 coefficients in a chain of four: more than take a small window.
const FIR_OF_65: &str = "\
    vol 1.5 fir -0.24 -0.12 -0.08 0.3 0.21 -0.15 0.23 -0.17 0.12 -0.17 -0.25 0.27 -0.12 -0.12 0.34 0.27 \
    -0.08 0.33 0.07 0.16 -0.13 0.32 0.16 0.33 0.29 -0.07 -0.03 -0.15 -0.16 -0.21 -0.07 0.11 -0.25 0.16 \
    -0.05 -0.06 0.24 0.04 -0.06 0.04 0.17 -0.22 0.34 -0.24 0.2 0.26 -0.24 0.22 -0.03 0.1 -0.24 -0.22 \
    -0.14 0.32 -0.13 0.2 0.31 0.32 -0.04 -0.04 0.07 0.21 -0.18 0.2 0.23 dcshift 0.25 vol 0.9";

/// No effect, then several, among them four at 8,000 frames a second with echoes, in parallel and in series, that come after fewer
/// frames than a batch has (five), as many, and more; seventeen, whose batches have eighteen samples, more than a short group; a
/// `fir` of 3, 16 and 65 coefficients; and several that change the channels, which go frame by frame.
const ROWS: &[&str] = &[
    "",
    "vol 0.5 dcshift 0.25",
    "vol 1.5 remix 1,1 dcshift 0.25",
    "dcshift 0.25 remix 1v0.75 vol 0.333",
    "trim 2s 250s vol 1.5 echo 0.8 0.9 1 0.5 vol 0.9",
    "upsample 3 vol 0.5 downsample 2 pad 1s 2s",
    "vol 0.5 echo 0.8 0.9 0.5 0.3 dcshift 0.1 echo 0.8 0.9 0.625 0.3 0.75 0.2",
    "vol 0.5 echo 0.8 0.9 0.625 0.3 dcshift 0.1 echo 0.8 0.9 0.5 0.3 0.75 0.2",
    "vol 0.5 echo 0.8 0.9 0.75 0.3 dcshift 0.1 echo 0.8 0.9 1 0.3 0.75 0.2",
    "remix 1 1 vol 1.5 echo 0.8 0.9 2 0.5 3 0.25 echo 0.8 0.9 2 0.5 vol 0.9 delay 5s 6s vol 1.5 vol 0.9 remix 1,2",
    "vol 0.5 echos 0.8 0.9 0.5 0.3 dcshift 0.1 echos 0.8 0.9 0.625 0.3 0.75 0.2",
    "vol 0.5 echos 0.8 0.9 0.625 0.3 dcshift 0.1 echos 0.8 0.9 0.5 0.3 0.75 0.2",
    "vol 0.5 echos 0.8 0.9 0.75 0.3 dcshift 0.1 echos 0.8 0.9 1 0.3 0.75 0.2",
    "vol 0.5 echos 0.812345678 0.9 0.75 0.312345678 dcshift 0.1 echos 0.8 0.987654321 1 0.3",
    "echos 0.8 0.9 2 0.3 2.125 0.2 vol 0.9 vol 1.1 vol 0.9 vol 1.1 vol 0.9 vol 1.1 vol 0.9 vol 1.1 vol 0.9 vol 1.1 vol 0.9 vol 1.1 vol 0.9 vol 1.1 vol 0.9 echos 0.8 0.9 2.25 0.3",
    "remix 1 1 vol 1.5 echos 0.8 0.9 2 0.5 3 0.25 echos 0.8 0.9 2 0.5 vol 0.9 delay 5s 6s vol 1.5 vol 0.9 remix 1,2",
    "vol 1.5 remix 1 1 1 1 1 1 1 1 1 1 1 1 1 1 1 1 vol 0.5 echos 0.8 0.9 2 0.5 vol 0.9 remix 1,16 dcshift 0.25",
    "vol 1.5 fir 0.25 0.5 0.25 dcshift 0.25 vol 0.9",
    "vol 1.5 fir 0.12 0.2 0.23 0.32 0.19 0.3 -0.23 0.03 0.32 0.14 0.29 -0.18 0.03 -0.1 0.08 0.09 dcshift 0.25 vol 0.9",
    FIR_OF_65,
    "remix 1 1 1 1 1 1 1 1 1 1 1 1 1 1 1 1 vol 1.5 fir 0.25 0.5 0.25 remix 1,16",
    "remix 1 1 1 1 vol 1.5 fir -0.5 0.75 0.5 dcshift 0.25 remix 1,4",
    TWELVE_EFFECTS,
];

/// Several effects that each give one frame for each that they take, at least for a while, and others among them. Where a `trim` or
/// `fade` comes first, its line has as many frames as a batch, more, as many as a group that leaves early, or more.
const LONG_ROWS: &[&str] = &[
    "trim 1s -4s vol 1.5 vol 0.9",
    "trim 1s -5s vol 1.5 vol 0.9",
    "trim 1s -64s vol 1.5 echo 0.8 0.9 1 0.5 vol 0.9",
    "trim 1s -65s vol 1.5 echos 0.8 0.9 0.5 0.3 fir 0.25 0.5 0.25",
    "fade t 100s -0 80s vol 1.5 echo 0.8 0.9 20 0.5 delay 3s vol 0.9",
    "trim 40s -129s fade t 100s -0 90s vol 1.5",
    "trim 700s 2300s vol 1.5 echo 0.8 0.9 20 0.5 40 0.25 vol 0.9",
    "delay 100s dcshift 0.25 echos 0.8 0.9 20 0.5 fir 0.25 0.5 0.25",
    "pad 3s@900s remix 1 1 vol 1.5 remix 1,2 fade t 500s 1800s 300s",
    "vol 0.5 fade t 200s -0 300s trim 100s -200s dcshift 0.4",
    "dcshift 0.4 upsample 3 vol 1.5 downsample 3 vol 0.5",
    "vol 1.5 remix 1 1 1 1 1 1 1 1 1 1 1 1 1 1 1 1 vol 0.5 remix 1,16 dcshift 0.25",
];

/// Numbers that look random, and are the same each time.
#[derive(Drop)]
struct Dice {
    state: u64,
}

impl Dice {
    /// The next number, below a bound.
    fn next_below(&mut self, bound: u32) -> u32
        requires { 1 ≤ bound }
        ensures { result < bound }
    {
        self.state = self
            .state
            .wrapping_mul(6364136223846793005)
            .wrapping_add(1442695040888963407);
        (self.state >> 40) as u32 % bound
    }
}

/// So many samples, loud ones among them.
fn sound(alloc: Global, count: usize, dice: &mut Dice) -> Result<Vec<i32>, &'static str> {
    let mut samples = Vec::new(alloc);
    for _place in 0..count {
        let sample = i64::from(dice.next_below(1 << 16)) * 65_536 - (1 << 31);
        if samples.push(sample as i32).is_err() {
            return Err("no memory for the sound");
        }
    }
    Ok(samples)
}

/// Feeds a chain of one channel what it takes of a piece, with so much room; how many samples it took, and whether it waits.
fn feed_once(
    chain: &mut Chain,
    driven: &mut Driven,
    piece: &[i32],
    free: usize,
) -> Result<(usize, bool), &'static str>
    requires channels { chain.old.plan.head.channels ≡ 1 }
    requires free { free ≤ MAX_CAPACITY }
    ensures { chain.new.plan ≡ chain.old.plan }
{
    if piece.len() > SAMPLES || chain.taken() > MAX_FRAMES / 2 {
        return Err("too many frames");
    }
    let mut output = [0; MAX_CAPACITY as usize];
    let passed = chain.feed(piece, &mut output[..free]);
    if passed.given > free {
        return Err("more given than there is room for");
    }
    let given = &output[..passed.given];
    if driven.samples.extend_from_slice(given).is_err() {
        return Err("no memory for the samples");
    }
    let waits = !matches!(chain.state(), State::Busy);
    Ok((passed.taken, waits))
}

/// Feeds a chain of one channel a piece, in rooms of random sizes, until it took the piece and waits, or takes no more.
fn feed_piece(
    chain: &mut Chain,
    driven: &mut Driven,
    piece: &[i32],
    portions: Portions,
    dice: &mut Dice,
) -> Result<(), &'static str>
    requires { chain.old.plan.head.channels ≡ 1 }
    ensures { chain.new.plan ≡ chain.old.plan }
{
    let mut rest = piece;
    'calls: for _call in 0..MAX_PIECES {
        let free = dice.next_below(portions.free.max(1)).min(MAX_CAPACITY) as usize;
        let (taken, waits) = feed_once(chain, driven, rest, free)?;
        if taken > rest.len().min(SAMPLES) {
            return Err("more taken than there is");
        }
        rest = &rest[taken..];
        if waits && (rest.is_empty() || chain.is_spent()) {
            return Ok(());
        }
    }
    Err("feeding without end")
}

/// Are two chains the same to their callers: hand-overs, frames held, clips, and what they are frozen to?
fn are_alike(alloc: Global, fed: &Chain, stepped: &Chain) -> Result<bool, &'static str> {
    let one = frozen(alloc, fed)?;
    let other = frozen(alloc, stepped)?;
    let counts = fed.moves() == stepped.moves() && fed.held() == stepped.held();
    Ok(counts && one.numbers == other.numbers && one.frames == other.frames)
}

/// A chain that is fed, and one of the same plan that takes frames one by one.
#[derive(Drop)]
struct Pair {
    fed: Driver,
    stepped: Driver,
    portions: Portions,
}

impl Pair {
    /// Two new chains of these effects, to be fed in such portions.
    fn new(alloc: Global, effects: &str, portions: Portions) -> Result<Pair, &'static str>
        ensures { IfOk result (λ p. (p.fed.chain.plan.head.channels ≡ 1) × (p.stepped.chain.plan.head.channels ≡ 1)) }
    {
        let plan = plan_of(alloc, effects)?;
        let fed = Driver::new(alloc, &plan)?;
        let stepped = Driver::new(alloc, &plan)?;
        Ok(Pair {
            fed,
            stepped,
            portions,
        })
    }

    /// Feeds one a piece, and lets the other take the frames that the first one took; how many that are.
    fn take_piece(&mut self, piece: &[i32], dice: &mut Dice) -> Result<usize, &'static str>
        requires fed { self.old.fed.chain.plan.head.channels ≡ 1 }
        requires stepped { self.old.stepped.chain.plan.head.channels ≡ 1 }
        ensures fed { self.new.fed.chain.plan ≡ self.old.fed.chain.plan }
        ensures stepped { self.new.stepped.chain.plan ≡ self.old.stepped.chain.plan }
    {
        let before = self.fed.chain.taken();
        let portions = self.portions;
        feed_piece(
            &mut self.fed.chain,
            &mut self.fed.driven,
            piece,
            portions,
            dice,
        )?;
        let taken = self.fed.chain.taken().saturating_sub(before) as usize;
        if taken > piece.len() {
            return Err("more taken than there is");
        }
        self.stepped.feed(&piece[..taken])?;
        Ok(taken)
    }

    /// Tells both the end, and steps them until they are done.
    fn finish(&mut self) -> Result<(), &'static str> {
        self.fed.finish()?;
        self.stepped.finish()
    }

    /// The fault of two that are not alike: in what they gave, or to their callers.
    fn compare(&self, alloc: Global) -> Result<(), &'static str> {
        if self.fed.driven.samples != self.stepped.driven.samples {
            return Err("other samples");
        }
        if !are_alike(alloc, &self.fed.chain, &self.stepped.chain)? {
            return Err("other counts or snapshots");
        }
        Ok(())
    }
}

/// Feeds a sound in random pieces, beside frames one by one.
fn feed_sound(
    alloc: Global,
    pair: &mut Pair,
    samples: &[i32],
    dice: &mut Dice,
) -> Result<(), &'static str>
    requires fed { pair.old.fed.chain.plan.head.channels ≡ 1 }
    requires stepped { pair.old.stepped.chain.plan.head.channels ≡ 1 }
{
    let mut rest = samples;
    'pieces: for _piece in 0..MAX_PIECES {
        if rest.is_empty() || pair.stepped.chain.is_spent() {
            return Ok(());
        }
        let size = rest
            .len()
            .min(1 + dice.next_below(pair.portions.piece.max(1)) as usize);
        let taken = pair.take_piece(&rest[..size], dice)?;
        if taken > size {
            return Err("more taken than there is");
        }
        rest = &rest[taken..];
        pair.compare(alloc)?;
    }
    Err("pieces without end")
}

/// Feeds two new chains a sound, one of them frame by frame, to the end.
fn feed_pair(
    alloc: Global,
    pair: &mut Pair,
    samples: &[i32],
    dice: &mut Dice,
) -> Result<(), &'static str>
    requires fed { pair.old.fed.chain.plan.head.channels ≡ 1 }
    requires stepped { pair.old.stepped.chain.plan.head.channels ≡ 1 }
{
    feed_sound(alloc, pair, samples, dice)?;
    pair.finish()?;
    pair.compare(alloc)
}

/// Feeds a new chain of these effects a sound, beside frames one by one, to the end.
fn feed_row(
    alloc: Global,
    effects: &str,
    portions: Portions,
    dice: &mut Dice,
) -> Result<(), &'static str> {
    let samples = sound(alloc, portions.samples, dice)?;
    let mut pair = Pair::new(alloc, effects, portions)?;
    feed_pair(alloc, &mut pair, &samples, dice)
}

#[test]
fn feed_is_steps(rt: HostRuntime) -> Result<(), &'static str> {
    let mut dice = Dice { state: 1 };
    for effect in EFFECTS {
        feed_row(rt.alloc(), effect, SHORT, &mut dice)?;
    }
    for effects in ROWS {
        feed_row(rt.alloc(), effects, SHORT, &mut dice)?;
    }
    Ok(())
}

#[test]
fn feed_of_long_pieces_is_steps(rt: HostRuntime) -> Result<(), &'static str> {
    let mut dice = Dice { state: 3 };
    for effects in LONG_ROWS {
        feed_row(rt.alloc(), effects, LONG, &mut dice)?;
    }
    Ok(())
}

/// Of each four frames the first is kept: the third frame that is kept would have no room.
#[test]
fn feed_takes_no_frame_once_the_output_is_full(rt: HostRuntime) -> Result<(), &'static str> {
    let mut driver = driver_of(rt.alloc(), "downsample 4")?;
    let piece = [10, 20, 30, 40, 50, 60, 70, 80, 90];
    let (taken, _waits) = feed_once(&mut driver.chain, &mut driver.driven, &piece, 2)?;
    if taken != 5 || driver.driven.samples.as_slice() != [10, 50].as_slice() {
        return Err("it took another number of frames, or gave others");
    }
    Ok(())
}

/// The words of one to four effects.
fn random_effects(alloc: Global, dice: &mut Dice) -> Result<String, &'static str> {
    let mut words = String::new(alloc);
    let count = 1 + dice.next_below(4);
    'effects: for _effect in 0..count {
        let effect = EFFECTS[dice.next_below(EFFECTS.len() as u32) as usize];
        if words.push_str(effect).is_err() || words.push_str(" ").is_err() {
            return Err("no memory for the words");
        }
    }
    Ok(words)
}

/// Feeds a chain of random effects a random sound, beside frames one by one.
fn feed_random(alloc: Global, dice: &mut Dice) -> Result<(), &'static str> {
    let effects = random_effects(alloc, dice)?;
    feed_row(alloc, &effects, SHORT, dice)
}

#[test]
fn random_plans_are_steps(rt: HostRuntime) -> Result<(), &'static str> {
    let mut dice = Dice { state: 7 };
    for _plan in 0..RANDOM_PLANS {
        feed_random(rt.alloc(), &mut dice)?;
    }
    Ok(())
}
