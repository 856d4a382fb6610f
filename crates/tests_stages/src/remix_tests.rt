//! The worked rows of `remix`.
ghost use Rattle.std.specs.Prelude.{◌≡◌, IfOk};

use crate::driving::{REFUSED, gain, gives, say};
use crate::thawing::{comes_back, frozen};
use fx_frame::Stage;
use fx_tap::{OutSpec, Remix, Weight};
use smallvec::SmallVec;
use std::alloc::Global;

/// An out-spec of these contributions.
fn spec(alloc: Global, contributions: &[(u8, Weight)]) -> Result<OutSpec, &'static str>
    ensures { IfOk result (λ out. out.items ≡ contributions.now) }
{
    match SmallVec::from_slice(alloc, contributions) {
        Ok(out) => Ok(out),
        Err(_refused) => Err(REFUSED),
    }
}

/// Fails with a row where it is not what the sums of the first two of four channels and of the last two with these weights
/// give.
fn mixes_four(alloc: Global, weights: [Weight; 4], row: &'static str) -> Result<(), &'static str> {
    let [first, second, third, fourth] = weights;
    let left = spec(alloc, &[(0, first), (1, second)])?;
    let right = spec(alloc, &[(2, third), (3, fourth)])?;
    let outs = [left, right];
    gives(alloc, Remix::new(alloc, 4, &outs), row, 0)
}

/// Fails with a row where it is not what the sum of two channels with these weights gives.
fn mixes_two(
    alloc: Global,
    first: Weight,
    second: Weight,
    row: &'static str,
) -> Result<(), &'static str> {
    let out = spec(alloc, &[(0, first), (1, second)])?;
    gives(alloc, Remix::new(alloc, 2, &[out]), row, 0)
}

/// Fails with a row where it is not what the mean of three channels gives.
fn mixes_three_shares(alloc: Global, row: &'static str) -> Result<(), &'static str> {
    let shares = [(0, Weight::Share), (1, Weight::Share), (2, Weight::Share)];
    let out = spec(alloc, &shares)?;
    gives(alloc, Remix::new(alloc, 3, &[out]), row, 0)
}

/// The rows of `remix` from four channels to two.
#[test]
fn remix_four_channels(rt: HostRuntime) -> Result<(), &'static str> {
    let alloc = rt.alloc();
    let part = gain("0.8")?;
    let weights = [
        Weight::Share,
        Weight::Share,
        Weight::One,
        Weight::Given(part),
    ];
    mixes_four(alloc, weights, "plain and one: 10 20 30 40 -> 15 62")?;
    let weights = [
        Weight::Share,
        Weight::Share,
        Weight::Share,
        Weight::Given(part),
    ];
    mixes_four(alloc, weights, "plain and plain: 10 20 30 40 -> 15 47")?;
    let weights = [Weight::One, Weight::One, Weight::One, Weight::Given(part)];
    mixes_four(alloc, weights, "one and one: 10 20 30 40 -> 30 62")
}

/// The rows of `remix` to one channel.
#[test]
fn remix_one_channel(rt: HostRuntime) -> Result<(), &'static str> {
    let alloc = rt.alloc();
    let minus = Weight::Given(gain("-1")?);
    mixes_two(alloc, Weight::One, minus, "inverted: 5 3 -> 2")?;
    mixes_two(alloc, Weight::Share, Weight::Share, "all: 1 2 -> 2")?;
    mixes_three_shares(alloc, "three shares: 1 1 0 -> 1")?;
    mixes_three_shares(alloc, "three shares: 1 0 0 -> 0")?;
    mixes_three_shares(alloc, "three shares: -1 -1 0 -> -1")
}

/// Freezes a `remix` to the mean of two channels and to silence, and makes it again.
fn remix_thawed(alloc: Global) -> Result<(), &'static str> {
    let mean = spec(alloc, &[(0, Weight::Share), (1, Weight::Share)])?;
    let outs = [mean, spec(alloc, &[])?];
    let (remix, frames) = frozen(alloc, Remix::new(alloc, 2, &outs))?;
    let made = Remix::thaw(alloc, 2, &outs, &frames, &remix.counters());
    comes_back(remix, made, "no remix, or another one")
}

/// Each request of a `remix` for memory refused in turn.
#[test]
fn growth_remix(rt: HostRuntime) -> Result<(), &'static str> {
    say(&rt, remix_thawed(rt.alloc()))
}
