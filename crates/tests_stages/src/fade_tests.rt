//! The worked rows of `fade`.

use crate::driving::{gives, gives_holding, holds_four, say};
use crate::thawing::{frozen_after, goes_on};
use fx_cut::Fade;
use fx_fixed::At;

/// The rows of `fade`.
#[test]
fn fade_rows(rt: HostRuntime) -> Result<(), &'static str> {
    let alloc = rt.alloc();
    let four = Fade::new(alloc, 1, 4, None, 4);
    gives(alloc, four, "in four: 100*5 -> 0 25 50 75 100 |", 0)?;
    let two = Fade::new(alloc, 1, 0, Some(At::Start(0)), 2);
    gives_holding(alloc, two, 3, "out two: 100*4 -> 100 100 100 50")?;
    let overlap = Fade::new(alloc, 1, 4, Some(At::End(0)), 4);
    gives(alloc, overlap, "overlap: 100*3 -> 0 13 13", 0)?;
    let stop = Fade::new(alloc, 1, 2, Some(At::Start(3)), 1);
    gives(alloc, stop, "start stop: 100*5 -> 0 50 100", 0)?;
    let stop = Fade::new(alloc, 1, 2, Some(At::Start(3)), 1);
    gives(alloc, stop, "start stop cut short: 100*2 -> 0 50", 0)?;
    let end = Fade::new(alloc, 1, 0, Some(At::End(2)), 2);
    gives_holding(alloc, end, 5, "end stop: 100*5 -> 100 | 100 50")
}

/// A `fade` frozen and made again, which goes on as the first one would.
#[test]
fn fade_thaws(rt: HostRuntime) -> Result<(), &'static str> {
    let alloc = rt.alloc();
    let stop = Some(At::End(2));
    let fade = Fade::new(alloc, 1, 0, stop, 2);
    let (frames, numbers) = frozen_after(alloc, fade, "fade: 100*4 ->")?;
    let again = Fade::thaw(alloc, 1, 0, stop, 2, &frames, &numbers);
    goes_on(alloc, again, 4, "fade thawed: 100 -> 100 100 50")
}

/// Each request of a `fade` for memory refused in turn.
#[test]
fn growth_fade(rt: HostRuntime) -> Result<(), &'static str> {
    let fade = Fade::new(rt.alloc(), 2, 4, Some(At::End(1)), 2);
    say(&rt, holds_four(fade))
}
