//! The parts of a sound that effects with positions keep, add or omit, by the number of its frames.
ghost use Rattle.std.specs.Prelude.{◌≡◌, ◌-◌, ◌^◌, filter, if◌then◌else◌, min, sum_by};
ghost use Rattle.fx_cut.specs.Fade.{stop_in, until};
ghost use Rattle.fx_cut.specs.Pad.{is_inside};
ghost use Rattle.fx_cut.specs.TrimState.{kept_count};
ghost use Rattle.fx_cut.specs.PadExtents.{pad_length};
ghost use Rattle.fx_cut.specs.FadeExtents.{effective};
ghost use Rattle.fx_fixed.specs.Positions.{place_of};

use fx_cut::fade::words::Fading;
use fx_fixed::At;

/// The place of a position in a sound of `frames` frames.
fn place(position: At, frames: u64) -> u64
    ensures { result ≡ place_of frames position }
{
    match position {
        At::Start(from_start) => from_start,
        At::End(from_end) => frames.saturating_sub(from_end),
    }
}

/// The frames from one place on to another, where they are kept.
fn between(is_keeping: bool, from: u64, to: u64) -> u64
    ensures { result ≡ (if is_keeping then to - from else 0) }
{
    if is_keeping {
        to.saturating_sub(from)
    } else {
        0
    }
}

/// How many of `frames` frames lie between the positions, in turn.
pub fn kept(positions: &[At], frames: u64) -> u64
    ensures { result ≡ kept_count positions.now frames frames }
{
    let mut kept = 0;
    let mut from: u64 = 0;
    let mut is_keeping = false;
    for position in positions {
        let to = from.max(frames.min(place(*position, frames)));
        kept += between(is_keeping, from, to);
        is_keeping = !is_keeping;
        from = to;
    }
    kept + between(is_keeping, from, frames)
}

/// The silence that pads put into `frames` frames, or `u64::MAX` where it is more. A pad after the end is dropped.
pub fn silence(pads: &[(u64, At)], frames: u64) -> u64
    ensures { result ≡ min (sum_by pad_length (filter (is_inside frames) pads.now)) (2 ^ 64 - 1) }
{
    let mut silence = 0u64;
    for (length, position) in pads.iter() {
        if place(*position, frames) <= frames {
            silence = silence.saturating_add(*length);
        }
    }
    silence
}

/// How many of `frames` frames a fade leaves.
pub fn before_stop(fading: &Fading, frames: u64) -> u64
    ensures { result ≡ until (stop_in frames (effective fading.now.stop)) frames }
{
    match fading.stop {
        None | Some(At::Start(0)) => frames,
        Some(stop) => place(stop, frames).min(frames),
    }
}
