//! How far the arguments of `pad` and of `fade` reach. A pad is a length and a position.

ghost use Rattle.std.specs.Prelude.{◌≡◌, ◌-◌, ◌^◌, map, min, sum_by};
ghost use Rattle.fx_fixed.specs.Extents.{largest};
ghost use Rattle.fx_cut.specs.FadeExtents;
ghost use Rattle.fx_cut.specs.FadeExtents.{effective};
ghost use Rattle.fx_cut.specs.PadExtents.{pad_distance, pad_length};

use fx_fixed::At;
use fx_fixed::inner::end_distance;

/// The greatest distance of a pad from the end.
pub fn max_pad_end(pads: &[(u64, At)]) -> u64
    ensures { result ≡ largest (map pad_distance pads.now) }
{
    let mut maximum = 0;
    'pads: for pad in pads {
        maximum = end_distance(pad.1).max(maximum);
    }
    maximum
}

/// The lengths of pads, added, or `u64::MAX` where that is more.
pub fn all_pads(pads: &[(u64, At)]) -> u64
    ensures { result ≡ min (sum_by pad_length pads.now) (2 ^ 64 - 1) }
{
    let mut total: u64 = 0;
    'pads: for pad in pads {
        total = total.saturating_add(pad.0);
    }
    total
}

/// A stop at 0 from the start means the end.
pub fn effective_stop(stop: Option<At>) -> Option<At>
    ensures { result ≡ effective stop }
{
    if let Some(At::Start(0)) = stop {
        return Some(At::End(0));
    }
    stop
}

/// The frames of the line that a stop needs, or `u64::MAX` where that is more.
pub fn stop_line(stop: Option<At>, fade_out: u64) -> u64
    ensures { result ≡ min (FadeExtents.stop_line stop fade_out) (2 ^ 64 - 1) }
{
    match stop {
        Some(At::End(frames)) => frames.saturating_add(fade_out),
        _ => 0,
    }
}
