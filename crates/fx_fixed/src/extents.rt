//! How far positions are from the end of a sound.

ghost use Rattle.std.specs.Prelude.{◌≡◌, map};
ghost use Rattle.fx_fixed.specs.Extents.{end_distance, largest};

use crate::positions::At;

/// How far a position is from the end, where it is counted from there.
pub fn end_distance(position: At) -> u64
    ensures { result ≡ end_distance position }
{
    match position {
        At::Start(_) => 0,
        At::End(frames) => frames,
    }
}

/// The greatest distance of a position from the end.
pub fn max_end(positions: &[At]) -> u64
    ensures { result ≡ largest (map end_distance positions.now) }
{
    let mut maximum = 0;
    'positions: for position in positions {
        maximum = end_distance(*position).max(maximum);
    }
    maximum
}
