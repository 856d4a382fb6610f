//! The lines of an `echos`, in series, restored from the frames that it stored.
ghost use Rattle.std.specs.Prelude.{◌≡◌, ◌<◌, ◌≤◌, ◌+◌, ◌*◌, ◌^◌, ◌⊎◌, ◌↔◌, length, IfErr, IfOk, IsTrue};
ghost use Rattle.std.specs.Int.{w64};
ghost use Rattle.std.specs.List.{All};
ghost use Rattle.fx_tap_delays.specs.DelayExtents.{sum_of_delays};
ghost use Rattle.fx_frame.specs.Frozen.{line_of};
ghost use Rattle.fx_frame_line.specs.Line.{IsLine};
ghost use Rattle.fx_tap_delays.specs.EchosState.{frames_of_lines};
ghost use Rattle.fx_tap_delays.specs.EchosStored.{IsSeries, IsSeriesStored, IsSmall, ForAllSeries, ForAllStored, MemoryOrBad};
ghost use Rattle.fx_frame_base.specs.Frame.{IsChannelCount};

use fx_fixed::Gain;
use fx_frame::frozen::thawed_wide_line;
use fx_frame::{Frame, ThawFault, WideFrame, WideLine};
use fx_frame_base::pending::thawed_pending;
use std::alloc::Global;

/// No sample of the frame is greater in magnitude.
fn is_small(frame: &WideFrame, maximum: u64) -> bool
    ensures { IsTrue result ↔ IsSmall maximum frame.now }
{
    frame
        .samples()
        .iter()
        .all(|sample| sample.unsigned_abs() <= maximum)
}

/// No sample of the frames is greater in magnitude.
fn are_small(frames: &[WideFrame], maximum: u64) -> bool
    ensures { IsTrue result ↔ All (IsSmall maximum) frames.now }
{
    frames.iter().all(|frame| is_small(frame, maximum))
}

/// The line at a place of the series, with `delay` places, that holds these frames: no sample is greater than as many samples
/// added as its place says. BadSnapshot where there is none, Memory where an allocation was refused.
fn thawed_series_line(
    alloc: Global,
    channels: usize,
    delay: u64,
    place: usize,
    frames: &[WideFrame],
) -> Result<WideLine, ThawFault>
    requires channels { IsChannelCount channels }
    requires delay { delay ≤ 2 ^ 28 }
    requires place { place ≤ 6 }
    ensures found { IfOk result (λ l. l ≡ line_of channels delay frames.now) }
    ensures line { IfOk result (IsLine w64) }
    ensures small { IfOk result (λ l. All (IsSmall ((place + 1) * 2 ^ 31)) l.items) }
    ensures refused { IfErr result (λ e. MemoryOrBad e (IsLine w64 (line_of channels delay frames.now) → All (IsSmall ((place + 1) * 2 ^ 31)) frames.now → ⊥)) }
{
    if !are_small(frames, (place as u64 + 1) << 31) {
        return Err(ThawFault::BadSnapshot);
    }
    thawed_wide_line(alloc, channels, delay as usize, frames)
}

/// The series of lines that holds these frames after `came` frames came. BadSnapshot where there is none, Memory where an
/// allocation was refused.
fn thawed_series(
    alloc: Global,
    channels: usize,
    came: u64,
    taps: &[(u64, Gain)],
    frames: &[WideFrame],
) -> Result<Vec<WideLine>, ThawFault>
    requires channels { IsChannelCount channels }
    requires bound { length taps.now ≤ 7 }
    requires delays { All (λ e. 1 ≤ e.0) taps.now }
    requires lines { sum_of_delays taps.now ≤ 2 ^ 28 }
    ensures series { IfOk result (λ v. IsSeries channels came taps.now v.items) }
    ensures stored { IfOk result (λ v. frames_of_lines v.items ≡ frames.now) }
    ensures only { IfOk result (λ v. ForAllSeries channels came taps.now frames.now (λ lines. v.items ≡ lines)) }
    ensures refused { IfErr result (λ e. MemoryOrBad e (ForAllSeries channels came taps.now frames.now (λ lines. ⊥))) }
{
    let mut lines = Vec::new(alloc);
    let mut rest = frames;
    'taps: for place in 0..taps.len() {
        let delay = taps[place].0;
        let count = came.min(delay) as usize;
        if count > rest.len() {
            return Err(ThawFault::BadSnapshot);
        }
        let (here, after) = rest.split_at(count);
        let line = thawed_series_line(alloc, channels, delay, place, here)?;
        let Ok(()) = lines.push(line) else {
            return Err(ThawFault::Memory);
        };
        rest = after;
    }
    if !rest.is_empty() {
        return Err(ThawFault::BadSnapshot);
    }
    Ok(lines)
}

/// The series of lines and the pending frame, none or one, of a stage that stored these frames after `came` frames came.
/// BadSnapshot where there are none, Memory where an allocation was refused.
pub(crate) fn thawed_series_and_pending(
    alloc: Global,
    channels: usize,
    came: u64,
    taps: &[(u64, Gain)],
    frames: &[WideFrame],
    pending_count: u64,
) -> Result<(Vec<WideLine>, Option<Frame>), ThawFault>
    requires channels { IsChannelCount channels }
    requires bound { length taps.now ≤ 7 }
    requires delays { All (λ e. 1 ≤ e.0) taps.now }
    requires lines { sum_of_delays taps.now ≤ 2 ^ 28 }
    ensures found { IfOk result (λ p. IsSeriesStored channels came taps.now pending_count frames.now p.0.items p.1) }
    ensures only { IfOk result (λ p. ForAllStored channels came taps.now pending_count frames.now (λ lines pending. (p.0.items ≡ lines) × (p.1 ≡ pending))) }
    ensures refused { IfErr result (λ e. MemoryOrBad e (ForAllStored channels came taps.now pending_count frames.now (λ lines pending. ⊥))) }
{
    let count = frames.len() as u64;
    if pending_count > 1 || pending_count > count {
        return Err(ThawFault::BadSnapshot);
    }
    let (lined, held) = frames.split_at((count - pending_count) as usize);
    let pending = thawed_pending(held, channels)?;
    let lines = thawed_series(alloc, channels, came, taps, lined)?;
    Ok((lines, pending))
}
