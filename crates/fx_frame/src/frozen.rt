//! What a stage stores, frame by frame, and how that is restored.
ghost use Rattle.std.specs.Prelude.{◌≡◌, ◌<◌, ◌≤◌, ◌^◌, ◌++◌, [], IfOk, IfErr, length, option_to_list, slice_index_or};
ghost use Rattle.std.specs.Int.{w32, w64};
ghost use Rattle.fx_frame_line.specs.Line.{IsLine};
ghost use Rattle.fx_frame.specs.Frozen.{IsOnlyStored, IsStored, RefusesNotStored, RefusesUnless, line_of};
ghost use Rattle.fx_frame_base.specs.Frame.{IsChannelCount};

use crate::line::{Line, WideLine};
use fx_frame_base::pending::thawed_pending;
use fx_frame_base::{Frame, ThawFault, WideFrame};
use std::alloc::Global;

/// The frame that a stage stores at a place, from 0: those of its line from the oldest on, and then the pending one.
pub fn stored_in(line: &Line, pending: Option<Frame>, place: usize) -> WideFrame
    requires { place < length (line.now.items ++ option_to_list pending) }
    ensures { result ≡ slice_index_or (line.now.items ++ option_to_list pending) place [] }
{
    match line.get(place).or(pending) {
        Some(frame) => WideFrame::from_frame(frame),
        None => unreachable!(),
    }
}

/// The line of `channels` channels and `capacity` places that holds these frames, the oldest first. BadSnapshot where
/// there is none: too many frames, or one of other channels or of wider samples. Memory where an allocation
/// was refused.
pub fn thawed_line(
    alloc: Global,
    channels: usize,
    capacity: usize,
    frames: &[WideFrame],
) -> Result<Line, ThawFault>
    requires channels { IsChannelCount channels }
    requires capacity { capacity ≤ 2 ^ 28 }
    ensures found { IfOk result (λ l. l ≡ line_of channels capacity frames.now) }
    ensures line { IfOk result (IsLine w32) }
    ensures refused { IfErr result (RefusesUnless (IsLine w32 (line_of channels capacity frames.now))) }
{
    if frames.len() > capacity {
        return Err(ThawFault::BadSnapshot);
    }
    let Ok(mut line) = Line::new(alloc, channels, capacity) else {
        return Err(ThawFault::Memory);
    };
    'frames: for frame in frames {
        let Some(narrow) = frame.narrowed() else {
            return Err(ThawFault::BadSnapshot);
        };
        if narrow.channels() != channels {
            return Err(ThawFault::BadSnapshot);
        }
        line.push(narrow);
    }
    let _held = line.len();
    Ok(line)
}

/// The line of `channels` channels and `capacity` places that holds these wide frames, the oldest first. BadSnapshot
/// where there is none: too many frames, or one of other channels. Memory where an allocation was refused.
pub fn thawed_wide_line(
    alloc: Global,
    channels: usize,
    capacity: usize,
    frames: &[WideFrame],
) -> Result<WideLine, ThawFault>
    requires channels { IsChannelCount channels }
    requires capacity { capacity ≤ 2 ^ 28 }
    ensures found { IfOk result (λ l. l ≡ line_of channels capacity frames.now) }
    ensures line { IfOk result (IsLine w64) }
    ensures refused { IfErr result (RefusesUnless (IsLine w64 (line_of channels capacity frames.now))) }
{
    if frames.len() > capacity {
        return Err(ThawFault::BadSnapshot);
    }
    let Ok(mut line) = WideLine::new(alloc, channels, capacity) else {
        return Err(ThawFault::Memory);
    };
    'frames: for frame in frames {
        if frame.channels() != channels {
            return Err(ThawFault::BadSnapshot);
        }
        line.push(*frame);
    }
    let _held = line.len();
    Ok(line)
}

/// The line and the pending frame, none or one, of a stage that stored these frames. BadSnapshot where
/// there are none, Memory where an allocation was refused.
pub fn thawed_line_and_pending(
    alloc: Global,
    channels: usize,
    capacity: usize,
    frames: &[WideFrame],
    pending_count: u64,
) -> Result<(Line, Option<Frame>), ThawFault>
    requires channels { IsChannelCount channels }
    requires capacity { capacity ≤ 2 ^ 28 }
    ensures found { IfOk result (λ p. IsStored channels capacity pending_count frames.now p.0 p.1) }
    ensures only { IfOk result (IsOnlyStored channels capacity pending_count frames.now) }
    ensures refused { IfErr result (RefusesNotStored channels capacity pending_count frames.now) }
{
    let count = frames.len() as u64;
    if pending_count > 1 || pending_count > count {
        return Err(ThawFault::BadSnapshot);
    }
    let (lined, held) = frames.split_at((count - pending_count) as usize);
    let pending = thawed_pending(held, channels)?;
    let line = thawed_line(alloc, channels, capacity, lined)?;
    Ok((line, pending))
}
