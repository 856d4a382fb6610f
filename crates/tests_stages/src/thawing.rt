//! How the tests freeze a stage and make it again.
ghost use Rattle.std.specs.Prelude.{◌≤◌, ◌^◌, IfOk};
ghost use Rattle.fx_frame_base.specs.Stage.{kind};

use crate::driving::{REFUSED, compare, gives, stored};
use fx_frame::{Frame, Stage, ThawFault, WideFrame};
use std::alloc::{AllocError, Global};

/// A new stage of two channels that took a frame, and what it stores.
pub(crate) fn frozen<S: Stage + Drop>(
    alloc: Global,
    new: Result<S, AllocError>,
) -> Result<(S, Vec<WideFrame>), &'static str>
    requires { IfOk new (λ stage. 1 ≤ (kind S.acts stage).limit) }
{
    let Ok(mut stage) = new else {
        return Err(REFUSED);
    };
    if !stage.is_dry() || stage.is_ended() || stage.in_channels() != 2 {
        return Err("not ready for the frame");
    }
    if stage.counters()[0] != 0 {
        return Err("not a new stage");
    }
    stage.take(Frame::two(2147483647, 3));
    match stored(alloc, &stage) {
        Ok(frames) => Ok((stage, frames)),
        Err(_refused) => Err(REFUSED),
    }
}

/// Do two stages count the same, and give the same frame?
fn are_alike<S: Stage>(stage: &mut S, again: &mut S) -> bool {
    stage.counters() == again.counters() && stage.give() == again.give()
}

/// Was the stage made again, so that both count the same then, and give the same frame? Fails with a text where not.
pub(crate) fn comes_back<S: Stage + Drop>(
    mut stage: S,
    made: Result<S, ThawFault>,
    text: &'static str,
) -> Result<(), &'static str> {
    match made {
        Ok(mut again) => {
            if are_alike(&mut stage, &mut again) {
                Ok(())
            } else {
                Err(text)
            }
        }
        Err(ThawFault::Memory) => Err(REFUSED),
        Err(_fault) => Err(text),
    }
}

/// What a stage that was made stores and counts once it gave what a row says, with no end.
pub(crate) fn frozen_after<S: Stage + Drop>(
    alloc: Global,
    made: Result<S, AllocError>,
    row: &'static str,
) -> Result<(Vec<WideFrame>, [u64; 8]), &'static str>
    requires { IfOk made (λ stage. 2 ^ 20 ≤ (kind S.acts stage).limit) }
{
    let Ok(mut stage) = made else {
        return Err(REFUSED);
    };
    compare(alloc, &mut stage, false, row)?;
    match stored(alloc, &stage) {
        Ok(frames) => Ok((frames, stage.counters())),
        Err(_refused) => Err(REFUSED),
    }
}

/// Fails where a stage that was made again does not give what a row says, or counts another number of frames taken before.
pub(crate) fn goes_on<S: Stage + Drop>(
    alloc: Global,
    made: Result<S, ThawFault>,
    taken: u64,
    row: &'static str,
) -> Result<(), &'static str>
    requires { IfOk made (λ again. 2 ^ 20 ≤ (kind S.acts again).limit) }
{
    let Ok(again) = made else {
        return Err("no stage of these frames and numbers");
    };
    if again.counters()[0] != taken {
        return Err("another number of frames taken");
    }
    gives(alloc, Ok(again), row, 0)
}
