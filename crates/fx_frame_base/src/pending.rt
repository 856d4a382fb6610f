//! The pending frame that a stage without a line stores, and how it is restored.
ghost use Rattle.std.specs.Prelude.{◌≡◌, ◌<◌, [], IfOk, IfErr, length, option_to_list, slice_index_or};
ghost use Rattle.fx_frame_base.specs.PendingFrame.{StoresNoPending, StoresPending};

use crate::frame::Frame;
use crate::stage::ThawFault;
use crate::wide::WideFrame;

/// The frame that a stage without a line stores at a place, from 0: the pending one.
pub fn stored_pending(pending: Option<Frame>, _place: usize) -> WideFrame
    requires { _place < length (option_to_list pending) }
    ensures { result ≡ slice_index_or (option_to_list pending) _place [] }
{
    let Some(frame) = pending else { unreachable!() };
    WideFrame::from_frame(frame)
}

/// The pending frame of a stage that stored these frames and has no line. BadSnapshot where there is
/// more than one frame, or one of other channels or of wider samples.
pub fn thawed_pending(frames: &[WideFrame], channels: usize) -> Result<Option<Frame>, ThawFault>
    ensures found { IfOk result (StoresPending channels frames.now) }
    ensures refused { IfErr result (λ e. (e ≡ ThawFault.BadSnapshot) × StoresNoPending channels frames.now) }
{
    match frames {
        [] => Ok(None),
        [only] => {
            let Some(frame) = only.narrowed() else {
                return Err(ThawFault::BadSnapshot);
            };
            if frame.channels() != channels {
                return Err(ThawFault::BadSnapshot);
            }
            Ok(Some(frame))
        }
        _ => Err(ThawFault::BadSnapshot),
    }
}
