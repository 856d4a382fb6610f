ghost use Rattle.std.specs.Prelude.{◌≡◌, pos, FitsSigned, MatchOption};
ghost use Rattle.std.specs.Int.{w32, w64};
ghost use Rattle.std.specs.List.{All};
ghost use Rattle.fx_frame_base.specs.Places.{IsRead};

use crate::frame::{Frame, FrameOf, MAX_CHANNELS};

/// One sample of 64 bits for each of 1 to 16 channels.
pub type WideFrame = FrameOf<i64>;

/// The sample at a place, or zero after the end.
#[inline(always)]
fn widened_or_zero(samples: &[i32], place: usize) -> i64
    ensures { IsRead (FitsSigned w64) (pos 0) samples.now place result }
{
    if place < samples.len() {
        samples[place] as i64
    } else {
        0
    }
}

impl FrameOf<i64> {
    /// The same samples, each in 64 bits.
    #[inline(always)]
    pub fn from_frame(frame: Frame) -> WideFrame
        ensures { result ≡ frame }
    {
        let samples = frame.samples();
        FrameOf::of_places(samples.len(), sixteen!(widened_or_zero, samples))
    }

    /// The same samples in 32 bits; None where one of them does not fit.
    pub fn narrowed(&self) -> Option<Frame>
        ensures { MatchOption result (¬ All (FitsSigned w32) self.now) (λ f. f ≡ self.now) }
    {
        let samples = self.samples();
        let mut narrow = [0; MAX_CHANNELS];
        'samples: for (place, sample) in samples.iter().enumerate() {
            let Ok(sample) = i32::try_from(*sample) else {
                return None;
            };
            narrow[place] = sample;
        }
        Some(Frame::of_first(samples.len(), narrow))
    }
}
