ghost use Rattle.std.specs.Prelude.{◌≡◌, ◌<◌, ◌↔◌, ◌∷◌, [], length, take, slice_index_or, Some, IsSome, IfSome};
ghost use Rattle.std.specs.List.{All};
ghost use Rattle.fx_frame_base.specs.Frame.{IsChannelCount, IsFrameOf, padded_by, silence_of};
ghost use Rattle.fx_frame_base.specs.Places.{IsPlaces, IsRead};

use crate::sample::Sample;
use std::alloc::AllocError;
use std::marker::Model;

/// The maximum number of channels of a frame.
pub const MAX_CHANNELS: usize = 16;

/// One sample for each of 1 to 16 channels.
#[derive(Copy, Debug, PartialEq, Eq)]
pub struct FrameOf<T: Sample> {
    /// The samples, and zeros beyond the channels.
    samples: [T; 16],
    channels: u8,
}

/// One sample of 32 bits for each of 1 to 16 channels.
pub type Frame = FrameOf<i32>;

impl<T: Sample> Model for FrameOf<T> {
    ghost use Rattle.std.specs.Prelude.{ℕ, List, length, take};
    ghost use Rattle.std.proofs.Common.{ap};
    ghost use Rattle.fx_frame_base.specs.Frame.{padded_by};
    ghost use Rattle.fx_frame_base.specs.Places.{padded-take, IsPlaces};

    ghost Value = { List T };

    ghost view = { λ f. take f.channels f.samples };

    ghost invariant = { λ f. IsPlaces T.Fits T.silent_sample f.channels f.samples };

    ghost inverse = { λ xs. record { samples = padded_by T.silent_sample xs; channels = length xs } };

    ghost inverse_ok = { λ f h. ap (λ (p : List T × ℕ). record { samples = p.0; channels = p.1 }) (padded-take T.Fits T.silent_sample f.samples f.channels h) };
}

// Written out, since a derived one would not state that a copy is equal.
impl<T: Sample> Clone for FrameOf<T> {
    ghost use Rattle.std.specs.Prelude.{◌≡◌, ⊤};

    ghost is_clone = { λ x y. y ≡ x };

    ghost is_infallible = { λ _. ⊤ };

    #[inline(always)]
    fn clone(&self) -> Result<Self, AllocError> {
        Ok(*self)
    }
}

/// The sample at a place, or zero after the end.
#[inline(always)]
fn sample_or_zero<T: Sample>(samples: &[T], place: usize) -> T
    ensures { IsRead T.Fits T.silent_sample samples.now place result }
{
    if place < samples.len() {
        samples[place].seen()
    } else {
        T::zero()
    }
}

impl<T: Sample> FrameOf<T> {
    /// The frame of these samples, one for each channel; None where there are none or more than 16.
    pub fn from_slice(samples: &[T]) -> Option<Self>
        ensures some { IsSome result ↔ (IsChannelCount (length samples.now)) }
        ensures value { IfSome result (λ f. f ≡ samples.now) }
    {
        let channels = samples.len();
        if channels == 0 || channels > MAX_CHANNELS {
            return None;
        }
        Some(FrameOf::filled(samples))
    }

    /// The frame of these samples, of which there are 1 to 16.
    #[inline(always)]
    pub fn filled(samples: &[T]) -> Self
        requires { IsChannelCount (length samples.now) }
        ensures { result ≡ samples.now }
    {
        FrameOf {
            samples: sixteen!(sample_or_zero, samples),
            channels: samples.len() as u8,
        }
    }

    /// The same, of samples that fit: their width's bounds are known of them, so none is read on its own.
    pub fn copied(samples: &[T]) -> Self
        requires len { IsChannelCount (length samples.now) }
        requires fits { All T.Fits samples.now }
        ensures { result ≡ samples.now }
    {
        let count = samples.len();
        let mut places = [T::zero(); MAX_CHANNELS];
        places[..count].copy_from_slice(samples);
        FrameOf {
            samples: places,
            channels: count as u8,
        }
    }

    /// The frame of one channel.
    #[inline(always)]
    pub fn one(sample: T) -> Self
        ensures { result ≡ sample ∷ [] }
    {
        FrameOf::filled(&[sample])
    }

    /// The frame of two channels.
    #[inline(always)]
    pub fn two(first: T, second: T) -> Self
        ensures { result ≡ first ∷ second ∷ [] }
    {
        FrameOf::filled(&[first, second])
    }

    /// The frame of the first samples, one for each of 1 to 16 channels. What is beyond them does not matter.
    #[inline(always)]
    pub fn of_first(channels: usize, samples: [T; 16]) -> Self
        requires { IsChannelCount channels }
        ensures { result ≡ take channels samples }
    {
        FrameOf::filled(&samples[..channels])
    }

    /// A frame of 1 to 16 channels whose samples are all zero.
    pub fn silence(channels: usize) -> Self
        requires { IsChannelCount channels }
        ensures { result ≡ silence_of T.silent_sample channels }
    {
        FrameOf {
            samples: [T::zero(); 16],
            channels: channels as u8,
        }
    }

    /// How many channels it has, 1 to 16.
    #[inline(always)]
    pub fn channels(&self) -> usize
        ensures count { result ≡ length self.now }
        ensures frame { IsFrameOf T.Fits self.now }
    {
        self.channels as usize
    }

    /// The sample of a channel, counted from 0.
    #[inline(always)]
    pub fn get(&self, channel: usize) -> T
        requires { channel < length self.now }
        ensures { result ≡ slice_index_or self.now channel T.silent_sample }
    {
        let channels = self.channels as usize;
        prove!(channel < channels);
        self.samples[channel]
    }

    /// The frame that lies in the first places, where the others are zero.
    #[inline(always)]
    pub(crate) fn of_places(channels: usize, samples: [T; 16]) -> Self
        requires { IsPlaces T.Fits T.silent_sample channels samples }
        ensures { result ≡ take channels samples }
    {
        FrameOf {
            samples,
            channels: channels as u8,
        }
    }

    /// The samples, one for each channel.
    #[inline(always)]
    pub fn samples(&self) -> &[T]
        ensures samples { result.now ≡ self.now }
        ensures frame { IsFrameOf T.Fits self.now }
    {
        let channels = self.channels as usize;
        &self.samples[..channels]
    }

    /// All sixteen places, which are zero beyond the samples.
    #[inline(always)]
    pub fn places(&self) -> [T; 16]
        ensures places { result ≡ padded_by T.silent_sample self.now }
        ensures frame { IsFrameOf T.Fits self.now }
    {
        self.samples
    }
}
