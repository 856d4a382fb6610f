//! The samples of frames and lines: integers of 32 or of 64 bits.
ghost use Rattle.std.specs.Prelude.{◌≡◌, pos, FitsSigned};
ghost use Rattle.std.specs.Int.{w32, w64};

use std::fmt::Debug;

/// A sample of frames and lines.
pub trait Sample: Copy + Eq + Debug {
    // The invariant of a sample: it fits its width. Generic code gets it by `seen`.
    ghost Fits: { Self → Type 0 };

    // The sample of silence.
    ghost silent_sample: { Self };

    /// The sample of silence.
    fn zero() -> Self
        ensures is { result ≡ silent_sample }
        ensures fits { Fits result };

    /// The sample itself, which fits.
    fn seen(self) -> Self
        ensures is { result ≡ self }
        ensures fits { Fits result };
}

impl Sample for i32 {
    ghost Fits = { FitsSigned w32 };

    ghost silent_sample = { pos 0 };

    #[inline(always)]
    fn zero() -> i32 {
        0i32
    }

    #[inline(always)]
    fn seen(self) -> i32 {
        self
    }
}

impl Sample for i64 {
    ghost Fits = { FitsSigned w64 };

    ghost silent_sample = { pos 0 };

    #[inline(always)]
    fn zero() -> i64 {
        0i64
    }

    #[inline(always)]
    fn seen(self) -> i64 {
        self
    }
}
