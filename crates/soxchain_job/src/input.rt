//! The input of a job.
ghost use Rattle.std.specs.Prelude.{◌≡◌, ◌≤◌, ◌+◌, ◌++◌, length, slice_range, OnOk};
ghost use Rattle.soxchain_job.specs.Input.{Confirms, CountsFailedReads, InputModel};

use thiserror::Error;

/// Why a read gave nothing.
#[derive(Clone, Copy, Debug, PartialEq, Eq, Error)]
pub enum InputFault {
    /// An allocation was refused.
    #[error("out of memory")]
    Memory,
    /// The input could not be read.
    #[error("the input could not be read")]
    Failed,
    /// It is not the input any more that it was.
    #[error("the input has changed")]
    Changed,
}

/// An input whose bytes stay the same. It counts the bytes that it delivers, and how often it fails.
pub trait Input {
    // Its bytes, whether they are known, and what was counted.
    ghost model: { InputModel Self };

    /// How many bytes it has, by its own account.
    fn len(&self) -> u64
        ensures { result ≡ model.size self.now };

    /// Appends `count` bytes, from the byte number `at` on, counted from 0, to `piece`. After a fault `piece` is unknown.
    fn read(&mut self, at: u64, count: usize, piece: &mut Vec<u8>) -> Result<(), InputFault>
        requires { at + count ≤ model.size self.old }
        ensures bytes { model.known → OnOk result
            (piece.new.items ≡ piece.old.items ++ slice_range (model.content self.old) at (at + count)) }
        ensures content { model.known → model.content self.new ≡ model.content self.old }
        ensures size { model.size self.new ≡ model.size self.old }
        ensures delivered { OnOk result (model.delivered self.new ≡ model.delivered self.old + count) }
        ensures bound { model.delivered self.new ≤ model.delivered self.old + count }
        ensures cause { CountsFailedReads model self.old self.new result };

    /// Confirms that it is still the input that it was when the run began: as long, the same file, not written to. A run asks
    /// this after its last read, and before anything says that the output is complete. `Changed` where it is another one.
    fn confirm(&mut self) -> Result<(), InputFault>
        ensures { Confirms model self.old self.new result };

    // Where its bytes are known, that account is true.
    ghost sized: { model.known → (i : Self) → model.size i ≡ length (model.content i) };
}
