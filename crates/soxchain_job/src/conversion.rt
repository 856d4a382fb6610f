//! What turns the input into the output, a piece at a time.
ghost use Rattle.std.specs.Prelude.{◌≡◌, [], ◌++◌, List, ℕ, IfOk, OnOk, MatchResult};
ghost use Rattle.soxchain_job.specs.Conversion.{AppendsFrozen, ConversionModel, ConvertsPiece};

use std::alloc::{AllocError, Global};
use thiserror::Error;

/// Why a conversion was not thawed.
#[derive(Clone, Copy, Debug, PartialEq, Eq, Error)]
pub enum ThawFault {
    /// An allocation was refused.
    #[error("out of memory")]
    Memory,
    /// No conversion of this plan was frozen to these bytes.
    #[error("not a conversion of this plan")]
    BadSnapshot,
}

/// Why a conversion did not go on.
#[derive(Clone, Copy, Debug, PartialEq, Eq, Error)]
pub enum ConversionFault {
    /// An allocation was refused.
    #[error("out of memory")]
    Memory,
    /// The bytes of the input are not those that were announced.
    #[error("the input is not the one that was announced")]
    InputChanged,
}

/// A conversion of a stream of bytes, which can be frozen and thawed.
pub trait Conversion: Drop {
    // What it has still to write, the bytes that it is frozen to, its plan, and what is recorded of it.
    ghost model: { ConversionModel Self };

    /// Takes a piece of the input, and appends what it gives of it to `output`.
    fn step(&mut self, piece: &[u8], output: &mut Vec<u8>) -> Result<(), ConversionFault>
        ensures converts { OnOk result (ConvertsPiece model.remaining self.old self.new piece.now output.old.items output.new.items) }
        ensures plan { model.plan self.new ≡ model.plan self.old };

    /// Appends what is left at the end of the input to `output`.
    fn finish(&mut self, output: &mut Vec<u8>) -> Result<(), ConversionFault>
        ensures rest { OnOk result (output.new.items ≡ output.old.items ++ model.remaining self.old []) };

    /// Appends the conversion as bytes; it is unchanged.
    fn freeze(&self, bytes: &mut Vec<u8>) -> Result<(), AllocError>
        ensures frozen { OnOk result (AppendsFrozen model.frozen_as self.now bytes.old.items bytes.new.items) };

    /// Becomes the conversion of the same plan that was frozen to these bytes, whichever it was.
    fn thaw(&mut self, alloc: Global, bytes: &[u8]) -> Result<(), ThawFault>
        ensures thawed { (m : Self) → model.plan m ≡ model.plan self.old → model.frozen_as m bytes.now
            → MatchResult result (λ _. self.new ≡ m) (λ e. e ≡ ThawFault.Memory) };

    /// What is to be recorded of it once the output is complete.
    fn summary(&self, alloc: Global) -> Result<Vec<u8>, AllocError>
        ensures summarised { IfOk result (λ bytes. model.summarised self.now bytes.items) };

    /// An equal conversion.
    fn duplicate(&self, alloc: Global) -> Result<Self, AllocError>
        ensures same { IfOk result (λ m. m ≡ self.now) };
}
