//! A conversion with the digests of what it takes and gives. They are kept beside its frozen bytes, and compared when a later run
//! continues.
ghost use Rattle.std.specs.Prelude.{◌≡◌, OnOk};
ghost use Rattle.soxchain_job_cli.specs.Digests.{HasDigests};

use crate::digests::{FROZEN_SIZE, Hashes};
use soxchain_job::{Conversion, ConversionFault, ThawFault};
use soxchain_xxh64::ByteHasher;
use std::alloc::{AllocError, Global};
use std::marker::Model;

/// A conversion with its digests.
#[derive(Drop)]
pub struct HashedConversion<C: Conversion> {
    inner: C,
    hashes: Hashes,
}

impl<C: Conversion> Model for HashedConversion<C> {
    ghost Value = { C };

    ghost view = { λ h. h.inner };
}

impl<C: Conversion> HashedConversion<C> {
    /// A conversion, and what was hashed before it.
    pub fn new(inner: C, hashes: Hashes) -> HashedConversion<C>
        ensures { result ≡ inner }
    {
        HashedConversion { inner, hashes }
    }
}

impl<C: Conversion> Conversion for HashedConversion<C> {
    // As of the conversion itself; both digests follow what it is frozen to and its summary.
    ghost model = { record {
      remaining = C.model.remaining;
      frozen_as = λ c bytes. HasDigests 16 (C.model.frozen_as c) bytes;
      Plan = C.model.Plan;
      plan = C.model.plan;
      summarised = λ c bytes. HasDigests 96 (C.model.summarised c) bytes;
    } };

    fn step(&mut self, piece: &[u8], output: &mut Vec<u8>) -> Result<(), ConversionFault> {
        let before = output.len();
        self.inner.step(piece, output)?;
        self.hashes.input.update(piece);
        self.hashes
            .output
            .update(output.get(before..).unwrap_or(&[]));
        Ok(())
    }

    fn finish(&mut self, output: &mut Vec<u8>) -> Result<(), ConversionFault> {
        let before = output.len();
        self.inner.finish(output)?;
        self.hashes
            .output
            .update(output.get(before..).unwrap_or(&[]));
        Ok(())
    }

    fn freeze(&self, bytes: &mut Vec<u8>) -> Result<(), AllocError> {
        self.inner.freeze(bytes)?;
        self.hashes.append_to_frozen(bytes)?;
        Ok(())
    }

    fn thaw(&mut self, alloc: Global, bytes: &[u8]) -> Result<(), ThawFault> {
        let Some(size) = bytes.len().checked_sub(FROZEN_SIZE) else {
            return Err(ThawFault::BadSnapshot);
        };
        self.inner.thaw(alloc, &bytes[..size])
    }

    fn summary(&self, alloc: Global) -> Result<Vec<u8>, AllocError> {
        let mut bytes = self.inner.summary(alloc)?;
        self.hashes.append_to_summary(&mut bytes)?;
        Ok(bytes)
    }

    fn duplicate(&self, alloc: Global) -> Result<HashedConversion<C>, AllocError> {
        Ok(HashedConversion {
            inner: self.inner.duplicate(alloc)?,
            hashes: self.hashes.copy()?,
        })
    }
}
