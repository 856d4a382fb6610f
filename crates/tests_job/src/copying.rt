//! A conversion that copies its input.
ghost use Rattle.std.specs.Prelude.{◌≡◌, []};

use soxchain_job::{Conversion, ConversionFault, ThawFault};
use std::alloc::{AllocError, Global};

/// The output is the input.
#[derive(Drop)]
pub struct Copying {}

impl Conversion for Copying {
    ghost model = { record {
      remaining = λ c input. input;
      frozen_as = λ c bytes. bytes ≡ [];
      Plan = Unit {0};
      plan = λ c. tt;
      summarised = λ c bytes. bytes ≡ [];
    } };

    fn step(&mut self, piece: &[u8], output: &mut Vec<u8>) -> Result<(), ConversionFault> {
        match output.extend_from_slice(piece) {
            Ok(()) => Ok(()),
            Err(_refused) => Err(ConversionFault::Memory),
        }
    }

    fn finish(&mut self, _output: &mut Vec<u8>) -> Result<(), ConversionFault> {
        Ok(())
    }

    fn freeze(&self, _bytes: &mut Vec<u8>) -> Result<(), AllocError> {
        Ok(())
    }

    fn thaw(&mut self, _alloc: Global, bytes: &[u8]) -> Result<(), ThawFault> {
        if bytes.is_empty() {
            Ok(())
        } else {
            Err(ThawFault::BadSnapshot)
        }
    }

    fn summary(&self, alloc: Global) -> Result<Vec<u8>, AllocError> {
        Ok(Vec::new(alloc))
    }

    fn duplicate(&self, _alloc: Global) -> Result<Self, AllocError> {
        Ok(Copying {})
    }
}
