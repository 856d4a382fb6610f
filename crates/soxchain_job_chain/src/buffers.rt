//! Buffers that each call uses anew.
ghost use Rattle.std.specs.Prelude.{◌≡◌, ◌*◌, length};
ghost use Rattle.soxchain_job_chain.specs.declared.buffers.TheConstants.{BLOCK_SAMPLES};

use std::alloc::{AllocError, Global};

/// How many samples go into a chain at once, and out of it.
pub const BLOCK_SAMPLES: usize = 4096;

/// The most bytes of a sample.
const MAX_WIDTH: usize = 4;

/// Samples before a chain and after it, and their bytes. What they hold between two calls has no meaning.
#[derive(Drop)]
pub struct Buffers {
    pub input: Vec<i32>,
    pub output: Vec<i32>,
    pub coded: Vec<u8>,
    ghost inputs: { length input.items ≡ BLOCK_SAMPLES },
    ghost outputs: { length output.items ≡ BLOCK_SAMPLES },
    ghost bytes: { length coded.items ≡ 4 * BLOCK_SAMPLES },
}

impl Buffers {
    pub fn new(alloc: Global) -> Result<Buffers, AllocError> {
        Ok(Buffers {
            input: vec![in alloc; 0; BLOCK_SAMPLES]?,
            output: vec![in alloc; 0; BLOCK_SAMPLES]?,
            coded: vec![in alloc; 0; MAX_WIDTH * BLOCK_SAMPLES]?,
        })
    }
}
