//! What a conversion reports.
ghost use Rattle.std.specs.Prelude.{◌≡◌, IfOk};
ghost use Rattle.fx_chain_flow.specs.Parts.{taken_of};
ghost use Rattle.soxchain_job_chain.specs.FrozenConversion.{IsSummary, clips_by, missing_of, stray_of};

use crate::ChainConversion;
use soxchain_stream::inner::append_words;
use std::alloc::{AllocError, Global};

impl ChainConversion {
    /// How many frames the chain took.
    pub fn frames_in(&self) -> u64
        ensures { result ≡ taken_of self.now.coded.chain.flow }
    {
        self.chain.stream.chain.taken()
    }

    /// How many frames came out.
    pub fn frames_out(&self) -> u64
        ensures { result ≡ self.now.coded.frames_out }
    {
        self.chain.frames_out
    }

    /// The samples that effect `number`, counted from 1, clipped; 0 where there is no such effect.
    pub fn clips(&self, number: usize) -> u64
        ensures { result ≡ clips_by self.now.coded.chain number }
    {
        self.chain.stream.clips(number)
    }

    /// The samples that were clipped when they were encoded.
    pub fn out_clips(&self) -> u64
        ensures { result ≡ self.now.coded.out_clips }
    {
        self.chain.out_clips
    }

    /// The announced bytes of the sound that did not come. 0 where none were announced, and where some effect has enough.
    pub fn missing(&self) -> u64
        ensures { result ≡ missing_of self.now }
    {
        if self.chain.stream.chain.is_spent() {
            return 0;
        }
        self.left.unwrap_or(0)
    }

    /// The bytes of an incomplete last frame. 0 where some effect has enough.
    pub fn stray(&self) -> u64
        ensures { result ≡ stray_of self.now }
    {
        if self.chain.stream.chain.is_spent() {
            return 0;
        }
        self.pending.len() as u64
    }

    /// The words of a summary.
    pub(crate) fn summary_words(&self, alloc: Global) -> Result<Vec<u8>, AllocError>
        ensures { IfOk result (λ bytes. IsSummary self.now bytes.items) }
    {
        let mut words = Vec::new(alloc);
        words.extend_from_slice(&[
            self.frames_in(),
            self.frames_out(),
            self.missing(),
            self.stray(),
            self.out_clips(),
        ])?;
        let effects = self.chain.stream.plan.effect_count();
        for place in 0..effects {
            words.push(self.clips(place + 1))?;
        }
        let mut bytes = Vec::new(alloc);
        append_words(&mut bytes, &words)?;
        Ok(bytes)
    }
}
