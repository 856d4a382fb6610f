//! The chain of a plan as a conversion.
ghost use Rattle.std.specs.Prelude.{◌≡◌, ◌≤◌, ◌+◌, ◌++◌, [], ℕ, List, false, true, drop, length, IfOk, MatchResult, OnErr, OnOk};
ghost use Rattle.fx_chain.specs.Chain.{IsNewChain};
ghost use Rattle.fx_chain_flow.specs.Steps.{rest_of};
ghost use Rattle.fx_chain_run.specs.Report.{pad};
ghost use Rattle.fx_chain_stages.specs.Stages.{effect_acts};
ghost use Rattle.fx_plan.specs.Planning.{planning};
ghost use Rattle.fx_sound.specs.Sound.{within_sound};
ghost use Rattle.soxchain_job_chain.specs.CodedChain.{IsCounted, KeepsPlan};
ghost use Rattle.soxchain_job_chain.specs.FrozenConversion.{FollowsCounts, chain_model, counts_of};
ghost use Rattle.soxchain_job_chain.specs.JobOutput.{ConversionParts, PassesSound, head_to_come, job_output, job_plan, output_to_come};

use crate::buffers::Buffers;
use crate::coded_chain::CodedChain;
use crate::counts::{COUNTS_SIZE, Counts};
use fx_chain::Chain;
use fx_frame::ThawFault as StreamFault;
use fx_plan::Plan;
use fx_sound::{Kind, head_bytes};
use soxchain_job::{Conversion, ConversionFault, ThawFault};
use soxchain_stream::Stream;
use soxchain_stream::inner::{append_words, to_words};
use std::alloc::{AllocError, Global};
use std::marker::Model;

/// A conversion of a whole file by the chain of a plan, a piece at a time.
#[derive(Drop)]
pub struct ChainConversion {
    pub(crate) chain: CodedChain,
    has_head: bool,
    skip: u64,
    pub(crate) left: Option<u64>,
    pub(crate) pending: Vec<u8>,
    // These two have no meaning between two calls.
    sound: Vec<u8>,
    buffers: Buffers,
}

impl Model for ChainConversion {
    ghost use Rattle.std.specs.Prelude.{◌<◌, length};
    ghost use Rattle.soxchain_job_chain.specs.JobOutput.{ConversionParts};
    ghost use Rattle.fx_sound.specs.FrameCoding.{frame_size};

    ghost Value = { ConversionParts };

    ghost view = { λ c. record { coded = c.chain; has_head = c.has_head; skip = c.skip; left = c.left; pending = c.pending.items } };

    // Whole frames are not kept.
    ghost invariant = { λ c. length c.pending.items < frame_size c.chain.chain.plan.head.coding c.chain.chain.plan.head.channels };
}

impl ChainConversion {
    /// The conversion by a new chain of this plan of a file whose sound begins at `head_size`. `frames_out` frames are to come out
    /// of the chain for the whole sound: the head of the output says so.
    pub fn new(
        alloc: Global,
        plan: Plan,
        chain: Chain,
        head_size: u64,
        frames_out: u64,
    ) -> Result<ChainConversion, AllocError>
        requires { IsNewChain (planning plan) chain }
        ensures start { IfOk result (λ c.
            (input : List ℕ) → output_to_come c input ≡ job_output (planning plan) head_size frames_out input) }
        ensures plan { IfOk result (λ c. job_plan c ≡ record { planning = planning plan; announced = frames_out }) }
    {
        let left = plan.head().announced;
        let chain = CodedChain {
            stream: Stream { chain, plan },
            announced: frames_out,
            frames_out: 0,
            sound_bytes: 0,
            out_clips: 0,
        };
        Ok(ChainConversion {
            chain,
            has_head: false,
            skip: head_size,
            left,
            pending: Vec::new(alloc),
            sound: Vec::new(alloc),
            buffers: Buffers::new(alloc)?,
        })
    }

    /// Appends the head of the output, where it was not written yet.
    fn write_head(&mut self, output: &mut Vec<u8>) -> Result<(), ConversionFault>
        ensures appended { OnOk result (output.new.items ≡ output.old.items ++ head_to_come self.old) }
        ensures now { OnOk result (self.new ≡ record self.old { has_head = true }) }
        ensures refused { OnErr result (self.new ≡ self.old) }
    {
        if self.has_head {
            return Ok(());
        }
        let plan = &self.chain.stream.plan;
        let frames = Some(self.chain.announced);
        let head = head_bytes(
            plan.kind(),
            plan.rate(),
            plan.channels(),
            plan.coding(),
            frames,
        );
        if output.extend_from_slice(head.as_slice()).is_err() {
            return Err(ConversionFault::Memory);
        }
        self.has_head = true;
        Ok(())
    }

    /// The bytes of the sound in the next piece of the input.
    fn take_sound<'a>(&mut self, piece: &'a [u8]) -> &'a [u8]
        ensures sound { (input : List ℕ) → within_sound self.old.left (drop self.old.skip (piece.now ++ input))
            ≡ result.now ++ within_sound self.new.left (drop self.new.skip input) }
        ensures others { self.new ≡ record self.old { skip = self.new.skip; left = self.new.left } }
    {
        let skipped = self.skip.min(piece.len() as u64);
        self.skip -= skipped;
        let rest = &piece[skipped as usize..];
        let Some(left) = self.left else {
            return rest;
        };
        let count = left.min(rest.len() as u64);
        self.left = Some(left - count);
        &rest[..count as usize]
    }

    /// Passes the bytes of a sound through the chain, which waits for frames. Those of an incomplete frame are kept.
    fn pass_sound(&mut self, sound: &[u8], output: &mut Vec<u8>) -> Result<(), ConversionFault>
        requires running { self.old.coded.chain.flow.ended ≡ false }
        ensures passes { OnOk result (PassesSound self.old self.new sound.now output.old.items output.new.items) }
        ensures stays { KeepsPlan self.old.coded self.new.coded }
    {
        self.sound.clear();
        let is_joined = self.sound.extend_from_slice(&self.pending).is_ok()
            && self.sound.extend_from_slice(sound).is_ok();
        if !is_joined {
            return Err(ConversionFault::Memory);
        }
        let buffers = &mut self.buffers;
        self.chain.feed(
            &self.sound,
            &mut buffers.input,
            &mut buffers.output,
            &mut buffers.coded,
            output,
        )?;
        let size = self.chain.frame_size();
        let whole = self.sound.len() / size * size;
        self.pending.clear();
        if self
            .pending
            .extend_from_slice(&self.sound[whole..])
            .is_err()
        {
            return Err(ConversionFault::Memory);
        }
        Ok(())
    }

    /// Appends the zero byte that a WAVE file of odd size has.
    fn pad(&self, output: &mut Vec<u8>) -> Result<(), ConversionFault>
        ensures { OnOk result (output.new.items ≡ output.old.items ++ pad self.now.coded.chain.plan.kind true self.now.coded.sound_bytes) }
    {
        let is_odd = self.chain.sound_bytes % 2 == 1;
        if self.chain.stream.plan.kind() == Kind::Wav && is_odd && output.push(0).is_err() {
            return Err(ConversionFault::Memory);
        }
        Ok(())
    }

    /// The counts of a frozen conversion.
    fn counts(&self) -> Counts
        ensures counts { result ≡ counts_of self.now }
        ensures counted { IsCounted self.now.coded }
    {
        Counts {
            announced: self.chain.announced,
            frames_out: self.chain.frames_out,
            sound_bytes: self.chain.sound_bytes,
            out_clips: self.chain.out_clips,
            has_head: self.has_head,
            skip: self.skip,
            left: self.left,
            pending: self.pending.len() as u64,
        }
    }

    /// Becomes the conversion of these counts, whose first bytes of a frame and whose chain follow in `bytes`.
    fn thaw_rest(&mut self, alloc: Global, counts: &Counts, bytes: &[u8]) -> Result<(), ThawFault>
        ensures thawed { (m : ConversionParts) → job_plan m ≡ job_plan self.old → counts_of m ≡ counts.now → FollowsCounts m bytes.now
            → MatchResult result (λ _. self.new ≡ m) (λ e. e ≡ ThawFault.Memory) }
    {
        let is_whole = counts.pending >= self.chain.frame_size() as u64;
        if is_whole || counts.pending > bytes.len() as u64 || !self.chain.may_have(counts) {
            return Err(ThawFault::BadSnapshot);
        }
        let (first, frozen) = bytes.split_at(counts.pending as usize);
        let Ok(pending) = Vec::from_slice(alloc, first) else {
            return Err(ThawFault::Memory);
        };
        match self.chain.stream.thaw(alloc, frozen) {
            Ok(()) => {}
            Err(StreamFault::Memory) => return Err(ThawFault::Memory),
            Err(_) => return Err(ThawFault::BadSnapshot),
        }
        self.chain.set_counts(counts);
        self.has_head = counts.has_head;
        self.skip = counts.skip;
        self.left = counts.left;
        self.pending = pending;
        Ok(())
    }
}

impl Conversion for ChainConversion {
    ghost model = { chain_model };

    fn step(&mut self, piece: &[u8], output: &mut Vec<u8>) -> Result<(), ConversionFault> {
        if !self.chain.is_hungry() {
            return Err(ConversionFault::InputChanged);
        }
        self.write_head(output)?;
        let sound = self.take_sound(piece);
        if self.chain.stream.chain.is_spent() {
            return Ok(());
        }
        self.pass_sound(sound, output)
    }

    fn finish(&mut self, output: &mut Vec<u8>) -> Result<(), ConversionFault>
        ensures rest { OnOk result (output.new.items ≡ output.old.items ++ output_to_come self.old []) }

        // As many frames came out in all as the head of the output says.
        ensures announced { OnOk result (self.old.coded.frames_out + length (rest_of effect_acts self.old.coded.chain.flow [])
            ≡ self.old.coded.announced) }
    {
        self.write_head(output)?;
        let buffers = &mut self.buffers;
        self.chain
            .finish(&mut buffers.output, &mut buffers.coded, output)?;
        self.pad(output)
    }

    fn freeze(&self, bytes: &mut Vec<u8>) -> Result<(), AllocError> {
        append_words(bytes, &self.counts().words())?;
        bytes.extend_from_slice(&self.pending)?;
        self.chain.stream.append_to(bytes)?;
        Ok(())
    }

    fn thaw(&mut self, alloc: Global, bytes: &[u8]) -> Result<(), ThawFault> {
        if bytes.len() < COUNTS_SIZE {
            return Err(ThawFault::BadSnapshot);
        }
        let (front, rest) = bytes.split_at(COUNTS_SIZE);
        let words = match to_words(alloc, front) {
            Ok(Some(words)) => words,
            Ok(None) => return Err(ThawFault::BadSnapshot),
            Err(AllocError) => return Err(ThawFault::Memory),
        };
        match Counts::of_words(&words) {
            Some(counts) => self.thaw_rest(alloc, &counts, rest),
            None => Err(ThawFault::BadSnapshot),
        }
    }

    fn summary(&self, alloc: Global) -> Result<Vec<u8>, AllocError> {
        self.summary_words(alloc)
    }

    fn duplicate(&self, alloc: Global) -> Result<ChainConversion, AllocError> {
        let mut pending = Vec::new(alloc);
        pending.extend_from_slice(&self.pending)?;
        Ok(ChainConversion {
            chain: self.chain.copy(alloc)?,
            has_head: self.has_head,
            skip: self.skip,
            left: self.left,
            pending,
            sound: Vec::new(alloc),
            buffers: Buffers::new(alloc)?,
        })
    }
}
