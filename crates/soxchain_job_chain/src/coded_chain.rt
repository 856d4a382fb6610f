//! A chain that takes frames as bytes, and gives frames as bytes.
ghost use Rattle.std.specs.Prelude.{◌≡◌, ◌⊎◌, ◌≤◌, ◌<◌, ◌+◌, ◌*◌, ◌^◌, ◌++◌, ℕ, false, true, length, IfOk, OnErr, OnOk};
ghost use Rattle.fx_frame_base.specs.Lists.{pieces};
ghost use Rattle.fx_sound.specs.Container.{first_frames, frames_of_sound};
ghost use Rattle.fx_sound.specs.FrameCoding.{bytes_of, clips_of, frame_size};
ghost use Rattle.soxchain_job_chain.specs.CodedChain.{Finishes, IsCounted, NeedsNoMore, Passes, PassesFront, KeepsPlan};
ghost use Rattle.soxchain_job_chain.specs.FrozenConversion.{with_counts};

use crate::buffers::BLOCK_SAMPLES;
use crate::counts::Counts;
use fx_chain::Chain;
use fx_chain_flow::flow::MAX_FRAMES;
use fx_sound::inner::{decode_into, encode_into};
use soxchain_job::ConversionFault;
use soxchain_stream::{Stream, Waits};
use std::alloc::{AllocError, Global};
use std::marker::Model;

/// No chain gives more frames.
const MAX_FRAMES_OUT: u64 = 1 << 56;

/// The chain of a plan, and what came out of it: frames, their bytes, and the samples that were clipped when they were encoded.
#[derive(Drop)]
pub struct CodedChain {
    pub stream: Stream,
    /// How many frames come out in all, where the input is the one that was announced.
    pub announced: u64,
    pub frames_out: u64,
    pub sound_bytes: u64,
    pub out_clips: u64,
}

impl Model for CodedChain {
    ghost use Rattle.soxchain_job_chain.specs.CodedChain.{CodedParts, IsCounted};

    ghost Value = { CodedParts };

    ghost view = { λ c. record { chain = c.stream.chain; announced = c.announced; frames_out = c.frames_out; sound_bytes = c.sound_bytes; out_clips = c.out_clips } };

    ghost invariant = { λ c. IsCounted (record { chain = c.stream.chain; announced = c.announced; frames_out = c.frames_out; sound_bytes = c.sound_bytes; out_clips = c.out_clips }) };
}

/// What a chain left of the samples that it was fed.
#[derive(Drop)]
struct Turn<'a> {
    left: &'a [i32],
    /// Whether it may have more to give at once.
    is_full: bool,
}

impl CodedChain {
    /// Appends the bytes of frames that the chain gave. More of them than were announced are refused.
    fn put(
        &mut self,
        frames: usize,
        samples: &[i32],
        coded: &mut [u8],
        output: &mut Vec<u8>,
    ) -> Result<(), ConversionFault>
        requires maximum { length samples.now ≤ BLOCK_SAMPLES }
        requires channels { length samples.now ≤ 16 * frames }
        requires coded { length coded.old ≡ 4 * BLOCK_SAMPLES }
        ensures appended { OnOk result (output.new.items ≡ output.old.items ++ bytes_of self.old.chain.plan.coding samples.now) }
        ensures chain { self.new.chain ≡ self.old.chain }
        ensures announced { self.new.announced ≡ self.old.announced }
        ensures frames { OnOk result (self.new.frames_out ≡ self.old.frames_out + frames) }
        ensures maximum { OnOk result (self.new.frames_out ≤ 2 ^ 56) }
        ensures bytes { OnOk result (self.new.sound_bytes ≡ self.old.sound_bytes + length (bytes_of self.old.chain.plan.coding samples.now)) }
        ensures clips { OnOk result (self.new.out_clips ≡ self.old.out_clips + clips_of self.old.chain.plan.coding samples.now) }
    {
        if frames as u64 > self.announced.min(MAX_FRAMES_OUT) - self.frames_out {
            return Err(ConversionFault::InputChanged);
        }
        let coding = self.stream.plan.coding();
        let size = samples.len() * coding.width();
        let bytes = &mut coded[..size];
        let clips = encode_into(coding, samples, bytes);
        if output.extend_from_slice(bytes).is_err() {
            return Err(ConversionFault::Memory);
        }
        self.frames_out += frames as u64;
        self.sound_bytes += size as u64;
        self.out_clips += clips;
        Ok(())
    }

    /// Feeds the chain once, until the block of samples after it is full, or nothing more is to be taken.
    fn feed_once<'a>(
        &mut self,
        input: &'a [i32],
        samples: &mut [i32],
        coded: &mut [u8],
        output: &mut Vec<u8>,
    ) -> Result<Turn<'a>, ConversionFault>
        requires samples { length samples.old ≡ BLOCK_SAMPLES }
        requires coded { length coded.old ≡ 4 * BLOCK_SAMPLES }
        ensures passes { IfOk result (λ turn. PassesFront self.old self.new input.now turn.left.now output.old.items output.new.items) }
        ensures full { IfOk result (λ turn. turn.is_full ≡ true → self.old.frames_out < self.new.frames_out) }
        ensures maximum { OnOk result (self.new.frames_out ≤ 2 ^ 56) }
        ensures all { IfOk result (λ turn. turn.is_full ≡ false → self.new.chain.flow.ended ≡ false
            → NeedsNoMore self.new.chain.flow ⊎ (length turn.left.now < self.old.chain.plan.head.channels)) }
        ensures stays { KeepsPlan self.old self.new }
    {
        let channels = self.stream.plan.head().channels;
        let outputs = self.stream.chain.outputs();
        let frames = (input.len() / channels) as u64;
        if frames > MAX_FRAMES - self.stream.chain.taken() {
            return Err(ConversionFault::InputChanged);
        }
        let passed = self.stream.chain.feed(input, samples);
        let _is_spent = self.stream.chain.is_spent();
        let given = passed.given * outputs;
        self.put(passed.given, &samples[..given], coded, output)?;
        Ok(Turn {
            left: &input[passed.taken * channels..],
            is_full: given + outputs > BLOCK_SAMPLES,
        })
    }

    /// Passes frames through the chain. After its end there are none.
    fn pass(
        &mut self,
        input: &[i32],
        samples: &mut [i32],
        coded: &mut [u8],
        output: &mut Vec<u8>,
    ) -> Result<(), ConversionFault>
        requires samples { length samples.old ≡ BLOCK_SAMPLES }
        requires coded { length coded.old ≡ 4 * BLOCK_SAMPLES }
        requires running { self.old.chain.flow.ended ≡ true → length input.now ≡ 0 }
        ensures passes { OnOk result ((n : ℕ) → length input.now ≡ n * self.old.chain.plan.head.channels
            → Passes self.old self.new (pieces self.old.chain.plan.head.channels n input.now) output.old.items output.new.items) }
        ensures stays { KeepsPlan self.old self.new }
    {
        let _channels = self.stream.inputs();
        let mut rest = input;
        'turns: loop {
            let turn = self.feed_once(rest, samples, coded, output)?;
            rest = turn.left;
            if !turn.is_full {
                return Ok(());
            }
        }
    }

    /// Passes the frames that these bytes are through the chain.
    fn pass_block(
        &mut self,
        frames: usize,
        bytes: &[u8],
        input: &mut [i32],
        samples: &mut [i32],
        coded: &mut [u8],
        output: &mut Vec<u8>,
    ) -> Result<(), ConversionFault>
        requires input { length input.old ≡ BLOCK_SAMPLES }
        requires samples { length samples.old ≡ BLOCK_SAMPLES }
        requires coded { length coded.old ≡ 4 * BLOCK_SAMPLES }
        requires running { self.old.chain.flow.ended ≡ false }
        requires maximum { frames * self.old.chain.plan.head.channels ≤ BLOCK_SAMPLES }
        requires bytes { length bytes.now ≡ frames * frame_size self.old.chain.plan.head.coding self.old.chain.plan.head.channels }
        ensures passes { OnOk result (Passes self.old self.new
            (first_frames self.old.chain.plan.head.coding self.old.chain.plan.head.channels frames bytes.now) output.old.items output.new.items) }
        ensures stays { KeepsPlan self.old self.new }
    {
        let head = self.stream.plan.head();
        let block = &mut input[..frames * head.channels];
        decode_into(head.coding, bytes, block);
        self.pass(block, samples, coded, output)
    }

    /// Passes the whole frames at the front of these bytes through the chain.
    pub fn feed(
        &mut self,
        bytes: &[u8],
        input: &mut [i32],
        samples: &mut [i32],
        coded: &mut [u8],
        output: &mut Vec<u8>,
    ) -> Result<(), ConversionFault>
        requires input { length input.old ≡ BLOCK_SAMPLES }
        requires samples { length samples.old ≡ BLOCK_SAMPLES }
        requires coded { length coded.old ≡ 4 * BLOCK_SAMPLES }
        requires running { self.old.chain.flow.ended ≡ false }
        ensures passes { OnOk result (Passes self.old self.new
            (frames_of_sound self.old.chain.plan.head.coding self.old.chain.plan.head.channels bytes.now)
            output.old.items output.new.items) }
        ensures stays { KeepsPlan self.old self.new }
    {
        let size = self.frame_size();
        let frames = bytes.len() / size;
        let maximum = BLOCK_SAMPLES / self.stream.inputs();
        let mut done = 0;
        'blocks: while done < frames {
            let count = maximum.min(frames - done);
            let block = &bytes[done * size..(done + count) * size];
            self.pass_block(count, block, input, samples, coded, output)?;
            done += count;
        }
        Ok(())
    }

    /// Gives the chain the end, and appends all that it still gives.
    pub fn finish(
        &mut self,
        samples: &mut [i32],
        coded: &mut [u8],
        output: &mut Vec<u8>,
    ) -> Result<(), ConversionFault>
        requires samples { length samples.old ≡ BLOCK_SAMPLES }
        requires coded { length coded.old ≡ 4 * BLOCK_SAMPLES }
        ensures finishes { OnOk result (Finishes self.old self.new output.old.items output.new.items) }
        ensures stays { KeepsPlan self.old self.new }
    {
        if !self.stream.end() {
            return Err(ConversionFault::InputChanged);
        }
        self.pass(&[], samples, coded, output)?;
        let Waits::Nothing = self.stream.waits() else {
            return Err(ConversionFault::InputChanged);
        };
        if self.frames_out != self.announced {
            return Err(ConversionFault::InputChanged);
        }
        Ok(())
    }

    /// An equal chain, with equal counts.
    pub fn copy(&self, alloc: Global) -> Result<CodedChain, AllocError>
        ensures { IfOk result (λ copy. copy ≡ self.now) }
    {
        let plan = self.stream.plan.copy(alloc)?;
        let snapshot = self.stream.chain.freeze(alloc)?;
        let Ok(chain) = Chain::thaw(alloc, &plan, &snapshot) else {
            return Err(AllocError);
        };
        Ok(CodedChain {
            stream: Stream { chain, plan },
            announced: self.announced,
            frames_out: self.frames_out,
            sound_bytes: self.sound_bytes,
            out_clips: self.out_clips,
        })
    }

    /// Whether it waits for frames or the end.
    pub fn is_hungry(&self) -> bool
        ensures { result ≡ true → self.now.chain.flow.ended ≡ false }
    {
        match self.stream.waits() {
            Waits::Frames | Waits::End => true,
            Waits::Output | Waits::Nothing => false,
        }
    }

    /// How many bytes a frame of the input takes.
    pub fn frame_size(&self) -> usize
        ensures value { result ≡ frame_size self.now.chain.plan.head.coding self.now.chain.plan.head.channels }
        ensures some { 1 ≤ result }
        ensures maximum { result ≤ 64 }
    {
        let head = self.stream.plan.head();
        head.channels * head.coding.width()
    }

    /// Whether a chain of this plan may have these counts.
    pub fn may_have(&self, counts: &Counts) -> bool
        ensures same { result ≡ true → counts.now.announced ≡ self.now.announced }
        ensures counted { result ≡ true → IsCounted (with_counts counts.now self.now) }
        ensures all { counts.now.announced ≡ self.now.announced
            → IsCounted (with_counts counts.now self.now) → result ≡ true }
    {
        let maximum = self.announced.min(MAX_FRAMES_OUT);
        counts.announced == self.announced
            && counts.frames_out <= maximum
            && counts.sound_bytes <= 64 * counts.frames_out
            && counts.out_clips <= 16 * counts.frames_out
    }

    /// Takes these counts.
    pub fn set_counts(&mut self, counts: &Counts)
        requires { IsCounted (with_counts counts.now self.old) }
        ensures { self.new ≡ with_counts counts.now self.old }
    {
        self.frames_out = counts.frames_out;
        self.sound_bytes = counts.sound_bytes;
        self.out_clips = counts.out_clips;
    }
}
