//! Reading the head of a RIFF WAVE sound.
ghost use Rattle.std.specs.Prelude.{◌≡◌, ◌+◌, ◌-◌, ◌*◌, ◌^◌, ◌<◌, ◌≤◌, Option, None, Some, false, IsTrue, IfSome, IfOk, IfErr, Ok, Err, length, take, min};
ghost use Rattle.fx_sound.specs.Source.{CountsReadFailure, Takes};
ghost use Rattle.fx_sound.specs.Kind.{is_of_wav};
ghost use Rattle.fx_sound.specs.HeadFields.{IsProper, is_read_failure};
ghost use Rattle.fx_sound.specs.Wave.{half_at, long_at, wav_coding, IsProperSeen, plain_of, format_of, padded_chunk, demand_of, IsNearChunk, AskedAt, format_read, with_body, step_of, end_of, GoesOn, chunks_of, max_chunks, after_riff};
ghost use Rattle.fx_sound.specs.Chunks.{WaveIsRead};
ghost use Rattle.fx_sound.specs.Reads.{Reads, Refuses, Fails, StandsIfKnown};

use super::fields::{EXTENSIBLE, Format, HeadFields, PCM_GUID, PLAIN, WAV_UNKNOWN};
use super::head::{HeadFault, Kind, MAX_SOUND_OFFSET};
use super::source::Source;
use byteorder::{ByteOrder, LittleEndian};
use fx_frame_base::frame::MAX_CHANNELS;
use fx_frame_base::{ByteIn, Coding};

// The greatest offset at which a chunk may begin.
const MAX_CHUNK_BYTES: u64 = MAX_SOUND_OFFSET as u64 - 8;

/// What the name and size of a chunk ask for.
#[derive(Clone, Copy, Debug, PartialEq, Eq)]
pub(crate) enum Demand {
    /// Nothing: the sound follows.
    Sound(HeadFields),
    /// The format, in data of this size.
    Format(u32),
    /// To skip data of this size.
    Other(u32),
}

/// What follows a chunk: the sound, or one more chunk at a place, with the format if it was read.
#[derive(Clone, Copy, Debug, PartialEq, Eq)]
pub(crate) enum ChunkStep {
    Sound(HeadFields),
    Next(u32, Option<Format>),
}

fn half(bytes: &[u8], i: usize) -> u16
    requires { i + 2 ≤ length bytes.now }
    ensures { result ≡ half_at i bytes.now }
{
    LittleEndian::read_u16(&bytes[i..i + 2])
}

fn long(bytes: &[u8], i: usize) -> u32
    requires { i + 4 ≤ length bytes.now }
    ensures { result ≡ long_at i bytes.now }
{
    LittleEndian::read_u32(&bytes[i..i + 4])
}

fn coding_of(bits: u16) -> Option<Coding>
    ensures value { result ≡ wav_coding bits }
    ensures kind { IfSome result (λ c. IsTrue (is_of_wav c)) }
{
    match bits {
        8 => Some(Coding::U8),
        16 => Some(Coding::S16Le),
        24 => Some(Coding::S24Le),
        32 => Some(Coding::S32Le),
        _ => None,
    }
}

// The fields that both tags have.
#[tactic(auto, unfolding(crate::specs::Wave::plain_of))]
fn plain(bytes: &[u8]) -> Result<Format, HeadFault>
    requires { 16 ≤ length bytes.now }
    ensures value { result ≡ plain_of bytes.now }
    ensures proper { IfOk result (IsProper Kind.Wav) }
    ensures fault { is_read_failure result ≡ false }
    ensures enough { result ≡ Err HeadFault.Truncated → ⊥ }
{
    let channels = half(bytes, 2);
    let rate = long(bytes, 4);
    let align = half(bytes, 12);
    let bits = half(bytes, 14);
    if channels == 0 || rate == 0 {
        return Err(HeadFault::BadHeader);
    }
    let Some(coding) = coding_of(bits) else {
        return Err(HeadFault::NotInProfile);
    };
    if align as u32 != channels as u32 * (bits as u32 / 8) {
        return Err(HeadFault::NotInProfile);
    }
    if channels as usize > MAX_CHANNELS {
        return Err(HeadFault::TooManyChannels);
    }
    Ok(Format {
        rate,
        channels: channels as usize,
        coding,
    })
}

// The format that the first forty bytes of a chunk's data encode.
#[tactic(auto, unfolding(crate::specs::Wave::format_of))]
fn format(bytes: &[u8]) -> Result<Format, HeadFault>
    requires { 16 ≤ length bytes.now }
    ensures value { result ≡ format_of bytes.now }
    ensures proper { IfOk result (IsProper Kind.Wav) }
    ensures fault { is_read_failure result ≡ false }
    ensures enough { result ≡ Err HeadFault.Truncated → ⊥ }
{
    let tag = half(bytes, 0);
    if tag == PLAIN {
        return plain(bytes);
    }
    if tag != EXTENSIBLE {
        return Err(HeadFault::NotInProfile);
    }
    if bytes.len() < 40 || half(bytes, 16) < 22 {
        return Err(HeadFault::BadHeader);
    }
    if &bytes[24..40] != PCM_GUID.as_slice() {
        return Err(HeadFault::NotInProfile);
    }
    plain(bytes)
}

// What a chunk asks for, whose name stands at `offset`.
#[tactic(auto, unfolding(crate::specs::Wave::demand_of))]
fn asked(offset: u32, seen: Option<Format>, name: [u8; 4], size: u32) -> Result<Demand, HeadFault>
    requires place { offset + 8 ≤ 2 ^ 24 }
    requires seen { IsProperSeen seen }
    ensures value { result ≡ demand_of offset seen name size }
    ensures near { IfOk result (IsNearChunk offset) }
    ensures fault { is_read_failure result ≡ false }
    ensures enough { result ≡ Err HeadFault.Truncated → ⊥ }
{
    if name == *b"data" {
        return match seen {
            None => Err(HeadFault::BadHeader),
            Some(format) => {
                let announced = if size < WAV_UNKNOWN {
                    Some(size as u64)
                } else {
                    None
                };
                Ok(Demand::Sound(HeadFields {
                    offset: offset + 8,
                    announced,
                    format,
                }))
            }
        };
    }
    if offset as u64 + 8 + size as u64 + size as u64 % 2 > MAX_CHUNK_BYTES {
        return Err(HeadFault::HeadTooLong);
    }
    if name != *b"fmt " {
        return Ok(Demand::Other(size));
    }
    if seen.is_some() || size < 16 {
        return Err(HeadFault::BadHeader);
    }
    Ok(Demand::Format(size))
}

// The format that chunk data of this size encodes, and its pad byte.
fn read_format<R: ByteIn>(source: &mut Source<R>, size: u32) -> Result<Format, HeadFault>
    requires low { 16 ≤ size }
    requires high { size < 2 ^ 24 }
    ensures format { IfOk result (Reads R.reads.rest (format_read size) source.old source.new (padded_chunk size)) }
    ensures proper { IfOk result (IsProper Kind.Wav) }
    ensures delivered { IfOk result (λ _. Takes R.reads.delivered source.old source.new (padded_chunk size)) }
    ensures fault { IfErr result (Refuses R.reads.rest (format_read size) source.old) }
    ensures cut { IfErr result (Fails R.reads.rest R.reads.delivered (format_read size) source.old source.new) }
    ensures stands { IfErr result (StandsIfKnown R.reads.rest R.reads.delivered (format_read size) (padded_chunk size) source.old source.new) }
    ensures failures { CountsReadFailure R.reads (is_read_failure result) source.old source.new }
{
    let mut buffer = [0; 40];
    let maximum = (size as usize).min(40);
    let front = &mut buffer[..maximum];
    let Ok(got) = source.fill(front) else {
        return Err(HeadFault::ReadFailed);
    };
    if got < maximum {
        return Err(HeadFault::Truncated);
    }
    let length = (size + size % 2) as usize - maximum;
    let Ok(skipped) = source.skip(length) else {
        return Err(HeadFault::ReadFailed);
    };
    if skipped < length {
        return Err(HeadFault::Truncated);
    }
    format(front)
}

// The result of a request.
fn read_body<R: ByteIn>(
    source: &mut Source<R>,
    offset: u32,
    seen: Option<Format>,
    demand: Demand,
) -> Result<ChunkStep, HeadFault>
    requires demand { AskedAt offset demand }
    requires seen { IsProperSeen seen }
    ensures step { IfOk result (λ s. Reads R.reads.rest (λ body. with_body offset seen body (Ok demand)) source.old source.new (end_of s - (offset + 8)) s) }
    ensures delivered { IfOk result (λ s. Takes R.reads.delivered source.old source.new (end_of s - (offset + 8))) }
    ensures on { IfOk result (GoesOn offset) }
    ensures fault { IfErr result (Refuses R.reads.rest (λ body. with_body offset seen body (Ok demand)) source.old) }
    ensures cut { IfErr result (Fails R.reads.rest R.reads.delivered (λ body. with_body offset seen body (Ok demand)) source.old source.new) }
    ensures stands { IfErr result
        (StandsIfKnown R.reads.rest R.reads.delivered (λ body. with_body offset seen body (Ok demand)) (2 ^ 24 - (offset + 8)) source.old source.new) }
    ensures failures { CountsReadFailure R.reads (is_read_failure result) source.old source.new }
{
    match demand {
        Demand::Sound(head) => Ok(ChunkStep::Sound(head)),
        Demand::Format(size) => {
            let format = read_format(source, size)?;
            Ok(ChunkStep::Next(offset + 8 + size + size % 2, Some(format)))
        }
        Demand::Other(size) => {
            let length = (size + size % 2) as usize;
            let Ok(skipped) = source.skip(length) else {
                return Err(HeadFault::ReadFailed);
            };
            if skipped < length {
                return Err(HeadFault::Truncated);
            }
            Ok(ChunkStep::Next(offset + 8 + size + size % 2, seen))
        }
    }
}

fn name_at(bytes: &[u8]) -> [u8; 4]
    requires { 4 ≤ length bytes.now }
    ensures { result ≡ take 4 bytes.now }
{
    [bytes[0], bytes[1], bytes[2], bytes[3]]
}

// One chunk, or its name and size alone, where the sound follows.
fn read_step<R: ByteIn>(
    source: &mut Source<R>,
    offset: u32,
    seen: Option<Format>,
) -> Result<ChunkStep, HeadFault>
    requires place { offset + 8 ≤ 2 ^ 24 }
    requires seen { IsProperSeen seen }
    ensures step { IfOk result (λ s. Reads R.reads.rest (step_of offset seen) source.old source.new (end_of s - offset) s) }
    ensures delivered { IfOk result (λ s. Takes R.reads.delivered source.old source.new (end_of s - offset)) }
    ensures on { IfOk result (GoesOn offset) }
    ensures fault { IfErr result (Refuses R.reads.rest (step_of offset seen) source.old) }
    ensures cut { IfErr result (Fails R.reads.rest R.reads.delivered (step_of offset seen) source.old source.new) }
    ensures stands { IfErr result (StandsIfKnown R.reads.rest R.reads.delivered (step_of offset seen) (2 ^ 24 - offset) source.old source.new) }
    ensures failures { CountsReadFailure R.reads (is_read_failure result) source.old source.new }
{
    let mut head = [0; 8];
    let Ok(got) = source.fill(&mut head) else {
        return Err(HeadFault::ReadFailed);
    };
    if got < 8 {
        return Err(HeadFault::Truncated);
    }
    let name = name_at(&head);
    let size = long(&head, 4);
    let demand = asked(offset, seen, name, size)?;
    read_body(source, offset, seen, demand)
}

// No head has more chunks: each has 8 bytes, and the sound begins at 2^24 or before.
const MAX_CHUNKS: u32 = 1 << 21;

// The chunks after `WAVE`, up to the sound.
fn read_chunks<R: ByteIn>(source: &mut Source<R>) -> Result<HeadFields, HeadFault>
    ensures head { IfOk result (λ h. Reads R.reads.rest (chunks_of max_chunks 12 None) source.old source.new (h.offset - 12) h) }
    ensures delivered { IfOk result (λ h. Takes R.reads.delivered source.old source.new (h.offset - 12)) }
    ensures offset { IfOk result (λ h. (12 < h.offset) × (h.offset ≤ 2 ^ 24)) }
    ensures proper { IfOk result (λ h. IsProper Kind.Wav h.format) }
    ensures fault { IfErr result (Refuses R.reads.rest (chunks_of max_chunks 12 None) source.old) }
    ensures cut { IfErr result (Fails R.reads.rest R.reads.delivered (chunks_of max_chunks 12 None) source.old source.new) }
    ensures stands { IfErr result (StandsIfKnown R.reads.rest R.reads.delivered (chunks_of max_chunks 12 None) (2 ^ 24 - 12) source.old source.new) }
    ensures failures { CountsReadFailure R.reads (is_read_failure result) source.old source.new }
{
    let mut offset = 12;
    let mut seen = None;
    for _turn in 0..MAX_CHUNKS {
        match read_step(source, offset, seen)? {
            ChunkStep::Sound(head) => return Ok(head),
            ChunkStep::Next(next, format) => {
                offset = next;
                seen = format;
            }
        }
    }
    unreachable!()
}

/// The head of a WAVE sound after `RIFF`, up to the sound.
pub(crate) fn read_wav<R: ByteIn>(source: &mut Source<R>) -> Result<HeadFields, HeadFault>
    ensures fields { IfOk result (λ h. Reads R.reads.rest after_riff source.old source.new (h.offset - 4) h) }
    ensures delivered { IfOk result (λ h. Takes R.reads.delivered source.old source.new (h.offset - 4)) }
    ensures offset { IfOk result (λ h. (4 < h.offset) × (h.offset ≤ MAX_SOUND_OFFSET)) }
    ensures proper { IfOk result (λ h. IsProper Kind.Wav h.format) }
    ensures fault { IfErr result (Refuses R.reads.rest after_riff source.old) }
    ensures cut { IfErr result (Fails R.reads.rest R.reads.delivered after_riff source.old source.new) }
    ensures stands { IfErr result (StandsIfKnown R.reads.rest R.reads.delivered after_riff (2 ^ 24 - 4) source.old source.new) }
    ensures failures { CountsReadFailure R.reads (is_read_failure result) source.old source.new }
{
    let mut words = [0; 8];
    let Ok(got) = source.fill(&mut words) else {
        return Err(HeadFault::ReadFailed);
    };
    if got < 8 {
        return Err(HeadFault::Truncated);
    }
    let name = name_at(&words[4..]);
    if name != *b"WAVE" {
        return Err(HeadFault::UnknownType);
    }
    read_chunks(source)
}

/// What is read as a WAVE head is a sequence of chunks, and each such sequence is read.
pub fn wave_is_read()
    ensures { WaveIsRead }
{}
