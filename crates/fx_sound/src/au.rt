//! Reading the head of a Sun AU sound.

ghost use Rattle.std.specs.Prelude.{◌≡◌, ◌+◌, ◌-◌, ◌^◌, ◌<◌, ◌≤◌, Err, false, IsTrue, IfOk, IfErr, IfSome, length};
ghost use Rattle.fx_sound.specs.Au.{word_at, au_coding, au_fields, after_snd};
ghost use Rattle.fx_sound.specs.Kind.{is_of_au};
ghost use Rattle.fx_sound.specs.HeadFields.{IsProper, is_read_failure};
ghost use Rattle.fx_sound.specs.Reads.{Reads, Refuses, Fails, StandsIfKnown};
ghost use Rattle.fx_sound.specs.Source.{CountsReadFailure, Takes};

use super::fields::{AU_UNKNOWN, Format, HeadFields};
use super::head::{HeadFault, Kind, MAX_SOUND_OFFSET};
use super::source::Source;
use byteorder::{BigEndian, ByteOrder};
use fx_frame_base::frame::MAX_CHANNELS;
use fx_frame_base::{ByteIn, Coding};

fn word(bytes: &[u8], i: usize) -> u32
    requires { i + 4 ≤ length bytes.now }
    ensures { result ≡ word_at i bytes.now }
{
    BigEndian::read_u32(&bytes[i..i + 4])
}

fn coding_of(encoding: u32) -> Option<Coding>
    ensures value { result ≡ au_coding encoding }
    ensures kind { IfSome result (λ c. IsTrue (is_of_au c)) }
{
    match encoding {
        2 => Some(Coding::S8),
        3 => Some(Coding::S16Be),
        4 => Some(Coding::S24Be),
        5 => Some(Coding::S32Be),
        _ => None,
    }
}

// The meaning of the five words after `.snd`.
#[tactic(auto, unfolding(crate::specs::Au::au_fields))]
fn fields(words: &[u8]) -> Result<HeadFields, HeadFault>
    requires { length words.now ≡ 20 }
    ensures value { result ≡ au_fields words.now }
    ensures offset { IfOk result (λ l. (24 ≤ l.offset) × (l.offset ≤ MAX_SOUND_OFFSET)) }
    ensures proper { IfOk result (λ l. IsProper Kind.Au l.format) }
    ensures fault { is_read_failure result ≡ false }
    ensures enough { result ≡ Err HeadFault.Truncated → ⊥ }
{
    let offset = word(words, 0);
    if offset < 24 {
        return Err(HeadFault::BadHeader);
    }
    if offset > MAX_SOUND_OFFSET {
        return Err(HeadFault::HeadTooLong);
    }
    let Some(coding) = coding_of(word(words, 8)) else {
        return Err(HeadFault::NotInProfile);
    };
    let size = word(words, 4);
    let rate = word(words, 12);
    let channels = word(words, 16);
    if rate == 0 || channels == 0 {
        return Err(HeadFault::BadHeader);
    }
    if channels as usize > MAX_CHANNELS {
        return Err(HeadFault::TooManyChannels);
    }
    Ok(HeadFields {
        format: Format {
            rate,
            channels: channels as usize,
            coding,
        },
        announced: if size == AU_UNKNOWN {
            None
        } else {
            Some(size as u64)
        },
        offset,
    })
}

/// The head of an AU sound after `.snd`, up to the sound.
pub(crate) fn read_au<R: ByteIn>(source: &mut Source<R>) -> Result<HeadFields, HeadFault>
    ensures fields { IfOk result (λ l. Reads R.reads.rest after_snd source.old source.new (l.offset - 4) l) }
    ensures delivered { IfOk result (λ l. Takes R.reads.delivered source.old source.new (l.offset - 4)) }
    ensures offset { IfOk result (λ l. (4 < l.offset) × (l.offset ≤ MAX_SOUND_OFFSET)) }
    ensures proper { IfOk result (λ l. IsProper Kind.Au l.format) }
    ensures fault { IfErr result (Refuses R.reads.rest after_snd source.old) }
    ensures cut { IfErr result (Fails R.reads.rest R.reads.delivered after_snd source.old source.new) }
    ensures stands { IfErr result (StandsIfKnown R.reads.rest R.reads.delivered after_snd (2 ^ 24 - 4) source.old source.new) }
    ensures failures { CountsReadFailure R.reads (is_read_failure result) source.old source.new }
{
    let mut words = [0; 20];
    let Ok(got) = source.fill(&mut words) else {
        return Err(HeadFault::ReadFailed);
    };
    if got < 20 {
        return Err(HeadFault::Truncated);
    }
    let fields = fields(&words)?;
    let between = (fields.offset - 24) as usize;
    let Ok(skipped) = source.skip(between) else {
        return Err(HeadFault::ReadFailed);
    };
    if skipped < between {
        return Err(HeadFault::Truncated);
    }
    Ok(fields)
}
