//! Reading the head of a sound.

ghost use Rattle.std.specs.Prelude.{◌≡◌, ◌-◌, ◌^◌, ◌<◌, ◌≤◌, IfOk, IfErr};
ghost use Rattle.fx_sound.specs.Source.{CountsReadFailure, to_come, Takes};
ghost use Rattle.fx_sound.specs.Known.{IfKnown};
ghost use Rattle.fx_sound.specs.Head.{kind_of, allowed, after_kind, head_of, ReadsHead};
ghost use Rattle.fx_sound.specs.HeadFields.{IsProper, is_read_failure};
ghost use Rattle.fx_sound.specs.Reads.{Reads, Refuses, Fails, StandsIfKnown};

use super::au::read_au;
use super::fields::HeadFields;
use super::head::{Head, HeadFault, Kind, MAX_SOUND_OFFSET};
use super::source::Source;
use super::wave::read_wav;
use fx_frame_base::ByteIn;

// The kind that the first four bytes name, unless the other was expected.
fn found(expected: Option<Kind>, name: [u8; 4]) -> Option<Kind>
    ensures { result ≡ allowed expected (kind_of name) }
{
    let kind = if name == *b"RIFF" {
        Kind::Wav
    } else if name == *b".snd" {
        Kind::Au
    } else {
        return None;
    };
    match expected {
        Some(other) if other != kind => None,
        _ => Some(kind),
    }
}

fn read_fields<R: ByteIn>(source: &mut Source<R>, kind: Kind) -> Result<HeadFields, HeadFault>
    ensures fields { IfOk result (λ l. Reads R.reads.rest (after_kind kind) source.old source.new (l.offset - 4) l) }
    ensures delivered { IfOk result (λ l. Takes R.reads.delivered source.old source.new (l.offset - 4)) }
    ensures offset { IfOk result (λ l. (4 < l.offset) × (l.offset ≤ MAX_SOUND_OFFSET)) }
    ensures proper { IfOk result (λ l. IsProper kind l.format) }
    ensures fault { IfErr result (Refuses R.reads.rest (after_kind kind) source.old) }
    ensures cut { IfErr result (Fails R.reads.rest R.reads.delivered (after_kind kind) source.old source.new) }
    ensures stands { IfErr result (StandsIfKnown R.reads.rest R.reads.delivered (after_kind kind) (2 ^ 24 - 4) source.old source.new) }
    ensures failures { CountsReadFailure R.reads (is_read_failure result) source.old source.new }
{
    match kind {
        Kind::Wav => read_wav(source),
        Kind::Au => read_au(source),
    }
}

/// Reads the head of a sound, up to the first byte of the sound; of the expected kind, or of
/// either where none is expected.
///
/// The first fault is returned, in the order of the checks. After a fault the bytes that decided it were taken, at most `2^24`,
/// and all others are still to come. After a failed read those that came and were not taken are held.
pub fn read_head<R: ByteIn>(
    source: &mut Source<R>,
    expected: Option<Kind>,
) -> Result<Head, HeadFault>
    ensures head { IfOk result (λ h. IfKnown (to_come R.reads.rest source.old) (λ bytes.
        ReadsHead R.reads.rest R.reads.delivered expected bytes source.old source.new h)) }
    ensures fault { IfErr result (Refuses R.reads.rest (head_of expected) source.old) }
    ensures read_failed { IfErr result (Fails R.reads.rest R.reads.delivered (head_of expected) source.old source.new) }
    ensures stands { IfErr result
        (StandsIfKnown R.reads.rest R.reads.delivered (head_of expected) MAX_SOUND_OFFSET source.old source.new) }
    ensures failures { CountsReadFailure R.reads (is_read_failure result) source.old source.new }
{
    let mut name = [0; 4];
    let Ok(got) = source.fill(&mut name) else {
        return Err(HeadFault::ReadFailed);
    };
    if got < 4 {
        return Err(HeadFault::Truncated);
    }
    let Some(kind) = found(expected, name) else {
        return Err(HeadFault::UnknownType);
    };
    let fields = read_fields(source, kind)?;
    Ok(Head {
        kind,
        rate: fields.format.rate,
        channels: fields.format.channels,
        coding: fields.format.coding,
        announced: fields.announced,
    })
}
