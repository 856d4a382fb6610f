//! How a stream is made of words.
ghost use Rattle.std.specs.Prelude.{◌≡◌, ◌<◌, ◌≤◌, ◌⊎◌, ◌++◌, [], ◌∷◌, Err, IfErr, IfOk, OnOk};
ghost use Rattle.fx_plan.specs.Line.{texts};
ghost use Rattle.fx_plan.specs.Plans.{plan_bytes};
ghost use Rattle.soxchain.specs.MessageWriter.{WritesMessage};
ghost use Rattle.soxchain_c.specs.Making.{IsRefusalOf, IsStreamOf, RefusesStream, IsHeadAt, stream_line, stream_words};

use crate::status::Status;
use fx_chain::Chain;
use fx_frame::{ByteOut, Coding};
use fx_frame_base::frame::MAX_CHANNELS;
use fx_plan::{CommandLine, LineFault, parse_line, plan};
use fx_sound::{Head, Kind};
use soxchain::inner::{
    MessageWriter, Refusal, label_of_line, status_of_fault, tell_line, tell_refusal,
};
use soxchain_stream::Stream;
use std::alloc::{AllocError, Global};

/// The head of a sound of 32 bits at this rate, of `channels` channels.
pub fn head_of(rate: u32, channels: usize) -> Result<Head, Status>
    ensures head { IfOk result (IsHeadAt rate channels) }
    ensures right { OnOk result ((0 < rate) × (1 ≤ channels) × (channels ≤ 16)) }
    ensures rate { (result ≡ Err Status.BadRate) → rate ≡ 0 }
    ensures channels { (result ≡ Err Status.BadChannels) → (0 < rate) × ((channels ≡ 0) ⊎ (16 < channels)) }
    ensures causes { IfErr result (λ s. (s ≡ Status.BadRate) ⊎ (s ≡ Status.BadChannels)) }
{
    if rate == 0 {
        return Err(Status::BadRate);
    }
    if channels == 0 || channels > MAX_CHANNELS {
        return Err(Status::BadChannels);
    }
    Ok(Head {
        kind: Kind::Au,
        rate,
        channels,
        coding: Coding::S32Be,
        announced: None,
    })
}

/// Adds a word.
fn push_word(alloc: Global, words: &mut Vec<String>, word: &str) -> Result<(), AllocError>
    ensures { OnOk result (texts words.new.items ≡ texts words.old.items ++ word.now ∷ []) }
{
    words.push(String::from_str(alloc, word)?)?;
    Ok(())
}

/// The words of a command line from and to a standard stream, which is to be an AU of 32 bits.
fn front_words(alloc: Global) -> Result<Vec<String>, AllocError>
    ensures { IfOk result (λ line. texts line.items ≡ stream_words []) }
{
    let mut line = Vec::new(alloc);
    push_word(alloc, &mut line, "-")?;
    push_word(alloc, &mut line, "-t")?;
    push_word(alloc, &mut line, "au")?;
    push_word(alloc, &mut line, "-b")?;
    push_word(alloc, &mut line, "32")?;
    push_word(alloc, &mut line, "-")?;
    Ok(line)
}

/// The words of a command line from and to a standard stream, and these after them.
fn line_words(alloc: Global, words: &[String]) -> Result<Vec<String>, AllocError>
    ensures { IfOk result (λ line. texts line.items ≡ stream_words (texts words.now)) }
{
    let mut line = front_words(alloc)?;
    let mut rest = words;
    while let Some((word, more)) = rest.split_first() {
        push_word(alloc, &mut line, word)?;
        rest = more;
    }
    Ok(line)
}

/// The line of these words, which are those after OUT. It is refused only for lack of memory.
fn read_words_of(alloc: Global, words: &[String]) -> Result<CommandLine, LineFault>
    ensures line { IfOk result (λ line. line ≡ stream_line (texts words.now)) }
    ensures memory { IfErr result (λ fault. fault ≡ LineFault.Memory) }
{
    let Ok(words) = line_words(alloc, words) else {
        return Err(LineFault::Memory);
    };
    parse_line(alloc, &words)
}

/// The stream of a line's effects after a head.
fn stream_of(
    alloc: Global,
    line: &CommandLine,
    head: &Head,
    files: &[Vec<u8>],
) -> Result<Stream, Refusal>
    ensures made { IfOk result (λ s. IsStreamOf line.now (plan_bytes files.now) head.now s) }
    ensures refused { IfErr result (IsRefusalOf line.now (plan_bytes files.now) head.now) }
{
    let plan = match plan(alloc, line, head, files) {
        Ok(plan) => plan,
        Err(fault) => return Err(Refusal::Plan(fault)),
    };
    match Chain::new(alloc, &plan) {
        Ok(chain) => Ok(Stream { chain, plan }),
        Err(AllocError) => Err(Refusal::Chain),
    }
}

/// The stream of these words, which are those after OUT, for the frames that the head describes; `files` are the bytes of the
/// coefficient files that the words name, in order. Where it is refused, writes one message with the reason and returns the
/// status: 1 for a fault of the words, 2 where memory was refused.
pub fn make_stream<M: ByteOut>(
    alloc: Global,
    words: &[String],
    files: &[Vec<u8>],
    head: &Head,
    messages: &mut M,
) -> Result<Stream, u8>
    ensures made { IfOk result (λ s. IsStreamOf (stream_line (texts words.now)) (plan_bytes files.now) head.now s) }
    ensures silent { OnOk result (messages.new ≡ messages.old) }
    ensures refused { IfErr result (RefusesStream (stream_line (texts words.now)) (plan_bytes files.now) head.now
        (WritesMessage M.writes messages.old messages.new)) }
{
    let mut message_writer = MessageWriter::new(messages);
    let line = match read_words_of(alloc, words) {
        Ok(line) => line,
        Err(fault) => {
            tell_line(&mut message_writer, label_of_line(fault));
            return Err(status_of_fault(fault));
        }
    };
    match stream_of(alloc, &line, head, files) {
        Ok(stream) => Ok(stream),
        Err(refusal) => {
            tell_refusal(&mut message_writer, &line, &refusal);
            Err(refusal.status())
        }
    }
}
