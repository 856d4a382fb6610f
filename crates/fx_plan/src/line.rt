//! The command line: `[-D] [-t wav|au] IN|- [-D] [-t wav|au] [-b 8|16|24|32] OUT|- [EFFECT [WORD ..] ..]`.
ghost use Rattle.std.specs.Prelude.{◌≡◌, ◌∷◌, [], MatchResult, Ok, Err, string_bytes};
ghost use Rattle.fx_plan.specs.Line.{bits_of, ending_kind, ends_in, front, front_of, kind_of_name, line_of_words, nothing_set, shape_of, shown_line, texts};
ghost use Rattle.fx_plan.specs.Spelling.{FrontIsRead};

use crate::bits::Bits;
use fx_sound::Kind;
use thiserror::Error;

/// Why a command line is refused: the first fault from left to right, a missing type of the output after all others.
#[derive(Clone, Copy, Debug, PartialEq, Eq, Error)]
pub enum LineFault {
    /// The words end before IN or before OUT.
    #[error("a file is missing")]
    MissingFile = 1,
    /// An option that is not known at its place, one without its value, or another kind than `wav` or `au`.
    #[error("an option is not known or has no value")]
    BadOption = 2,
    /// The kind of the output is neither given by `-t` nor by the ending of its name.
    #[error("the type of the output is not known")]
    NoOutputType = 3,
    /// A value of `-b` other than 8, 16, 24 or 32.
    #[error("the bits of the output are not 8, 16, 24 or 32")]
    BadBits = 4,
    /// An allocation was refused.
    #[error("out of memory")]
    Memory = 5,
}

/// The kind of a word where an option or a file is expected.
#[derive(Clone, Copy)]
pub enum LineShape {
    NoDither,
    Typed,
    Depth,
    Unknown,
    Name,
}

/// The options before a file.
#[derive(Clone, Copy)]
pub struct Options {
    kind: Option<Kind>,
    bits: Option<Bits>,
}

/// The meaning of the words of a command line. `-` is standard input or output.
#[derive(Clone, Copy)]
pub struct CommandWords<'a> {
    /// The required kind of the input, if there is one.
    pub input_kind: Option<Kind>,
    /// The name of the input.
    pub input: &'a String,
    /// The kind of the output.
    pub output_kind: Kind,
    /// The bits of a sample of the output; None where they are those of the input.
    pub bits: Option<Bits>,
    /// The name of the output.
    pub output: &'a String,
    /// The words after it, those of the effects.
    pub effects: &'a [String],
}

// The kind of a word where an option or a file is expected.
fn read_shape(word: &str) -> LineShape
    ensures { result ≡ shape_of word.now }
{
    if word == "-D" {
        LineShape::NoDither
    } else if word == "-t" {
        LineShape::Typed
    } else if word == "-b" {
        LineShape::Depth
    } else if word == "-" {
        LineShape::Name
    } else if word.starts_with("-") {
        LineShape::Unknown
    } else {
        LineShape::Name
    }
}

// The kind that a value of `-t` is.
fn read_kind(word: &str) -> Option<Kind>
    ensures { result ≡ kind_of_name word.now }
{
    match word {
        "wav" => Some(Kind::Wav),
        "au" => Some(Kind::Au),
        _ => None,
    }
}

// The bits that a value of `-b` is.
fn read_bits(word: &str) -> Option<Bits>
    ensures { result ≡ bits_of word.now }
{
    match word {
        "8" => Some(Bits::Eight),
        "16" => Some(Bits::Sixteen),
        "24" => Some(Bits::TwentyFour),
        "32" => Some(Bits::ThirtyTwo),
        _ => None,
    }
}

// The value of an option, the first of these words, and the words after it.
fn read_value(words: &[String]) -> Result<(&String, &[String]), LineFault>
    ensures { MatchResult result (λ found. texts words.now ≡ string_bytes found.0.now ∷ texts found.1.now)
        (λ fault. (words.now ≡ []) × (fault ≡ LineFault.BadOption)) }
{
    words.split_first().ok_or(LineFault::BadOption)
}

// The options before a file, the file, and the words after it.
fn read_front(
    takes_bits: bool,
    words: &[String],
) -> Result<(Options, &String, &[String]), LineFault>
    ensures { let read = front_of takes_bits nothing_set (texts words.now) in
        MatchResult result (λ found. read ≡ Ok (front found.0 found.1.now found.2.now)) (λ fault. read ≡ Err fault) }
{
    let mut set = Options {
        kind: None,
        bits: None,
    };
    let mut rest = words;
    while let Some((word, after)) = rest.split_first() {
        match read_shape(word) {
            LineShape::Name => return Ok((set, word, after)),
            LineShape::NoDither => {
                rest = after;
                continue;
            }
            LineShape::Typed => {
                let (value, after) = read_value(after)?;
                let Some(kind) = read_kind(value) else {
                    return Err(LineFault::BadOption);
                };
                set.kind = Some(kind);
                rest = after;
                continue;
            }
            LineShape::Depth => {
                if !takes_bits {
                    return Err(LineFault::BadOption);
                }
                let (value, after) = read_value(after)?;
                let Some(bits) = read_bits(value) else {
                    return Err(LineFault::BadBits);
                };
                set.bits = Some(bits);
                rest = after;
                continue;
            }
            LineShape::Unknown => return Err(LineFault::BadOption),
        }
    }
    Err(LineFault::MissingFile)
}

// Whether a name ends in this ending, in upper or lower case.
fn is_ending(name: &str, ending: &str) -> bool
    ensures { result ≡ ends_in name.now ending.now }
{
    let (name, ending) = (name.as_bytes(), ending.as_bytes());
    if name.len() < ending.len() {
        return false;
    }
    let (_, last) = name.split_at(name.len() - ending.len());
    last.eq_ignore_ascii_case(ending)
}

// The kind given by the ending of a name.
fn name_kind(name: &str) -> Option<Kind>
    ensures { result ≡ ending_kind name.now }
{
    if is_ending(name, ".wav") {
        return Some(Kind::Wav);
    }
    if is_ending(name, ".au") || is_ending(name, ".snd") {
        return Some(Kind::Au);
    }
    None
}

/// The meaning of the words of a command line, or the first fault.
pub fn read_line(words: &[String]) -> Result<CommandWords<'_>, LineFault>
    ensures read { let read = line_of_words (texts words.now) in
        MatchResult result (λ line. read ≡ Ok (shown_line line)) (λ fault. read ≡ Err fault) }
{
    let (before, input, rest) = read_front(false, words)?;
    let (after, output, rest) = read_front(true, rest)?;
    let Some(output_kind) = after.kind.or(name_kind(output)) else {
        return Err(LineFault::NoOutputType);
    };
    Ok(CommandWords {
        input_kind: before.kind,
        input,
        output_kind,
        bits: after.bits,
        output,
        effects: rest,
    })
}

// Options and a file that are written so are read back, whatever follows them.
#[tactic(auto, using(crate::proofs::Reading::spelled_read))]
pub fn front_is_read()
    ensures { FrontIsRead }
{}
