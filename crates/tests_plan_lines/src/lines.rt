//! What lines say: heads, coefficient files and words.

ghost use Rattle.std.specs.Prelude.{◌<◌, IfSome, length};

use fx_plan::Bits;
use fx_sound::{Head, Kind};
use hex::FromHex;
use std::alloc::{AllocError, Global};

/// A coefficient file.
#[derive(Drop)]
pub struct File {
    pub name: String,
    pub bytes: Vec<u8>,
}

/// What the lines so far have said for those after them.
#[derive(Drop)]
pub struct Known {
    pub head: Option<Head>,
    pub files: Vec<File>,
}

/// The first byte that a text stands for, and the text after it; None where there is none, or digits are missing.
fn first_byte(text: &[u8]) -> Option<(u8, &[u8])>
    ensures { IfSome result (λ x. length x.1.now < length text.now) }
{
    let (byte, rest) = text.split_first()?;
    if *byte != b'%' {
        return Some((*byte, rest));
    }
    let (digits, rest) = rest.split_first_chunk::<2>()?;
    let [byte] = <[u8; 1] as FromHex>::from_hex(*digits).ok()?;
    Some((byte, rest))
}

/// The bytes that a text stands for; None where digits are missing.
fn bytes_of(alloc: Global, text: &str) -> Result<Option<Vec<u8>>, AllocError> {
    let mut bytes = Vec::new(alloc);
    let mut rest = text.as_bytes();
    while !rest.is_empty() {
        let Some((byte, more)) = first_byte(rest) else {
            return Ok(None);
        };
        bytes.push(byte)?;
        rest = more;
    }
    Ok(Some(bytes))
}

/// The word that a text stands for; None where digits are missing or the bytes are not UTF-8.
fn word_of(alloc: Global, text: &str) -> Result<Option<String>, AllocError> {
    let Some(bytes) = bytes_of(alloc, text)? else {
        return Ok(None);
    };
    Ok(String::from_utf8(bytes).ok())
}

/// The words that a text stands for.
pub fn words_of(alloc: Global, text: &str) -> Result<Option<Vec<String>>, AllocError> {
    let mut words = Vec::new(alloc);
    for part in text.split('\t') {
        let Some(word) = word_of(alloc, part)? else {
            return Ok(None);
        };
        words.push(word)?;
    }
    Ok(Some(words))
}

/// The coefficient file of a name and a text.
pub fn file_of(alloc: Global, text: &str) -> Result<Option<File>, AllocError> {
    let Some((name, text)) = text.split_once('\t') else {
        return Ok(None);
    };
    let Some(name) = word_of(alloc, name)? else {
        return Ok(None);
    };
    let Some(bytes) = bytes_of(alloc, text)? else {
        return Ok(None);
    };
    Ok(Some(File { name, bytes }))
}

/// The kind of a name.
fn kind_of(word: &str) -> Option<Kind> {
    match word {
        "wav" => Some(Kind::Wav),
        "au" => Some(Kind::Au),
        _ => None,
    }
}

/// The bits of a number.
fn bits_of(word: &str) -> Option<Bits> {
    match word {
        "8" => Some(Bits::Eight),
        "16" => Some(Bits::Sixteen),
        "24" => Some(Bits::TwentyFour),
        "32" => Some(Bits::ThirtyTwo),
        _ => None,
    }
}

/// The head of a text.
pub fn head_of(text: &str) -> Option<Head> {
    let (kind, text) = text.split_once('\t')?;
    let (rate, text) = text.split_once('\t')?;
    let (channels, bits) = text.split_once('\t')?;
    let kind = kind_of(kind)?;
    let rate = rate.parse::<u32>().ok()?;
    let channels = channels.parse::<usize>().ok()?;
    if rate == 0 || channels == 0 || channels > 16 {
        return None;
    }
    Some(Head {
        kind,
        rate,
        channels,
        coding: bits_of(bits)?.coding(kind),
        announced: None,
    })
}
