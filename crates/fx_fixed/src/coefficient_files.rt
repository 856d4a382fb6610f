//! Coefficient files.

ghost use Rattle.std.specs.Prelude.{◌≡◌, ◌<◌, ◌≤◌, ◌&&◌, ◌||◌, not, ◌∷◌, [], IfOk, IfSome, MatchOption, Some, None, Err, false, drop, length, take};
ghost use Rattle.std.specs.List.{list_any};
ghost use Rattle.fx_fixed.specs.CoefficientFiles;
ghost use Rattle.fx_fixed.specs.CoefficientFiles.{coefficients_of, is_feed, is_hash, words_of};
ghost use Rattle.fx_fixed.specs.Words;
ghost use Rattle.fx_fixed.specs.Words.{BeginsBreak, BeginsWord};

use crate::gains::Gain;
use std::alloc::Global;
use thiserror::Error;

/// The maximum number of bytes of a coefficient file.
const FILE_BYTES: usize = 1 << 20;

/// The greatest number of coefficients.
pub const MAX_COEFFICIENTS: usize = 1024;

/// Why there are no coefficients.
#[derive(Clone, Copy, Debug, Drop, Eq, Error, PartialEq)]
pub enum CoefFault {
    #[error("not a list of coefficients")]
    BadCoefficients = 1,
    #[error("no memory for the coefficients")]
    Memory = 2,
}

/// Whether a byte is a space, tab, line feed, vertical tab, form feed or carriage return.
fn is_white(byte: u8) -> bool
    ensures { result ≡ CoefficientFiles.is_white byte }
{
    byte == b' ' || (byte > 8 && byte < 14)
}

/// Whether a byte ends a word: white space, or what begins a comment.
fn is_break(byte: u8) -> bool
    ensures { result ≡ Words.is_break byte }
{
    is_white(byte) || byte == b'#'
}

/// Whether a byte belongs to no word, in a comment or not.
fn is_skipped(in_comment: bool, byte: u8) -> bool
    ensures { result ≡ (in_comment || Words.is_break byte) }
{
    in_comment || is_break(byte)
}

/// Whether what follows a byte belongs to a comment.
fn is_commented(in_comment: bool, byte: u8) -> bool
    ensures { result ≡ (not (is_feed byte) && (in_comment || is_hash byte)) }
{
    byte != b'\n' && (in_comment || byte == b'#')
}

/// Where the first word of a text begins; the text's length where there is none.
fn word_start(text: &[u8]) -> usize
    ensures within { result ≤ length text.now }
    ensures same { words_of (drop result text.now) ≡ words_of text.now }
    ensures begins { BeginsWord (drop result text.now) }
{
    let mut in_comment = false;
    for (i, byte) in text.iter().enumerate() {
        if !is_skipped(in_comment, *byte) {
            return i;
        }
        in_comment = is_commented(in_comment, *byte);
    }
    text.len()
}

/// Where the word at the front of a text ends.
fn word_end(text: &[u8]) -> usize
    ensures within { result ≤ length text.now }
    ensures word { list_any Words.is_break (take result text.now) ≡ false }
    ensures ends { BeginsBreak (drop result text.now) }
{
    for (i, byte) in text.iter().enumerate() {
        if is_break(*byte) {
            return i;
        }
    }
    text.len()
}

/// The first word of a text, and what follows it.
fn next_word(text: &[u8]) -> Option<(&[u8], &[u8])>
    ensures words { MatchOption result (words_of text.now ≡ [])
        (λ next. words_of text.now ≡ next.0.now ∷ words_of next.1.now) }
    ensures shorter { IfSome result (λ next. length next.1.now < length text.now) }
{
    let start = word_start(text);
    if start == text.len() {
        return None;
    }
    let rest = &text[start..];
    let end = word_end(rest);
    Some((&rest[..end], &rest[end..]))
}

/// The numbers of a coefficient file.
pub struct Coefficients;

impl Coefficients {
    /// The gains that a file lists: 1 to 1024 numbers as `Gain::parse` reads them, between white
    /// space (space, tab, line feed, vertical tab, form feed, carriage return) and comments from
    /// `#` to a line feed.
    ///
    /// `BadCoefficients` where the file has over `2^20` bytes, no number, over 1024 numbers or a word
    /// that is none; `Memory` where an allocation for the list was refused.
    pub fn parse(alloc: Global, bytes: &[u8]) -> Result<Vec<Gain>, CoefFault>
        ensures accepted { IfOk result (λ gains. coefficients_of bytes.now ≡ Some gains.items) }
        ensures refused { result ≡ Err CoefFault.BadCoefficients → coefficients_of bytes.now ≡ None }
    {
        if bytes.len() > FILE_BYTES {
            return Err(CoefFault::BadCoefficients);
        }
        let mut gains = Vec::new(alloc);
        let mut rest = bytes;
        while let Some((word, after)) = next_word(rest) {
            let Ok(gain) = Gain::parse_bytes(word) else {
                return Err(CoefFault::BadCoefficients);
            };
            if gains.len() == MAX_COEFFICIENTS {
                return Err(CoefFault::BadCoefficients);
            }
            gains.push(gain).map_err(|_| CoefFault::Memory)?;
            rest = after;
        }
        if gains.is_empty() {
            return Err(CoefFault::BadCoefficients);
        }
        Ok(gains)
    }
}
