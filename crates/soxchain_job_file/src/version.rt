//! What a file begins with, by which its form and version show.
ghost use Rattle.std.specs.Prelude.{◌≡◌, ◌≢◌, ◌==◌, ◌↔◌, ◌++◌, ℕ, List, ◌<◌, ◌^◌, IsTrue, MatchOption, position};
ghost use Rattle.soxchain_job_file.specs.JobBytes.{first_line};
ghost use Rattle.soxchain_job_file.specs.Versions.{BeginAlike, BeginsWithNumeral, IsForeign, IsNumeralOf, IsOtherVersion};

use crate::fault::JobFileFault;

/// The version of this form.
pub const FORMAT_VERSION: u64 = 2;

/// What a file begins with.
pub const FIRST_LINE: &[u8] = b"soxchain-job 2\n";

/// What the version follows in a line of text.
const TEXT_START: &[u8] = b"soxchain-job ";

/// What it follows in format 1, which was JSON.
const JSON_START: &[u8] = b"{\"soxchain-job\":";

/// Whether these first bytes of a file begin one of this form: they begin with its line, or are the beginning of that, as a write that
/// was cut off leaves them.
pub fn begins_as_job_file(front: &[u8]) -> bool
    ensures { IsTrue result ↔ BeginAlike front.now first_line }
{
    front.starts_with(FIRST_LINE) || FIRST_LINE.starts_with(front)
}

/// The bytes after the line that a file begins with.
pub fn strip_first_line(bytes: &[u8]) -> Option<&[u8]>
    ensures { MatchOption result ((rest : List ℕ) → bytes.now ≡ first_line ++ rest → ⊥)
        (λ rest. bytes.now ≡ first_line ++ rest.now) }
{
    strip_start(bytes, FIRST_LINE)
}

/// The bytes after these first ones.
fn strip_start<'a>(bytes: &'a [u8], start: &[u8]) -> Option<&'a [u8]>
    ensures { MatchOption result ((rest : List ℕ) → bytes.now ≡ start.now ++ rest → ⊥)
        (λ rest. bytes.now ≡ start.now ++ rest.now) }
{
    bytes.strip_prefix(start)
}

/// Why bytes that do not begin as this form are not read.
pub fn fault_of(bytes: &[u8]) -> JobFileFault
    ensures foreign { (result ≡ JobFileFault.Foreign) ↔ IsForeign bytes.now }
    ensures version { (version : ℕ) →
        (result ≡ JobFileFault.Version version) ↔ IsOtherVersion bytes.now version }
    ensures memory { result ≢ JobFileFault.Memory }
{
    if let Some(rest) = strip_start(bytes, TEXT_START) {
        match leading_number(rest, b'\n') {
            Some(version) if version != FORMAT_VERSION => JobFileFault::Version(version),
            _ => JobFileFault::Damaged,
        }
    } else if let Some(rest) = strip_start(bytes, JSON_START) {
        match leading_number(rest, b',') {
            Some(version) => JobFileFault::Version(version),
            None => JobFileFault::Damaged,
        }
    } else {
        JobFileFault::Foreign
    }
}

/// The number before the first such byte, which is neither a digit nor a sign.
fn leading_number(bytes: &[u8], end: u8) -> Option<u64>
    requires no_digit { end < 48 }
    requires no_sign { end ≢ 43 }
    ensures { MatchOption result
        ((number : ℕ) → number < 2 ^ 64 → BeginsWithNumeral end bytes.now number → ⊥)
        (λ number. (number < 2 ^ 64) × BeginsWithNumeral end bytes.now number) }
{
    match position_of(bytes, end) {
        Some(size) => number_of(&bytes[..size]),
        None => None,
    }
}

/// Where the first such byte is.
fn position_of(bytes: &[u8], end: u8) -> Option<usize>
    ensures { result ≡ position (λ byte. byte == end) bytes.now }
{
    bytes.iter().position(|byte| *byte == end)
}

/// The number that these digits say.
fn number_of(digits: &[u8]) -> Option<u64>
    ensures { MatchOption result
        ((number : ℕ) → number < 2 ^ 64 → IsNumeralOf digits.now number → ⊥)
        (λ number. (number < 2 ^ 64) × IsNumeralOf digits.now number) }
{
    let Ok(text) = str::from_utf8(digits) else {
        return None;
    };
    text.parse::<u64>().ok()
}
