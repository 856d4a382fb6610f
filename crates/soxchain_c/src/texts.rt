//! Words and files that C passes as bytes and ends.
ghost use Rattle.std.specs.Prelude.{◌≡◌, Err, IfOk, OnOk};
ghost use Rattle.fx_plan.specs.Line.{texts};
ghost use Rattle.fx_plan.specs.Plans.{plan_bytes};
ghost use Rattle.soxchain_c.specs.Texts.{AreEnds, AreTexts, FindsBadEnd, FindsEnds, FindsNoText, FindsTexts, cut};

use std::alloc::Global;
use std::str;
use thiserror::Error;

/// Why words or files are not passed correctly.
#[derive(Clone, Copy, Debug, Drop, PartialEq, Eq, Error)]
pub enum TextFault {
    /// An end lies before the one before it, or after the end of the bytes.
    #[error("the ends are not in order or not in the bytes")]
    BadEnds = 1,
    /// A word is not UTF-8.
    #[error("a word is not UTF-8")]
    NotText = 2,
    /// No memory was found.
    #[error("out of memory")]
    Memory = 3,
}

/// The words that lie in bytes one after the other, each up to its end; or the first fault.
#[tactic(auto, using(crate::proofs::FirstPieces::first_pieces))]
pub fn read_words(alloc: Global, bytes: &[u8], ends: &[usize]) -> Result<Vec<String>, TextFault>
    ensures words { IfOk result (λ words. texts words.items ≡ cut bytes.now 0 ends.now) }
    ensures ends { OnOk result (AreEnds bytes.now 0 ends.now) }
    ensures texts { OnOk result (AreTexts (cut bytes.now 0 ends.now)) }
    ensures bad_ends { result ≡ Err TextFault.BadEnds → FindsBadEnd bytes.now 0 ends.now }
    ensures not_text { result ≡ Err TextFault.NotText → FindsNoText bytes.now 0 ends.now }
    ensures memory { result ≡ Err TextFault.Memory → FindsTexts bytes.now 0 ends.now }
{
    let mut words = Vec::new(alloc);
    let mut start = 0;
    let mut rest = ends;
    while let Some((end, more)) = rest.split_first() {
        if *end < start || bytes.len() < *end {
            return Err(TextFault::BadEnds);
        }
        let Ok(text) = str::from_utf8(&bytes[start..*end]) else {
            return Err(TextFault::NotText);
        };
        let Ok(word) = String::from_str(alloc, text) else {
            return Err(TextFault::Memory);
        };
        let Ok(()) = words.push(word) else {
            return Err(TextFault::Memory);
        };
        start = *end;
        rest = more;
    }
    Ok(words)
}

/// The files that lie in bytes one after the other, each up to its end; or the first fault.
#[tactic(auto, using(crate::proofs::FirstPieces::first_pieces))]
pub fn read_files(alloc: Global, bytes: &[u8], ends: &[usize]) -> Result<Vec<Vec<u8>>, TextFault>
    ensures files { IfOk result (λ files. plan_bytes files.items ≡ cut bytes.now 0 ends.now) }
    ensures ends { OnOk result (AreEnds bytes.now 0 ends.now) }
    ensures bad_ends { result ≡ Err TextFault.BadEnds → AreEnds bytes.now 0 ends.now → ⊥ }
    ensures text { result ≡ Err TextFault.NotText → ⊥ }
    ensures memory { result ≡ Err TextFault.Memory → FindsEnds bytes.now 0 ends.now }
{
    let mut files = Vec::new(alloc);
    let mut start = 0;
    let mut rest = ends;
    while let Some((end, more)) = rest.split_first() {
        if *end < start || bytes.len() < *end {
            return Err(TextFault::BadEnds);
        }
        let Ok(file) = Vec::from_slice(alloc, &bytes[start..*end]) else {
            return Err(TextFault::Memory);
        };
        let Ok(()) = files.push(file) else {
            return Err(TextFault::Memory);
        };
        start = *end;
        rest = more;
    }
    Ok(files)
}
