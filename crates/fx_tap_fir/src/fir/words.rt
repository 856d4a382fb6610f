//! The words of `fir`: the name of a coefficient file, or coefficients.

ghost use Rattle.std.specs.Prelude.{◌≡◌, ◌<◌, ◌≤◌, IfOk, length};
ghost use Rattle.fx_plan_words.specs.Faults.{ReadsWords, word_texts};
ghost use Rattle.fx_tap_fir.specs.FirWords.{ReadsCoefficients, coefficient_faults, file_faults, gains_of, in_file};

use fx_fixed::inner::MAX_COEFFICIENTS;
use fx_fixed::{CoefFault, Coefficients, Gain};
use fx_plan_words::{PlanCause, WordsRefusal, marked, read_gain};
use std::alloc::Global;

/// The coefficients that the words are.
fn read_each(alloc: Global, words: &[String]) -> Result<Vec<Gain>, WordsRefusal>
    requires { length words.now < 1025 }
    ensures read { ReadsWords (λ v. v.items) result (coefficient_faults 2 (word_texts words.now)) (gains_of (word_texts words.now)) }
    ensures count { IfOk result (λ v. length v.items ≡ length words.now) }
{
    let mut gains = Vec::new(alloc);
    let mut rest = words;
    let mut number = 2;
    while let Some((word, more)) = rest.split_first() {
        let gain = match read_gain(word) {
            Ok(gain) => gain,
            Err(cause) => return Err(marked(cause, number)),
        };
        if gains.push(gain).is_err() {
            return Err(WordsRefusal::Memory);
        }
        rest = more;
        number += 1;
    }
    Ok(gains)
}

/// The coefficients in a file.
fn read_file(alloc: Global, file: &[u8]) -> Result<Vec<Gain>, WordsRefusal>
    ensures read { ReadsWords (λ v. v.items) result (file_faults file.now) (in_file file.now) }
    ensures some { IfOk result (λ v. 1 ≤ length v.items) }
    ensures maximum { IfOk result (λ v. length v.items ≤ 1024) }
{
    match Coefficients::parse(alloc, file) {
        Ok(gains) => Ok(gains),
        Err(CoefFault::BadCoefficients) => Err(marked(PlanCause::BadCoefficients, 2)),
        Err(CoefFault::Memory) => Err(WordsRefusal::Memory),
    }
}

/// The coefficients of a `fir` with these words after its name, of which a single one names this file.
#[tactic(auto, unfolding(crate::specs::FirWords::fir_faults))]
pub fn read_fir(alloc: Global, file: &[u8], words: &[String]) -> Result<Vec<Gain>, WordsRefusal>
    ensures read { ReadsCoefficients (λ v. v.items) result file.now (word_texts words.now) }
    ensures some { IfOk result (λ v. 1 ≤ length v.items) }
    ensures maximum { IfOk result (λ v. length v.items ≤ 1024) }
{
    if words.len() > MAX_COEFFICIENTS {
        return Err(marked(PlanCause::WrongCount, MAX_COEFFICIENTS + 2));
    }
    let Some((word, more)) = words.split_first() else {
        return Err(marked(PlanCause::NotInProfile, 1));
    };
    if !more.is_empty() {
        return read_each(alloc, words);
    }
    if word.as_str() == "-" {
        return Err(marked(PlanCause::NotInProfile, 2));
    }
    read_file(alloc, file)
}
