//! The word of `upsample` and of `downsample`: a factor.

ghost use Rattle.std.specs.Prelude.{◌≡◌, ◌<◌, ◌≤◌, ◌*◌, ◌^◌, IfOk};
ghost use Rattle.fx_plan_words.specs.Faults.{Finds, word_texts};
ghost use Rattle.fx_cut.specs.FactorWords;
ghost use Rattle.fx_cut.specs.FactorWords.{downsample_faults, factor_in, factor_of, upsample_faults, usable};

use fx_plan_words::{Mark, PlanCause, at_word, capped_number};

/// The maximum factor.
const MAX_FACTOR_WORD: u32 = 256;

/// The factor where the words name none.
const DEFAULT_FACTOR: u32 = 2;

/// The factor that a word is.
fn read_factor(word: &str) -> Result<u32, PlanCause>
    ensures value { result ≡ factor_in word.now }
    ensures range { IfOk result (λ factor. (1 ≤ factor) × (factor ≤ 256)) }
{
    let Some(factor) = capped_number(word.as_bytes()) else {
        return Err(PlanCause::BadArgument);
    };
    if factor == 0 || factor > MAX_FACTOR_WORD {
        return Err(PlanCause::OutOfRange);
    }
    Ok(factor)
}

/// The factor that the words name or leave out, and the number of the word to blame for it.
fn read_factor_word(words: &[String]) -> Result<(u32, usize), Mark>
    ensures read { let texts = word_texts words.now in
        Finds result (FactorWords.word_faults texts) (usable (factor_of texts), FactorWords.factor_word texts) }
    ensures range { IfOk result (λ found. (1 ≤ found.0) × (found.0 ≤ 256)) }
{
    let Some((word, more)) = words.split_first() else {
        return Ok((DEFAULT_FACTOR, 1));
    };
    if !more.is_empty() {
        return Err(at_word(PlanCause::WrongCount, 3));
    }
    match read_factor(word) {
        Ok(factor) => Ok((factor, 2)),
        Err(cause) => Err(at_word(cause, 2)),
    }
}

/// The factor of an `upsample` with these words after its name.
#[tactic(auto, unfolding(crate::specs::FactorWords::upsample_faults))]
pub fn read_upsample(rate: u32, words: &[String]) -> Result<u32, Mark>
    ensures read { let texts = word_texts words.now in
        Finds result (upsample_faults rate texts) (usable (factor_of texts)) }
    ensures range { IfOk result (λ factor. (1 ≤ factor) × (factor ≤ 256) × (rate * factor < 2 ^ 32)) }
{
    let (factor, number) = read_factor_word(words)?;
    if u64::from(rate) * u64::from(factor) > u64::from(u32::MAX) {
        return Err(at_word(PlanCause::RateTooLarge, number));
    }
    Ok(factor)
}

/// The factor of a `downsample` with these words after its name.
#[tactic(auto, unfolding(crate::specs::FactorWords::downsample_faults))]
pub fn read_downsample(rate: u32, words: &[String]) -> Result<u32, Mark>
    requires { 0 < rate }
    ensures read { let texts = word_texts words.now in
        Finds result (downsample_faults rate texts) (usable (factor_of texts)) }
    ensures range { IfOk result (λ factor. (1 ≤ factor) × (factor ≤ 256) × (factor ≤ rate)) }
{
    let (factor, number) = read_factor_word(words)?;
    if rate % factor != 0 {
        return Err(at_word(PlanCause::RateNotDivisible, number));
    }
    Ok(factor)
}
