//! The words of `vol`: a gain, and optionally `amplitude`.

ghost use Rattle.std.specs.Prelude.{◌≡◌};
ghost use Rattle.fx_plan_words.specs.Faults.{Finds, word_texts};
ghost use Rattle.fx_tap_pointwise.specs.VolWords;
ghost use Rattle.fx_tap_pointwise.specs.VolWords.{type_faults, vol_faults, vol_gain};

use fx_fixed::Gain;
use fx_plan_words::{Mark, PlanCause, at_word, read_gain};

/// Whether a gain ends with a type that is not supported.
#[tactic(auto, using(std::proofs::lemmas::Str::Pattern::ends_text), unfolding(crate::specs::VolWords::has_unsupported_suffix))]
fn has_unsupported_suffix(word: &str) -> bool
    ensures { result ≡ VolWords.has_unsupported_suffix word.now }
{
    word.ends_with("dB") || word.ends_with("power")
}

/// Refuses all words after the gain but `amplitude`.
#[tactic(auto, unfolding(crate::specs::VolWords::type_faults))]
fn check_type(words: &[String]) -> Result<(), Mark>
    ensures { Finds result (type_faults (word_texts words.now)) tt }
{
    let Some((word, more)) = words.split_first() else {
        return Ok(());
    };
    if word.as_str() == "power" || word.as_str() == "dB" {
        return Err(at_word(PlanCause::NotInProfile, 3));
    }
    if word.as_str() != "amplitude" {
        return Err(at_word(PlanCause::BadArgument, 3));
    }
    if !more.is_empty() {
        return Err(at_word(PlanCause::NotInProfile, 4));
    }
    Ok(())
}

/// The gain of a `vol` with these words after its name.
#[tactic(auto, unfolding(crate::specs::VolWords::vol_faults))]
pub fn read_vol(words: &[String]) -> Result<Gain, Mark>
    ensures { Finds result (vol_faults (word_texts words.now)) (vol_gain (word_texts words.now)) }
{
    let Some((word, more)) = words.split_first() else {
        return Err(at_word(PlanCause::WrongCount, 1));
    };
    if more.len() > 2 {
        return Err(at_word(PlanCause::WrongCount, 5));
    }
    if has_unsupported_suffix(word) {
        return Err(at_word(PlanCause::NotInProfile, 2));
    }
    let gain = match read_gain(word) {
        Ok(gain) => gain,
        Err(cause) => return Err(at_word(cause, 2)),
    };
    check_type(more)?;
    Ok(gain)
}
