//! The word of `dcshift`: a shift.

ghost use Rattle.std.specs.Prelude.{◌≡◌, ◌*◌, ◌≤◌, IfOk, unsigned_abs};
ghost use Rattle.fx_plan_words.specs.Faults.{Finds, word_texts};
ghost use Rattle.fx_tap_pointwise.specs.DcShiftWords.{shift_in, shift_faults, shift_gain};

use fx_fixed::{Gain, UNIT};
use fx_plan_words::{Mark, PlanCause, at_word, read_gain};

/// The shift from -2 to 2 that a word is.
#[tactic(auto, unfolding(crate::specs::DcShiftWords::shift_in))]
fn read_shift(word: &str) -> Result<Gain, PlanCause>
    ensures value { result ≡ shift_in word.now }
    ensures range { IfOk result (λ shift. unsigned_abs shift ≤ 2 * UNIT) }
{
    let shift = read_gain(word)?;
    if shift.trillionths().unsigned_abs() > 2 * UNIT {
        return Err(PlanCause::OutOfRange);
    }
    Ok(shift)
}

/// The shift of a `dcshift` with these words after its name.
#[tactic(auto, unfolding(crate::specs::DcShiftWords::shift_faults))]
pub fn read_dcshift(words: &[String]) -> Result<Gain, Mark>
    ensures read { Finds result (shift_faults (word_texts words.now)) (shift_gain (word_texts words.now)) }
    ensures range { IfOk result (λ shift. unsigned_abs shift ≤ 2 * UNIT) }
{
    let Some((word, more)) = words.split_first() else {
        return Err(at_word(PlanCause::WrongCount, 1));
    };
    if more.len() > 1 {
        return Err(at_word(PlanCause::WrongCount, 4));
    }
    let shift = match read_shift(word) {
        Ok(shift) => shift,
        Err(cause) => return Err(at_word(cause, 2)),
    };
    if !more.is_empty() {
        return Err(at_word(PlanCause::NotInProfile, 3));
    }
    Ok(shift)
}
