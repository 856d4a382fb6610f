//! The words of `trim`: positions.

ghost use Rattle.std.specs.Prelude.{◌≡◌, ◌<◌, IfOk, length};
ghost use Rattle.fx_plan_words.specs.Faults.{Finds, ReadsWords, word_texts};
ghost use Rattle.fx_plan_words.specs.Numbers.{beginning};
ghost use Rattle.fx_cut.specs.TrimWords;
ghost use Rattle.fx_cut.specs.TrimWords.{order_faults, place_faults, places, trim_faults};

use fx_fixed::{Anchor, At};
use fx_plan_words::{Mark, PlanCause, WordsRefusal, at_word, marked, read_position};
use smallvec::SmallVec;
use std::alloc::Global;

/// The maximum number of positions of a `trim`, and the maximum number of lengths of a `pad`.
pub(crate) const MAX_POSITIONS: usize = 64;

/// Positions: up to four are stored in the value itself, more on the heap.
pub type Positions = SmallVec<At, 4>;

/// The positions that the words are, each counted from the one before it unless its sign says otherwise.
fn read_places(alloc: Global, rate: u32, words: &[String]) -> Result<Positions, WordsRefusal>
    requires rate { 0 < rate }
    requires bound { length words.now < 65 }
    ensures read { let texts = word_texts words.now in
        ReadsWords (λ v. v.items) result (place_faults rate 2 beginning texts) (places rate beginning texts) }
    ensures length { IfOk result (λ v. length v.items ≡ length words.now) }
{
    let mut positions = SmallVec::new(alloc);
    let mut rest = words;
    let mut number = 2;
    let mut previous = At::Start(0);
    while let Some((word, more)) = rest.split_first() {
        let position = match read_position(rate, Anchor::Previous, previous, word) {
            Ok(position) => position,
            Err(cause) => return Err(marked(cause, number)),
        };
        if positions.push(position).is_err() {
            return Err(WordsRefusal::Memory);
        }
        previous = position;
        rest = more;
        number += 1;
    }
    Ok(positions)
}

/// Whether a position lies before the previous one, both of one anchor.
pub(crate) fn is_passed(front: At, next: At) -> bool
    ensures { result ≡ TrimWords.is_passed front next }
{
    match (front, next) {
        (At::Start(first), At::Start(second)) => second < first,
        (At::End(first), At::End(second)) => first < second,
        _ => false,
    }
}

/// Refuses the first position that is out of order.
#[tactic(auto, using(crate::proofs::TrimWords::orders))]
fn check_order(positions: &[At]) -> Result<(), Mark>
    requires { length positions.now < 2000 }
    ensures { Finds result (order_faults 3 positions.now) tt }
{
    let mut rest = positions;
    let mut number = 3;
    while let [front, next, ..] = rest {
        if is_passed(*front, *next) {
            return Err(at_word(PlanCause::PositionBehind, number));
        }
        rest = &rest[1..];
        number += 1;
    }
    Ok(())
}

/// The positions of a `trim` with these words after its name.
#[tactic(auto, unfolding(crate::specs::TrimWords::trim_faults))]
pub fn read_trim(alloc: Global, rate: u32, words: &[String]) -> Result<Positions, WordsRefusal>
    requires { 0 < rate }
    ensures { let texts = word_texts words.now in
        ReadsWords (λ v. v.items) result (trim_faults rate texts) (places rate beginning texts) }
{
    if words.is_empty() {
        return Err(marked(PlanCause::WrongCount, 1));
    }
    if words.len() > MAX_POSITIONS {
        return Err(marked(PlanCause::WrongCount, MAX_POSITIONS + 2));
    }
    let positions = read_places(alloc, rate, words)?;
    check_order(&positions)?;
    Ok(positions)
}
