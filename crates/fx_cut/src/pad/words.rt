//! The words of `pad`: lengths, each with a position or without one.

ghost use Rattle.std.specs.Prelude.{◌≡◌, ◌<◌, IfOk, length, map, true};
ghost use Rattle.fx_plan_words.specs.Faults.{Finds, ReadsWords, word_texts};
ghost use Rattle.fx_plan_words.specs.Numbers.{beginning};
ghost use Rattle.fx_cut.specs.PadWords.{are_pads, length_faults, word_lengths, pad_faults, pad_in, position_at};
ghost use Rattle.fx_cut.specs.TrimWords.{order_faults};

use crate::trim::words::{MAX_POSITIONS, is_passed};
use fx_fixed::{Anchor, At};
use fx_plan_words::{Mark, PlanCause, WordsRefusal, at_word, marked, read_frames, read_position};
use smallvec::SmallVec;
use std::alloc::Global;

/// Lengths of silence, each with its position: up to four are stored in the value itself, more on the heap.
pub type PadList = SmallVec<(u64, At), 4>;

/// The length and the position that a word is.
fn read_length(
    rate: u32,
    previous: At,
    is_first: bool,
    is_last: bool,
    word: &str,
) -> Result<(u64, At), PlanCause>
    requires { 0 < rate }
    ensures { result ≡ pad_in rate previous is_first is_last word.now }
{
    if let Some((length, position)) = word.split_once('@') {
        let frames = read_frames(rate, length)?;
        let at = read_position(rate, Anchor::Start, previous, position)?;
        return Ok((frames, at));
    }
    if is_first {
        return Ok((read_frames(rate, word)?, At::Start(0)));
    }
    if is_last {
        return Ok((read_frames(rate, word)?, At::End(0)));
    }
    Err(PlanCause::BadArgument)
}

/// The lengths and positions that the words are.
fn read_lengths(alloc: Global, rate: u32, words: &[String]) -> Result<PadList, WordsRefusal>
    requires rate { 0 < rate }
    requires bound { length words.now < 65 }
    ensures read { let texts = word_texts words.now in
        ReadsWords (λ v. v.items) result (length_faults rate 2 beginning texts) (word_lengths rate 2 beginning texts) }
    ensures length { IfOk result (λ v. length v.items ≡ length words.now) }
{
    let mut pads = SmallVec::new(alloc);
    let mut rest = words;
    let mut number = 2;
    let mut previous = At::Start(0);
    while let Some((word, more)) = rest.split_first() {
        let pad = match read_length(rate, previous, number == 2, more.is_empty(), word) {
            Ok(pad) => pad,
            Err(cause) => return Err(marked(cause, number)),
        };
        if pads.push(pad).is_err() {
            return Err(WordsRefusal::Memory);
        }
        previous = pad.1;
        rest = more;
        number += 1;
    }
    Ok(pads)
}

/// Refuses the first position that is out of order.
#[tactic(auto, using(crate::proofs::PadWords::pad_orders))]
fn check_order(pads: &[(u64, At)]) -> Result<(), Mark>
    requires { length pads.now < 2000 }
    ensures { Finds result (order_faults 3 (map position_at pads.now)) tt }
{
    let mut rest = pads;
    let mut number = 3;
    while let [front, next, ..] = rest {
        if is_passed(front.1, next.1) {
            return Err(at_word(PlanCause::PositionBehind, number));
        }
        rest = &rest[1..];
        number += 1;
    }
    Ok(())
}

/// The lengths and positions of a `pad` with these words after its name.
#[tactic(auto, unfolding(crate::specs::PadWords::pad_faults))]
pub fn read_pad(alloc: Global, rate: u32, words: &[String]) -> Result<PadList, WordsRefusal>
    requires { 0 < rate }
    ensures read { let texts = word_texts words.now in
        ReadsWords (λ v. v.items) result (pad_faults rate texts) (word_lengths rate 2 beginning texts) }
    ensures fit { IfOk result (λ v. are_pads v.items ≡ true) }
{
    if words.is_empty() {
        return Err(marked(PlanCause::WrongCount, 1));
    }
    if words.len() > MAX_POSITIONS {
        return Err(marked(PlanCause::WrongCount, MAX_POSITIONS + 2));
    }
    let pads = read_lengths(alloc, rate, words)?;
    check_order(&pads)?;
    Ok(pads)
}
