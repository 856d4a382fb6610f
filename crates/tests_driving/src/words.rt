//! Plans of words.
ghost use Rattle.std.specs.Prelude.{◌≡◌, IfOk, IfSome};
ghost use Rattle.fx_plan.specs.Planning.{planning};

use fx_frame::Coding;
use fx_plan::{Plan, parse_line, plan};
use fx_sound::{Head, Kind};
use std::alloc::Global;

/// Each effect once.
pub const TWELVE_EFFECTS: &str =
    "trim -3s pad 1s 1s delay 1s echo 1 1 0.125 0.5 echos 1 1 0.125 0.5 0.125 0.5 fade t 1s -0 vol 1 dcshift 0 fir 0 1 0 remix 1 upsample 2 downsample 2";

/// Adds a word; false where memory is refused.
fn add_word(alloc: Global, words: &mut Vec<String>, word: &str) -> bool {
    match String::from_str(alloc, word) {
        Ok(word) => words.push(word).is_ok(),
        Err(_refused) => false,
    }
}

/// The words of a command line with these effects. None where memory is refused.
fn words_of(alloc: Global, effects: &str) -> Option<Vec<String>> {
    let mut words = Vec::new(alloc);
    for word in "- -t au -".split(' ').chain(effects.split_whitespace()) {
        if !add_word(alloc, &mut words, word) {
            return None;
        }
    }
    Some(words)
}

/// The plan of a command line after the head of an AU of 8000 frames a second, one channel and samples of 32 bits. None where
/// the words are refused, or memory.
fn planned(alloc: Global, words: &[String]) -> Option<Plan> {
    let Ok(line) = parse_line(alloc, words) else {
        return None;
    };
    let head = Head {
        kind: Kind::Au,
        rate: 8000,
        channels: 1,
        coding: Coding::S32Be,
        announced: None,
    };
    plan(alloc, &line, &head, &[]).ok()
}

/// A plan of one channel, where it is one.
fn of_one_channel(plan: Plan) -> Option<Plan>
    ensures mono { IfSome result (λ p. (planning p).head.channels ≡ 1) }
{
    if plan.head().channels == 1 {
        Some(plan)
    } else {
        None
    }
}

/// The plan of these effects after that head. None where the words are refused, or memory for the plan.
pub fn found_plan(alloc: Global, effects: &str) -> Option<Plan>
    ensures mono { IfSome result (λ p. (planning p).head.channels ≡ 1) }
{
    let words = words_of(alloc, effects)?;
    of_one_channel(planned(alloc, &words)?)
}

/// The same plan, where memory for it is found.
pub fn plan_of(alloc: Global, effects: &str) -> Result<Plan, &'static str>
    ensures mono { IfOk result (λ p. (planning p).head.channels ≡ 1) }
{
    match found_plan(alloc, effects) {
        Some(plan) => Ok(plan),
        None => Err("no plan of these effects"),
    }
}
