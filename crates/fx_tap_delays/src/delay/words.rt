//! The words of `delay`: positions, one for each of the first channels.

ghost use Rattle.std.specs.Prelude.{◌≡◌, ◌<◌, ◌≤◌, IfOk, length};
ghost use Rattle.fx_tap_delays.specs.DelayWords.{delay_word_at, delay_faults, delays, each_faults};
ghost use Rattle.fx_tap_delays.specs.Texts.{ReadsTexts};

use fx_fixed::{Anchor, At};
use fx_plan_words::{PlanCause, WordsRefusal, marked, read_position};
use smallvec::SmallVec;
use std::alloc::Global;

/// Delays in frames: up to four are stored in the value itself, more on the heap.
pub type DelayList = SmallVec<u64, 4>;

/// The delay that a word is, after one of `previous` frames.
fn read_place(rate: u32, previous: u64, word: &str) -> Result<u64, PlanCause>
    requires { 0 < rate }
    ensures { result ≡ delay_word_at rate previous word.now }
{
    match read_position(rate, Anchor::Start, At::Start(previous), word)? {
        At::Start(frames) => Ok(frames),
        At::End(_) => Err(PlanCause::NeedsWholeSound),
    }
}

/// The delays that the words are.
fn read_delays(alloc: Global, rate: u32, words: &[String]) -> Result<DelayList, WordsRefusal>
    requires rate { 0 < rate }
    requires bound { length words.now < 17 }
    ensures read { ReadsTexts (λ v. v.items) result (each_faults rate 2 0) (delays rate 0) words.now }
    ensures count { IfOk result (λ v. length v.items ≡ length words.now) }
{
    let mut frames = SmallVec::new(alloc);
    let mut rest = words;
    let mut number = 2;
    let mut previous = 0;
    while let Some((word, more)) = rest.split_first() {
        let delay = match read_place(rate, previous, word) {
            Ok(delay) => delay,
            Err(cause) => return Err(marked(cause, number)),
        };
        if frames.push(delay).is_err() {
            return Err(WordsRefusal::Memory);
        }
        previous = delay;
        rest = more;
        number += 1;
    }
    Ok(frames)
}

/// The delays in frames of a `delay` with these words after its name, at `channels` channels.
#[tactic(auto, unfolding(crate::specs::DelayWords::delay_faults))]
pub fn read_delay_words(
    alloc: Global,
    rate: u32,
    channels: usize,
    words: &[String],
) -> Result<DelayList, WordsRefusal>
    requires rate { 0 < rate }
    requires channels { channels ≤ 16 }
    ensures read { ReadsTexts (λ v. v.items) result (delay_faults rate channels) (delays rate 0) words.now }
    ensures count { IfOk result (λ v. length v.items ≤ channels) }
{
    if words.is_empty() {
        return Err(marked(PlanCause::WrongCount, 1));
    }
    if words.len() > channels {
        return Err(marked(PlanCause::NoSuchChannel, channels + 2));
    }
    read_delays(alloc, rate, words)
}
