//! The words of `echo` and `echos`: two gains, and pairs of a delay and a decay.

ghost use Rattle.std.specs.Prelude.{◌≡◌, ◌<◌, ◌≤◌, IfOk, length, true};
ghost use Rattle.fx_tap_delays.specs.EchoWords.{are_taps, echo_faults, echo_value, echoing, tap_faults, taps, echo_word_faults};
ghost use Rattle.fx_tap_delays.specs.Texts.{ReadsTexts};

use fx_fixed::Gain;
use fx_plan_words::{PlanCause, WordsRefusal, marked, read_delay, read_gain_up_to};
use smallvec::SmallVec;
use std::alloc::Global;

/// The maximum number of words after the name: two gains and seven pairs.
const MAX_WORDS: usize = 16;

/// The greatest gain of the output.
const MAX_GAIN_OUT: u32 = 1000;

/// Delays in frames, each with its decay: up to four are stored in the value itself, more on the heap.
pub type TapList = SmallVec<(u64, Gain), 4>;

/// What an `echo` or `echos` does.
#[derive(Debug, Drop, PartialEq, Eq)]
pub struct Echoing {
    /// The gain of the input.
    pub gain_in: Gain,
    /// The gain of the output.
    pub gain_out: Gain,
    /// The delays in frames, each with its decay.
    pub taps: TapList,
}

/// The pairs that the words are.
fn read_taps(alloc: Global, rate: u32, words: &[String]) -> Result<TapList, WordsRefusal>
    requires rate { 0 < rate }
    requires bound { length words.now < 17 }
    ensures { ReadsTexts (λ v. v.items) result (tap_faults rate 4) (taps rate) words.now }
{
    let mut pairs = SmallVec::new(alloc);
    let mut rest = words;
    let mut number = 4;
    while let Some((delay, more)) = rest.split_first() {
        let Some((decay, more)) = more.split_first() else {
            return Ok(pairs);
        };
        let frames = match read_delay(rate, delay) {
            Ok(frames) => frames,
            Err(cause) => return Err(marked(cause, number)),
        };
        let gain = match read_gain_up_to(1, decay) {
            Ok(gain) => gain,
            Err(cause) => return Err(marked(cause, number + 1)),
        };
        if pairs.push((frames, gain)).is_err() {
            return Err(WordsRefusal::Memory);
        }
        rest = more;
        number += 2;
    }
    Ok(pairs)
}

/// What an `echo` or `echos` with these words after its name does.
fn read_words(alloc: Global, rate: u32, words: &[String]) -> Result<Echoing, WordsRefusal>
    requires rate { 0 < rate }
    requires bound { length words.now < 17 }
    requires enough { 4 ≤ length words.now }
    ensures { ReadsTexts echo_value result (echo_word_faults rate) (echoing rate) words.now }
{
    let [first, second, pairs @ ..] = words else {
        unreachable!()
    };
    let gain_in = match read_gain_up_to(1, first) {
        Ok(gain) => gain,
        Err(cause) => return Err(marked(cause, 2)),
    };
    let gain_out = match read_gain_up_to(MAX_GAIN_OUT, second) {
        Ok(gain) => gain,
        Err(cause) => return Err(marked(cause, 3)),
    };
    let taps = read_taps(alloc, rate, pairs)?;
    Ok(Echoing {
        gain_in,
        gain_out,
        taps,
    })
}

/// What an `echo` or `echos` with these words after its name does.
#[tactic(auto, unfolding(crate::specs::EchoWords::echo_faults))]
pub fn read_echo(alloc: Global, rate: u32, words: &[String]) -> Result<Echoing, WordsRefusal>
    requires { 0 < rate }
    ensures read { ReadsTexts echo_value result (echo_faults rate) (echoing rate) words.now }
    ensures fit { IfOk result (λ echo. are_taps (echo_value echo) ≡ true) }
{
    if words.len() > MAX_WORDS {
        return Err(marked(PlanCause::WrongCount, MAX_WORDS + 2));
    }
    if words.len() < 4 || words.len() % 2 != 0 {
        return Err(marked(PlanCause::WrongCount, 1));
    }
    read_words(alloc, rate, words)
}
