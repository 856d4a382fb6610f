//! The words of `remix`: out-specs, one for each channel of the output.

ghost use Rattle.std.specs.Prelude.{◌≡◌, ◌<◌, ◌≤◌, ◌+◌, ◌∷◌, [], IfOk, IfSome, MatchOption, length, true};
ghost use Rattle.std.specs.List.{list_all, list_any, slice_split};
ghost use Rattle.fx_plan_words.specs.Faults.{ReadsWords, word_texts};
ghost use Rattle.fx_tap_pointwise.specs.RemixWords;
ghost use Rattle.fx_tap_pointwise.specs.RemixWords.{contributions, faults_after, is_comma, is_mix, is_there, mixing_of, out_specs, part_faults, remix_faults, remixed, spec_fault, spec_faults, specs_value, summed, weighed_words, ReadsSpecs, spec_parts};
ghost use Rattle.fx_frame_base.specs.Frame.{IsChannelCount};

mod in_spec;

use crate::out_spec::{OutSpec, Weight};
use crate::remix::words::in_spec::{SumContribution, add_channels, read_in_spec};
use fx_plan_words::{PlanCause, WordsRefusal, marked};
use smallvec::SmallVec;
use std::alloc::{AllocError, Global};

/// The maximum number of out-specs.
const MAX_SPECS: usize = 16;

/// The maximum number of contributions of one out-spec.
const MAX_CONTRIBUTIONS: usize = 64;

/// The weight of a channel to which no gain is given.
#[derive(Clone, Copy, Debug, Drop, PartialEq, Eq)]
pub enum Mixing {
    /// No option: a share, unless a gain is given in the same out-spec.
    Usual,
    /// `-a`: a share.
    Automatic,
    /// `-m`: one.
    Manual,
    /// `-p`, which is not supported.
    Power,
}

/// The text before the first comma, and the text after it.
#[tactic(auto, using(crate::proofs::RemixParts::comma_parts))]
fn next_part(text: &str) -> Option<(&str, &str)>
    ensures parts { MatchOption result (slice_split is_comma text.now ≡ text.now ∷ [])
        (λ x. slice_split is_comma text.now ≡ x.0.now ∷ slice_split is_comma x.1.now) }
    ensures shorter { IfSome result (λ x. length x.1.now < length text.now) }
{
    text.split_once(',')
}

/// What the parts of an out-spec add to its sum; the out-spec's word has this number.
fn read_parts(
    alloc: Global,
    channels: u32,
    number: usize,
    word: &str,
) -> Result<Vec<SumContribution>, WordsRefusal>
    requires some { 1 ≤ channels }
    requires maximum { channels ≤ 16 }
    ensures read { ReadsWords (λ v. v.items) result (part_faults channels number (spec_parts word.now)) (contributions channels (spec_parts word.now)) }
    ensures there { IfOk result (λ v. list_all (is_there channels) v.items ≡ true) }
{
    let mut sum = Vec::new(alloc);
    let mut text = word;
    while let Some((part, rest)) = next_part(text) {
        let found = match read_in_spec(channels, part) {
            Ok(found) => found,
            Err(cause) => return Err(marked(cause, number)),
        };
        if add_channels(&mut sum, &found).is_err() {
            return Err(WordsRefusal::Memory);
        }
        text = rest;
    }
    let found = match read_in_spec(channels, text) {
        Ok(found) => found,
        Err(cause) => return Err(marked(cause, number)),
    };
    if add_channels(&mut sum, &found).is_err() {
        return Err(WordsRefusal::Memory);
    }
    Ok(sum)
}

/// The weight of a channel to which no gain is given.
fn default_weight(mixing: Mixing, beside_gain: bool) -> Weight
    ensures { result ≡ RemixWords.default_weight mixing beside_gain }
{
    match mixing {
        Mixing::Usual if beside_gain => Weight::One,
        Mixing::Manual => Weight::One,
        _ => Weight::Share,
    }
}

/// Whether a gain is given to a channel of a sum.
fn has_gain(sum: &[SumContribution]) -> bool
    ensures { result ≡ list_any RemixWords.has_gain sum.now }
{
    for contribution in sum {
        if contribution.gain.is_some() {
            return true;
        }
    }
    false
}

/// The channels of a sum, each with its weight.
fn weigh(alloc: Global, mixing: Mixing, sum: &[SumContribution]) -> Result<OutSpec, AllocError>
    ensures { IfOk result (λ spec. spec.items ≡ weighed_words mixing sum.now) }
{
    let default = default_weight(mixing, has_gain(sum));
    let mut spec = SmallVec::new(alloc);
    for contribution in sum {
        let weight = match contribution.gain {
            Some(gain) => Weight::Given(gain),
            None => default,
        };
        spec.push((contribution.channel, weight))?;
    }
    Ok(spec)
}

/// The out-spec that a word of this number is.
fn read_spec(
    alloc: Global,
    channels: u32,
    mixing: Mixing,
    number: usize,
    word: &str,
) -> Result<OutSpec, WordsRefusal>
    requires some { 1 ≤ channels }
    requires maximum { channels ≤ 16 }
    ensures read { ReadsWords (λ spec. spec.items) result (spec_fault channels number word.now) (weighed_words mixing (summed channels word.now)) }
    ensures fit { IfOk result (λ spec. is_mix channels spec.items ≡ true) }
{
    if word == "0" {
        return Ok(SmallVec::new(alloc));
    }
    let sum = read_parts(alloc, channels, number, word)?;
    if sum.len() > MAX_CONTRIBUTIONS {
        return Err(marked(PlanCause::OutOfRange, number));
    }
    match weigh(alloc, mixing, &sum) {
        Ok(spec) => Ok(spec),
        Err(_) => Err(WordsRefusal::Memory),
    }
}

/// The out-specs that the words are, the first of which has this number.
fn read_specs(
    alloc: Global,
    channels: u32,
    mixing: Mixing,
    first: usize,
    words: &[String],
) -> Result<Vec<OutSpec>, WordsRefusal>
    requires some { 1 ≤ channels }
    requires maximum { channels ≤ 16 }
    requires first { first < 10 }
    requires bound { length words.now < 17 }
    ensures read { ReadsSpecs result (spec_faults channels first) (out_specs channels mixing) words.now }
    ensures count { IfOk result (λ specs. length specs.items ≡ length words.now) }
    ensures fit { IfOk result (λ specs. list_all (is_mix channels) (specs_value specs) ≡ true) }
{
    let mut specs = Vec::new(alloc);
    let mut rest = words;
    let mut number = first;
    while let Some((word, more)) = rest.split_first() {
        let spec = read_spec(alloc, channels, mixing, number, word)?;
        if specs.push(spec).is_err() {
            return Err(WordsRefusal::Memory);
        }
        rest = more;
        number += 1;
    }
    Ok(specs)
}

/// The option that the words begin with.
fn read_option(words: &[String]) -> Mixing
    ensures { result ≡ mixing_of (word_texts words.now) }
{
    let Some((word, _)) = words.split_first() else {
        return Mixing::Usual;
    };
    match word.as_str() {
        "-a" => Mixing::Automatic,
        "-m" => Mixing::Manual,
        "-p" => Mixing::Power,
        _ => Mixing::Usual,
    }
}

/// The out-specs after `before` words after the name.
fn read_after(
    alloc: Global,
    channels: u32,
    mixing: Mixing,
    before: usize,
    words: &[String],
) -> Result<Vec<OutSpec>, WordsRefusal>
    requires some { 1 ≤ channels }
    requires maximum { channels ≤ 16 }
    requires before { before ≤ 1 }
    ensures read { ReadsSpecs result (faults_after channels before mixing) (out_specs channels mixing) words.now }
    ensures count { IfOk result (λ specs. IsChannelCount (length specs.items)) }
    ensures fit { IfOk result (λ specs. list_all (is_mix channels) (specs_value specs) ≡ true) }
{
    if words.is_empty() {
        return Err(marked(PlanCause::WrongCount, 1));
    }
    if words.len() > MAX_SPECS {
        return Err(marked(PlanCause::TooManyChannels, 18 + before));
    }
    if mixing == Mixing::Power {
        return Err(marked(PlanCause::NotInProfile, 2));
    }
    let specs = read_specs(alloc, channels, mixing, 2 + before, words)?;
    Ok(specs)
}

/// The out-specs of a `remix` with these words after its name, at `channels` channels.
#[tactic(auto, unfolding(crate::specs::RemixWords::remix_faults))]
pub fn read_remix(
    alloc: Global,
    channels: u32,
    words: &[String],
) -> Result<Vec<OutSpec>, WordsRefusal>
    requires some { 1 ≤ channels }
    requires maximum { channels ≤ 16 }
    ensures read { ReadsSpecs result (remix_faults channels) (remixed channels) words.now }
    ensures count { IfOk result (λ specs. IsChannelCount (length specs.items)) }
    ensures fit { IfOk result (λ specs. list_all (is_mix channels) (specs_value specs) ≡ true) }
{
    let mixing = read_option(words);
    if mixing == Mixing::Usual {
        return read_after(alloc, channels, mixing, 0, words);
    }
    let Some((_, specs)) = words.split_first() else {
        return Err(marked(PlanCause::WrongCount, 1));
    };
    read_after(alloc, channels, mixing, 1, specs)
}
