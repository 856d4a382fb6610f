//! The parts of an out-spec of `remix`: each a range of channels and a vol-spec.

ghost use Rattle.std.specs.Prelude.{◌≡◌, ◌<◌, ◌≤◌, ◌+◌, ◌-◌, ◌++◌, IfOk, IfSome, OnOk, length, option_map, slice_index};
ghost use Rattle.std.specs.List.{position_or_len};
ghost use Rattle.fx_plan_words.specs.Capped.{both_capped, capped};
ghost use Rattle.fx_tap_pointwise.specs.InSpecs.{channel_in, channels_from, end_in, ends_in_spec, given_by_spec, in_range, in_spec, is_letter, vol_spec};

use fx_fixed::Gain;
use fx_plan_words::{PlanCause, capped_number, read_gain};
use std::alloc::AllocError;

/// The channels from one to another, counted from 1, and the gain that a type letter gives them.
#[derive(Clone, Copy, Debug, Drop, PartialEq, Eq)]
pub struct InSpec {
    pub low: u32,
    pub high: u32,
    pub gain: Option<Gain>,
}

/// A channel, counted from 0, that goes into a sum, and the gain that a letter gives it.
#[derive(Clone, Copy, Debug, Drop, PartialEq, Eq)]
pub struct SumContribution {
    pub channel: u8,
    pub gain: Option<Gain>,
}

/// The channel that a text is, counted from 1; `NUMBER_CAP` stands for each that is more.
fn read_channel(text: &str) -> Option<u32>
    ensures value { result ≡ option_map capped (channel_in text.now) }
    ensures counted { IfSome result (λ channel. 1 ≤ channel) }
{
    let channel = capped_number(text.as_bytes())?;
    if channel == 0 {
        return None;
    }
    Some(channel)
}

/// The end of a range, which stands for this channel where it is left out; `NUMBER_CAP` stands for each that is more.
fn read_end(default: u32, text: &str) -> Option<u32>
    requires some { 1 ≤ default }
    requires maximum { default ≤ 16 }
    ensures value { result ≡ option_map capped (end_in default text.now) }
    ensures counted { IfSome result (λ channel. 1 ≤ channel) }
{
    if text.is_empty() {
        return Some(default);
    }
    read_channel(text)
}

/// The ends of the range that a text is, at `channels` channels; `NUMBER_CAP` stands for each that is more.
fn read_ends(channels: u32, text: &str) -> Option<(u32, u32)>
    requires some { 1 ≤ channels }
    requires maximum { channels ≤ 16 }
    ensures value { result ≡ option_map both_capped (ends_in_spec channels text.now) }
    ensures counted { IfSome result (λ ends. (1 ≤ ends.0) × (1 ≤ ends.1)) }
{
    if let Some((front, back)) = text.split_once('-') {
        let first = read_end(1, front)?;
        let second = read_end(channels, back)?;
        return Some((first, second));
    }
    let channel = read_channel(text)?;
    Some((channel, channel))
}

/// Where the first of the characters `v`, `i` and `p` stands; the text's length where there is none.
#[tactic(auto, using(std::proofs::lemmas::List::Sums::position_or_len_is))]
fn letter_place(text: &[u8]) -> usize
    ensures value { result ≡ position_or_len is_letter text.now }
    ensures within { result ≤ length text.now }
    ensures ascii { result < length text.now → slice_index text.now result < 128 }
{
    for (i, byte) in text.iter().enumerate() {
        if *byte == b'v' || *byte == b'i' || *byte == b'p' {
            return i;
        }
    }
    text.len()
}

/// The gain that a letter and what follows it give.
fn read_given(letter: u8, tail: &str) -> Result<Option<Gain>, PlanCause>
    ensures { result ≡ given_by_spec letter tail.now }
{
    if !tail.is_empty() && letter != b'v' {
        return Err(PlanCause::NotInProfile);
    }
    if !tail.is_empty() {
        return Ok(Some(read_gain(tail)?));
    }
    if letter == b'i' {
        return Ok(Some(read_gain("-1")?));
    }
    Ok(Some(read_gain("1")?))
}

/// The gain of the vol-spec in a text, the letter of which stands at this place.
fn read_vol_spec(place: usize, text: &str) -> Result<Option<Gain>, PlanCause>
    requires place { place ≡ position_or_len is_letter text.now }
    requires within { place ≤ length text.now }
    requires ascii { place < length text.now → slice_index text.now place < 128 }
    ensures { result ≡ vol_spec text.now }
{
    if place == text.len() {
        return Ok(None);
    }
    read_given(text.as_bytes()[place], &text[place + 1..])
}

/// The range between two ends with its gain, at `channels` channels.
fn in_order(channels: u32, first: u32, second: u32, gain: Option<Gain>) -> Result<InSpec, PlanCause>
    requires first { 1 ≤ first }
    requires second { 1 ≤ second }
    ensures value { result ≡ in_range channels (first, second) gain }
    ensures counted { IfOk result (λ found. 1 ≤ found.low) }
    ensures order { IfOk result (λ found. found.low ≤ found.high) }
    ensures range { IfOk result (λ found. found.high ≤ channels) }
{
    if first > channels || second > channels {
        return Err(PlanCause::NoSuchChannel);
    }
    Ok(InSpec {
        low: first.min(second),
        high: first.max(second),
        gain,
    })
}

/// The meaning of an in-spec, at `channels` channels.
pub fn read_in_spec(channels: u32, text: &str) -> Result<InSpec, PlanCause>
    requires some { 1 ≤ channels }
    requires maximum { channels ≤ 16 }
    ensures value { result ≡ in_spec channels text.now }
    ensures counted { IfOk result (λ found. 1 ≤ found.low) }
    ensures order { IfOk result (λ found. found.low ≤ found.high) }
    ensures range { IfOk result (λ found. found.high ≤ channels) }
{
    let place = letter_place(text.as_bytes());
    let Some((first, second)) = read_ends(channels, &text[..place]) else {
        return Err(PlanCause::BadArgument);
    };
    let gain = read_vol_spec(place, text)?;
    in_order(channels, first, second, gain)
}

/// Adds the channels of an in-spec to those that are summed.
pub fn add_channels(sum: &mut Vec<SumContribution>, found: &InSpec) -> Result<(), AllocError>
    requires low { 1 ≤ found.now.low }
    requires order { found.now.low ≤ found.now.high }
    requires high { found.now.high ≤ 16 }
    ensures { OnOk result (sum.new.items ≡ sum.old.items ++ channels_from found.now) }
{
    for channel in found.low - 1..found.high {
        sum.push(SumContribution {
            channel: channel as u8,
            gain: found.gain,
        })?;
    }
    Ok(())
}
