// Written by scripts/effects from effects/*.toml. Do not edit.
//! The names of effects, and an effect read from its name and the words after it.
ghost use Rattle.std.specs.Prelude.{◌≡◌, IfOk, Some, true};
ghost use Rattle.fx_plan_words.specs.Faults.{ReadsWords, word_texts};
ghost use Rattle.fx_plan_effects.specs.Effects.{Fits, IsLayout, Usable, fits_layout, act, layout_after};
ghost use Rattle.fx_plan.specs.Names.{filters, is_one_of, name_of, named, others};

use crate::whole_sound::{is_among, needs_whole_sound};
use fx_cut::factor::words::{read_downsample, read_upsample};
use fx_cut::fade::words::read_fade;
use fx_cut::pad::words::read_pad;
use fx_cut::trim::words::read_trim;
use fx_plan_effects::{Effect, Layout};
use fx_plan_words::{PlanCause, WordsRefusal, marked};
use fx_tap_delays::delay::words::read_delay_words;
use fx_tap_delays::echo::words::read_echo;
use fx_tap_fir::fir::words::read_fir;
use fx_tap_pointwise::dcshift::words::read_dcshift;
use fx_tap_pointwise::remix::words::read_remix;
use fx_tap_pointwise::vol::words::read_vol;
use std::alloc::Global;

/// The filters of SoX that are not supported.
const FILTERS: [&str; 14] = [
    "allpass",
    "band",
    "bandpass",
    "bandreject",
    "bass",
    "biquad",
    "deemph",
    "equalizer",
    "highpass",
    "hilbert",
    "lowpass",
    "riaa",
    "sinc",
    "treble",
];

/// The other effects of SoX that are not supported.
const OTHERS: [&str; 32] = [
    "bend",
    "channels",
    "chorus",
    "compand",
    "contrast",
    "dither",
    "earwax",
    "flanger",
    "gain",
    "ladspa",
    "loudness",
    "mcompand",
    "noiseprof",
    "noisered",
    "oops",
    "overdrive",
    "phaser",
    "pitch",
    "rate",
    "reverb",
    "silence",
    "spectrogram",
    "speed",
    "splice",
    "stat",
    "stats",
    "stretch",
    "swap",
    "synth",
    "tempo",
    "tremolo",
    "vad",
];

/// The kind of a word where the name of an effect is expected.
#[derive(Clone, Copy, Debug, Drop, PartialEq, Eq)]
pub enum Name {
    Trim,
    Pad,
    Delay,
    Echo,
    Echos,
    Fade,
    Vol,
    DcShift,
    Fir,
    Remix,
    Upsample,
    Downsample,
    /// An effect that can begin only when the whole sound is known.
    WholeSound,
    /// Another effect of SoX.
    LeftOut,
    /// No name.
    Other,
}

/// Whether a word names a filter of SoX that is not supported.
#[tactic(auto, unfolding(crate::specs::Registry::filters))]
fn is_filter(word: &str) -> bool
    ensures { result ≡ is_one_of filters word.now }
{
    is_among(word, &FILTERS)
}

/// Whether a word names another effect of SoX that is not supported.
#[tactic(auto, unfolding(crate::specs::Registry::others))]
fn is_other_effect(word: &str) -> bool
    ensures { result ≡ is_one_of others word.now }
{
    is_among(word, &OTHERS)
}

/// The kind of a word where the name of an effect is expected.
#[tactic(auto, unfolding(crate::specs::Registry::name_of))]
pub fn read_name(word: &str) -> Name
    ensures { result ≡ name_of word.now }
{
    match word {
        "trim" => Name::Trim,
        "pad" => Name::Pad,
        "delay" => Name::Delay,
        "echo" => Name::Echo,
        "echos" => Name::Echos,
        "fade" => Name::Fade,
        "vol" => Name::Vol,
        "dcshift" => Name::DcShift,
        "fir" => Name::Fir,
        "remix" => Name::Remix,
        "upsample" => Name::Upsample,
        "downsample" => Name::Downsample,
        _ => {
            if needs_whole_sound(word) {
                return Name::WholeSound;
            }
            if is_filter(word) || is_other_effect(word) {
                return Name::LeftOut;
            }
            Name::Other
        }
    }
}

/// The effect of this name with these words after it.
pub fn read_named(
    alloc: Global,
    layout: Layout,
    file: &[u8],
    name: Name,
    words: &[String],
) -> Result<Effect, WordsRefusal>
    requires { IsLayout layout }
    ensures read { let read = named name layout file.now (word_texts words.now) in
        ReadsWords (λ effect. Some (act effect)) result read.0 read.1 }
    ensures fits { IfOk result (λ effect. Fits layout (act effect)) }
    ensures usable { IfOk result (λ effect. Usable (act effect)) }
    ensures place { IfOk result (λ effect. fits_layout layout (act effect) ≡ true) }
    ensures after { IfOk result (λ effect. IsLayout (layout_after layout (Some (act effect)))) }
{
    let rate = layout.rate;
    match name {
        Name::Trim => read_trim(alloc, rate, words).map(Effect::Trim),
        Name::Pad => read_pad(alloc, rate, words).map(Effect::Pad),
        Name::Delay => read_delay_words(alloc, rate, layout.channels, words).map(Effect::Delay),
        Name::Echo => read_echo(alloc, rate, words).map(Effect::Echo),
        Name::Echos => read_echo(alloc, rate, words).map(Effect::Echos),
        Name::Fade => Ok(Effect::Fade(read_fade(rate, words)?)),
        Name::Vol => Ok(Effect::Vol(read_vol(words)?)),
        Name::DcShift => Ok(Effect::DcShift(read_dcshift(words)?)),
        Name::Fir => read_fir(alloc, file, words).map(Effect::Fir),
        Name::Remix => read_remix(alloc, layout.channels as u32, words).map(Effect::Remix),
        Name::Upsample => Ok(Effect::Upsample(read_upsample(rate, words)?)),
        Name::Downsample => Ok(Effect::Downsample(read_downsample(rate, words)?)),
        Name::WholeSound => Err(marked(PlanCause::NeedsWholeSound, 1)),
        Name::LeftOut => Err(marked(PlanCause::NotInProfile, 1)),
        Name::Other => Err(marked(PlanCause::UnknownEffect, 1)),
    }
}
