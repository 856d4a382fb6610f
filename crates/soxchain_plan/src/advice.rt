//! What to do where there is no plan: the limit, the intended word, or the tool that can do it.
ghost use Rattle.std.specs.Prelude.{◌≡◌, ◌++◌, IfSome};
ghost use Rattle.soxchain_plan.specs.Advising.{IsFaultAdvice, advice_text};
ghost use Rattle.soxchain_plan.specs.Formats.{format_advice};
ghost use Rattle.soxchain_plan.specs.Options.{options_text};

use crate::formats::FormatFault;
use fx_plan::{LineFault, PlanCause};
use fx_sound::HeadFault;
use soxchain_common::{SOX_HAS_IT, TIME_LIMITS, effect_of, effects};
use std::alloc::Global;

/// Where a file cannot be opened.
pub const OPENING: &str = "see that there is a file of this name, and that it may be read";

/// Where writing to standard output fails.
pub const REACHING: &str =
    "standard output took not all of it: see that its disk has room, or its reader waits";

/// Where an option is refused, after the word that is.
const OPTIONS: &str =
    " is refused: the options are --json as the first word, --help and --version alone, -D, -t wav, -t au and, before OUT alone, -b 8, 16, 24 or 32; a file whose name begins with - is ./-NAME";

/// What to do: a text, after the word of which it speaks; no text where it speaks of none.
#[derive(Clone, Copy, Drop)]
pub struct Advice<'a> {
    pub subject: &'a str,
    pub text: &'static str,
}

impl<'a> Advice<'a> {
    /// A text that speaks of no word.
    pub fn new(text: &'static str) -> Advice<'a>
        ensures { advice_text result ≡ text.now }
    {
        Advice { subject: "", text }
    }

    /// Its text. None where no memory is found for it.
    pub fn joined(self, alloc: Global) -> Option<Vec<u8>>
        ensures { IfSome result (λ text. text.items ≡ advice_text self.entry) }
    {
        let mut text = Vec::new(alloc);
        text.extend_from_slice(self.subject.as_bytes()).ok()?;
        text.extend_from_slice(self.text.as_bytes()).ok()?;
        Some(text)
    }
}

/// Where an option is refused for this word.
pub fn advice_on_option(word: &str) -> Advice<'_>
    ensures { advice_text result ≡ word.now ++ options_text }
{
    Advice {
        subject: word,
        text: OPTIONS,
    }
}

/// The names of the effects, from the table of effects.
macro_rules! names {
    ({ name: $first:literal, $($rest_of_first:tt)* } $({ name: $name:literal, $($rest:tt)* })*) => {
        concat!("the effects are ", $first, $(", ", $name),*)
    };
}

/// Where a word is no effect, and no intended one is known.
const NAMES: &str = effects!(names);

/// Where there is no memory.
pub fn advice_on_memory() -> &'static str {
    "no memory was found: run fewer programs beside it, or hold fewer frames"
}

/// Where the command line is refused.
pub fn advice_on_line(fault: LineFault) -> &'static str {
    match fault {
        LineFault::MissingFile => "say IN and OUT: soxchain IN OUT [EFFECT [WORD ..] ..]",
        LineFault::BadOption => "each word has to be UTF-8",
        LineFault::NoOutputType => "end OUT in .wav, .au or .snd, or say -t wav or -t au before it",
        LineFault::BadBits => "say -b 8, -b 16, -b 24 or -b 32",
        LineFault::Memory => advice_on_memory(),
    }
}

/// Where the format of the head is not one of the profile.
fn advice_on_format(format: FormatFault) -> &'static str
    ensures { result.now ≡ format_advice format }
{
    match format {
        FormatFault::BlockAlign => {
            "the head has a block align that is not channels times bytes of a sample: sox IN -t au - | soxchain - OUT .. may read it"
        }
        FormatFault::UnknownGuid => {
            "the format is extensible, and its GUID is not known: sox IN -t au - | soxchain - OUT .. may read it"
        }
        FormatFault::Other => {
            "samples have to be whole numbers of 8, 16, 24 or 32 bits: sox IN -t au -e signed-integer -b 32 - | soxchain - OUT .."
        }
    }
}

/// Where the head is refused.
pub fn advice_on_head(fault: HeadFault, format: FormatFault) -> &'static str
    ensures { IsFaultAdvice fault format result.now }
{
    match fault {
        HeadFault::ReadFailed =>
            "see that IN is a file and not a folder, and that its disk can be read",
        HeadFault::UnknownType => {
            "IN has to be WAVE or AU, and what -t says: sox IN -t au - | soxchain - OUT .. reads other kinds"
        }
        HeadFault::Truncated => "IN ends within its head: fetch it again",
        HeadFault::BadHeader =>
            "what the head says cannot be: sox IN -t au - | soxchain - OUT .. may read it",
        HeadFault::NotInProfile => advice_on_format(format),
        HeadFault::TooManyChannels =>
            "the limit is 16 channels: sox IN -t au - remix 1 2 | soxchain - OUT .. takes some of them",
        HeadFault::HeadTooLong =>
            "the limit before the sound is 2^24 bytes: sox IN -t au - | soxchain - OUT .. leaves them out",
    }
}

/// The words of an effect.
fn usage_of(name: &str) -> &'static str {
    effect_of(name).map_or(NAMES, |effect| effect.usage)
}

/// The limits of an effect's numbers.
fn limits_of(name: &str) -> &'static str {
    effect_of(name).map_or(TIME_LIMITS, |effect| effect.limits)
}

/// The effect intended by a word that is none.
fn suggestion(word: &str) -> &'static str {
    match word {
        "volume" | "amplify" => "say vol and a factor: vol 0.5",
        "cut" | "crop" | "slice" =>
            "say trim and two positions: trim 1.5 =3 keeps what lies between",
        "fadein" | "fadeout" | "fade-in" | "fade-out" =>
            "say fade t: fade t 1 -0 2 fades in over 1 second and out over 2",
        "mix" | "merge" | "mono" | "stereo" =>
            "say remix: remix 1,2 makes one channel of two, remix 1 1 two of one",
        "filter" => "say fir and a file of coefficients, or the numbers: fir 0.25 0.5 0.25",
        "silent" | "padding" => "say pad and a length: pad 1 or pad 1@30",
        "echoes" => "say echo, or echos: echo 0.8 0.9 100 0.3",
        _ => NAMES,
    }
}

/// A substitute for words that are not supported, or for a whole effect.
fn instead_of(name: &str) -> &'static str {
    match name {
        "gain" => "say a factor with vol: vol 0.501187 for gain -6, by 10 ^ (dB / 20)",
        "channels" => "say remix: remix 1,2 makes one channel of two, remix 1 1 two of one",
        "rate" => "sox has it: soxchain IN -t au - .. | sox -t au - OUT rate 8k",
        _ => effect_of(name).map_or(SOX_HAS_IT, |effect| effect.instead),
    }
}

/// Where the effects are refused; the name is that of the effect, or no text.
pub fn advice_on_plan(cause: PlanCause, name: &str) -> &'static str {
    match cause {
        PlanCause::UnknownEffect => suggestion(name),
        PlanCause::NotInProfile => instead_of(name),
        PlanCause::NeedsWholeSound =>
            "it needs the whole sound before it gives a frame: sox IN OUT EFFECT .. holds it",
        PlanCause::WrongCount | PlanCause::BadArgument => usage_of(name),
        PlanCause::OutOfRange => limits_of(name),
        PlanCause::PositionBehind => "say positions of one anchor in their order",
        PlanCause::NoSuchChannel =>
            "the sound has fewer channels there: see its head, and what remix leaves",
        PlanCause::TooManyChannels => "the limit is 16 channels",
        PlanCause::RateNotDivisible =>
            "the rate has to be a multiple of the factor: sox has the effect rate",
        PlanCause::RateTooLarge => "the limit is a rate of 2^32 - 1",
        PlanCause::TooManyEffects => "the limit is 32 effects: join two runs by a pipe",
        PlanCause::BadCoefficients =>
            "the limits are 1 to 1024 numbers from -1000 to 1000, and 2^20 bytes; # begins a comment",
        PlanCause::HoldTooLarge =>
            "the limit is 2^28 frames: shorter delays, or positions nearer to the end",
        PlanCause::TooLong =>
            "the limit is 2^56 frames of a sound of 2^40: smaller factors, or shorter pads",
        PlanCause::Memory => advice_on_memory(),
    }
}
