//! The texts of the programs on the effects: each effect is one row of one table.
ghost use Rattle.std.specs.Prelude.{◌≡◌, IfSome, find, is_some, option_copied};
ghost use Rattle.std.specs.Str.{bytes_eq};
ghost use Rattle.fx_plan.specs.Names.{name_of};
ghost use Rattle.soxchain_common.specs.Effects.{is_of_effect};

/// The texts of the programs on an effect.
#[derive(Clone, Copy, Drop)]
pub struct EffectHelp {
    /// Its name.
    pub name: &'static str,
    /// Its line of `soxchain --help`: its words and, below those of the others, what it does.
    pub help_line: &'static str,
    /// What to do where its words are too many, too few, or not of its form.
    pub usage: &'static str,
    /// What to do where one of its numbers is too great or too small.
    pub limits: &'static str,
    /// What to do where SoX takes words of it that are not supported here.
    pub instead: &'static str,
}

/// The usage of `echo` and of `echos`.
const ECHO_USAGE: &str =
    "the words are: echo or echos GAIN-IN GAIN-OUT and 1 to 7 pairs DELAY DECAY, delays in milliseconds, as 0.8 0.9 100 0.3";

/// The limits of `echo` and of `echos`.
const ECHO_LIMITS: &str =
    "the limits are 0 and 1 for GAIN-IN and decays, 0 and 1000 for GAIN-OUT, 2^40 frames for delays";

/// The usage of `upsample` and of `downsample`.
const FACTOR_USAGE: &str = "the word is a factor from 1 to 256";

/// The limits of `upsample` and of `downsample`.
const FACTOR_LIMITS: &str = "the limits are 1 and 256";

/// The limits of an effect whose numbers are times.
pub const TIME_LIMITS: &str = "the limits are 0 and 2^40 frames, and 80 letters for a time";

/// A substitute outside this program for words that are not supported.
pub const SOX_HAS_IT: &str = "sox has it: soxchain IN -t au - .. | sox -t au - OUT EFFECT ..";

macro_rules! rows {
    ($({ name: $name:literal, help_line: $help_line:literal, usage: $usage:expr, limits: $limits:expr, instead: $instead:expr, })*) => {
        &[$(EffectHelp { name: $name, help_line: $help_line, usage: $usage, limits: $limits, instead: $instead }),*]
    };
}

/// The texts of the programs on each effect, in the order of `soxchain --help`.
const EFFECTS: &[EffectHelp] = crate::effects!(rows);

/// The first of these rows that is of this name.
fn row_of<'a>(rows: &'a [EffectHelp], name: &str) -> Option<&'a EffectHelp>
    ensures first { option_copied result ≡ find (λ row. bytes_eq name.now row.name.now) rows.now }
    ensures named { IfSome result (λ row. row.now.name.now ≡ name.now) }
{
    rows.iter().find(|row| name == row.name)
}

/// The texts of the programs on the effect of this name, where a plan may have one of this name.
pub fn effect_of(name: &str) -> Option<&'static EffectHelp>
    ensures named { IfSome result (λ effect. effect.now.name.now ≡ name.now) }
    ensures known { is_some result ≡ is_of_effect (name_of name.now) }
{
    row_of(EFFECTS, name)
}
