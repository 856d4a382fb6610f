// Written by scripts/effects from effects/*.toml. Do not edit.
//! How many frames each effect makes.
ghost use Rattle.std.specs.Prelude.{◌≡◌, ◌-◌, ◌^◌, List, length, min, ℕ};
ghost use Rattle.fx_frame_base.specs.Frame.{Samples};
ghost use Rattle.fx_plan_effects.specs.Effects.{Usable, act};
ghost use Rattle.fx_plan_effects.specs.Meanings.{InPlace, line_of_act, meaning_at, recipe_at};

use crate::lengths::{before_stop, kept, silence};
use fx_plan_effects::Effect;

/// How many frames an effect makes of `frames` frames, or `u64::MAX` where it is more; `line` is the capacity of its line.
pub fn frames_after(effect: &Effect, line: u64, frames: u64) -> u64
    requires usable { Usable (act effect.now) }
    requires lined { line ≡ min (line_of_act (act effect.now)) (2 ^ 64 - 1) }
    ensures { (channels : ℕ) (xs : List Samples) → length xs ≡ frames
        → result ≡ min (length (meaning_at (recipe_at (InPlace channels (act effect.now))) xs)) (2 ^ 64 - 1) }
{
    match effect {
        Effect::Trim(positions) => kept(positions, frames),
        Effect::Pad(pads) => frames.saturating_add(silence(pads, frames)),
        Effect::Delay(_) => frames.saturating_add(line),
        Effect::Echo(_) => frames.saturating_add(line),
        Effect::Echos(_) => frames.saturating_add(line),
        Effect::Fade(fade) => before_stop(fade, frames),
        Effect::Vol(_) => frames,
        Effect::DcShift(_) => frames,
        Effect::Fir(_) => frames,
        Effect::Remix(_) => frames,
        Effect::Upsample(factor) => frames.saturating_mul(u64::from(*factor)),
        Effect::Downsample(factor) => frames.div_ceil(u64::from(*factor)),
    }
}
