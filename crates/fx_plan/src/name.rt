//! An effect read from its name and the words after it.
ghost use Rattle.std.specs.Prelude.{◌≡◌, IfOk, Some, true, ◌∷◌, string_bytes};
ghost use Rattle.fx_plan_words.specs.Faults.{ReadsWords, word_texts};
ghost use Rattle.fx_plan_effects.specs.Effects.{Fits, IsLayout, Usable, fits_layout, act, layout_after};
ghost use Rattle.fx_plan.specs.Names.{effect_act, effect_faults};

use crate::registry::{read_name, read_named};
use fx_plan_effects::{Effect, Layout};
use fx_plan_words::WordsRefusal;
use std::alloc::Global;

/// The effect of a name and the words after it, of which a single one of `fir` names this file.
pub fn read_effect(
    alloc: Global,
    layout: Layout,
    file: &[u8],
    name: &String,
    words: &[String],
) -> Result<Effect, WordsRefusal>
    requires { IsLayout layout }
    ensures read { let all = string_bytes name.now ∷ word_texts words.now in
        ReadsWords (λ effect. Some (act effect)) result (effect_faults layout file.now all)
        (effect_act layout file.now all) }
    ensures fits { IfOk result (λ effect. Fits layout (act effect)) }
    ensures usable { IfOk result (λ effect. Usable (act effect)) }
    ensures place { IfOk result (λ effect. fits_layout layout (act effect) ≡ true) }
    ensures after { IfOk result (λ effect. IsLayout (layout_after layout (Some (act effect)))) }
{
    read_named(alloc, layout, file, read_name(name), words)
}
