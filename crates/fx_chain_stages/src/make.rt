//! The stages of a plan's effects, new and thawed.
ghost use Rattle.std.specs.Prelude.{◌≡◌, ◌≤◌, ◌^◌, IfOk, map, true};
ghost use Rattle.std.specs.List.{All};
ghost use Rattle.fx_chain_flow.specs.Parts.{AllNew};
ghost use Rattle.fx_frame_base.specs.Holds.{recipes};
ghost use Rattle.fx_frame_base.specs.Stage.{IsNew};
ghost use Rattle.fx_plan_effects.specs.Bounds.{hold_all};
ghost use Rattle.fx_plan_effects.specs.Effects.{Usable, act};
ghost use Rattle.fx_plan_effects.specs.Meanings.{InPlace, line_of_act, recipe_at};
ghost use Rattle.fx_chain_stages.specs.Stages.{effect_acts};
ghost use Rattle.fx_chain_stages.specs.Made.{all_suit, recipes_for, suits};
ghost use Rattle.fx_frame_base.specs.Frame.{IsChannelCount};

use crate::registry::{EffectStage, made};
use crate::thaw::EffectArguments;
use fx_frame::WideFrame;
use fx_frame_base::stage::{ThawFault, Thaws};
use fx_plan_effects::Effect;
use std::alloc::{AllocError, Global};

/// The stage of an effect that takes frames of `channels` channels; AllocError where memory for it is refused.
fn stage_of(alloc: Global, channels: usize, effect: &Effect) -> Result<EffectStage, AllocError>
    requires channels { IsChannelCount channels }
    requires usable { Usable (act effect.now) }
    requires suits { suits channels (act effect.now) ≡ true }
    requires line { line_of_act (act effect.now) ≤ 2 ^ 28 }
    ensures { IfOk result (IsNew effect_acts (recipe_at (InPlace channels (act effect.now)))) }
{
    made!(effect, new, [Ok], alloc, channels)
}

/// New stages of these effects in sequence, the first of which takes frames of `channels` channels; AllocError where memory for
/// one of them is refused.
pub fn stages_of(
    alloc: Global,
    channels: usize,
    effects: &[Effect],
) -> Result<Vec<EffectStage>, AllocError>
    requires channels { IsChannelCount channels }
    requires usable { All Usable (map act effects.now) }
    requires suit { all_suit channels (map act effects.now) ≡ true }
    requires hold { hold_all (map act effects.now) ≤ 2 ^ 28 }
    ensures new { IfOk result (λ stages. AllNew effect_acts stages.items) }
    ensures recipes { IfOk result (λ stages.
        recipes effect_acts stages.items ≡ recipes_for channels (map act effects.now)) }
{
    let mut stages = Vec::new(alloc);
    let mut channels = channels;
    let mut rest = effects;
    while let Some((effect, more)) = rest.split_first() {
        stages.push(stage_of(alloc, channels, effect)?)?;
        channels = effect.channels_after(channels);
        rest = more;
    }
    Ok(stages)
}

impl Thaws for EffectStage {
    ghost use Rattle.fx_chain_stages.specs.Stages.{recipe_of};
    ghost use Rattle.fx_chain_stages.specs.Thawed.{fits_stage, recipe_with};
    ghost use Rattle.std.specs.Prelude.{◌≡◌};
    ghost use Rattle.std.proofs.Common.{◌∙◌};

    type Arguments = EffectArguments;

    ghost fits = { fits_stage };

    ghost made = { λ a s. recipe_of s ≡ recipe_with a };

    ghost made_stays = { λ a s t stays is. stays ∙ is };

    fn thaw(
        alloc: Global,
        arguments: &EffectArguments,
        frames: &[WideFrame],
        numbers: &[u64; 8],
    ) -> Result<EffectStage, ThawFault> {
        let channels = arguments.channels;
        made!(
            &arguments.effect,
            thaw,
            [],
            alloc,
            channels,
            frames,
            numbers
        )
    }
}
