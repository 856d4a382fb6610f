//! The arguments with which the stages of effects are thawed.
ghost use Rattle.std.specs.Prelude.{◌≡◌, IfOk, map};
ghost use Rattle.fx_plan_effects.specs.Effects.{act};
ghost use Rattle.fx_chain_stages.specs.Made.{placed_in};
ghost use Rattle.fx_chain_stages.specs.Thawed.{placing};

use fx_plan_effects::Effect;
use std::alloc::{AllocError, Global};

/// An effect, and the channels of the frames that it takes.
#[derive(Drop)]
pub struct EffectArguments {
    /// 1 to 16.
    pub channels: usize,
    pub effect: Effect,
}

/// Copies of these effects, each with the channels of the frames that it takes; the first takes frames of `channels` channels.
/// AllocError where memory for them is refused.
pub fn arguments_of(
    alloc: Global,
    channels: usize,
    effects: &[Effect],
) -> Result<Vec<EffectArguments>, AllocError>
    ensures { IfOk result (λ arguments. map placing arguments.items ≡ placed_in channels (map act effects.now)) }
{
    let mut arguments = Vec::new(alloc);
    let mut channels = channels;
    let mut rest = effects;
    while let Some((first, more)) = rest.split_first() {
        let effect = first.copy(alloc)?;
        arguments.push(EffectArguments { channels, effect })?;
        channels = first.channels_after(channels);
        rest = more;
    }
    Ok(arguments)
}
