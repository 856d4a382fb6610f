//! How many frames a chain makes.
ghost use Rattle.std.specs.Prelude.{◌≡◌, ◌≤◌, ◌^◌, List, length};
ghost use Rattle.fx_chain.specs.Chain.{chain_gives};
ghost use Rattle.fx_frame_base.specs.Frame.{Samples};
ghost use Rattle.fx_plan.specs.Planning.{planning};

use crate::registry::frames_after;
use fx_plan::Plan;

/// How many frames the effects of a plan, one after the other, make of a sound of `frames` frames, at most 2^40.
pub fn frames_through(plan: &Plan, frames: u64) -> u64
    ensures { (sound : List Samples) → length sound ≡ frames → frames ≤ 2 ^ 40
        → result ≡ length (chain_gives (planning plan.now) sound) }
{
    let effects = plan.effects();
    let mut left = frames;
    'effects: for effect in effects {
        left = frames_after(effect, effect.line(), left);
    }
    left
}
