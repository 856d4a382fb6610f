//! How many frames effects in sequence hold, and how many frames can come out of them.
ghost use Rattle.std.specs.Prelude.{◌≡◌, ◌≤◌, ◌-◌, ◌*◌, ◌^◌, false, length, map, min};
ghost use Rattle.std.specs.List.{All, list_any};
ghost use Rattle.fx_plan_effects.specs.Bounds;
ghost use Rattle.fx_plan_effects.specs.Bounds.{hold_all, maxima, work_of};
ghost use Rattle.fx_plan_effects.specs.Effects.{Usable, act};

use crate::registry::Effect;
use fx_fixed::MAX_POSITION;

/// The maximum number of frames that the sound may have after any effect.
pub const MAX_LENGTH: u64 = 1 << 56;

/// How many frames a chain of the effects holds, or `u64::MAX` where it is more.
pub fn hold(effects: &[Effect]) -> u64
    ensures { result ≡ min (hold_all (map act effects.now)) (2 ^ 64 - 1) }
{
    let mut total: u64 = 1;
    let mut rest = effects;
    while let Some((effect, more)) = rest.split_first() {
        total = total.saturating_add(effect.line()).saturating_add(1);
        rest = more;
    }
    total
}

/// Whether a sound of `2^40` frames could become longer than `MAX_LENGTH` after some effect.
pub fn is_too_long(effects: &[Effect]) -> bool
    requires { All Usable (map act effects.now) }
    ensures { result ≡ Bounds.is_too_long (map act effects.now) }
{
    let mut frames = MAX_POSITION;
    let mut rest = effects;
    while let Some((effect, more)) = rest.split_first() {
        frames = effect.max_frames(frames);
        if frames > MAX_LENGTH {
            return true;
        }
        rest = more;
    }
    false
}

/// How many frames the effects hand over for `frames` frames at most, where nothing after them is longer than `MAX_LENGTH`.
pub fn work(effects: &[Effect], frames: u64) -> u64
    requires usable { All Usable (map act effects.now) }
    requires bound { length effects.now ≤ 32 }
    requires short { list_any Bounds.is_beyond_limit (maxima (map act effects.now) frames) ≡ false }
    ensures value { result ≡ work_of (map act effects.now) frames }
    ensures maximum { result ≤ 33 * 2 ^ 56 }
{
    let mut total = 0;
    let mut frames = frames;
    let mut rest = effects;
    while let Some((effect, more)) = rest.split_first() {
        total += frames;
        frames = effect.max_frames(frames);
        rest = more;
    }
    total + frames
}
