//! Plans: what is to be done to a sound, and limits on what that may hold and make.

ghost use Rattle.std.specs.Prelude.{◌≡◌, ◌<◌, ◌≤◌, ◌^◌, IsTrue, false, length, map, true};
ghost use Rattle.std.specs.List.{All};
ghost use Rattle.fx_sound.specs.Kind.{is_coding_of};
ghost use Rattle.fx_plan_effects.specs.Bounds.{hold_all, is_too_long};
ghost use Rattle.fx_plan_effects.specs.Effects.{IsLayout, Usable, act, all_fit};
ghost use Rattle.fx_plan.specs.Plans.{head_layout};

use fx_frame::Coding;
use fx_plan_effects::{Effect, Layout};
use fx_sound::{Head, Kind};

/// An accepted plan of what is to be done to a sound: a chain of its effects holds at most `2^28` frames, and after none of
/// them is a sound of `2^40` frames longer than `2^56`.
#[derive(Debug, Drop)]
pub struct Plan {
    pub(crate) head: Head,
    pub(crate) kind: Kind,
    pub(crate) coding: Coding,
    pub(crate) is_named: bool,
    pub(crate) effects: Vec<Effect>,
    pub(crate) layout: Layout,
    ghost begins: { IsLayout (head_layout head) },
    ghost bound: { length effects.items ≤ 32 },
    ghost usable: { All Usable (map act effects.items) },
    ghost fit: { all_fit (head_layout head) (map act effects.items) ≡ true },
    ghost held: { hold_all (map act effects.items) ≤ 2 ^ 28 },
    ghost short: { is_too_long (map act effects.items) ≡ false },
    ghost rated: { 0 < layout.rate },
    ghost some: { 0 < layout.channels },
    ghost maximum: { layout.channels ≤ 16 },
    ghost coded: { IsTrue (is_coding_of kind coding) },
}
