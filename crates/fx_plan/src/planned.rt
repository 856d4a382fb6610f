//! Effects one after the other, each after the layout that those before it produce.

ghost use Rattle.std.specs.Prelude.{◌≡◌, ◌≤◌, ◌^◌, ◌∷◌, IfOk, Some, true, false, length, map, string_bytes};
ghost use Rattle.std.specs.List.{All};
ghost use Rattle.fx_plan_effects.specs.Bounds;
ghost use Rattle.fx_plan_effects.specs.Bounds.{hold_all};
ghost use Rattle.fx_plan_effects.specs.Effects.{Fits, IsLayout, Usable, all_fit, fits_layout, act, layout_after};
ghost use Rattle.fx_plan.specs.Names.{effect_act};
ghost use Rattle.fx_plan_words.specs.Faults.{word_texts};
ghost use Rattle.fx_plan.specs.Groups.{effects_of};
ghost use Rattle.fx_plan.specs.Plans;
ghost use Rattle.fx_plan.specs.Plans.{PlanReads, acts_of, all_faults, plan_bytes, effects_faults, fault, fault_of, files_after, last_layout, next_file, planned_value, step_faults};

use crate::fault::PlanFault;
use crate::groups::split_effect;
use crate::name::read_effect;
use crate::registry::{Name, read_name};
use fx_frame_base::stage::MAX_EFFECTS;
use fx_plan_effects::{Effect, Layout, hold, is_too_long};
use fx_plan_words::{PlanCause, WordsRefusal};
use std::alloc::{AllocError, Global};

/// The maximum number of frames that a chain may hold.
const MAX_HELD: u64 = 1 << 28;

/// Effects with resolved arguments, and the layout of the sound after them.
#[derive(Debug, Drop, PartialEq, Eq)]
pub struct Planned {
    pub effects: Vec<Effect>,
    pub layout: Layout,
}

/// A fault that belongs to no single effect.
fn plan_fault(cause: PlanCause) -> PlanFault
    ensures { result ≡ fault cause 0 0 }
{
    PlanFault {
        cause,
        effect: 0,
        word: 0,
    }
}

/// Whether the words of a `fir` are the name of a coefficient file.
fn is_file(words: &[String]) -> bool
    ensures { result ≡ Plans.is_file (word_texts words.now) }
{
    let Some((word, more)) = words.split_first() else {
        return false;
    };
    more.is_empty() && word.as_str() != "-"
}

/// Whether an effect of this name with these words after it names a coefficient file.
pub fn names_file(name: &String, words: &[String]) -> bool
    ensures { result ≡ Plans.names_file (string_bytes name.now ∷ word_texts words.now) }
{
    read_name(name) == Name::Fir && is_file(words)
}

/// The next coefficient file; nothing where there is none.
fn first_file(files: &[Vec<u8>]) -> &[u8]
    ensures { result.now ≡ next_file (plan_bytes files.now) }
{
    match files.split_first() {
        Some((file, _)) => file,
        None => &[],
    }
}

/// The coefficient files after an effect of this name with these words.
fn files_after_effects<'a>(name: &String, words: &[String], files: &'a [Vec<u8>]) -> &'a [Vec<u8>]
    ensures { plan_bytes result.now ≡ files_after (string_bytes name.now ∷ word_texts words.now) (plan_bytes files.now) }
{
    if !names_file(name, words) {
        return files;
    }
    match files.split_first() {
        Some((_, more)) => more,
        None => files,
    }
}

/// The fault of the effect of this number, which its words do not give.
fn effect_fault(number: usize, refusal: WordsRefusal) -> PlanFault
    ensures { result ≡ fault_of number refusal }
{
    match refusal {
        WordsRefusal::Memory => plan_fault(PlanCause::Memory),
        WordsRefusal::Marked(mark) => PlanFault {
            cause: mark.cause,
            effect: number,
            word: mark.word,
        },
    }
}

/// The effect of this number, of a name and the words after it.
fn read_step(
    alloc: Global,
    number: usize,
    layout: Layout,
    file: &[u8],
    name: &String,
    words: &[String],
) -> Result<Effect, PlanFault>
    requires { IsLayout layout }
    ensures read { let all = string_bytes name.now ∷ word_texts words.now in
        PlanReads (λ effect. Some (act effect)) result (step_faults number layout file.now all) (effect_act layout file.now all) }
    ensures fits { IfOk result (λ effect. Fits layout (act effect)) }
    ensures usable { IfOk result (λ effect. Usable (act effect)) }
    ensures place { IfOk result (λ effect. fits_layout layout (act effect) ≡ true) }
    ensures after { IfOk result (λ effect. IsLayout (layout_after layout (Some (act effect)))) }
    ensures bound { IfOk result (λ effect. number ≤ 32) }
{
    if number > MAX_EFFECTS {
        return Err(PlanFault {
            cause: PlanCause::TooManyEffects,
            effect: number,
            word: 1,
        });
    }
    read_effect(alloc, layout, file, name, words).map_err(|refusal| effect_fault(number, refusal))
}

/// The effects that the words are, after this layout.
fn read_effects(
    alloc: Global,
    layout: Layout,
    words: &[String],
    files: &[Vec<u8>],
) -> Result<Planned, PlanFault>
    requires { IsLayout layout }
    ensures read { let effects = effects_of (word_texts words.now) in let bytes = plan_bytes files.now in
        PlanReads planned_value result (effects_faults 1 layout bytes effects) (acts_of layout bytes effects, last_layout layout bytes effects) }
    ensures usable { IfOk result (λ p. All Usable (map act p.effects.items)) }
    ensures fit { IfOk result (λ p. all_fit layout (map act p.effects.items) ≡ true) }
    ensures layout { IfOk result (λ p. IsLayout p.layout) }
    ensures bound { IfOk result (λ p. length p.effects.items ≤ 32) }
{
    let mut effects = Vec::new(alloc);
    let mut rest = words;
    let mut files = files;
    let mut number = 1;
    let mut layout = layout;
    while let Some((name, arguments, more)) = split_effect(rest) {
        let effect = read_step(alloc, number, layout, first_file(files), name, arguments)?;
        layout = effect.layout_after(layout);
        files = files_after_effects(name, arguments, files);
        if effects.push(effect).is_err() {
            return Err(plan_fault(PlanCause::Memory));
        }
        rest = more;
        number += 1;
    }
    Ok(Planned { effects, layout })
}

/// The effects that the words are, after this layout, where a chain of them holds and makes no more than it may.
pub fn read_plan(
    alloc: Global,
    layout: Layout,
    words: &[String],
    files: &[Vec<u8>],
) -> Result<Planned, PlanFault>
    requires { IsLayout layout }
    ensures read { let effects = effects_of (word_texts words.now) in let bytes = plan_bytes files.now in
        PlanReads planned_value result (all_faults layout bytes effects)
        (acts_of layout bytes effects, last_layout layout bytes effects) }
    ensures usable { IfOk result (λ p. All Usable (map act p.effects.items)) }
    ensures fit { IfOk result (λ p. all_fit layout (map act p.effects.items) ≡ true) }
    ensures layout { IfOk result (λ p. IsLayout p.layout) }
    ensures bound { IfOk result (λ p. length p.effects.items ≤ 32) }
    ensures held { IfOk result (λ p. hold_all (map act p.effects.items) ≤ 2 ^ 28) }
    ensures short { IfOk result (λ p. Bounds.is_too_long (map act p.effects.items) ≡ false) }
{
    let planned = read_effects(alloc, layout, words, files)?;
    if hold(&planned.effects) > MAX_HELD {
        return Err(plan_fault(PlanCause::HoldTooLarge));
    }
    if is_too_long(&planned.effects) {
        return Err(plan_fault(PlanCause::TooLong));
    }
    Ok(planned)
}

/// A copy of the effects.
pub fn copy_effects(alloc: Global, effects: &[Effect]) -> Result<Vec<Effect>, AllocError>
    ensures { IfOk result (λ copies. map act copies.items ≡ map act effects.now) }
{
    let mut copies = Vec::new(alloc);
    let mut rest = effects;
    while let Some((effect, more)) = rest.split_first() {
        copies.push(effect.copy(alloc)?)?;
        rest = more;
    }
    Ok(copies)
}
