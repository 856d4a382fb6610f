//! How a plan is made, and its content.

ghost use Rattle.std.specs.Prelude.{◌≡◌, ℕ, ◌<◌, ◌≤◌, ◌-◌, ◌*◌, ◌^◌, IfOk, IsTrue, Some, false, length, map, slice_get, true};
ghost use Rattle.fx_sound.specs.Kind.{is_coding_of};
ghost use Rattle.fx_plan_effects.specs.Bounds.{hold_all, hold_of_act, is_too_long, work_of};
ghost use Rattle.std.specs.List.{All};
ghost use Rattle.fx_plan_effects.specs.Effects.{IsLayout, Usable, act, all_fit, name_text};
ghost use Rattle.fx_plan.specs.Plans.{head_layout, PlanReads, all_faults, plan_bytes};
ghost use Rattle.fx_plan_words.specs.Faults.{word_texts};
ghost use Rattle.fx_plan.specs.Groups.{effects_of};
ghost use Rattle.fx_plan.specs.Planning.{planning, planning_of};

use crate::Bits;
use crate::accepted::Plan;
use crate::fault::PlanFault;
use crate::planned::{copy_effects, read_plan};
use fx_frame::Coding;
use fx_plan_effects::{Effect, Layout, hold, work};
use fx_sound::{Head, Kind};
use std::alloc::{AllocError, Global};

/// A layout by its parts.
fn layout_of(rate: u32, channels: usize) -> Layout
    ensures value { result ≡ record { rate = rate; channels = channels } }
    ensures fits { result.rate < 2 ^ 32 }
{
    Layout { rate, channels }
}

/// The plan of the effects that the words after the output are, after a head; the output is of this kind, with
/// samples of these bits, or of those of the input.
pub fn plan_words(
    alloc: Global,
    head: &Head,
    words: &[String],
    is_named: bool,
    kind: Kind,
    bits: Option<Bits>,
    files: &[Vec<u8>],
) -> Result<Plan, PlanFault>
    ensures { let effects = effects_of (word_texts words.now) in let bytes = plan_bytes files.now in
        PlanReads planning result (all_faults (head_layout head.now) bytes effects)
        (planning_of head.now is_named kind bits bytes effects) }
{
    let layout = layout_of(head.rate, head.channels);
    let planned = read_plan(alloc, layout, words, files)?;
    Ok(Plan {
        head: *head,
        kind,
        coding: bits.unwrap_or(Bits::of(head.coding)).coding(kind),
        is_named,
        effects: planned.effects,
        layout: planned.layout,
    })
}

impl Plan {
    /// The head of the input: a rate of at least 1, and 1 to 16 channels.
    pub fn head(&self) -> Head
        ensures value { result ≡ (planning self.now).head }
        ensures rated { 0 < result.rate }
        ensures some { 0 < result.channels }
        ensures maximum { result.channels ≤ 16 }
    {
        self.head
    }

    /// The container of the output.
    pub fn kind(&self) -> Kind
        ensures { result ≡ (planning self.now).kind }
    {
        self.kind
    }

    /// How a sample of the output is coded in bytes.
    pub fn coding(&self) -> Coding
        ensures value { result ≡ (planning self.now).coding }
        ensures kind { IsTrue (is_coding_of (planning self.now).kind result) }
    {
        self.coding
    }

    /// Whether the output is a file, and not standard output.
    pub fn is_named(&self) -> bool
        ensures { result ≡ (planning self.now).is_named }
    {
        self.is_named
    }

    /// Frames per second of the output.
    pub fn rate(&self) -> u32
        ensures value { result ≡ (planning self.now).layout.rate }
        ensures minimum { 0 < result }
    {
        self.layout.rate
    }

    /// Samples per frame of the output, 1 to 16.
    pub fn channels(&self) -> usize
        ensures value { result ≡ (planning self.now).layout.channels }
        ensures minimum { 0 < result }
        ensures maximum { result ≤ 16 }
    {
        self.layout.channels
    }

    /// How many effects there are, at most 32.
    pub fn effect_count(&self) -> usize
        ensures value { result ≡ length (planning self.now).acts }
        ensures maximum { result ≤ 32 }
    {
        self.effects.len()
    }

    /// How many frames a chain of the effects holds at most: one before the first effect, and what each holds.
    pub fn hold(&self) -> u64
        ensures value { result ≡ hold_all (planning self.now).acts }
        ensures maximum { result ≤ 2 ^ 28 }
    {
        hold(&self.effects)
    }

    /// How many frames effect `number`, counted from 1, holds at most: its line and one pending frame.
    pub fn hold_of(&self, number: usize) -> u64
        requires first { 1 ≤ number }
        requires last { number ≤ length (planning self.now).acts }
        ensures { slice_get (map hold_of_act (planning self.now).acts) (number - 1) ≡ Some result }
    {
        self.effects[number - 1].line() + 1
    }

    /// How many frames the inlet and the effects hand over for `frames` frames at most. It never
    /// decreases with more frames.
    pub fn work(&self, frames: u64) -> u64
        requires { frames ≤ 2 ^ 40 }
        ensures value { result ≡ work_of (planning self.now).acts frames }
        ensures rises { (fewer : ℕ) → fewer ≤ frames → work_of (planning self.now).acts fewer ≤ result }
        ensures maximum { result ≤ 33 * 2 ^ 56 }
    {
        work(&self.effects, frames)
    }

    /// The name of effect `number`, counted from 1.
    pub fn effect_name(&self, number: usize) -> &'static str
        requires first { 1 ≤ number }
        requires last { number ≤ length (planning self.now).acts }
        ensures { slice_get (map name_text (planning self.now).acts) (number - 1) ≡ Some result.now }
    {
        self.effects[number - 1].name()
    }

    /// A plan with the same parts.
    pub fn copy(&self, alloc: Global) -> Result<Plan, AllocError>
        ensures { IfOk result (λ copy. planning copy ≡ planning self.now) }
    {
        let effects = copy_effects(alloc, &self.effects)?;
        Ok(Plan {
            head: self.head,
            kind: self.kind,
            coding: self.coding,
            is_named: self.is_named,
            effects,
            layout: self.layout,
        })
    }

    /// The effects with their arguments, in order. The first of them is after the layout of the head, each other one
    /// after the layout that those before it produce; there each satisfies the requirements of its place.
    pub fn effects(&self) -> &[Effect]
        ensures value { map act result.now ≡ (planning self.now).acts }
        ensures layout { IsLayout (head_layout (planning self.now).head) }
        ensures usable { All Usable (map act result.now) }
        ensures fit { all_fit (head_layout (planning self.now).head) (map act result.now) ≡ true }
        ensures bound { length result.now ≤ 32 }
        ensures held { hold_all (map act result.now) ≤ 2 ^ 28 }
        ensures short { is_too_long (map act result.now) ≡ false }
    {
        &self.effects
    }
}
