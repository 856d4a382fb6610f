//! The stage of any effect.
ghost use Rattle.std.specs.Prelude.{◌≡◌, ◌+◌, ◌*◌, ◌≤◌, FitsSigned, false, true, length, take};
ghost use Rattle.std.specs.Int.{w32};
ghost use Rattle.std.specs.List.{All};
ghost use Rattle.fx_frame_base.specs.Feed.{KeepsRest};
ghost use Rattle.fx_frame_base.specs.Stage.{kind};
ghost use Rattle.fx_tap_pointwise.specs.Around.{ThroughThree};
ghost use Rattle.fx_tap_pointwise.specs.PerSampleState.{ThroughBoth};
ghost use Rattle.fx_chain_stages.specs.Stages.{effect_acts, frames_into, frames_out_of};

use crate::registry::{EffectStage, each, each_by_samples, each_selected};
use fx_frame::{Counters, Feeds, Forecast, Frame, Passed, Passing, WideFrame};
use fx_frame_base::pipeline::{PassesEarly, PassesPipeline, PassesWhile};
use fx_frame_base::stage::Stage;
use fx_tap_pointwise::around::pass_around;
use fx_tap_pointwise::both::pass_both;

impl Stage for EffectStage {
    ghost use Rattle.fx_plan_effects.proofs.Lasting.{rises-at};
    ghost use Rattle.fx_plan_effects.specs.Meanings.{Placed};
    ghost use Rattle.fx_chain_stages.specs.Stages.{effect_acts, sound_of_stages};

    ghost Recipe = { Placed };

    ghost acts = { effect_acts };

    ghost sound = { sound_of_stages };

    ghost rises = { rises-at };

    fn take(&mut self, frame: Frame) {
        each!(self, stage => stage.take(frame))
    }

    fn end(&mut self) {
        each!(self, stage => stage.end())
    }

    fn give(&mut self) -> Option<Frame> {
        each!(self, stage => stage.give())
    }

    fn is_dry(&self) -> bool {
        each!(self, stage => stage.is_dry())
    }

    fn counter_values(&self) -> Counters {
        each!(self, stage => stage.counter_values())
    }

    fn is_spent(&self) -> bool {
        each!(self, stage => stage.is_spent())
    }

    fn held(&self) -> u64 {
        each!(self, stage => stage.held())
    }

    fn hold(&self) -> u64 {
        each!(self, stage => stage.hold())
    }

    fn in_channels(&self) -> usize {
        each!(self, stage => stage.in_channels())
    }

    fn out_channels(&self) -> usize {
        each!(self, stage => stage.out_channels())
    }

    fn state_counters(&self) -> [u64; 3] {
        each!(self, stage => stage.state_counters())
    }

    fn stored(&self, j: usize) -> WideFrame {
        each!(self, stage => stage.stored(j))
    }
}

/// Passes `count` frames at the front of the input through two dry stages, where each rounds each sample alone: each frame
/// through both before the next. Returns how many.
fn pass_two(
    first: &mut EffectStage,
    second: &mut EffectStage,
    count: usize,
    input: &[i32],
    output: &mut [i32],
) -> usize
    requires first_dry { effect_acts.dry first.old ≡ true }
    requires first_open { (effect_acts.counts first.old).ended ≡ false }
    requires first_bound { (effect_acts.counts first.old).taken + count ≤ (kind effect_acts first.old).limit }
    requires second_dry { effect_acts.dry second.old ≡ true }
    requires second_open { (effect_acts.counts second.old).ended ≡ false }
    requires follows { (effect_acts.counts second.old).taken ≡ (effect_acts.counts first.old).given }
    requires channels { (kind effect_acts second.old).inputs ≡ (kind effect_acts first.old).outputs }
    requires input { count * (kind effect_acts first.old).inputs ≤ length input.now }
    requires free { count * (kind effect_acts second.old).outputs ≤ length output.old }
    ensures bound { result ≤ count }
    ensures keeps { 1 ≤ result → (kind effect_acts second.old).outputs ≡ (kind effect_acts first.old).inputs }
    ensures samples { All (FitsSigned w32) (take (result * (kind effect_acts first.old).inputs) input.now) }
    ensures through { ThroughBoth effect_acts effect_acts (frames_into first.old result input.now) (frames_out_of second.old result output.new)
        first.old first.new second.old second.new }
    ensures rest_unchanged { KeepsRest effect_acts second.old result output.old output.new }
{
    each_by_samples!(first, first => each_by_samples!(second, second => {
        pass_both(first, second, count, input, output);
    }));
    count
}

/// Passes `count` frames at the front of the input through three dry stages, where the middle one is a `remix` and the others
/// round each sample alone, in groups of at most four frames, one more than there are stages. Returns how many.
fn pass_three(
    first: &mut EffectStage,
    middle: &mut EffectStage,
    last: &mut EffectStage,
    count: usize,
    input: &[i32],
    output: &mut [i32],
) -> usize
    requires first_dry { effect_acts.dry first.old ≡ true }
    requires first_open { (effect_acts.counts first.old).ended ≡ false }
    requires first_bound { (effect_acts.counts first.old).taken + count ≤ (kind effect_acts first.old).limit }
    requires middle_dry { effect_acts.dry middle.old ≡ true }
    requires middle_open { (effect_acts.counts middle.old).ended ≡ false }
    requires middle_follows { (effect_acts.counts middle.old).taken ≡ (effect_acts.counts first.old).given }
    requires middle_channels { (kind effect_acts middle.old).inputs ≡ (kind effect_acts first.old).outputs }
    requires last_dry { effect_acts.dry last.old ≡ true }
    requires last_open { (effect_acts.counts last.old).ended ≡ false }
    requires last_follows { (effect_acts.counts last.old).taken ≡ (effect_acts.counts middle.old).given }
    requires last_channels { (kind effect_acts last.old).inputs ≡ (kind effect_acts middle.old).outputs }
    requires input { count * (kind effect_acts first.old).inputs ≤ length input.now }
    requires free { count * (kind effect_acts last.old).outputs ≤ length output.old }
    ensures bound { result ≤ count }
    ensures frame { 1 ≤ result → 1 ≤ (kind effect_acts last.old).outputs }
    ensures samples { All (FitsSigned w32) (take (result * (kind effect_acts first.old).inputs) input.now) }
    ensures through { ThroughThree effect_acts effect_acts effect_acts (frames_into first.old result input.now) (frames_out_of last.old result output.new)
        first.old first.new middle.old middle.new last.old last.new }
    ensures rest_unchanged { KeepsRest effect_acts last.old result output.old output.new }
{
    let EffectStage::Remix(middle) = middle else {
        return 0;
    };
    each_by_samples!(first, first => each_by_samples!(last, last => {
        pass_around(first, middle, last, count, input, output);
    }));
    count
}

impl Feeds for EffectStage {
    #[tactic(auto, using(crate::proofs::Registered::joined_fed))]
    fn feed(&mut self, input: &[i32], output: &mut [i32]) -> Passed {
        each!(self, stage => stage.feed(input, output))
    }

    #[tactic(auto, using(crate::proofs::Registered::joined_passed))]
    #[inline(always)]
    fn pass_samples(&mut self, samples: &mut [i32]) -> Passing {
        each!(self, stage => stage.pass_samples(samples))
    }

    #[inline(never)] // so that the loop over frames stays small enough for its stages to be inlined
    fn pass_places(&mut self, places: &mut [i32; 16], channels: &mut usize) -> Passing {
        match self {
            EffectStage::Remix(stage) => stage.pass_places(places, channels),
            _ => self.pass_samples(&mut places[..*channels]),
        }
    }

    fn forecast(&self) -> Forecast {
        each!(self, stage => stage.forecast())
    }

    #[tactic(auto, using(crate::proofs::Registered::joined_through))]
    fn pass_frames(&mut self, count: usize, samples: &mut [i32]) {
        each!(self, stage => stage.pass_frames(count, samples))
    }
}

impl PassesPipeline for EffectStage {
    fn pass_pipeline(
        stages: &mut [EffectStage],
        channels: usize,
        outputs: usize,
        count: usize,
        input: &[i32],
        output: &mut [i32],
    ) -> usize {
        let Some((first, rest)) = stages.split_first_mut() else {
            return 0;
        };
        let Some((second, rest)) = rest.split_first_mut() else {
            return 0;
        };
        let Some((third, rest)) = rest.split_first_mut() else {
            return pass_two(first, second, count, input, output);
        };
        if !rest.is_empty() {
            return 0;
        }
        pass_three(first, second, third, count, input, output)
    }
}

impl PassesEarly for EffectStage {
    ghost use Rattle.fx_chain_stages.specs.Stages.{early_of};

    ghost early = { early_of };

    fn lined(&self) -> u64 {
        each_selected!(self, stage => stage.lined(), 0)
    }

    #[tactic(auto, using(crate::proofs::Registered::joined_through))]
    fn pass_early<F: PassesWhile>(
        &mut self,
        rest: &mut [F],
        count: usize,
        input: &[i32],
        output: &mut [i32],
    ) {
        each_selected!(
            self,
            stage => stage.pass_early(rest, count, input, output),
            unreachable!()
        )
    }
}
