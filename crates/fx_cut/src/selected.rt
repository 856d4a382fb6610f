//! Effects that give each frame, changed or unchanged, or omit it, by its place in the sound: a frame waits in a
//! line until that is determined.
ghost use Rattle.std.specs.Prelude.{ℕ, ◌≡◌, ◌<◌, ◌≤◌, ◌+◌, ◌-◌, ◌*◌, ◌^◌, [], length, map, Err, FitsSigned, IfOk, None, option_to_list, true, false, if◌then◌else◌};
ghost use Rattle.std.specs.Int.{w32};
ghost use Rattle.std.specs.List.{All};
ghost use Rattle.fx_frame_base.specs.PendingFrame.{IsPending};
ghost use Rattle.fx_frame_line.specs.Line.{IsLine};
ghost use Rattle.fx_frame_base.specs.Lists.{pieces};
ghost use Rattle.fx_frame_base.specs.Stage.{Freezes, IsNew, is_enough, Restores};
ghost use Rattle.fx_frame_base.specs.Given.{plain};
ghost use Rattle.fx_cut.specs.Selected.{AreDetermined, IsSelectCount, Selects, SelectedState, given_before, made_along, determined_in, selected_acts, selected_here, CountsFirst, SelectsFirst, IsSelectedState};
ghost use Rattle.fx_frame_base.specs.Frame.{IsChannelCount};

use crate::lines::{exchange_full, push_over};
use crate::many::{PassesMany, feed_by_pieces};
use fx_frame::frozen::{stored_in, thawed_line_and_pending};
use fx_frame::{
    Counters, Feeds, Forecast, Frame, Line, Passed, Passing, Stage, ThawFault, WideFrame,
};
use fx_frame_base::StageCore;
use fx_frame_base::feed::see_samples;
use fx_frame_base::pipeline::{PassesEarly, PassesPipeline, PassesWhile, pass_in_place};
use fx_frame_base::stage::MAX_TAKEN;
use std::alloc::{AllocError, Global};
use std::marker::Model;

/// Frames that follow one another and are all given, or all left out.
#[derive(Clone, Copy, Drop)]
pub struct FrameRun {
    /// They are given.
    pub is_given: bool,
    /// How many there are, or more.
    pub frames: u64,
}

/// What an effect gives of each frame of a sound.
pub trait Selection {
    /// Which frames it gives, and with which samples.
    ghost selects: { Selects Self };

    /// What is given of a frame is determined as many frames later as its reach.
    ghost determined: { AreDetermined selects };

    /// The channels of the frames.
    fn channels(&self) -> usize
        ensures { result ≡ selects.channels self.now };

    /// How many frames are enough, if any number is.
    fn enough(&self) -> Option<u64>
        ensures { result ≡ selects.enough self.now };

    /// How many frames are given after `taken` frames, with no end.
    fn due(&self, taken: u64) -> u64
        ensures { result ≡ selects.due self.now taken };

    /// How many of the frames before this place are given, in a sound of `frames` frames.
    fn given_before(&self, frames: u64, place: u64) -> u64
        ensures { result ≡ given_before selects self.now frames place };

    /// The frames from this place on that are all given, or all left out, once they are determined.
    fn frame_run_from(&self, place: u64) -> FrameRun
        ensures some { 1 ≤ result.frames }
        ensures alike { (n : ℕ) → n < result.frames → selects.gives self.now (determined_in selects self.now (place + n)) (place + n) ≡ result.is_given };

    /// What is given of the frame at this place, which is determined.
    fn select(&mut self, frame: Frame, place: u64) -> Option<Frame>
        requires place { place ≤ 2 ^ 56 }
        ensures value { map plain (option_to_list result) ≡ selected_here selects self.old (determined_in selects self.old place) place frame }
        ensures fits { IsPending (length frame) result }
        ensures same { self.new ≡ self.old };

    /// Whether the frame of these samples at this place, which is determined, is given. Its samples are those that are given
    /// then.
    fn select_over(&mut self, samples: &mut [i32], place: u64) -> bool
        requires fit { All (FitsSigned w32) samples.old }
        requires place { place ≤ 2 ^ 56 }
        ensures given { result ≡ selects.gives self.old (determined_in selects self.old place) place }
        ensures samples { result ≡ true → plain samples.new ≡ selects.made self.old (determined_in selects self.old place) place samples.old }
        ensures left { result ≡ false → samples.new ≡ samples.old }
        ensures fit { All (FitsSigned w32) samples.new }
        ensures len { length samples.new ≡ length samples.old }
        ensures same { self.new ≡ self.old };

    /// What is given of the frame at this place, in a sound of `frames` frames.
    fn selected_in(&self, frame: Frame, frames: u64, place: u64) -> Option<Frame>
        ensures value { map plain (option_to_list result) ≡ selected_here selects self.now frames place frame }
        ensures fits { IsPending (length frame) result };

    /// Makes `count` frames that are all given, the first of which is that at this place, in place.
    fn select_many(&self, samples: &mut [i32], channels: usize, count: usize, place: u64)
        requires channels { 1 ≤ channels }
        requires frames { length samples.old ≡ count * channels }
        requires fit { All (FitsSigned w32) samples.old }
        requires place { place + count ≤ 2 ^ 56 }
        ensures frames { map plain (pieces channels count samples.new) ≡ made_along selects self.now place (pieces channels count samples.old) }
        ensures fit { All (FitsSigned w32) samples.new }
        ensures len { length samples.new ≡ length samples.old };
}

/// How many frames a stage may still take before it has enough.
fn wanted(enough: Option<u64>, taken: u64) -> u64
    ensures { (n : ℕ) → n < result → is_enough enough (taken + n) ≡ false }
{
    match enough {
        None => u64::MAX,
        Some(enough) => enough.saturating_sub(taken),
    }
}

/// How many of the frames that fell out of the line are given, where they are given.
fn given_of(is_given: bool, fallen: usize) -> usize
    ensures { result ≡ (if is_given then fallen else 0) }
{
    if is_given { fallen } else { 0 }
}

/// Whether a stage of reach `reach`, with `lined` frames in its line and `pending_count` pending, has these counts. Before the
/// end it has given what is due, after the end those that are given before the line, and it has a pending frame unless its line
/// is empty.
fn is_count<S: Selection>(
    selection: &S,
    reach: u64,
    taken: u64,
    given: u64,
    lined: u64,
    pending_count: u64,
    is_ended: bool,
) -> bool
    requires reach { reach ≡ S.selects.reach selection.now }
    requires bound { given + pending_count + lined ≤ taken }
    ensures count { result ≡ true → IsSelectCount S.selects selection.now taken given lined pending_count is_ended }
    ensures other { result ≡ false → IsSelectCount S.selects selection.now taken given lined pending_count is_ended → ⊥ }
{
    if is_ended {
        let is_over = pending_count != 0 || lined == 0;
        return is_over && given + pending_count == selection.given_before(taken, taken - lined);
    }
    if lined != taken.min(reach) {
        return false;
    }
    given + pending_count == selection.due(taken)
}

/// Takes frames out of the line until one is given, in a sound of `frames` frames that ends with those of the line; None where
/// none is left.
#[inline(never)]
fn next_selected<S: Selection>(line: &mut Line, selection: &S, frames: u64) -> Option<Frame>
    requires { length line.old.items ≤ frames }
    ensures rest { SelectsFirst S.selects selection.now frames line.old.items result line.new.items }
    ensures given { CountsFirst S.selects selection.now frames line.old.items result line.new.items }
    ensures empty { result ≡ None → line.new.items ≡ [] }
    ensures bound { length (option_to_list result) + length line.new.items ≤ length line.old.items }
    ensures pending { IsPending line.old.channels result }
    ensures line { IsLine w32 line.new }
    ensures capacity { line.new.capacity ≡ line.old.capacity }
    ensures channels { line.new.channels ≡ line.old.channels }
{
    let mut left = line.len() as u64;
    'frames: while let Some(oldest) = line.pop_front() {
        let selected = selection.selected_in(oldest, frames, frames - left);
        let _held = line.len();
        left -= 1;
        if selected.is_some() {
            return selected;
        }
    }
    None
}

/// The stage of an effect that gives each frame, changed or unchanged, or omits it. It takes up to `2^56` frames, and holds
/// as many as its reach has. No sample is clipped.
#[derive(Drop)]
pub struct Selected<S: Selection + Drop> {
    core: StageCore,
    selection: S,
    line: Line,
}

impl<S: Selection + Drop> Model for Selected<S> {
    ghost use Rattle.fx_cut.specs.Selected.{IsSelectedState, SelectedState};

    ghost Value = { SelectedState S };

    ghost view = { λ s. record { core = s.core; line = s.line; arguments = s.selection } };

    ghost invariant = { λ s. IsSelectedState S.selects
        (record { core = s.core; line = s.line; arguments = s.selection }) };
}

impl<S: Selection + Drop> Selected<S> {
    ghost use Rattle.fx_cut.specs.Selected.{IsSelectedState, SelectedState};

    /// The stage of an effect of such a reach; AllocError where memory for its line is refused.
    pub(crate) fn of(alloc: Global, selection: S, reach: u64) -> Result<Selected<S>, AllocError>
        requires channels { IsChannelCount (S.selects.channels selection) }
        requires reach { reach ≡ S.selects.reach selection }
        requires line { reach ≤ 2 ^ 28 }
        ensures { IfOk result (IsNew (selected_acts S.selects) selection) }
    {
        let line = Line::new(alloc, selection.channels(), reach as usize)?;
        Ok(Selected {
            core: StageCore::new(),
            selection,
            line,
        })
    }

    /// The stage that stored these frames and counted these numbers. BadSnapshot where there is none, Memory where memory is
    /// refused.
    pub(crate) fn thawed(
        alloc: Global,
        selection: S,
        reach: u64,
        frames: &[WideFrame],
        numbers: &[u64; 8],
    ) -> Result<Selected<S>, ThawFault>
        requires channels { IsChannelCount (S.selects.channels selection) }
        requires reach { reach ≡ S.selects.reach selection }
        requires line { reach ≤ 2 ^ 28 }
        ensures recipe { IfOk result (λ t. t.arguments ≡ selection) }
        ensures frozen { IfOk result (λ t. Freezes (selected_acts S.selects) t frames.now numbers.now) }
        ensures named { (result ≡ Err ThawFault.WrongPlan) → ⊥ }
        ensures thawed { Restores (selected_acts S.selects) (IsSelectedState S.selects) selection frames.now numbers.now result }
    {
        let [taken, given, ended, 0, held, pending_count, 0, 0] = *numbers else {
            return Err(ThawFault::BadSnapshot);
        };
        if ended > 1 || held != frames.len() as u64 {
            return Err(ThawFault::BadSnapshot);
        }
        if taken > MAX_TAKEN || given > taken || held > taken - given || pending_count > held {
            return Err(ThawFault::BadSnapshot);
        }
        let lined = held - pending_count;
        if !is_count(
            &selection,
            reach,
            taken,
            given,
            lined,
            pending_count,
            ended == 1,
        ) {
            return Err(ThawFault::BadSnapshot);
        }
        let channels = selection.channels();
        let (line, pending) = thawed_line_and_pending(
            alloc,
            channels,
            reach as usize,
            frames,
            pending_count,
        )?;
        let counters = Counters {
            taken,
            given,
            clips: 0,
            ended: ended == 1,
        };
        Ok(Selected {
            core: StageCore::restored(pending, 0, counters),
            selection,
            line,
        })
    }
}

impl<S: Selection + Drop> Stage for Selected<S> {
    ghost use Rattle.fx_cut.specs.Selected.{IsSelectedState, selected_acts};

    ghost Recipe = { S };

    ghost acts = { selected_acts S.selects };

    ghost sound = { λ s. IsSelectedState S.selects s };

    ghost rises = { λ r m n h. h };

    fn take(&mut self, frame: Frame) {
        let taken = self.core.taken();
        let place = taken - self.line.len() as u64;
        self.core.take();
        let fallen = self.line.push(frame);
        let _held = self.line.len();
        let Some(oldest) = fallen else {
            return;
        };
        self.core.set_pending(self.selection.select(oldest, place));
    }

    fn end(&mut self) {
        let frames = self.core.taken();
        self.core.end();
        let next = next_selected(&mut self.line, &self.selection, frames);
        self.core.set_pending(next);
    }

    fn give(&mut self) -> Option<Frame> {
        let frame = self.core.give()?;
        if !self.core.is_ended() {
            return Some(frame);
        }
        let frames = self.core.taken();
        let next = next_selected(&mut self.line, &self.selection, frames);
        self.core.set_pending(next);
        Some(frame)
    }

    fn is_dry(&self) -> bool {
        !self.core.is_pending()
    }

    #[inline(always)]
    fn counter_values(&self) -> Counters {
        self.core.counter_values()
    }

    fn is_spent(&self) -> bool {
        let Some(enough) = self.selection.enough() else {
            return false;
        };
        !self.core.is_pending() && enough <= self.core.taken()
    }

    fn held(&self) -> u64 {
        self.line.len() as u64 + u64::from(self.core.is_pending())
    }

    fn hold(&self) -> u64 {
        self.line.capacity() as u64 + 1
    }

    fn in_channels(&self) -> usize {
        self.selection.channels()
    }

    fn out_channels(&self) -> usize {
        self.selection.channels()
    }

    fn state_counters(&self) -> [u64; 3] {
        [u64::from(self.core.is_pending()), 0, 0]
    }

    fn stored(&self, j: usize) -> WideFrame {
        stored_in(&self.line, self.core.pending(), j)
    }
}

impl<S: Selection + Drop> PassesMany for Selected<S> {
    /// Passes the frames up to those that push other frames out of the line than the first: all of those are given, or none.
    fn pass_many(&mut self, input: &[i32], output: &mut [i32]) -> Passed {
        let channels = self.selection.channels();
        if self.core.is_pending() || self.core.is_ended() || output.len() < channels {
            return Passed { taken: 0, given: 0 };
        }
        let lined = self.line.len();
        let free = self.line.capacity() - lined;
        let taken = self.core.taken();
        let place = taken - lined as u64;
        let frame_run = self.selection.frame_run_from(place);
        let ahead = frame_run
            .frames
            .saturating_add(free as u64)
            .min(wanted(self.selection.enough(), taken));
        let maximum = (input.len() / channels).min(output.len() / channels + free);
        let count = ahead.min(maximum as u64) as usize;
        let given = given_of(frame_run.is_given, count.saturating_sub(free));
        let frames = &input[..count * channels];
        self.line.oldest_into(frames, given, output);
        self.line.push_frames(frames, count);
        let made = &mut output[..given * channels];
        self.selection.select_many(made, channels, given, place);
        let _held = self.line.len();
        self.core.take_many(count as u64);
        self.core.give_many(given as u64);
        Passed {
            taken: count,
            given,
        }
    }
}

impl<S: Selection + Drop> Feeds for Selected<S> {
    fn feed(&mut self, input: &[i32], output: &mut [i32]) -> Passed {
        feed_by_pieces(self, input, output)
    }

    #[inline(always)]
    fn pass_samples(&mut self, samples: &mut [i32]) -> Passing {
        let place = self.core.taken() - self.line.len() as u64;
        self.core.take();
        let is_out = push_over(&mut self.line, samples);
        let _held = self.line.len();
        if !is_out {
            return Passing::Kept;
        }
        if !self.selection.select_over(samples, place) {
            return Passing::Kept;
        }
        self.core.give_made(0);
        Passing::Through
    }

    /// As many are due as come, so the line has no space for one more, and each frame that falls out of it is given.
    fn pass_frames(&mut self, count: usize, samples: &mut [i32]) {
        let channels = self.selection.channels();
        let place = self.core.taken() - self.line.len() as u64;
        see_samples(samples);
        exchange_full(&mut self.line, channels, samples, count);
        see_samples(samples);
        self.selection.select_many(samples, channels, count, place);
        let _held = self.line.len();
        let passed = count as u64;
        self.core.take_many(passed);
        self.core.give_many(passed);
    }

    /// None is due for the frames that fill its line, and those that push omitted ones out of it. Once the line is full, it gives
    /// one for each of those that push given ones out of it.
    fn forecast(&self) -> Forecast {
        let taken = self.core.taken();
        let reach = self.line.capacity() as u64;
        let free = reach.saturating_sub(taken);
        let frame_run = self.selection.frame_run_from(taken.saturating_sub(reach));
        let ahead = wanted(self.selection.enough(), taken);
        if !frame_run.is_given {
            return Forecast {
                ahead,
                one_to_one: 0,
                none_due: free.saturating_add(frame_run.frames),
            };
        }
        if free > 0 {
            return Forecast {
                ahead,
                one_to_one: 0,
                none_due: free,
            };
        }
        Forecast {
            ahead,
            one_to_one: frame_run.frames,
            none_due: 0,
        }
    }
}

impl<S: Selection + Drop> PassesPipeline for Selected<S> {}

impl<S: Selection + Drop> PassesEarly for Selected<S> {
    ghost early = { λ s. length s.line.items };

    fn lined(&self) -> u64 {
        let frames = self.line.len();
        frames as u64
    }

    fn pass_early<F: PassesWhile>(
        &mut self,
        rest: &mut [F],
        count: usize,
        input: &[i32],
        output: &mut [i32],
    ) {
        let channels = self.selection.channels();
        let place = self.core.taken() - self.line.len() as u64;
        see_samples(input);
        self.line.pop_frames(count, output);
        self.selection.select_many(output, channels, count, place);
        pass_in_place(rest, &self.line, channels, count, output);
        self.line.push_frames(input, count);
        let _held = self.line.len();
        let frames = count as u64;
        self.core.take_many(frames);
        self.core.give_many(frames);
    }
}
