//! The effect `pad` of sox(1): silence at positions.
ghost use Rattle.std.specs.Prelude.{ℕ, ◌≡◌, ◌<◌, ◌≤◌, ◌+◌, ◌-◌, ◌^◌, drop, filter, length, nat_lt, slice_get, sum_by, Err, IfOk, true, false, map};
ghost use Rattle.std.specs.Int.{w32};
ghost use Rattle.fx_fixed.specs.Extents.{largest};
ghost use Rattle.fx_cut.specs.PadExtents.{pad_distance};
ghost use Rattle.fx_frame_base.specs.PendingFrame.{IsPending};
ghost use Rattle.fx_frame_line.specs.Line.{IsLine};
ghost use Rattle.fx_frame_base.specs.Stage.{Freezes, IsNew, Restores};
ghost use Rattle.fx_cut.specs.Pad.{IsPads, PadArguments, lengths, pads_from_start, placed, silent_at, pad_with};
ghost use Rattle.fx_cut.specs.PadState.{IsPad, IsPadCount, PadState, later_count, pad_acts, pad_rises, silence_from};
ghost use Rattle.fx_frame_base.specs.Frame.{IsChannelCount};

pub mod words;

use crate::extents::max_pad_end;
use crate::many::{PassesMany, feed_by_pieces, pass_by_frame};
use fx_fixed::At;
use fx_frame::frozen::{stored_in, thawed_line_and_pending};
use fx_frame::{
    Counters, Feeds, Forecast, Frame, Line, Passed, Passing, Stage, ThawFault, WideFrame,
};
use fx_frame_base::StageCore;
use fx_frame_base::feed::copy_frames;
use fx_frame_base::stage::MAX_TAKEN;
use std::alloc::{AllocError, Global};
use std::marker::Model;

/// How many silent frames stand before the frame at this place, as far as the pads before the first one from the end determine
/// it.
fn silence_by_starts(pads: &[(u64, At)], place: u64) -> u64
    requires { lengths pads.now ≤ 2 ^ 46 }
    ensures { result ≡ silent_at (pads_from_start pads.now) place }
{
    let mut silent = 0;
    'pads: for (length, at) in pads {
        let At::Start(start) = at else {
            return silent;
        };
        if *start == place {
            silent += *length;
        }
    }
    silent
}

/// How many frames from a place on have no silence before them, as far as the pads before the first one from the end determine
/// it.
fn clear_frames_from(pads: &[(u64, At)], place: u64) -> u64
    ensures { (n : ℕ) → n < result → silent_at (pads_from_start pads.now) (place + n) ≡ 0 }
{
    let mut clear_frames = u64::MAX;
    'pads: for (_length, at) in pads {
        let At::Start(start) = at else {
            return clear_frames;
        };
        if place <= *start {
            clear_frames = clear_frames.min(*start - place);
        }
    }
    clear_frames
}

/// Pads, and the frames with no silence before them that were looked up last.
#[derive(Drop)]
struct Pads {
    pads: Vec<(u64, At)>,
    /// The place of the first of these frames.
    first: u64,
    /// How many there are. From the pads, so that no call scans them for one of these frames.
    clear_frames: u64,
}

// They are the pads.
impl Model for Pads {
    ghost use Rattle.std.specs.Prelude.{ℕ, List, ◌≡◌, ◌<◌, ◌+◌};
    ghost use Rattle.fx_fixed.specs.declared.positions.At.{At};
    ghost use Rattle.fx_cut.specs.Pad.{pads_from_start, silent_at};

    ghost Value = { List (ℕ × At) };

    ghost view = { λ p. p.pads.items };

    ghost invariant = { λ p. (n : ℕ) → n < p.clear_frames → silent_at (pads_from_start p.pads.items) (p.first + n) ≡ 0 };
}

impl Pads {
    /// The pads, of which nothing was looked up.
    fn of(pads: Vec<(u64, At)>) -> Pads
        ensures { result ≡ pads.items }
    {
        Pads {
            pads,
            first: 0,
            clear_frames: 0,
        }
    }

    /// The pads.
    fn all(&self) -> &[(u64, At)]
        ensures { result.now ≡ self.now }
    {
        &self.pads
    }

    /// Whether it is known that the frame at this place has no silence before it, as far as the pads before the first one from
    /// the end determine it.
    #[inline(always)]
    fn is_clear(&self, place: u64) -> bool
        ensures { result ≡ true → silent_at (pads_from_start self.now) place ≡ 0 }
    {
        self.first <= place && place - self.first < self.clear_frames
    }

    /// How many silent frames stand before the frame at this place, as far as the pads before the first one from the end determine
    /// it.
    /// It looks up the frames after that one.
    fn silence_at(&mut self, place: u64) -> u64
        requires { lengths self.old ≤ 2 ^ 46 }
        ensures silent { result ≡ silent_at (pads_from_start self.old) place }
        ensures same { self.new ≡ self.old }
    {
        let first = place.saturating_add(1);
        self.clear_frames = clear_frames_from(&self.pads, first);
        self.first = first;
        silence_by_starts(&self.pads, place)
    }
}

/// How many silent frames stand before the frame at this place, in a sound of `frames` frames.
fn silence_in(pads: &[(u64, At)], frames: u64, place: u64) -> u64
    requires { lengths pads.now ≤ 2 ^ 46 }
    ensures { result ≡ silent_at (placed frames pads.now) place }
{
    let mut last = 0;
    let mut silent = 0;
    'pads: for (length, at) in pads {
        let position = match at {
            At::Start(start) => *start,
            At::End(distance) => frames.saturating_sub(*distance),
        };
        if position > frames {
            continue 'pads;
        }
        last = last.max(position);
        if last == place {
            silent += *length;
        }
    }
    silent
}

/// How many silent frames stand before this place, as far as the pads before the first one from the end determine it.
fn silence_before(pads: &[(u64, At)], end: u64) -> u64
    requires { lengths pads.now ≤ 2 ^ 46 }
    ensures { result ≡ sum_by (λ p. p.0) (filter (λ p. nat_lt p.1 end) (pads_from_start pads.now)) }
{
    let mut silent = 0;
    'pads: for (length, at) in pads {
        let At::Start(start) = at else {
            return silent;
        };
        if *start < end {
            silent += *length;
        }
    }
    silent
}

/// How many silent frames stand at this place or after it, in a sound of `frames` frames.
fn silence_after(pads: &[(u64, At)], frames: u64, place: u64) -> u64
    requires { lengths pads.now ≤ 2 ^ 46 }
    ensures { result ≡ silence_from (placed frames pads.now) place }
{
    let mut last = 0;
    let mut silent = 0;
    'pads: for (length, at) in pads {
        let position = match at {
            At::Start(start) => *start,
            At::End(distance) => frames.saturating_sub(*distance),
        };
        if frames < position {
            continue 'pads;
        }
        last = last.max(position);
        if place <= last {
            silent += *length;
        }
    }
    silent
}

/// How many frames come after those pending, after the end of a sound of `taken` frames, the last of which are in the line.
fn later_frames(pads: &[(u64, At)], taken: u64, lined: u64, pending_count: u64) -> u128
    requires lined { lined ≤ taken }
    requires pads { lengths pads.now ≤ 2 ^ 46 }
    ensures value { result ≡ later_count pads.now taken lined pending_count }
    ensures bound { result ≤ 2 ^ 65 }
{
    if pending_count == 0 {
        return 0;
    }
    u128::from(lined) + u128::from(silence_after(pads, taken, taken - lined))
}

/// Whether a stage of these pads, with `lined` frames in its line and `pending_count` pending, has these counts. Before the end
/// it has given what is due, after the end that and what is still to come are all frames that came and all silence that is put
/// between them.
fn is_count(
    pads: &[(u64, At)],
    taken: u64,
    given: u64,
    silent: u64,
    lined: u64,
    pending_count: u64,
    is_ended: bool,
) -> bool
    requires lined { lined ≤ taken }
    requires pads { lengths pads.now ≤ 2 ^ 46 }
    ensures count { result ≡ true → IsPadCount pads.now taken given silent lined pending_count is_ended }
    ensures other { result ≡ false → IsPadCount pads.now taken given silent lined pending_count is_ended → ⊥ }
{
    let made = u128::from(given) + u128::from(silent) + u128::from(pending_count);
    if is_ended {
        let all = u128::from(taken) + u128::from(silence_after(pads, taken, 0));
        let delivered = made + later_frames(pads, taken, lined, pending_count);
        return (pending_count != 0 || lined == 0) && delivered == all;
    }
    let reach = max_pad_end(pads);
    if lined != taken.min(reach) {
        return false;
    }
    let before = taken.saturating_sub(reach);
    made == u128::from(before) + u128::from(silence_before(pads, before))
}

/// The silent frames before the oldest frame of the line, and that frame, in a sound of `frames` frames that ends with those of
/// the line; at the end of the line the last silent frames.
#[inline(never)]
fn next_padded(line: &mut Line, pads: &[(u64, At)], frames: u64) -> (u64, Option<Frame>)
    requires frames { length line.old.items ≤ frames }
    requires pads { lengths pads.now ≤ 2 ^ 46 }
    ensures silent { result.0 ≡ silent_at (placed frames pads.now) (frames - length line.old.items) }
    ensures oldest { result.1 ≡ slice_get line.old.items 0 }
    ensures items { line.new.items ≡ drop 1 line.old.items }
    ensures pending { IsPending line.old.channels result.1 }
    ensures line { IsLine w32 line.new }
    ensures capacity { line.new.capacity ≡ line.old.capacity }
    ensures channels { line.new.channels ≡ line.old.channels }
{
    let place = frames - line.len() as u64;
    let silent = silence_in(pads, frames, place);
    let first = line.pop_front();
    let _held = line.len();
    if let Some(frame) = first {
        let _channels = frame.channels();
    }
    (silent, first)
}

/// The stage of `pad`: each frame, with the silence of the pads before it, and at the end the silence of those after the last
/// frame. It takes up to `2^56` frames.
#[derive(Drop)]
pub struct Pad {
    core: StageCore,
    channels: usize,
    pads: Pads,
    silent: u64,
    line: Line,
}

impl Model for Pad {
    ghost use Rattle.fx_cut.specs.PadState.{IsPad, PadState};

    ghost Value = { PadState };

    ghost view = { λ s. record { core = s.core; recipe = record { channels = s.channels; pads = s.pads }; silent = s.silent; line = s.line } };

    ghost invariant = { λ s. IsPad (record { core = s.core; recipe = record { channels = s.channels; pads = s.pads }; silent = s.silent; line = s.line }) };
}

impl Pad {
    /// The stage for frames of 1 to 16 channels and these pads, each a length and a position. The positions from the start that
    /// stand before the first one from the end are in order, and the lengths together are at most `2^46`. It holds as many
    /// frames as the greatest distance of a pad from the end, at most `2^28`; AllocError where memory is refused.
    pub fn new(alloc: Global, channels: usize, pads: &[(u64, At)]) -> Result<Pad, AllocError>
        requires channels { IsChannelCount channels }
        requires pads { IsPads pads.now }
        requires line { largest (map pad_distance pads.now) ≤ 2 ^ 28 }
        ensures { IfOk result (IsNew pad_acts (pad_with channels pads.now)) }
    {
        let line = Line::new(alloc, channels, max_pad_end(pads) as usize)?;
        let mut copies = Vec::new(alloc);
        copies.extend_from_slice(pads)?;
        Ok(Pad {
            core: StageCore::new(),
            channels,
            pads: Pads::of(copies),
            silent: 0,
            line,
        })
    }

    /// The stage that stored these frames and counted these numbers: whichever stage of these arguments they came from, that
    /// stage is restored, unless memory is refused. BadSnapshot where there is no such stage, Memory where memory is refused.
    pub fn thaw(
        alloc: Global,
        channels: usize,
        pads: &[(u64, At)],
        frames: &[WideFrame],
        numbers: &[u64; 8],
    ) -> Result<Pad, ThawFault>
        requires channels { IsChannelCount channels }
        requires pads { IsPads pads.now }
        requires line { largest (map pad_distance pads.now) ≤ 2 ^ 28 }
        ensures recipe { IfOk result (λ t. t.recipe ≡ pad_with channels pads.now) }
        ensures frozen { IfOk result (λ t. Freezes pad_acts t frames.now numbers.now) }
        ensures named { (result ≡ Err ThawFault.WrongPlan) → ⊥ }
        ensures thawed { Restores pad_acts IsPad (pad_with channels pads.now) frames.now numbers.now result }
    {
        let [taken, given, ended, 0, held, silent, pending_count, 0] = *numbers else {
            return Err(ThawFault::BadSnapshot);
        };
        let capacity = max_pad_end(pads);
        if ended > 1 || held != frames.len() as u64 {
            return Err(ThawFault::BadSnapshot);
        }
        if taken > MAX_TAKEN || held > taken || pending_count > held {
            return Err(ThawFault::BadSnapshot);
        }
        if !is_count(
            pads,
            taken,
            given,
            silent,
            held - pending_count,
            pending_count,
            ended == 1,
        ) {
            return Err(ThawFault::BadSnapshot);
        }
        let mut copies = Vec::new(alloc);
        let Ok(()) = copies.extend_from_slice(pads) else {
            return Err(ThawFault::Memory);
        };
        let (line, pending) = thawed_line_and_pending(
            alloc,
            channels,
            capacity as usize,
            frames,
            pending_count,
        )?;
        let counters = Counters {
            taken,
            given,
            clips: 0,
            ended: ended == 1,
        };
        Ok(Pad {
            core: StageCore::restored(pending, 0, counters),
            channels,
            pads: Pads::of(copies),
            silent,
            line,
        })
    }
}

impl Stage for Pad {
    ghost Recipe = { PadArguments };

    ghost acts = { pad_acts };

    ghost sound = { λ s. IsPad s };

    ghost rises = { pad_rises };

    fn take(&mut self, frame: Frame) {
        let place = self.core.taken() - self.line.len() as u64;
        self.core.take();
        let fallen = self.line.push(frame);
        let _held = self.line.len();
        let Some(oldest) = fallen else {
            return;
        };
        let _channels = oldest.channels();
        self.silent = self.pads.silence_at(place);
        self.core.set_pending(Some(oldest));
    }

    fn end(&mut self) {
        self.core.end();
        let frames = self.core.taken();
        let (silent, pending) = next_padded(&mut self.line, self.pads.all(), frames);
        self.silent = silent;
        self.core.set_pending(pending);
    }

    fn give(&mut self) -> Option<Frame> {
        if self.silent > 0 {
            self.silent -= 1;
            self.core.give_made(0);
            return Some(Frame::silence(self.channels));
        }
        let frame = self.core.give()?;
        if !self.core.is_ended() {
            return Some(frame);
        }
        let frames = self.core.taken();
        let (silent, pending) = next_padded(&mut self.line, self.pads.all(), frames);
        self.silent = silent;
        self.core.set_pending(pending);
        Some(frame)
    }

    fn is_dry(&self) -> bool {
        !self.core.is_pending() && self.silent == 0
    }

    #[inline(always)]
    fn counter_values(&self) -> Counters {
        self.core.counter_values()
    }

    fn is_spent(&self) -> bool {
        false
    }

    fn held(&self) -> u64 {
        self.line.len() as u64 + u64::from(self.core.is_pending())
    }

    fn hold(&self) -> u64 {
        self.line.capacity() as u64 + 1
    }

    fn in_channels(&self) -> usize {
        self.channels
    }

    fn out_channels(&self) -> usize {
        self.channels
    }

    fn state_counters(&self) -> [u64; 3] {
        [self.silent, u64::from(self.core.is_pending()), 0]
    }

    fn stored(&self, j: usize) -> WideFrame {
        stored_in(&self.line, self.core.pending(), j)
    }
}

impl PassesMany for Pad {
    /// Where it has no line, copies the frames up to the next pad.
    fn pass_many(&mut self, input: &[i32], output: &mut [i32]) -> Passed {
        let channels = self.channels;
        if self.line.capacity() != 0
            || self.core.is_pending()
            || self.silent != 0
            || self.core.is_ended()
        {
            return Passed { taken: 0, given: 0 };
        }
        let first = self.core.taken();
        let clear_frames = clear_frames_from(self.pads.all(), first);
        let count = clear_frames.min((input.len() / channels) as u64) as usize;
        let copied = copy_frames(&input[..count * channels], output, channels);
        self.core.pass(copied, 0);
        Passed {
            taken: copied,
            given: copied,
        }
    }
}

impl Feeds for Pad {
    fn feed(&mut self, input: &[i32], output: &mut [i32]) -> Passed {
        feed_by_pieces(self, input, output)
    }

    #[inline(always)]
    fn pass_samples(&mut self, samples: &mut [i32]) -> Passing {
        let place = self.core.taken();
        let is_known = self.line.capacity() == 0 && self.pads.is_clear(place);
        if is_known {
            self.core.pass(1, 0);
            return Passing::Through;
        }
        pass_by_frame(self, samples)
    }

    /// Where it has no line, it gives one for each of the frames up to the next pad.
    fn forecast(&self) -> Forecast {
        if self.line.capacity() != 0 || self.core.is_ended() {
            return Forecast::endless(0);
        }
        let taken = self.core.taken();
        Forecast::endless(clear_frames_from(self.pads.all(), taken))
    }
}
