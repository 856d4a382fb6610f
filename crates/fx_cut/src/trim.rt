//! The effect `trim` of sox(1): the frames after an odd number of positions.
ghost use Rattle.std.specs.Prelude.{ℕ, ◌≡◌, ◌<◌, ◌≤◌, ◌+◌, ◌-◌, ◌^◌, count_by, if◌then◌else◌, Err, IfOk, map};
ghost use Rattle.std.specs.List.{range_with_len};
ghost use Rattle.fx_fixed.specs.Extents.{end_distance, largest};
ghost use Rattle.fx_fixed.specs.Positions.{place_of, places_of};
ghost use Rattle.fx_frame_base.specs.Stage.{Freezes, IsNew, Restores};
ghost use Rattle.fx_cut.specs.Selected.{IsSelectedState};
ghost use Rattle.fx_cut.specs.Trim.{TrimArguments, keeps, starts, trim_enough, trim_with};
ghost use Rattle.fx_cut.specs.TrimState.{kept_count, trim_acts, trim_selects};
ghost use Rattle.fx_frame_base.specs.Frame.{IsChannelCount};

pub mod words;

use crate::selected::{FrameRun, Selected, Selection};
use fx_fixed::At;
use fx_fixed::inner::max_end;
use fx_frame::{Frame, ThawFault, WideFrame};
use std::alloc::{AllocError, Global};
use std::marker::Model;

/// The frames from a place on, up to the next position, as far as the positions before the first one from the end determine it.
fn frame_run_from(positions: &[At], place: u64) -> FrameRun
    ensures some { 1 ≤ result.frames }
    ensures alike { (n : ℕ) → n < result.frames → keeps (places_of 0 (starts positions.now)) (place + n) ≡ result.is_given }
{
    let mut last: u64 = 0;
    let mut crossed: usize = 0;
    'positions: for at in positions {
        let At::Start(start) = at else {
            return FrameRun {
                is_given: crossed % 2 == 1,
                frames: u64::MAX,
            };
        };
        let next = last.max(*start);
        if place < next {
            return FrameRun {
                is_given: crossed % 2 == 1,
                frames: next - place,
            };
        }
        last = next;
        crossed += 1;
    }
    FrameRun {
        is_given: crossed % 2 == 1,
        frames: u64::MAX,
    }
}

/// The positions of a `trim`, what is enough for them, and the run of frames that was looked up last.
#[derive(Drop)]
pub struct Cuts {
    channels: usize,
    positions: Vec<At>,
    /// From the positions, so that no call scans them to find whether a stage is spent.
    enough: Option<u64>,
    /// The place where that run begins.
    first: u64,
    /// From the positions, so that no call scans them for a frame inside it.
    frame_run: FrameRun,
}

// They are what a `trim` is made with.
impl Model for Cuts {
    ghost use Rattle.std.specs.Prelude.{ℕ, ◌≡◌, ◌<◌, ◌+◌};
    ghost use Rattle.fx_fixed.specs.Positions.{places_of};
    ghost use Rattle.fx_cut.specs.Trim.{TrimArguments, keeps, starts, trim_enough};

    ghost Value = { TrimArguments };

    ghost view = { λ c. record { channels = c.channels; positions = c.positions.items } };

    ghost invariant = { λ c. (c.enough ≡ trim_enough c.positions.items) × ((n : ℕ) → n < c.frame_run.frames → keeps (places_of 0 (starts c.positions.items)) (c.first + n) ≡ c.frame_run.is_given) };
}

impl Cuts {
    /// Those of these positions; AllocError where memory for them is refused.
    fn of(alloc: Global, channels: usize, positions: &[At]) -> Result<Cuts, AllocError>
        ensures { IfOk result (λ c. c ≡ trim_with channels positions.now) }
    {
        let mut copies = Vec::new(alloc);
        copies.extend_from_slice(positions)?;
        Ok(Cuts {
            channels,
            positions: copies,
            enough: enough_of(positions),
            first: 0,
            frame_run: FrameRun {
                is_given: false,
                frames: 0,
            },
        })
    }

    /// Whether the frame at this place is kept, as far as the positions before the first one from the end determine it.
    #[inline(always)]
    fn keeps(&mut self, place: u64) -> bool
        ensures kept { result ≡ keeps (places_of 0 (starts self.old.positions)) place }
        ensures same { self.new ≡ self.old }
    {
        let frame_run = self.frame_run;
        if place < self.first || place - self.first >= frame_run.frames {
            return self.look_up(place);
        }
        frame_run.is_given
    }

    /// The same, for a place outside the run that was looked up last.
    #[inline(never)]
    fn look_up(&mut self, place: u64) -> bool
        ensures kept { result ≡ keeps (places_of 0 (starts self.old.positions)) place }
        ensures same { self.new ≡ self.old }
    {
        let frame_run = frame_run_from(&self.positions, place);
        self.first = place;
        self.frame_run = frame_run;
        frame_run.is_given
    }
}

/// Where a position lies in a sound of `frames` frames.
fn place_in(frames: u64, at: At) -> u64
    ensures { result ≡ place_of frames at }
{
    match at {
        At::Start(start) => start,
        At::End(distance) => frames.saturating_sub(distance),
    }
}

/// Whether the frame at this place is kept, in a sound of `frames` frames.
fn is_kept(positions: &[At], frames: u64, place: u64) -> bool
    ensures { result ≡ keeps (places_of frames positions.now) place }
{
    let mut last = 0;
    let mut crossed: usize = 0;
    'positions: for at in positions {
        let position = place_in(frames, *at);
        last = last.max(position);
        if last <= place {
            crossed += 1;
        }
    }
    crossed % 2 == 1
}

/// The frames from one place on to another, where they are kept.
fn kept_between(is_kept: bool, from: u64, to: u64) -> u64
    ensures { result ≡ (if is_kept then to - from else 0) }
{
    if is_kept { to.saturating_sub(from) } else { 0 }
}

/// How many frames before this place are kept, as far as the positions before the first one from the end determine it.
fn kept_before(positions: &[At], end: u64) -> u64
    ensures { result ≡ count_by (keeps (places_of 0 (starts positions.now))) (range_with_len 0 end) }
{
    let mut last = 0;
    let mut is_kept = false;
    let mut kept = 0;
    'positions: for at in positions {
        let At::Start(start) = at else {
            return kept + kept_between(is_kept, last, end);
        };
        let next = last.max(end.min(*start));
        kept += kept_between(is_kept, last, next);
        is_kept = !is_kept;
        last = next;
    }
    kept + kept_between(is_kept, last, end)
}

/// How many frames before this place are kept, in a sound of `frames` frames.
fn kept_in_sound(positions: &[At], frames: u64, end: u64) -> u64
    ensures { result ≡ kept_count positions.now frames end }
{
    let mut last: u64 = 0;
    let mut is_kept = false;
    let mut kept = 0;
    'positions: for at in positions {
        let position = place_in(frames, *at);
        let next = last.max(end.min(position));
        kept += kept_between(is_kept, last, next);
        is_kept = !is_kept;
        last = next;
    }
    kept + kept_between(is_kept, last, end)
}

/// How many frames are enough, where the positions determine that.
fn enough_of(positions: &[At]) -> Option<u64>
    ensures { result ≡ trim_enough positions.now }
{
    let mut last = 0;
    'positions: for at in positions {
        let At::Start(start) = at else {
            return None;
        };
        last = last.max(*start);
    }
    if positions.len() % 2 != 0 {
        return None;
    }
    Some(last)
}

impl Selection for Cuts {
    ghost use Rattle.fx_cut.specs.TrimState.{trim_selects};
    ghost use Rattle.fx_cut.specs.TrimDetermined.{trim-determined};

    ghost selects = { trim_selects };

    ghost determined = { trim-determined };

    fn channels(&self) -> usize {
        self.channels
    }

    #[inline(always)]
    fn enough(&self) -> Option<u64> {
        self.enough
    }

    fn due(&self, taken: u64) -> u64 {
        let reach = max_end(&self.positions);
        kept_before(&self.positions, taken.saturating_sub(reach))
    }

    fn given_before(&self, frames: u64, place: u64) -> u64 {
        kept_in_sound(&self.positions, frames, place)
    }

    fn frame_run_from(&self, place: u64) -> FrameRun {
        frame_run_from(&self.positions, place)
    }

    fn select(&mut self, frame: Frame, place: u64) -> Option<Frame> {
        if !self.keeps(place) {
            return None;
        }
        let _channels = frame.channels();
        Some(frame)
    }

    #[inline(always)]
    fn select_over(&mut self, samples: &mut [i32], place: u64) -> bool {
        self.keeps(place)
    }

    fn selected_in(&self, frame: Frame, frames: u64, place: u64) -> Option<Frame> {
        if !is_kept(&self.positions, frames, place) {
            return None;
        }
        let _channels = frame.channels();
        Some(frame)
    }

    fn select_many(&self, samples: &mut [i32], channels: usize, count: usize, place: u64) {}
}

/// The stage of `trim`: the frames after an odd number of positions, in order. It takes up to `2^56` frames.
pub type Trim = Selected<Cuts>;

impl Selected<Cuts> {
    /// The stage for frames of 1 to 16 channels and these positions, one after the other: a position before the previous
    /// one counts as that one. It holds as many frames as the greatest distance of a position from the end, at most `2^28`;
    /// AllocError where memory is refused.
    pub fn new(alloc: Global, channels: usize, positions: &[At]) -> Result<Trim, AllocError>
        requires channels { IsChannelCount channels }
        requires line { largest (map end_distance positions.now) ≤ 2 ^ 28 }
        ensures { IfOk result (IsNew trim_acts (trim_with channels positions.now)) }
    {
        let cuts = Cuts::of(alloc, channels, positions)?;
        Selected::of(alloc, cuts, max_end(positions))
    }

    /// The stage that stored these frames and counted these numbers: whichever stage of these arguments they came from, that
    /// stage is restored, unless memory is refused. BadSnapshot where there is no such stage, Memory where memory is refused.
    pub fn thaw(
        alloc: Global,
        channels: usize,
        positions: &[At],
        frames: &[WideFrame],
        numbers: &[u64; 8],
    ) -> Result<Trim, ThawFault>
        requires channels { IsChannelCount channels }
        requires line { largest (map end_distance positions.now) ≤ 2 ^ 28 }
        ensures recipe { IfOk result (λ t. t.arguments ≡ trim_with channels positions.now) }
        ensures frozen { IfOk result (λ t. Freezes trim_acts t frames.now numbers.now) }
        ensures named { (result ≡ Err ThawFault.WrongPlan) → ⊥ }
        ensures thawed { Restores trim_acts (IsSelectedState trim_selects) (trim_with channels positions.now)
            frames.now numbers.now result }
    {
        let Ok(cuts) = Cuts::of(alloc, channels, positions) else {
            return Err(ThawFault::Memory);
        };
        Selected::thawed(alloc, cuts, max_end(positions), frames, numbers)
    }
}
