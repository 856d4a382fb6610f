ghost use Rattle.std.specs.Prelude.{◌≡◌, ◌<◌, ◌≤◌, ◌+◌, ◌-◌, ◌++◌, ◌∷◌, ℕ, true, false, List, [], length, map, slice_index, option_to_list, Option, Some, None, IfOk, OnOk, MatchResult, Err, ◌*◌, drop};
ghost use Rattle.std.specs.List.{All};
ghost use Rattle.fx_chain_flow.specs.Frozen.{FreezesFlow, AllMade, AllSound};
ghost use Rattle.fx_frame_base.specs.Frame.{IsChannelCount, Samples};
ghost use Rattle.fx_frame_base.specs.Holds.{recipes, kinds, hold_sum, line_sum, held_sum, capacity_sum, total};
ghost use Rattle.fx_chain_flow.specs.Feed.{FlowFedSamples, FlowGaveSamples, FlowPlaced, FlowStopped, FlowTookWithinSpace, GaveLastWhenFull, channels_out, held_of};
ghost use Rattle.fx_frame_base.specs.Pipeline.{outputs_of};
ghost use Rattle.fx_frame_base.specs.Lists.{pieces};
ghost use Rattle.fx_chain_flow.specs.Inlets.{StartsWithInlet};
ghost use Rattle.fx_chain_flow.specs.Order.{FedInOrder, FedOnInOrder, GivesInOrder, StaysInOrder, TakesInOrder};
ghost use Rattle.fx_chain_flow.specs.Runs.{flow_of};
ghost use Rattle.fx_chain_flow.specs.Steps.{given_out, step_of};
ghost use Rattle.fx_chain_flow.specs.Thawing.{MakePlanned, ThawsFlow};

use crate::feed::feed_by_steps;
use crate::frozen::{
    HELD, Inlet, append_frames, append_inlet, append_numbers, is_joined, thaw_all, thaw_inlet,
};
use crate::moves::{
    first_open, given_by_all, given_by_last, is_any_spent, is_idle, last_channels, move_on,
    pass_on, see_held, see_lined, wet_end,
};
use crate::runs::{CommonForecast, Widths, keeps_channels, min_forecast, run};
use crate::stage_calls::StageCalls;
use fx_frame_base::Passed;
use fx_frame_base::feed::copy_frames;
use fx_frame_base::frame::Frame;
use fx_frame_base::holds::{held_by, hold_by};
pub use fx_frame_base::stage::MAX_FRAMES;
use fx_frame_base::stage::{Stage, ThawFault, Thaws};
use fx_frame_base::wide::WideFrame;
use std::alloc::{AllocError, Global};
use std::marker::Model;

/// What a flow waits for.
#[derive(Clone, Copy, Debug, PartialEq, Eq)]
pub enum State {
    /// For a frame or the end: the inlet is empty, no end was given, all stages are dry.
    Hungry,
    /// For steps.
    Busy,
    /// For nothing: the end was given, all stages are ended and dry.
    Done,
}

/// What a step did.
#[derive(Clone, Copy, Debug, PartialEq, Eq)]
pub enum Step {
    /// It moved a frame from the inlet or a stage to the next stage.
    Moved,
    /// It moved a frame out.
    Given(Frame),
    /// It gave a stage the end.
    Idle,
}

/// Stages in sequence, each of which takes what the one before gives, after an inlet of one frame.
///
/// It takes a frame, or is given the end, only where it is hungry. Then it is stepped until it is hungry
/// again, or done. A step moves one frame, so between two steps the frames that it holds are those
/// in the inlet, in the lines of the stages and pending in the stages.
#[derive(Drop)]
pub struct Flow<S: Stage> {
    stages: Vec<S>,
    inlet: Option<Frame>,
    /// One place after the last stage that is not dry; 0 where all are dry.
    wet: usize,
    /// The frames that left the inlet.
    left: u64,
    channels: usize,
    ended: bool,
}

impl<S: Stage> Model for Flow<S> {
    ghost use Rattle.std.specs.Prelude.{◌≡◌, drop};
    ghost use Rattle.fx_chain_flow.specs.Parts.{Parts, IsWetEnd};
    ghost use Rattle.fx_chain_flow.specs.Pipeline.{AllHeld, AllLined};
    ghost use Rattle.fx_chain_flow.specs.Sound.{IsSound};

    ghost Value = { Parts S };

    ghost view = { λ f. record { stages = f.stages.items; inlet = f.inlet; ended = f.ended; left = f.left; channels = f.channels } };

    ghost invariant = { λ f. IsSound S.acts (record { stages = f.stages.items; inlet = f.inlet; ended = f.ended; left = f.left; channels = f.channels }) × IsWetEnd S.acts f.wet f.stages.items × AllHeld S.acts f.stages.items × AllLined S.acts (drop f.wet f.stages.items) };
}

impl<S: Stage> Flow<S> {
    ghost use Rattle.fx_chain_flow.specs.Parts.{Parts, taken_of, moves_of, ended_of, AllNew, AllDetermined, given_by, max_of, work, any_spent};
    ghost use Rattle.fx_chain_flow.specs.Sound.{IsPlanned, IsSound, max_frames};
    ghost use Rattle.fx_chain_flow.specs.Steps.{GaveDue, GivenIsBounded, IsDone, IsHungry, RestIsComposed, StateIs, StepsAreBounded, WholesAreComposed, clips_in_all, given_in_all, has_enough, rest_of};

    /// New stages in sequence, which takes frames of `channels` channels.
    pub fn new(stages: Vec<S>, channels: usize) -> Flow<S>
        requires new { AllNew S.acts stages.items }
        requires planned { IsPlanned (kinds S.acts stages.items) channels }
        ensures hungry { IsHungry S.acts result }
        ensures value { result ≡ flow_of S.acts channels stages.items 0 }
        ensures rest { RestIsComposed S.acts result stages.items }
        ensures whole { WholesAreComposed S.acts result stages.items }
        ensures none_given { given_by S.acts result.left result.stages ≡ 0 }
    {
        let wet = wet_end(&stages, stages.len());
        Flow {
            stages,
            inlet: None,
            wet,
            left: 0,
            channels,
            ended: false,
        }
    }

    /// What it waits for. Where it is hungry, the last stage has given all frames that are due for
    /// those taken. However many steps are made in sequence from here on, they are no more than the remaining work,
    /// and one for each stage: so it is hungry or done after at most that many.
    #[inline(always)]
    pub fn state(&self) -> State
        ensures state { StateIs S.acts result self.now }
        ensures bounded { StepsAreBounded S.acts self.now }
        ensures due { result ≡ State.Hungry → GaveDue S.acts self.now }
    {
        if self.wet > 0 {
            return State::Busy;
        }
        if let Some(_) = self.inlet {
            return State::Busy;
        }
        if !self.ended {
            return State::Hungry;
        }
        if let Some(_) = first_open(&self.stages) {
            return State::Busy;
        }
        State::Done
    }

    /// The channels of the frames that it takes.
    pub fn in_channels(&self) -> usize
        ensures { result ≡ self.now.channels }
    {
        self.channels
    }

    /// The channels of the frames that it gives.
    pub fn out_channels(&self) -> usize
        ensures { result ≡ channels_out S.acts self.now }
    {
        last_channels(self.channels, &self.stages)
    }

    /// How many frames it took.
    pub fn taken(&self) -> u64
        ensures value { result ≡ taken_of self.now }
        ensures bound { result ≤ max_frames }
    {
        self.left + u64::from(self.inlet.is_some())
    }

    /// How many frames it gave.
    pub fn given(&self) -> u64
        ensures { result ≡ given_by S.acts self.now.left self.now.stages }
    {
        given_by_last(self.left, &self.stages)
    }

    /// How many frames left the inlet or a stage. For the frames taken it is at most their work; where
    /// it is done, it is the frames taken and the frames that each stage gives in all.
    pub fn moves(&self) -> u64
        ensures value { result ≡ moves_of S.acts self.now }
        ensures within { result ≤ work (kinds S.acts self.now.stages) (taken_of self.now) }
        ensures done { IsDone S.acts self.now → result ≡ taken_of self.now + given_in_all S.acts self.now }
    {
        self.left + given_by_all(&self.stages)
    }

    /// How many frames it holds: in the inlet, and in the stages.
    pub fn held(&self) -> u64
        ensures value { result ≡ held_of S.acts self.now }
        ensures within { result ≤ 1 + hold_sum (kinds S.acts self.now.stages) }
    {
        u64::from(self.inlet.is_some()) + held_by(&self.stages)
    }

    /// How many frames it may hold. The capacities of the lines are those that the arguments of the stages require.
    pub fn hold(&self) -> u64
        ensures value { result ≡ 1 + hold_sum (kinds S.acts self.now.stages) }
        ensures lines { result ≡ 1 + line_sum (kinds S.acts self.now.stages) + length self.now.stages }
        ensures capacities { capacity_sum S.acts self.now.stages ≡ line_sum (kinds S.acts self.now.stages) }
    {
        1 + hold_by(&self.stages)
    }

    /// How many samples were clipped in the frames that a stage gave; stages count from 0.
    pub fn clips(&self, i: usize) -> u64
        requires { i < length self.now.stages }
        ensures value { result ≡ slice_index (map (λ s. (S.acts.counts s).clips) self.now.stages) i }
        ensures done { IsDone S.acts self.now → result ≡ slice_index (clips_in_all S.acts self.now) i }
    {
        let stages = &self.stages;
        stages[i].clips()
    }

    /// Whether some stage gives nothing more, whatever input follows. Then no further frame changes what is
    /// still to be given.
    pub fn is_spent(&self) -> bool
        ensures value { result ≡ any_spent S.acts self.now.stages }
        ensures enough { IsHungry S.acts self.now → result ≡ has_enough S.acts self.now }
        ensures same { result ≡ true → (z : List Samples) → rest_of S.acts self.now z ≡ rest_of S.acts self.now [] }
    {
        is_any_spent(&self.stages)
    }

    /// The frames that it holds, first that of the inlet, then those of each stage; and eight numbers of the
    /// inlet and eight of each stage.
    pub fn freeze(&self, alloc: Global) -> Result<(Vec<WideFrame>, Vec<u64>), AllocError>
        ensures frozen { IfOk result (λ p. FreezesFlow S.acts self.now p.0.items p.1.items) }
        ensures frames { IfOk result (λ p. length p.0.items ≡ held_of S.acts self.now) }
        ensures numbers { IfOk result (λ p. length p.1.items ≡ 8 * (length self.now.stages + 1)) }
        ensures sound { OnOk result (IsSound S.acts self.now × AllSound S.sound self.now.stages) }
    {
        let held = u64::from(self.inlet.is_some());
        let of_inlet = [
            self.taken(),
            self.left,
            u64::from(self.ended),
            0,
            held,
            0,
            0,
            0,
        ];
        let mut numbers = Vec::new(alloc);
        numbers.extend_from_slice(&of_inlet)?;
        append_numbers(&self.stages, &mut numbers)?;
        let mut frames = Vec::new(alloc);
        append_inlet(&self.inlet, &mut frames)?;
        append_frames(&self.stages, &mut frames)?;
        Ok((frames, numbers))
    }

    /// The stages, in order. The last has given no more frames than it may give for those taken, and where the flow is
    /// hungry each has given all that are due.
    pub fn stages(&self) -> &[S]
        ensures value { result.now ≡ self.now.stages }
        ensures due { IsHungry S.acts self.now → GaveDue S.acts self.now }
        ensures maximum { GivenIsBounded S.acts self.now }
        ensures determined { IsHungry S.acts self.now → AllDetermined S.acts self.now.stages }
        ensures sound { IsSound S.acts self.now }
    {
        &self.stages
    }

    /// Whether it was given the end.
    pub fn is_ended(&self) -> bool
        ensures { result ≡ self.now.ended }
    {
        self.ended
    }

    /// The frame in the inlet, if there is one.
    pub fn inlet(&self) -> Option<Frame>
        ensures { result ≡ self.now.inlet }
    {
        self.inlet
    }
}

impl<S: StageCalls> Flow<S> {
    ghost use Rattle.fx_chain_flow.specs.Parts.{Parts, taken_of};
    ghost use Rattle.fx_chain_flow.specs.Sound.{max_frames};
    ghost use Rattle.fx_chain_flow.specs.Steps.{IsHungry, MovedOn, StateIs, Steps, StepsOn};

    /// Takes a frame.
    #[inline(always)]
    pub fn take(&mut self, frame: Frame)
        requires hungry { IsHungry S.acts self.old }
        requires channels { length frame ≡ self.old.channels }
        requires bound { taken_of self.old < max_frames }
        ensures value { self.new ≡ record self.old { inlet = Some frame } }
        ensures order { TakesInOrder S.acts S.handed S.passed_while frame self.old self.new }
    {
        let _channels = frame.channels();
        self.inlet = Some(frame);
    }

    /// Gives it the end: no frame will come.
    pub fn end(&mut self)
        requires { IsHungry S.acts self.old }
        ensures value { self.new ≡ record self.old { ended = true } }
        ensures order { StaysInOrder S.acts S.handed S.passed_while self.old self.new }
    {
        self.ended = true;
    }

    /// Moves one frame from the last stage that is not dry; where all are dry, from the inlet; where
    /// that is empty too and the end was given, gives the end to the first stage that is not ended.
    #[inline(always)]
    pub fn step(&mut self) -> Step
        requires { StateIs S.acts State.Busy self.old }
        ensures steps { Steps S.acts self.old result self.new }
        ensures moved { MovedOn S.acts self.old result self.new }
        ensures sequence { StepsOn S.acts self.old self.new }
        ensures order { GivesInOrder S.acts S.handed S.passed_while (given_out result) self.old self.new }
    {
        if is_idle(self.wet, &self.inlet) {
            self.wet = pass_on(&mut self.stages);
            return Step::Idle;
        }
        let place = self.wet;
        let out = move_on(&mut self.stages, &mut self.inlet, place);
        self.left += u64::from(place == 0);
        let count = self.stages.len();
        self.wet = wet_end(&self.stages, count.min(place + 1));
        made(out)
    }
}

impl<S: StageCalls> Flow<S> {
    ghost use Rattle.fx_chain_flow.specs.Parts.{Parts, any_spent, taken_of};
    ghost use Rattle.fx_chain_flow.specs.Sound.{max_frames};
    ghost use Rattle.fx_chain_flow.specs.Steps.{StateIs};

    /// Takes frames from the front of the input, and writes those that are given to the front of the output, each frame
    /// through all stages before the next one is taken: until the output has no space for another frame, or the flow is
    /// done, or it is hungry and takes none. A frame is taken only while the output has space for one more than was due before
    /// it; where the output has no space for one frame, nothing changes, and once it has none, the call ends: the
    /// last step is the one that gave the last frame.
    ///
    /// It hands frames over by the calls of `StageCalls`, and by `PassesEarly::pass_early`. Between two of these calls, the frames
    /// that it holds and those in transit to a stage are no more than its hold.
    pub fn feed(&mut self, input: &[i32], output: &mut [i32]) -> Passed
        requires channels { IsChannelCount self.old.channels }
        requires bound { (n : ℕ) → n * self.old.channels ≤ length input.now → taken_of self.old + n ≤ max_frames }
        ensures fed { FlowFedSamples S.acts self.old input.now output.new result self.new }
        ensures gave { FlowGaveSamples S.acts self.old input.now output.new result self.new }
        ensures placed { FlowPlaced S.acts self.old input.now output.old output.new result }
        ensures stopped { FlowStopped S.acts self.old input.now output.old output.new result self.new }
        ensures free { FlowTookWithinSpace S.acts self.old result.taken (length output.old) }
        ensures order { FedOnInOrder S.acts S.handed S.passed_while self.old input.now output.new result self.new }
    {
        if self.inlet.is_some() || self.ended {
            return feed_by_steps(self, input, output);
        }
        let stages = self.stages.len();
        if stages == 0 {
            let count = copy_frames(input, output, self.channels);
            self.left += count as u64;
            return Passed {
                taken: count,
                given: count,
            };
        }
        if stages > 1 {
            return feed_by_steps(self, input, output);
        }
        let passed = S::feed_only(&mut self.stages, input, output);
        self.left += passed.taken as u64;
        let count = self.stages.len();
        self.wet = wet_end(&self.stages, count);
        passed
    }
}

impl<S: StageCalls> Flow<S> {
    ghost use Rattle.fx_chain_flow.specs.Parts.{any_spent, ended_of, moves_of, taken_of};
    ghost use Rattle.fx_chain_flow.specs.Runs.{AllKeep};
    ghost use Rattle.fx_chain_flow.specs.Sound.{max_frames};
    ghost use Rattle.fx_chain_flow.specs.Steps.{IsHungry};

    /// The channels of the frames that it takes and gives, and whether each stage gives as many as it takes.
    pub(crate) fn widths(&self) -> Widths
        ensures inputs { result.inputs ≡ self.now.channels }
        ensures outputs { result.outputs ≡ channels_out S.acts self.now }
        ensures keep { result.keeps ≡ true → AllKeep self.now.channels (kinds S.acts self.now.stages) }
    {
        Widths {
            inputs: self.channels,
            outputs: last_channels(self.channels, &self.stages),
            keeps: keeps_channels(&self.stages, self.channels),
        }
    }

    /// Passes frames at the front of the input through the stages of a hungry flow, at least one, each through all stages
    /// before the next one is taken, and writes those that come out to the front of the output.
    pub(crate) fn run(&mut self, widths: Widths, input: &[i32], output: &mut [i32]) -> Passed
        requires hungry { IsHungry S.acts self.old }
        requires not_spent { any_spent S.acts self.old.stages ≡ false }
        requires channels { IsChannelCount self.old.channels }
        requires bound { (n : ℕ) → n * self.old.channels ≤ length input.now → taken_of self.old + n ≤ max_frames }
        requires inputs { widths.inputs ≡ self.old.channels }
        requires outputs { widths.outputs ≡ channels_out S.acts self.old }
        requires keep { widths.keeps ≡ true → AllKeep self.old.channels (kinds S.acts self.old.stages) }
        requires one_in { self.old.channels ≤ length input.now }
        requires one_out { widths.outputs ≤ length output.old }
        ensures fed { FlowFedSamples S.acts self.old input.now output.new result self.new }
        ensures gave { FlowGaveSamples S.acts self.old input.now output.new result self.new }
        ensures placed { FlowPlaced S.acts self.old input.now output.old output.new result }
        ensures small { result.given ≤ result.given * channels_out S.acts self.old }
        ensures moves { moves_of S.acts self.old + ended_of S.acts self.old.stages ≤ moves_of S.acts self.new + ended_of S.acts self.new.stages }
        ensures some { 1 ≤ result.taken }
        ensures free { FlowTookWithinSpace S.acts self.old result.taken (length output.old) }
        ensures full { GaveLastWhenFull S.acts self.old input.now output.new (length output.old) result self.new }
        ensures order { FedInOrder S.acts S.handed S.passed_while self.old input.now output.new result self.new }
    {
        let maximum = (input.len() / widths.inputs).min(output.len() / widths.outputs.max(1));
        let next = min_forecast(&self.stages, maximum);
        let ahead = next.ahead.max(1);
        let one_to_one = next.one_to_one.min(ahead);
        let next = CommonForecast {
            ahead,
            one_to_one,
            none_due: next.none_due,
        };
        see_lined(&self.stages);
        let passed = run(&mut self.stages, widths, next, input, output);
        self.left += passed.taken as u64;
        let stages = self.stages.len();
        self.wet = wet_end(&self.stages, stages);
        passed
    }
}

impl<S: Thaws + Drop> Flow<S> {
    ghost use Rattle.fx_chain_flow.specs.Parts.{Parts};
    ghost use Rattle.fx_chain_flow.specs.Sound.{IsPlanned, IsSound};

    /// The flow of stages of these arguments, which takes frames of `channels` channels, that held these
    /// frames and counted these numbers: whichever it was is restored, unless memory is refused.
    /// BadSnapshot where there is none, Memory where an allocation was refused, and only once the inlet was restored.
    pub fn thaw(
        alloc: Global,
        arguments: &[S::Arguments],
        channels: usize,
        frames: &[WideFrame],
        numbers: &[u64],
    ) -> Result<Flow<S>, ThawFault>
        requires fits { All S.fits arguments.now }
        requires planned { MakePlanned S.acts S.made arguments.now channels }
        ensures made { IfOk result (λ t. AllMade S.made arguments.now t.stages × (t.channels ≡ channels)) }
        ensures frozen { IfOk result (λ t. FreezesFlow S.acts t frames.now numbers.now) }
        ensures named { (result ≡ Err ThawFault.WrongPlan) → ⊥ }
        ensures memory { result ≡ Err ThawFault.Memory → StartsWithInlet channels frames.now numbers.now }
        ensures thawed { ThawsFlow S.acts S.sound S.made arguments.now channels frames.now numbers.now result }
    {
        let Some((state_counters, rest)) = numbers.split_first_chunk::<8>() else {
            return Err(ThawFault::BadSnapshot);
        };
        let held = state_counters[HELD];
        if held > frames.len() as u64 {
            return Err(ThawFault::BadSnapshot);
        }
        let (first, later) = frames.split_at(held as usize);
        let Inlet { frame, left, ended } = thaw_inlet(first, state_counters, channels)?;
        let stages = thaw_all(alloc, arguments, later, rest)?;
        if !is_joined(&stages, left, ended) {
            return Err(ThawFault::BadSnapshot);
        }
        see_held(&stages);
        let wet = wet_end(&stages, stages.len());
        Ok(Flow {
            stages,
            inlet: frame,
            wet,
            left,
            channels,
            ended,
        })
    }
}

/// The step that gives this frame out, or none.
#[inline(always)]
fn made(out: Option<Frame>) -> Step
    ensures { result ≡ step_of out }
{
    match out {
        Some(frame) => Step::Given(frame),
        None => Step::Moved,
    }
}
