ghost use Rattle.std.specs.Prelude.{◌≡◌, ◌<◌, ◌≤◌, ◌+◌, ◌↔◌, ◌^◌, ℕ, [], ◌∷◌, true, None, drop, length, option_to_list, MatchOption, List};
ghost use Rattle.fx_frame_base.specs.Frame.{Samples};
ghost use Rattle.fx_chain_flow.specs.Order.{InOrder, MovedInOrder};
ghost use Rattle.fx_chain_flow.specs.Parts.{Parts, AllDetermined, AllEnded, IsWetEnd, IsFirstOpen, EndPassed, any_spent, given_by, given_of, through};
ghost use Rattle.fx_frame_base.specs.Pipeline.{outputs_of};
ghost use Rattle.fx_chain_flow.specs.Moving.{CanMove, Lifted, MovedFrom};
ghost use Rattle.fx_chain_flow.specs.Pipeline.{AllHeld, AllLined};
ghost use Rattle.fx_frame_base.specs.Holds.{kinds};

use crate::stage_calls::StageCalls;
use fx_frame_base::frame::Frame;
use fx_frame_base::stage::Stage;

/// One place after the last stage that is not dry, or 0 where all are dry. From that place on all are dry.
#[inline(always)]
pub(crate) fn wet_end<S: Stage>(stages: &[S], from: usize) -> usize
    requires within { from ≤ length stages.now }
    requires dry { AllDetermined S.acts (drop from stages.now) }
    requires lined { AllLined S.acts (drop from stages.now) }
    ensures wet { IsWetEnd S.acts result stages.now }
    ensures lined { AllLined S.acts (drop result stages.now) }
{
    'stages: for place in (0..from).rev() {
        let dry = stages[place].is_dry();
        if !dry {
            return place + 1;
        }
    }
    0
}

/// Takes a frame out of the stage before a place, or out of the inlet before all.
#[inline(always)]
fn lift<S: StageCalls>(stages: &mut [S], inlet: &mut Option<Frame>, place: usize) -> Frame
    requires may { CanMove S.acts place inlet.old stages.old }
    requires held { AllHeld S.acts stages.old }
    requires lined { AllLined S.acts (drop place stages.old) }
    ensures lifted { Lifted S.acts place inlet.old inlet.new result stages.old stages.new }
    ensures held { AllHeld S.acts stages.new }
    ensures lined { AllLined S.acts (drop place stages.new) }
    ensures order { MovedInOrder S.acts S.handed S.passed_while place stages.old stages.new inlet.old inlet.new [] (result ∷ []) place }
{
    if place == 0 {
        let Some(frame) = inlet.take() else {
            unreachable!()
        };
        return frame;
    }
    S::give_at(stages, place - 1)
}

/// Moves a frame from the stage before a place, or from the inlet before all, to the stage at the
/// place, or out where there is none.
#[inline(always)]
pub(crate) fn move_on<S: StageCalls>(
    stages: &mut [S],
    inlet: &mut Option<Frame>,
    place: usize,
) -> Option<Frame>
    requires may { CanMove S.acts place inlet.old stages.old }
    requires held { AllHeld S.acts stages.old }
    requires lined { AllLined S.acts (drop place stages.old) }
    ensures moved { MovedFrom S.acts place inlet.old inlet.new result stages.old stages.new }
    ensures held { AllHeld S.acts stages.new }
    ensures lined { AllLined S.acts (drop (place + 1) stages.new) }
    ensures order { MovedInOrder S.acts S.handed S.passed_while place stages.old stages.new inlet.old inlet.new (option_to_list result) [] 0 }
{
    let frame = lift(stages, inlet, place);
    let count = stages.len();
    if place == count {
        return Some(frame);
    }
    S::take_at(stages, place, frame);
    None
}

/// The first stage that is not ended.
pub(crate) fn first_open<S: Stage>(stages: &[S]) -> Option<usize>
    ensures { MatchOption result (AllEnded S.acts stages.now) (λ i. IsFirstOpen S.acts i stages.now) }
{
    'stages: for i in 0..stages.len() {
        let ended = stages[i].is_ended();
        if !ended {
            return Some(i);
        }
    }
    None
}

/// Gives the end to the first stage that is not ended. One place after the last stage that is not dry then,
/// or 0 where all are dry.
#[cold]
#[inline(never)]
pub(crate) fn pass_on<S: StageCalls>(stages: &mut [S]) -> usize
    requires dry { AllDetermined S.acts stages.old }
    requires open { AllEnded S.acts stages.old → ⊥ }
    requires held { AllHeld S.acts stages.old }
    ensures passed { (i : ℕ) × IsFirstOpen S.acts i stages.old × EndPassed S.acts i stages.old stages.new }
    ensures wet { IsWetEnd S.acts result stages.new }
    ensures held { AllHeld S.acts stages.new }
    ensures lined { AllLined S.acts (drop result stages.new) }
    ensures order { (f : Parts S) → InOrder S.acts S.handed S.passed_while (record f { stages = stages.old }) [] [] [] 0 (record f { stages = stages.new }) }
{
    let Some(place) = first_open(stages) else {
        unreachable!()
    };
    S::end_at(stages, place);
    let count = stages.len();
    wet_end(stages, count)
}

/// Whether nothing is to be moved, neither from a stage nor from the inlet.
#[inline(always)]
pub(crate) fn is_idle(wet: usize, inlet: &Option<Frame>) -> bool
    ensures { result ≡ true ↔ ((wet ≡ 0) × (inlet.now ≡ None)) }
{
    wet == 0 && inlet.is_none()
}

/// How many frames the stages gave.
pub(crate) fn given_by_all<S: Stage>(stages: &[S]) -> u64
    requires { given_of S.acts stages.now < 2 ^ 64 }
    ensures { result ≡ given_of S.acts stages.now }
{
    let mut sum = 0;
    'stages: for stage in stages {
        sum += stage.counter_values().given;
    }
    sum
}

/// How many frames the last stage gave; without a stage those that left the inlet.
pub(crate) fn given_by_last<S: Stage>(left: u64, stages: &[S]) -> u64
    ensures { result ≡ given_by S.acts left stages.now }
{
    match stages.split_last() {
        Some((last, _)) => last.counter_values().given,
        None => left,
    }
}

/// Whether some stage gives nothing more, whatever input follows. Then the output of the last one does not depend on it.
pub(crate) fn is_any_spent<S: Stage>(stages: &[S]) -> bool
    ensures value { result ≡ any_spent S.acts stages.now }
    ensures same { result ≡ true → (x y : List Samples) → through S.acts stages.now x ≡ through S.acts stages.now y }
{
    'stages: for i in 0..stages.len() {
        let spent = stages[i].is_spent();
        if spent {
            return true;
        }
    }
    false
}

/// The channels of the frames that the last stage gives; without a stage of those that come.
pub(crate) fn last_channels<S: Stage>(channels: usize, stages: &[S]) -> usize
    ensures { result ≡ outputs_of channels (kinds S.acts stages.now) }
{
    match stages.split_last() {
        Some((last, _)) => last.out_channels(),
        None => channels,
    }
}

/// Shows that dry stages hold only the frames of their lines.
pub(crate) fn see_lined<S: Stage>(stages: &[S])
    requires { AllDetermined S.acts stages.now }
    ensures { AllLined S.acts stages.now }
{
    'stages: for place in (0..stages.len()).rev() {
        let _dry = stages[place].is_dry();
    }
}

/// Shows that stages hold no more than they may.
pub(crate) fn see_held<S: Stage>(stages: &[S])
    ensures { AllHeld S.acts stages.now }
{
    'stages: for place in (0..stages.len()).rev() {
        let _held = stages[place].held();
    }
}
