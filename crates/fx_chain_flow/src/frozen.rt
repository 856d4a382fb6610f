ghost use Rattle.std.specs.Prelude.{◌≡◌, ◌<◌, ◌+◌, ◌++◌, ◌↔◌, true, List, IfOk, OnOk, Err, MatchResult, IfErr, option_to_list};
ghost use Rattle.std.specs.List.{All};
ghost use Rattle.fx_chain_flow.specs.Parts.{Joined};
ghost use Rattle.fx_chain_flow.specs.Frozen.{stored_all, numbers_all, AllMade, AllSound};
ghost use Rattle.fx_chain_flow.specs.Inlets.{IsInlet};
ghost use Rattle.fx_chain_flow.specs.Thawing.{UnlessMemory, WhereStored};
ghost use Rattle.fx_chain_flow.specs.declared.frozen.Inlet.{Inlet};

use crate::flow::MAX_FRAMES;
use fx_frame_base::frame::Frame;
use fx_frame_base::pending::thawed_pending;
use fx_frame_base::stage::{Stage, ThawFault, Thaws};
use fx_frame_base::wide::WideFrame;
use std::alloc::{AllocError, Global};

/// The place of the frames held among the eight numbers of an inlet or a stage.
pub const HELD: usize = 4;

/// Appends the numbers of all stages, eight for each.
pub(crate) fn append_numbers<S: Stage>(stages: &[S], out: &mut Vec<u64>) -> Result<(), AllocError>
    ensures numbers { OnOk result (out.new.items ≡ out.old.items ++ numbers_all S.acts stages.now) }
    ensures sound { OnOk result (AllSound S.sound stages.now) }
{
    'stages: for stage in stages {
        out.extend_from_slice(&stage.counters())?;
    }
    Ok(())
}

/// Appends the frames that all stages store.
pub(crate) fn append_frames<S: Stage>(
    stages: &[S],
    out: &mut Vec<WideFrame>,
) -> Result<(), AllocError>
    ensures { OnOk result (out.new.items ≡ out.old.items ++ stored_all S.acts stages.now) }
{
    'stages: for stage in stages {
        append_stored(stage, out)?;
    }
    Ok(())
}

/// Appends the frames that a stage stores.
fn append_stored<S: Stage>(stage: &S, out: &mut Vec<WideFrame>) -> Result<(), AllocError>
    ensures { OnOk result (out.new.items ≡ out.old.items ++ S.acts.stored stage.now) }
{
    'places: for j in 0..stage.held() as usize {
        out.push(stage.stored(j))?;
    }
    Ok(())
}

/// Appends the frame of an inlet, if there is one.
pub(crate) fn append_inlet(
    inlet: &Option<Frame>,
    out: &mut Vec<WideFrame>,
) -> Result<(), AllocError>
    ensures { OnOk result (out.new.items ≡ out.old.items ++ option_to_list inlet.now) }
{
    if let Some(frame) = *inlet {
        out.push(WideFrame::from_frame(frame))?;
    }
    Ok(())
}

/// What an inlet stores and counts.
#[derive(Drop)]
pub struct Inlet {
    pub frame: Option<Frame>,
    /// The frames that left it.
    pub left: u64,
    /// The end was given.
    pub ended: bool,
}

/// The inlet of `channels` channels that stored these frames and counted these numbers. BadSnapshot where
/// there is none.
pub(crate) fn thaw_inlet(
    frames: &[WideFrame],
    numbers: &[u64; 8],
    channels: usize,
) -> Result<Inlet, ThawFault>
    ensures found { IfOk result (IsInlet channels frames.now numbers.now) }
    ensures refused { IfErr result (λ e. (e ≡ ThawFault.BadSnapshot) × ((i : Inlet) → IsInlet channels frames.now numbers.now i → ⊥)) }
{
    let [taken, left, ended, 0, held, 0, 0, 0] = *numbers else {
        return Err(ThawFault::BadSnapshot);
    };
    if held != frames.len() as u64 || taken > MAX_FRAMES || left > taken || taken - left != held {
        return Err(ThawFault::BadSnapshot);
    }
    if ended > 1 || (ended == 1 && held != 0) {
        return Err(ThawFault::BadSnapshot);
    }
    let frame = thawed_pending(frames, channels)?;
    Ok(Inlet {
        frame,
        left,
        ended: ended == 1,
    })
}

/// Whether each stage has taken what the one before gave, and is ended only where that is ended and dry.
pub(crate) fn is_joined<S: Stage>(stages: &[S], left: u64, ended: bool) -> bool
    ensures { result ≡ true ↔ Joined S.acts left ended stages.now }
{
    let mut given = left;
    let mut over = ended;
    'stages: for stage in stages {
        let [taken, gave, ..] = stage.counters();
        let stopped = stage.is_ended();
        if taken != given || (stopped && !over) {
            return false;
        }
        given = gave;
        over = stopped && stage.is_dry();
    }
    true
}

/// The stages of these arguments that stored these frames and counted these numbers. BadSnapshot where
/// there are none, Memory where an allocation was refused.
pub(crate) fn thaw_all<S: Thaws + Drop>(
    alloc: Global,
    arguments: &[S::Arguments],
    frames: &[WideFrame],
    numbers: &[u64],
) -> Result<Vec<S>, ThawFault>
    requires { All S.fits arguments.now }
    ensures made { IfOk result (λ ts. AllMade S.made arguments.now ts.items) }
    ensures stored { IfOk result (λ ts. frames.now ≡ stored_all S.acts ts.items) }
    ensures counted { IfOk result (λ ts. numbers.now ≡ numbers_all S.acts ts.items) }
    ensures named { (result ≡ Err ThawFault.WrongPlan) → ⊥ }
    ensures thawed { WhereStored S.acts S.sound S.made arguments.now frames.now numbers.now (λ s. UnlessMemory result (λ ts. ts.items ≡ s)) }
{
    let mut out = Vec::new(alloc);
    let mut later = frames;
    let mut rest = numbers;
    'arguments: for argument in arguments {
        let Some((state_counters, after)) = rest.split_first_chunk::<8>() else {
            return Err(ThawFault::BadSnapshot);
        };
        let held = state_counters[HELD];
        if held > later.len() as u64 {
            return Err(ThawFault::BadSnapshot);
        }
        let (mine, others) = later.split_at(held as usize);
        let stage = S::thaw(alloc, argument, mine, state_counters)?;
        let Ok(()) = out.push(stage) else {
            return Err(ThawFault::Memory);
        };
        later = others;
        rest = after;
    }
    if !later.is_empty() || !rest.is_empty() {
        return Err(ThawFault::BadSnapshot);
    }
    Ok(out)
}
