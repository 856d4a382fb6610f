//! A frozen chain as bytes: words of 64 bits, little-endian.
//!
//! First "soxchain" and the version of this form, 1; then how many numbers there are, and these; then each frame: how many
//! samples it has, and these, a negative one plus 2^64.
//!
//! Nothing here copies all frames, or all words: each frame of a chain is written as soon as it is read.
ghost use Rattle.std.specs.Prelude.{◌≡◌, ◌∷◌, [], ◌++◌, flat_map, option_to_list, IfOk, IfSome, OnOk, ◌+◌, ◌*◌};
ghost use Rattle.fx_chain_flow.specs.Frozen.{AllSound, numbers_all, stored_all};
ghost use Rattle.fx_chain_flow.specs.Sound.{IsSound};
ghost use Rattle.soxchain_stream.specs.Appended.{AppendsFlow, AppendsFrames, AppendsWords};
ghost use Rattle.soxchain_stream.specs.Frozen.{frame_words};

use fx_chain_flow::flow::Flow;
use fx_frame::{Frame, Stage, WideFrame};
use std::alloc::{AllocError, Global};

/// "soxchain", little-endian.
pub const MARK: u64 = 0x6e69_6168_6378_6f73;

/// The version of the form.
pub const FORMAT_VERSION: u64 = 1;

/// The bytes of a word.
pub const WORD_SIZE: usize = 8;

/// Space for the head of a frozen chain, for the numbers of all stages that a chain may have, for the frame of its inlet, and for
/// what a caller appends to the bytes, as digests.
const NUMBERS_SIZE: usize = 4096;

/// Appends a word.
fn append_word(bytes: &mut Vec<u8>, word: u64) -> Result<(), AllocError>
    ensures { OnOk result (AppendsWords bytes.old.items bytes.new.items (word ∷ [])) }
{
    bytes.extend_from_slice(&word.to_le_bytes())
}

/// Appends words.
pub fn append_words(bytes: &mut Vec<u8>, words: &[u64]) -> Result<(), AllocError>
    ensures { OnOk result (AppendsWords bytes.old.items bytes.new.items words.now) }
{
    'words: for word in words {
        append_word(bytes, *word)?;
    }
    Ok(())
}

/// Appends a frame: how many samples it has, and these.
fn append_frame(bytes: &mut Vec<u8>, frame: &WideFrame) -> Result<(), AllocError>
    ensures { OnOk result (AppendsFrames bytes.old.items bytes.new.items (frame.now ∷ [])) }
{
    let samples = frame.samples();
    append_word(bytes, samples.len() as u64)?;
    'samples: for sample in samples {
        append_word(bytes, sample.cast_unsigned())?;
    }
    Ok(())
}

/// Appends the frame of an inlet, if there is one.
fn append_inlet(bytes: &mut Vec<u8>, inlet: Option<Frame>) -> Result<(), AllocError>
    ensures { OnOk result (AppendsFrames bytes.old.items bytes.new.items (option_to_list inlet)) }
{
    if let Some(frame) = inlet {
        append_frame(bytes, &WideFrame::from_frame(frame))?;
    }
    Ok(())
}

/// Appends the frames that a stage stores.
fn append_stored<S: Stage>(bytes: &mut Vec<u8>, stage: &S) -> Result<(), AllocError>
    ensures { OnOk result (AppendsFrames bytes.old.items bytes.new.items (S.acts.stored stage.now)) }
{
    'places: for place in 0..stage.held() as usize {
        append_frame(bytes, &stage.stored(place))?;
    }
    Ok(())
}

/// Appends the frames that all stages store.
fn append_frames<S: Stage>(bytes: &mut Vec<u8>, stages: &[S]) -> Result<(), AllocError>
    ensures { OnOk result (AppendsFrames bytes.old.items bytes.new.items (stored_all S.acts stages.now)) }
{
    'frames: for stage in stages {
        append_stored(bytes, stage)?;
    }
    Ok(())
}

/// Appends the numbers of all stages, eight for each.
fn append_numbers<S: Stage>(bytes: &mut Vec<u8>, stages: &[S]) -> Result<(), AllocError>
    ensures words { OnOk result (AppendsWords bytes.old.items bytes.new.items (numbers_all S.acts stages.now)) }
    ensures sound { OnOk result (AllSound S.sound stages.now) }
{
    'stages: for stage in stages {
        append_words(bytes, &stage.counters())?;
    }
    Ok(())
}

/// About how many bytes the frames of these stages take: no fewer than they do.
fn size_of_frames<S: Stage>(stages: &[S]) -> usize {
    let mut words: u64 = 0;
    for stage in stages {
        let channels = stage.in_channels().max(stage.out_channels()) as u64;
        words = words.saturating_add(stage.held().saturating_mul(channels.saturating_add(1)));
    }
    words.saturating_mul(WORD_SIZE as u64) as usize
}

/// How many numbers there are, eight of the inlet and eight of each stage; None where that does not fit 64 bits.
fn number_count(stages: usize) -> Option<u64>
    ensures { IfSome result (λ count. count ≡ 8 * (stages + 1)) }
{
    (stages as u64).checked_add(1)?.checked_mul(8)
}

/// Appends a flow as bytes. Memory is taken once, for all of them and a few further bytes. Beside them nothing is made that grows
/// with what the flow holds.
pub fn append_flow<S: Stage>(bytes: &mut Vec<u8>, flow: &Flow<S>) -> Result<(), AllocError>
    ensures frozen { OnOk result (AppendsFlow S.acts flow.now bytes.old.items bytes.new.items) }
    ensures sound { OnOk result (IsSound S.acts flow.now) }
    ensures stages { OnOk result (AllSound S.sound flow.now.stages) }
{
    let (stages, inlet, taken) = (flow.stages(), flow.inlet(), flow.taken());
    bytes.reserve_exact(size_of_frames(stages).saturating_add(NUMBERS_SIZE))?;
    let held = u64::from(inlet.is_some());
    // A list of 2^64 numbers fits no memory.
    let Some(count) = number_count(stages.len()) else {
        return Err(AllocError);
    };
    append_words(bytes, &[MARK, FORMAT_VERSION, count])?;
    append_words(
        bytes,
        &[
            taken,
            taken - held,
            u64::from(flow.is_ended()),
            0,
            held,
            0,
            0,
            0,
        ],
    )?;
    append_numbers(bytes, stages)?;
    append_inlet(bytes, inlet)?;
    append_frames(bytes, stages)?;
    Ok(())
}
