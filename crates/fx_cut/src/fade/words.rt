//! The words of `fade`: the type `t`, the length in, and optionally the stop and the length out.

ghost use Rattle.std.specs.Prelude.{◌≡◌, ◌<◌, IfOk, true};
ghost use Rattle.fx_plan_words.specs.Faults.{Finds, word_texts};
ghost use Rattle.fx_cut.specs.FadeWords.{fade_by, fade_faults, fade_of, fading, in_faults, is_fade, length_out, out_faults, stop_faults};

use fx_fixed::{Anchor, At};
use fx_plan_words::{Mark, PlanCause, at_word, read_frames, read_position};

/// What a `fade` does: its lengths in frames, and where the sound stops.
#[derive(Clone, Copy, Debug, Drop, PartialEq, Eq)]
pub struct Fading {
    /// The length of the fade at the start.
    pub fade_in: u64,
    /// Where the sound stops; None where it is not faded out. `Start(0)` means the end of the sound.
    pub stop: Option<At>,
    /// The length of the fade before the stop.
    pub fade_out: u64,
}

/// The length out that the words are, or this one where there is none.
fn read_length_out(rate: u32, fade_in: u64, words: &[String]) -> Result<u64, Mark>
    requires { 0 < rate }
    ensures { Finds result (out_faults rate (word_texts words.now)) (length_out rate fade_in (word_texts words.now)) }
{
    let Some((word, _)) = words.split_first() else {
        return Ok(fade_in);
    };
    read_frames(rate, word).map_err(|cause| at_word(cause, 5))
}

/// The fade of this length in with these words after it.
fn read_stop(rate: u32, fade_in: u64, words: &[String]) -> Result<Fading, Mark>
    requires { 0 < rate }
    ensures { Finds result (stop_faults rate (word_texts words.now)) (fade_by rate fade_in (word_texts words.now)) }
{
    let Some((word, more)) = words.split_first() else {
        return Ok(Fading {
            fade_in,
            stop: None,
            fade_out: fade_in,
        });
    };
    let stop = match read_position(rate, Anchor::Start, At::Start(0), word) {
        Ok(stop) => stop,
        Err(cause) => return Err(at_word(cause, 4)),
    };
    let fade_out = read_length_out(rate, fade_in, more)?;
    Ok(Fading {
        fade_in,
        stop: Some(stop),
        fade_out,
    })
}

/// The fade whose length in is the first of these words.
fn read_lengths(rate: u32, words: &[String]) -> Result<Fading, Mark>
    requires { 0 < rate }
    ensures { Finds result (in_faults rate (word_texts words.now)) (fade_of rate (word_texts words.now)) }
{
    let Some((word, more)) = words.split_first() else {
        return Ok(Fading {
            fade_in: 0,
            stop: None,
            fade_out: 0,
        });
    };
    let fade_in = match read_frames(rate, word) {
        Ok(frames) => frames,
        Err(cause) => return Err(at_word(cause, 3)),
    };
    read_stop(rate, fade_in, more)
}

/// What a `fade` with these words after its name does.
#[tactic(auto, unfolding(crate::specs::FadeWords::fade_faults))]
pub fn read_fade(rate: u32, words: &[String]) -> Result<Fading, Mark>
    requires { 0 < rate }
    ensures read { Finds result (fade_faults rate (word_texts words.now)) (fading rate (word_texts words.now)) }
    ensures fit { IfOk result (λ fade. is_fade fade ≡ true) }
{
    let Some((kind, lengths)) = words.split_first() else {
        return Err(at_word(PlanCause::WrongCount, 1));
    };
    if lengths.len() > 3 {
        return Err(at_word(PlanCause::WrongCount, 6));
    }
    if kind.as_str() != "t" {
        return Err(at_word(PlanCause::NotInProfile, 2));
    }
    if lengths.is_empty() {
        return Err(at_word(PlanCause::WrongCount, 1));
    }
    read_lengths(rate, lengths)
}
