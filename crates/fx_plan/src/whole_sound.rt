//! Effects that can begin only once all of the sound is there, and words that are among names.
ghost use Rattle.std.specs.Prelude.{◌≡◌};
ghost use Rattle.std.specs.List.{list_any};
ghost use Rattle.std.specs.Str.{bytes_eq};
ghost use Rattle.fx_plan.specs.Refusals.{is_one_of, whole_sound};

/// Effects that can begin only when the whole sound is known.
const WHOLE_SOUND: [&str; 3] = ["reverse", "norm", "repeat"];

/// Whether a word is one of these names.
pub fn is_among(word: &str, names: &[&str]) -> bool
    ensures { result ≡ list_any (λ name. bytes_eq word.now name.now) names.now }
{
    names.contains(&word)
}

/// Whether a word names an effect that can begin only when the whole sound is known.
#[tactic(auto, unfolding(crate::specs::Refusals::whole_sound))]
pub fn needs_whole_sound(word: &str) -> bool
    ensures { result ≡ is_one_of whole_sound word.now }
{
    is_among(word, &WHOLE_SOUND)
}
