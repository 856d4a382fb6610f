//! The words of effects, cut at the names.

ghost use Rattle.std.specs.Prelude.{◌≡◌, ◌<◌, ◌≤◌, ◌∷◌, [], IfSome, MatchOption, length, string_bytes};
ghost use Rattle.std.specs.List.{position_or_len};
ghost use Rattle.fx_plan_words.specs.Faults.{word_texts};
ghost use Rattle.fx_plan.specs.Groups.{effects_of};
ghost use Rattle.fx_plan.specs.Names;

use crate::registry::{Name, read_name};

/// Whether a word is the name of an effect, supported or not.
fn is_name(word: &str) -> bool
    ensures { result ≡ Names.is_name word.now }
{
    read_name(word) != Name::Other
}

/// How many words stand before the first name.
#[tactic(auto, using(std::proofs::lemmas::List::Sums::position_or_len_is))]
fn words_before_name(words: &[String]) -> usize
    ensures value { result ≡ position_or_len Names.is_name (word_texts words.now) }
    ensures within { result ≤ length words.now }
{
    let mut rest = words;
    let mut count = 0;
    while let Some((word, more)) = rest.split_first() {
        if is_name(word) {
            return count;
        }
        rest = more;
        count += 1;
    }
    count
}

/// The words of the first effect, its name first, and the words of the effects after it.
pub fn next_effect(words: &[String]) -> Option<(&[String], &[String])>
    ensures effects { MatchOption result (words.now ≡ [])
        (λ x. effects_of (word_texts words.now) ≡ word_texts x.0.now ∷ effects_of (word_texts x.1.now)) }
    ensures named { IfSome result (λ x. 0 < length x.0.now) }
    ensures shorter { IfSome result (λ x. length x.1.now < length words.now) }
{
    let (_, others) = words.split_first()?;
    Some(words.split_at(words_before_name(others) + 1))
}

/// The first effect's name, its other words, and the words of the effects after it.
pub fn split_effect(words: &[String]) -> Option<(&String, &[String], &[String])>
    ensures effects { MatchOption result (words.now ≡ [])
        (λ x. effects_of (word_texts words.now)
        ≡ (string_bytes x.0.now ∷ word_texts x.1.now) ∷ effects_of (word_texts x.2.now)) }
    ensures shorter { IfSome result (λ x. length x.2.now < length words.now) }
{
    let (effect, rest) = next_effect(words)?;
    let (name, arguments) = effect.split_first()?;
    Some((name, arguments, rest))
}
