//! What the words of a line list: its effects, and the coefficient files that they name.

ghost use Rattle.std.specs.Prelude.{◌≡◌, ◌∷◌, [], IfOk, MatchOption, None, Some, length, map, slice_get, string_bytes, unwrap_or};
ghost use Rattle.fx_plan.specs.CommandLines.{coefficient_files, file_in};
ghost use Rattle.fx_plan_words.specs.Faults.{word_texts};
ghost use Rattle.fx_plan.specs.Groups.{effects_of};

use crate::groups::next_effect;
use crate::planned::names_file;
use std::alloc::{AllocError, Global};

/// How many effects the words name.
pub fn count_effects(words: &[String]) -> usize
    ensures { result ≡ length (effects_of (word_texts words.now)) }
{
    let mut rest = words;
    let mut count = 0;
    while let Some((_, more)) = next_effect(rest) {
        count += 1;
        rest = more;
    }
    count
}

/// The words of the effect at this place, counted from 0; none where there is no such effect.
pub fn effect_at(words: &[String], place: usize) -> &[String]
    ensures { word_texts result.now ≡ unwrap_or (slice_get (effects_of (word_texts words.now)) place) [] }
{
    let mut rest = words;
    let mut left = place;
    while let Some((effect, more)) = next_effect(rest) {
        if left == 0 {
            return effect;
        }
        left -= 1;
        rest = more;
    }
    &[]
}

/// The coefficient file that an effect names.
fn read_file(effect: &[String]) -> Option<&String>
    ensures { MatchOption result (file_in (word_texts effect.now) ≡ []) (λ name. file_in (word_texts effect.now) ≡ string_bytes name.now ∷ []) }
{
    let (name, words) = effect.split_first()?;
    if !names_file(name, words) {
        return None;
    }
    let (file, _) = words.split_first()?;
    Some(file)
}

/// How many coefficient files the effects of the words name.
pub fn count_files(words: &[String]) -> usize
    ensures { result ≡ length (coefficient_files (effects_of (word_texts words.now))) }
{
    let mut rest = words;
    let mut count = 0;
    while let Some((effect, more)) = next_effect(rest) {
        if read_file(effect).is_some() {
            count += 1;
        }
        rest = more;
    }
    count
}

/// The name of the coefficient file at this place, counted from 0, if there are that many.
pub fn file_at(words: &[String], place: usize) -> Option<&String>
    ensures { let named = slice_get (coefficient_files (effects_of (word_texts words.now))) place in
        MatchOption result (named ≡ None) (λ name. named ≡ Some (string_bytes name.now)) }
{
    let mut rest = words;
    let mut left = place;
    while let Some((effect, more)) = next_effect(rest) {
        rest = more;
        let Some(file) = read_file(effect) else {
            continue;
        };
        if left == 0 {
            return Some(file);
        }
        left -= 1;
    }
    None
}

/// The names of all coefficient files, in order; AllocError where memory for the list is refused.
pub fn list_files(alloc: Global, words: &[String]) -> Result<Vec<&str>, AllocError>
    ensures { IfOk result (λ names.
        map (λ name. name.now) names.items ≡ coefficient_files (effects_of (word_texts words.now))) }
{
    let mut names = Vec::new(alloc);
    let mut rest = words;
    while let Some((effect, more)) = next_effect(rest) {
        if let Some(file) = read_file(effect) {
            names.push(file.as_str())?;
        }
        rest = more;
    }
    Ok(names)
}
