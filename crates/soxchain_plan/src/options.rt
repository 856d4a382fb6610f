//! The word for which a command line is refused as it has no such option.
ghost use Rattle.std.specs.Prelude.{◌≡◌, ◌≢◌, Err, false, true};
ghost use Rattle.fx_plan.specs.declared.line.LineFault.TheVariants.{BadOption};
ghost use Rattle.fx_plan.specs.Line.{line_of_words, texts};
ghost use Rattle.soxchain_plan.specs.Options.{IsRefusedAt, IsRefusedWord, named_at};

use fx_plan::{LineFault, read_line};

/// Whether these words are refused for an option.
fn are_refused(words: &[String]) -> bool
    ensures refused { result ≡ true → line_of_words (texts words.now) ≡ Err BadOption }
    ensures other { result ≡ false → line_of_words (texts words.now) ≢ Err BadOption }
{
    match read_line(words) {
        Err(LineFault::BadOption) => true,
        _ => false,
    }
}

/// The place of the first word for which these words are refused. Few words stand before IN and OUT, and no other is refused
/// so: each beginning is read anew.
fn refused_place(words: &[String]) -> usize
    requires { line_of_words (texts words.now) ≡ Err BadOption }
    ensures { IsRefusedAt (texts words.now) result }
{
    let mut place = words.len();
    for _word in words {
        let shorter = place - 1;
        if !are_refused(&words[..shorter]) {
            return shorter;
        }
        place = shorter;
    }
    unreachable!()
}

/// The word for which these words are refused; of an option `-t` its value, where it has one.
pub fn refused_word(words: &[String]) -> &str
    requires { line_of_words (texts words.now) ≡ Err BadOption }
    ensures { IsRefusedWord (texts words.now) result.now }
{
    let place = refused_place(words);
    let word = words[place].as_str();
    if word == "-t" && place + 1 < words.len() {
        words[place + 1].as_str()
    } else {
        word
    }
}
