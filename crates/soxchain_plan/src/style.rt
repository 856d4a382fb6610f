//! The style in which a plan is shown.
ghost use Rattle.std.specs.Prelude.{◌≡◌, map, string_bytes};
ghost use Rattle.soxchain_plan.specs.Styles.{styled};

/// The style in which a plan is shown.
#[derive(Clone, Copy, Debug, Drop, PartialEq, Eq)]
pub enum Style {
    /// Human-readable lines.
    Text,
    /// One JSON object.
    Json,
}

/// The style that the first word asks for, and the words of the command line.
pub fn split(words: &[String]) -> (Style, &[String])
    ensures { (result.0, map string_bytes result.1.now) ≡ styled (map string_bytes words.now) }
{
    match words.split_first() {
        Some((word, more)) if word.as_str() == "--json" => (Style::Json, more),
        _ => (Style::Text, words),
    }
}
