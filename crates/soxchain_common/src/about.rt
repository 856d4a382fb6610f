//! What both programs print about themselves: the version, and the answers to `--help` and `--version`.
ghost use Rattle.std.specs.Prelude.{◌≡◌, map, option_copied, string_bytes};
ghost use Rattle.soxchain_common.specs.About.{answer_of};

/// The version, and the logic by which it is proved: kits that differ only in their compiler share it.
/// The one place of the version: the manual's pages and the package take it from here.
pub const VERSION: &str = "soxchain 0.1.0\nproved with Rattle, logic dac8208d650f15bf\n";

/// The answer to the words after the program's name, where `--help` or `--version` is the only one.
pub fn answer_to<'a>(words: &[String], help: &'a str, version: &'a str) -> Option<&'a str>
    ensures { option_copied result ≡ answer_of help.now version.now (map string_bytes words.now) }
{
    let (word, more) = words.split_first()?;
    if !more.is_empty() {
        return None;
    }
    if word.as_str() == "--help" {
        Some(help)
    } else if word.as_str() == "--version" {
        Some(version)
    } else {
        None
    }
}
