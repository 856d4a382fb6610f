//! Command lines that are refused and accepted.

use fx_plan::{Bits, LineFault, read_line};
use fx_sound::Kind;
use std::alloc::{AllocError, Global};
use std::test::Fail;

/// The words of a line.
pub(crate) fn words_of(alloc: Global, line: &str) -> Result<Vec<String>, AllocError> {
    let mut words = Vec::new(alloc);
    for word in line.split_whitespace() {
        words.push(String::from_str(alloc, word)?)?;
    }
    Ok(words)
}

#[test]
fn lines_refused(rt: HostRuntime) -> Result<(), Fail> {
    let rows = [
        ("", LineFault::MissingFile),
        ("-", LineFault::MissingFile),
        ("-r", LineFault::BadOption),
        ("-b 16 - -t au -", LineFault::BadOption),
        ("-t mp3", LineFault::BadOption),
        ("-t", LineFault::BadOption),
        ("- -", LineFault::NoOutputType),
        ("- out.flac", LineFault::NoOutputType),
        ("- wav", LineFault::NoOutputType),
        ("- -b 12 -", LineFault::BadBits),
        ("- -b", LineFault::BadOption),
        ("- -b16 -t au -", LineFault::BadOption),
    ];
    for (line, fault) in rows {
        let words = words_of(rt.alloc(), line)?;
        assert!(rt;
            read_line(&words).is_err_and(|found| found == fault),
            "{line}"
        );
    }
    Ok(())
}

#[test]
fn lines_accepted(rt: HostRuntime) -> Result<(), Fail> {
    let words = words_of(rt.alloc(), "-D - -t au -")?;
    let line = read_line(&words).ok().ok_or("refused")?;
    assert!(rt; line.effects.is_empty());
    assert_eq!(rt; line.output_kind, Kind::Au);
    assert!(rt; line.input_kind.is_none());
    assert!(rt; line.bits.is_none());
    let words = words_of(rt.alloc(), "-t au -t wav in -b 8 -b 24 OUT.Snd vol 1")?;
    let line = read_line(&words).ok().ok_or("refused")?;
    assert_eq!(rt; line.input_kind, Some(Kind::Wav));
    assert_eq!(rt; line.output_kind, Kind::Au);
    assert_eq!(rt; line.bits, Some(Bits::TwentyFour));
    assert_eq!(rt; line.input.as_str(), "in");
    assert_eq!(rt; line.output.as_str(), "OUT.Snd");
    assert_eq!(rt; line.effects.len(), 2);
    Ok(())
}
