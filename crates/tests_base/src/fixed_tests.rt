//! The worked rows of fx_fixed, in tables.

ghost use Rattle.std.specs.Prelude.{◌≡◌, ◌∷◌, [], Err, None, Ok, Some, codes, negsuc, pos};
ghost use Rattle.fx_fixed.specs.CoefficientFiles.{coefficients_of};
ghost use Rattle.fx_fixed.specs.Delays.{millis_of};
ghost use Rattle.fx_fixed.specs.Gains.{gain_of};
ghost use Rattle.fx_fixed.specs.Positions.{places_of, position_of};
ghost use Rattle.fx_fixed.specs.Times.{time_of};

use fx_fixed::{
    Anchor, At, CoefFault, Coefficients, Gain, NumberFault, Position, TimeFault, TimeSpec, UNIT,
    inner, millis, round_clip,
};
use std::alloc::Global;
use std::io::Print;

/// The error where memory is wanting.
pub(crate) const REFUSED: &str = "refused";

/// Prints `made`, or `refused` where memory was wanting; any other error fails.
pub(crate) fn say(rt: &impl Print, made: Result<(), &'static str>) -> Result<(), &'static str> {
    let said = match made {
        Ok(()) => "made",
        Err(fault) => {
            if fault != REFUSED {
                return Err(fault);
            }
            fault
        }
    };
    match println!(rt; "{said}") {
        Ok(()) => Ok(()),
        Err(_unwritten) => Err("nothing can be printed"),
    }
}

/// The definitions give the worked values, by computation.
fn worked_definitions()
    ensures gain { gain_of UNIT (codes "-1e-9") ≡ Ok (negsuc 999) }
    ensures gain_up { gain_of UNIT (codes "5e-13") ≡ Ok (pos 1) }
    ensures gain_over { gain_of UNIT (codes "1000.0000000000005") ≡ Err NumberFault.OutOfRange }
    ensures clock { time_of 8000 (codes "79:0285") ≡ Ok 40200000 }
    ensures count { time_of 8000 (codes "1.7e6s-0:0:01+0.0000625") ≡ Ok 1692001 }
    ensures order { time_of 8000 (codes "0.5s+2e12s") ≡ Err TimeFault.NotWhole }
    ensures form { time_of 8000 (codes "2e12s+") ≡ Err TimeFault.BadTime }
    ensures position { position_of 8000 Anchor.Start (At.Start 0) (codes "-0.5+1s") ≡ Ok (At.End 3999) }
    ensures places { places_of 10 (At.Start 3 ∷ At.End 9 ∷ At.End 2 ∷ []) ≡ 3 ∷ 3 ∷ 8 ∷ [] }
    ensures delay { millis_of 8000 (codes "-1e-10") ≡ Ok 1 }
    ensures file { coefficients_of (codes "# x 1\n.5#4\n-1e-12 ") ≡ Some (pos 500000000000 ∷ negsuc 0 ∷ []) }
    ensures no_file { coefficients_of (codes "#x") ≡ None }
{}

fn trillionths(text: &str) -> Result<i64, NumberFault> {
    Ok(Gain::parse(text)?.trillionths())
}

/// Fails with a text that is another gain, in trillionths, or refused otherwise.
fn check_gain(text: &'static str, want: Result<i64, NumberFault>) -> Result<(), &'static str> {
    if trillionths(text) == want {
        Ok(())
    } else {
        Err(text)
    }
}

/// Fails with a text for which other frames were found.
fn check_frames(
    text: &'static str,
    found: Result<u64, TimeFault>,
    want: Result<u64, TimeFault>,
) -> Result<(), &'static str> {
    if found == want { Ok(()) } else { Err(text) }
}

/// Fails with a text that is another position at 8000 frames a second, or refused otherwise.
fn check_position(
    text: &'static str,
    default: Anchor,
    previous: At,
    want: Result<At, TimeFault>,
) -> Result<(), &'static str> {
    if Position::resolve(text, 8000, default, previous) == want {
        Ok(())
    } else {
        Err(text)
    }
}

#[test]
fn gains_in_trillionths() -> Result<(), &'static str> {
    for (text, value) in [
        (".5", 500_000_000_000i64),
        ("5.", 5_000_000_000_000),
        ("-1e-9", -1000),
        ("5e-10", 500),
        ("4.9e-10", 490),
        ("5e-13", 1),
        ("4.9e-13", 0),
        ("1000", 1_000_000_000_000_000),
        ("1000.0000000000004", 1_000_000_000_000_000),
        ("-1000.0000000000004", -1_000_000_000_000_000),
        ("+00000000000000000000000000000000000001", 1_000_000_000_000),
        (
            "999999999999999999999999999999999e-30",
            1_000_000_000_000_000,
        ),
        (
            "0.1E+0000000000000000000000000000000003",
            100_000_000_000_000,
        ),
        ("123456789012345678901234567890123e-30", 123_456_789_012_346),
    ] {
        check_gain(text, Ok(value))?;
    }
    Ok(())
}

#[test]
fn gains_refused() -> Result<(), &'static str> {
    for (text, fault) in [
        ("1000.0000000005", NumberFault::OutOfRange),
        ("1000.0000000000005", NumberFault::OutOfRange),
        ("0e31", NumberFault::OutOfRange),
        ("1e", NumberFault::NotANumber),
        ("+", NumberFault::NotANumber),
        (".", NumberFault::NotANumber),
        (
            "00000000000000000000000000000000000000000",
            NumberFault::TooLong,
        ),
    ] {
        check_gain(text, Err(fault))?;
    }
    Ok(())
}

/// Fails with a text where that is another sample, or it is clipped otherwise.
fn check_sample(
    text: &'static str,
    found: (i32, bool),
    want: (i32, bool),
) -> Result<(), &'static str> {
    if found == want { Ok(()) } else { Err(text) }
}

#[test]
fn rounded_samples() -> Result<(), &'static str> {
    check_sample("1 / 2", round_clip(1, 2), (1, false))?;
    check_sample("-1 / 2", round_clip(-1, 2), (-1, false))?;
    check_sample("1 / 3", round_clip(1, 3), (0, false))?;
    let maximum = 2147483647;
    check_sample("clipped", round_clip(4294967295, 2), (maximum, true))?;
    check_sample("not clipped", round_clip(4294967293, 2), (maximum, false))?;
    let minimum = -2147483648;
    check_sample("clipped below", round_clip(-4294967297, 2), (minimum, true))?;
    check_sample(
        "not clipped below",
        round_clip(-4294967296, 2),
        (minimum, false),
    )?;
    Ok(())
}

/// Fails with the text of a gain by which a sample is scaled to another one, or clipped otherwise.
fn check_scaled(text: &'static str, sample: i32, want: (i32, bool)) -> Result<(), &'static str> {
    match Gain::parse(text) {
        Ok(gain) => check_sample(text, inner::scale(gain, sample), want),
        Err(_fault) => Err("not a gain"),
    }
}

#[test]
fn scaled_samples() -> Result<(), &'static str> {
    for (text, sample, scaled, is_clipped) in [
        ("1.5", 2147483647, 2147483647, true),
        ("1.5", -1, -2, false),
        ("-0.5", 3, -2, false),
        ("0.000000000233", 2147483647, 1, false),
        ("0.000000000232", 2147483647, 0, false),
        ("-1", -2147483648, 2147483647, true),
        ("1", -2147483648, -2147483648, false),
    ] {
        check_scaled(text, sample, (scaled, is_clipped))?;
    }
    Ok(())
}

#[test]
fn times_at_8000() -> Result<(), &'static str> {
    for (text, frames) in [
        ("5025", 40_200_000u64),
        ("79:0285", 40_200_000),
        ("1:23:45", 40_200_000),
        ("83:45", 40_200_000),
        ("1:0:1425", 40_200_000),
        ("1:23:45.t", 40_200_000),
        ("1.7e6s", 1_700_000),
        ("1:", 480_000),
        (":.5", 4000),
        ("0.0000625", 1),
        ("0.00006", 0),
        ("17e+5s+0.0000625-.5e1s", 1_699_996),
        ("000000000000000001.000000000000000000E00s", 1),
        ("1099511627776s", 1_099_511_627_776),
    ] {
        check_frames(text, TimeSpec::frames(text, 8000), Ok(frames))?;
    }
    Ok(())
}

#[test]
fn times_refused() -> Result<(), &'static str> {
    for (text, fault) in [
        ("0.5s", TimeFault::NotWhole),
        ("1s-2s", TimeFault::Negative),
        ("2e12s", TimeFault::TooFar),
        ("1..2", TimeFault::BadTime),
        (":", TimeFault::BadTime),
        ("", TimeFault::BadTime),
        (".e5s", TimeFault::BadTime),
        ("e1s", TimeFault::BadTime),
        ("1e+5", TimeFault::BadTime),
        ("1e005s", TimeFault::BadTime),
        ("+1", TimeFault::BadTime),
        ("1:2:3:4", TimeFault::BadTime),
        ("1000000000000000000", TimeFault::BadTime),
        ("2e12s+0.5s", TimeFault::TooFar),
        ("0.5s+2e12s", TimeFault::NotWhole),
        ("2e12s+", TimeFault::BadTime),
        ("999999999999999999.5s", TimeFault::NotWhole),
        ("999999999999999999:0:0", TimeFault::TooFar),
        ("1e99s", TimeFault::TooFar),
        ("1e-99s", TimeFault::NotWhole),
        ("1099511627776s+1s", TimeFault::TooFar),
    ] {
        check_frames(text, TimeSpec::frames(text, 8000), Err(fault))?;
    }
    Ok(())
}

#[test]
fn positions_at_8000() -> Result<(), &'static str> {
    for (text, default, previous, position) in [
        ("-0.5+1s", Anchor::Start, At::Start(0), At::End(3999)),
        (
            "+0:12+10s",
            Anchor::Start,
            At::Start(100),
            At::Start(96_110),
        ),
        ("+5s", Anchor::Start, At::End(3), At::End(0)),
        ("1.5", Anchor::Start, At::Start(0), At::Start(12_000)),
        ("+1", Anchor::Start, At::Start(12_000), At::Start(20_000)),
        ("3000s", Anchor::Start, At::Start(20_000), At::Start(3000)),
        ("-1s-2s", Anchor::Start, At::Start(0), At::End(3)),
        ("5s-7s", Anchor::Previous, At::End(3), At::End(5)),
        ("1s", Anchor::End, At::Start(9), At::End(1)),
    ] {
        check_position(text, default, previous, Ok(position))?;
    }
    Ok(())
}

#[test]
fn positions_refused_at_8000() -> Result<(), &'static str> {
    for (text, default, previous, fault) in [
        ("=1s-2s", Anchor::End, At::Start(9), TimeFault::Negative),
        ("+1s", Anchor::End, At::Start(u64::MAX), TimeFault::TooFar),
        ("=+1", Anchor::Start, At::Start(0), TimeFault::BadTime),
        ("+-1", Anchor::Start, At::Start(0), TimeFault::BadTime),
    ] {
        check_position(text, default, previous, Err(fault))?;
    }
    Ok(())
}

#[test]
fn millis_at_8000() -> Result<(), &'static str> {
    for (text, frames) in [
        ("0.125", Ok(1u64)),
        ("0", Ok(1)),
        ("0.1", Ok(1)),
        ("1000", Ok(8000)),
        ("137438953472", Ok(1_099_511_627_776)),
        ("2e11", Err(TimeFault::TooFar)),
        ("1e31", Err(TimeFault::TooFar)),
        ("-1", Err(TimeFault::Negative)),
        ("x", Err(TimeFault::BadTime)),
        ("-1e-10", Ok(1)),
        ("-5e-10", Err(TimeFault::Negative)),
        ("-1e30", Err(TimeFault::Negative)),
    ] {
        check_frames(text, millis(text, 8000), frames)?;
    }
    Ok(())
}

/// The number of coefficients in a file.
fn coefficient_count(alloc: Global, file: &[u8]) -> Result<usize, CoefFault> {
    Ok(Coefficients::parse(alloc, file)?.len())
}

/// Fails where the coefficients of a file are not these, in trillionths.
fn check_coefficients(alloc: Global, file: &[u8], want: &[i64]) -> Result<(), &'static str> {
    let Ok(gains) = Coefficients::parse(alloc, file) else {
        return Err("no coefficients");
    };
    if gains.len() != want.len() {
        return Err("another number of coefficients");
    }
    for (gain, trillionths) in gains.iter().zip(want) {
        if gain.trillionths() != *trillionths {
            return Err("another coefficient");
        }
    }
    Ok(())
}

#[test]
fn coefficients_parsed(rt: HostRuntime) -> Result<(), &'static str> {
    let file = b"# low pass\n0.25 0.5 # mid\n0.25";
    let want = [250_000_000_000, 500_000_000_000, 250_000_000_000];
    check_coefficients(rt.alloc(), file, &want)
}

/// Fails with a text where a file has another number of coefficients, or is refused otherwise.
fn check_count(
    alloc: Global,
    text: &'static str,
    file: &[u8],
    want: Result<usize, CoefFault>,
) -> Result<(), &'static str> {
    if coefficient_count(alloc, file) == want {
        Ok(())
    } else {
        Err(text)
    }
}

#[test]
fn coefficients_parsed_by_count(rt: HostRuntime) -> Result<(), &'static str> {
    let bad = Err(CoefFault::BadCoefficients);
    for (text, file, count) in [
        (
            "three between white space and comments",
            b"#\xff\r#\n\x0b1#2\r3\n\x0c-3e1\r.5\t".as_slice(),
            Ok(3),
        ),
        ("one", b"1", Ok(1)),
        ("no byte", b"", bad),
        ("a comment", b"#x", bad),
        ("one and a letter", b"1 y", bad),
        ("one and a byte of 255", b"1\xff", bad),
        ("one, a byte of 0 and two", b"1\x002", bad),
        ("one, a byte of 160 and two", b"1\xa02", bad),
    ] {
        check_count(rt.alloc(), text, file, count)?;
    }
    Ok(())
}

/// Fails with a word where a file that has it so many times has another number of coefficients, or is refused otherwise.
fn check_repeated(
    alloc: Global,
    word: &'static str,
    times: usize,
    want: Result<usize, CoefFault>,
) -> Result<(), &'static str> {
    match word.repeat(alloc, times) {
        Ok(file) => check_count(alloc, word, file.as_bytes(), want),
        Err(_refused) => Err(REFUSED),
    }
}

#[test]
fn coefficients_parsed_at_limits(rt: HostRuntime) -> Result<(), &'static str> {
    let bad = Err(CoefFault::BadCoefficients);
    for (word, times, count) in [
        ("1 ", 1024, Ok(1024)),
        ("1 ", 1025, bad),
        ("  #\n  1\n", 256, Ok(256)),
        (" ", 1_048_577, bad),
    ] {
        check_repeated(rt.alloc(), word, times, count)?;
    }
    Ok(())
}

/// Fails where twenty coefficients are not parsed.
fn parse_twenty(alloc: Global) -> Result<(), &'static str> {
    let file = b"1 2 3 4 5 6 7 8 9 10 11 12 13 14 15 16 17 18 19 20";
    match coefficient_count(alloc, file) {
        Ok(20) => Ok(()),
        Ok(_count) => Err("another number of coefficients"),
        Err(CoefFault::Memory) => Err(REFUSED),
        Err(_fault) => Err("another fault than want of memory"),
    }
}

/// Each request for memory refused in turn.
#[test]
fn growth_coefficients(rt: HostRuntime) -> Result<(), &'static str> {
    say(&rt, parse_twenty(rt.alloc()))
}
