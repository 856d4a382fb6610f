//! The worked rows of fx_plan: in each table a line has words, and after the arrow what is answered.

ghost use Rattle.std.specs.Prelude.{◌<◌, ◌≤◌};

use crate::line_tests::words_of;
use fx_frame::Coding;
use fx_plan::{CommandLine, LineFault, Plan, PlanFault, parse_line, plan};
use fx_sound::{Head, Kind};
use std::alloc::{AllocError, Global};
use std::io;
use std::test::Fail;

const LINES_REFUSED: &str = "\
-r -> line 2
 -> line 1
-t mp3 -> line 2
- - -> line 3
- -b 12 - -> line 4
";

const REFUSED: &str = "\
reverse -> 3 at 1 1
delay -1 -> 3 at 1 2
vol 3 dB -> 2 at 1 3
fade 1 -> 2 at 1 2
foo -> 1 at 1 1
downsample 3 -> 10 at 1 2
";

const SMALL_REFUSALS: &str = "\
trim 5s =3s -> 7 at 1 3
trim -5s -6s -> 7 at 1 3
trim -> 4 at 1 1
pad 1s 2s 3s -> 5 at 1 3
echo 1 1 10 -> 4 at 1 1
echo 1.5 1 10 0.5 -> 6 at 1 2
vol x -> 5 at 1 2
vol 1001 -> 6 at 1 2
vol 3dB -> 2 at 1 2
vol 1 amplitude 0.1 -> 2 at 1 4
dcshift 2.5 -> 6 at 1 2
fir -> 2 at 1 1
fir 0.5 -> 13 at 1 2
remix -> 4 at 1 1
remix 1p3 -> 2 at 1 2
remix 0,1 -> 5 at 1 2
delay 1 2 -> 8 at 1 3
upsample 0 -> 6 at 1 2
upsample x -> 5 at 1 2
ladspa -> 2 at 1 1
remix 1 1 1 1 1 1 1 1 1 1 1 1 1 1 1 1 1 -> 9 at 1 18
fir e.txt -> 13 at 1 2
vol 1 vol 1 vol 1 vol 1 vol 1 vol 1 vol 1 vol 1 vol 1 vol 1 vol 1 vol 1 vol 1 vol 1 vol 1 vol 1 vol 1 vol 1 vol 1 vol 1 vol 1 vol 1 vol 1 vol 1 vol 1 vol 1 vol 1 vol 1 vol 1 vol 1 vol 1 vol 1 vol 1 -> 12 at 33 1
";

const BEYOND_LIMITS: &str = "\
echo 1.0000000004 1 0.125 0.5 -> 6 at 1 2
dcshift 2.0000000004 -> 6 at 1 2
vol 1000.0000000004 -> 6 at 1 2
";

const UPSAMPLED: &str = "\
upsample 256 upsample 256 -> hold 3, rate 524288000, channels 1, [Upsample(256), Upsample(256)]
upsample 256 upsample 256 upsample 8 -> 15 at 0 0
upsample 256 upsample 256 upsample 9 -> 11 at 3 2
";

/// Which of two faults comes first, and which word it names.
const FIRST_FAULTS: &str = "\
remix -p -> 4 at 1 1
remix -p 1 -> 2 at 1 2
remix -a 1 1 1 1 1 1 1 1 1 1 1 1 1 1 1 1 1 -> 9 at 1 19
remix 9p3 -> 2 at 1 2
remix 9v2000 -> 6 at 1 2
remix 9,x -> 8 at 1 2
remix 00 -> 5 at 1 2
remix -0 -> 5 at 1 2
remix 0v1 -> 5 at 1 2
remix 0-1 -> 5 at 1 2
delay x 2 -> 8 at 1 3
fir - 1 -> 5 at 1 2
fir - -> 2 at 1 2
vol 0.5amplitude -> 5 at 1 2
vol 1 foo 0.1 -> 5 at 1 3
fade t -> 4 at 1 1
fade q -> 2 at 1 2
fade q 1 2 3 4 -> 4 at 1 6
pad 1s@ -> 5 at 1 2
pad 1s x 2s -> 5 at 1 3
upsample 2 2 -> 4 at 1 3
echo 1 1 10 0.5 10 -> 4 at 1 1
echos 1 1 x 2 -> 5 at 1 4
echos 1 1 1 2 -> 6 at 1 5
vol 1 trim 1 pad 1s@x -> 5 at 3 2
";

const HELD: &str = "\
trim -3s fade t 0 0 2s -> hold 8, rate 8000, channels 1, [Trim([End(3)]), Fade(Fading { fade_in: 0, stop: Some(Start(0)), fade_out: 2 })]
pad 3s delay 4s echo 1 1 0.25 0.5 -> hold 10, rate 8000, channels 1, [Pad([(3, Start(0))]), Delay([4]), Echo(Echoing { gain_in: Gain { trillionths: 1000000000000 }, gain_out: Gain { trillionths: 1000000000000 }, taps: [(2, Gain { trillionths: 500000000000 })] })]
trim =5s -3s =2s -> hold 5, rate 8000, channels 1, [Trim([Start(5), End(3), Start(2)])]
trim 5s +3s -2s pad 2s 1s@-5s 3s -> hold 10, rate 8000, channels 1, [Trim([Start(5), Start(8), End(2)]), Pad([(2, Start(0)), (1, End(5)), (3, End(0))])]
upsample 2 delay 1s -> hold 4, rate 16000, channels 1, [Upsample(2), Delay([1])]
trim -3s pad 1s 1s delay 1s echo 1 1 0.125 0.5 echos 1 1 0.125 0.5 0.125 0.5 fade t 1s -0 vol 1 dcshift 0 fir 0 1 0 remix 1 upsample 2 downsample 2 -> hold 23, rate 8000, channels 1, [Trim([End(3)]), Pad([(1, Start(0)), (1, End(0))]), Delay([1]), Echo(Echoing { gain_in: Gain { trillionths: 1000000000000 }, gain_out: Gain { trillionths: 1000000000000 }, taps: [(1, Gain { trillionths: 500000000000 })] }), Echos(Echoing { gain_in: Gain { trillionths: 1000000000000 }, gain_out: Gain { trillionths: 1000000000000 }, taps: [(1, Gain { trillionths: 500000000000 }), (1, Gain { trillionths: 500000000000 })] }), Fade(Fading { fade_in: 1, stop: Some(End(0)), fade_out: 1 }), Vol(Gain { trillionths: 1000000000000 }), DcShift(Gain { trillionths: 0 }), Fir([Gain { trillionths: 0 }, Gain { trillionths: 1000000000000 }, Gain { trillionths: 0 }]), Remix([[(0, Share)]]), Upsample(2), Downsample(2)]
";

const HELD_STEREO: &str = "\
remix -m 1,1v-0.5 0 - -> hold 2, rate 8000, channels 3, [Remix([[(0, One), (0, Given(Gain { trillionths: -500000000000 }))], [], [(0, One), (1, One)]])]
remix 1- -> hold 2, rate 8000, channels 1, [Remix([[(0, Share), (1, Share)]])]
remix 2v0.5,1 -> hold 2, rate 8000, channels 1, [Remix([[(1, Given(Gain { trillionths: 500000000000 })), (0, One)]])]
remix -a 2v0.5,1 -> hold 2, rate 8000, channels 1, [Remix([[(1, Given(Gain { trillionths: 500000000000 })), (0, Share)]])]
remix -m 2,1 -> hold 2, rate 8000, channels 1, [Remix([[(1, One), (0, One)]])]
";

/// A line, and lines whose plans differ from its plan in one part.
const BASE: &str = "- -t au - trim 1s vol 1";

const APART: &str = "\
- out.au trim 1s vol 1
- -t wav - trim 1s vol 1
- -t au -b 16 - trim 1s vol 1
- -t au - trim 2s vol 1
- -t au - trim 1s vol 0.5
- -t au - trim 1s dcshift 1
- -t au - vol 1 trim 1s
- -t au - trim 1s
";

/// A line whose plan takes memory in each way.
const GROWN: &str = "- -t au - trim -3s pad 1s 1s delay 1s echo 1 1 0.125 0.5 fir 0 1 0 remix 1";

/// The command line of a text.
fn line_of(alloc: Global, text: &str) -> Result<CommandLine, LineFault> {
    match words_of(alloc, text) {
        Ok(words) => parse_line(alloc, &words),
        Err(AllocError) => Err(LineFault::Memory),
    }
}

/// The head of an AU with samples of 32 bits.
fn head(rate: u32, channels: usize) -> Head
    requires rate { 0 < rate }
    requires some { 0 < channels }
    requires maximum { channels ≤ 16 }
{
    Head {
        kind: Kind::Au,
        rate,
        channels,
        coding: Coding::S32Be,
        announced: None,
    }
}

/// What a plan holds, what comes out of it and what it does; or how it is refused.
fn delivered(alloc: Global, made: Result<Plan, PlanFault>) -> Result<String, AllocError> {
    match made {
        Ok(plan) => {
            let (hold, rate, channels) = (plan.hold(), plan.rate(), plan.channels());
            format!(in alloc;
                "hold {hold}, rate {rate}, channels {channels}, {:?}",
                plan.effects()
            )
        }
        Err(fault) => {
            format!(in alloc; "{} at {} {}", fault.cause as u8, fault.effect, fault.word)
        }
    }
}

/// What is answered for a line; each coefficient file that it names counts as one without a byte.
fn answered(alloc: Global, head: &Head, text: &str) -> Result<String, AllocError> {
    match line_of(alloc, text) {
        Ok(line) => delivered(alloc, plan(alloc, &line, head, &[])),
        Err(fault) => format!(in alloc; "line {}", fault as u8),
    }
}

/// Fails at the first row of a table that is answered otherwise, its words being put after `front`.
fn check_rows(alloc: Global, head: &Head, front: &str, table: &str) -> Result<(), Fail> {
    for row in table.lines() {
        let Some((words, answer)) = row.split_once(" -> ") else {
            return Err("a row has no arrow".into());
        };
        let text = format!(in alloc; "{front}{words}")?;
        let found = answered(alloc, head, &text)?;
        if found.as_str() != answer {
            return Err(format!(in alloc; "{words}, {found}")?.into());
        }
    }
    Ok(())
}

/// The same of words after the output of a sound.
fn check_effects(alloc: Global, head: &Head, table: &str) -> Result<(), Fail> {
    check_rows(alloc, head, "- -t au - ", table)
}

#[test]
fn lines_refused(rt: HostRuntime) -> Result<(), Fail> {
    check_rows(rt.alloc(), &head(8000, 1), "", LINES_REFUSED)
}

#[test]
fn lines_accepted(rt: HostRuntime) -> Result<(), Fail> {
    let line = line_of(rt.alloc(), "-D - -t au -")?;
    assert_eq!(rt; line.effect_count(), 0);
    Ok(())
}

#[test]
fn plan_refused(rt: HostRuntime) -> Result<(), Fail> {
    check_effects(rt.alloc(), &head(8000, 1), REFUSED)?;
    check_effects(rt.alloc(), &head(48000, 1), "trim -2:00:00 -> 14 at 0 0")?;
    check_effects(rt.alloc(), &head(8000, 2), "remix 3 -> 8 at 1 2")
}

#[test]
fn small_refusals(rt: HostRuntime) -> Result<(), Fail> {
    let line = line_of(rt.alloc(), "- -t au - fir 0.5")?;
    assert_eq!(rt; line.coefficient_file_count(), 1);
    assert_eq!(rt; line.coefficient_file(1), "0.5");
    check_effects(rt.alloc(), &head(8000, 1), SMALL_REFUSALS)
}

#[test]
fn gains_beyond_limits(rt: HostRuntime) -> Result<(), Fail> {
    check_effects(rt.alloc(), &head(8000, 1), BEYOND_LIMITS)
}

#[test]
fn upsample_limits(rt: HostRuntime) -> Result<(), Fail> {
    check_effects(rt.alloc(), &head(8000, 1), UPSAMPLED)
}

#[test]
fn order_of_refusals(rt: HostRuntime) -> Result<(), Fail> {
    check_effects(rt.alloc(), &head(8000, 1), FIRST_FAULTS)?;
    check_effects(rt.alloc(), &head(u32::MAX, 1), "upsample -> 11 at 1 1")
}

#[test]
fn plans_accepted(rt: HostRuntime) -> Result<(), Fail> {
    check_effects(rt.alloc(), &head(8000, 1), HELD)?;
    check_effects(rt.alloc(), &head(8000, 2), HELD_STEREO)
}

/// A file of three coefficients.
#[test]
fn coefficients_planned(rt: HostRuntime) -> Result<(), Fail> {
    let line = line_of(rt.alloc(), "- -t au - fir c.txt")?;
    let mut files = Vec::new(rt.alloc());
    files.push(Vec::from_slice(rt.alloc(), b"1 2 # 3\n3")?)?;
    let made = plan(rt.alloc(), &line, &head(8000, 1), &files)?;
    assert_eq!(rt; made.hold(), 4);
    Ok(())
}

/// The plan of a line.
fn plan_of(alloc: Global, head: &Head, text: &str) -> Result<Plan, Fail> {
    let line = line_of(alloc, text)?;
    Ok(plan(alloc, &line, head, &[])?)
}

/// A plan is equal to its copy, and to no plan that differs in one part.
#[test]
fn plans_equal(rt: HostRuntime) -> Result<(), Fail> {
    let mono = head(8000, 1);
    let base = plan_of(rt.alloc(), &mono, BASE)?;
    assert!(rt; base == base.copy(rt.alloc())?);
    assert!(rt; base == plan_of(rt.alloc(), &mono, BASE)?);
    for text in APART.lines() {
        assert!(rt; base != plan_of(rt.alloc(), &mono, text)?, "{text}");
    }
    for other in [head(8001, 1), head(8000, 2)] {
        assert!(rt; base != plan_of(rt.alloc(), &other, BASE)?);
    }
    Ok(())
}

/// Says whether memory was found.
fn say(rt: &HostRuntime, is_made: bool) -> io::Result<()> {
    let word = if is_made { "made" } else { "refused" };
    println!(rt; "{word}")
}

/// The plan of `GROWN`.
fn grown(alloc: Global) -> Option<Plan> {
    let line = line_of(alloc, GROWN).ok()?;
    plan(alloc, &line, &head(8000, 1), &[]).ok()
}

#[test]
fn growth_line(rt: HostRuntime) -> io::Result<()> {
    say(&rt, line_of(rt.alloc(), GROWN).is_ok())
}

#[test]
fn growth_plan(rt: HostRuntime) -> io::Result<()> {
    say(&rt, grown(rt.alloc()).is_some())
}

#[test]
fn growth_copy(rt: HostRuntime) -> io::Result<()> {
    let is_made = match grown(rt.alloc()) {
        Some(made) => made.copy(rt.alloc()).is_ok(),
        None => false,
    };
    say(&rt, is_made)
}
