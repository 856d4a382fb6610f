//! Each variant of each public fault with its text, in tables.

use fx_chain_run::{Cause, Report, RunFault};
use fx_fixed::{CoefFault, NumberFault, TimeFault};
use fx_frame_base::{Failed, ThawFault};
use fx_plan::{LineFault, PlanFault};
use fx_plan_words::{PlanCause, WordsRefusal, at_word};
use fx_sound::inner::SoundFault;
use fx_sound::{HeadFault, ReadFault, TooLong};
use soxchain::inner::Refusal;
use soxchain_common::FilesFault;
use soxchain_stream::FeedFault;
use std::alloc::Global;
use std::fmt::Display;

/// Fails with the text where the fault is written otherwise.
fn check<F: Display + Copy>(
    alloc: Global,
    fault: F,
    text: &'static str,
) -> Result<(), &'static str> {
    match format!(in alloc; "{fault}") {
        Ok(written) => {
            if written.as_str() == text {
                return Ok(());
            }
            Err(text)
        }
        Err(_refused) => Err("refused"),
    }
}

/// Checks the text of each variant. The rows are also the arms of a `match`: a variant without a row does not compile.
macro_rules! check_texts {
    ($alloc:expr, $fault:ident { $($variant:ident $(($payload:expr))? => $text:literal),+ $(,)? }) => {
        for fault in [$($fault::$variant $(($payload))?),+] {
            let text = match fault {
                $($fault::$variant { .. } => $text),+
            };
            check($alloc, fault, text)?;
        }
    };
}

#[test]
fn texts_of_numbers(rt: HostRuntime) -> Result<(), &'static str> {
    let alloc = rt.alloc();
    check_texts!(alloc, NumberFault {
        NotANumber => "not a number",
        TooLong => "a number of more than 40 bytes",
        OutOfRange => "a number out of range",
    });
    check_texts!(alloc, TimeFault {
        BadTime => "not a time",
        NotWhole => "not a whole number of frames",
        Negative => "a time before the start",
        TooFar => "a time of more than 2^40 frames",
    });
    check_texts!(alloc, CoefFault {
        BadCoefficients => "not a list of coefficients",
        Memory => "no memory for the coefficients",
    });
    Ok(())
}

#[test]
fn texts_of_frames(rt: HostRuntime) -> Result<(), &'static str> {
    let alloc = rt.alloc();
    check_texts!(alloc, ThawFault {
        WrongPlan => "the plan is another one",
        BadSnapshot => "not a snapshot of this plan",
        Memory => "out of memory",
    });
    check(alloc, Failed, "a reader or writer failed")
}

#[test]
fn texts_of_sounds(rt: HostRuntime) -> Result<(), &'static str> {
    let alloc = rt.alloc();
    check_texts!(alloc, HeadFault {
        ReadFailed => "the reader failed",
        UnknownType => "the type is unknown",
        Truncated => "the head is cut off",
        BadHeader => "the head is not well formed",
        NotInProfile => "the coding is not in the profile",
        TooManyChannels => "there are too many channels",
        HeadTooLong => "the head is too long",
    });
    check_texts!(alloc, ReadFault {
        ReadFailed => "the reader failed",
        TooLong => "the sound is too long",
    });
    check_texts!(alloc, SoundFault {
        Head(HeadFault::Truncated) => "the head: the head is cut off",
        Read(ReadFault::TooLong) => "the sound: the sound is too long",
        Memory => "no memory",
    });
    check(alloc, TooLong, "the sound is too long")
}

#[test]
fn texts_of_plans(rt: HostRuntime) -> Result<(), &'static str> {
    let alloc = rt.alloc();
    check_texts!(alloc, PlanCause {
        UnknownEffect => "the effect is unknown",
        NotInProfile => "the effect is not in the profile",
        NeedsWholeSound => "the effect needs the whole sound",
        WrongCount => "the count of words is wrong",
        BadArgument => "the argument is not well formed",
        OutOfRange => "the argument is out of range",
        PositionBehind => "the position is behind",
        NoSuchChannel => "there is no such channel",
        TooManyChannels => "there are too many channels",
        RateNotDivisible => "the rate is not divisible",
        RateTooLarge => "the rate is too large",
        TooManyEffects => "there are too many effects",
        BadCoefficients => "the coefficients are bad",
        HoldTooLarge => "the plan would hold too much",
        TooLong => "the sound could become too long",
        Memory => "no memory for the plan",
    });
    let mark = at_word(PlanCause::OutOfRange, 12);
    check(alloc, mark, "word 12: the argument is out of range")?;
    check_texts!(alloc, WordsRefusal {
        Memory => "out of memory",
        Marked(mark) => "word 12: the argument is out of range",
    });
    check(
        alloc,
        PlanFault {
            cause: PlanCause::WrongCount,
            effect: 31,
            word: 2,
        },
        "effect 31, word 2: the count of words is wrong",
    )
}

#[test]
fn texts_of_lines(rt: HostRuntime) -> Result<(), &'static str> {
    let alloc = rt.alloc();
    check_texts!(alloc, LineFault {
        MissingFile => "a file is missing",
        BadOption => "an option is not known or has no value",
        NoOutputType => "the type of the output is not known",
        BadBits => "the bits of the output are not 8, 16, 24 or 32",
        Memory => "out of memory",
    });
    check_texts!(alloc, FilesFault {
        CannotRead("taps.txt") => "taps.txt cannot be read",
        Memory => "no memory for the files",
    });
    Ok(())
}

#[test]
fn texts_of_runs(rt: HostRuntime) -> Result<(), &'static str> {
    let alloc = rt.alloc();
    let plan = PlanFault {
        cause: PlanCause::TooLong,
        effect: 0,
        word: 0,
    };
    check_texts!(alloc, Refusal {
        Head(HeadFault::BadHeader) => "the head: the head is not well formed",
        Plan(plan) => "effect 0, word 0: the sound could become too long",
        Chain => "no memory for the chain",
    });
    check_texts!(alloc, Cause {
        ReadFailed => "the reader failed",
        WriteFailed => "the writer failed",
        TooLong => "the sound is too long",
    });
    check_texts!(alloc, RunFault {
        ReadFailed(Report::none()) => "the reader failed",
        WriteFailed(Report::none()) => "the writer failed",
        TooLong(Report::none()) => "the sound is too long",
    });
    check_texts!(alloc, FeedFault {
        PartOfFrame => "the samples make no whole frames",
        TooLong => "the sound is too long",
    });
    Ok(())
}
