//! What lines are answered.

ghost use Rattle.std.specs.Prelude.{◌≡◌, IfOk, length};
ghost use Rattle.fx_plan.specs.CommandLines.{coefficient_files, effects_in};

use crate::lines::{File, Known, file_of, head_of, words_of};
use fx_plan::{CommandLine, Endpoint, Plan, PlanFault, parse_line, plan};
use std::alloc::{AllocError, Global};
use std::io;

/// How many frames the work is told for.
const FRAMES: u64 = 1000;

/// A word as it is printed: `%` and two digits for a control character, and for `%`.
fn shown(alloc: Global, word: &str) -> Result<String, AllocError> {
    let mut text = String::new(alloc);
    for letter in word.chars() {
        if letter == '%' || letter.is_ascii_control() {
            text.push_str(format!(in alloc; "%{:02X}", letter as u32)?.as_str())?;
        } else {
            text.push(letter)?;
        }
    }
    Ok(text)
}

/// The name of a stream as it is printed.
fn shown_stream(alloc: Global, stream: Endpoint<'_>) -> Result<String, AllocError> {
    match stream {
        Endpoint::Standard => String::from_str(alloc, "-"),
        Endpoint::Named(name) => shown(alloc, name),
    }
}

/// The coefficient file of a name, the last one that was said.
fn known_file<'a>(files: &'a [File], name: &str) -> Option<&'a File> {
    files.iter().rev().find(|file| file.name.as_str() == name)
}

/// The first coefficient file of a line that is not known.
fn unknown_file<'a>(line: &'a CommandLine, files: &[File]) -> Option<&'a str> {
    for number in 1..=line.coefficient_file_count() {
        let name = line.coefficient_file(number);
        if known_file(files, name).is_none() {
            return Some(name);
        }
    }
    None
}

/// The bytes of each coefficient file of a line; those of one that is not known are none.
fn files_of(alloc: Global, line: &CommandLine, files: &[File]) -> Result<Vec<Vec<u8>>, AllocError>
    ensures { IfOk result (λ found. length found.items ≡ length (coefficient_files (effects_in line.now))) }
{
    let mut found = Vec::new(alloc);
    while found.len() < line.coefficient_file_count() {
        let name = line.coefficient_file(found.len() + 1);
        let bytes = match known_file(files, name) {
            Some(file) => file.bytes.as_slice(),
            None => &[],
        };
        found.push(Vec::from_slice(alloc, bytes)?)?;
    }
    Ok(found)
}

/// The word at this place of this effect, both counted from 1; no text where there is none.
fn word_at(line: &CommandLine, number: usize, place: usize) -> &str {
    if number == 0 || number > line.effect_count() {
        return "";
    }
    if place == 0 || place > line.word_count(number) {
        return "";
    }
    line.word(number, place)
}

/// Prints why a line gets no plan.
fn show_fault(rt: &HostRuntime, line: &CommandLine, fault: PlanFault) -> io::Result<()> {
    let PlanFault {
        cause,
        effect,
        word,
    } = fault;
    let code = cause as u32;
    if effect == 0 {
        return println!(rt; "effects: {code} {cause:?}");
    }
    let name = shown(rt.alloc(), word_at(line, effect, 1))?;
    let text = shown(rt.alloc(), word_at(line, effect, word))?;
    println!(rt; "effect {effect} {name}: {code} {cause:?}: {text} (word {word})")
}

/// Prints the plan of a line.
fn show_plan(rt: &HostRuntime, line: &CommandLine, plan: &Plan) -> io::Result<()> {
    let input = shown_stream(rt.alloc(), line.input())?;
    let output = shown_stream(rt.alloc(), line.output())?;
    let (kind, coding) = (plan.kind(), plan.coding());
    let (rate, channels) = (plan.rate(), plan.channels());
    let (hold, work) = (plan.hold(), plan.work(FRAMES));
    print!(rt; "from {input} to {output}: {kind:?} {coding:?}, rate {rate}, channels {channels}")?;
    print!(rt; ", hold {hold}, work {work}")?;
    for number in 1..=plan.effect_count() {
        print!(rt; "; {} {}", plan.effect_name(number), plan.hold_of(number))?;
    }
    println!(rt)
}

/// Prints what a command line gives.
fn answer_plan(rt: &HostRuntime, known: &Known, words: &[String]) -> io::Result<()> {
    let line = match parse_line(rt.alloc(), words) {
        Ok(line) => line,
        Err(fault) => return println!(rt; "command line: {} {fault:?}", fault as u32),
    };
    let Some(head) = known.head else {
        return println!(rt; "?");
    };
    if let Some(name) = unknown_file(&line, &known.files) {
        return println!(rt; "cannot open {}", shown(rt.alloc(), name)?);
    }
    let files = files_of(rt.alloc(), &line, &known.files)?;
    match plan(rt.alloc(), &line, &head, &files) {
        Ok(plan) => show_plan(rt, &line, &plan),
        Err(fault) => show_fault(rt, &line, fault),
    }
}

/// Prints what the words of a command line give.
fn answer_words(rt: &HostRuntime, known: &Known, text: &str) -> io::Result<()> {
    match words_of(rt.alloc(), text)? {
        Some(words) => answer_plan(rt, known, &words),
        None => println!(rt; "?"),
    }
}

/// Keeps what a line says, or prints the answer to it.
pub fn answer(rt: &HostRuntime, known: &mut Known, line: &str) -> io::Result<()> {
    match line.split_once('\t') {
        None if line == "plan" => answer_plan(rt, known, &[]),
        Some(("plan", text)) => answer_words(rt, known, text),
        Some(("head", text)) => {
            known.head = head_of(text);
            known.files.clear();
            if known.head.is_none() {
                return println!(rt; "?");
            }
            Ok(())
        }
        Some(("file", text)) => match file_of(rt.alloc(), text)? {
            Some(file) => Ok(known.files.push(file)?),
            None => println!(rt; "?"),
        },
        _ => println!(rt; "?"),
    }
}
