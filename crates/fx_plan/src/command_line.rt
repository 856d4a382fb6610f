//! The command line, read once and kept: where the sounds are, their kinds, and the words of the effects.

ghost use Rattle.std.specs.Prelude.{◌≡◌, ◌≤◌, ◌-◌, IfOk, Some, is_some, length, map, slice_get, string_bytes};
ghost use Rattle.fx_plan.specs.Line.{line_of_words, shown_line};
ghost use Rattle.fx_plan.specs.CommandLines.{LineReads, coefficient_files, effect_words, effects_in, file_name, name_in, planning_in};
ghost use Rattle.fx_plan.specs.Plans.{head_layout, PlanReads, all_faults, plan_bytes};
ghost use Rattle.fx_plan_words.specs.Faults.{word_texts};
ghost use Rattle.fx_plan.specs.Planning.{planning};

use crate::accepted::Plan;
use crate::answers::plan_words;
use crate::fault::PlanFault;
use crate::listing::{count_effects, count_files, effect_at, file_at, list_files};
use crate::{Bits, CommandWords, LineFault, read_line};
use fx_sound::{Head, Kind};
use std::alloc::{AllocError, Global};
use std::marker::Model;

/// Where a sound comes from or goes to.
#[derive(Clone, Copy, Debug, PartialEq, Eq)]
pub enum Endpoint<'a> {
    /// Standard input or standard output.
    Standard,
    /// The file of this name.
    Named(&'a str),
}

/// The meaning of the words of a command line, owned.
#[derive(Debug, Drop)]
pub struct CommandLine {
    input_kind: Option<Kind>,
    input: String,
    output_kind: Kind,
    bits: Option<Bits>,
    output: String,
    words: Vec<String>,
}

impl Model for CommandLine {
    ghost use Rattle.std.specs.Prelude.{string_bytes};
    ghost use Rattle.fx_plan.specs.Line.{Said, texts};

    ghost Value = { Said };

    ghost view = { λ line. record {
      input_kind = line.input_kind;
      input = string_bytes line.input;
      output_kind = line.output_kind;
      bits = line.bits;
      output = string_bytes line.output;
      effects = texts line.words.items;
    } };
}

/// A copy of words.
fn copy_words(alloc: Global, words: &[String]) -> Result<Vec<String>, AllocError>
    ensures { IfOk result (λ copies. word_texts copies.items ≡ word_texts words.now) }
{
    let mut copies = Vec::new(alloc);
    let mut rest = words;
    while let Some((word, more)) = rest.split_first() {
        copies.push(String::from_str(alloc, word)?)?;
        rest = more;
    }
    Ok(copies)
}

/// The stream that a word stands for.
fn stream_of(word: &str) -> Endpoint<'_>
    ensures { name_in result ≡ file_name word.now }
{
    if word == "-" {
        return Endpoint::Standard;
    }
    Endpoint::Named(word)
}

/// An owned copy of a line that was read.
fn copy_line(alloc: Global, found: CommandWords<'_>) -> Result<CommandLine, AllocError>
    ensures { IfOk result (λ line. line ≡ shown_line found.entry) }
{
    Ok(CommandLine {
        input_kind: found.input_kind,
        input: String::from_str(alloc, found.input)?,
        output_kind: found.output_kind,
        bits: found.bits,
        output: String::from_str(alloc, found.output)?,
        words: copy_words(alloc, found.effects)?,
    })
}

/// Reads the words of a command line, without the program's name: the line that they make, or the first fault from
/// left to right. `Memory` comes only for words without a fault.
pub fn parse_line(alloc: Global, words: &[String]) -> Result<CommandLine, LineFault>
    ensures { LineReads (line_of_words (word_texts words.now)) result }
{
    let found = read_line(words)?;
    copy_line(alloc, found).map_err(|_| LineFault::Memory)
}

impl CommandLine {
    /// Where the sound comes from.
    pub fn input(&self) -> Endpoint<'_>
        ensures { name_in result ≡ file_name self.now.input }
    {
        stream_of(&self.input)
    }

    /// Where the sound goes to.
    pub fn output(&self) -> Endpoint<'_>
        ensures { name_in result ≡ file_name self.now.output }
    {
        stream_of(&self.output)
    }

    /// The required container of the input; None where its first bytes determine it.
    pub fn input_kind(&self) -> Option<Kind>
        ensures { result ≡ self.now.input_kind }
    {
        self.input_kind
    }

    /// The container of the output.
    pub fn output_kind(&self) -> Kind
        ensures { result ≡ self.now.output_kind }
    {
        self.output_kind
    }

    /// The bits of a sample of the output; None where they are those of the input.
    pub fn bits(&self) -> Option<Bits>
        ensures { result ≡ self.now.bits }
    {
        self.bits
    }

    /// How many effects the words name.
    pub fn effect_count(&self) -> usize
        ensures { result ≡ length (effects_in self.now) }
    {
        count_effects(&self.words)
    }

    /// How many words effect `number`, counted from 1, has; its name is the first.
    pub fn word_count(&self, number: usize) -> usize
        requires first { 1 ≤ number }
        requires last { number ≤ length (effects_in self.now) }
        ensures { result ≡ length (effect_words number (effects_in self.now)) }
    {
        effect_at(&self.words, number - 1).len()
    }

    /// Word `place` of effect `number`, both counted from 1; word 1 is the effect's name.
    pub fn word(&self, number: usize, place: usize) -> &str
        requires first { 1 ≤ number }
        requires last { number ≤ length (effects_in self.now) }
        requires first_word { 1 ≤ place }
        requires last_word { place ≤ length (effect_words number (effects_in self.now)) }
        ensures { slice_get (effect_words number (effects_in self.now)) (place - 1) ≡ Some result.now }
    {
        &effect_at(&self.words, number - 1)[place - 1]
    }

    /// How many coefficient files the effects name.
    pub fn coefficient_file_count(&self) -> usize
        ensures { result ≡ length (coefficient_files (effects_in self.now)) }
    {
        count_files(&self.words)
    }

    /// The name of coefficient file `number`, counted from 1 in the order of the effects.
    pub fn coefficient_file(&self, number: usize) -> &str
        requires first { 1 ≤ number }
        requires last { number ≤ length (coefficient_files (effects_in self.now)) }
        ensures { slice_get (coefficient_files (effects_in self.now)) (number - 1) ≡ Some result.now }
    {
        match file_at(&self.words, number - 1) {
            Some(name) => name,
            None => unreachable!(),
        }
    }

    /// Whether the output is a file, and not standard output.
    fn is_named(&self) -> bool
        ensures { result ≡ is_some (file_name self.now.output) }
    {
        matches!(self.output(), Endpoint::Named(_))
    }
}

/// The names of all coefficient files of a line, in the order of the effects; AllocError where memory for the list is refused. It
/// scans the words once.
pub fn coefficient_file_names(alloc: Global, line: &CommandLine) -> Result<Vec<&str>, AllocError>
    ensures { IfOk result (λ names. map (λ name. name.now) names.items ≡ coefficient_files (effects_in line.now)) }
{
    list_files(alloc, &line.words)
}

/// The plan of a line's effects after the input's head, with the bytes of each coefficient file, in order; or the
/// first of all faults, or lack of memory. A coefficient file that is missing counts as an empty one.
pub fn plan(
    alloc: Global,
    line: &CommandLine,
    head: &Head,
    files: &[Vec<u8>],
) -> Result<Plan, PlanFault>
    ensures { let bytes = plan_bytes files.now in
        PlanReads planning result (all_faults (head_layout head.now) bytes (effects_in line.now))
        (planning_in head.now line.now bytes) }
{
    plan_words(
        alloc,
        head,
        &line.words,
        line.is_named(),
        line.output_kind,
        line.bits,
        files,
    )
}
