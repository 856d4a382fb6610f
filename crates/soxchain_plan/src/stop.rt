//! Why there is no plan: the message of soxchain and its status, and what to do.
ghost use Rattle.std.specs.Prelude.{◌≡◌, IfSome};
ghost use Rattle.soxchain.specs.Saying.{Says};
ghost use Rattle.soxchain_plan.specs.Advising.{IsAdviceOn, advice_text};
ghost use Rattle.soxchain_plan.specs.Answering.{Advises};
ghost use Rattle.soxchain_plan.specs.Quoted.{stop_json};
ghost use Rattle.soxchain_plan.specs.Stops.{message_of, status_of};

use crate::advice::{
    Advice, OPENING, REACHING, advice_on_head, advice_on_line, advice_on_memory, advice_on_option,
    advice_on_plan,
};
use crate::creating::advice_on_creating;
use crate::formats::FormatFault;
use crate::host::CreateFault;
use crate::quoting::show_stop;
use fx_frame::{ByteOut, Counted};
use fx_plan::{CommandLine, LineFault};
use fx_sound::HeadFault;
use soxchain::inner::{
    MessageWriter, Refusal, label_of_line, status_of_fault, tell_cannot_open, tell_line,
    tell_refusal,
};
use std::alloc::Global;

/// Why there is no plan.
#[derive(Clone, Copy, Drop)]
pub enum PlanStop<'a> {
    /// The command line is refused.
    Line(LineFault),
    /// The command line is refused for an option, by this word.
    BadOption(&'a str),
    /// A file cannot be opened or read; `-` is standard output.
    CannotOpen(&'a str),
    /// OUT of this name cannot be made, for this fault.
    CannotCreate(&'a str, CreateFault),
    /// The head of IN is refused, and this is wrong with its format where it is not one of the profile.
    Head(&'a CommandLine, HeadFault, FormatFault),
    /// What the line asks for is refused.
    Refused(&'a CommandLine, Refusal),
}

/// The name of this effect of a line, counted from 1; no text where there is none.
fn name_of(line: &CommandLine, number: usize) -> &str {
    if number == 0 || number > line.effect_count() {
        return "";
    }
    if line.word_count(number) == 0 {
        return "";
    }
    line.word(number, 1)
}

impl PlanStop<'_> {
    /// The status of soxchain.
    pub fn status(&self) -> u8
        ensures { result ≡ status_of self.now }
    {
        match self {
            PlanStop::Line(fault) => status_of_fault(*fault),
            PlanStop::BadOption(_) => status_of_fault(LineFault::BadOption),
            PlanStop::CannotOpen(_) => 2,
            PlanStop::CannotCreate(_, _) => 2,
            PlanStop::Head(_, fault, _) => Refusal::Head(*fault).status(),
            PlanStop::Refused(_, refusal) => refusal.status(),
        }
    }

    /// What to do, where it is the same for each word that is refused so.
    fn fixed_advice(&self) -> &'static str {
        match self {
            PlanStop::Line(fault) => advice_on_line(*fault),
            PlanStop::BadOption(_) => advice_on_line(LineFault::BadOption),
            PlanStop::CannotOpen("-") => REACHING,
            PlanStop::CannotOpen(_) => OPENING,
            PlanStop::CannotCreate(_, fault) => advice_on_creating(*fault),
            PlanStop::Head(_, fault, format) => advice_on_head(*fault, *format),
            PlanStop::Refused(_, Refusal::Head(fault)) => {
                advice_on_head(*fault, FormatFault::Other)
            }
            PlanStop::Refused(line, Refusal::Plan(fault)) => {
                advice_on_plan(fault.cause, name_of(line, fault.effect))
            }
            PlanStop::Refused(_, Refusal::Chain) => advice_on_memory(),
        }
    }

    /// What to do.
    pub fn advice(&self) -> Advice<'_>
        ensures { IsAdviceOn self.now (advice_text result) }
    {
        match self {
            PlanStop::BadOption(word) => advice_on_option(word),
            PlanStop::CannotCreate(_, fault) => Advice::new(advice_on_creating(*fault)),
            PlanStop::Head(_, fault, format) => Advice::new(advice_on_head(*fault, *format)),
            _ => Advice::new(self.fixed_advice()),
        }
    }

    /// Writes the message of soxchain.
    pub fn tell_message<M: ByteOut>(&self, message_writer: &mut MessageWriter<M>)
        ensures { Says M.writes message_writer.old message_writer.new (message_of self.now) }
    {
        match self {
            PlanStop::Line(fault) => tell_line(message_writer, label_of_line(*fault)),
            PlanStop::BadOption(_) => {
                tell_line(message_writer, label_of_line(LineFault::BadOption));
            }
            PlanStop::CannotOpen(name) => tell_cannot_open(message_writer, name),
            PlanStop::CannotCreate(name, _) => tell_cannot_open(message_writer, name),
            PlanStop::Head(line, fault, _) => {
                tell_refusal(message_writer, line, &Refusal::Head(*fault));
            }
            PlanStop::Refused(line, refusal) => tell_refusal(message_writer, line, refusal),
        }
    }

    /// The message of soxchain. None where no memory is found for it.
    fn message(&self, alloc: Global) -> Option<Vec<u8>>
        ensures { IfSome result (λ message. message.items ≡ message_of self.now) }
    {
        let mut message = Counted::new(Vec::new(alloc));
        let mut keeping = MessageWriter::new(&mut message);
        self.tell_message(&mut keeping);
        if keeping.has_failed {
            return None;
        }
        Some(message.into_inner())
    }

    /// The status, the message of soxchain and what to do, as one JSON object. None where no memory is found for it.
    pub fn json(&self, alloc: Global, advice: Advice<'_>) -> Option<Vec<u8>>
        ensures { IfSome result (λ text.
            text.items ≡ stop_json (status_of self.now) (message_of self.now) (advice_text advice.entry)) }
    {
        let message = self.message(alloc)?;
        let advice = advice.joined(alloc)?;
        let mut text = Vec::new(alloc);
        show_stop(&mut text, self.status(), &message, &advice).ok()?;
        Some(text)
    }

    /// Writes the message of soxchain and what to do, a line each, and returns the status.
    pub fn tell<M: ByteOut>(&self, messages: &mut M, advice: Advice<'_>) -> u8
        ensures { Advises M.writes messages.old messages.new
            (message_of self.now) (advice_text advice.entry) (status_of self.now) result }
    {
        let mut message_writer = MessageWriter::new(messages);
        self.tell_message(&mut message_writer);
        message_writer.text("soxchain-plan: ");
        message_writer.note(advice.subject, advice.text);
        self.status()
    }
}
