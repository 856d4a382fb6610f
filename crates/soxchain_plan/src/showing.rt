//! The text on standard output and standard error.
ghost use Rattle.std.specs.Prelude.{List, ℕ};
ghost use Rattle.soxchain_plan.specs.Advising.{IsAdviceOn};
ghost use Rattle.soxchain_plan.specs.Answering.{Advises, IsPlanShown, Stops};
ghost use Rattle.soxchain_plan.specs.Stops.{message_of, status_of};

use crate::stop::PlanStop;
use crate::style::Style;
use fx_frame::ByteOut;
use fx_plan::LineFault;
use soxchain::inner::write_whole;
use soxchain_common::Console;

/// Reports why something is not done and what to do, and returns the status.
fn tell<M: ByteOut>(stop: &PlanStop<'_>, messages: &mut M) -> u8
    ensures { (advice : List ℕ) × Advises M.writes messages.old messages.new (message_of stop.now) advice (status_of stop.now) result }
{
    stop.tell(messages, stop.advice())
}

/// Shows a text on standard output, and returns this status. Where standard output fails, reports that, and returns 2.
pub fn show<H: Console, M: ByteOut>(host: &mut H, text: &[u8], status: u8, messages: &mut M) -> u8
    ensures { IsPlanShown (record { input = H.Input.reads; file = H.Reader.reads; output = H.Output.writes })
        H.machine M.writes text.now status host.old host.new messages.old messages.new result }
{
    let mut output = host.output();
    let is_whole = write_whole(&mut output, text);
    host.leave(output);
    if is_whole {
        status
    } else {
        tell(&PlanStop::CannotOpen("-"), messages)
    }
}

/// Reports why there is no plan and what to do, and returns the status. As JSON it goes to standard output too, where there is
/// memory for it.
pub fn stopped<H: Console, M: ByteOut>(
    host: &mut H,
    style: Style,
    stop: &PlanStop<'_>,
    messages: &mut M,
) -> u8
    ensures { Stops (record { input = H.Input.reads; file = H.Reader.reads; output = H.Output.writes })
        H.machine M.writes style (message_of stop.now) (IsAdviceOn stop.now) (status_of stop.now)
        host.old host.new messages.old messages.new result }
{
    let advice = stop.advice();
    let status = stop.tell(messages, advice);
    match style {
        Style::Text => status,
        Style::Json => match stop.json(host.memory(), advice) {
            Some(text) => show(host, &text, status, messages),
            None => tell(&PlanStop::Line(LineFault::Memory), messages),
        },
    }
}
