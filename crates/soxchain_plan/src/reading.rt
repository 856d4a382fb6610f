//! The head of IN.
ghost use Rattle.std.specs.Prelude.{◌≡◌, IfErr, IfOk, List, None, Some, ℕ};
ghost use Rattle.fx_plan.specs.CommandLines.{file_name};
ghost use Rattle.soxchain_plan.specs.Formats.{IsFormatOf};
ghost use Rattle.soxchain_plan.specs.Heads.{HeadIsRead, IsHeadFrom, IsHeadIn};
ghost use Rattle.soxchain_plan.specs.Trailing.{IsEndOf};

use crate::formats::{FormatFault, format_fault};
use crate::trailing::announced_end;
use fx_frame::ByteIn;
use fx_plan::{CommandLine, Endpoint};
use fx_sound::{Head, HeadFault, Kind, Source, read_head};
use soxchain_common::{Console, Openings};

/// What is read of the head of IN.
#[derive(Drop)]
pub struct HeadRead {
    /// The head, or what is wrong with it.
    pub head: Result<Head, HeadFault>,
    /// What is wrong with the format, where it is not one of the profile.
    pub format: FormatFault,
    /// Where a WAVE announces that the file ends.
    pub end: Option<u64>,
}

/// What is read of the head of what a reader delivers. The first read brings most heads whole, with the format.
fn head_from<R: ByteIn + Drop>(reader: R, expected: Option<Kind>) -> HeadRead
    ensures read { HeadIsRead R.reads expected reader result.head }
    ensures format { IsFormatOf (R.reads.rest reader) result.format }
    ensures end { IsEndOf (R.reads.rest reader) result.end }
{
    let mut source = Source::new(reader);
    match source.hold(4) {
        Ok(()) => {
            let format = format_fault(source.peek(source.held()));
            let end = announced_end(source.peek(source.held()));
            let head = read_head(&mut source, expected);
            HeadRead { head, format, end }
        }
        Err(_) => HeadRead {
            head: Err(HeadFault::ReadFailed),
            format: FormatFault::Other,
            end: None,
        },
    }
}

/// What is read of the head of IN; or the name of a file that cannot be opened. Standard input is read where IN is `-`.
pub fn head_of<'a, H: Console>(host: &mut H, line: &'a CommandLine) -> Result<HeadRead, &'a str>
    ensures standard { file_name line.now.input ≡ None
        → IfOk result (IsHeadFrom (H.machine host.old host.new).is_input H.Input.reads line.now.input_kind) }
    ensures file { (name : List ℕ) → file_name line.now.input ≡ Some name
        → IfOk result (IsHeadIn (H.opened host.old host.new) H.Reader.reads name line.now.input_kind) }
    ensures unopened { IfErr result (λ name.
        (file_name line.now.input ≡ Some name.now) × H.unopened host.old host.new name.now) }
{
    match line.input() {
        Endpoint::Standard => Ok(head_from(host.input(), line.input_kind())),
        Endpoint::Named(name) => match host.open(name) {
            Ok(file) => Ok(head_from(file, line.input_kind())),
            Err(_) => Err(name),
        },
    }
}
