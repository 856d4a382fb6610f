//! The bytes of IN after the end that the head of a WAVE announces for the whole file.
ghost use Rattle.std.specs.Prelude.{◌≡◌};
ghost use Rattle.fx_plan.specs.CommandLines.{file_name};
ghost use Rattle.soxchain_plan.specs.Trailing.{AreBeyond, announced_end, beyond_end, plausible_end};

use byteorder::{ByteOrder, LittleEndian};
use fx_plan::{CommandLine, Endpoint};
use fx_sound::Head;
use soxchain_common::{Identity, Inspects};

/// The bytes of the shortest head of a WAVE: the sound of none begins before.
const SHORTEST_HEAD: u64 = 44;

/// Where the head of a WAVE announces that the file ends, by the first bytes of the file. None of another kind of file, and where
/// the size is not among these bytes.
pub fn announced_end(front: &[u8]) -> Option<u64>
    ensures { result ≡ announced_end front.now }
{
    if front.len() < 8 || &front[..4] != b"RIFF".as_slice() {
        return None;
    }
    let size = u64::from(LittleEndian::read_u32(&front[4..8]));
    Some(8 + size + size % 2)
}

/// The announced end, where the head also says how long the sound is, and the sound may end before it.
fn plausible_end(head: &Head, end: Option<u64>) -> Option<u64>
    ensures { result ≡ plausible_end head.now.announced end }
{
    match (head.announced, end) {
        (Some(0), _) => None,
        (Some(bytes), Some(end)) if bytes <= end.saturating_sub(SHORTEST_HEAD) => Some(end),
        _ => None,
    }
}

/// How many bytes of a file follow this end, where it has stored content.
fn beyond_end(found: Option<Identity>, end: u64) -> Option<u64>
    ensures { result ≡ beyond_end found end }
{
    match found {
        Some(file) if file.is_plain => Some(file.length.saturating_sub(end)),
        _ => None,
    }
}

/// How many bytes of IN follow the end that its head announces; None where that is not known. Only a named IN whose head
/// announces an end is inspected.
pub fn bytes_beyond<H: Inspects>(
    host: &mut H,
    line: &CommandLine,
    head: &Head,
    end: Option<u64>,
) -> Option<u64>
    ensures { AreBeyond H.looks host.old host.new (file_name line.now.input)
        (plausible_end head.now.announced end) result }
{
    let name = match line.input() {
        Endpoint::Standard => return None,
        Endpoint::Named(name) => name,
    };
    let end = plausible_end(head, end)?;
    beyond_end(host.look(name), end)
}
