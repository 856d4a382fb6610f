//! The output as a separate file: creating it must not empty the file that is read.
ghost use Rattle.std.specs.Prelude.{IfNone, IfSome};
ghost use Rattle.fx_chain.specs.Chain.{IsNewChain};
ghost use Rattle.fx_plan.specs.CommandLines.{name_in};
ghost use Rattle.fx_plan.specs.Planning.{planning};
ghost use Rattle.soxchain_cli.specs.SameFile.{IsMade, IsUnmade};
ghost use Rattle.soxchain_common.specs.Consoles.{IsNewWriter};

use crate::host::Host;
use fx_plan::Endpoint;
use soxchain::inner::Prepared;
use soxchain_common::is_input;

/// Creates the output, or empties an older one, once a new chain exists. None where it is the input, by device and inode, or
/// cannot be made.
pub fn create_beside<H: Host>(
    host: &mut H,
    input: Endpoint<'_>,
    name: &str,
    prepared: &Prepared,
) -> Option<H::Made>
    requires { IsNewChain (planning prepared.now.plan) prepared.now.chain }
    ensures made { IfSome result (IsMade H.looks H.file_calls host.old host.new (name_in input.entry) name.now) }
    ensures fresh { IfSome result (IsNewWriter H.Made.writes) }
    ensures unmade { IfNone result (IsUnmade H.looks H.file_calls host.old host.new (name_in input.entry) name.now) }
{
    if is_input(host, input, name) {
        return None;
    }
    host.make(name, prepared).ok()
}
