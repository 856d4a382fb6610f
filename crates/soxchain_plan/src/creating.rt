//! Why OUT cannot be made.
ghost use Rattle.std.specs.Prelude.{◌≡◌, IfNone, IfSome, Some};
ghost use Rattle.fx_plan.specs.CommandLines.{file_name};
ghost use Rattle.soxchain_plan.specs.Creating.{CannotCreate, MayCreate, create_advice};

use crate::host::{CreateFault, PlanHost};
use fx_plan::{CommandLine, Endpoint};
use soxchain_common::is_input;

/// The name of OUT, and why a file of this name cannot be made; None where nothing is known against it. Nothing is asked of the
/// host where OUT is standard output. A named one is compared with IN first, as in soxchain.
pub fn output_fault<'a, H: PlanHost>(
    host: &mut H,
    line: &'a CommandLine,
) -> Option<(&'a str, CreateFault)>
    ensures refused { IfSome result (λ it. (file_name line.now.output ≡ Some it.0.now)
        × CannotCreate H.looks H.creates host.old host.new (file_name line.now.input) it.0.now it.1) }
    ensures accepted { IfNone result (MayCreate H.looks H.creates host.old host.new
        (file_name line.now.input) (file_name line.now.output)) }
{
    let name = match line.output() {
        Endpoint::Standard => return None,
        Endpoint::Named(name) => name,
    };
    if is_input(host, line.input(), name) {
        return Some((name, CreateFault::IsInput));
    }
    let fault = host.create_fault(name)?;
    Some((name, fault))
}

/// What to do where OUT cannot be made.
pub fn advice_on_creating(fault: CreateFault) -> &'static str
    ensures { result.now ≡ create_advice fault }
{
    match fault {
        CreateFault::IsInput => "OUT is the file that is read: give it another name",
        CreateFault::NoFolder =>
            "the folder of OUT does not exist, or is no folder: make it, or give OUT another name",
        CreateFault::IsFolder => "OUT is a folder: give it another name",
        CreateFault::NoPermission => {
            "OUT may not be written, or not be made in its folder: change the permissions, or give it another name"
        }
        CreateFault::ReadOnly =>
            "the file system of OUT is read-only: give OUT a name on another one",
        CreateFault::Other =>
            "see that a file of this name can be made, and that it may be written",
    }
}
