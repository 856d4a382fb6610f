//! What is done before a run: the head is read, the plan and its chain are made.
ghost use Rattle.std.specs.Prelude.{◌≡◌, IfErr, IfOk, Err};
ghost use Rattle.fx_plan.specs.Plans.{plan_bytes};
ghost use Rattle.fx_sound.specs.Head.{head_of};
ghost use Rattle.fx_sound.specs.Reads.{Fails, Refuses};
ghost use Rattle.soxchain.specs.Preparing.{ChainIsRefused, IsPrepared, PlanIsRefused, RefusalHasCause};
ghost use Rattle.soxchain.specs.Program.{status_of_line, status_of_refusal};

use crate::prepared::Prepared;
use fx_chain::Chain;
use fx_frame::ByteIn;
use fx_plan::{CommandLine, LineFault, PlanCause, PlanFault, plan};
use fx_sound::{HeadFault, Source, read_head};
use std::alloc::{AllocError, Global};
use thiserror::Error;

/// Why a conversion whose command line was accepted stopped before its run. Nothing was written.
#[derive(Clone, Copy, Debug, Drop, PartialEq, Eq, Error)]
pub enum Refusal {
    /// The head is refused.
    #[error("the head: {0}")]
    Head(HeadFault),
    /// The effects are refused.
    #[error("{0}")]
    Plan(PlanFault),
    /// No memory was found for the chain.
    #[error("no memory for the chain")]
    Chain,
}

/// Reads the head of a sound, and makes the plan of a line's effects after it, and its chain.
pub fn prepare_line<R: ByteIn>(
    alloc: Global,
    line: &CommandLine,
    files: &[Vec<u8>],
    source: &mut Source<R>,
) -> Result<Prepared, Refusal>
    ensures prepared { IfOk result (IsPrepared R.reads line.now (plan_bytes files.now) source.old source.new) }

    // A head or a plan is refused by its first fault.
    ensures head_refused { (f : HeadFault) → result ≡ Err (Refusal.Head f)
        → Refuses R.reads.rest (head_of line.now.input_kind) source.old f }
    ensures head_cut { (f : HeadFault) → result ≡ Err (Refusal.Head f)
        → Fails R.reads.rest R.reads.delivered (head_of line.now.input_kind) source.old source.new f }
    ensures plan_refused { (f : PlanFault) → result ≡ Err (Refusal.Plan f)
        → PlanIsRefused R.reads line.now (plan_bytes files.now) source.old source.new f }

    // Where no memory was found for the chain, the head and the plan had no fault.
    ensures chain_refused { result ≡ Err Refusal.Chain
        → ChainIsRefused R.reads line.now (plan_bytes files.now) source.old source.new }

    // A read has failed only where the refusal reports it.
    ensures failures { IfErr result (λ r.
        RefusalHasCause r (R.reads.failures source.old.reader) (R.reads.failures source.new.reader)) }
{
    let head = match read_head(source, line.input_kind()) {
        Ok(head) => head,
        Err(fault) => return Err(Refusal::Head(fault)),
    };
    let plan = match plan(alloc, line, &head, files) {
        Ok(plan) => plan,
        Err(fault) => return Err(Refusal::Plan(fault)),
    };
    match Chain::new(alloc, &plan) {
        Ok(chain) => Ok(Prepared { plan, chain }),
        Err(AllocError) => Err(Refusal::Chain),
    }
}

impl Refusal {
    /// The status where a conversion was refused.
    pub fn status(&self) -> u8
        ensures { result ≡ status_of_refusal self.now }
    {
        match self {
            Refusal::Plan(fault) if fault.cause != PlanCause::Memory => 1,
            _ => 2,
        }
    }
}

/// The status where a command line is refused.
pub fn status_of_fault(fault: LineFault) -> u8
    ensures { result ≡ status_of_line fault }
{
    match fault {
        LineFault::Memory => 2,
        _ => 1,
    }
}
