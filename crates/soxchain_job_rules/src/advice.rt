//! What helps where a run is refused.
ghost use Rattle.std.specs.Prelude.{◌≡◌};
ghost use Rattle.soxchain_job_rules.specs.Advice.{advice_of, start_advice};

use crate::{Clash, OwnFile, StartRefusal};

/// What helps where a run is refused.
#[derive(Clone, Copy, Debug, PartialEq, Eq)]
pub enum Advice {
    /// `--abandon`: it removes files of the job alone, and then the job begins.
    Abandon,
    /// The file of this name is moved away: nothing says that it is the job's.
    MoveAway(OwnFile),
    /// IN is put back.
    Restore,
    /// Nothing but another name.
    None,
}

/// Why a run is refused.
#[derive(Clone, Copy, Debug, PartialEq, Eq)]
pub enum Refusal {
    /// A file of the job is one with another file.
    Clash(Clash),
    /// What stands under the name of this file may not be used.
    Standing(OwnFile),
    /// The run does not start.
    Start(StartRefusal),
}

/// What helps where a run is refused.
pub fn advice_of(refusal: &Refusal) -> Advice
    ensures { result ≡ advice_of refusal.now }
{
    match refusal {
        Refusal::Clash(_) => Advice::None,
        Refusal::Standing(file) => Advice::MoveAway(*file),
        Refusal::Start(refusal) => start_advice(*refusal),
    }
}

/// What helps where a run does not start.
fn start_advice(refusal: StartRefusal) -> Advice
    ensures { result ≡ start_advice refusal }
{
    match refusal {
        StartRefusal::PartWithoutCheckpoint | StartRefusal::OtherPart => {
            Advice::MoveAway(OwnFile::Part)
        }
        StartRefusal::InputMissing => Advice::Restore,
        StartRefusal::OtherJob
        | StartRefusal::OtherInput
        | StartRefusal::PartMissing
        | StartRefusal::OtherOut => Advice::Abandon,
    }
}
