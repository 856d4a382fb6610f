//! How a run starts, by what the checkpoint says and what the files are.
ghost use Rattle.std.specs.Prelude.{◌↔◌, ◌≡◌, ◌≢◌, IfErr, MatchResult, OnOk};
ghost use Rattle.soxchain_job_rules.specs.Advice.{start_advice};
ghost use Rattle.soxchain_job_rules.specs.declared.advice.Advice.TheVariants.{Abandon};
ghost use Rattle.soxchain_job_rules.specs.Evidence.{CanAbandon, CanBegin, CanContinue, CanFinish, CanPublish, CanStart, IsCause, IsOfThisJob};

use thiserror::Error;

/// What the checkpoint says.
#[derive(Clone, Copy, Debug, PartialEq, Eq)]
pub enum Claim {
    /// There is no checkpoint.
    Nothing,
    /// The output has this many bytes so far.
    InProgress {
        /// How many bytes of the part it counts.
        written: u64,
    },
    /// The output is complete.
    Complete,
}

/// A file, compared with the length and digest that the checkpoint has of it.
#[derive(Clone, Copy, Debug, PartialEq, Eq)]
pub enum Sighting {
    /// There is no such file.
    Missing,
    /// It has them: of a checkpoint in progress its first bytes, as many as the checkpoint counts, and of a complete one all.
    Same,
    /// It has not, or there is no checkpoint.
    Different,
}

/// What a run finds when it starts.
#[derive(Clone, Copy, Debug, PartialEq, Eq)]
pub struct Evidence {
    /// What the checkpoint says.
    pub claim: Claim,
    /// Whether it is of the words, the coefficient files and the sound of this job. Without a checkpoint it says nothing.
    pub identity_is_same: bool,
    /// IN.
    pub input: Sighting,
    /// OUT.part.
    pub part: Sighting,
    /// OUT.
    pub out: Sighting,
}

/// How a run starts.
#[derive(Clone, Copy, Debug, PartialEq, Eq)]
pub enum Start {
    /// The job begins.
    Anew,
    /// It goes on from the checkpoint.
    Continue,
    /// The part is complete, and gets the name of OUT.
    Publish,
    /// OUT has its name already: only the checkpoint is left to be removed.
    Finish,
}

/// Why a run does not start.
#[derive(Clone, Copy, Debug, PartialEq, Eq, Error)]
pub enum StartRefusal {
    /// There is a part, but no checkpoint that says whose it is.
    #[error("OUT.part exists, but no checkpoint of a job")]
    PartWithoutCheckpoint,
    /// There is no IN.
    #[error("IN is missing")]
    InputMissing,
    /// The part is not what the checkpoint counts.
    #[error("OUT.part is not what was written")]
    OtherPart,
    /// The checkpoint is of another job.
    #[error("the checkpoint is of another job")]
    OtherJob,
    /// IN is not what was read.
    #[error("IN is not what was read")]
    OtherInput,
    /// The part is missing, and OUT is not it.
    #[error("OUT.part is missing")]
    PartMissing,
    /// The part is missing, and OUT is another file than the complete output.
    #[error("OUT is not what was written")]
    OtherOut,
}

/// How a run starts; refused, with the cause, where it would lose a sound or could not go on.
pub fn start_of(evidence: &Evidence) -> Result<Start, StartRefusal>
    ensures anew { (result ≡ Ok Start.Anew) ↔ CanBegin evidence.now }
    ensures continues { (result ≡ Ok Start.Continue) ↔ CanContinue evidence.now }
    ensures publishes { (result ≡ Ok Start.Publish) ↔ CanPublish evidence.now }
    ensures finishes { (result ≡ Ok Start.Finish) ↔ CanFinish evidence.now }
    ensures refused { IfErr result (IsCause evidence.now) }
    ensures abandon { IfErr result
        (λ refusal. start_advice refusal ≡ Abandon → CanAbandon evidence.now) }
{
    match evidence.claim {
        Claim::Nothing => start_without_checkpoint(evidence),
        Claim::InProgress { written } => continue_from(evidence, written),
        Claim::Complete => end_complete(evidence),
    }
}

fn start_without_checkpoint(evidence: &Evidence) -> Result<Start, StartRefusal>
    requires { evidence.now.claim ≡ Claim.Nothing }
    ensures { MatchResult result (CanStart evidence.now) (IsCause evidence.now) }
{
    match evidence.part {
        Sighting::Missing => Ok(Start::Anew),
        Sighting::Same | Sighting::Different => Err(StartRefusal::PartWithoutCheckpoint),
    }
}

/// Refuses a checkpoint of another job, and a part or IN that is not as the checkpoint says.
fn check_job(evidence: &Evidence) -> Result<(), StartRefusal>
    requires { evidence.now.claim ≢ Claim.Nothing }
    ensures job { OnOk result (IsOfThisJob evidence.now) }
    ensures part { OnOk result (evidence.now.part ≢ Sighting.Different) }
    ensures refused { IfErr result (IsCause evidence.now) }
{
    if evidence.input == Sighting::Missing {
        Err(StartRefusal::InputMissing)
    } else if evidence.part == Sighting::Different {
        Err(StartRefusal::OtherPart)
    } else if !evidence.identity_is_same {
        Err(StartRefusal::OtherJob)
    } else if evidence.input == Sighting::Different {
        Err(StartRefusal::OtherInput)
    } else {
        Ok(())
    }
}

fn continue_from(evidence: &Evidence, written: u64) -> Result<Start, StartRefusal>
    requires { evidence.now.claim ≡ Claim.InProgress written }
    ensures { MatchResult result (CanStart evidence.now) (IsCause evidence.now) }
{
    check_job(evidence)?;
    if evidence.part == Sighting::Same || written == 0 {
        Ok(Start::Continue)
    } else {
        Err(StartRefusal::PartMissing)
    }
}

fn end_complete(evidence: &Evidence) -> Result<Start, StartRefusal>
    requires { evidence.now.claim ≡ Claim.Complete }
    ensures { MatchResult result (CanStart evidence.now) (IsCause evidence.now) }
{
    check_job(evidence)?;
    if evidence.part == Sighting::Same {
        return Ok(Start::Publish);
    }
    match evidence.out {
        Sighting::Missing => Err(StartRefusal::PartMissing),
        Sighting::Same => Ok(Start::Finish),
        Sighting::Different => Err(StartRefusal::OtherOut),
    }
}
