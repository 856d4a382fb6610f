//! Why a plan is refused, and where.

use fx_plan_words::PlanCause;
use thiserror::Error;

/// Why a plan is refused, and where. Effects and words count from 1, an effect's name being its word 1; both are 0
/// where no single effect is at fault (`HoldTooLarge`, `TooLong`, `Memory`).
#[derive(Clone, Copy, Debug, Drop, PartialEq, Eq, Error)]
#[error("effect {effect}, word {word}: {cause}")]
pub struct PlanFault {
    /// Why.
    pub cause: PlanCause,
    /// The effect's number.
    pub effect: usize,
    /// The word's number in the effect.
    pub word: usize,
}
