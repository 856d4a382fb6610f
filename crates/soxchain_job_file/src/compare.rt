//! How what a stored job is known by differs from what this one is known by.
ghost use Rattle.soxchain_job_file.specs.Differences.{IsFirstDifference};
ghost use Rattle.soxchain_job_file.specs.JobBytes.{identity_value};

use crate::identity::{Difference, Identity};

/// The first member that differs, in the order of `Difference`.
pub fn difference(stored: &Identity, own: &Identity) -> Option<Difference>
    ensures { IsFirstDifference (identity_value stored.now) (identity_value own.now) result }
{
    if stored.words != own.words {
        Some(Difference::Words)
    } else if stored.files != own.files {
        Some(Difference::Coefficients)
    } else if stored.size != own.size {
        Some(Difference::Length)
    } else if stored.modified != own.modified {
        Some(Difference::Time)
    } else {
        None
    }
}
