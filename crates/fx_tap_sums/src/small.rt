//! Coefficients over a denominator, in lowest terms: sums of samples times them fit 64 bits.
ghost use Rattle.std.specs.Prelude.{◌<◌, ◌≤◌, length, IfOk, IfSome};
ghost use Rattle.fx_tap_sums.specs.SmallWeights.{SumsAs};

use fx_fixed::inner::{Denominator, reduce};
use std::alloc::{AllocError, Global};
use std::marker::Model;

/// Weights over one prepared denominator.
#[derive(Drop)]
pub struct Small {
    pub weights: Vec<i32>,
    pub denominator: Denominator,
}

impl Model for Small {
    ghost use Rattle.fx_tap_sums.specs.Weights.{Weights};

    ghost Value = { Weights };

    ghost view = { λ s. record { weights = s.weights.items; denominator = s.denominator } };
}

/// At most 1024 coefficients over a denominator, in lowest terms. None where they are not small.
pub fn small_of(
    alloc: Global,
    coefficients: &[i64],
    denominator: u64,
) -> Result<Option<Small>, AllocError>
    requires bound { length coefficients.now ≤ 1024 }
    requires some { 0 < denominator }
    ensures { IfOk result (λ small. IfSome small (SumsAs coefficients.now denominator)) }
{
    let mut weights = Vec::new(alloc);
    weights.resize(coefficients.len(), 0)?;
    let Some(denominator) = reduce(coefficients, 1, u128::from(denominator), &mut weights) else {
        return Ok(None);
    };
    Ok(Some(Small {
        weights,
        denominator,
    }))
}
