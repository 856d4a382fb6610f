//! Gains in lowest terms: one of the input, and one for each sample that is added to it.
ghost use Rattle.std.specs.Prelude.{◌≡◌, ◌<◌, ◌≤◌, ◌+◌, ◌^◌, ℕ, pos, length, slice_index_or, unsigned_abs, IfSome, IsTrue};
ghost use Rattle.fx_tap_sums.specs.Weights.{AreSmall, SoundsAs};

use fx_fixed::Gain;
use fx_fixed::inner::{Denominator, reduce};
use std::marker::Model;

/// Gain-in and the decays, each times gain-out and in lowest terms: weights of at most `2^27` in magnitude over one
/// prepared denominator, that of gain-in first.
#[derive(Drop)]
pub struct SmallWeights {
    pub weights: [i32; 8],
    pub denominator: Denominator,
}

impl Model for SmallWeights {
    ghost use Rattle.std.specs.Prelude.{◌^◌};
    ghost use Rattle.fx_tap_sums.specs.Weights.{AreSmall, Weights};

    ghost Value = { Weights };

    ghost view = { λ s. record { weights = s.weights; denominator = s.denominator } };

    ghost invariant = { λ s. AreSmall (2 ^ 27) s.weights };
}

/// The parts of one in a product of two factors, each in trillionths.
pub const UNIT_SQUARED: u128 = 1_000_000_000_000_000_000_000_000;

/// Whether no weight is greater in magnitude.
fn are_small(weights: &[i32; 8], maximum: u32) -> bool
    ensures { IsTrue result → AreSmall maximum weights.now }
{
    for place in 0..8 {
        if weights[place].unsigned_abs() > maximum {
            return false;
        }
    }
    true
}

/// Gain-in and the decays in trillionths, and zeros.
fn coefficients_of(gain_in: Gain, taps: &[(u64, Gain)]) -> [i64; 8]
    requires { length taps.now ≤ 7 }
    ensures gain_in { slice_index_or result 0 (pos 0) ≡ gain_in }
    ensures decays { (k : ℕ) → k < length taps.now → slice_index_or result (k + 1) (pos 0) ≡ (slice_index_or taps.now k (0, pos 0)).1 }
{
    let mut coefficients = [0; 8];
    coefficients[0] = gain_in.trillionths();
    'taps: for place in 0..taps.len() {
        coefficients[place + 1] = taps[place].1.trillionths();
    }
    coefficients
}

/// Gain-in and the decays, each times gain-out, in lowest terms. None where a weight is greater in magnitude than `maximum`.
pub fn small_of(
    gain_in: Gain,
    gain_out: Gain,
    taps: &[(u64, Gain)],
    maximum: u32,
) -> Option<SmallWeights>
    requires taps { length taps.now ≤ 7 }
    requires maximum { maximum ≤ 2 ^ 27 }
    ensures sounds { IfSome result (SoundsAs gain_in gain_out taps.now) }
    ensures small { IfSome result (λ w. AreSmall maximum w.weights) }
{
    let coefficients = coefficients_of(gain_in, taps);
    let mut weights = [0; 8];
    let denominator = reduce(
        &coefficients,
        gain_out.trillionths(),
        UNIT_SQUARED,
        &mut weights,
    )?;
    if !are_small(&weights, maximum) {
        return None;
    }
    Some(SmallWeights {
        weights,
        denominator,
    })
}
