//! Roots modulo a prime.
ghost use Rattle.std.specs.Prelude.{◌≡◌, length, IfOk};
ghost use Rattle.fx_tap_sums.specs.Residues.{IsModulus};
ghost use Rattle.fx_tap_sums.specs.Transform.{AreRoots, AreSteps};

use super::factor::Factor;
use std::alloc::{AllocError, Global};

/// A table of 512 roots, and the inverse of each.
#[derive(Drop)]
pub(crate) struct RootTable<const P: u32> {
    pub(crate) roots: Vec<Factor<P>>,
    pub(crate) inverses: Vec<Factor<P>>,
}

/// The table. Half a table times the next step is its other half.
pub(crate) fn table<const P: u32>(
    alloc: Global,
    steps: &[u32],
    back: &[u32],
) -> Result<RootTable<P>, AllocError>
    requires modulus { IsModulus P }
    requires steps { AreSteps P steps.now back.now }
    ensures roots { IfOk result (λ t. length t.roots.items ≡ 512) }
    ensures inverses { IfOk result (λ t. length t.inverses.items ≡ 512) }
    ensures are { IfOk result (λ t. AreRoots P t.roots.items t.inverses.items) }
{
    let mut roots: Vec<Factor<P>> = Vec::new(alloc);
    roots.push(Factor::of(1))?;
    roots.push(Factor::of(steps[0]))?;
    let mut inverses: Vec<Factor<P>> = Vec::new(alloc);
    inverses.push(Factor::of(1))?;
    inverses.push(Factor::of(back[0]))?;
    'steps: for at in 0..8 {
        let step: Factor<P> = Factor::of(steps[at + 1]);
        let back: Factor<P> = Factor::of(back[at + 1]);
        let half = roots.len();
        'places: for place in 0..half {
            roots.push(Factor::of(step.times(roots[place].value())))?;
            inverses.push(Factor::of(back.times(inverses[place].value())))?;
        }
    }
    Ok(RootTable { roots, inverses })
}
