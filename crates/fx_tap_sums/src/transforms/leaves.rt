//! The table of the leaves of a transform: what each leaf, four numbers of a transform, is multiplied by.
ghost use Rattle.std.specs.Prelude.{◌≡◌, ◌≤◌, ◌+◌, ◌-◌, ◌*◌, ◌/◌, ◌%◌, length, IfOk};
ghost use Rattle.fx_tap_sums.specs.Leaves.{AreLeaves};
ghost use Rattle.fx_tap_sums.specs.Residues.{AreRemainders, IsModulus};

use super::factor::Factor;
use super::lanes::{opposite_four, reduced_four};
use super::vectors::{load, put};
use std::alloc::{AllocError, Global};

/// Writes eight numbers for each leaf of a spectrum: its four, and the same times the number by which its product wraps around.
/// That is the root of a pair of leaves, negated for the first of both.
fn write_leaves<const P: u32>(
    roots: &[Factor<P>],
    place: usize,
    spectrum: &[u32],
    leaves: &mut [u32],
)
    requires modulus { IsModulus P }
    requires groups { length spectrum.now % 8 ≡ 0 }
    requires roots { (place + 1) * length spectrum.now ≤ 8 * length roots.now }
    requires spectrum { AreRemainders P spectrum.now }
    requires long { length leaves.old ≡ 2 * length spectrum.now }
    ensures remainders { AreRemainders P leaves.new }
    ensures are { AreLeaves P roots.now (length spectrum.now / 8 * (place + 1) - 1) spectrum.now leaves.new }
{
    let pairs = spectrum.len() / 8;
    'pairs: for pair in 0..pairs {
        let last = pairs * (place + 1) - 1;
        let root = roots[last - pair];
        let first = load(spectrum, 8 * pair);
        let second = load(spectrum, 8 * pair + 4);
        let product = reduced_four::<P>(root.times_four(first));
        let negated = reduced_four::<P>(opposite_four::<P, 1>(product));
        let second_product = reduced_four::<P>(root.times_four(second));
        put(leaves, 16 * pair, first);
        put(leaves, 16 * pair + 4, negated);
        put(leaves, 16 * pair + 8, second);
        put(leaves, 16 * pair + 12, second_product);
    }
}

/// The table of the leaves of a spectrum, a transform from a place of the table of roots on. Its n pairs of leaves have the roots
/// from n * place on to n * (place + 1) - 1, the first pair the last of these: a spectrum is backwards.
pub(crate) fn leaves_of<const P: u32>(
    alloc: Global,
    roots: &[Factor<P>],
    place: usize,
    spectrum: &[u32],
) -> Result<Vec<u32>, AllocError>
    requires modulus { IsModulus P }
    requires groups { length spectrum.now % 8 ≡ 0 }
    requires roots { (place + 1) * length spectrum.now ≤ 8 * length roots.now }
    requires spectrum { AreRemainders P spectrum.now }
    ensures remainders { IfOk result (λ v. AreRemainders P v.items) }
    ensures are { IfOk result (λ v. AreLeaves P roots.now (length spectrum.now / 8 * (place + 1) - 1) spectrum.now v.items) }
{
    let mut leaves = Vec::new(alloc);
    leaves.resize(2 * spectrum.len(), 0)?;
    write_leaves(roots, place, spectrum, &mut leaves);
    Ok(leaves)
}
