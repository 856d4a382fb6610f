//! Products of remainders by one that is known beforehand.
ghost use Rattle.std.specs.Prelude.{◌≡◌, ◌<◌, ◌*◌, ◌/◌, ◌^◌, ℕ, pos, ◌*ℤ◌, slice_index_or};
ghost use Rattle.fx_tap_sums.specs.Residues.{AreCongruent, AreFour, IsModulus, Same};

use super::remainders::reduced;
use super::vectors::{difference, multiply_wide, narrow, upper_bits};
use std::marker::Model;
use std::simd::prelude::*;

/// A remainder by which others are multiplied, with 2^32 times it over the modulus, rounded down.
#[derive(Clone, Copy)]
pub(crate) struct Factor<const P: u32> {
    value: u32,
    quotient: u32,
}

// A factor is its remainder.
impl<const P: u32> Model for Factor<P> {
    ghost use Rattle.std.specs.Prelude.{◌≡◌, ◌<◌, ◌*◌, ◌/◌, ◌^◌, ℕ};

    ghost Value = { ℕ };

    ghost view = { λ f. f.value };

    ghost invariant = { λ f. (f.value < P) × ((f.value * 2 ^ 32) / P ≡ f.quotient) };

    ghost inverse = { λ v. record { value = v; quotient = (v * 2 ^ 32) / P } };

    ghost inverse_ok = { λ f h i. record { value = f.value; quotient = h.1 i } };
}

impl<const P: u32> Factor<P> {
    /// That of a remainder. It divides, so it is for tables and constants.
    #[inline(always)]
    pub(crate) fn of(value: u32) -> Factor<P>
        requires { value < P }
        ensures { result ≡ value }
    {
        let quotient = (u64::from(value) << 32) / u64::from(P);
        Factor {
            value,
            quotient: quotient as u32,
        }
    }

    /// The remainder.
    #[inline(always)]
    pub(crate) fn value(self) -> u32
        ensures value { result ≡ self.entry }
        ensures less { result < P }
    {
        self.value
    }

    /// The remainder of a product with any number. The quotient is that of the product, or one less.
    #[inline(always)]
    pub(crate) fn times(self, number: u32) -> u32
        requires { IsModulus P }
        ensures less { result < P }
        ensures same { Same (pos P) (pos result) (pos self.entry *ℤ pos number) }
    {
        let quotient = (u64::from(self.quotient) * u64::from(number)) >> 32;
        let product = u64::from(self.value) * u64::from(number);
        reduced::<P>((product - quotient * u64::from(P)) as u32)
    }

    /// As `times`, four numbers: each result is congruent to its product, and may be the modulus more than the remainder.
    #[inline(always)]
    pub(crate) fn times_four(self, numbers: u32x4) -> u32x4
        requires modulus { IsModulus P }
        requires numbers { AreFour (2 ^ 32) numbers }
        ensures less { AreFour (2 * P) result }
        ensures same { AreCongruent P 4 result (λ k. pos self.entry *ℤ pos (slice_index_or numbers k 0)) }
    {
        let quotients = upper_bits::<32>(multiply_wide(u32x4::splat(self.quotient), numbers));
        difference(self.value, numbers, P, narrow(quotients))
    }
}
