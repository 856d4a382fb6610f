//! Gains: decimal fractions in whole trillionths.

ghost use Rattle.std.specs.Prelude.{◌≡◌, ◌*◌, ◌≤◌, unsigned_abs};

use crate::decimals::{read_decimal, split_sign};
use crate::number::MAX_EXPONENT;
use std::marker::Model;
use thiserror::Error;

/// How many parts of a gain make one: gains are counted in whole trillionths.
pub const UNIT: u64 = 1_000_000_000_000;

/// The decimals of a gain: ten to this number is `UNIT`.
const DECIMALS: u32 = 12;

/// The greatest magnitude of a gain.
pub const MAX_GAIN: u64 = 1000;

/// The maximum number of bytes of a number's text.
pub(crate) const NUMBER_BYTES: usize = 40;

/// Why a text is no gain.
#[derive(Clone, Copy, Debug, Drop, Eq, Error, PartialEq)]
pub enum NumberFault {
    #[error("not a number")]
    NotANumber = 1,
    #[error("a number of more than 40 bytes")]
    TooLong = 2,
    #[error("a number out of range")]
    OutOfRange = 3,
}

/// A factor in whole trillionths, from -1000 to 1000.
#[derive(Clone, Copy, Debug, Default, Drop, Eq, PartialEq)]
pub struct Gain {
    trillionths: i64,
}

// A gain is its trillionths.
impl Model for Gain {
    ghost use Rattle.std.specs.Prelude.{ℤ, ◌*◌, ◌≤◌, unsigned_abs};
    ghost use Rattle.fx_fixed.specs.declared.gains.TheConstants.{MAX_GAIN, UNIT};

    ghost Value = { ℤ };

    ghost view = { λ gain. gain.trillionths };

    ghost invariant = { λ gain. unsigned_abs gain.trillionths ≤ MAX_GAIN * UNIT };

    ghost inverse = { λ trillionths. record { trillionths = trillionths } };
}

impl Gain {
    ghost use Rattle.fx_fixed.specs.Gains.{gain_of};

    /// The gain that a text is, rounded to whole trillionths, halves away from zero. The text is an
    /// optional sign, digits with an optional point, and optionally `e` or `E`, then an optional
    /// sign and digits.
    ///
    /// Refused are, in this order: a text of over 40 bytes (`TooLong`), another form (`NotANumber`),
    /// an exponent outside -30 to 30, and a rounded magnitude over 1000 (`OutOfRange`).
    pub fn parse(text: &str) -> Result<Gain, NumberFault>
        ensures { result ≡ gain_of UNIT text.now }
    {
        Gain::parse_bytes(text.as_bytes())
    }

    /// The gain that a text's bytes are.
    pub(crate) fn parse_bytes(text: &[u8]) -> Result<Gain, NumberFault>
        ensures { result ≡ gain_of UNIT text.now }
    {
        if text.len() > NUMBER_BYTES {
            return Err(NumberFault::TooLong);
        }
        let (is_negative, body) = split_sign(text);
        let Some(number) = read_decimal(body) else {
            return Err(NumberFault::NotANumber);
        };
        if number.raised > MAX_EXPONENT || number.lowered > MAX_EXPONENT {
            return Err(NumberFault::OutOfRange);
        }
        let maximum = u128::from(MAX_GAIN * UNIT);
        let Some(parts) = number.nearest_parts(DECIMALS, maximum) else {
            return Err(NumberFault::OutOfRange);
        };
        let size = parts as i64;
        if is_negative {
            return Ok(Gain { trillionths: -size });
        }
        Ok(Gain { trillionths: size })
    }

    /// The gain in trillionths, at most `1000 * UNIT` in magnitude.
    pub fn trillionths(self) -> i64
        ensures value { result ≡ self }
        ensures bound { unsigned_abs result ≤ MAX_GAIN * UNIT }
    {
        self.trillionths
    }
}
