//! Decimal numbers, read exactly.

ghost use Rattle.std.specs.Prelude.{◌≡◌, ◌+◌, ◌<◌, ◌≤◌, ◌↔◌, ◌∷◌, ◌&&◌, IsSome, IfSome, IsTrue, MatchOption, length, min, nat_lt};
ghost use Rattle.std.specs.Str.Parse.{digits_value};
ghost use Rattle.fx_fixed.specs.Decimals.{is_decimal, is_negative, is_numeral, unsigned};
ghost use Rattle.fx_fixed.specs.Shown.{Ends, HasNoPoint, Shows, is_end};

use crate::capped::capped_number;
use crate::number::{Decimal, EXPONENT_CAP};
use crate::sums::Digits;

/// Whether a text begins with a minus, and the text without its sign.
pub fn split_sign(text: &[u8]) -> (bool, &[u8])
    ensures sign { result.0 ≡ is_negative text.now }
    ensures rest { result.1.now ≡ unsigned text.now }
    ensures shorter { length result.1.now ≤ length text.now }
{
    match text {
        [b'-', rest @ ..] => (true, rest),
        [b'+', rest @ ..] => (false, rest),
        _ => (false, text),
    }
}

/// A decimal number of which these digits were read, `whole` of them before the point and `places`
/// after it, and of which the rest of the text is to be the exponent.
fn with_exponent(digits: Digits, whole: usize, places: usize, rest: &[u8]) -> Option<Decimal>
    requires { whole + places < 100 }
    ensures form { IsSome result ↔ IsTrue (nat_lt 0 (whole + places) && is_end rest.now) }
    ensures value { IfSome result (λ d. Ends d digits whole places rest.now) }
{
    if whole + places == 0 {
        return None;
    }
    match rest {
        [] => Some(Decimal {
            digits,
            whole,
            places,
            exponent_digits: 0,
            raised: 0,
            lowered: 0,
        }),
        [b'e' | b'E', text @ ..] => {
            let (is_lowered, number) = split_sign(text);
            let exponent = capped_number(number, EXPONENT_CAP)?;
            if is_lowered {
                return Some(Decimal {
                    digits,
                    whole,
                    places,
                    exponent_digits: number.len(),
                    raised: 0,
                    lowered: exponent,
                });
            }
            Some(Decimal {
                digits,
                whole,
                places,
                exponent_digits: number.len(),
                raised: exponent,
                lowered: 0,
            })
        }
        _ => None,
    }
}

/// What follows a point at the front of a text.
fn after_point(text: &[u8]) -> Option<&[u8]>
    ensures { MatchOption result (HasNoPoint text.now) (λ rest. text.now ≡ 46 ∷ rest.now) }
{
    match text {
        [b'.', rest @ ..] => Some(rest),
        _ => None,
    }
}

/// The number that an unsigned text is.
pub fn read_decimal(body: &[u8]) -> Option<Decimal>
    requires { length body.now < 100 }
    ensures form { IsSome result ↔ IsTrue (is_decimal body.now) }
    ensures value { IfSome result (λ d. Shows d body.now) }
{
    let (digits, rest) = Digits::none().read(body);
    let whole = body.len() - rest.len();
    match after_point(rest) {
        Some(text) => {
            let (digits, rest) = digits.read(text);
            with_exponent(digits, whole, text.len() - rest.len(), rest)
        }
        None => with_exponent(digits, whole, 0, rest),
    }
}
