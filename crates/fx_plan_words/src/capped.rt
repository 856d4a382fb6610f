//! Numbers with a cap of 1000, which stands for each greater number.

ghost use Rattle.std.specs.Prelude.{◌≡◌, ◌↔◌, IfSome, IsSome, IsTrue, min};
ghost use Rattle.std.specs.Str.Parse.{digits_value};
ghost use Rattle.fx_fixed.specs.Decimals.{is_numeral};

use fx_fixed::inner;

/// Stands for each number that is not below it: more than any factor or channel may be.
pub const NUMBER_CAP: u32 = 1000;

/// The number that the digits of a text are, or `NUMBER_CAP` where it is more; nothing where the text is empty or
/// has other bytes than digits.
pub fn capped_number(text: &[u8]) -> Option<u32>
    ensures form { IsSome result ↔ IsTrue (is_numeral text.now) }
    ensures value { IfSome result (λ n. n ≡ min (digits_value 10 text.now) 1000) }
{
    inner::capped_number(text, NUMBER_CAP)
}
