//! Numbers with a cap, which stands for each greater number.

ghost use Rattle.std.specs.Prelude.{◌≡◌, ◌≤◌, ◌^◌, ◌↔◌, IfSome, IsSome, IsTrue, min};
ghost use Rattle.std.specs.Str.Parse.{digits_value};
ghost use Rattle.fx_fixed.specs.Decimals.{is_numeral};

/// The number that the digits of a text are, or `cap`, at most `2^24`, where it is more; nothing where the text is empty
/// or has other bytes than digits.
pub fn capped_number(text: &[u8], cap: u32) -> Option<u32>
    requires { cap ≤ 2 ^ 24 }
    ensures form { IsSome result ↔ IsTrue (is_numeral text.now) }
    ensures value { IfSome result (λ n. n ≡ min (digits_value 10 text.now) cap) }
{
    if text.is_empty() {
        return None;
    }
    let mut number = 0;
    for byte in text {
        if !byte.is_ascii_digit() {
            return None;
        }
        number = (number * 10 + u32::from(*byte - b'0')).min(cap);
    }
    Some(number)
}
