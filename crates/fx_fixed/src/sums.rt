//! Bounded sums of digits.

ghost use Rattle.std.specs.Prelude.{◌≡◌, ℕ, ◌+◌, ◌-◌, ◌*◌, ◌^◌, ◌<◌, ◌≤◌, IsTrue, List, [], ◌∷◌, ◌++◌, length, drop};
ghost use Rattle.std.specs.Char.{is_ascii_digit};
ghost use Rattle.std.specs.List.{prefix_len, take_while};

/// Digits read so far, of which the last ones may be dropped.
#[derive(Clone, Copy)]
pub struct Digits {
    pub kept: u128,
    pub dropped: u32,
    ghost bounded: { kept < 10 ^ 38 },
    ghost dropped_max: { dropped < 100 },
}

impl Digits {
    ghost use Rattle.fx_fixed.specs.Kept.{Keeps};

    /// No digit.
    pub fn none() -> Digits
        ensures { Keeps result [] }
    {
        Digits {
            kept: 0,
            dropped: 0,
        }
    }

    /// One digit more.
    #[tactic(auto, using(crate::proofs::Keeping::one_digit_more))]
    pub fn push(self, digit: u8) -> Digits
        requires digit { IsTrue (is_ascii_digit digit) }
        requires free { self.dropped < 99 }
        ensures keeps { (ds : List ℕ) → Keeps self ds → Keeps result (ds ++ digit ∷ []) }
        ensures one_more { result.dropped ≤ self.dropped + 1 }
    {
        if self.kept >= 10_000_000_000_000_000_000_000_000_000_000_000_000 {
            return Digits {
                kept: self.kept,
                dropped: self.dropped + 1,
            };
        }
        Digits {
            kept: self.kept * 10 + u128::from(digit - b'0'),
            dropped: self.dropped,
        }
    }

    /// The digits at the front of a text in addition, and what follows them.
    pub fn read(self, text: &[u8]) -> (Digits, &[u8])
        requires free { self.dropped + length text.now < 100 }
        ensures keeps { (ds : List ℕ) → Keeps self ds →
            Keeps result.0 (ds ++ take_while is_ascii_digit text.now) }
        ensures one_more { result.0.dropped + length result.1.now ≤ self.dropped + length text.now }
        ensures rest { result.1.now ≡ drop (prefix_len is_ascii_digit text.now) text.now }
    {
        let mut sum = self;
        for (i, byte) in text.iter().enumerate() {
            if !byte.is_ascii_digit() {
                return (sum, &text[i..]);
            }
            sum = sum.push(*byte);
        }
        (sum, &[])
    }
}
