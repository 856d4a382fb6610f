//! Sums of samples of 16 bits, two products at a time, beside plain sums.
ghost use Rattle.std.specs.Prelude.{◌≡◌};

use crate::fixed_tests::REFUSED;
use crate::transform_tests::{are_sums, noise};
use fx_tap_sums::pairs::Pairs;
use std::alloc::{AllocError, Global};

/// Samples that are multiples of 65,536, of all sizes; each fifth is the least one, each seventh the greatest.
fn samples(alloc: Global, count: usize) -> Result<Vec<i32>, AllocError> {
    let mut samples = Vec::new(alloc);
    for place in 0..count {
        let sample = if place % 5 == 3 {
            i32::MIN
        } else if place % 7 == 5 {
            i32::MAX & -65_536
        } else {
            noise(place) & -65_536
        };
        samples.push(sample)?;
    }
    Ok(samples)
}

/// Weights: the first and the sixth one, and what the others are, give or take less than `spread`.
#[derive(Clone, Copy, Debug)]
struct Kind {
    first: i32,
    sixth: i32,
    others: i32,
    spread: i32,
}

impl Kind {
    /// So many weights of this kind.
    fn weights(self, alloc: Global, count: usize) -> Result<Vec<i32>, AllocError> {
        let mut weights = Vec::new(alloc);
        for place in 0..count {
            let weight = if place == 0 {
                self.first
            } else if place == 5 {
                self.sixth
            } else {
                let random = noise(place.wrapping_add(4_321)).checked_rem(self.spread);
                self.others.wrapping_add(random.unwrap_or(0))
            };
            weights.push(weight)?;
        }
        Ok(weights)
    }
}

/// Are so many sums of a window those of the definition? The window is no longer than they need. Where one of its samples is
/// no multiple of 65,536, there are no sums.
fn is_right(alloc: Global, pairs: &Pairs, weights: &[i32], count: usize) -> Result<bool, AllocError>
    requires { pairs.now ≡ weights.now }
{
    let needed = weights.len().saturating_add(count).saturating_sub(1);
    let mut window = samples(alloc, needed)?;
    let mut sums = Vec::new(alloc);
    sums.resize(count, 1)?;
    if weights.len().saturating_add(sums.len()) > window.len().saturating_add(1) {
        return Ok(false);
    }
    if !pairs.convolve(&window, &mut sums) || !are_sums(weights, &window, &sums) {
        return Ok(false);
    }
    for place in [0, needed / 3, needed.saturating_sub(1)] {
        if place < window.len() {
            window[place] ^= 1;
            if pairs.convolve(&window, &mut sums) {
                return Ok(false);
            }
            window[place] ^= 1;
        }
    }
    Ok(true)
}

/// Sums of 1 to 40 places, and of about as many as are made at once, with weights of each count.
fn are_right(alloc: Global, kind: Kind) -> Result<bool, AllocError> {
    for taps in [12, 13, 14, 15, 64, 255, 256] {
        let weights = kind.weights(alloc, taps)?;
        let Some(pairs) = Pairs::of(alloc, &weights)? else {
            return Ok(false);
        };
        for count in 1..41 {
            if !is_right(alloc, &pairs, &weights, count)? {
                return Ok(false);
            }
        }
        for count in [255, 256, 257, 300, 513] {
            if !is_right(alloc, &pairs, &weights, count)? {
                return Ok(false);
            }
        }
    }
    Ok(true)
}

/// Fails with a text where sums with such weights are not those of the definition.
fn check(alloc: Global, text: &'static str, kind: Kind) -> Result<(), &'static str> {
    match are_right(alloc, kind) {
        Ok(true) => Ok(()),
        Ok(false) => Err(text),
        Err(_refused) => Err(REFUSED),
    }
}

/// Only the first weight and the sixth one are not zero.
fn two(first: i32, sixth: i32) -> Kind {
    Kind {
        first,
        sixth,
        others: 0,
        spread: 1,
    }
}

/// Weights around a number.
fn around(others: i32, spread: i32) -> Kind {
    Kind {
        first: others,
        sixth: others,
        others,
        spread,
    }
}

#[test]
fn sums_of_pairs(rt: HostRuntime) -> Result<(), &'static str> {
    let alloc = rt.alloc();
    check(alloc, "one part", around(0, 256))?;
    check(alloc, "one part at its limits", two(32_767, -32_767))?;
    check(alloc, "one part, of one sign", two(-32_767, -32_767))?;
    check(alloc, "two parts", around(0, 1 << 22))?;
    check(
        alloc,
        "two parts at their limits",
        two(536_854_528, -536_821_760),
    )?;
    check(
        alloc,
        "two parts, of one sign",
        two(-536_854_528, -536_821_760),
    )?;
    check(
        alloc,
        "two parts at the limits of the lower split",
        two(268_427_264, -268_378_112),
    )?;
    check(
        alloc,
        "two parts just above those limits",
        two(268_427_264, -268_378_113),
    )?;
    check(alloc, "low parts at their limit", around(40_960, 1))?;
    check(
        alloc,
        "low parts of the lower split at their limit",
        around(20_480, 1),
    )
}

/// Are no weights prepared beyond the limits?
fn are_refused(alloc: Global) -> Result<bool, AllocError> {
    let too_large = two(536_854_529, 0).weights(alloc, 12)?;
    let too_much = two(536_854_528, 536_821_761).weights(alloc, 12)?;
    let too_many = two(1, 1).weights(alloc, 257)?;
    Ok(
        Pairs::of(alloc, &too_large)?.is_none()
            && Pairs::of(alloc, &too_much)?.is_none()
            && Pairs::of(alloc, &too_many)?.is_none(),
    )
}

#[test]
fn weights_beyond_limits(rt: HostRuntime) -> Result<(), &'static str> {
    match are_refused(rt.alloc()) {
        Ok(true) => Ok(()),
        Ok(false) => Err("weights beyond the limits are prepared"),
        Err(_refused) => Err(REFUSED),
    }
}
