//! Sums rounded over prepared denominators, beside plain arithmetic in 128 bits.
ghost use Rattle.std.specs.Prelude.{◌^◌, ◌≤◌};

use fx_fixed::inner::Denominator;

/// The greatest denominator, and the greatest magnitude of a sum.
const LIMIT: u64 = 1 << 61;

/// The sample nearest to a sum over a denominator, halves away from zero, and whether it was clipped.
fn plain(sum: i64, denominator: u64) -> (i32, bool)
    requires { 1 ≤ denominator }
{
    let size = u128::from(sum.unsigned_abs());
    let over = u128::from(denominator);
    let nearest = i128::try_from((2 * size + over) / (2 * over)).unwrap_or(i128::MAX);
    let signed = if sum < 0 {
        nearest.wrapping_neg()
    } else {
        nearest
    };
    match i32::try_from(signed) {
        Ok(sample) => (sample, false),
        Err(_beyond) => (if sum < 0 { i32::MIN } else { i32::MAX }, true),
    }
}

/// Is a sum rounded as by plain arithmetic, where it is no greater than sums may be?
fn agrees(value: u64, sum: i64) -> bool
    requires minimum { 1 ≤ value }
    requires largest { value ≤ 2 ^ 61 }
{
    if sum.unsigned_abs() > LIMIT {
        return true;
    }
    Denominator::new(value).round(sum) == plain(sum, value)
}

/// Are sums of both signs rounded so, in the midst of two integers and beside it, and at the ends of a sample's range?
fn are_rounded(value: u64) -> bool
    requires minimum { 1 ≤ value }
    requires largest { value ≤ 2 ^ 61 }
{
    for whole in [
        0_u64,
        1,
        2,
        3,
        0x7fff_fffe,
        0x7fff_ffff,
        0x8000_0000,
        0x8000_0001,
    ] {
        for part in [0, 1, (value - 1) / 2, value / 2, value / 2 + 1, value - 1] {
            let size = (whole.wrapping_mul(value).wrapping_add(part) % (1 << 62)) as i64;
            if !agrees(value, size) || !agrees(value, -size) {
                return false;
            }
        }
    }
    for less in 0..4 {
        let size = (LIMIT - less) as i64;
        if !agrees(value, size) || !agrees(value, -size) {
            return false;
        }
    }
    true
}

#[test]
fn sums_rounded_at_the_edges() -> Result<(), &'static str> {
    for value in [
        1,
        2,
        3,
        4,
        5,
        7,
        8,
        9,
        100,
        1_000_000_000,
        0x7fff_ffff,
        0x8000_0000,
        0x8000_0001,
        LIMIT / 2 - 1,
        LIMIT / 2,
        LIMIT / 2 + 1,
        LIMIT - 1,
        LIMIT,
    ] {
        if value < 1 || value > LIMIT || !are_rounded(value) {
            return Err("a sum is rounded otherwise");
        }
    }
    Ok(())
}
