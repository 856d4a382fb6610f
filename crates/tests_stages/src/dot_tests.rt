//! The worked rows of `dot`.
ghost use Rattle.std.specs.Prelude.{◌≡◌, ◌≤◌, ◌^◌, true, length, unsigned_abs, All};

use fx_tap::dot;

/// The plain loop: the products of the samples and the coefficients at the same places, added up one by one.
fn plain(samples: &[i32], coefficients: &[i64]) -> i128
    requires { length coefficients.now ≡ length samples.now }
{
    let mut sum = 0i128;
    for i in 0..samples.len() {
        let product = i128::from(samples[i]).wrapping_mul(i128::from(coefficients[i]));
        sum = sum.wrapping_add(product);
    }
    sum
}

/// No coefficient is too great for `dot`.
fn are_small(coefficients: &[i64]) -> bool
    ensures { result ≡ true → All (λ c. unsigned_abs c ≤ 10 ^ 15) coefficients.now }
{
    coefficients
        .iter()
        .all(|c| c.unsigned_abs() <= 1_000_000_000_000_000)
}

/// Is this the sum of the least sample times each coefficient?
fn sums_to(coefficients: &[i64; 1024], want: i128) -> Result<(), &'static str> {
    if !are_small(coefficients) {
        return Err("a coefficient is too great");
    }
    if dot(&[-2_147_483_648; 1024], coefficients) != want {
        return Err("another sum");
    }
    Ok(())
}

#[test]
fn dot_great() -> Result<(), &'static str> {
    sums_to(
        &[-1_000_000_000_000; 1024],
        2_199_023_255_552_000_000_000_000,
    )?;
    sums_to(
        &[1_000_000_000_000; 1024],
        -2_199_023_255_552_000_000_000_000,
    )?;
    if dot(&[], &[]) != 0 {
        return Err("no products have a sum");
    }
    Ok(())
}

#[test]
fn dot_largest() -> Result<(), &'static str> {
    sums_to(
        &[-1_000_000_000_000_000; 1024],
        2_199_023_255_552_000_000_000_000_000,
    )?;
    sums_to(
        &[1_000_000_000_000_000; 1024],
        -2_199_023_255_552_000_000_000_000_000,
    )
}

#[test]
fn dot_every_length() -> Result<(), &'static str> {
    let mut samples = [0i32; 70];
    let mut coefficients = [0i64; 70];
    let mut seed = 1u32;
    for i in 0..70usize {
        seed = seed.wrapping_mul(1_664_525).wrapping_add(1_013_904_223);
        samples[i] = seed.cast_signed();
        seed = seed.wrapping_mul(1_664_525).wrapping_add(1_013_904_223);
        coefficients[i] = i64::from(seed.cast_signed()) * 400_000 + i as i64;
    }
    for count in 0..71usize {
        let (some, factors) = (&samples[..count], &coefficients[..count]);
        if !are_small(factors) {
            return Err("a coefficient is too great");
        }
        if dot(some, factors) != plain(some, factors) {
            return Err("another sum than the plain loop's");
        }
    }
    Ok(())
}
