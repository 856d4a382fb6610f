//! Sums of a long list of weights times the samples of a window, by transforms modulo two or three primes.

mod factor;
mod joining;
mod lanes;
mod leaf;
mod leaves;
mod loading;
mod prepared;
mod primes;
mod remainders;
mod roots;
mod spectrum;
mod thirds;
mod transform;
mod vectors;

pub use spectrum::Spectrum;
