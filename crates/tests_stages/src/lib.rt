// Written by scripts/effects from effects/*.toml. Do not edit.
//! The worked rows of fx_cut, fx_tap_pointwise, fx_tap_delays, fx_tap_fir and fx_tap_sums. They are in a crate of their own, so
//! that those crates are not proved once more for them.
//!
//! An effect has a file of its own, or one with the effect that has the same words. Each row has a name, and after the arrow
//! what is given for the samples before it. A test whose name begins with `growth_` prints `refused` where memory is
//! wanting, in `new`, for the stored frames or in `thaw`, and `made` where none was.
#![tactic(auto)]

#[cfg(test)]
mod dcshift_tests;
#[cfg(test)]
mod delay_tests;
#[cfg(test)]
mod dot_tests;
#[cfg(test)]
mod driving;
#[cfg(test)]
mod echo_tests;
#[cfg(test)]
mod fade_tests;
#[cfg(test)]
mod fir_block_tests;
#[cfg(test)]
mod fir_tests;
#[cfg(test)]
mod pad_tests;
#[cfg(test)]
mod remix_tests;
#[cfg(test)]
mod thawing;
#[cfg(test)]
mod trim_tests;
#[cfg(test)]
mod upsample_tests;
#[cfg(test)]
mod vol_tests;
