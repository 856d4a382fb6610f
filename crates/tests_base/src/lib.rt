//! The worked rows of fx_fixed, fx_frame and fx_sound, of sums of pairs, of transforms, and of rounding. They stand in a crate of their own, so that those
//! crates are not proved once more for them.
#![tactic(auto)]

#[cfg(test)]
mod fixed_tests;
#[cfg(test)]
mod frame_tests;
#[cfg(test)]
mod pair_tests;
#[cfg(test)]
mod rounding_tests;
#[cfg(test)]
mod sound_tests;
#[cfg(test)]
mod transform_tests;
