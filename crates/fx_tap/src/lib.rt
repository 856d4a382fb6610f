// Written by scripts/effects from effects/*.toml. Do not edit.
//! Effects that compute samples: each sample is one exact fraction, rounded once.
#![tactic(auto)]

pub use fx_tap_delays::{Delay, Echo, Echos};
pub use fx_tap_fir::Fir;
pub use fx_tap_pointwise::{DcShift, OutSpec, Remix, Vol, Weight};
pub use fx_tap_sums::dot;
