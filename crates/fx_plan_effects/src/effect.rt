//! The layout of a sound, and copies of what effects hold.
ghost use Rattle.std.specs.Prelude.{◌≡◌, IfOk};
ghost use Rattle.fx_tap_delays.specs.EchoWords.{echo_value};
ghost use Rattle.fx_tap_pointwise.specs.RemixWords.{specs_in};

use fx_tap_delays::echo::words::Echoing;
use fx_tap_pointwise::OutSpec;
use smallvec::SmallVec;
use std::alloc::{AllocError, Global};

/// The rate and the channels of a sound.
#[derive(Clone, Copy, Debug, Drop, PartialEq, Eq)]
pub struct Layout {
    /// Frames per second, at least 1.
    pub rate: u32,
    /// Samples per frame, 1 to 16.
    pub channels: usize,
}

/// A copy of out-specs.
pub fn copy_specs(alloc: Global, specs: &[OutSpec]) -> Result<Vec<OutSpec>, AllocError>
    ensures { IfOk result (λ copies. specs_in copies.items ≡ specs_in specs.now) }
{
    let mut copies = Vec::new(alloc);
    let mut rest = specs;
    while let Some((spec, more)) = rest.split_first() {
        copies.push(SmallVec::from_slice(alloc, spec.as_slice())?)?;
        rest = more;
    }
    Ok(copies)
}

/// A copy of what an echo does.
pub fn copy_echo(alloc: Global, echo: &Echoing) -> Result<Echoing, AllocError>
    ensures { IfOk result (λ copy. echo_value copy ≡ echo_value echo.now) }
{
    Ok(Echoing {
        gain_in: echo.gain_in,
        gain_out: echo.gain_out,
        taps: SmallVec::from_slice(alloc, &echo.taps)?,
    })
}
