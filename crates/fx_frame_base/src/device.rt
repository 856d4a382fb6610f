//! What the devices in memory share: how much a call moves, and which call fails.

ghost use Rattle.std.specs.Prelude.{◌≡◌, ◌+◌, ◌↔◌, IsErr};
ghost use Rattle.fx_frame_base.specs.Io.{saturated};
ghost use Rattle.fx_frame_base.specs.Device.{RefusesNext, device_after};

use super::io::Failed;

/// How a device in memory behaves, and what it counted.
#[derive(Clone, Copy, Debug, PartialEq, Eq)]
pub struct Device {
    /// The maximum number of bytes that a call moves.
    pub piece: usize,
    /// The number of the call that fails, counted from 1; 0 for none.
    pub fail_at: u64,
    /// Whether each later call fails too.
    pub for_good: bool,
    /// How many calls were made.
    pub calls: u64,
    /// How many of them failed.
    pub failures: u64,
}

impl Device {
    // Counts a call, which may be one that fails.
    pub(crate) fn call(&mut self) -> Result<(), Failed>
        ensures refused { IsErr result ↔ RefusesNext self.old }
        ensures counted { self.new ≡ device_after self.old result }
    {
        self.calls = self.calls.saturating_add(1);
        let is_due = self.calls == self.fail_at || (self.for_good && self.calls > self.fail_at);
        if self.fail_at != 0 && is_due {
            return Err(self.fail());
        }
        Ok(())
    }

    // Counts a failure of the call that was counted last.
    pub(crate) fn fail(&mut self) -> Failed
        ensures { self.new ≡ record self.old { failures = saturated (self.old.failures + 1) } }
    {
        self.failures = self.failures.saturating_add(1);
        Failed
    }
}
