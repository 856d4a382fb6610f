//! What must be so before OUT gets its name: IN is what it was, and the part is the one that was written.
ghost use Rattle.std.specs.Prelude.{◌↔◌, ◌≡◌, ◌≢◌, IsTrue};
ghost use Rattle.soxchain_job_rules.specs.Sound.{IsUnmodified};

use crate::FileId;

/// A time, since the start of 1970.
#[derive(Clone, Copy, Debug, PartialEq, Eq)]
pub struct Stamp {
    /// Whole seconds, rounded down; negative before 1970.
    pub seconds: i64,
    /// Nanoseconds after them, below 10^9.
    pub nanoseconds: u32,
}

/// What the system says of IN.
#[derive(Clone, Copy, Debug, PartialEq, Eq)]
pub struct InputState {
    /// Which file it is.
    pub file: FileId,
    /// How many bytes it has.
    pub size: u64,
    /// When its bytes were changed last. Any program may set this time.
    pub modified: Stamp,
    /// When its bytes, its names or its rights were changed last. No program may set this time.
    pub changed: Stamp,
}

/// What two looks at IN tell of its bytes.
#[derive(Clone, Copy, Debug, PartialEq, Eq)]
pub enum InputCheck {
    /// They are the same.
    Same,
    /// They may be others: their digest has to be compared once more.
    Compare,
    /// It is another file, or its bytes were changed.
    Changed,
}

/// What two looks at IN tell of its bytes.
pub fn input_check(before: &InputState, after: &InputState) -> InputCheck
    ensures same { (result ≡ InputCheck.Same) ↔ (after.now ≡ before.now) }
    ensures compare { (result ≡ InputCheck.Compare)
        ↔ (IsUnmodified before.now after.now × (after.now.changed ≢ before.now.changed)) }
    ensures changed { (result ≡ InputCheck.Changed) ↔ (¬ IsUnmodified before.now after.now) }
{
    if before.file != after.file || before.size != after.size || before.modified != after.modified {
        InputCheck::Changed
    } else if before.changed != after.changed {
        InputCheck::Compare
    } else {
        InputCheck::Same
    }
}

/// Whether the part is the one that this run wrote: its name still leads to the file that was opened, and that file has the length
/// and the digest of what was written.
pub fn is_own_part(
    opened: FileId,
    named: Option<FileId>,
    size: u64,
    written: u64,
    digest: u64,
    expected: u64,
) -> bool
    ensures { IsTrue result
        ↔ ((named ≡ Some opened) × (size ≡ written) × (digest ≡ expected)) }
{
    named == Some(opened) && size == written && digest == expected
}
