//! The four files of a job: what a read returns, and what may be found after a crash.
ghost use Rattle.std.specs.Prelude.{◌≡◌, ◌≤◌, None, List, ℕ, length, take, ◌++◌, IfOk, OnOk, MatchOption, Some, true};
ghost use Rattle.soxchain_job.specs.Image.{Image, at, bytes_at, is_present, put, renamed};
ghost use Rattle.soxchain_job.specs.Disk.{Appended, Changed, CountsFaults, DiskModel, Durable, Elapses, Follows, LeavesNow, Removed, Renamed, Truncated};

use std::alloc::Global;
use thiserror::Error;

/// The files of a job.
#[derive(Clone, Copy, Debug, PartialEq, Eq)]
pub enum FileName {
    /// The output while it grows.
    Part,
    /// A checkpoint that is being written.
    NewCheckpoint,
    /// The last checkpoint.
    Checkpoint,
    /// The complete output.
    Out,
}

/// Why a call of the disk failed.
#[derive(Clone, Copy, Debug, PartialEq, Eq, Error)]
pub enum DiskFault {
    /// An allocation was refused.
    #[error("out of memory")]
    Memory,
    /// The disk failed.
    #[error("the disk failed")]
    Failed,
}

/// A disk with the files of one job. After a fault of a call that writes, a crash may leave what it may leave after the call.
/// What is stated of its files holds where they are known, as those of a disk in memory.
pub trait Disk {
    // What is seen, what may be found after a crash, and whether both are known.
    ghost model: { DiskModel Self };

    /// All bytes of a file; None where there is none.
    fn read(&mut self, alloc: Global, name: FileName) -> Result<Option<Vec<u8>>, DiskFault>
        ensures bytes { model.known → IfOk result (λ r. MatchOption r
            (at name (model.seen self.old) ≡ None) (λ v. at name (model.seen self.old) ≡ Some v.items)) }
        ensures seen { model.known → model.seen self.new ≡ model.seen self.old }
        ensures crash { model.known → LeavesNow model self.new (model.may_leave self.old) }
        ensures time { model.known → Elapses model self.old self.new }
        ensures cause { CountsFaults model self.old self.new result };

    /// Whether there is such a file.
    fn has(&mut self, name: FileName) -> Result<bool, DiskFault>
        ensures is { model.known
            → IfOk result (λ b. b ≡ is_present (at name (model.seen self.old))) }
        ensures seen { model.known → model.seen self.new ≡ model.seen self.old }
        ensures crash { model.known → LeavesNow model self.new (model.may_leave self.old) }
        ensures time { model.known → Elapses model self.old self.new }
        ensures cause { CountsFaults model self.old self.new result };

    /// Makes a file anew with these bytes. Until it is synced, a crash may leave anything under its name.
    fn write(&mut self, name: FileName, bytes: &[u8]) -> Result<(), DiskFault>
        ensures written { model.known
            → OnOk result (model.seen self.new ≡ put name (Some bytes.now) (model.seen self.old)) }
        ensures crash { model.known
            → Follows (Changed name) (model.may_leave self.old) (model.may_leave self.new) }
        ensures time { model.known → Elapses model self.old self.new }
        ensures cause { CountsFaults model self.old self.new result };

    /// Writes at the end of a file, and makes one where there is none. Until it is synced, a crash may leave anything after the
    /// bytes that it had.
    fn append(&mut self, name: FileName, bytes: &[u8]) -> Result<(), DiskFault>
        ensures written { model.known → OnOk result (model.seen self.new
            ≡ put name (Some (bytes_at name (model.seen self.old) ++ bytes.now)) (model.seen self.old)) }
        ensures crash { model.known
            → Follows (Appended name) (model.may_leave self.old) (model.may_leave self.new) }
        ensures time { model.known → Elapses model self.old self.new }
        ensures cause { CountsFaults model self.old self.new result };

    /// Truncates a file to `len` bytes, and makes an empty one where there is none. What is seen of a shorter file is unknown.
    fn truncate(&mut self, name: FileName, len: u64) -> Result<(), DiskFault>
        ensures truncated { model.known
            → len ≤ length (bytes_at name (model.seen self.old)) → OnOk result (model.seen self.new
            ≡ put name (Some (take len (bytes_at name (model.seen self.old)))) (model.seen self.old)) }
        ensures crash { model.known
            → Follows (Truncated name len) (model.may_leave self.old) (model.may_leave self.new) }
        ensures time { model.known → Elapses model self.old self.new }
        ensures cause { CountsFaults model self.old self.new result };

    /// Syncs a file, if there is one, and its folder: from then on a crash leaves the file as it is seen.
    fn sync(&mut self, name: FileName) -> Result<(), DiskFault>
        ensures durable { model.known
            → OnOk result (Durable name (model.seen self.old) (model.may_leave self.new)) }
        ensures seen { model.known → model.seen self.new ≡ model.seen self.old }
        ensures crash { model.known → LeavesNow model self.new (model.may_leave self.old) }
        ensures time { model.known → Elapses model self.old self.new }
        ensures cause { CountsFaults model self.old self.new result };

    /// Renames a synced file, which replaces the file of the new name, and syncs the folder. A crash leaves the names as before
    /// or as after.
    fn rename(&mut self, from: FileName, to: FileName) -> Result<(), DiskFault>
        requires present { model.known → is_present (at from (model.seen self.old)) ≡ true }
        requires synced { model.known
            → Durable from (model.seen self.old) (model.may_leave self.old) }
        ensures renamed { model.known
            → OnOk result (model.seen self.new ≡ renamed from to (model.seen self.old)) }
        ensures durable { model.known
            → OnOk result (Durable to (model.seen self.new) (model.may_leave self.new)) }
        ensures crash { model.known
            → Follows (Renamed from to) (model.may_leave self.old) (model.may_leave self.new) }
        ensures time { model.known → Elapses model self.old self.new }
        ensures cause { CountsFaults model self.old self.new result };

    /// Removes a file, and syncs the folder.
    fn remove(&mut self, name: FileName) -> Result<(), DiskFault>
        ensures removed { model.known
            → OnOk result (model.seen self.new ≡ put name None (model.seen self.old)) }
        ensures durable { model.known
            → OnOk result (Durable name (model.seen self.new) (model.may_leave self.new)) }
        ensures crash { model.known
            → Follows (Removed name) (model.may_leave self.old) (model.may_leave self.new) }
        ensures time { model.known → Elapses model self.old self.new }
        ensures cause { CountsFaults model self.old self.new result };

    // A crash may leave what is seen: one of the program alone does.
    ghost shows: { (d : Self) → model.may_leave d (model.seen d) };

    // This moment is one of those since an earlier one.
    ghost counts_now: { (d : Self) (t : ℕ) (c : Image) → t ≤ model.moment d → model.may_leave d c → model.left_since d t c };

    // Since this moment there is no other.
    ghost only_now: { (d : Self) (c : Image) → model.left_since d (model.moment d) c → model.may_leave d c };

    // The program began before.
    ghost begun: { (d : Self) → model.began d ≤ model.moment d };
}
