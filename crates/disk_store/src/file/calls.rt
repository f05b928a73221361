//! The calls on a file as a disk. Each is a system call, noted with its answer, with two exceptions
//! that fail without one: at the greatest count of failures, and a sync after a failed one.
ghost use Rattle.std.specs.Prelude.{◌≡◌, ◌⊎◌, ◌+◌, ◌≤◌, [], ◌∷◌, ◌++◌, length, slice_range, OnOk};
ghost use Rattle.std.specs.Prelude.{OnErr, IsErr};
ghost use Rattle.disk_store.specs.Calls.{Gave, FailedRead, Wrote, FailedWrite, Synced, FailedSync};
ghost use Rattle.disk_model.specs.Disk.{Keeps, KeepsLength, IsUnchanged, IsStill, WritesWithin};
ghost use Rattle.disk_model.specs.Disk.{HasCause, IsMarked, IsFirm, LeavesAll, most_failures};

use super::{FileDiskFrom, Start};
use crate::{Disk, DiskFault};

impl<S: Start> Disk for FileDiskFrom<S> {
    ghost use Rattle.disk_store.specs.File.{file_state, calls_on, CanSync, HasFailedSync};
    ghost use Rattle.disk_store.specs.File.{KeepsFault, can_sync};
    ghost use Rattle.disk_store.specs.FileSound.{file_sound};

    ghost state = { file_state };

    ghost sound = { λ disk honest. file_sound disk };

    fn len(&self) -> u64 {
        self.len
    }

    fn read(&mut self, at: u64, out: &mut [u8]) -> Result<(), DiskFault>
        requires { at + length out.old ≤ (file_state self.old).len }
        ensures keeps { KeepsLength (file_state self.old) (file_state self.new) }
        ensures cause { HasCause (file_state self.old).failures
            (file_state self.new).failures result }
        ensures called { (file_state self.new).calls ≡ (file_state self.old).calls + 1 }
        ensures unchanged { (file_state self.old).IsHonest
            → IsUnchanged (file_state self.old) (file_state self.new) }
        ensures bytes { (file_state self.new).IsHonest → OnOk result
            (out.new ≡ slice_range (file_state self.old).bytes at (at + length out.old)) }
        ensures honest { (file_state self.old).IsHonest → OnOk result
            (out.new ≡ slice_range (file_state self.old).bytes at (at + length out.old))
            → (file_state self.new).IsHonest }

        ensures noted { OnOk result
            (calls_on self.new ≡ calls_on self.old ++ Gave at out.new ∷ []) }
        ensures noted_failure { OnErr result
            ((calls_on self.new ≡ calls_on self.old ++ FailedRead at ∷ [])
            ⊎ ((calls_on self.new ≡ calls_on self.old)
            × ((file_state self.old).failures ≡ most_failures))) }
        ensures first { KeepsFault self.old self.new result }
        ensures syncs { can_sync self.new ≡ can_sync self.old }
        ensures all { LeavesAll (file_state self.new) }
    {
        self.calls.raise();
        if self.failures == u64::MAX {
            return Err(DiskFault);
        }
        let Ok(()) = self.file.read(at, out) else {
            self.failures += 1;
            return Err(DiskFault);
        };
        Ok(())
    }

    fn write(&mut self, at: u64, bytes: &[u8]) -> Result<(), DiskFault>
        requires { at + length bytes.now ≤ (file_state self.old).len }
        ensures keeps { Keeps (file_state self.old) (file_state self.new) }
        ensures cause { HasCause (file_state self.old).failures
            (file_state self.new).failures result }
        ensures called { (file_state self.new).calls ≡ (file_state self.old).calls + 1 }
        ensures range { (file_state self.old).IsHonest
            → WritesWithin at (length bytes.now) (file_state self.old) (file_state self.new) }
        ensures bytes { (file_state self.old).IsHonest → OnOk result
            (slice_range (file_state self.new).bytes at (at + length bytes.now) ≡ bytes.now) }
        ensures marked { (file_state self.old).IsHonest
            → OnOk result (IsMarked at (length bytes.now) (file_state self.new)) }
        ensures failed { (file_state self.old).IsHonest
            → OnErr result (IsMarked at (length bytes.now) (file_state self.new)
            ⊎ IsUnchanged (file_state self.old) (file_state self.new)) }

        ensures noted { OnOk result
            (calls_on self.new ≡ calls_on self.old ++ Wrote at bytes.now ∷ []) }

        // A failed write is not noted as done: a read is to give the old bytes.
        ensures noted_failure { OnErr result
            ((calls_on self.new ≡ calls_on self.old ++ FailedWrite at bytes.now ∷ [])
            ⊎ ((calls_on self.new ≡ calls_on self.old)
            × ((file_state self.old).failures ≡ most_failures))) }
        ensures first { KeepsFault self.old self.new result }
        ensures syncs { can_sync self.new ≡ can_sync self.old }
        ensures all { LeavesAll (file_state self.new) }
    {
        self.calls.raise();
        if self.failures == u64::MAX {
            return Err(DiskFault);
        }
        let Ok(()) = self.file.write(at, bytes) else {
            self.failures += 1;
            return Err(DiskFault);
        };
        Ok(())
    }

    fn sync(&mut self) -> Result<(), DiskFault>
        ensures keeps { Keeps (file_state self.old) (file_state self.new) }
        ensures cause { HasCause (file_state self.old).failures
            (file_state self.new).failures result }
        ensures called { (file_state self.new).calls ≡ (file_state self.old).calls + 1 }
        ensures still { (file_state self.old).IsHonest
            → IsStill (file_state self.old) (file_state self.new) }
        ensures firm { (file_state self.old).IsHonest → OnOk result (IsFirm (file_state self.new)) }
        ensures failed { (file_state self.old).IsHonest
            → OnErr result (IsUnchanged (file_state self.old) (file_state self.new)) }

        ensures noted { OnOk result (calls_on self.new ≡ calls_on self.old ++ Synced ∷ []) }
        ensures noted_failure { OnErr result
            ((calls_on self.new ≡ calls_on self.old ++ FailedSync ∷ [])
            ⊎ ((calls_on self.new ≡ calls_on self.old) × (HasFailedSync self.old
            ⊎ ((file_state self.old).failures ≡ most_failures)))) }

        ensures first { KeepsFault self.old self.new result }

        // Once a sync has failed, each later one fails: the system may have dropped what it should
        // have written, and report the next sync as a success.
        ensures lasts { HasFailedSync self.old → IsErr result }
        ensures remembered { OnErr result (HasFailedSync self.new) }
        ensures goes_on { OnOk result (CanSync self.new) }
        ensures all { LeavesAll (file_state self.new) }
    {
        self.calls.raise();
        if !self.can_sync || self.failures == u64::MAX {
            self.can_sync = false;
            self.failures = self.failures.saturating_add(1);
            return Err(DiskFault);
        }
        let Ok(()) = self.file.sync() else {
            self.can_sync = false;
            self.failures += 1;
            return Err(DiskFault);
        };
        Ok(())
    }
}
