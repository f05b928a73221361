//! A disk in memory to work on, whose calls never fail.
ghost use Rattle.std.specs.Prelude.{◌≡◌, ◌+◌, ◌<◌, ◌≤◌, [], All, length, replicate, slice_range};
ghost use Rattle.std.specs.Prelude.{IfSome, IsOk, OnOk};
ghost use Rattle.disk_model.specs.Disk.{IsNew};
ghost use Rattle.disk_store.specs.Calls.{content_after};

use super::cells::overwrite;
use crate::call_count::CallCount;
use crate::history::History;
use crate::{Disk, DiskFault};
use std::alloc::Global;

/// A disk in memory that takes no more of it than its bytes, and whose calls never fail. What a
/// crash would leave of it only clauses know.
#[derive(Drop)]
pub struct RamDisk {
    bytes: Vec<u8>,
    history: History,
    calls: CallCount,
    ghost is_noted: { (content_after [] history.calls).bytes ≡ bytes.items },
    ghost loose_len: { length (content_after [] history.calls).loose ≡ length bytes.items },
    ghost are_bytes: { All (λ b. b < 256) bytes.items },
}

impl RamDisk {
    ghost use Rattle.disk_store.specs.File.{ram_state};

    /// A disk of so many zeros, all of them synced; `None` if memory runs out.
    pub fn new(alloc: Global, len: u64) -> Option<RamDisk>
        ensures new { IfSome result (λ disk. IsNew (replicate len 0) (ram_state disk)) }
    {
        let bytes = vec![in alloc; 0; len as usize].ok()?;
        // Clauses alone read the notes, here and below; they do nothing when they run.
        let mut history = History::new();
        let _ = history.made(len, Ok(()));
        let _ = history.synced(Ok(()));
        Some(RamDisk {
            bytes,
            history,
            calls: CallCount::new(),
        })
    }
}

impl Disk for RamDisk {
    ghost use Rattle.disk_model.specs.Disk.{Keeps, IsUnchanged, IsStill, IsFirm, WritesWithin};
    ghost use Rattle.disk_model.specs.Disk.{IsMarked, HasCause};
    ghost use Rattle.disk_store.specs.File.{ram_state};
    ghost use Rattle.disk_store.specs.Inner.RamSound.{ram_sound};

    ghost state = { ram_state };

    ghost sound = { λ disk honest. ram_sound disk };

    fn len(&self) -> u64 {
        self.bytes.len() as u64
    }

    fn read(&mut self, at: u64, out: &mut [u8]) -> Result<(), DiskFault>
        requires { at + length out.old ≤ (ram_state self.old).len }
        ensures keeps { Keeps (ram_state self.old) (ram_state self.new) }
        ensures cause { HasCause (ram_state self.old).failures
            (ram_state self.new).failures result }
        ensures called { (ram_state self.new).calls ≡ (ram_state self.old).calls + 1 }
        ensures honest { (ram_state self.new).IsHonest }
        ensures unchanged { IsUnchanged (ram_state self.old) (ram_state self.new) }
        ensures bytes { OnOk result
            (out.new ≡ slice_range (ram_state self.old).bytes at (at + length out.old)) }
        ensures succeeds { IsOk result }
    {
        self.calls.raise();
        let at = at as usize;
        out.copy_from_slice(&self.bytes[at..at + out.len()]);
        Ok(())
    }

    fn write(&mut self, at: u64, bytes: &[u8]) -> Result<(), DiskFault>
        requires { at + length bytes.now ≤ (ram_state self.old).len }
        ensures keeps { Keeps (ram_state self.old) (ram_state self.new) }
        ensures cause { HasCause (ram_state self.old).failures
            (ram_state self.new).failures result }
        ensures called { (ram_state self.new).calls ≡ (ram_state self.old).calls + 1 }
        ensures range { WritesWithin at (length bytes.now)
            (ram_state self.old) (ram_state self.new) }
        ensures bytes { OnOk result
            (slice_range (ram_state self.new).bytes at (at + length bytes.now) ≡ bytes.now) }
        ensures marked { OnOk result (IsMarked at (length bytes.now) (ram_state self.new)) }
        ensures succeeds { IsOk result }
    {
        self.calls.raise();
        overwrite(&mut self.bytes, at as usize, bytes);
        let _ = self.history.wrote(at, bytes, Ok(()));
        Ok(())
    }

    fn sync(&mut self) -> Result<(), DiskFault>
        ensures keeps { Keeps (ram_state self.old) (ram_state self.new) }
        ensures cause { HasCause (ram_state self.old).failures
            (ram_state self.new).failures result }
        ensures called { (ram_state self.new).calls ≡ (ram_state self.old).calls + 1 }
        ensures still { IsStill (ram_state self.old) (ram_state self.new) }
        ensures firm { OnOk result (IsFirm (ram_state self.new)) }
        ensures succeeds { IsOk result }
    {
        self.calls.raise();
        let _ = self.history.synced(Ok(()));
        Ok(())
    }
}
