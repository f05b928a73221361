//! A copy of a disk, in memory.
ghost use Rattle.std.specs.Prelude.{◌≡◌, ◌⊎◌, length, min, take, Err, IfErr, IfOk, MatchResult};
ghost use Rattle.disk_model.specs.Disk.{IsFirm, OnlyReads, OnlySyncs, Rises};
ghost use Rattle.disk_store.specs.File.{ram_state};
ghost use Rattle.mot_sync_command.specs.Syncing.{IsCopy, IsUncopied};
ghost use Rattle.mot_numbers.specs.declared.refusal.Refusal.{Refusal};
ghost use Rattle.mot_numbers.specs.declared.refusal.Refusal.TheVariants.{DeviceFault, OutOfMemory};

use disk_model::Disk;
use disk_store::RamDisk;
use mot_numbers::Refusal;
use mot_repository::Repository;
use mot_update::Ended;
use std::alloc::Global;

/// Opens a disk, and copies the bytes that its geometry asks for into a disk in memory: the disk,
/// and the copy. The disk itself is only synced and read.
pub(crate) fn copy_disk<D: Disk>(alloc: Global, disk: D) -> Result<(D, RamDisk), Ended<D, bool>>
    ensures only_syncs { MatchResult result
        (λ both. OnlySyncs (D.state disk) (D.state both.0))
        (λ ended. OnlySyncs (D.state disk) (D.state ended.disk)) }
    ensures copied { IfOk result (λ both. IsCopy both.1 (D.state disk) (D.state both.0)) }
    ensures why { IfErr result (λ ended. (refusal : Refusal) × (ended.result ≡ Err refusal)
        × IsUncopied refusal (D.state disk) (D.state ended.disk)) }
{
    let (mut disk, length) = match Repository::open(alloc, disk) {
        Ok(repository) => {
            let length = repository.geometry().length();
            (repository.into_disk(), length)
        }
        Err(refused) => return Err(Ended::unopened(refused)),
    };
    match copy_bytes(alloc, &mut disk, length) {
        Ok(copy) => Ok((disk, copy)),
        Err(refusal) => Err(Ended {
            disk,
            result: Err(refusal),
            reason: None,
        }),
    }
}

/// A disk in memory of the first bytes of a disk, so many of them at most.
fn copy_bytes<D: Disk>(alloc: Global, disk: &mut D, most: u64) -> Result<RamDisk, Refusal>
    ensures only_reads { OnlyReads (D.state disk.old) (D.state disk.new) }
    ensures calm { IfOk result (λ copy.
        (D.state disk.new).failures ≡ (D.state disk.old).failures) }
    ensures bytes { IfOk result (λ copy. (D.state disk.new).IsHonest
        → (ram_state copy).bytes ≡ take (ram_state copy).len (D.state disk.old).bytes) }
    ensures len { IfOk result (λ copy. (ram_state copy).len ≡ min most (D.state disk.old).len) }
    ensures firm { IfOk result (λ copy. IsFirm (ram_state copy)) }
    ensures why { IfErr result (λ refusal. ((refusal ≡ OutOfMemory)
        × ((D.state disk.new).failures ≡ (D.state disk.old).failures))
        ⊎ ((refusal ≡ DeviceFault)
        × Rises (D.state disk.old).failures (D.state disk.new).failures)) }
{
    let count = most.min(disk.len());
    let Ok(mut bytes) = Vec::from_elem(alloc, 0u8, count as usize) else {
        return Err(Refusal::OutOfMemory);
    };
    let Some(mut copy) = RamDisk::new(alloc, count) else {
        return Err(Refusal::OutOfMemory);
    };
    let Ok(()) = disk.read(0, &mut bytes) else {
        return Err(Refusal::DeviceFault);
    };
    fill(&mut copy, &bytes);
    Ok(copy)
}

/// Makes these bytes those of a disk in memory that has as many, and syncs it.
fn fill(copy: &mut RamDisk, bytes: &[u8])
    requires { length bytes.now ≡ (ram_state copy.old).len }
    ensures bytes { (ram_state copy.new).bytes ≡ bytes.now }
    ensures len { (ram_state copy.new).len ≡ (ram_state copy.old).len }
    ensures firm { IsFirm (ram_state copy.new) }
{
    // Calls of a disk in memory do not fail.
    let _ = copy.write(0, bytes);
    let _ = copy.sync();
}
