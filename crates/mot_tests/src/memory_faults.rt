//! The machine in memory fails, dies and changes as its plan says.
use crate::expecting::expect;
use crate::memory_folder::{crash, given, is_file, machine};
use disk_store::{DiskFile, DiskFiles};
use mot_files::{How, System};
use mot_memory_files::{Call, MachineSystem, MemoryMachine, Plan, Reach, World};
use std::alloc::Global;
use std::cell::RefCell;
use std::test::Fail;

/// How often the machine reached this.
fn times(world: &RefCell<World>, what: Reach) -> u64 {
    match world.try_borrow() {
        Ok(w) => w.times(what),
        Err(_) => 0,
    }
}

/// From now on it goes by this plan.
fn set_plan(world: &RefCell<World>, plan: Plan) {
    if let Ok(mut w) = world.try_borrow_mut() {
        w.plan = plan;
    }
}

#[test]
fn what_is_done_may_fail(rt: HostRuntime) -> Result<(), Fail> {
    let plan = Plan {
        late: 1,
        ..Plan::calm()
    };
    let world = machine(rt.alloc(), 0, plan)?;
    let mut system = MachineSystem::new(&world);
    let answer = system.rename("folder/second", "folder/first");
    expect(&rt, answer.is_ok(), false);
    expect(&rt, is_file(&world, "folder/first", b"four"), true);
    Ok(())
}

#[test]
fn a_write_ends_at_the_room(rt: HostRuntime) -> Result<(), Fail> {
    let plan = Plan {
        room: 3,
        ..Plan::calm()
    };
    let world = machine(rt.alloc(), 0, plan)?;
    let mut system = MachineSystem::new(&world);
    let handle = given(system.open("folder/third", How::New))?;
    expect(&rt, given(system.write(handle, b"five")), Ok(3));
    expect(&rt, given(system.write(handle, b"e")), Err("refused"));
    expect(&rt, is_file(&world, "folder/third", b"fiv"), true);
    Ok(())
}

#[test]
fn nothing_is_done_after_the_death(rt: HostRuntime) -> Result<(), Fail> {
    let plan = Plan {
        stop: 2,
        ..Plan::calm()
    };
    let world = machine(rt.alloc(), 0, plan)?;
    let mut system = MachineSystem::new(&world);
    expect(&rt, system.look("folder/first").is_ok(), true);
    expect(&rt, system.remove("folder/first").is_ok(), false);
    expect(&rt, system.look("folder/first").is_ok(), false);
    expect(&rt, is_file(&world, "folder/first", b"one two three"), true);
    expect(&rt, times(&world, Reach::Died(Call::Remove)), 1);
    Ok(())
}

/// Reads all names in small pieces, and how many bytes they were; an error if a read is refused.
fn list(world: &RefCell<World>) -> Result<usize, &'static str> {
    let mut system = MachineSystem::new(world);
    let handle = given(system.open("folder", How::Folder))?;
    let mut room = [0u8; 8];
    let mut sum = 0usize;
    for _ in 0..100 {
        let count = given(system.read(handle, &mut room))?;
        if count == 0 {
            return Ok(sum);
        }
        sum = sum.wrapping_add(count);
    }
    Err("no end")
}

#[test]
fn a_listing_breaks_off(rt: HostRuntime) -> Result<(), Fail> {
    let world = machine(rt.alloc(), 3, Plan::calm())?;
    expect(&rt, list(&world), Ok(b".\0..\0first\0second\0".len()));
    set_plan(
        &world,
        Plan {
            listing_faults: 1,
            ..Plan::calm()
        },
    );
    expect(&rt, list(&world), Err("refused"));
    Ok(())
}

// The name that comes is given too; what was given before is given once more.
#[test]
fn a_folder_changes_while_it_is_listed(rt: HostRuntime) -> Result<(), Fail> {
    let plan = Plan {
        listing_changes: 2,
        ..Plan::calm()
    };
    let world = machine(rt.alloc(), 0, plan)?;
    if let Ok(mut w) = world.try_borrow_mut() {
        w.names = &["folder/first", "folder/third"];
        w.texts = &[b"six"];
    }
    expect(&rt, list(&world).is_ok(), true);
    expect(&rt, times(&world, Reach::Stirred) > 0, true);
    Ok(())
}

/// A disk at its path, on which these bytes were written and synced, and then others, of which the
/// sync failed; what a second sync says, and what is there after a crash.
fn disk_after(alloc: Global, seed: u64) -> Result<(bool, bool), Fail> {
    let world = machine(alloc, seed, Plan::calm())?;
    write_disk(&world, alloc)?;
    set_plan(
        &world,
        Plan {
            disk_sync_faults: 1,
            ..Plan::calm()
        },
    );
    let is_synced = write_again(&world, alloc)?;
    crash(&world)?;
    Ok((is_synced, is_file(&world, "disk", b"new")))
}

/// Makes the disk, and its name last.
fn write_disk(world: &RefCell<World>, alloc: Global) -> Result<(), Fail> {
    let machine = MemoryMachine::new(world, alloc);
    let disk = machine.make_disk("disk")?;
    disk.write_all_at(b"old", 0)?;
    disk.sync_all()?;
    machine.sync_folder_of("disk")?;
    Ok(())
}

/// Writes other bytes, of which the first sync fails; whether the second one does not.
fn write_again(world: &RefCell<World>, alloc: Global) -> Result<bool, Fail> {
    let machine = MemoryMachine::new(world, alloc);
    let disk = machine.open_disk("disk")?;
    disk.write_all_at(b"new", 0)?;
    if disk.sync_data().is_ok() {
        return Err(Fail::from("synced"));
    }
    set_plan(world, Plan::calm());
    Ok(disk.sync_data().is_ok())
}

// The second sync says that it was done, and yet the bytes may go.
#[test]
fn a_failed_sync_is_forgotten(rt: HostRuntime) -> Result<(), Fail> {
    let mut lost = 0u64;
    for seed in 0..20 {
        let (is_synced, is_new) = disk_after(rt.alloc(), seed)?;
        expect(&rt, is_synced, true);
        if !is_new {
            lost = lost.wrapping_add(1);
        }
    }
    expect(&rt, lost > 0, true);
    Ok(())
}

#[test]
fn a_disk_fails_once(rt: HostRuntime) -> Result<(), Fail> {
    let world = machine(rt.alloc(), 0, Plan::calm())?;
    write_disk(&world, rt.alloc())?;
    let plan = Plan {
        disk_fault_at: 4,
        ..Plan::calm()
    };
    set_plan(&world, plan);
    expect(&rt, reads(&world, rt.alloc())?, [true, false, true]);
    Ok(())
}

/// Which of three reads of the disk give its bytes.
fn reads(world: &RefCell<World>, alloc: Global) -> Result<[bool; 3], Fail> {
    let machine = MemoryMachine::new(world, alloc);
    let disk = machine.open_disk("disk")?;
    let mut room = [0u8; 3];
    let first = disk.read_exact_at(&mut room, 0).is_ok();
    let second = disk.read_exact_at(&mut room, 0).is_ok();
    let third = disk.read_exact_at(&mut room, 0).is_ok();
    Ok([first, second, third])
}

#[test]
fn a_disk_has_its_lock_until_it_is_dropped(rt: HostRuntime) -> Result<(), Fail> {
    let world = machine(rt.alloc(), 0, Plan::calm())?;
    write_disk(&world, rt.alloc())?;
    expect(&rt, both_lock(&world, rt.alloc())?, (true, false));
    expect(&rt, both_lock(&world, rt.alloc())?, (true, false));
    Ok(())
}

/// Whether a first opening gets the lock, and a second one.
fn both_lock(world: &RefCell<World>, alloc: Global) -> Result<(bool, bool), Fail> {
    let machine = MemoryMachine::new(world, alloc);
    let first = machine.open_disk("disk")?;
    let second = machine.open_disk("disk")?;
    Ok((first.try_lock().is_ok(), second.try_lock().is_ok()))
}
