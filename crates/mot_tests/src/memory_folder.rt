//! The machine in memory does what a machine does.
use crate::expecting::expect;
use mot_files::{Fault, FileStat, Handle, How, Kind, System};
use mot_memory_files::{MachineSystem, Plan, World};
use std::alloc::{AllocError, Global};
use std::cell::RefCell;
use std::test::Fail;

/// How many seeds a test of chance tries.
const SEEDS: u64 = 40;

/// A machine with a folder of two files, all of it synced, which goes on by this plan.
pub fn machine(alloc: Global, seed: u64, plan: Plan) -> Result<RefCell<World>, AllocError> {
    let mut world = World::new(alloc, seed);
    world.place_other("folder", Kind::Folder)?;
    world.place_file("folder/first", b"one two three")?;
    world.place_file("folder/second", b"four")?;
    world.make_all_firm()?;
    world.plan = plan;
    Ok(RefCell::new(world))
}

/// The same, whose reads and writes take so many bytes at most.
fn in_pieces(alloc: Global, piece: u64) -> Result<RefCell<World>, AllocError> {
    machine(
        alloc,
        0,
        Plan {
            piece,
            ..Plan::calm()
        },
    )
}

/// What the call gave.
pub fn given<T: Drop>(answer: Result<T, Fault>) -> Result<T, &'static str> {
    match answer {
        Ok(value) => Ok(value),
        Err(_) => Err("refused"),
    }
}

/// Whether the file of this path has these bytes.
pub fn is_file(world: &RefCell<World>, path: &str, bytes: &[u8]) -> bool {
    match world.try_borrow() {
        Ok(w) => match w.file_at(path) {
            Some(found) => found == bytes,
            None => false,
        },
        Err(_) => false,
    }
}

/// Whether a file of this path is there.
fn is_there(world: &RefCell<World>, path: &str) -> bool {
    match world.try_borrow() {
        Ok(w) => w.file_at(path).is_some(),
        Err(_) => false,
    }
}

/// The power goes, and comes back.
pub fn crash(world: &RefCell<World>) -> Result<(), &'static str> {
    match world.try_borrow_mut() {
        Ok(mut w) => match w.crash() {
            Ok(()) => Ok(()),
            Err(AllocError) => Err("no memory"),
        },
        Err(_) => Err("in use"),
    }
}

/// All that reads of the handle give, and whether each gave whole names.
fn read_all(
    system: &mut MachineSystem<'_>,
    alloc: Global,
    handle: Handle,
) -> Result<(Vec<u8>, bool), Fail> {
    let mut all = Vec::new(alloc);
    let mut whole = true;
    let mut room = [0u8; 16];
    for _ in 0..100 {
        let count = given(system.read(handle, &mut room))?;
        let bytes = room.get(..count).ok_or("too many")?;
        match bytes.last() {
            Some(last) => whole = whole && *last == 0,
            None => return Ok((all, whole)),
        }
        all.extend_from_slice(bytes)?;
    }
    Err(Fail::from("no end"))
}

/// What is read of a path that is opened so, and whether each read gave whole names.
fn read_path(
    world: &RefCell<World>,
    alloc: Global,
    path: &str,
    how: How,
) -> Result<(Vec<u8>, bool), Fail> {
    let mut system = MachineSystem::new(world);
    let handle = given(system.open(path, how))?;
    read_all(&mut system, alloc, handle)
}

#[test]
fn names_are_listed(rt: HostRuntime) -> Result<(), Fail> {
    let world = in_pieces(rt.alloc(), 3)?;
    let (names, whole) = read_path(&world, rt.alloc(), "folder/.", How::Folder)?;
    expect(&rt, whole, true);
    expect(&rt, names.len(), b".\0..\0first\0second\0".len());
    expect(&rt, is_opened(&world, "folder/first", How::Folder), false);
    Ok(())
}

/// Whether the path can be opened so.
fn is_opened(world: &RefCell<World>, path: &str, how: How) -> bool {
    MachineSystem::new(world).open(path, how).is_ok()
}

#[test]
fn a_handle_keeps_its_file(rt: HostRuntime) -> Result<(), Fail> {
    let world = in_pieces(rt.alloc(), 4)?;
    let (bytes, there) = read_removed(&world, rt.alloc())?;
    expect(&rt, there, false);
    expect(&rt, bytes.as_slice() == b"one two three".as_slice(), true);
    Ok(())
}

/// What is read of a file that was removed once it was open, and whether it is still there.
fn read_removed(world: &RefCell<World>, alloc: Global) -> Result<(Vec<u8>, bool), Fail> {
    let mut system = MachineSystem::new(world);
    let handle = given(system.open("folder/first", How::Read))?;
    given(system.remove("folder/first"))?;
    let there = system.look("folder/first").is_ok();
    let (bytes, _) = read_all(&mut system, alloc, handle)?;
    Ok((bytes, there))
}

#[test]
fn a_stale_handle_is_refused(rt: HostRuntime) -> Result<(), Fail> {
    let plan = Plan {
        stale: true,
        ..Plan::calm()
    };
    let world = machine(rt.alloc(), 0, plan)?;
    expect(&rt, is_read_once_removed(&world), Ok(false));
    Ok(())
}

/// Whether a file can be read that was removed once it was open.
fn is_read_once_removed(world: &RefCell<World>) -> Result<bool, &'static str> {
    let mut system = MachineSystem::new(world);
    let handle = given(system.open("folder/first", How::Read))?;
    given(system.remove("folder/first"))?;
    let mut room = [0u8; 4];
    Ok(system.read(handle, &mut room).is_ok())
}

#[test]
fn a_folder_is_not_removed(rt: HostRuntime) -> Result<(), Fail> {
    let world = in_pieces(rt.alloc(), 0)?;
    let mut system = MachineSystem::new(&world);
    expect(&rt, system.remove("folder").is_ok(), false);
    expect(&rt, system.remove("folder/second").is_ok(), true);
    expect(&rt, is_there(&world, "folder/second"), false);
    Ok(())
}

#[test]
fn a_lock_is_that_of_one_handle(rt: HostRuntime) -> Result<(), Fail> {
    let world = in_pieces(rt.alloc(), 0)?;
    expect(&rt, locks(&world), Ok((true, false, true)));
    Ok(())
}

/// Whether a first handle gets the lock, a second one, and that one once the first is closed.
fn locks(world: &RefCell<World>) -> Result<(bool, bool, bool), &'static str> {
    let mut system = MachineSystem::new(world);
    let first = given(system.open("folder/first", How::Stream))?;
    let second = given(system.open("folder/first", How::Stream))?;
    let takes = system.lock(first).is_ok();
    let takes_too = system.lock(second).is_ok();
    system.close(first);
    Ok((takes, takes_too, system.lock(second).is_ok()))
}

/// A new file of these bytes takes the place of the first one. It is synced, or its folder too.
fn replace(
    world: &RefCell<World>,
    bytes: &[u8],
    syncs: bool,
    syncs_folder: bool,
) -> Result<(), &'static str> {
    let mut system = MachineSystem::new(world);
    let handle = given(system.open("folder/third", How::New))?;
    let _count = given(system.write(handle, bytes))?;
    if syncs {
        given(system.sync(handle))?;
    }
    system.close(handle);
    given(system.rename("folder/third", "folder/first"))?;
    if !syncs_folder {
        return Ok(());
    }
    let folder = given(system.open("folder", How::Read))?;
    given(system.sync(folder))
}

#[test]
fn a_new_file_takes_a_place(rt: HostRuntime) -> Result<(), Fail> {
    let world = in_pieces(rt.alloc(), 0)?;
    expect(&rt, is_opened(&world, "folder/first", How::New), false);
    expect(&rt, replace(&world, b"five", false, false), Ok(()));
    expect(&rt, is_there(&world, "folder/third"), false);
    expect(&rt, is_file(&world, "folder/first", b"five"), true);
    Ok(())
}

/// After a replacement and a crash: of how many seeds the first file is the new one, the old one, or
/// another.
fn after_crashes(
    alloc: Global,
    syncs: bool,
    syncs_folder: bool,
) -> Result<(u64, u64, u64), &'static str> {
    let (mut new, mut old, mut other) = (0, 0, 0);
    for seed in 0..SEEDS {
        match after_crash(alloc, seed, syncs, syncs_folder)? {
            0 => new = u64::wrapping_add(new, 1),
            1 => old = u64::wrapping_add(old, 1),
            _ => other = u64::wrapping_add(other, 1),
        }
    }
    Ok((new, old, other))
}

/// 0 if it is the new one by this seed, 1 if it is the old one, else 2.
fn after_crash(
    alloc: Global,
    seed: u64,
    syncs: bool,
    syncs_folder: bool,
) -> Result<u8, &'static str> {
    let Ok(world) = machine(alloc, seed, Plan::calm()) else {
        return Err("no memory");
    };
    replace(&world, b"five six", syncs, syncs_folder)?;
    crash(&world)?;
    if is_file(&world, "folder/first", b"five six") {
        return Ok(0);
    }
    if is_file(&world, "folder/first", b"one two three") {
        return Ok(1);
    }
    Ok(2)
}

#[test]
fn what_is_synced_stays(rt: HostRuntime) {
    expect(
        &rt,
        after_crashes(rt.alloc(), true, true),
        Ok((SEEDS, 0, 0)),
    );
}

// The bytes are there under the new name, or the old file is.
#[test]
fn a_renaming_may_be_undone(rt: HostRuntime) -> Result<(), Fail> {
    let (new, old, other) = after_crashes(rt.alloc(), true, false)?;
    expect(&rt, (new > 0, old > 0, other), (true, true, 0));
    Ok(())
}

#[test]
fn loose_bytes_may_go(rt: HostRuntime) -> Result<(), Fail> {
    let (new, old, other) = after_crashes(rt.alloc(), false, true)?;
    expect(&rt, (new > 0, old, other > 0), (true, 0, true));
    Ok(())
}

#[test]
fn a_link_leads_elsewhere(rt: HostRuntime) -> Result<(), Fail> {
    let world = in_pieces(rt.alloc(), 0)?;
    if let Ok(mut w) = world.try_borrow_mut() {
        w.place_other("folder/first", Kind::Link)?;
    }
    let mut system = MachineSystem::new(&world);
    expect(&rt, is_kind(system.look("folder/first"), Kind::Link), true);
    expect(
        &rt,
        is_kind(system.follow("folder/first"), Kind::File),
        true,
    );
    let handle = given(system.open("folder/first", How::Read))?;
    expect(&rt, is_kind(system.look_at(handle), Kind::File), true);
    Ok(())
}

/// Whether the call tells of this.
fn is_kind(answer: Result<FileStat, Fault>, kind: Kind) -> bool {
    match answer {
        Ok(seen) => seen.kind == kind,
        Err(_) => false,
    }
}

#[test]
fn a_number_is_used_again(rt: HostRuntime) -> Result<(), Fail> {
    let world = in_pieces(rt.alloc(), 0)?;
    let mut system = MachineSystem::new(&world);
    let before = number_of(system.look("folder/first"));
    given(system.remove("folder/first"))?;
    given(system.open("folder/first", How::New))?;
    expect(&rt, number_of(system.look("folder/first")), before);
    expect(&rt, before > 0, true);
    Ok(())
}

/// The number that the call tells.
fn number_of(answer: Result<FileStat, Fault>) -> u64 {
    match answer {
        Ok(seen) => seen.number,
        Err(_) => 0,
    }
}
