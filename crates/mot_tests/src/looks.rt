//! A look does not read a file again that was not changed.
use crate::disks::new_server;
use mot_base::Geometry;
use mot_files::Kind;
use mot_folder::{FileTypes, Folder, Guard, look_at_folder};
use mot_memory_files::{MachineSystem, World};
use mot_shelf::FolderReader;
use std::alloc::{AllocError, Global};
use std::cell::RefCell;
use std::test::Fail;

/// A folder of two files, whose last change is so long ago.
fn folder_of(alloc: Global, age: u64) -> Result<World, AllocError> {
    let mut world = World::new(alloc, 0);
    world.place_other("folder", Kind::Folder)?;
    world.place_file("folder/a.txt", b"one")?;
    world.place_file("folder/b.txt", b"two")?;
    world.clock = world.clock.wrapping_add(age);
    Ok(world)
}

/// Of so many looks at a folder of two files, whose last change is so long ago: how many calls the
/// machine got, and of how many files it is known then that they need not be read.
fn looked(alloc: Global, looks: u64, age: u64) -> Result<(u64, usize), Fail> {
    let world = RefCell::new(folder_of(alloc, age)?);
    let known = known_after(alloc, &world, looks)?;
    match world.try_borrow() {
        Ok(w) => Ok((w.steps, known)),
        Err(_) => Err(Fail::from("in use")),
    }
}

/// Of how many files that is known after so many looks.
fn known_after(alloc: Global, world: &RefCell<World>, looks: u64) -> Result<usize, Fail> {
    let types = FileTypes::new(alloc)?;
    let shelf = FolderReader::new(MachineSystem::new(world), "folder", true);
    let mut folder = Folder::new(alloc, shelf, &types, Guard::Empty);
    let Ok(mut server) = new_server(alloc, &Geometry::default()) else {
        return Err(Fail::from("unopened"));
    };
    for _ in 0..looks {
        if look_at_folder(alloc, &mut server, &mut folder).is_err() {
            return Err(Fail::from("refused"));
        }
    }
    Ok(folder.files.known.len())
}

/// How many calls the last of so many looks makes, at files whose last change is so long ago.
fn calls_of_last(alloc: Global, looks: u64, age: u64) -> Result<u64, Fail> {
    let (before, _) = looked(alloc, looks.saturating_sub(1), age)?;
    let (all, _) = looked(alloc, looks, age)?;
    Ok(all.saturating_sub(before))
}

// It opens the folder, reads its names, finds that there are no further ones, and closes it; of each
// name it asks once whether it is a file's, and with which stamp.
#[test]
fn unchanged_files_are_not_read(rt: HostRuntime) -> Result<(), Fail> {
    let age = 3_000_000_000;
    assert_eq!(rt; looked(rt.alloc(), 1, age)?.1, 2);
    assert_eq!(rt; calls_of_last(rt.alloc(), 2, age)?, 6);
    assert_eq!(rt; calls_of_last(rt.alloc(), 3, age)?, 6);
    Ok(())
}

#[test]
fn young_files_are_read_again(rt: HostRuntime) -> Result<(), Fail> {
    assert_eq!(rt; looked(rt.alloc(), 1, 0)?.1, 0);
    let first = calls_of_last(rt.alloc(), 1, 0)?;
    assert!(rt; calls_of_last(rt.alloc(), 2, 0)? > 8);
    assert!(rt; first > 8);
    Ok(())
}
