//! A folder that changes between its looks, over a folder in memory.
use crate::disks::{Server, new_server};
use crate::expecting::expect;
use mot_base::{Geometry, Refusal};
use mot_events::LookEvent;
use mot_files::Kind;
use mot_folder::{FileTypes, Folder, Guard, look_at_folder};
use mot_log::add_look_line;
use mot_memory_files::{MachineSystem, World};
use mot_shelf::FolderReader;
use std::alloc::Global;
use std::cell::RefCell;

/// Of a look: the paths of the files with their bytes, whether nobody may list the folder, whether a
/// folder without an object takes all off the air, and what is told.
type Look = (
    &'static [(&'static str, &'static [u8])],
    bool,
    bool,
    &'static [u8],
);

/// Both files come, and one that is none. Then the folder can't be listed. Then it has the first alone,
/// with other bytes; then none, at which the object is kept, and then withdrawn.
const LOOKS: [Look; 5] = [
    (
        &[
            ("folder/a.txt", b"one"),
            ("folder/b.txt", b"two"),
            ("folder/c.doc", b"none"),
        ],
        false,
        false,
        b"skip c.doc suffix\nput a.txt done object 2 directory 3\nput b.txt done object 4 directory 5\n",
    ),
    (
        &[("folder/a.txt", b"one")],
        true,
        false,
        b"look folder refused 22 ReadFault: Permission denied\n",
    ),
    (
        &[("folder/a.txt", b"six")],
        false,
        false,
        b"withdraw b.txt done directory 6\nreplace a.txt done object 7 directory 8\n",
    ),
    (&[], false, false, b"look folder empty, kept\n"),
    (
        &[],
        false,
        true,
        b"note folder 1 of 1 objects go\nwithdraw a.txt done directory 9\n",
    ),
];

/// A folder with these files, which nobody may list if it `is_denied`.
fn folder_of(
    alloc: Global,
    files: &[(&'static str, &'static [u8])],
    is_denied: bool,
) -> Result<World, Refusal> {
    let mut world = World::new(alloc, 0);
    world.place_other("folder", Kind::Folder)?;
    for (path, bytes) in files {
        world.place_file(path, bytes)?;
    }
    world.set_denied("folder", is_denied);
    Ok(world)
}

/// What is told of a look at this folder.
fn told_of(
    alloc: Global,
    server: &mut Server,
    world: World,
    allows_empty: bool,
) -> Result<Vec<u8>, Refusal> {
    let world = RefCell::new(world);
    let types = FileTypes::new(alloc)?;
    let shelf = FolderReader::new(MachineSystem::new(&world), "folder", true);
    let guard = Guard::of(allows_empty, true);
    let mut folder = Folder::new(alloc, shelf, &types, guard);
    look_at_folder(alloc, server, &mut folder)?;
    lines_of(alloc, folder.report.events.as_slice())
}

/// The lines of these events.
fn lines_of(alloc: Global, events: &[LookEvent]) -> Result<Vec<u8>, Refusal> {
    let mut lines = Vec::new(alloc);
    for event in events {
        add_look_line(&mut lines, event)?;
    }
    Ok(lines)
}

/// Whether a look is told so.
fn is_told(alloc: Global, server: &mut Server, look: Look) -> Result<bool, Refusal> {
    let (files, is_denied, allows_empty, told) = look;
    let world = folder_of(alloc, files, is_denied)?;
    let lines = told_of(alloc, server, world, allows_empty)?;
    Ok(lines.as_slice() == told)
}

/// How many of the looks, one after the other, are told so.
fn told_looks(alloc: Global, server: &mut Server) -> Result<usize, Refusal> {
    for (place, look) in LOOKS.iter().enumerate() {
        if !is_told(alloc, server, *look)? {
            return Ok(place);
        }
    }
    Ok(LOOKS.len())
}

/// The same of a new server.
fn new_told_looks(alloc: Global) -> Result<usize, Refusal> {
    let mut server = new_server(alloc, &Geometry::default())?;
    told_looks(alloc, &mut server)
}

#[test]
fn a_folder_that_changes_is_told(rt: HostRuntime) {
    expect(&rt, new_told_looks(rt.alloc()), Ok(LOOKS.len()));
}
