//! The questions that commands which only read are asked of a disk: `check`, `list`, `export`, `get`,
//! and a `copy`.
use crate::answers::{first_word, line_at};
use crate::living::{run, tells};
use crate::model::{Model, Open, body_in, disk_at, has_body, listed};
use crate::stop::{Stop, ask, held};
use disk_store::RamDisk;
use mot_memory_files::World;
use mot_playout::Server;
use std::alloc::Global;
use std::cell::RefCell;

/// What was printed by a command that is to be done, on a machine that is calm.
fn printed(
    alloc: Global,
    world: &RefCell<World>,
    words: &[&str],
    wrong: &'static str,
) -> Result<Vec<u8>, Stop> {
    let life = run(world, alloc, words, b"")?;
    held(world)?.exit();
    ask(life.status == 0 && life.errors.is_empty(), wrong)?;
    ask(life.log.is_shown(), "what a command prints is not flushed")?;
    Ok(Vec::from_slice(alloc, life.log.shown.as_slice())?)
}

/// Asks all questions of the disk at this path.
pub fn ask_all(alloc: Global, world: &RefCell<World>, path: &str) -> Result<(), Stop> {
    let list = printed(alloc, world, &["list", path], "list is refused")?;
    let check = printed(alloc, world, &["check", path], "check is refused")?;
    let lines = check.as_slice().strip_suffix(b"clean\nlayout 2\n");
    ask(
        !tells(check.as_slice(), b"not clean"),
        "check says that the disk is not clean",
    )?;
    ask(
        lines == Some(list.as_slice()),
        "check and list print other objects",
    )?;
    let export = printed(alloc, world, &["export", path], "export is refused")?;
    let w = held(world)?;
    judge_listed(alloc, &w, path, list.as_slice(), export.as_slice())
}

/// Whether the lines of `list` and of `export` are the objects of the disk.
fn judge_listed(
    alloc: Global,
    w: &World,
    path: &str,
    list: &[u8],
    export: &[u8],
) -> Result<(), Stop> {
    let mut server = disk_at(alloc, w, path)?;
    let count = server.carousel().objects.len();
    for place in 0..count {
        judge_place(alloc, &mut server, list, export, place)?;
    }
    let end = (count as u64).wrapping_add(1);
    ask(
        listed(list, end.wrapping_add(1)).is_none(),
        "list prints more objects",
    )?;
    let rest = first_word(line_at(export, end)).0;
    let wanted: &[u8] = match server.carousel().period.get() {
        0 => b"",
        _ => b"period",
    };
    ask(
        rest == wanted,
        "export prints more than the carousel, or less",
    )
}

/// Whether the object at this place stands in the lines of `list` and of `export`.
fn judge_place(
    alloc: Global,
    server: &mut Server<RamDisk>,
    list: &[u8],
    export: &[u8],
    place: usize,
) -> Result<(), Stop> {
    let number = (place as u64).wrapping_add(1);
    let Some((name, length)) = listed(list, number.wrapping_add(1)) else {
        return Err(Stop::Wrong("list prints too few objects"));
    };
    let is_name = match server.carousel().objects.get(place) {
        Some(object) => object.name.as_bytes() == name,
        None => false,
    };
    ask(is_name, "list prints another name")?;
    let Some(body) = body_in(alloc, line_at(export, number), name)? else {
        return Err(Stop::Wrong("export prints no line for an object"));
    };
    ask(
        body.len() as u64 == length,
        "list and export print other lengths",
    )?;
    ask(
        has_body(server, place, body.as_slice()),
        "export prints another body",
    )
}

/// The words that make a copy.
const COPY: &[&str] = &[
    "copy",
    "d.disk",
    "n.disk",
    "--objects",
    "14",
    "--data",
    "6000",
];

/// Makes a copy of the disk, and compares both; and what an object's body is by `get`.
pub fn ask_copy(alloc: Global, world: &RefCell<World>, model: &mut Model) -> Result<(), Stop> {
    printed(alloc, world, COPY, "copy is refused")?;
    let first = printed(alloc, world, &["export", "d.disk"], "export is refused")?;
    let second = printed(
        alloc,
        world,
        &["export", "n.disk"],
        "export of a copy is refused",
    )?;
    ask(
        first.as_slice() == second.as_slice(),
        "a copy has another carousel",
    )?;
    model.compare(&*held(world)?, "n.disk", Open::Nothing)?;
    ask_body(alloc, world, line_at(first.as_slice(), 1))
}

/// What the body of the copy's first object is by `get`; its line of `export` is given.
fn ask_body(alloc: Global, world: &RefCell<World>, line: &[u8]) -> Result<(), Stop> {
    let name = first_word(first_word(line).1).0;
    let Ok(text) = str::from_utf8(name) else {
        return Ok(());
    };
    if first_word(line).0 != b"put".as_slice() {
        return Ok(());
    }
    let body = printed(alloc, world, &["get", "n.disk", text], "get is refused")?;
    match body_in(alloc, line, name)? {
        Some(wanted) => ask(
            wanted.as_slice() == body.as_slice(),
            "get prints another body",
        ),
        None => Ok(()),
    }
}
