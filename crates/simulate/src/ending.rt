//! The end of a story: nothing comes, goes or fails. All lines are answered, their files go, and then the
//! disk and what is on air are the folder.
use crate::answers::are_lines;
use crate::asking::{ask_all, ask_copy};
use crate::commands::Manner;
use crate::hearing::hear;
use crate::living::{Life, run, tells};
use crate::model::{Open, disk_at, has_body, is_path_of};
use crate::receiver::Received;
use crate::status::{judge_true, judge_whole};
use crate::stop::{Stop, ask, held};
use crate::story::{LONGEST, Story};
use crate::texts::{NAMES, OBJECTS};
use mot_memory_files::{Plan, World};
use std::alloc::Global;

/// The calm end of a story.
pub fn end(story: &mut Story<'_>) -> Result<(), Stop> {
    play_stirred(story)?;
    play_calm(story)?;
    sync_again(story)?;
    ask_all(story.alloc, story.world, "d.disk")?;
    ask_copy(story.alloc, story.world, &mut story.model)
}

/// At first files still come and go, and then nothing does, in one life.
fn play_stirred(story: &mut Story<'_>) -> Result<(), Stop> {
    let at_once = stir(&mut *held(story.world)?);
    let manner = Manner {
        at_once,
        ..Manner::calm(false, story.has_jumped)
    };
    let words = manner.words(story.alloc)?;
    let life = run(story.world, story.alloc, words.as_slice(), b"")?;
    judge_stirred(story, &life, manner)?;
    let mut w = held(story.world)?;
    w.plan = Plan::calm();
    w.clock = w.clock.wrapping_add(10_000_000_000);
    Ok(())
}

/// Files come and go for so many calls. Whether young ones are taken.
fn stir(w: &mut World) -> bool {
    w.permit_all();
    w.clock = w.clock.wrapping_add(10_000_000_000);
    let until = w.steps.wrapping_add(200);
    let grain = w.one_of([1, 4_000_000, 1_900_000_000, 1_900_000_000]);
    let step = w.one_of([30_000_000, 30_000_000, 100_000_000, 300_000_000]);
    let changes = w.one_of([4, 8, 8, 20]);
    w.plan = Plan {
        changes,
        until,
        stop: w.steps.wrapping_add(LONGEST),
        step,
        grain,
        in_place: true,
        ..Plan::calm()
    };
    w.any(2) == 0
}

/// Judges that life: all lines are answered, and the disk and the status are what was told.
fn judge_stirred(story: &mut Story<'_>, life: &Life<'_>, manner: Manner) -> Result<(), Stop> {
    let mut w = held(story.world)?;
    hear(story.alloc, &mut w, &mut story.model, life, manner)?;
    ask(!w.is_dead(), "a calm life has no end")?;
    ask(
        life.status <= 1 && life.errors.is_empty(),
        "a calm life is refused",
    )?;
    w.exit();
    let packets = w.writes.len() as u64;
    let _received = story.air.take(&mut w)?;
    ask(!has_lines(&w), "a file of lines is left")?;
    judge_whole(&w)?;
    judge_true(story.alloc, &w, packets, manner.turns)?;
    story.model.compare(&w, "d.disk", story.doubt)?;
    if !story.is_tight {
        let _count = judge_folder(story.alloc, &w, None)?;
    }
    Ok(())
}

/// Two turns of what the folder has by then.
fn play_calm(story: &mut Story<'_>) -> Result<(), Stop> {
    let words = [
        "play",
        "d.disk",
        "packets",
        "--folder",
        "objects",
        "--turns",
        "2",
        "--allow-empty",
    ];
    let life = run(story.world, story.alloc, &words, b"")?;
    let mut w = held(story.world)?;
    hear(
        story.alloc,
        &mut w,
        &mut story.model,
        &life,
        Manner::calm(true, story.has_jumped),
    )?;
    ask(story.is_tight || life.status == 0, "a calm look is refused")?;
    w.exit();
    story.model.compare(&w, "d.disk", Open::Nothing)?;
    let received = story.air.take(&mut w)?;
    let count = disk_at(story.alloc, &w, "d.disk")?.carousel().objects.len();
    ask(
        received.listed() == Some(count),
        "the directory on air lists other objects",
    )?;
    if !story.is_tight {
        let files = judge_folder(story.alloc, &w, Some(&received))?;
        ask(files == count, "the disk has more than the folder")?;
    }
    Ok(())
}

/// The disk is right now, so nothing is touched.
fn sync_again(story: &mut Story<'_>) -> Result<(), Stop> {
    let life = run(
        story.world,
        story.alloc,
        &["sync", "d.disk", "objects", "--allow-empty"],
        b"",
    )?;
    held(story.world)?.exit();
    ask(
        !tells(life.log.shown.as_slice(), b" done "),
        "what was right was touched",
    )
}

/// Whether a file of lines is left that should be answered.
fn has_lines(w: &World) -> bool {
    NAMES.iter().any(|path| match (path.strip_prefix("lines/"), w.file_at(path)) {
        (Some(name), Some(bytes)) => name.ends_with(".lines")
            && !name.starts_with(".")
            && are_lines(bytes),
        _ => false,
    })
}

/// Whether each file of the folder is on the disk, and was received, if it is said what was; how many
/// they are.
fn judge_folder(alloc: Global, w: &World, received: Option<&Received>) -> Result<usize, Stop> {
    let mut count = 0usize;
    for path in OBJECTS {
        if let Some(bytes) = w.file_at(path)
            && !path.ends_with(".doc")
        {
            judge_file(alloc, w, path, bytes, received)?;
            count = count.wrapping_add(1);
        }
    }
    Ok(count)
}

fn judge_file(
    alloc: Global,
    w: &World,
    path: &str,
    bytes: &[u8],
    received: Option<&Received>,
) -> Result<(), Stop> {
    let mut server = disk_at(alloc, w, "d.disk")?;
    let place = server
        .carousel()
        .objects
        .iter()
        .position(|object| is_path_of(path, object.name.as_bytes()));
    let Some(place) = place else {
        return Err(Stop::Wrong("the disk lacks a file of the folder"));
    };
    ask(
        has_body(&mut server, place, bytes),
        "the disk has other bytes than the file of the folder",
    )?;
    let (Some(received), Some(object)) = (received, server.carousel().objects.get(place)) else {
        return Ok(());
    };
    ask(
        received.has(object.tid.get(), bytes),
        "an object was not on air",
    )
}
