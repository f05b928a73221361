//! Whether the status is whole and true.
use crate::living::tells;
use crate::model::{disk_at, number_of};
use crate::stop::{Stop, ask};
use mot_memory_files::World;
use std::alloc::Global;

/// The path of the status.
const STATUS: &str = "status.prom";

/// Whether the status, if one is there, is a whole text.
pub fn judge_whole(w: &World) -> Result<(), Stop> {
    let Some(text) = w.file_at(STATUS) else {
        return Ok(());
    };
    ask(
        text.starts_with(b"# HELP motcar_packets_total")
            && text.ends_with(b"\n")
            && !text.contains(&0),
        "the status is neither the old one nor the new one",
    )?;
    ask(
        tells(text, b"# TYPE motcar_info gauge"),
        "the status lacks its end",
    )
}

/// The number of this sample.
fn sample(text: &[u8], name: &[u8]) -> Option<u64> {
    let line = text
        .split(|byte| *byte == b'\n')
        .find(|line| line.starts_with(name))?;
    let value = line.rsplit(|byte| *byte == b' ').next()?;
    Some(number_of(value))
}

/// Whether the status is that of a life which ended after so many packets and turns, with this disk.
pub fn judge_true(alloc: Global, w: &World, packets: u64, turns: u64) -> Result<(), Stop> {
    let Some(text) = w.file_at(STATUS) else {
        return Err(Stop::Wrong("there is no status"));
    };
    let server = disk_at(alloc, w, "d.disk")?;
    let objects = server.carousel().objects.len() as u64;
    let directory = u64::from(server.carousel().directory.get());
    ask(
        sample(text, b"motcar_packets_total{") == Some(packets),
        "the status counts other packets",
    )?;
    ask(
        sample(text, b"motcar_turns_total{") == Some(turns),
        "the status counts other turns",
    )?;
    ask(
        sample(text, b"motcar_objects{") == Some(objects),
        "the status counts other objects",
    )?;
    ask(
        sample(text, b"motcar_directory_id{") == Some(directory),
        "the status has another directory",
    )
}
