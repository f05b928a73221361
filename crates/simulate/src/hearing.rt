//! What an operator was told in a life, taken over into the model; and what was removed meanwhile.
use crate::answers::{LogLines, are_lines, first_word, line_at, told_line};
use crate::commands::{Command, Manner, PUT, WITHDRAWN};
use crate::living::{Life, tells};
use crate::log::ShownLine;
use crate::model::{Model, body_in, is_path_of, number_of};
use crate::stop::{Stop, ask};
use mot_files::Kind;
use mot_memory_files::{Removed, World};
use std::alloc::{AllocError, Global};

/// So many nanoseconds after its last change a file is taken.
const OLD: u64 = 2_000_000_000;

/// Judges what was told, and takes it over into the model.
pub fn hear(
    alloc: Global,
    w: &mut World,
    model: &mut Model,
    life: &Life<'_>,
    manner: Manner,
) -> Result<(), Stop> {
    let is_flushed_at_once = manner.plays() || manner.command == Command::Serve;
    ask(
        !is_flushed_at_once || life.log.is_flushed() || w.is_dead(),
        "a line of the log waits",
    )?;
    ask(
        !manner.plays() || !tells(life.log.shown.as_slice(), b"16 Halted"),
        "playing went on after the disk had failed",
    )?;
    ask(w.waited == 0, "a pipe was opened, and would wait")?;
    let mut has_failed = false;
    for (number, moment) in life.log.lines.iter().enumerate() {
        let line = life.log.line(moment);
        ask(
            !has_failed || !is_done(line),
            "a command was done after a fault of the disk",
        )?;
        has_failed = has_failed || is_fault_of_command(line);
        hear_one(alloc, w, model, line, number, *moment, manner)?;
    }
    ask(
        !manner.is_exact || !answers_twice(alloc, life)?,
        "a line of a file was carried out twice",
    )?;
    judge_removed(alloc, w, life)
}

/// Whether the same line of the same file was carried out twice.
fn answers_twice(alloc: Global, life: &Life<'_>) -> Result<bool, AllocError> {
    let mut places: Vec<&[u8]> = Vec::new(alloc);
    for moment in &life.log.lines {
        let line = life.log.line(moment);
        if told_line(line).is_some() && is_done(line) {
            let place = first_word(first_word(line).1).0;
            if places.iter().any(|other| *other == place) {
                return Ok(true);
            }
            places.push(place)?;
        }
    }
    Ok(false)
}

/// Whether the line tells that a command was done.
fn is_done(line: &[u8]) -> bool {
    match told_line(line) {
        Some((_, _, reply)) => second_or_third(reply),
        None => second_or_third(line),
    }
}

/// Whether one of the first three words is `done`.
fn second_or_third(line: &[u8]) -> bool {
    let (first, rest) = first_word(line);
    let (second, rest) = first_word(rest);
    let (third, _) = first_word(rest);
    [first, second, third]
        .iter()
        .any(|word| *word == b"done".as_slice())
}

/// Whether the disk failed at a command, by which the server halts.
fn is_fault_of_command(line: &[u8]) -> bool {
    let line = match told_line(line) {
        Some((_, _, reply)) => reply,
        None => line,
    };
    let is_command = ["put ", "replace ", "withdraw ", "period ", "refused "]
        .iter()
        .any(|word| line.starts_with(word.as_bytes()));
    is_command && line.ends_with(b"refused 15 DeviceFault")
}

/// A line of what was printed.
fn hear_one(
    alloc: Global,
    w: &World,
    model: &mut Model,
    line: &[u8],
    number: usize,
    moment: ShownLine,
    manner: Manner,
) -> Result<(), Stop> {
    match manner.command {
        Command::TrySync | Command::Copy => Ok(()),
        Command::Put => hear_put(alloc, w, model, line, number),
        Command::Withdraw => {
            if let Some(name) = WITHDRAWN.get(number)
                && is_done(line)
            {
                model.withdraw(name.as_bytes());
            }
            Ok(())
        }
        Command::Serve => {
            let asked = line_at(manner.input_text(), (number as u64).wrapping_add(1));
            if first_word(line).0 == b"done".as_slice() {
                do_line(alloc, model, asked)?;
            }
            Ok(())
        }
        _ => hear_line(alloc, w, model, line, moment, manner),
    }
}

/// A reply of `put`: files are put in the order of the words.
fn hear_put(
    alloc: Global,
    w: &World,
    model: &mut Model,
    line: &[u8],
    number: usize,
) -> Result<(), Stop> {
    if let Some(name) = PUT.get(number)
        && is_done(line)
    {
        let bodies = versions_of(alloc, w, name.as_bytes(), u64::MAX)?;
        model.put(name.as_bytes(), bodies)?;
    }
    Ok(())
}

/// The line was carried out.
fn do_line(alloc: Global, model: &mut Model, line: &[u8]) -> Result<(), Stop> {
    let (command, rest) = first_word(line);
    let subject = first_word(rest).0;
    if command == b"withdraw".as_slice() {
        model.withdraw(subject);
    } else if command == b"period".as_slice() {
        model.period = u32::try_from(number_of(subject)).unwrap_or(0);
    } else {
        let mut bodies = Vec::new(alloc);
        if let Some(body) = body_in(alloc, line, subject)? {
            bodies.push(body)?;
        }
        ask(
            !bodies.is_empty(),
            "a line was carried out that no input has",
        )?;
        model.put(subject, bodies)?;
    }
    Ok(())
}

/// A line of the log of a look or of lines.
fn hear_line(
    alloc: Global,
    w: &World,
    model: &mut Model,
    line: &[u8],
    moment: ShownLine,
    manner: Manner,
) -> Result<(), Stop> {
    if let Some((file, number, reply)) = told_line(line) {
        return hear_answer(alloc, w, model, file, number, reply);
    }
    let (command, rest) = first_word(line);
    let (name, rest) = first_word(rest);
    if first_word(rest).0 != b"done".as_slice() {
        return Ok(());
    }
    if command == b"withdraw".as_slice() {
        ask(
            manner.jumps || !moment.is_withdrawn_wrongly,
            "an object was withdrawn whose file is there",
        )?;
        model.withdraw(name);
    } else if command == b"put".as_slice() || command == b"replace".as_slice() {
        ask(
            !manner.is_still || moment.is_firm,
            "an object was stored whose file would not last",
        )?;
        let latest = match manner.at_once || manner.jumps {
            true => u64::MAX,
            false => moment.clock.saturating_sub(OLD),
        };
        let bodies = versions_of(alloc, w, name, latest)?;
        ask(
            !bodies.is_empty(),
            "a file was taken that is too young, or is none",
        )?;
        model.put(name, bodies)?;
    }
    Ok(())
}

/// A reply to a line of a file.
fn hear_answer(
    alloc: Global,
    w: &World,
    model: &mut Model,
    file: &[u8],
    number: u64,
    reply: &[u8],
) -> Result<(), Stop> {
    let (command, rest) = first_word(reply);
    let (subject, rest) = first_word(rest);
    if first_word(rest).0 != b"done".as_slice() {
        return Ok(());
    }
    if command == b"withdraw".as_slice() || command == b"period".as_slice() {
        return do_line(alloc, model, reply);
    }
    let mut bodies = Vec::new(alloc);
    for version in &w.versions {
        if let Some(name) = version.path.as_str().strip_prefix("lines/")
            && name.as_bytes() == file
            && let Some(body) = body_in(
                alloc,
                line_at(version.bytes.as_slice(), number),
                subject,
            )?
        {
            bodies.push(body)?;
        }
    }
    ask(
        !bodies.is_empty(),
        "a line was carried out that no file has",
    )?;
    model.put(subject, bodies)?;
    Ok(())
}

/// The bodies that the file of this name had by this time. One with a time to come is old.
fn versions_of(
    alloc: Global,
    w: &World,
    name: &[u8],
    latest: u64,
) -> Result<Vec<Vec<u8>>, AllocError> {
    let mut bodies = Vec::new(alloc);
    for version in &w.versions {
        let is_old = version.written <= latest || version.written > version.kept;
        if is_old && is_path_of(version.path.as_str(), name) {
            bodies.push(Vec::from_slice(alloc, version.bytes.as_slice())?)?;
        }
    }
    Ok(bodies)
}

/// Judges what the program removed.
fn judge_removed(alloc: Global, w: &mut World, life: &Life<'_>) -> Result<(), Stop> {
    let log = life.log.shown.as_slice();
    let told = LogLines::of(alloc, log, 0)?;
    for removed in &w.removed {
        judge_one(&told, log, removed)?;
    }
    w.removed.clear();
    Ok(())
}

fn judge_one(told: &LogLines, log: &[u8], removed: &Removed) -> Result<(), Stop> {
    let path = removed.path.as_str();
    ask(
        !path.starts_with("objects/"),
        "a file of objects was removed",
    )?;
    let Some(name) = path.strip_prefix("lines/") else {
        return Ok(());
    };
    // What another program changed in front of the call, the program could not know.
    if removed.is_new {
        return Ok(());
    }
    let bytes = removed.bytes.as_slice();
    ask(
        name.ends_with(".lines") && removed.kind == Kind::File && are_lines(bytes),
        "a file was removed that is none of lines",
    )?;
    ask(
        told.answers_all(log, name.as_bytes(), bytes),
        "a file of lines was removed whose lines were not answered",
    )
}
