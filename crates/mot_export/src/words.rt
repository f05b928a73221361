//! The figures of a disk for people. Rows of tests pin these words, and no clause does.
use crate::inspection::{Inspection, TurnTime};
use crate::json_line::JsonValue;
use crate::shown::disk_members;
use std::io::{Error, Write};

/// What the numbers of a disk are.
const LABELS: [&str; 16] = [
    "address of the packets",
    "bytes of a packet, at most",
    "bytes of a segment, at most",
    "objects",
    "more objects, at most",
    "bytes of bodies",
    "more bytes of bodies, at most",
    "bytes of the longest body that finds room",
    "slots of the log with a command",
    "more commands before the log is written anew",
    "packets of a turn",
    "bytes of a turn",
    "packets of the longest data group",
    "packets of the directory",
    "packets until a receiver has the directory, at most",
    "packets until it has all objects, at most",
];

/// What stands above the times.
const HEAD: &str = "\
Seconds of a turn (too long: a packet fits in no frame), in packets of at most
              24 bytes   48 bytes   72 bytes   96 bytes";

/// The lengths of packets in bytes.
const LENGTHS: [u64; 4] = [24, 48, 72, 96];

/// Writes the figures of a disk.
pub(crate) fn write_words<W: Write>(writer: &mut W, told: &Inspection) -> Result<(), Error> {
    write_disk(writer, told)?;
    write_times(writer, &told.times)?;
    write_best(writer, &told.times)
}

/// Writes the numbers of the disk.
fn write_disk<W: Write>(writer: &mut W, told: &Inspection) -> Result<(), Error> {
    for ((_, value), label) in disk_members(told).iter().zip(LABELS.iter()) {
        if let JsonValue::Count(number) = value {
            writeln!(writer, "{number:>10}  {label}")?;
        }
    }
    Ok(())
}

/// Writes how long a turn takes, a line a rate.
fn write_times<W: Write>(writer: &mut W, times: &[TurnTime]) -> Result<(), Error> {
    writeln!(writer, "\n{HEAD}")?;
    for time in times {
        write!(writer, "{:>4} kbit/s", time.rate)?;
        write_seconds(writer, time)?;
    }
    Ok(())
}

/// Writes how long a turn takes in packets of each length.
fn write_seconds<W: Write>(writer: &mut W, time: &TurnTime) -> Result<(), Error> {
    for length in LENGTHS {
        match in_packets(time, length) {
            Some(milliseconds) => {
                let tenths = milliseconds.div_ceil(100);
                write!(writer, "{:>9}.{}", tenths / 10, tenths % 10)?;
            }
            None => write!(writer, "{:>11}", "too long")?,
        }
    }
    writeln!(writer)
}

/// How many milliseconds a turn takes in packets of this length.
fn in_packets(time: &TurnTime, length: u64) -> Option<u64> {
    match length {
        24 => time.in_24,
        48 => time.in_48,
        72 => time.in_72,
        _ => time.in_96,
    }
}

/// Writes the length of packets that makes the shortest turn at most of the rates.
fn write_best<W: Write>(writer: &mut W, times: &[TurnTime]) -> Result<(), Error> {
    let (mut best, mut most) = (96, 0);
    for length in LENGTHS {
        let count = times
            .iter()
            .filter(|time| is_shortest(time, length))
            .count();
        if count >= most {
            (best, most) = (length, count);
        }
    }
    write!(writer, "Recommended: --packet {best}, the shortest turn")?;
    writeln!(writer, " at {most} of {} rates.", times.len())
}

/// Whether a turn in packets of this length is not longer than in others.
fn is_shortest(time: &TurnTime, length: u64) -> bool {
    match in_packets(time, length) {
        Some(own) => LENGTHS
            .iter()
            .filter_map(|other| in_packets(time, *other))
            .all(|other| own <= other),
        None => false,
    }
}
