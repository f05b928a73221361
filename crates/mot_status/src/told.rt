//! A try to write the status, and what the log has of it.
use mot_endpoints::{PacketsFault, StatusFile};
use mot_events::{Event, LookEvent, Tells};
use mot_files::System;
use mot_log::{Counters, EventLog, Figures, write_status};
use std::alloc::Global;
use std::io::Write;

/// Makes the text of the status, and hands it to its file.
pub(crate) fn hand<S: System + Drop>(
    status: &mut StatusFile<'_, S>,
    text: &mut Vec<u8>,
    alloc: Global,
    figures: &Figures<'_>,
    counters: &Counters,
    events: &[LookEvent],
) -> Result<(), PacketsFault> {
    match write_status(text, alloc, figures, counters, events) {
        Ok(()) => status.write(text.as_slice()),
        Err(error) => Err(PacketsFault::from(error)),
    }
}

/// Tells that the status of this path was not written, if the last one was, or that it is written
/// again; whether it was not.
pub(crate) fn tell_written<W: Write + Drop>(
    log: &mut EventLog<W>,
    alloc: Global,
    path: &str,
    was_unwritten: bool,
    written: Result<(), PacketsFault>,
) -> bool {
    match written {
        Ok(()) => {
            if was_unwritten {
                log.tell(&Event::StatusWritten(path.as_bytes()));
            }
            false
        }
        Err(fault) => {
            if !was_unwritten {
                tell_fault(log, alloc, path, fault);
            }
            true
        }
    }
}

/// Tells that the status of this path was not written.
fn tell_fault<W: Write + Drop>(
    log: &mut EventLog<W>,
    alloc: Global,
    path: &str,
    fault: PacketsFault,
) {
    let path = path.as_bytes();
    match format!(in alloc; "{fault}") {
        Ok(reason) => log.tell(&Event::StatusRefused(path, reason.as_bytes())),
        Err(_) => log.tell(&Event::StatusRefused(path, b"out of memory")),
    }
}
