//! The text of the status, in the exposition format of Prometheus.
use crate::Counters;
use crate::text::{add, add_name, add_number, add_reason, add_refusal};
use mot_events::{LookEvent, LookResult, LookStep, is_listed};
use mot_numbers::Refusal;
use mot_objects::Object;
use std::alloc::{AllocError, Global};

/// What is known of a carousel on air, beside what happened.
#[derive(Clone, Copy)]
pub struct Figures<'a> {
    /// The path of its disk.
    pub disk: &'a str,
    /// The version of the program.
    pub version: &'a str,
    /// The objects, in the order of the directory.
    pub objects: &'a [Object],
    /// The transport id of the directory.
    pub directory: u64,
    /// The checksum of the directory's bytes; 0 if it is not known.
    pub checksum: u64,
    /// How many packets a turn has.
    pub turn_packets: u64,
    /// How many bytes these have.
    pub turn_bytes: u64,
    /// How many bytes are free for bodies.
    pub free: u64,
    /// The longest body that has room in one piece.
    pub gap: u64,
    /// How many objects the disk holds.
    pub objects_limit: u64,
    /// How many bytes the disk has for bodies.
    pub data_bytes: u64,
    /// When the program made the last change, in seconds since 1970; 0 if it made none.
    pub last_change: u64,
    /// When the status is written, in seconds since 1970; 0 if the system does not say.
    pub written: u64,
}

// The table of families: what each is, its type, and its name, which begins a sample of it.

const PACKETS: &str = "\
# HELP motcar_packets_total Packets that were taken.
# TYPE motcar_packets_total counter
motcar_packets_total";

const TURNS: &str = "\
# HELP motcar_turns_total Turns that have ended.
# TYPE motcar_turns_total counter
motcar_turns_total";

const LOOKS: &str = "\
# HELP motcar_looks_total Looks at the folder.
# TYPE motcar_looks_total counter
motcar_looks_total";

const CHANGES: &str = "\
# HELP motcar_changes_total Commands that were done.
# TYPE motcar_changes_total counter
motcar_changes_total";

const REFUSALS: &str = "\
# HELP motcar_refusals_total Refusals that were logged.
# TYPE motcar_refusals_total counter
motcar_refusals_total";

const LINE_REFUSALS: &str = "\
# HELP motcar_line_refusals_total Refusals of lines of files, and of these files.
# TYPE motcar_line_refusals_total counter
motcar_line_refusals_total";

const GOINGS: &str = "\
# HELP motcar_mass_withdrawals_total How often more than half of the objects went.
# TYPE motcar_mass_withdrawals_total counter
motcar_mass_withdrawals_total";

const OBJECTS: &str = "\
# HELP motcar_objects Objects of the carousel.
# TYPE motcar_objects gauge
motcar_objects";

const DIRECTORY: &str = "\
# HELP motcar_directory_id Transport id of the directory.
# TYPE motcar_directory_id gauge
motcar_directory_id";

const CHECKSUM: &str = "\
# HELP motcar_directory_checksum Checksum of the bytes of the directory.
# TYPE motcar_directory_checksum gauge
motcar_directory_checksum";

const TURN_PACKETS: &str = "\
# HELP motcar_turn_packets Packets of a turn.
# TYPE motcar_turn_packets gauge
motcar_turn_packets";

const TURN_BYTES: &str = "\
# HELP motcar_turn_bytes Bytes of the packets of a turn.
# TYPE motcar_turn_bytes gauge
motcar_turn_bytes";

const FREE: &str = "\
# HELP motcar_free_bytes Bytes that are free for bodies.
# TYPE motcar_free_bytes gauge
motcar_free_bytes";

const GAP: &str = "\
# HELP motcar_gap_bytes The longest body that has room.
# TYPE motcar_gap_bytes gauge
motcar_gap_bytes";

const OBJECTS_LIMIT: &str = "\
# HELP motcar_objects_limit Objects that the disk holds.
# TYPE motcar_objects_limit gauge
motcar_objects_limit";

const DATA: &str = "\
# HELP motcar_data_bytes Bytes that the disk has for bodies.
# TYPE motcar_data_bytes gauge
motcar_data_bytes";

const LAST_CHANGE: &str = "\
# HELP motcar_last_change_seconds Seconds from 1970 to the last change; 0 if there was none.
# TYPE motcar_last_change_seconds gauge
motcar_last_change_seconds";

const WRITTEN: &str = "\
# HELP motcar_status_seconds Seconds from 1970 to when this was written; 0 if that is not known.
# TYPE motcar_status_seconds gauge
motcar_status_seconds";

const LISTED: &str = "\
# HELP motcar_folder_listed Whether the folder was listed.
# TYPE motcar_folder_listed gauge
motcar_folder_listed";

const VERSION: &str = "\
# HELP motcar_info The version of the program.
# TYPE motcar_info gauge
motcar_info";

const REFUSED: &str = "\
# HELP motcar_refused_total Refusals that were logged, by their reasons.
# TYPE motcar_refused_total counter
";

const FILES_REFUSED: &str = "\
# HELP motcar_file_refused A file that the last look refused, and why.
# TYPE motcar_file_refused gauge
";

const ON_AIR: &str = "\
# HELP motcar_object An object on air, and how many bytes it has.
# TYPE motcar_object gauge
";

/// The refusals that a log can have.
const COUNTED: [Refusal; 17] = [
    Refusal::BadLine,
    Refusal::BadName,
    Refusal::BadType,
    Refusal::BadMime,
    Refusal::BadBody,
    Refusal::EmptyBody,
    Refusal::BodyTooLong,
    Refusal::BadNumber,
    Refusal::NameTaken,
    Refusal::NoSuchName,
    Refusal::TooManyObjects,
    Refusal::NoRoom,
    Refusal::OutOfMemory,
    Refusal::DeviceFault,
    Refusal::Halted,
    Refusal::ReadFault,
    Refusal::WriteFault,
];

/// Makes the text that of these figures, of what happened, and of what the last look met: with a
/// sample for each file that it refused, of files that are shown alike for the first; and one for
/// each object.
pub fn write_status(
    text: &mut Vec<u8>,
    alloc: Global,
    figures: &Figures<'_>,
    counters: &Counters,
    events: &[LookEvent],
) -> Result<(), AllocError> {
    let mut disk = Vec::new(alloc);
    add_label(&mut disk, "{disk=\"", figures.disk.as_bytes())?;
    let disk = disk.as_slice();
    text.clear();
    for (family, value) in values_of(figures, counters, events) {
        begin_sample(text, family, disk)?;
        end_sample(text, value)?;
    }
    add_version(text, disk, figures.version)?;
    add_refusals(text, disk, counters)?;
    add_files(text, alloc, disk, events)?;
    add_objects(text, alloc, disk, figures.objects)
}

/// The values of the families that have one sample.
fn values_of(
    figures: &Figures<'_>,
    counters: &Counters,
    events: &[LookEvent],
) -> [(&'static str, u64); 19] {
    [
        (PACKETS, counters.packets),
        (TURNS, counters.turns),
        (LOOKS, counters.looks),
        (CHANGES, counters.changes),
        (REFUSALS, counters.refusals),
        (LINE_REFUSALS, counters.line_refusals),
        (GOINGS, counters.goings),
        (OBJECTS, figures.objects.len() as u64),
        (DIRECTORY, figures.directory),
        (CHECKSUM, figures.checksum),
        (TURN_PACKETS, figures.turn_packets),
        (TURN_BYTES, figures.turn_bytes),
        (FREE, figures.free),
        (GAP, figures.gap),
        (OBJECTS_LIMIT, figures.objects_limit),
        (DATA, figures.data_bytes),
        (LAST_CHANGE, figures.last_change),
        (WRITTEN, figures.written),
        (LISTED, u64::from(is_listed(events))),
    ]
}

/// Adds the name of a sample of a family, with what stands in front of it, and its first label, that
/// of the disk.
fn begin_sample(text: &mut Vec<u8>, name: &str, disk: &[u8]) -> Result<(), AllocError> {
    add(text, name)?;
    text.extend_from_slice(disk)
}

/// Ends a sample by its value.
fn end_sample(text: &mut Vec<u8>, value: u64) -> Result<(), AllocError> {
    add(text, "} ")?;
    add_number(text, value)?;
    text.push(b'\n')?;
    Ok(())
}

/// Adds a label: what stands in front of its value, and the value.
fn add_label(text: &mut Vec<u8>, front: &str, value: &[u8]) -> Result<(), AllocError> {
    add(text, front)?;
    for byte in value {
        match *byte {
            b'\\' => add(text, "\\\\")?,
            b'"' => add(text, "\\\"")?,
            b'\n' => add(text, "\\n")?,
            other => text.push(other)?,
        }
    }
    text.push(b'"')?;
    Ok(())
}

/// Adds which program it is.
fn add_version(text: &mut Vec<u8>, disk: &[u8], version: &str) -> Result<(), AllocError> {
    begin_sample(text, VERSION, disk)?;
    add_label(text, ",version=\"", version.as_bytes())?;
    end_sample(text, 1)
}

/// Adds how often each refusal came.
fn add_refusals(text: &mut Vec<u8>, disk: &[u8], counters: &Counters) -> Result<(), AllocError> {
    add(text, REFUSED)?;
    for refusal in &COUNTED {
        begin_sample(text, "motcar_refused_total", disk)?;
        add(text, ",reason=\"")?;
        add_refusal(text, *refusal)?;
        text.push(b'"')?;
        end_sample(text, counters.of(*refusal))?;
    }
    Ok(())
}

/// Adds a sample for each file that was refused.
fn add_files(
    text: &mut Vec<u8>,
    alloc: Global,
    disk: &[u8],
    events: &[LookEvent],
) -> Result<(), AllocError> {
    add(text, FILES_REFUSED)?;
    for (place, event) in events.iter().enumerate() {
        add_file(text, alloc, disk, &events[..place], event)?;
    }
    Ok(())
}

/// Adds the sample of a file, if it was refused, unless one of the events before it is shown alike.
fn add_file(
    text: &mut Vec<u8>,
    alloc: Global,
    disk: &[u8],
    before: &[LookEvent],
    event: &LookEvent,
) -> Result<(), AllocError> {
    let LookResult::Refused(step, refusal, why) = &event.outcome else {
        return Ok(());
    };
    let mut shown = Vec::new(alloc);
    add_name(&mut shown, event.name.as_bytes())?;
    if step.is_look() || has_alike(alloc, before, *step, shown.as_slice())? {
        return Ok(());
    }
    let mut reason = Vec::new(alloc);
    add_reason(&mut reason, *refusal, why)?;
    begin_sample(text, "motcar_file_refused", disk)?;
    add(text, ",command=\"")?;
    add(text, step.word())?;
    add_label(text, "\",name=\"", shown.as_slice())?;
    add_label(text, ",reason=\"", reason.as_slice())?;
    end_sample(text, 1)
}

/// Whether one of these is a refusal of this step, of a name that is shown so.
fn has_alike(
    alloc: Global,
    events: &[LookEvent],
    step: LookStep,
    shown: &[u8],
) -> Result<bool, AllocError> {
    for event in events {
        if matches!(event.outcome, LookResult::Refused(other, _, _) if other == step) {
            let mut other = Vec::new(alloc);
            add_name(&mut other, event.name.as_bytes())?;
            if shown == other.as_slice() {
                return Ok(true);
            }
        }
    }
    Ok(false)
}

/// Adds a sample for each of these objects: its name, its id, its version, and the length of its
/// body.
fn add_objects(
    text: &mut Vec<u8>,
    alloc: Global,
    disk: &[u8],
    objects: &[Object],
) -> Result<(), AllocError> {
    add(text, ON_AIR)?;
    for object in objects {
        let mut shown = Vec::new(alloc);
        add_name(&mut shown, object.name.as_bytes())?;
        begin_sample(text, "motcar_object", disk)?;
        add_label(text, ",name=\"", shown.as_slice())?;
        add(text, ",id=\"")?;
        add_number(text, u64::from(object.tid.get()))?;
        add(text, "\",version=\"")?;
        add_number(text, u64::from(object.version))?;
        add(text, "\"")?;
        end_sample(text, u64::from(object.length.get()))?;
    }
    Ok(())
}
