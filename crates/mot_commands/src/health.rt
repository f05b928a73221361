//! What `health` does.
ghost use Rattle.std.specs.Prelude.{◌≡◌};
ghost use Rattle.mot_commands.specs.Health.{AsksHealth, TellsHealth, age_of, is_young};
ghost use Rattle.mot_numbers.specs.declared.refusal.Refusal.TheVariants.{OutOfMemory};
ghost use Rattle.mot_outcome.specs.Outcome.{Concludes, status_in};
ghost use Rattle.mot_playout.specs.Attempts.{fault_of};

use disk_store::{OpenFault, Start};
use mot_cli::{Form, HealthTask};
use mot_endpoints::{Host, Machine};
use mot_export::{JsonValue, add_json_line};
use mot_files::{Fault, FileStat, System, Time, is_regular};
use mot_outcome::{TaskEnd, UsedDisk, print_text};
use std::alloc::{AllocError, Global};
use std::io::Write;

/// How many seconds ago a status was written at most, if no number is given. At the slowest rate,
/// 8 kbit/s, it is written every 96 seconds.
const MAX_AGE: u32 = 120;

/// Why a status is not written again.
const STILL: &str = "packets stand still; nobody reads them, the folder hangs, or motcar has ended";

/// How many nanoseconds a second has.
const NANOS: u128 = 1_000_000_000;

/// Asks the system when the status of a disk on air was written last, and prints a line of that. The
/// file is not opened. Its result tells whether the disk sends packets.
pub fn tell_health<S: Start, W: Write, M: Machine + Drop>(
    host: &mut Host<M>,
    alloc: Global,
    asked: &HealthTask<'_>,
    start: S,
    writer: &mut W,
) -> TaskEnd<S, bool>
    ensures ended { Concludes (λ r. r ≡ OutOfMemory)
        (λ all ending. TellsHealth ending result.disk (W.contents writer.old) (W.contents writer.new))
        result.result result.disk (W.contents writer.old) (W.contents writer.new) }
    ensures asked { AsksHealth asked.now (status_in result.result) (fault_of result.result)
        (M.System.calls host.old.system) (M.System.calls host.new.system) }
{
    let seen = host.system.follow(asked.status);
    let now = host.system.now();
    let well = is_well(asked.max_age.unwrap_or(MAX_AGE), age_of(seen, now));
    let printed = print_text(writer, text_of(alloc, asked, seen, now, well));
    TaskEnd {
        result: printed.map(|()| well),
        disk: UsedDisk::Untouched(start),
        cause: None,
        reason: None,
    }
}

/// Whether it was written so many seconds ago at most.
fn is_well(most: u32, age: Option<u128>) -> bool
    ensures { result ≡ is_young most age }
{
    age.is_some_and(|age| age <= u128::from(most))
}

/// How many whole seconds ago a regular file was written, if that is known; none, if it is yet to
/// come.
fn age_of(seen: Result<FileStat, Fault>, now: Option<Time>) -> Option<u128>
    ensures { result ≡ age_of seen now }
{
    match (seen, now) {
        (Ok(seen), Some(now)) if is_regular(&seen) => {
            Some(now.nanos.saturating_sub(seen.written.nanos) / NANOS)
        }
        _ => None,
    }
}

/// What is printed of a status of which the system said this.
fn text_of(
    alloc: Global,
    asked: &HealthTask<'_>,
    seen: Result<FileStat, Fault>,
    now: Option<Time>,
    well: bool,
) -> Result<Vec<u8>, AllocError> {
    let line = line_of(alloc, asked.status, seen, now, well)?;
    if let Form::Words = asked.form {
        let mut text = line.into_bytes();
        text.push(b'\n')?;
        return Ok(text);
    }
    let age = age_of(seen, now).and_then(|age| u64::try_from(age).ok());
    let members = [
        ("ok", JsonValue::Flag(well)),
        ("age", JsonValue::maybe(age)),
        ("line", JsonValue::Text(line.as_str())),
    ];
    add_json_line(Vec::new(alloc), &members)
}

/// The line about a status of which the system said this.
fn line_of(
    alloc: Global,
    path: &str,
    seen: Result<FileStat, Fault>,
    now: Option<Time>,
    well: bool,
) -> Result<String, AllocError> {
    if let Some(age) = age_of(seen, now) {
        return if well {
            format!(in alloc; "ok: {path} was written {age} s ago")
        } else {
            format!(in alloc; "{path} was written {age} s ago: {STILL}")
        };
    }
    match seen {
        Ok(seen) if is_regular(&seen) => {
            format!(in alloc; "{path}: the system does not say what time it is")
        }
        Ok(_) => format!(in alloc; "{path}: not a regular file"),
        Err(fault) => {
            let fault = OpenFault::System(fault.error());
            format!(in alloc; "{path}: {fault}")
        }
    }
}
