//! By what it is told that a file has the bytes that it had.
ghost use Rattle.std.specs.Prelude.{◌≡◌};
ghost use Rattle.mot_files.specs.Stamping.{is_past, stamp_at};

use crate::system::{FileStat, Stamp, Time};

/// How many nanoseconds ago the last change of a file has to be.
pub(crate) const OLD: u128 = 2_000_000_000;

/// The stamp of a file of which the system said this, if its last change was two seconds before this
/// time of day, or longer.
pub(crate) fn stamp_at(seen: &FileStat, now: Option<Time>) -> Option<Stamp>
    ensures { result ≡ stamp_at seen.now now }
{
    let is_old = is_past(seen.written, now) && is_past(seen.changed, now);
    is_old.then_some(Stamp::of(seen))
}

/// Whether the time of day is known, and two seconds after this, or more.
fn is_past(time: Time, now: Option<Time>) -> bool
    ensures { result ≡ is_past time now }
{
    match now {
        Some(now) => time.nanos <= now.nanos && now.nanos - time.nanos >= OLD,
        None => false,
    }
}
