//! Seconds since 1970.
ghost use Rattle.std.specs.Prelude.{◌≡◌, Option};
ghost use Rattle.mot_status.specs.Inner.{seconds_or};

use mot_files::Time;

/// The second with which 1970 begins, as the system of files counts them.
const EPOCH: u128 = 1 << 63;

/// How many nanoseconds a second has.
const NANOS: u128 = 1_000_000_000;

/// The seconds since 1970, or these if the time is not known.
pub(crate) fn seconds_or(time: Option<Time>, seconds: u64) -> u64
    ensures { result ≡ seconds_or time seconds }
{
    let Some(time) = time else {
        return seconds;
    };
    let since = (time.nanos / NANOS).saturating_sub(EPOCH);
    match u64::try_from(since) {
        Ok(since) => since,
        Err(_) => u64::MAX,
    }
}
