//! How a command on a disk ends.
ghost use Rattle.std.specs.Prelude.{◌≡◌, Err};

use disk_model::Disk;
use mot_journal::Reason;
use mot_numbers::Refusal;
use mot_playout::Refused;

/// What a command on a disk came to, and the disk as it stands then.
#[derive(Drop)]
pub struct Ended<D: Disk, T> {
    /// The disk.
    pub disk: D,
    /// What it came to.
    pub result: Result<T, Refusal>,
    /// Why the disk was refused, if that is known.
    pub reason: Option<Reason>,
}

impl<D: Disk, T> Ended<D, T> {
    /// The end of a command on a disk that was not opened.
    pub fn unopened(refused: Refused<D>) -> Self
        ensures { result ≡ record {
          disk = refused.disk;
          result = Err refused.refusal;
          reason = refused.reason;
        } }
    {
        Ended {
            disk: refused.disk,
            result: Err(refused.refusal),
            reason: refused.reason,
        }
    }
}
