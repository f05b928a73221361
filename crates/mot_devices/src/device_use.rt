//! What a block device is used for.
use crate::short_name::ShortName;
use crate::signature::Signature;
use std::io;
use thiserror::Error;

/// What a block device is used for, or why that can't be told.
#[derive(Clone, Copy, Debug, Error)]
pub enum DeviceUse {
    /// It, or a partition of it, is mounted here.
    #[error("it, or a partition of it, is mounted at {0}")]
    MountedAt(ShortName),
    /// It, or a partition of it, is a swap that is used.
    #[error("it, or a partition of it, is swap space")]
    Swap,
    /// This device stands on it.
    #[error("the device {0} stands on it")]
    HeldBy(ShortName),
    /// Its first bytes have this signature.
    #[error("{0}")]
    HasSignature(Signature),
    /// The system does not say what is mounted, for this reason.
    #[error("/proc/self/mountinfo does not say what is mounted")]
    Unknown(io::Error),
    /// It can't be looked at or read, for this reason.
    #[error("{0}")]
    Unseen(io::Error),
    /// It is no device, but the name of a file of a disk.
    #[error("the name of a file of another disk")]
    OfDisk,
}
