//! Whether a block device is in use, by what the system says of it: mounted, a swap, held by another
//! device, or with the signature of a file system or a partition table at its head. Or whether a path
//! is that of a file of a disk.
#![tactic(auto)]

mod beside;
mod device_use;
mod mounts;
mod number;
mod parts;
mod reading;
mod short_name;
mod signature;
mod tables;
mod using;

pub use device_use::DeviceUse;
pub use short_name::ShortName;
pub use signature::{Signature, signature_of};
pub use using::use_of;
