//! A disk of a fixed length as a layer above sees it: what a read gives, and what a crash at any
//! moment may leave. `Disk` is the model, which each kind of disk meets.
#![tactic(auto)]

mod disk;

pub use disk::{Disk, DiskFault};
