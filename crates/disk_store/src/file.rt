//! A disk that is a file of the operating system. All that is assumed of files stands in this
//! folder.
ghost use Rattle.std.specs.Prelude.{◌≡◌, ◌<◌, length, All};
ghost use Rattle.disk_store.specs.Calls.{content_after};

mod begun;
mod calls;
mod fault;
mod files;
mod host;
mod opening;
mod second;
mod start;
mod system;

use crate::call_count::CallCount;
pub use begun::{Beginning, BegunFile, WasMade, WasThere, make_file, open_file};
pub use fault::OpenFault;
pub use files::{DiskFile, DiskFileStat, DiskFiles};
pub use host::HostFiles;
pub use opening::FailedOpening;
pub use start::{Second, Start, Unknown, with_second};
use std::marker::PhantomData;
use system::HeldFile;
pub use system::SideFile;

/// A regular file or a block device, as long as it was when it was opened. A lock that other
/// programs may ignore keeps it from being opened so a second time.
///
/// No contract says what a file gives. The disk is honest as long as each of its reads gave the
/// bytes that were written there last or, if none were, those that the file held as it was opened.
/// `S` stands for the latter, and the opening reads none of it. A file that was made held zeros.
#[derive(Drop)]
pub struct FileDiskFrom<S: Start> {
    file: HeldFile<S::File>,
    len: u64,
    failures: u64,
    can_sync: bool,
    calls: CallCount,
    /// What the file held as it was opened. Only clauses read it.
    start: PhantomData<S>,
    ghost len_is: { length (content_after S.Start.bytes file.history.calls).bytes ≡ len },
    ghost loose_len: { length (content_after S.Start.bytes file.history.calls).loose
        ≡ length (content_after S.Start.bytes file.history.calls).bytes },
    ghost are_bytes: { All (λ b. b < 256) (content_after S.Start.bytes file.history.calls).bytes },
}

/// A file whose first bytes are not spoken of.
pub type FileDisk = FileDiskFrom<Unknown>;

/// A file's disk that takes no more calls.
#[derive(Drop)]
pub struct SecondDisk<S: Start> {
    file: HeldFile<S::File>,
    failures: u64,
    calls: CallCount,
    len: u64,
    can_sync: bool,
    /// What the file held as it was opened. Only clauses read it.
    start: PhantomData<S>,
    ghost len_is: { length (content_after S.Start.others file.history.calls).bytes ≡ len },
}
