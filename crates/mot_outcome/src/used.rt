//! The disk that a task worked on, as it is left.
ghost use Rattle.std.specs.Prelude.{◌≡◌, Err, None, Some};
ghost use Rattle.mot_endpoints.specs.declared.fault.Cause.TheVariants.{Disk};
ghost use Rattle.mot_numbers.specs.declared.refusal.Refusal.TheVariants.{DeviceFault};
ghost use Rattle.mot_outcome.specs.declared.used.UsedDisk.TheVariants.{InMemory, OfFile, Untouched};

use disk_store::{Beginning, BegunFile, FailedOpening, FileDiskFrom, RamDisk, SecondDisk, Start};
use mot_endpoints::{Cause, NewDiskFault};
use mot_files::CallLog;
use mot_journal::Reason;
use mot_numbers::Refusal;
use mot_update::Ended;

/// The disk that a task worked on. The value of `S` is used up if a file is opened or made, so that
/// whoever still has it has opened none.
#[derive(Drop)]
pub enum UsedDisk<S: Start> {
    /// No file was opened or made.
    Untouched(S),
    /// This disk in memory, and no file was opened or made as a disk.
    InMemory(RamDisk, S),
    /// The disk of the file that was opened or made, and what was done beside it.
    OfFile(FileDiskFrom<S>, TaskCalls),
    /// The disk of the file that was opened to be copied, and that of the file that was opened or
    /// made to be its copy, if one was.
    OfCopy(FileDiskFrom<S>, Option<SecondDisk<S>>),
}

impl<S: Start> UsedDisk<S> {
    ghost use Rattle.mot_outcome.specs.Outcome.{fault_in};

    /// Why the first call on its file that failed did so, if one did. Of a copy that of the file
    /// that was copied comes first.
    pub fn fault(&self) -> Option<Cause>
        ensures { result ≡ fault_in self.now }
    {
        match self {
            UsedDisk::OfFile(disk, _) => disk.fault().map(Cause::Disk),
            UsedDisk::OfCopy(from, None) => from.fault().map(Cause::Disk),
            UsedDisk::OfCopy(from, Some(to)) => match from.fault() {
                Some(fault) => Some(Cause::Disk(fault)),
                None => {
                    let fault = to.fault().map(NewDiskFault::Disk);
                    fault.map(Cause::NewDisk)
                }
            },
            _ => None,
        }
    }

    /// The word of the command line that names the file of which a disk's reason is told.
    pub fn word(&self) -> &'static str {
        match self {
            UsedDisk::OfCopy(_, Some(_)) => "NEW",
            _ => "DISK",
        }
    }
}

/// The calls on files that a task made beside its disk, by what they were for. Only clauses read them.
#[derive(Drop)]
pub struct TaskCalls {
    /// Those on the folder of objects.
    pub folder: CallLog,
    /// Those on what takes the packets.
    pub packets: CallLog,
    /// Those on the folder of lines.
    pub lines: CallLog,
}

impl TaskCalls {
    /// None.
    pub fn nothing() -> TaskCalls {
        TaskCalls::folder(CallLog::new())
    }

    /// These on the folder of objects, and no others.
    pub fn folder(folder: CallLog) -> TaskCalls
        ensures { result.folder ≡ folder }
    {
        TaskCalls {
            folder,
            packets: CallLog::new(),
            lines: CallLog::new(),
        }
    }
}

/// What a task came to, and the disk after it.
#[derive(Drop)]
pub struct TaskEnd<S: Start, T> {
    /// What it came to.
    pub result: Result<T, Refusal>,
    /// The disk that it worked on.
    pub disk: UsedDisk<S>,
    /// Why it was refused, if more is known than the refusal says.
    pub cause: Option<Cause>,
    /// Why its disk was refused, if that is known.
    pub reason: Option<Reason>,
}

impl<S: Start, T> TaskEnd<S, T> {
    /// Refused before a disk's file was opened or made.
    pub fn unbegun(refusal: Refusal, cause: Option<Cause>, start: S) -> Self
        ensures { result ≡ record {
          result = Err refusal;
          disk = Untouched start;
          cause = cause;
          reason = None;
        } }
    {
        TaskEnd {
            result: Err(refusal),
            disk: UsedDisk::Untouched(start),
            cause,
            reason: None,
        }
    }

    /// The disk's file was not opened or made.
    pub fn unopened(unopened: FailedOpening<S>) -> Self
        ensures { result ≡ record {
          result = Err DeviceFault;
          disk = Untouched unopened.start;
          cause = Some (Disk unopened.fault);
          reason = None;
        } }
    {
        let cause = Cause::Disk(unopened.fault);
        TaskEnd::unbegun(Refusal::DeviceFault, Some(cause), unopened.start)
    }

    /// On a disk in memory.
    pub fn in_memory(ended: Ended<RamDisk, T>, cause: Option<Cause>, start: S) -> Self
        ensures { result ≡ record {
          result = ended.result;
          disk = InMemory ended.disk start;
          cause = cause;
          reason = ended.reason;
        } }
    {
        TaskEnd {
            result: ended.result,
            disk: UsedDisk::InMemory(ended.disk, start),
            cause,
            reason: ended.reason,
        }
    }

    /// On the disk of a file that was opened or made.
    pub fn of_file<K: Beginning>(
        ended: Ended<BegunFile<S, K>, T>,
        beside: TaskCalls,
        cause: Option<Cause>,
    ) -> Self
        ensures { result ≡ record {
          result = ended.result;
          disk = OfFile ended.disk.disk beside;
          cause = cause;
          reason = ended.reason;
        } }
    {
        TaskEnd {
            result: ended.result,
            disk: UsedDisk::OfFile(ended.disk.disk, beside),
            cause,
            reason: ended.reason,
        }
    }
}
