//! Why a task could not be done, if more is known than its refusal says.
ghost use Rattle.std.specs.Prelude.{◌≡◌};
ghost use Rattle.mot_numbers.specs.declared.refusal.Refusal.TheVariants.{OutOfMemory, ReadFault};

use disk_store::OpenFault;
use mot_devices::DeviceUse;
use mot_files::Fault;
use mot_numbers::Refusal;
use std::alloc::AllocError;
use std::io;
use thiserror::Error;

/// Why packets could not be written, or what should take them not be opened.
#[derive(Clone, Copy, Debug, Error)]
pub enum PacketsFault {
    /// The system refused a call, for this reason.
    #[error("{}", OpenFault::System(*.0))]
    System(io::Error),
    /// Another program writes it.
    #[error("in use by another program")]
    InUse,
    /// It is the disk.
    #[error("the disk itself")]
    IsDisk,
    /// It is a file that the disk has beside it, or would be one.
    #[error("the name of a file of the disk")]
    IsOfDisk,
    /// It is a link, or no regular file.
    #[error("a link, or not a regular file")]
    NoFile,
    /// The file beside it, which is written first, is a link, or no regular file.
    #[error("the .new file beside it is a link, or not a regular file")]
    NoNewFile,
    /// A write took less than a packet.
    #[error("a packet was cut")]
    Cut,
    /// No turn is asked for, and the file would be empty.
    #[error("no turns to write")]
    NoTurns,
    /// Nothing is there, and no number of turns is given, with which a file is made.
    #[error("no pipe is there; a file is written with --turns")]
    NoPipe,
    /// It is a regular file, and no number of turns is given.
    #[error("a regular file, which is written with --turns")]
    EndlessFile,
    /// It is a terminal.
    #[error("a terminal")]
    Terminal,
    /// It is a block device.
    #[error("a block device, which takes no packets")]
    BlockDevice,
}

/// What is wrong with a file that adds suffixes.
#[derive(Clone, Copy, Debug, Error)]
pub enum TypesFault {
    /// The system refused a call, for this reason.
    #[error("{}", OpenFault::System(*.0))]
    System(io::Error),
    /// It is no regular file.
    #[error("not a regular file")]
    NoFile,
    /// It has more than 65,536 bytes.
    #[error("longer than 65,536 bytes")]
    Long,
    /// The line of this number, from 1 on, does not have the form.
    #[error("line {0} is no SUFFIX TYPE SUBTYPE MIME")]
    Line(usize),
}

/// What is wrong with the folder that lines come from.
#[derive(Clone, Copy, Debug, Error)]
pub enum LinesFault {
    /// The system refused a call, for this reason.
    #[error("{}", OpenFault::System(*.0))]
    System(io::Error),
    /// It is not a folder.
    #[error("not a folder")]
    NoFolder,
    /// It is the folder that the carousel is made equal to.
    #[error("the folder of the objects")]
    HasObjects,
    /// The disk stands in it.
    #[error("the folder of the disk")]
    HasDisk,
    /// PACKETS stands in it, or would.
    #[error("the folder of the packets")]
    HasPackets,
    /// The file that adds suffixes stands in it.
    #[error("the folder of the file of suffixes")]
    HasTypes,
}

/// What is wrong with the file that a copy of the disk is made of, or with its sizes.
#[derive(Clone, Copy, Debug, Error)]
pub enum NewDiskFault {
    /// It was not opened or made, or the system refused a call on it.
    #[error("{0}")]
    Disk(OpenFault),
    /// It is a device in use.
    #[error("{0}")]
    Device(DeviceUse),
    /// The disk has more objects than that.
    #[error("the disk has {count} objects, and the copy would take {most}")]
    Objects {
        /// So many.
        count: usize,
        /// The most that the copy can have.
        most: u16,
    },
    /// The bodies need more bytes than that.
    #[error("the bodies need {length} bytes, and the copy would have {room}")]
    Bodies {
        /// So many.
        length: u64,
        /// Those of the copy's data area.
        room: u32,
    },
}

/// Why a task could not be done: it is printed, and nothing is decided by it.
#[derive(Clone, Copy, Debug, Error)]
pub enum Cause {
    /// The disk was not opened.
    #[error("{0}")]
    Disk(OpenFault),
    /// The copy of the disk can't be made.
    #[error("{0}")]
    NewDisk(NewDiskFault),
    /// The disk is a device in use.
    #[error("{0}")]
    Device(DeviceUse),
    /// The file that adds suffixes was not read, or a line of it is wrong.
    #[error("{0}")]
    Types(TypesFault),
    /// The folder of objects was not opened at the last look.
    #[error("{}", OpenFault::System(*.0))]
    Folder(io::Error),
    /// Lines can't come from the folder.
    #[error("{0}")]
    Lines(LinesFault),
    /// PACKETS was not opened, or did not take the packets.
    #[error("{0}")]
    Packets(PacketsFault),
    /// The new file beside it was not written, or could not take its place.
    #[error("{0}")]
    NewFile(PacketsFault),
}

impl Cause {
    /// The cause, if the folder was not opened at the last look.
    pub fn of_folder(fault: Option<io::Error>) -> Option<Cause> {
        fault.map(Cause::Folder)
    }
}

/// Why a task was not begun.
#[derive(Clone, Copy)]
pub struct StartError {
    /// The refusal.
    pub refusal: Refusal,
    /// What is wrong with a file, if that is the cause.
    pub cause: Option<Cause>,
}

impl StartError {
    /// There is no memory.
    pub fn no_memory() -> StartError
        ensures { result.refusal ≡ OutOfMemory }
    {
        StartError {
            refusal: Refusal::OutOfMemory,
            cause: None,
        }
    }

    /// A file or a folder can't be read.
    pub fn unread(cause: Cause) -> StartError
        ensures { result.refusal ≡ ReadFault }
    {
        StartError {
            refusal: Refusal::ReadFault,
            cause: Some(cause),
        }
    }
}

impl From<DeviceUse> for Cause {
    /// One that can't be looked at is told as one that is not opened.
    fn from(found: DeviceUse) -> Cause {
        match found {
            DeviceUse::Unseen(error) => Cause::Disk(OpenFault::System(error)),
            _ => Cause::Device(found),
        }
    }
}

impl From<DeviceUse> for NewDiskFault {
    /// One that can't be looked at is told as one that is not opened.
    fn from(found: DeviceUse) -> NewDiskFault {
        match found {
            DeviceUse::Unseen(error) => NewDiskFault::Disk(OpenFault::System(error)),
            _ => NewDiskFault::Device(found),
        }
    }
}

impl From<PacketsFault> for Cause {
    ghost use Rattle.mot_endpoints.specs.declared.fault.Cause.TheVariants.{Packets};

    ghost from_gives = { λ fault cause. cause ≡ Packets fault };

    fn from(fault: PacketsFault) -> Cause {
        Cause::Packets(fault)
    }
}

impl From<Fault> for TypesFault {
    fn from(fault: Fault) -> TypesFault {
        TypesFault::System(fault.error())
    }
}

impl From<AllocError> for TypesFault {
    fn from(_error: AllocError) -> TypesFault {
        TypesFault::System(io::Error::from(io::ErrorKind::OutOfMemory))
    }
}

impl From<Fault> for LinesFault {
    ghost use Rattle.mot_endpoints.specs.LinePlaces.{IsRefused};

    ghost from_gives = { λ fault told. IsRefused fault told };

    fn from(fault: Fault) -> LinesFault {
        match fault {
            Fault::Absent(error) | Fault::System(error) => LinesFault::System(error),
            Fault::Busy => LinesFault::System(io::Error::from(io::ErrorKind::WouldBlock)),
        }
    }
}

impl From<io::Error> for PacketsFault {
    ghost use Rattle.mot_endpoints.specs.declared.fault.PacketsFault.TheVariants.{System};

    ghost from_gives = { λ error fault. fault ≡ System error };

    fn from(error: io::Error) -> PacketsFault {
        PacketsFault::System(error)
    }
}

impl From<Fault> for PacketsFault {
    ghost use Rattle.mot_endpoints.specs.Placing.{told_as};

    ghost from_gives = { λ fault told. told ≡ told_as fault };

    fn from(fault: Fault) -> PacketsFault {
        match fault {
            Fault::Busy => PacketsFault::InUse,
            Fault::Absent(error) | Fault::System(error) => PacketsFault::System(error),
        }
    }
}

impl From<AllocError> for PacketsFault {
    ghost use Rattle.mot_endpoints.specs.Placing.{IsOfMemory};

    ghost from_gives = { λ error fault. IsOfMemory fault };

    fn from(_error: AllocError) -> PacketsFault {
        PacketsFault::System(io::Error::from(io::ErrorKind::OutOfMemory))
    }
}
