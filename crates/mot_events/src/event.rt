//! What happened, as data. An event is made once, where what it says is known.
ghost use Rattle.std.specs.Prelude.{◌≡◌};
ghost use Rattle.mot_events.specs.Events.{step_word, is_look, skip_word};

use crate::words::Words;
use mot_lines::Verb;
use mot_numbers::Refusal;
use mot_objects::Done;
use mot_suffixes::OtherImage;

/// What was done in a look at a folder, or was to be done.
#[derive(Clone, Copy, PartialEq, Eq)]
pub enum LookStep {
    /// The object of a name was put.
    Put,
    /// The object of a name was replaced.
    Replace,
    /// The object of a name was withdrawn.
    Withdraw,
    /// A file was read.
    Read,
    /// The folder was listed.
    Look,
}

impl LookStep {
    /// Its word in a line.
    pub fn word(self) -> &'static str
        ensures { result.now ≡ step_word self }
    {
        match self {
            LookStep::Put => "put",
            LookStep::Replace => "replace",
            LookStep::Withdraw => "withdraw",
            LookStep::Read => "read",
            LookStep::Look => "look",
        }
    }

    /// Whether it is about the whole look.
    pub fn is_look(self) -> bool
        ensures { result ≡ is_look self }
    {
        match self {
            LookStep::Look => true,
            _ => false,
        }
    }
}

/// Why a name in a folder is no object.
#[derive(Clone, Copy, PartialEq, Eq)]
pub enum Skip {
    /// Its suffix is not known.
    Suffix,
    /// It names a folder.
    Folder,
    /// It names a link.
    Link,
    /// It names a pipe, a socket or a device.
    Special,
    /// It is not UTF-8.
    NotUtf8,
}

impl Skip {
    /// Its words in a line.
    pub fn word(self) -> &'static str
        ensures { result.now ≡ skip_word self }
    {
        match self {
            Skip::Suffix => "suffix",
            Skip::Folder => "folder",
            Skip::Link => "link",
            Skip::Special => "special",
            Skip::NotUtf8 => "not UTF-8",
        }
    }
}

/// What is known of a refusal beside its number.
#[derive(PartialEq, Drop)]
pub enum Why {
    /// Nothing.
    Unsaid,
    /// So many bytes found no room.
    Bytes(u64),
    /// A body has so many bytes, which are too many.
    TooLong(u64),
    /// A name has a space.
    Space,
    /// A name has a control character.
    Control,
    /// More than so many names have a suffix.
    Names(u64),
    /// No more than so many objects are allowed.
    Objects(u64),
    /// The first line does not begin with a command.
    NoCommand,
    /// A name is not UTF-8.
    NotUtf8,
    /// It is not a regular file.
    NotRegular,
    /// A line ends with a carriage return.
    Return,
    /// The command is not taken while a disk is played.
    NotHere,
    /// A line has so many words, and so many are asked for.
    WordCount(u64, u64),
    /// The system's words.
    Words(Words),
}

/// What a look at a folder met.
#[derive(PartialEq, Drop)]
pub enum LookResult {
    /// A command was done, with these ids.
    Done(LookStep, Done),
    /// It was refused, and nothing was changed by it.
    Refused(LookStep, Refusal, Why),
    /// A file was changed a moment ago. The next look may take it.
    Young,
    /// A file was changed while it was read. The next look may take it.
    Changed,
    /// A name is no object.
    Skipped(Skip),
    /// So many of so many objects go, which are more than half.
    Going(u64, u64),
    /// So many bytes are in the longest gap.
    Gap(u32),
    /// So many objects are allowed, and so many files wait.
    Waiting(u64, u64),
    /// The listing has no object, and nothing was changed.
    Kept,
    /// So many of so many objects would go, which are too many, and nothing was changed.
    KeptMost(u64, u64),
    /// The folder is listed again.
    Listed,
    /// The bytes of an object are of another image type than its suffix says.
    OtherImage(OtherImage),
}

/// What a look at a folder met, and of which name: a file's or an object's; or the folder's path.
#[derive(PartialEq, Drop)]
pub struct LookEvent {
    /// The name, as it is.
    pub name: Words,
    /// What was met.
    pub outcome: LookResult,
}

impl LookEvent {
    /// Whether the other one is the same.
    pub fn is_same(&self, other: &LookEvent) -> bool
        ensures { result ≡ ⟦<LookEvent as PartialEq>⟧.eq self.now other.now }
    {
        self == other
    }
}

/// A line of the reply to a line of a file.
#[derive(Clone, Copy)]
pub enum Reply<'a> {
    /// The command was done, with these ids.
    Done(Done),
    /// The line was refused.
    Refused(Refusal, &'a Why),
    /// A line that was asked for, without its end.
    Shown(&'a [u8]),
}

/// Something that happened.
#[derive(Clone, Copy)]
pub enum Event<'a> {
    /// A look met something.
    Look(&'a LookEvent),
    /// A look ended.
    Looked,
    /// A look at the folder of this path took so many seconds.
    LookTook(&'a [u8], u64),
    /// Of files of lines, the one of this name is left or is the last, or the folder of this path
    /// can't be read.
    LinesRefused(&'a [u8], Refusal, &'a Why),
    /// The folder of lines of this path can be read again.
    LinesReadable(&'a [u8]),
    /// The line of this number of the file of this name, with this command, if it is one, about this
    /// subject, got this line of a reply.
    Answered(&'a [u8], u64, Option<Verb>, &'a [u8], Reply<'a>),
    /// Playing began: the program's version, the disk's path, its objects, and the packets of a
    /// turn, unless there was no memory to count these.
    Began(&'a str, &'a [u8], u64, Option<u64>),
    /// Playing ended after so many turns and packets.
    Ended(u64, u64),
    /// The program ends with this refusal.
    Stopped(Refusal),
    /// The status of this path was not written, for this reason.
    StatusRefused(&'a [u8], &'a [u8]),
    /// The status of this path is written again.
    StatusWritten(&'a [u8]),
}
