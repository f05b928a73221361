//! What stands in the machine's folders, and what is open.
use mot_files::Kind;

/// A file, a folder, a link or a pipe. It stays when it has lost its name, since it may be open.
#[derive(Drop)]
pub struct Node {
    /// What it is.
    pub kind: Kind,
    /// Its bytes.
    pub bytes: Vec<u8>,
    /// The bytes that were synced last.
    pub firm: Vec<u8>,
    /// Which of its bytes were written since; as many as `bytes`.
    pub loose: Vec<bool>,
    /// Whether anything of it was written since, its length among it.
    pub is_loose: bool,
    /// Whether it was ever made a disk: a crash may then leave any byte where it is loose.
    pub is_disk: bool,
    /// Whether a write or a sync of it as a disk failed. Its loose bytes last no more then, whatever a
    /// later sync says, until the system's memory of it was dropped.
    pub is_doubtful: bool,
    /// Whether its writer had written all of it.
    pub is_whole: bool,
    /// Whether nobody may read it.
    pub is_denied: bool,
    /// The place of the node that a link leads to.
    pub leads: Option<usize>,
    /// Its number.
    pub number: u64,
    /// When its bytes were changed last, if nobody put another time there.
    pub written: u64,
    /// When anything of it was changed last.
    pub changed: u64,
    /// The handle that has its lock.
    pub locked: Option<usize>,
}

/// A path, and the place of the node that it names.
#[derive(Drop)]
pub(crate) struct Entry {
    pub(crate) path: String,
    pub(crate) place: usize,
    /// The time of day when it came to name that.
    pub(crate) since: u64,
    /// Which of all changes of names that was.
    pub(crate) turn: u64,
}

/// Bytes that the file of a path had at some time, and when it came to have them.
#[derive(Drop)]
pub struct Version {
    /// The path.
    pub path: String,
    /// The bytes.
    pub bytes: Vec<u8>,
    /// Whether their writer had written all of them.
    pub is_whole: bool,
    /// The time that the file had then.
    pub written: u64,
    /// The time of day then.
    pub kept: u64,
}

/// A file that the program removed.
#[derive(Drop)]
pub struct Removed {
    /// Its path.
    pub path: String,
    /// What it was.
    pub kind: Kind,
    /// Its bytes.
    pub bytes: Vec<u8>,
    /// Whether another program changed it just before the call.
    pub is_new: bool,
}

/// A file that is open.
#[derive(Clone, Copy)]
pub(crate) struct Held {
    /// The place of its node.
    pub(crate) place: usize,
    /// How many of its bytes were read.
    pub(crate) at: usize,
    /// Whether it may be written.
    pub(crate) writable: bool,
}

/// A folder whose names are read.
#[derive(Drop)]
pub(crate) struct Names {
    pub(crate) folder: String,
    /// Those that are left, each ended by a zero byte.
    pub(crate) left: Vec<u8>,
    /// How many changes of names there were by then.
    pub(crate) turn: u64,
}

/// What is open.
#[derive(Drop)]
pub(crate) enum Open {
    Node(Held),
    Names(Names),
    Output,
    Closed,
}
