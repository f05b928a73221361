//! The calls on a disk with their answers, as a list that only clauses read. It takes no memory.
//! Each method is given the answer of a call, notes the call with it, and hands it on: so no call
//! on a file is noted that the system did not answer.
ghost use Rattle.std.specs.Prelude.{◌≡◌, List, [], ◌∷◌, ◌++◌, IfOk, OnOk, OnErr};
ghost use Rattle.std.specs.Borrow.{ftrue};
ghost use Rattle.disk_store.specs.Calls.{Call, Locked, Opened, Made, Gave, FailedRead};
ghost use Rattle.disk_store.specs.Inner.Noting.{call_of};
ghost use Rattle.disk_store.specs.Calls.{Wrote, FailedWrite, Synced, FailedSync, Dropped, Named};

use std::fs::TryLockError;
use std::io;
use std::marker::{Model, PhantomData};

const LOCKED: u64 = 0;

const OPENED: u64 = 1;

const MADE: u64 = 2;

const GAVE: u64 = 3;

const FAILED_READ: u64 = 4;

const WROTE: u64 = 5;

const FAILED_WRITE: u64 = 6;

const SYNCED: u64 = 7;

const FAILED_SYNC: u64 = 8;

const DROPPED: u64 = 9;

const NAMED: u64 = 10;

/// The calls so far, the first of them first.
#[derive(Drop)]
pub struct History {
    marker: PhantomData<u8>,
    pub ghost calls: { List Call },
}

impl Model for History {
    ghost also_owns = { λ _. ftrue };
}

impl History {
    /// No call.
    pub fn new() -> History
        ensures { result.calls ≡ [] }
    {
        History {
            marker: PhantomData,
        }
    }

    /// Its proof is written by hand: it adds to the list, which no memory holds.
    fn note(&mut self, _numbers: &[u64], _bytes: &[u8])
        ensures { self.new.calls ≡ self.old.calls ++ call_of _numbers.now _bytes.now ∷ [] }
    {}

    /// The lock was asked for.
    pub fn locked(&mut self, answer: Result<(), TryLockError>) -> Result<(), TryLockError>
        ensures { OnOk result (self.new.calls ≡ self.old.calls ++ Locked ∷ []) }
    {
        answer?;
        self.note(&[LOCKED, 0], &[]);
        Ok(())
    }

    /// How long a file is was asked for.
    pub fn opened(&mut self, answer: io::Result<u64>) -> io::Result<u64>
        ensures same { result ≡ answer }
        ensures noted { IfOk result (λ len. self.new.calls ≡ self.old.calls ++ Opened len ∷ []) }
    {
        let len = answer?;
        self.note(&[OPENED, len], &[]);
        Ok(len)
    }

    /// So many zeros were to be written into a new file.
    pub fn made(&mut self, len: u64, answer: io::Result<()>) -> io::Result<()>
        ensures same { result ≡ answer }
        ensures noted { OnOk result (self.new.calls ≡ self.old.calls ++ Made len ∷ []) }
    {
        answer?;
        self.note(&[MADE, len], &[]);
        Ok(())
    }

    /// These bytes came of a read, or it failed.
    pub fn gave(&mut self, at: u64, bytes: &[u8], answer: io::Result<()>) -> io::Result<()>
        ensures same { result ≡ answer }
        ensures ok { OnOk result (self.new.calls ≡ self.old.calls ++ Gave at bytes.now ∷ []) }
        ensures err { OnErr result (self.new.calls ≡ self.old.calls ++ FailedRead at ∷ []) }
    {
        match answer {
            Ok(()) => self.note(&[GAVE, at], bytes),
            Err(_) => self.note(&[FAILED_READ, at], &[]),
        }
        answer
    }

    /// These bytes were to be written.
    pub fn wrote(&mut self, at: u64, bytes: &[u8], answer: io::Result<()>) -> io::Result<()>
        ensures same { result ≡ answer }
        ensures ok { OnOk result (self.new.calls ≡ self.old.calls ++ Wrote at bytes.now ∷ []) }
        ensures err { OnErr result
            (self.new.calls ≡ self.old.calls ++ FailedWrite at bytes.now ∷ []) }
    {
        match answer {
            Ok(()) => self.note(&[WROTE, at], bytes),
            Err(_) => self.note(&[FAILED_WRITE, at], bytes),
        }
        answer
    }

    /// A sync was asked for.
    pub fn synced(&mut self, answer: io::Result<()>) -> io::Result<()>
        ensures same { result ≡ answer }
        ensures ok { OnOk result (self.new.calls ≡ self.old.calls ++ Synced ∷ []) }
        ensures err { OnErr result (self.new.calls ≡ self.old.calls ++ FailedSync ∷ []) }
    {
        match answer {
            Ok(()) => self.note(&[SYNCED, 0], &[]),
            Err(_) => self.note(&[FAILED_SYNC, 0], &[]),
        }
        answer
    }

    /// The system was asked to drop its cached pages of the file.
    pub fn dropped(&mut self, answer: io::Result<()>) -> io::Result<()>
        ensures same { result ≡ answer }
        ensures noted { OnOk result (self.new.calls ≡ self.old.calls ++ Dropped ∷ []) }
    {
        answer?;
        self.note(&[DROPPED, 0], &[]);
        Ok(())
    }

    /// A sync of the folder that names the file was asked for.
    pub fn named(&mut self, answer: io::Result<()>) -> io::Result<()>
        ensures same { result ≡ answer }
        ensures noted { OnOk result (self.new.calls ≡ self.old.calls ++ Named ∷ []) }
    {
        answer?;
        self.note(&[NAMED, 0], &[]);
        Ok(())
    }
}
