//! Calls that fail by the plan.
use crate::call::{Call, INPUT_OUTPUT};
use crate::reached::Reach;
use crate::world::World;
use mot_files::Fault;
use std::io::{self, ErrorKind};

impl World {
    /// What precedes each call on files that may fail, and the fault, if it does.
    pub(crate) fn begin(&mut self, call: Call, path: &str) -> Result<(), Fault> {
        let passed = self.pass(call);
        self.say(call.name().as_bytes());
        self.say(b" ");
        self.say(path.as_bytes());
        if self.is_dead() {
            self.say(b" DEAD\n");
            return Err(refused(ErrorKind::Other));
        }
        if passed.is_err() {
            return Err(no_memory());
        }
        if self.is_out() || self.is_one_in(self.plan.faults) {
            return Err(Fault::System(self.fail(call)));
        }
        self.say(b"\n");
        Ok(())
    }

    /// Whether each call on files fails for a while.
    fn is_out(&self) -> bool {
        match self.steps.checked_sub(self.plan.outage) {
            Some(past) => self.plan.outage != 0 && past < self.plan.outage_len,
            None => false,
        }
    }

    /// The error with which this call fails.
    pub(crate) fn fail(&mut self, call: Call) -> io::Error {
        let code = self.code_of(call);
        self.say(b" FAILS\n");
        self.failed = self.failed.wrapping_add(1);
        self.count(Reach::Failed(call, code));
        io::Error::from_raw_os_error(code)
    }

    /// One of the numbers with which this call may fail.
    fn code_of(&mut self, call: Call) -> i32 {
        let codes = call.codes();
        let at = self.any(codes.len() as u64) as usize;
        match codes.get(at) {
            Some(code) => *code,
            None => INPUT_OUTPUT,
        }
    }

    /// What follows on each call that changed something: it may fail all the same.
    pub(crate) fn end(&mut self, call: Call) -> Result<(), Fault> {
        if !self.is_one_in(self.plan.late) {
            return Ok(());
        }
        let code = self.code_of(call);
        self.say(b"  it did, and FAILS\n");
        self.failed = self.failed.wrapping_add(1);
        self.count(Reach::Late(call, code));
        Err(by_number(code))
    }

    /// How many of so many bytes a write moves that failed.
    pub(crate) fn torn_count(&mut self, call: Call, len: usize) -> usize {
        let is_torn = if self.is_dead() {
            self.is_dying
        } else {
            self.plan.torn
        };
        if !is_torn {
            return 0;
        }
        let count = self.any((len as u64).saturating_add(1)) as usize;
        if count > 0 {
            self.count(Reach::Torn(call));
        }
        count
    }
}

/// The fault of a path that names nothing.
pub(crate) fn absent() -> Fault {
    Fault::Absent(io::Error::from_raw_os_error(2))
}

/// A fault of this kind.
pub(crate) fn refused(kind: ErrorKind) -> Fault {
    Fault::System(io::Error::from(kind))
}

/// The fault of this number of the system.
pub(crate) fn by_number(code: i32) -> Fault {
    Fault::System(io::Error::from_raw_os_error(code))
}

/// The fault of a failed allocation.
pub(crate) fn no_memory() -> Fault {
    refused(ErrorKind::OutOfMemory)
}
