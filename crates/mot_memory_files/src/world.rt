//! The state of the machine: one list of nodes and names, one clock, one source of chance.
use crate::call::Call;
use crate::chance::Chance;
use crate::node::{Entry, Node, Open, Removed, Version};
use crate::plan::Plan;
use crate::reached::{Reach, ReachCount, add_times, times_failed};
use std::alloc::{AllocError, Global};

/// The time of day at first, in nanoseconds.
const BEGINNING: u64 = 100_000_000_000;

/// The farthest jump of the clock, in nanoseconds.
const FAR: u64 = 20_000_000_000;

/// The machine.
#[derive(Drop)]
pub struct World {
    pub(crate) alloc: Global,
    /// How it goes on.
    pub plan: Plan,
    pub(crate) chance: Chance,
    /// The time of day, in nanoseconds.
    pub clock: u64,
    /// How many calls were made.
    pub steps: u64,
    /// How many of them were made on open disks.
    pub disk_steps: u64,
    /// How many failed by the plan.
    pub failed: u64,
    /// How often what was reached.
    pub reached: Vec<ReachCount>,
    pub(crate) nodes: Vec<Node>,
    pub(crate) entries: Vec<Entry>,
    /// The names that were synced last.
    pub(crate) firm: Vec<Entry>,
    pub(crate) open: Vec<Open>,
    /// Numbers of files that are gone.
    pub(crate) free: Vec<u64>,
    /// The number that was given out last.
    pub(crate) next: u64,
    /// How many changes of names there were.
    pub(crate) turn: u64,
    /// Whether the machine dies by the call that is made.
    pub(crate) is_dying: bool,
    /// All bytes that a file of objects or of lines ever had.
    pub versions: Vec<Version>,
    /// What the program removed.
    pub removed: Vec<Removed>,
    /// The packets that the pipe's reader took.
    pub air: Vec<u8>,
    /// The length of each write of them.
    pub writes: Vec<usize>,
    /// What was written to standard output.
    pub output: Vec<u8>,
    /// Pipes that were opened to be read: the program would wait.
    pub waited: u64,
    /// A line for each call.
    pub trace: Vec<u8>,
    /// Whether there is one.
    pub is_traced: bool,
    /// The paths of objects that other programs change.
    pub names: &'static [&'static str],
    /// What they write there.
    pub texts: &'static [&'static [u8]],
    /// The paths of files of lines that other programs change.
    pub line_names: &'static [&'static str],
    /// What they write there.
    pub line_texts: &'static [&'static [u8]],
}

impl World {
    /// A machine with no file.
    pub fn new(alloc: Global, seed: u64) -> World {
        World {
            alloc,
            plan: Plan::calm(),
            chance: Chance::new(seed),
            clock: BEGINNING,
            steps: 0,
            disk_steps: 0,
            failed: 0,
            reached: Vec::new(alloc),
            nodes: Vec::new(alloc),
            entries: Vec::new(alloc),
            firm: Vec::new(alloc),
            open: Vec::new(alloc),
            free: Vec::new(alloc),
            next: 10,
            turn: 0,
            is_dying: false,
            versions: Vec::new(alloc),
            removed: Vec::new(alloc),
            air: Vec::new(alloc),
            writes: Vec::new(alloc),
            output: Vec::new(alloc),
            waited: 0,
            trace: Vec::new(alloc),
            is_traced: false,
            names: &[],
            texts: &[],
            line_names: &[],
            line_texts: &[],
        }
    }

    /// A number below this one.
    pub fn any(&mut self, below: u64) -> u64 {
        self.chance.any(below)
    }

    /// One of these.
    pub fn one_of(&mut self, values: [u64; 4]) -> u64 {
        let at = self.chance.any(4) as usize;
        match values.get(at) {
            Some(value) => *value,
            None => 0,
        }
    }

    /// True once in this many times, and never if it is 0.
    pub(crate) fn is_one_in(&mut self, many: u64) -> bool {
        self.chance.is_one_in(many)
    }

    /// Whether the machine is dead: no call does anything.
    pub fn is_dead(&self) -> bool {
        (self.plan.stop != 0 && self.steps >= self.plan.stop)
            || (self.plan.disk_stop != 0 && self.disk_steps >= self.plan.disk_stop)
    }

    /// The time that a file gets.
    pub(crate) fn stamp(&self) -> u64 {
        let past = self.clock.checked_rem(self.plan.grain).unwrap_or(0);
        self.clock.wrapping_sub(past)
    }

    /// A word in the trace.
    pub(crate) fn say(&mut self, text: &[u8]) {
        if self.is_traced {
            let _ = self.trace.extend_from_slice(text);
        }
    }

    /// A text in the trace.
    pub fn note(&mut self, text: &[u8]) {
        self.say(text);
    }

    /// Counts that this was reached.
    pub(crate) fn count(&mut self, what: Reach) {
        let _ = add_times(&mut self.reached, what, 1);
    }

    /// How often this was reached.
    pub fn times(&self, what: Reach) -> u64 {
        for reached in &self.reached {
            if reached.what == what {
                return reached.times;
            }
        }
        0
    }

    /// How often this call failed by the plan.
    pub fn times_failed(&self, call: Call) -> u64 {
        times_failed(self.reached.as_slice(), call)
    }

    /// What precedes each call: time passes, and something may change.
    pub(crate) fn pass(&mut self, call: Call) -> Result<(), AllocError> {
        self.is_dying = false;
        if self.is_dead() {
            return Ok(());
        }
        self.count_call(call);
        if self.is_dead() {
            self.is_dying = true;
            self.count(Reach::Died(call));
            return Ok(());
        }
        let may_change = self.plan.until == 0 || self.steps < self.plan.until;
        if may_change && self.is_one_in(self.plan.changes) {
            return self.change();
        }
        Ok(())
    }

    /// Time passes by a call.
    fn count_call(&mut self, call: Call) {
        self.steps = self.steps.wrapping_add(1);
        if call.is_of_disk() {
            self.disk_steps = self.disk_steps.wrapping_add(1);
        }
        self.count(Reach::Made(call));
        self.clock = self.clock.wrapping_add(self.plan.step.max(1));
        if self.is_one_in(self.plan.jumps) {
            self.jump();
        }
    }

    /// The clock jumps, back or on.
    fn jump(&mut self) {
        let far = self.any(FAR);
        self.clock = match self.any(2) {
            0 => self.clock.saturating_sub(far),
            _ => self.clock.saturating_add(far),
        };
        self.count(Reach::Jumped);
    }

    /// How many bytes this call moves at most.
    pub(crate) fn piece(&mut self) -> usize {
        match self.plan.piece {
            0 => usize::MAX,
            piece => self.any(piece).wrapping_add(1) as usize,
        }
    }
}
