//! What the stories of many seeds came to.
use crate::commands::COMMANDS;
use mot_memory_files::{Call, Reach, ReachCount, add_reached, times_failed};
use std::alloc::{AllocError, Global};

/// The counts of a seed, or of many.
#[derive(Drop)]
pub struct Counted {
    pub lives: u64,
    pub crashes: u64,
    pub kills: u64,
    pub calls: u64,
    pub packets: u64,
    pub bodies: u64,
    /// The lives of each command, in the order of `COMMANDS`.
    pub commands: Vec<u64>,
    /// How often the machines came to what.
    pub reached: Vec<ReachCount>,
}

impl Counted {
    /// Nothing.
    pub fn new(alloc: Global) -> Result<Counted, AllocError> {
        Ok(Counted {
            lives: 0,
            crashes: 0,
            kills: 0,
            calls: 0,
            packets: 0,
            bodies: 0,
            commands: Vec::from_elem(alloc, 0u64, COMMANDS.len())?,
            reached: Vec::new(alloc),
        })
    }

    /// A life of this command begins.
    pub fn begin(&mut self, command: usize) {
        self.lives = self.lives.wrapping_add(1);
        if let Some(count) = self.commands.get_mut(command) {
            *count = count.wrapping_add(1);
        }
    }

    /// How often the machines came to this.
    pub fn times(&self, what: Reach) -> u64 {
        for reached in &self.reached {
            if reached.what == what {
                return reached.times;
            }
        }
        0
    }

    /// How often this call was refused.
    pub fn refused(&self, call: Call) -> u64 {
        times_failed(self.reached.as_slice(), call)
    }

    /// Those of another seed.
    pub fn add(&mut self, more: &Counted) -> Result<(), AllocError> {
        self.lives = self.lives.wrapping_add(more.lives);
        self.crashes = self.crashes.wrapping_add(more.crashes);
        self.kills = self.kills.wrapping_add(more.kills);
        self.calls = self.calls.wrapping_add(more.calls);
        self.packets = self.packets.wrapping_add(more.packets);
        self.bodies = self.bodies.wrapping_add(more.bodies);
        for (sum, count) in self.commands.iter_mut().zip(more.commands.iter()) {
            *sum = sum.wrapping_add(*count);
        }
        add_reached(&mut self.reached, more.reached.as_slice())
    }
}
