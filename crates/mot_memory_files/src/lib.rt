//! A whole machine in memory: folders, files, a pipe, disks and a clock of one seed, which dies at
//! a moment of the plan and comes back with what a crash leaves. The program has no part of it.
#![tactic(auto)]

mod bytes;
mod call;
mod calls;
mod chance;
mod crash;
mod disk;
mod faults;
mod listing;
mod machine;
mod moves;
mod names;
mod node;
mod others;
mod plan;
mod reached;
mod system;
mod whole;
mod world;

pub use call::{CALLS, Call};
pub use machine::{MachineFile, MachineStart, MemoryMachine};
pub use node::{Node, Removed, Version};
pub use plan::Plan;
pub use reached::{Reach, ReachCount, add_reached, times_failed};
pub use system::MachineSystem;
pub use world::World;
