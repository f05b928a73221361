//! What ends the story of a seed early.
use mot_memory_files::World;
use std::alloc::{AllocError, AllocFailed};
use std::cell::{RefCell, RefMut};

/// What went wrong, in words.
pub type Wrong = &'static str;

/// Why a story ends early.
#[derive(Clone, Copy)]
pub enum Stop {
    /// Something is wrong.
    Wrong(Wrong),
    /// The simulation itself has no memory left.
    NoMemory,
}

impl From<AllocError> for Stop {
    fn from(_error: AllocError) -> Stop {
        Stop::NoMemory
    }
}

impl<T: Drop> From<AllocFailed<T>> for Stop {
    fn from(_error: AllocFailed<T>) -> Stop {
        Stop::NoMemory
    }
}

/// Goes on if it holds, and ends the story if it does not.
pub fn ask(holds: bool, wrong: Wrong) -> Result<(), Stop> {
    if holds {
        Ok(())
    } else {
        Err(Stop::Wrong(wrong))
    }
}

/// The machine, while no call of the program is under way.
pub fn held(world: &RefCell<World>) -> Result<RefMut<'_, World>, Stop> {
    match world.try_borrow_mut() {
        Ok(world) => Ok(world),
        Err(_) => Err(Stop::Wrong("the machine is in use")),
    }
}
