//! Room for what a player queues.
ghost use Rattle.std.specs.Prelude.{◌≡◌, ◌≤◌, ℕ, IfOk, IsOk, vec_capacity, vec_len};

use crate::course::Waiting;
use std::alloc::{AllocError, Global};
use std::marker::Model;

/// Room for what a player queues of a turn that it follows, for so many bodies.
#[derive(Drop)]
pub struct Spare {
    queue: Vec<Waiting>,
}

impl Model for Spare {
    ghost Value = { ℕ };

    ghost view = { λ spare. vec_capacity spare.queue };

    ghost invariant = { λ spare. vec_len spare.queue ≡ 0 };
}

impl Spare {
    /// Room for so many bodies. For none it takes no memory.
    pub(crate) fn of(alloc: Global, count: usize) -> Result<Spare, AllocError>
        ensures room { IfOk result (λ spare. count ≤ spare) }
        ensures none { count ≡ 0 → IsOk result }
    {
        let queue = Vec::with_capacity(alloc, count)?;
        Ok(Spare { queue })
    }

    /// The room, with nothing queued.
    pub(crate) fn into_queue(self) -> Vec<Waiting>
        ensures room { vec_capacity result ≡ self }
        ensures empty { vec_len result ≡ 0 }
    {
        let Spare { queue } = self;
        queue
    }
}
