//! What watches updates, and tells of them.
ghost use Rattle.std.specs.Prelude.{◌≡◌, [], false};

use crate::between::NoUpdate;
use crate::moment::UpdatePoint;
use disk_model::Disk;
use mot_events::{LookEvent, Tells};
use mot_playout::Server;
use std::alloc::Global;

/// What is known of the looks of updates.
pub trait LookHistory {
    /// How many looks there were.
    fn looks(&self) -> u64;

    /// What the last look met.
    fn events(&self) -> &[LookEvent];

    /// What the look before it met.
    fn events_before(&self) -> &[LookEvent];

    /// The folder that is looked at; none, if it is no folder.
    fn folder(&self) -> &str;

    /// Whether there is a look in an update at this moment.
    fn is_due(&self, moment: UpdatePoint) -> bool;
}

impl LookHistory for NoUpdate {
    fn looks(&self) -> u64
        ensures { result ≡ 0 }
    {
        0
    }

    fn events(&self) -> &[LookEvent]
        ensures { result.now ≡ [] }
    {
        &[]
    }

    fn events_before(&self) -> &[LookEvent]
        ensures { result.now ≡ [] }
    {
        &[]
    }

    fn folder(&self) -> &str
        ensures { result.now ≡ [] }
    {
        ""
    }

    fn is_due(&self, _moment: UpdatePoint) -> bool
        ensures { result ≡ false }
    {
        false
    }
}

/// What is told of updates. It reads the server, and changes nothing of it.
pub trait Watch: Tells {
    /// An update begins, before which so many packets were sent.
    fn begin<D: Disk>(&mut self, server: &Server<D>, alloc: Global, moment: UpdatePoint, sent: u64);

    /// Its look begins, if there is one in it.
    fn begin_look(&mut self, is_look: bool);

    /// It has ended, and these are its looks.
    fn end<D: Disk, U: LookHistory>(
        &mut self,
        server: &Server<D>,
        alloc: Global,
        update: &U,
        sent: u64,
    );
}
