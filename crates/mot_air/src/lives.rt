//! What one life of a disk hands on to the next: whatever was served, run or played in it.
ghost use Rattle.std.specs.Prelude.{ℕ, [], IfErr, IfOk, IsFalse, List};
ghost use Rattle.mot_air.specs.Playing.{KeepsDone};
ghost use Rattle.mot_numbers.specs.declared.geometry.Geometry.{Geometry};
ghost use Rattle.mot_objects.specs.declared.command.Command.{Command};
ghost use Rattle.mot_repository.specs.Opening.{IsPassing};
ghost use Rattle.mot_playout.specs.Lives.{HasDone};

use disk_model::Disk;
use mot_playout::{Refused, Server};
use std::alloc::Global;

/// A server's disk keeps what the server has done, if no disk fault has halted it.
pub fn keep_done<D: Disk>(_server: &Server<D>)
    ensures { (g : Geometry) (first : ℕ) (done others : List Command)
        → HasDone D.state g first done others _server.now → IsFalse _server.now.view.halted
        → KeepsDone g first done (D.state _server.now.disk) }
{}

/// Opens a disk: what it keeps the server has done.
pub fn open_done<D: Disk>(alloc: Global, disk: D) -> Result<Server<D>, Refused<D>>
    ensures opened { (g : Geometry) (first : ℕ) (done : List Command)
        → KeepsDone g first done (D.state disk)
        → IfOk result (λ server. (D.state server.disk).IsHonest
        → HasDone D.state g first done [] server) }

    // it opens, unless memory runs out or the disk fails; and if not, it keeps what it kept
    ensures opens { (g : Geometry) (first : ℕ) (done : List Command)
        → KeepsDone g first done (D.state disk) → IfErr result (λ e. (D.state e.disk).IsHonest
        → IsPassing (D.state disk) (D.state e.disk) e.refusal
        × KeepsDone g first done (D.state e.disk)) }
{
    match Server::open(alloc, disk) {
        Ok(server) => Ok(server),
        Err(refused) => Err(refused),
    }
}
