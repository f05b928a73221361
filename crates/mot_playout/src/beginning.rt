//! The beginning of every history: a disk formatted here.
ghost use Rattle.std.specs.Prelude.{◌≡◌, List, ℕ, false, IfErr, IfOk, OnOk, MatchResult};
ghost use Rattle.disk_model.specs.Disk.{OnlySyncs};
ghost use Rattle.mot_journal.specs.Geometry.{has_magic};
ghost use Rattle.mot_journal.specs.Image.{rest_of};
ghost use Rattle.mot_journal.specs.Journal.{standing_from};
ghost use Rattle.mot_journal.specs.Making.{MakesDisk};
ghost use Rattle.mot_player.specs.Reading.{ReadsAs};
ghost use Rattle.mot_repository.specs.Opening.{IsPassing};
ghost use Rattle.mot_repository.specs.Repository.{Holds};
ghost use Rattle.mot_playout.specs.Lives.{HistoriesAreCommands};
ghost use Rattle.mot_playout.specs.Life.{carousel_from};
ghost use Rattle.mot_playout.specs.Playing.{bytes_of_packets};

use crate::{Refused, Restarted, restart};
use disk_model::Disk;
use mot_journal::{Geometry, format_from};
use mot_numbers::{Refusal, TransportId};
use std::alloc::Global;

/// What formatting came to, and what was opened of the disk that a crash left of it.
#[derive(Drop)]
pub struct Beginning<E: Disk> {
    /// How formatting ended: the crash came before, at some moment of it, or after it.
    pub formatted: Result<(), Refusal>,
    /// The server on what the crash left, and the first turn that it played.
    pub restarted: Result<Restarted<E>, Refused<E>>,
}

/// Formatting a disk that has no magic, and a crash at any moment of it or after it. The bytes that
/// the crash left are no disk of this format, or open as the new carousel, whose directory has this
/// transport id, and are played as it. A history of runs, crashes and restarts, each on the disk
/// that the last one left, begins here.
pub fn format_and_restart<D: Disk, E: Disk>(
    disk: &mut D,
    alloc: Global,
    geometry: &Geometry,
    directory: TransportId,
    left: E,
) -> Beginning<E>
    // the disk was formatted
    ensures makes { MakesDisk geometry.now directory (D.state disk.old) (D.state disk.new)
        result.formatted }

    // if it opens, it is the new carousel
    ensures begins { (D.state disk.new).IsHonest
        → ((image : List ℕ) → (D.state disk.old).MayLeave image → has_magic image ≡ false)
        → (D.state disk.new).LeftSince (D.state disk.old).moment (E.state left).bytes
        → IfOk result.restarted (λ r. (E.state r.server.disk).IsHonest
        → Holds r.server.view (standing_from geometry.now directory
        (rest_of geometry.now (E.state left).bytes)) (E.state r.server.disk)
        × ReadsAs (bytes_of_packets r.packets.items) (carousel_from directory)
        geometry.now.segment) }

    // after a formatting that is Ok it opens, unless memory runs out or the disk fails
    ensures opens { (D.state disk.new).IsHonest
        → (D.state disk.new).MayLeave (E.state left).bytes
        → OnOk result.formatted (IfErr result.restarted (λ e. (E.state e.disk).IsHonest
        → IsPassing (E.state left) (E.state e.disk) e.refusal)) }

    // opened or not, what the crash left stays
    ensures left_stays { MatchResult result.restarted
        (λ r. OnlySyncs (E.state left) (E.state r.server.disk))
        (λ e. OnlySyncs (E.state left) (E.state e.disk)) }

    // However many runs, crashes and restarts follow, it stands for what the commands that are done
    // make of the new carousel.
    ensures histories { HistoriesAreCommands }
{
    let formatted = format_from(disk, geometry, directory);
    let restarted = restart(alloc, left);
    Beginning {
        formatted,
        restarted,
    }
}
