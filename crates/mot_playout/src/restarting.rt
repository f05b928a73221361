//! A disk opened, and its first turn played.
ghost use Rattle.std.specs.Prelude.{◌≡◌, Ok, IfOk, IfErr, MatchResult};
ghost use Rattle.disk_model.specs.Disk.{OnlySyncs};
ghost use Rattle.mot_journal.specs.Image.{Standing};
ghost use Rattle.mot_numbers.specs.Refusal.{IsCalm};
ghost use Rattle.mot_numbers.specs.declared.refusal.Refusal.TheVariants.{DeviceFault};
ghost use Rattle.mot_numbers.specs.Geometry.{packet_room};
ghost use Rattle.mot_player.specs.Continuity.{IsContinuous};
ghost use Rattle.mot_player.specs.Place.{opened_place};
ghost use Rattle.mot_player.specs.Reading.{ReadsAs};
ghost use Rattle.mot_player.specs.Turn.{turn_of_carousel};
ghost use Rattle.mot_repository.specs.Opening.{IsOpened, IsOpeningRefusal};
ghost use Rattle.mot_repository.specs.Repository.{IsOf, Holds};
ghost use Rattle.mot_playout.specs.Life.{AreNumbered};
ghost use Rattle.mot_playout.specs.Playing.{HasPlayedTurn, bytes_of_packets};
ghost use Rattle.mot_playout.specs.Runs.{place_in};

use crate::{Refused, Server};
use disk_model::Disk;
use mot_packets::Packet;
use std::alloc::Global;

/// A server that was opened, and the first turn that it played.
#[derive(Drop)]
pub struct Restarted<D: Disk> {
    /// The server, which stands at the end of that turn.
    pub server: Server<D>,
    /// The packets of the turn.
    pub packets: Vec<Packet>,
}

/// Opens the disk and plays the first turn. Whether it does or refuses, nothing on the disk changes
/// but that it is synced. The refusals are those of `Server::open`, of which `OutOfMemory` and
/// `DeviceFault` may also come of the turn.
pub fn restart<D: Disk>(alloc: Global, disk: D) -> Result<Restarted<D>, Refused<D>>
    ensures only_syncs { MatchResult result
        (λ r. OnlySyncs (D.state disk) (D.state r.server.disk))
        (λ e. OnlySyncs (D.state disk) (D.state e.disk)) }

    // The server keeps what the disk stands for, and no position of it is loose.
    ensures opened { IfOk result (λ r. (D.state r.server.disk).IsHonest
        → IsOpened (D.state disk) (D.state r.server.disk) r.server.view) }
    ensures holds { (s : Standing) → IsOf s (D.state disk).bytes
        → IfOk result (λ r. (D.state r.server.disk).IsHonest
        → Holds r.server.view s (D.state r.server.disk)) }

    // The packets read as exactly its carousel, have their continuity indexes, and are those of
    // requests to a player just opened, up to the first that ends a turn.
    ensures reads { (s : Standing) → IsOf s (D.state disk).bytes
        → IfOk result (λ r. (D.state r.server.disk).IsHonest
        → ReadsAs (bytes_of_packets r.packets.items) s.carousel s.geometry.segment) }
    ensures continuous { (s : Standing) → IsOf s (D.state disk).bytes
        → IfOk result (λ r. (D.state r.server.disk).IsHonest
        → IsContinuous (bytes_of_packets r.packets.items)) }
    ensures turn { (s : Standing) → IsOf s (D.state disk).bytes
        → IfOk result (λ r. (D.state r.server.disk).IsHonest
        → HasPlayedTurn (opened_place s.geometry.address (packet_room s.geometry)
        s.geometry.segment (turn_of_carousel s.carousel s.geometry.segment))
        (bytes_of_packets r.packets.items) (place_in r.server s)) }

    // Their headers have the address, at most the length, and the indexes that they should.
    ensures numbered { (s : Standing) → IsOf s (D.state disk).bytes
        → IfOk result (λ r. (D.state r.server.disk).IsHonest
        → AreNumbered s.geometry 0 (bytes_of_packets r.packets.items)) }

    ensures refused { IfErr result
        (λ e. IsOpeningRefusal (D.state disk) (D.state e.disk) e.refusal) }

    // A disk fault is answered exactly if the disk has failed.
    ensures calm { MatchResult result
        (λ r. (D.state r.server.disk).failures ≡ (D.state disk).failures)
        (λ e. IsCalm e.refusal (D.state disk).failures
        (D.state e.disk).failures) }
{
    let mut server = Server::open(alloc, disk)?;
    match server.play_turn(alloc) {
        Ok(packets) => Ok(Restarted { server, packets }),
        Err(refusal) => Err(Refused {
            refusal,
            reason: None,
            disk: server.into_disk(),
        }),
    }
}
