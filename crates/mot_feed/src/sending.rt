//! A packet, in one write.
ghost use Rattle.std.specs.Prelude.{◌≡◌, IfErr, OnOk};
ghost use Rattle.disk_model.specs.Disk.{OnlyReads};
ghost use Rattle.mot_feed.specs.Feeding.{IsFeedFault, SendsPacket};
ghost use Rattle.mot_journal.specs.Image.{Standing};
ghost use Rattle.mot_repository.specs.Repository.{Holds};
ghost use Rattle.mot_playout.specs.Runs.{place_in};

use crate::Outlet;
use disk_model::Disk;
use mot_numbers::Refusal;
use mot_packets::Packet;
use mot_playout::Server;

/// Sends the next packet by the order of sending, in one write, from the room of `packet`; whether it
/// ends a turn. It is refused by `WriteFault`, if the outlet failed or took less than the packet, and
/// as `Server::next_packet` is. The disk is only read.
#[inline(always)]
pub(crate) fn send_one<D: Disk, O: Outlet>(
    server: &mut Server<D>,
    outlet: &mut O,
    packet: &mut Packet,
) -> Result<bool, Refusal>
    ensures only_reads { OnlyReads (D.state server.old.disk) (D.state server.new.disk) }
    ensures calm { OnOk result
        ((D.state server.new.disk).failures ≡ (D.state server.old.disk).failures) }
    ensures fault { IfErr result (λ refusal. IsFeedFault server.old
        (D.state server.old.disk) (D.state server.new.disk) refusal) }
    ensures view { server.new.view ≡ server.old.view }
    ensures sent { (s : Standing) → Holds server.old.view s (D.state server.old.disk)
        → (D.state server.new.disk).IsHonest
        → SendsPacket result (place_in server.old s) (place_in server.new s)
        (O.writes outlet.old) (O.writes outlet.new) }
{
    let ends_turn = server.next_into(packet)?;
    let bytes = packet.as_slice();
    match outlet.write_once(bytes) {
        Ok(count) => {
            if count < bytes.len() {
                return Err(Refusal::WriteFault);
            }
            Ok(ends_turn)
        }
        Err(_) => Err(Refusal::WriteFault),
    }
}
