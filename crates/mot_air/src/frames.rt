//! How many packets a frame of the sub-channel holds.
ghost use Rattle.std.specs.Prelude.{◌≡◌, ◌≤◌, IfErr, IfOk, MatchResult, None};
ghost use Rattle.disk_model.specs.Disk.{OnlySyncs};
ghost use Rattle.mot_air.specs.Directory.{IsFrame};
ghost use Rattle.mot_update.specs.Opening.{IsUnopened};

use disk_model::Disk;
use mot_listening::frame_packets;
use mot_playout::{Refused, Server};
use std::alloc::Global;

/// How many packets a frame of a sub-channel of this rate holds, and the disk, which is opened for
/// the length of its packets; 1 if no rate is given, and then the disk is left as it is.
pub(crate) fn frame_on<D: Disk>(
    alloc: Global,
    disk: D,
    rate: Option<u32>,
) -> Result<(u32, D), Refused<D>>
    ensures syncs { MatchResult result
        (λ found. OnlySyncs (D.state disk) (D.state found.1))
        (λ e. OnlySyncs (D.state disk) (D.state e.disk)) }
    ensures calm { IfOk result
        (λ found. (D.state found.1).failures ≡ (D.state disk).failures) }
    ensures frame { IfOk result
        (λ found. IsFrame rate found.0 None (D.state disk) (D.state found.1)) }
    ensures refused { IfErr result (λ e. IsUnopened e.refusal (D.state disk) (D.state e.disk)) }
{
    let Some(rate) = rate else {
        return Ok((1, disk));
    };
    let server = match Server::open(alloc, disk) {
        Ok(server) => server,
        Err(refused) => return Err(refused),
    };
    let frame = frame_packets(rate, server.geometry().packet);
    Ok((frame, server.into_disk()))
}
