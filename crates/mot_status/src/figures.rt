//! What is known of a carousel on air, beside what happened.
ghost use Rattle.std.specs.Prelude.{◌≡◌, ◌^◌, ◌-◌, min, sum_by};
ghost use Rattle.mot_status.specs.Inner.{AreFigures, bytes_of};

use disk_model::Disk;
use mot_listening::TurnSize;
use mot_log::Figures;
use mot_objects::Object;
use mot_playout::Server;

/// The version of the program, which `motcar --version` prints, too.
pub(crate) const VERSION: &str = "0.3.0";

/// What is known of the carousel of a server, whose disk has this path and whose turn takes so
/// much, after a last change at this second, in a status that is written at that one.
pub(crate) fn figures_of<'a, D: Disk>(
    disk: &'a str,
    server: &'a Server<D>,
    turn: TurnSize,
    last_change: u64,
    written: u64,
) -> Figures<'a>
    ensures { AreFigures disk.now server.now.view turn last_change written result }
{
    let carousel = server.carousel();
    let geometry = server.geometry();
    let data = u64::from(geometry.area);
    let objects = carousel.objects.as_slice();
    Figures {
        disk,
        version: VERSION,
        objects,
        directory: u64::from(carousel.directory.get()),
        checksum: u64::from(turn.checksum),
        turn_packets: turn.packets,
        turn_bytes: turn.bytes,
        free: data.saturating_sub(bytes_of(objects)),
        gap: u64::from(server.longest_gap()),
        objects_limit: u64::from(geometry.objects),
        data_bytes: data,
        last_change,
        written,
    }
}

/// How many bytes the bodies of these objects have together; or the greatest number of 64 bits.
fn bytes_of(objects: &[Object]) -> u64
    ensures { result ≡ min (bytes_of objects.now) 18446744073709551615 }
{
    let mut bytes: u64 = 0;
    for object in objects {
        bytes = bytes.saturating_add(u64::from(object.length.get()));
    }
    bytes
}
