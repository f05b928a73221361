//! What a turn takes, as far as that is known.
ghost use Rattle.std.specs.Prelude.{◌≡◌, IfSome, None, Some};
ghost use Rattle.mot_status.specs.Inner.{IsMeasured};

use disk_model::Disk;
use mot_listening::{TurnSize, turn_size};
use mot_playout::Server;
use std::alloc::Global;

/// What a turn takes, and the carousel of which that is known.
#[derive(Clone, Copy)]
pub struct TurnMeasurement {
    /// The transport id of its directory.
    pub directory: u16,
    /// The id that was taken last. Each change makes another pair of the two, though on a disk whose
    /// ids go on before its directory's the second change may give the directory the id that it had.
    pub cursor: u16,
    /// What a turn takes.
    pub turn: TurnSize,
}

/// What a turn of the carousel of a server takes: what is known of another one, if that is the
/// same. It is not known if there was no memory for the bytes of the directory.
#[inline(never)]
pub(crate) fn measure<D: Disk>(
    known: Option<TurnMeasurement>,
    server: &Server<D>,
    alloc: Global,
) -> Option<TurnMeasurement>
    ensures { IfSome result (λ measured. IsMeasured known server.now.view measured) }
{
    let carousel = server.carousel();
    let (directory, cursor) = (carousel.directory.get(), carousel.cursor.get());
    if let Some(measured) = known
        && measured.directory == directory
        && measured.cursor == cursor
    {
        return known;
    }
    let geometry = server.geometry();
    let (size, length) = (geometry.size_of_segments(), geometry.length_of_packets());
    match turn_size(alloc, carousel, size, length) {
        Ok(turn) => Some(TurnMeasurement {
            directory,
            cursor,
            turn,
        }),
        Err(_) => None,
    }
}
