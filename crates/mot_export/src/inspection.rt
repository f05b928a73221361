//! What is told of a disk, and of the turn that it plays.
ghost use Rattle.std.specs.Prelude.{◌≡◌, ◌+◌, ◌<◌, ◌≤◌, ◌^◌, IfErr, IfOk, min, true};
ghost use Rattle.std.specs.Int.{div_ceil};
ghost use Rattle.std.specs.List.{sum_by};
ghost use Rattle.mot_journal.specs.Image.{Standing};
ghost use Rattle.mot_listening.specs.Waits.{with_directories};
ghost use Rattle.mot_numbers.specs.Geometry.{is_valid, packet_room};
ghost use Rattle.mot_numbers.specs.declared.refusal.Refusal.TheVariants.{OutOfMemory};
ghost use Rattle.mot_objects.specs.declared.object.Object.{Object};
ghost use Rattle.mot_player.specs.Place.{directory_packets};
ghost use Rattle.mot_playout.specs.Runs.{place_in};
ghost use Rattle.mot_repository.specs.Repository.{Agrees};
ghost use Rattle.mot_export.specs.Inspecting.{AreFigures, usual_pause, waits_of};

use crate::times::turn_times;
use disk_model::Disk;
use mot_listening::{GROUP_FRAME, TurnSize, frame_packets, turn_size};
use mot_numbers::{Geometry, Refusal};
use mot_objects::Carousel;
use mot_packets::packet_count;
use mot_playout::Server;
use std::alloc::Global;

/// After how many packets `play` sends the directory again, if it is not told otherwise and a frame
/// holds one packet.
const USUAL_PAUSE: u128 = 340;

/// What is told of a disk, and of the turn that it plays.
#[derive(Drop)]
pub struct Inspection {
    /// The sizes of the disk.
    pub geometry: Geometry,
    /// How many objects it has.
    pub objects: usize,
    /// How many bytes their bodies have.
    pub bytes: u64,
    /// The bytes of the longest piece that is free.
    pub gap: u32,
    /// The slots of the half that is selected.
    pub slots: usize,
    /// How many of them have a record.
    pub records: usize,
    /// What a turn takes.
    pub turn: TurnSize,
    /// How long a receiver has to listen.
    pub waits: Waits,
    /// How long the turn takes at each rate.
    pub times: Vec<TurnTime>,
}

/// How long a receiver has to listen, in packets.
#[derive(Clone, Copy)]
pub struct Waits {
    /// Those of the longest data group.
    pub group: u64,
    /// Those of the directory.
    pub directory: u64,
    /// Those until it has the directory, at most.
    pub heard_directory: u64,
    /// Those until it has all objects, at most.
    pub heard_carousel: u64,
}

/// How many milliseconds a turn takes in packets of each length; `None`, where one fits in no frame.
#[derive(Clone, Copy)]
pub struct TurnTime {
    /// The rate of the sub-channel in kbit/s.
    pub rate: u32,
    /// In packets of 24 bytes at most.
    pub in_24: Option<u64>,
    /// In packets of 48 bytes at most.
    pub in_48: Option<u64>,
    /// In packets of 72 bytes at most.
    pub in_72: Option<u64>,
    /// In packets of 96 bytes at most.
    pub in_96: Option<u64>,
}

/// What is told of an open server, in a sub-channel of this rate in kbit/s or, if none is given, of
/// the usual ones.
pub(crate) fn inspection_of<D: Disk>(
    alloc: Global,
    server: &Server<D>,
    rate: Option<u32>,
) -> Result<Inspection, Refusal>
    ensures figures { (s : Standing) → Agrees server.now.view s
        → IfOk result (AreFigures rate s server.now.view.journal.layout
        server.now.view.journal.count (directory_packets (place_in server.now s))) }
    ensures refused { IfErr result (λ r. r ≡ OutOfMemory) }
{
    let (geometry, carousel) = (server.geometry(), server.carousel());
    let (size, length) = (geometry.size_of_segments(), geometry.length_of_packets());
    let turn = turn_size(alloc, carousel, size, length)?;
    let directory = server.directory_packets() as u64;
    Ok(Inspection {
        geometry,
        objects: carousel.objects.len(),
        bytes: used_bytes(carousel),
        gap: server.longest_gap(),
        slots: server.layout().slot_count(&geometry),
        records: server.record_count(),
        turn,
        waits: waits_of(&geometry, rate, directory, turn.packets),
        times: turn_times(alloc, carousel, size, rate)?,
    })
}

/// The bytes of all bodies.
fn used_bytes(carousel: &Carousel) -> u64
    ensures { result ≡ sum_by (λ (o : Object). o.length) carousel.now.objects.items }
{
    let mut bytes: u64 = 0;
    for object in &carousel.objects {
        bytes += u64::from(object.length.get());
    }
    bytes
}

/// How long a receiver has to listen that begins to at any packet: to a directory and a turn of so
/// many packets.
fn waits_of(geometry: &Geometry, rate: Option<u32>, directory: u64, packets: u64) -> Waits
    requires valid { is_valid geometry.now ≡ true }
    requires few { directory < 2 ^ 32 }
    ensures { result ≡ waits_of (usual_pause rate geometry.now.packet)
        (div_ceil (geometry.now.segment + 11) (packet_room geometry.now)) directory packets }
{
    let bytes = usize::from(geometry.segment) + GROUP_FRAME;
    let group = packet_count(bytes, geometry.length_of_packets()) as u64;
    let (first, few) = (u128::from(group), u128::from(directory));
    let pause = usual_pause(rate, geometry.packet).max(10 * few);
    let heard_carousel = with_directories(first + u128::from(packets) + 3 * few);
    Waits {
        group,
        directory,
        heard_directory: with_directories(pause + first + 2 * few).min(heard_carousel),
        heard_carousel,
    }
}

/// After how many packets of this length the directory is sent again.
fn usual_pause(rate: Option<u32>, packet: u16) -> u128
    requires { 24 ≤ packet }
    ensures value { result ≡ usual_pause rate packet }
    ensures few { result < 2 ^ 50 }
{
    match rate {
        Some(rate) => USUAL_PAUSE * u128::from(frame_packets(rate, packet)),
        None => USUAL_PAUSE,
    }
}

/// So many packets, and those of the directories that are sent again between them; or the greatest
/// number of 64 bits, if they are more.
fn with_directories(packets: u128) -> u64
    requires { packets < 2 ^ 100 }
    ensures { result ≡ min (with_directories packets) 18446744073709551615 }
{
    (10 * packets + 1).div_ceil(9).min(u64::MAX.into()) as u64
}
