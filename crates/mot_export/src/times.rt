//! How long a turn takes in packets of each length.
ghost use Rattle.std.specs.Prelude.{◌≡◌, ◌∷◌, ◌≤◌, ℕ, List, IfErr, IfOk, map};
ghost use Rattle.mot_numbers.specs.declared.refusal.Refusal.TheVariants.{OutOfMemory};
ghost use Rattle.mot_objects.specs.declared.body.TheConstants.{MAX_BODY};
ghost use Rattle.mot_objects.specs.declared.object.Object.{Object};
ghost use Rattle.mot_objects.specs.Stands.{AreBodiesOf, carousel_of};
ghost use Rattle.mot_player.specs.Turn.{turn_of_carousel};
ghost use Rattle.mot_export.specs.Inspecting.{rates_of, time_of, times_of};
ghost use Rattle.mot_listening.specs.Entities.{turn_lengths};

use crate::filling::time_in;
use crate::inspection::TurnTime;
use mot_directory::directory_bytes;
use mot_numbers::{PacketLength, Refusal, SegmentSize};
use mot_objects::Carousel;
use std::alloc::Global;

/// The rates of sub-channels that are told if none is asked for, in kbit/s.
const USUAL_RATES: [u32; 12] = [8, 16, 24, 32, 40, 48, 56, 64, 80, 96, 112, 128];

/// How long a carousel's turn is in a sub-channel of this rate or, if none is given, of the usual
/// ones.
pub(crate) fn turn_times(
    alloc: Global,
    carousel: &Carousel,
    segment_size: SegmentSize,
    rate: Option<u32>,
) -> Result<Vec<TurnTime>, Refusal>
    ensures times { (bodies : List (List ℕ)) → AreBodiesOf carousel.now bodies
        → IfOk result (λ times. times.items ≡ times_of (rates_of rate) segment_size
        (turn_of_carousel (carousel_of carousel.now bodies) segment_size)) }
    ensures refused { IfErr result (λ r. r ≡ OutOfMemory) }
{
    let directory = directory_bytes(alloc, carousel, segment_size)?.len();
    match rate {
        Some(rate) => times_at(alloc, &[rate], segment_size, directory, carousel),
        None => times_at(alloc, &USUAL_RATES, segment_size, directory, carousel),
    }
}

/// How long the turn of such a directory and these objects is at these rates.
fn times_at(
    alloc: Global,
    rates: &[u32],
    segment_size: SegmentSize,
    directory: usize,
    carousel: &Carousel,
) -> Result<Vec<TurnTime>, Refusal>
    requires { directory ≤ MAX_BODY }
    ensures times { IfOk result (λ times. times.items
        ≡ map (time_of (λ room. turn_lengths room segment_size
        (directory ∷ map (λ (o : Object). o.length) carousel.now.objects.items))) rates.now) }
    ensures refused { IfErr result (λ r. r ≡ OutOfMemory) }
{
    let mut times = Vec::new(alloc);
    for &rate in rates {
        times.push(TurnTime {
            rate,
            in_24: time_in(rate, PacketLength::P24, segment_size, directory, carousel),
            in_48: time_in(rate, PacketLength::P48, segment_size, directory, carousel),
            in_72: time_in(rate, PacketLength::P72, segment_size, directory, carousel),
            in_96: time_in(rate, PacketLength::P96, segment_size, directory, carousel),
        })?;
    }
    Ok(times)
}
