//! Frames of a sub-channel, filled as a multiplexer fills them.
ghost use Rattle.std.specs.Prelude.{◌≡◌, ◌+◌, ◌^◌, ◌<◌, ◌≤◌, ◌∷◌, map};
ghost use Rattle.std.specs.List.{fold};
ghost use Rattle.mot_numbers.specs.PacketLength.{room_of};
ghost use Rattle.mot_objects.specs.declared.body.TheConstants.{MAX_BODY};
ghost use Rattle.mot_objects.specs.declared.object.Object.{Object};
ghost use Rattle.mot_export.specs.Filling.{with_packet};
ghost use Rattle.mot_export.specs.Inspecting.{time_in};
ghost use Rattle.mot_export.specs.Inner.Filled.{AreRight, followed_by, frame_with};
ghost use Rattle.mot_listening.specs.Entities.{entity_lengths, group_lengths, packet_length};
ghost use Rattle.mot_listening.specs.Entities.{turn_lengths};

use mot_groups::segment_count;
use mot_listening::{GROUP_FRAME, packet_for};
use mot_numbers::{PacketLength, SegmentSize};
use mot_objects::Carousel;
use mot_packets::packet_count;

/// Frames that packets fill, each packet whole in one.
#[derive(Clone, Copy)]
pub(crate) struct Frames {
    /// How many were begun.
    pub(crate) begun: u64,
    /// How many bytes of the last are left.
    pub(crate) left: usize,
    /// Whether each packet fits in a frame.
    pub(crate) fits: bool,
}

impl Frames {
    /// A frame with so many bytes left, and none begun behind it.
    fn with_left(left: usize) -> Self
        ensures { result ≡ frame_with left }
    {
        Frames {
            begun: 0,
            left,
            fits: true,
        }
    }

    /// Those that were filled from what is left of these on.
    fn add(&mut self, behind: Frames)
        requires few { (self.old.begun < 2 ^ 60) × (behind.begun < 2 ^ 20) }
        ensures { self.new ≡ followed_by self.old behind }
    {
        self.begun += behind.begun;
        self.left = behind.left;
        self.fits = self.fits && behind.fits;
    }

    /// Puts a packet into the frame, or into the next if it has no room there.
    fn fill(&mut self, size: usize, packet: usize)
        requires { self.old.begun < 2 ^ 60 }
        ensures filled { self.new ≡ with_packet size self.old packet }
        ensures few { self.new.begun ≤ self.old.begun + 1 }
    {
        if packet <= self.left {
            self.left -= packet;
        } else {
            self.begun += 1;
            self.left = size.saturating_sub(packet);
            self.fits = self.fits && packet <= size;
        }
    }
}

/// How many steps are kept.
const STEPS: usize = 64;

/// What a group of so many bytes makes of a frame with so many left.
#[derive(Clone, Copy)]
pub(crate) struct Step {
    len: usize,
    left: usize,
    /// That frame behind it, or those that were begun.
    frames: Frames,
}

/// The steps of a turn, in which most groups are as long as the one before, and frames end in few
/// ways.
#[derive(Drop)]
struct Steps {
    /// The bytes of a frame.
    size: usize,
    full_length: PacketLength,
    kept: [Option<Step>; STEPS],
}

impl Steps {
    /// What a group of so many bytes makes of a frame with so many left.
    fn behind(&mut self, len: usize, left: usize) -> Frames
        requires short { len < 2 ^ 20 }
        requires right { AreRight self.old }
        ensures right { AreRight self.new }
        ensures same { (self.new.size ≡ self.old.size)
            × (self.new.full_length ≡ self.old.full_length) }
        ensures filled { result ≡ fold (with_packet self.old.size) (frame_with left)
            (group_lengths (room_of self.old.full_length) len) }
        ensures few { result.begun < 2 ^ 20 }
    {
        let place = (left / 8 + len) % STEPS;
        if let Some(kept) = &self.kept[place]
            && kept.left == left
            && kept.len == len
        {
            return kept.frames;
        }
        let mut frames = Frames::with_left(left);
        fill_group(&mut frames, self.size, self.full_length, len);
        self.kept[place] = Some(Step { len, left, frames });
        frames
    }
}

/// How many milliseconds the turn of such a directory and this carousel's objects takes at this rate
/// in packets of this length; `None`, if one fits in no frame.
pub(crate) fn time_in(
    rate: u32,
    full_length: PacketLength,
    segment_size: SegmentSize,
    directory: usize,
    carousel: &Carousel,
) -> Option<u64>
    requires { directory ≤ MAX_BODY }
    ensures { result ≡ time_in rate (turn_lengths (room_of full_length) segment_size
        (directory ∷ map (λ (o : Object). o.length) carousel.now.objects.items)) }
{
    let mut frames = Frames::with_left(0);
    let mut steps = Steps {
        size: 3 * rate as usize,
        full_length,
        kept: [None; STEPS],
    };
    fill_entity(&mut frames, &mut steps, segment_size, directory);
    for object in &carousel.objects {
        let len = object.length.get() as usize;
        fill_entity(&mut frames, &mut steps, segment_size, len);
    }
    frames.fits.then_some(24 * frames.begun)
}

/// Fills frames with the packets of a directory or body of so many bytes.
fn fill_entity(frames: &mut Frames, steps: &mut Steps, segment_size: SegmentSize, len: usize)
    requires few { frames.old.begun < 2 ^ 50 }
    requires short { len ≤ MAX_BODY }
    requires right { AreRight steps.old }
    ensures right { AreRight steps.new }
    ensures same { (steps.new.size ≡ steps.old.size)
        × (steps.new.full_length ≡ steps.old.full_length) }
    ensures filled { frames.new ≡ fold (with_packet steps.old.size) frames.old
        (entity_lengths (room_of steps.old.full_length) segment_size len) }
    ensures few { frames.new.begun ≤ frames.old.begun + 2 ^ 40 }
{
    let count = segment_count(len, segment_size);
    let full = usize::from(segment_size.get());
    let mut rest = len;
    for _ in 0..count {
        let group = full.min(rest) + GROUP_FRAME;
        frames.add(steps.behind(group, frames.left));
        rest = rest.saturating_sub(full);
    }
}

/// Fills frames with the packets of a group of so many bytes.
fn fill_group(frames: &mut Frames, size: usize, full_length: PacketLength, len: usize)
    requires few { frames.old.begun < 2 ^ 55 }
    requires short { len < 2 ^ 20 }
    ensures filled { frames.new ≡ fold (with_packet size) frames.old
        (group_lengths (room_of full_length) len) }
    ensures few { frames.new.begun ≤ frames.old.begun + len }
{
    let count = packet_count(len, full_length);
    let room = full_length.room();
    let mut rest = len;
    for _ in 0..count {
        frames.fill(size, packet_for(rest, full_length));
        rest = rest.saturating_sub(room);
    }
}
