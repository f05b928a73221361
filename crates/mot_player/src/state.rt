//! The state of a player, and its buffers.
ghost use Rattle.std.specs.Prelude.{◌≡◌, ℕ, ◌+◌, ◌^◌, ◌<◌, ◌≤◌, List, length, take, drop};
ghost use Rattle.std.specs.Prelude.{vec_capacity, vec_len, true, false, Some, OnSome, OnOk, OnErr};
ghost use Rattle.std.specs.Prelude.{IfOk, None, is_some};

use crate::course::{Course, Waiting};
use crate::difference::Difference;
use crate::groups::LastGroup;
use crate::part::{Part, part_at};
use crate::reading::read_front;
use crate::{Bodies, Turn};
use mot_numbers::{Address, GroupKind, PacketLength, Refusal, SegmentSize, TransportId};
use mot_packets::{Packet, cut_packet_into};
use std::alloc::{AllocError, Global};

/// What comes next of a turn, and the group under way.
#[derive(Drop)]
pub(crate) struct State {
    pub address: Address,
    pub full_length: PacketLength,
    pub segment_size: SegmentSize,
    pub turn: Turn,
    /// Which segments come next.
    pub course: Course,
    /// Whether a changed turn is followed, or begun; and if followed, how many bodies that came
    /// and are not begun are queued at most.
    pub follows: Option<usize>,
    /// The group under way, and how many of its bytes were sent; 0 if none is under way.
    pub group: Vec<u8>,
    pub sent: usize,
    /// The next packet's continuity index.
    pub index: u8,
    pub last_directory: LastGroup,
    pub last_body: LastGroup,
    /// Room for a segment's bytes.
    pub buffer: Vec<u8>,
}

/// A packet, and whether it ends the turn: nothing of the turn is left after it, and no changed
/// turn waits.
#[derive(Drop)]
pub struct Played {
    pub packet: Packet,
    pub ends_turn: bool,
}

impl State {
    ghost use Rattle.mot_numbers.specs.PacketLength.{room_of};
    ghost use Rattle.mot_packets.specs.Packet.{read_packet};
    ghost use Rattle.mot_packets.specs.Written.{bytes_of_packet};
    ghost use Rattle.mot_player.specs.Turn.{ReadsBodies, IsFollowable};
    ghost use Rattle.mot_player.specs.Place.{packet_sent, change_turn, follow};
    ghost use Rattle.mot_player.specs.Inner.Ready.{HasBegun, HasTaken, IsFitted, IsReady};
    ghost use Rattle.mot_player.specs.Inner.Ready.{place_with};
    ghost use Rattle.mot_player.specs.State.{view_of};
    ghost use Rattle.mot_player.specs.Inner.Next.{IsNext, TakesEarly};
    ghost use Rattle.mot_player.specs.PlayerView.{AreBodiesFor, turn_with};
    ghost use Rattle.mot_player.specs.Course.{course_of};
    ghost use Rattle.mot_player.specs.Inner.Course.{ended_course, passed};
    ghost use Rattle.mot_player.specs.Inner.Entities.{IsOnCourse, entity_bytes, entity_length};
    ghost use Rattle.mot_player.specs.Inner.Difference.{difference_in};
    ghost use Rattle.mot_player.specs.Start.{begin_with, newest};

    /// The state of a player of a turn, with nothing begun, and room for the largest group.
    pub fn open(
        alloc: Global,
        address: Address,
        full_length: PacketLength,
        segment_size: SegmentSize,
        turn: Turn,
    ) -> Result<State, AllocError>
        ensures ready { IfOk result (λ state. IsReady state) }
        ensures view { IfOk result (λ state. view_of state ≡ record {
          address = address;
          room = room_of full_length;
          segment_size = segment_size;
          under_way = None;
          turn = turn;
          course = ended_course (length turn.bodies + 1);
          follows = None;
          index = 0;
          last_directory = None;
          last_body = None;
        }) }
    {
        let size = usize::from(segment_size.get());
        let course = Course::ended(alloc, turn.entity_count());
        let group = Vec::with_capacity(alloc, size + 11)?;
        let last_directory = LastGroup::none(alloc, size)?;
        let last_body = LastGroup::none(alloc, size)?;
        let buffer = vec![in alloc; 0; size]?;
        Ok(State {
            address,
            full_length,
            segment_size,
            turn,
            course,
            follows: None,
            group,
            sent: 0,
            index: 0,
            last_directory,
            last_body,
            buffer,
        })
    }

    /// Begins the group of the next segment, of which no packet is sent yet. If a read of the
    /// bodies fails, all stays as it was.
    #[inline(never)]
    pub fn begin<B: Bodies>(&mut self, bodies: &mut B) -> Result<(), Refusal>
        requires fitted { IsFitted self.old }
        requires sent { self.old.sent ≡ 0 }
        requires bodies { AreBodiesFor self.old.turn (B.bodies bodies.old) }
        ensures fitted { IsFitted self.new }
        ensures begun { B.IsHonest bodies.new
            → OnOk result (HasBegun self.old self.new (B.bodies bodies.old)) }

        // Whatever a read gave, it is the group of some bodies of those lengths.
        ensures of_some { OnOk result ((some : List (List ℕ)) × AreBodiesFor self.old.turn some
            × HasBegun self.old self.new some) }
        ensures taken { OnOk result ((bodies : List (List ℕ)) → AreBodiesFor self.old.turn bodies
            → HasTaken self.old self.new bodies) }
        ensures sent { self.new.sent ≡ 0 }
        ensures some { OnOk result (0 < vec_len self.new.group) }
        ensures turn { self.new.turn ≡ self.old.turn }
        ensures size { self.new.segment_size ≡ self.old.segment_size }
        ensures stays { OnErr result (view_of self.new ≡ view_of self.old) }
        ensures reads { ReadsBodies B.bodies B.IsHonest B.failures B.HasOnlyRead bodies.old
            bodies.new result }
    {
        let part = part_at(&self.turn, self.segment_size, &self.course);
        read_front(
            &self.turn,
            bodies,
            part.entity,
            part.from,
            part.len,
            &mut self.buffer,
        )?;
        self.begin_part(part);
        Ok(())
    }

    /// Begins the group of a part, whose bytes are the front of the buffer.
    fn begin_part(&mut self, part: Part)
        requires fitted { IsFitted self.old }
        requires sent { self.old.sent ≡ 0 }
        requires entity { part.entity < length self.old.turn.bodies + 1 }
        requires range { part.from + part.len ≤ entity_length self.old.turn part.entity }
        requires len { (0 < part.len) × (part.len ≤ self.old.segment_size) }
        requires number { part.number < 2 ^ 15 }
        requires on_course { IsOnCourse self.old.turn self.old.segment_size
            (passed (length self.old.turn.bodies + 1) part (course_of self.old.course)) }
        requires next { IsNext self.old.turn self.old.segment_size (course_of self.old.course)
            part }
        requires early { TakesEarly self.old.turn self.old.segment_size
            (course_of self.old.course) part }
        ensures fitted { IsFitted self.new }
        ensures begun { (bodies : List (List ℕ)) → AreBodiesFor self.old.turn bodies
            → take part.len self.old.buffer.items
            ≡ take part.len (drop part.from (entity_bytes self.old.turn bodies part.entity))
            → HasBegun self.old self.new bodies }
        ensures taken { (bodies : List (List ℕ)) → AreBodiesFor self.old.turn bodies
            → HasTaken self.old self.new bodies }
        ensures sent { self.new.sent ≡ 0 }
        ensures some { 0 < vec_len self.new.group }
        ensures turn { self.new.turn ≡ self.old.turn }
        ensures size { self.new.segment_size ≡ self.old.segment_size }
    {
        let tid = self.turn.entity_tid(part.entity);
        let bytes = &self.buffer.as_slice()[..part.len];
        if part.entity == 0 {
            self.last_directory.begin_group(
                &mut self.group,
                GroupKind::Directory,
                tid,
                part.number,
                part.is_last,
                bytes,
            );
        } else {
            self.last_body.begin_group(
                &mut self.group,
                GroupKind::Body,
                tid,
                part.number,
                part.is_last,
                bytes,
            );
        }
        self.course.pass(self.turn.entity_count(), part);
    }

    /// A changed turn begins after the group under way.
    pub fn begin_turn(&mut self, turn: Turn)
        requires fitted { IsFitted self.old }
        ensures fitted { IsFitted self.new }
        ensures begun { (bodies next : List (List ℕ)) → place_with self.new next
            ≡ change_turn (turn_with turn next) (place_with self.old bodies) }
        ensures turn { self.new.turn ≡ turn }
        ensures size { self.new.segment_size ≡ self.old.segment_size }
        ensures sent { (self.new.sent ≡ self.old.sent) × (self.new.group ≡ self.old.group) }
        ensures stays { view_of self.new
            ≡ record (view_of self.old) { turn = turn; course = course_of self.new.course } }
    {
        // A turn has a directory and its bodies. (The line is there for the proof.)
        let _ = turn.entity_count();
        self.course.begin_turn();
        self.turn = turn;
    }

    /// The turn begins after the group under way, with its newest bodies, at most so many, before all
    /// of them.
    pub fn begin_newest(
        &mut self,
        alloc: Global,
        cursor: TransportId,
        most: usize,
    ) -> Result<(), AllocError>
        requires fitted { IsFitted self.old }
        ensures fitted { IsFitted self.new }
        ensures begun { OnOk result ((bodies : List (List ℕ)) → AreBodiesFor self.old.turn bodies
            → place_with self.new bodies
            ≡ begin_with (newest most cursor (turn_with self.old.turn bodies).bodies)
            (place_with self.old bodies)) }
        ensures turn { self.new.turn ≡ self.old.turn }
        ensures size { self.new.segment_size ≡ self.old.segment_size }
        ensures sent { (self.new.sent ≡ self.old.sent) × (self.new.group ≡ self.old.group) }
        ensures stays { OnErr result (self.new ≡ self.old) }
    {
        let queue = self.turn.newest(alloc, cursor, most)?;
        self.course.begin_with(queue);
        Ok(())
    }

    /// A changed turn is followed, or begins, after the group under way.
    pub fn change(&mut self, turn: Turn, room: Vec<Waiting>)
        requires fitted { IsFitted self.old }
        requires empty { vec_len room ≡ 0 }
        ensures fitted { IsFitted self.new }
        ensures begun { (bodies next : List (List ℕ)) → is_some self.old.follows ≡ false
            → place_with self.new next
            ≡ change_turn (turn_with turn next) (place_with self.old bodies) }
        ensures followed { (bodies next : List (List ℕ)) → AreBodiesFor self.old.turn bodies
            → AreBodiesFor turn next → is_some self.old.follows ≡ true
            → length (course_of self.old.course).queue < vec_capacity room
            → IsFollowable (turn_with self.old.turn bodies) (turn_with turn next)
            → place_with self.new next
            ≡ follow (turn_with turn next) (place_with self.old bodies) }
        ensures turn { self.new.turn ≡ turn }
        ensures size { self.new.segment_size ≡ self.old.segment_size }
        ensures sent { (self.new.sent ≡ self.old.sent) × (self.new.group ≡ self.old.group) }
        ensures stays { view_of self.new
            ≡ record (view_of self.old) { turn = turn; course = course_of self.new.course } }
    {
        // A turn has a directory and its bodies. (The line is there for the proof.)
        let _ = turn.entity_count();
        let difference = self.difference(&turn, room.capacity());
        let count = self.turn.entity_count();
        let most = self.follows.unwrap_or(0);
        self.course
            .change(difference, self.sent == 0, most, count, room);
        self.turn = turn;
    }

    /// The one change that a turn to be followed makes, if the queue has room for it.
    fn difference(&self, turn: &Turn, room: usize) -> Option<Difference>
        ensures difference { result ≡ difference_in (is_some self.now.follows) room
            (course_of self.now.course) self.now.turn.bodies turn.now.bodies }
        ensures room { OnSome result (length (course_of self.now.course).queue < room) }
    {
        if self.follows.is_some() && self.course.queued() < room {
            self.turn.difference(turn)
        } else {
            None
        }
    }

    /// Sends the next packet of the group that was begun, by `packet`; whether it ends the turn.
    #[inline(always)]
    pub fn send(&mut self, packet: &mut Packet) -> bool
        requires fitted { IsFitted self.old }
        requires left { self.old.sent < vec_len self.old.group }
        ensures fitted { IsFitted self.new }
        ensures turn { self.new.turn ≡ self.old.turn }
        ensures size { self.new.segment_size ≡ self.old.segment_size }
        ensures left { 0 < self.new.sent → self.new.sent < vec_len self.new.group }
        ensures bytes { (bodies : List (List ℕ)) → packet.new.items ≡ bytes_of_packet
            (packet_sent (place_with self.old bodies) self.old.group.items self.old.sent).packet }
        ensures packet { (bodies : List (List ℕ)) → read_packet packet.new.items
            ≡ Some (packet_sent (place_with self.old bodies) self.old.group.items
            self.old.sent).packet }
        ensures place { (bodies : List (List ℕ)) → place_with self.new bodies
            ≡ (packet_sent (place_with self.old bodies) self.old.group.items self.old.sent).place }
        ensures ends_turn { (bodies : List (List ℕ)) → AreBodiesFor self.old.turn bodies
            → result
            ≡ (packet_sent (place_with self.old bodies) self.old.group.items
            self.old.sent).ends_turn }
    {
        let room = self.full_length.room();
        let is_last = self.group.len() - self.sent <= room;
        // One packet a call, since a turn may change between two. `write_packets` of `mot_session`
        // has a loop over all packets of a group, which is not sent but shown.
        cut_packet_into(
            packet,
            self.group.as_slice(),
            self.sent,
            self.full_length,
            self.address,
            self.index,
        );
        let ends_turn = is_last && self.course.has_ended(self.turn.entity_count());
        self.sent = if is_last { 0 } else { self.sent + room };
        self.index = (self.index + 1) % 4;
        ends_turn
    }
}
