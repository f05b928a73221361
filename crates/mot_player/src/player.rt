//! The player of a carousel.
ghost use Rattle.std.specs.Prelude.{◌≡◌, ◌==◌, ◌^◌, ◌<◌, ℕ, List, length, not, true, false, Some};
ghost use Rattle.std.specs.Prelude.{None, IfOk, IfErr, IfSome, IsOk, OnOk, OnErr, is_some, vec_len};
ghost use Rattle.mot_numbers.specs.PacketLength.{room_of};
ghost use Rattle.mot_numbers.specs.declared.refusal.Refusal.TheVariants.{OutOfMemory};
ghost use Rattle.mot_packets.specs.Packet.{read_packet};
ghost use Rattle.mot_directory.specs.Entries.{HasAnother};
ghost use Rattle.mot_objects.specs.Stands.{AreBodiesOf, carousel_of};
ghost use Rattle.mot_player.specs.Turn.{ReadsBodies, IsFollowable, IsTurnOf, turn_of_carousel};
ghost use Rattle.mot_player.specs.PlayerView.{AreBodiesFor, place_of, turn_with};
ghost use Rattle.mot_player.specs.AnyBodies.{IsStepOfSome};
ghost use Rattle.mot_player.specs.Laws.{IsPlace, IsStep, StepsAreContinuous, StepsGoOn, bytes_left};
ghost use Rattle.mot_player.specs.Place.{Sent, change_turn, changed, directory_packets, following};
ghost use Rattle.mot_player.specs.Place.{hear_directory, opened_place, request};
ghost use Rattle.mot_player.specs.Staying.{BodiesGoOn, ChangesComeNext, ChangesGoEarly};
ghost use Rattle.mot_player.specs.Staying.{DirectoryComes, FewGoEarly, ReplacedKeepsItsPlace};
ghost use Rattle.mot_player.specs.Staying.{RequestsTakeInOrder};
ghost use Rattle.mot_player.specs.Repeats.{TurnsReadWithDirectories};
ghost use Rattle.mot_player.specs.Rounds.{RoundsAreContinuous};
ghost use Rattle.mot_player.specs.Start.{begin_with, newest};

use crate::lengths::packets_of_entity;
use crate::state::State;
use crate::{Bodies, Played, Spare, Turn};
use mot_numbers::{Address, PacketLength, Refusal, SegmentSize, TransportId};
use mot_objects::Carousel;
use mot_packets::Packet;
use std::alloc::Global;
use std::marker::Model;

/// A player of a carousel, which keeps what comes next of a turn, and the group under way.
#[derive(Drop)]
pub struct Player {
    state: State,
}

impl Model for Player {
    ghost use Rattle.mot_player.specs.PlayerView.{PlayerView};

    ghost Value = { PlayerView };

    ghost use Rattle.mot_player.specs.Inner.Ready.{IsReady};
    ghost use Rattle.mot_player.specs.State.{view_of};

    ghost view = { λ player. view_of player.state };

    ghost invariant = { λ player. IsReady player.state };
}

impl Player {
    /// A player of a turn, with nothing begun. It takes room for the largest group, and is refused
    /// for want of it alone.
    pub fn new(
        alloc: Global,
        address: Address,
        full_length: PacketLength,
        segment_size: SegmentSize,
        turn: Turn,
    ) -> Result<Player, Refusal>
        ensures opened { IfOk result (λ player. (bodies : List (List ℕ)) → AreBodiesFor turn bodies
            → place_of player bodies
            ≡ opened_place address (room_of full_length) segment_size (turn_with turn bodies)) }
        ensures turn { IfOk result (λ player. player.turn ≡ turn) }
        ensures size { IfOk result (λ player. player.segment_size ≡ segment_size) }
        ensures refused { IfErr result (λ refusal. refusal ≡ OutOfMemory) }

        // Whatever turns come between the requests, the packets of an opened player have their
        // continuity indexes.
        ensures continuous { OnOk result StepsAreContinuous }

        // The packets of a whole turn of a carousel read as exactly the carousel; and so they do
        // where the directory is asked for within the turn, if of segments that are sent again the
        // first count.
        ensures turns_with_directories { OnOk result TurnsReadWithDirectories }

        // The packets of the first sixteen turns can be sent round and round.
        ensures rounds { OnOk result RoundsAreContinuous }
        ensures steps { OnOk result StepsGoOn }

        // A directory that is asked for comes next and whole, changes come next, and bodies that
        // stay go on.
        ensures directory_comes { OnOk result DirectoryComes }
        ensures changes_next { OnOk result ChangesComeNext }
        ensures changes_early { OnOk result ChangesGoEarly }
        ensures few_early { OnOk result FewGoEarly }
        ensures bodies_go_on { OnOk result BodiesGoOn }

        // In the rest of a turn that is followed a replaced body keeps its place.
        ensures replaced_in_place { OnOk result ReplacedKeepsItsPlace }
        ensures in_order { OnOk result RequestsTakeInOrder }
    {
        let state = State::open(alloc, address, full_length, segment_size, turn)?;
        Ok(Player { state })
    }

    /// From now on it follows changed turns. Of the bodies that came and are not begun at most so
    /// many come before the turn goes on.
    pub fn follow_changes(&mut self, most: usize)
        ensures place { (bodies : List (List ℕ))
            → place_of self.new bodies ≡ following most (place_of self.old bodies) }
        ensures turn { self.new.turn ≡ self.old.turn }
        ensures size { self.new.segment_size ≡ self.old.segment_size }
    {
        self.state.follows = Some(most);
    }

    /// The turn begins after the group under way, with its newest bodies, at most so many, before all
    /// of them: what changed last is heard first. `cursor` is the transport id that was taken last. The
    /// only refusal is `OutOfMemory`, and then all stays.
    pub fn begin_newest(
        &mut self,
        alloc: Global,
        cursor: TransportId,
        most: usize,
    ) -> Result<(), Refusal>
        ensures place { OnOk result ((bodies : List (List ℕ)) → AreBodiesFor self.old.turn bodies
            → place_of self.new bodies
            ≡ begin_with (newest most cursor (turn_with self.old.turn bodies).bodies)
            (place_of self.old bodies)) }
        ensures turn { self.new.turn ≡ self.old.turn }
        ensures size { self.new.segment_size ≡ self.old.segment_size }
        ensures refused { IfErr result (λ refusal. refusal ≡ OutOfMemory) }
        ensures stays { OnErr result (self.new ≡ self.old) }
    {
        Ok(self.state.begin_newest(alloc, cursor, most)?)
    }

    /// The turn of a carousel, as `Turn::of` gives it, if the directory of the turn that is played has
    /// the same entries but for that of the object at this place: those of the others are copied. The
    /// only refusal is `OutOfMemory`.
    pub fn replaced_turn(
        &self,
        alloc: Global,
        carousel: &Carousel,
        place: usize,
    ) -> Result<Turn, Refusal>
        requires within { place < vec_len carousel.now.objects }
        requires another { (bodies : List (List ℕ)) × AreBodiesOf carousel.now bodies
            × HasAnother self.now.turn.directory (carousel_of carousel.now bodies) place }
        ensures bodies { IfOk result (λ turn. (bodies : List (List ℕ))
            → AreBodiesOf carousel.now bodies → AreBodiesFor turn bodies) }
        ensures turn { IfOk result (λ turn. (bodies : List (List ℕ))
            → AreBodiesOf carousel.now bodies → IsTurnOf (turn_with turn bodies)
            (carousel_of carousel.now bodies) self.now.segment_size) }
        ensures exact { IfOk result (λ turn. (bodies : List (List ℕ))
            → AreBodiesOf carousel.now bodies → turn_with turn bodies
            ≡ turn_of_carousel (carousel_of carousel.now bodies) self.now.segment_size) }
        ensures refused { IfErr result (λ refusal. refusal ≡ OutOfMemory) }
    {
        let State {
            turn,
            segment_size,
            ..
        } = &self.state;
        turn.replaced(alloc, carousel, place, *segment_size)
    }

    /// The room that it takes to follow a changed turn. A player that does not follow needs none, and
    /// takes no memory. The only refusal is `OutOfMemory`.
    pub fn spare(&self, alloc: Global) -> Result<Spare, Refusal>
        ensures room { IfOk result (λ spare. is_some self.now.follows ≡ true
            → length self.now.course.queue < spare) }
        ensures none { is_some self.now.follows ≡ false → IsOk result }
        ensures refused { IfErr result (λ refusal. refusal ≡ OutOfMemory) }
    {
        let count = if self.state.follows.is_some() {
            self.state.course.queued() + 1
        } else {
            0
        };
        Ok(Spare::of(alloc, count)?)
    }

    /// Whether changed bodies wait, which come before the turn goes on.
    pub fn has_early(&self) -> bool
        ensures { (bodies : List (List ℕ)) → AreBodiesFor self.now.turn bodies
            → result ≡ not ((place_of self.now bodies).early == 0) }
    {
        self.state.course.queued() > 0
    }

    /// The group under way stays; then the new turn begins, also where the player follows. It takes
    /// no memory.
    pub fn changed(&mut self, turn: Turn)
        ensures place { (bodies next : List (List ℕ)) → place_of self.new next
            ≡ change_turn (turn_with turn next) (place_of self.old bodies) }

        // Whatever turn comes, all but what waits stays: the group under way and the indexes.
        ensures stays { self.new
            ≡ record self.old { turn = turn; course = self.new.course } }
        ensures turn { self.new.turn ≡ turn }
        ensures size { self.new.segment_size ≡ self.old.segment_size }
    {
        self.state.begin_turn(turn);
    }

    /// As `changed`, but a player that follows goes on instead: after the new directory come the
    /// bodies that came and go early, and then the rest of the turn. The room for that is
    /// this player's, as it stands. It takes no memory.
    pub fn follow(&mut self, turn: Turn, spare: Spare)
        ensures begun { (bodies next : List (List ℕ)) → is_some self.old.follows ≡ false
            → place_of self.new next
            ≡ change_turn (turn_with turn next) (place_of self.old bodies) }

        // Turns are followed that differ by one change.
        ensures place { (bodies next : List (List ℕ)) → AreBodiesFor self.old.turn bodies
            → AreBodiesFor turn next
            → (is_some self.old.follows ≡ true → (length self.old.course.queue < spare)
            × IsFollowable (turn_with self.old.turn bodies) (turn_with turn next))
            → place_of self.new next
            ≡ changed (turn_with turn next) (place_of self.old bodies) }

        // Whatever turn comes, all but what waits stays: the group under way and the indexes.
        ensures stays { self.new
            ≡ record self.old { turn = turn; course = self.new.course } }
        ensures turn { self.new.turn ≡ turn }
        ensures size { self.new.segment_size ≡ self.old.segment_size }
    {
        self.state.change(turn, spare.into_queue());
    }

    /// The whole directory comes after the group under way, and then the bodies go on. If nothing
    /// of the turn waits, nothing changes, since the next turn begins with it.
    pub fn hear_directory(&mut self)
        ensures place { (bodies : List (List ℕ)) → AreBodiesFor self.old.turn bodies
            → place_of self.new bodies ≡ hear_directory (place_of self.old bodies) }
        ensures turn { self.new.turn ≡ self.old.turn }
        ensures size { self.new.segment_size ≡ self.old.segment_size }
    {
        let count = self.state.turn.entity_count();
        self.state.course.hear_directory(count);
    }

    /// How many packets the turn's directory takes.
    pub fn directory_packets(&self) -> usize
        ensures value { (bodies : List (List ℕ))
            → result ≡ directory_packets (place_of self.now bodies) }
        ensures few { result < 2 ^ 32 }
    {
        let State {
            turn,
            segment_size,
            full_length,
            ..
        } = &self.state;
        // A turn has a directory and its bodies. (The line is there for the proof.)
        let _ = turn.entity_count();
        packets_of_entity(turn.entity_length(0), *segment_size, *full_length)
    }

    /// The size of its segments.
    pub fn segment_size(&self) -> SegmentSize
        ensures value { result ≡ self.now.segment_size }
        ensures place { (bodies : List (List ℕ)) → AreBodiesFor self.now.turn bodies
            → IsPlace (place_of self.now bodies) }
    {
        self.state.segment_size
    }

    /// The next packet. It takes no memory; `DeviceFault` if a read of the bodies failed, and then
    /// the player is as before. The bodies are those of the last turn handed in.
    pub fn next_packet<B: Bodies>(&mut self, bodies: &mut B) -> Result<Played, Refusal>
        requires { AreBodiesFor self.old.turn (B.bodies bodies.old) }
        ensures sent { B.IsHonest bodies.new → IfOk result (λ played.
            IsStep (place_of self.old (B.bodies bodies.old)) played.packet.items played.ends_turn
            (place_of self.new (B.bodies bodies.old))) }

        // Whatever bytes a read gave, it is the next packet of some bodies of the turn's lengths.
        ensures sent_of_some { IfOk result (λ played. IsStepOfSome self.old
            played.packet.items played.ends_turn self.new) }
        ensures turn { self.new.turn ≡ self.old.turn }
        ensures size { self.new.segment_size ≡ self.old.segment_size }
        ensures stays { OnErr result (self.new ≡ self.old) }
        ensures reads { ReadsBodies B.bodies B.IsHonest B.failures B.HasOnlyRead bodies.old
            bodies.new result }

        // Of a group under way the next packet needs no read, and is never refused.
        ensures unread { IfSome self.old.under_way
            (λ u. (bodies.new ≡ bodies.old) × IsOk result) }

        // Whatever bytes a read gave, each packet brings the end of the turn nearer.
        ensures nearer { IfOk result (λ played. played.ends_turn ≡ false
            → bytes_left self.new < bytes_left self.old) }

        // From each of its places every group can be sent.
        ensures place { (bodies : List (List ℕ)) → AreBodiesFor self.old.turn bodies
            → IsPlace (place_of self.old bodies) }
    {
        let mut packet = Packet::new();
        let ends_turn = self.next_into(bodies, &mut packet)?;
        Ok(Played { packet, ends_turn })
    }

    /// As `next_packet`, in the place of what `packet` holds; whether it ends the turn.
    #[inline(always)]
    pub fn next_into<B: Bodies>(
        &mut self,
        bodies: &mut B,
        packet: &mut Packet,
    ) -> Result<bool, Refusal>
        requires { AreBodiesFor self.old.turn (B.bodies bodies.old) }
        ensures sent { B.IsHonest bodies.new → IfOk result (λ ends_turn.
            IsStep (place_of self.old (B.bodies bodies.old)) packet.new.items ends_turn
            (place_of self.new (B.bodies bodies.old))) }

        // Whatever bytes a read gave, it is the next packet of some bodies of the turn's lengths.
        ensures sent_of_some { IfOk result (λ ends_turn. IsStepOfSome self.old
            packet.new.items ends_turn self.new) }
        ensures turn { self.new.turn ≡ self.old.turn }
        ensures size { self.new.segment_size ≡ self.old.segment_size }
        ensures stays { OnErr result (self.new ≡ self.old) }
        ensures reads { ReadsBodies B.bodies B.IsHonest B.failures B.HasOnlyRead bodies.old
            bodies.new result }

        // Of a group under way the next packet needs no read, and is never refused.
        ensures unread { IfSome self.old.under_way
            (λ u. (bodies.new ≡ bodies.old) × IsOk result) }

        // Whatever bytes a read gave, each packet brings the end of the turn nearer.
        ensures nearer { IfOk result (λ ends_turn. ends_turn ≡ false
            → bytes_left self.new < bytes_left self.old) }

        // From each of its places every group can be sent.
        ensures place { (bodies : List (List ℕ)) → AreBodiesFor self.old.turn bodies
            → IsPlace (place_of self.old bodies) }
        ensures left { OnErr result (packet.new ≡ packet.old) }
    {
        if self.state.sent == 0 {
            self.state.begin(bodies)?;
        }
        Ok(self.state.send(packet))
    }
}
