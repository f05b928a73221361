//! The server: a repository, and a player of what it keeps.
ghost use Rattle.std.specs.Prelude.{◌≡◌, ◌<◌, ◌≤◌, ◌==◌, ◌↔◌, ℕ, List, true, false, not};
ghost use Rattle.std.specs.Prelude.{None, Ok, OnOk, OnErr, IfSome};
ghost use Rattle.std.specs.Prelude.{◌+◌, ◌^◌, ◌⊎◌, vec_len, IfOk, IfErr};
ghost use Rattle.std.specs.Prelude.{IsFalse, IsTrue, MatchResult};
ghost use Rattle.disk_model.specs.Disk.{Keeps, Costs, OnlyReads, OnlySyncs};
ghost use Rattle.disk_model.specs.Disk.{Throughout};
ghost use Rattle.mot_journal.specs.Image as journal;
ghost use Rattle.mot_numbers.specs.Refusal.{IsCalm};
ghost use Rattle.mot_numbers.specs.declared.refusal.Refusal.TheVariants.{DeviceFault, OutOfMemory};
ghost use Rattle.mot_numbers.specs.Geometry.{packet_room};
ghost use Rattle.mot_player.specs.Place.{change_turn, changed, directory_packets, following};
ghost use Rattle.mot_player.specs.Place.{hear_directory, opened_place};
ghost use Rattle.mot_player.specs.Start.{begin_with, newest};
ghost use Rattle.mot_player.specs.Turn.{turn_of_carousel};
ghost use Rattle.mot_repository.specs.Outcome.{after_command};
ghost use Rattle.mot_repository.specs.Repository.{Agrees, HasStanding, Holds, IsBeforeOrAfter};
ghost use Rattle.mot_repository.specs.Repository.{IsOf, object_body};

use crate::bodies::DiskBodies;
use crate::comparing::is_body;
use crate::playing::{player_of, replaced_place, turn_to_follow};
use disk_model::Disk;
use mot_journal::Layout;
use mot_numbers::{Geometry, Refusal, SegmentSize};
use mot_objects::{Carousel, Command, Done};
use mot_packets::Packet;
use mot_player::{Played, Player};
use mot_repository::{Refused, Repository};
use std::alloc::Global;
use std::marker::Model;

/// A server of packets, which keeps a carousel on a disk, and plays it. It holds no body in memory.
///
/// A disk fault in a command halts it: it is then to be opened again from its disk.
#[derive(Drop)]
pub struct Server<D: Disk> {
    bodies: DiskBodies<D>,
    player: Player,
}

impl<D: Disk> Model for Server<D> {
    ghost use Rattle.mot_playout.specs.Inner.{PlaysCarousel};
    ghost use Rattle.mot_playout.specs.Runs.{ServerView};

    ghost Value = { ServerView D };

    ghost view = { λ server. record {
      view = server.bodies.repository.view;
      disk = server.bodies.repository.disk;
      player = server.player;
    } };

    ghost invariant = { λ server. PlaysCarousel server.bodies.repository.view.carousel
        server.bodies.repository.view.journal.geometry.segment server.player };
}

impl<D: Disk> Server<D> {
    ghost use Rattle.mot_numbers.specs.Geometry.{is_valid};
    ghost use Rattle.mot_journal.specs.Image.{stands_for, IsClean, gate_reads};
    ghost use Rattle.mot_journal.specs.Journal.{StandsWhere};
    ghost use Rattle.mot_journal.specs.Reason.{HasReason, IsReasonOf};
    ghost use Rattle.mot_journal.specs.declared.layout.Layout.TheVariants.{One, Two};
    ghost use Rattle.mot_player.specs.AnyBodies.{IsStepOfSome, PlaysOn, PlaysToTheEnd};
    ghost use Rattle.mot_player.specs.Laws.{IsAtTurnsBeginning, IsPlace, IsStep, bytes_left};
    ghost use Rattle.mot_player.specs.Reading.{ReadsAs};
    ghost use Rattle.mot_player.specs.PlayerView.{AreBodiesFor, place_of};
    ghost use Rattle.mot_repository.specs.Answers.{IsAnswered, IsMigrationRefusal};
    ghost use Rattle.mot_journal.specs.Slot.{slot_count};
    ghost use Rattle.mot_repository.specs.Outcome.{calls_of_command};
    ghost use Rattle.mot_carousel.specs.Gap.{IsLongestGap};
    ghost use Rattle.mot_repository.specs.Opening.{IsOpened, IsOpeningRefusal};
    ghost use Rattle.mot_playout.specs.Inner.{PlaysCarousel};
    ghost use Rattle.mot_playout.specs.Playing.{HasPlayed, HasPlayedTurn, bytes_of_packets};
    ghost use Rattle.mot_playout.specs.Playing.{IsReadRefusal, IsTurnRefusal};
    ghost use Rattle.mot_playout.specs.Runs.{place_in};

    /// Opens a disk, to play its carousel from the beginning. It syncs the disk first, and changes
    /// nothing on it but that. It takes memory for the records of one half, the objects and one
    /// turn's directory, and none for bodies.
    ///
    /// The refusals are `DeviceFault` if the disk failed, `OutOfMemory`, `NotFormatted` for a disk
    /// with no magic, a geometry out of range or too few bytes, and `Damaged`. The last has the
    /// number of the first slot that breaks the format, or else of the first whose record makes a
    /// fault of the list: too many objects, none of the id that is to go, two of one id, extents
    /// that meet.
    pub fn open(alloc: Global, disk: D) -> Result<Self, Refused<D>>
        ensures only_syncs { MatchResult result
            (λ server. OnlySyncs (D.state disk) (D.state server.disk))
            (λ e. OnlySyncs (D.state disk) (D.state e.disk)) }
        ensures going { IfOk result (λ server. IsFalse server.view.halted) }

        // A disk fault is answered exactly if the disk has failed.
        ensures calm { MatchResult result
            (λ server. (D.state server.disk).failures ≡ (D.state disk).failures)
            (λ e. IsCalm e.refusal (D.state disk).failures
            (D.state e.disk).failures) }

        // a sync, a read of the head, and a read of the selected half
        ensures cost { MatchResult result
            (λ server. (D.state server.disk).calls ≡ (D.state disk).calls + 3)
            (λ e. (D.state e.disk).calls ≤ (D.state disk).calls + 3) }

        // What is kept is what the disk stands for, and no position of it is loose.
        ensures opened { IfOk result (λ server. (D.state server.disk).IsHonest
            → IsOpened (D.state disk) (D.state server.disk) server.view) }

        // Nothing was played of it.
        ensures at_start { IfOk result (λ server. (s : journal.Standing) → Agrees server.view s
            → place_in server s
            ≡ opened_place s.geometry.address (packet_room s.geometry) s.geometry.segment
            (turn_of_carousel s.carousel s.geometry.segment)) }
        ensures refused { IfErr result
            (λ e. IsOpeningRefusal (D.state disk) (D.state e.disk) e.refusal) }

        // What the bytes are refused for is told, and so of them.
        ensures reason { IfErr result (λ e. HasReason e.refusal e.reason) }
        ensures so { IfErr result (λ e. (D.state e.disk).IsHonest
            → IfSome e.reason (IsReasonOf (D.state disk).bytes)) }
    {
        let repository = Repository::open(alloc, disk)?;
        match player_of(alloc, &repository) {
            Ok(player) => Ok(Server {
                bodies: DiskBodies { repository },
                player,
            }),
            Err(refusal) => Err(Refused {
                refusal,
                reason: None,
                disk: repository.into_disk(),
            }),
        }
    }

    /// The disk, as it stands.
    pub fn into_disk(self) -> D
        ensures { result ≡ self.disk }
    {
        let Server { bodies, player: _ } = self;
        bodies.repository.into_disk()
    }

    /// The carousel, whose bodies lie on the disk.
    pub fn carousel(&self) -> &Carousel
        ensures value { result.now ≡ self.now.view.carousel }
    {
        self.bodies.repository.carousel()
    }

    /// The sizes that the disk was formatted with.
    pub fn geometry(&self) -> Geometry
        ensures value { result ≡ self.now.view.journal.geometry }
        ensures valid { is_valid self.now.view.journal.geometry ≡ true }
    {
        self.bodies.repository.geometry()
    }

    /// The layout of the half that is selected.
    pub fn layout(&self) -> Layout
        ensures value { result ≡ self.now.view.journal.layout }
    {
        self.bodies.repository.layout()
    }

    /// Whether a command ended in a disk fault.
    pub fn halted(&self) -> bool
        ensures value { result ≡ self.now.view.halted }
    {
        self.bodies.repository.halted()
    }

    /// The most bytes that the body of one object more could have: they lie in one piece.
    pub fn longest_gap(&self) -> u32
        ensures { IsLongestGap self.now.view.extents self.now.view.journal.geometry.area
            result }
    {
        self.bodies.repository.longest_gap()
    }

    /// How many records its disk has, each in a slot of the half that is selected.
    pub fn record_count(&self) -> usize
        ensures { result ≡ self.now.view.journal.count }
    {
        self.bodies.repository.record_count()
    }

    /// Does the command, and gives the transport ids that it took. The refusals are those of the
    /// rules, `NoRoom` if no gap holds the body, `OutOfMemory`, `BadName` on layout 1 for a name
    /// above 100 bytes, `DeviceFault` and `Halted`.
    ///
    /// At `DeviceFault` the server is halted, with the carousel from before; after every other
    /// refusal it is as it was, and so is the disk. All memory is taken before anything is written.
    pub fn execute(&mut self, alloc: Global, command: &Command) -> Result<Done, Refusal>
        ensures keeps { Keeps (D.state self.old.disk) (D.state self.new.disk) }
        ensures going { OnOk result (IsFalse self.old.view.halted) }
        ensures calm { OnOk result
            ((D.state self.new.disk).failures ≡ (D.state self.old.disk).failures) }
        ensures cost { Costs (calls_of_command self.old.view.journal command.now)
            (D.state self.old.disk) (D.state self.new.disk) result }
        ensures untouched { IfErr result
            (λ refusal. (refusal ≡ DeviceFault) ⊎ (self.new ≡ self.old)) }
        ensures answered { IsAnswered self.old.view self.new.view
            (D.state self.old.disk) (D.state self.new.disk) command.now result }

        // At each moment a crash leaves what the disk stood for before the command, or what it
        // stands for after it.
        ensures any_moment { (s : journal.Standing)
            → Holds self.old.view s (D.state self.old.disk)
            → Throughout (D.state self.old.disk) (D.state self.new.disk)
            (IsBeforeOrAfter self.old.view.journal.layout s command.now) }

        // Once it is Ok, each crash leaves what it stands for after the command.
        ensures ok { (s : journal.Standing) → Holds self.old.view s (D.state self.old.disk)
            → IfOk result (λ done. (next : journal.Standing)
            × (after_command self.old.view.journal.layout s command.now ≡ Ok (next, done))
            × Holds self.new.view next (D.state self.new.disk)) }

        // The turn of the carousel after it comes after the group under way: it begins, or if the
        // server follows it goes on from where the turn stood.
        ensures place { (s next : journal.Standing)
            → Holds self.old.view s (D.state self.old.disk) → Agrees self.new.view next
            → IfOk result (λ done.
            after_command self.old.view.journal.layout s command.now ≡ Ok (next, done)
            → place_in self.new next
            ≡ changed (turn_of_carousel next.carousel next.geometry.segment)
            (place_in self.old s)) }
        ensures anew { (s next : journal.Standing) → self.old.player.follows ≡ None
            → Agrees self.old.view s → Agrees self.new.view next → OnOk result
            (place_in self.new next
            ≡ change_turn (turn_of_carousel next.carousel next.geometry.segment)
            (place_in self.old s)) }
        ensures stays { OnErr result (self.new.player ≡ self.old.player) }
    {
        let prepared = self.bodies.repository.prepare(alloc, command)?;
        let next = prepared.next();
        let replaced = replaced_place(command, next);
        let (turn, spare) = turn_to_follow(alloc, &self.player, next, replaced)?;
        let done = self.bodies.repository.commit(prepared)?;
        self.player.follow(turn, spare);
        Ok(done)
    }

    /// From now on a command that is accepted does not begin a new turn: the new directory and
    /// the changed body come next, and then the turn goes on. A changed body comes in its place
    /// alone while `early` others that are not begun wait to come before it. It takes no memory,
    /// and does not call the disk; each command then takes memory for a few more numbers.
    pub fn follow_changes(&mut self, early: usize)
        ensures disk { self.new.disk ≡ self.old.disk }
        ensures view { self.new.view ≡ self.old.view }
        ensures place { (s : journal.Standing)
            → place_in self.new s ≡ following early (place_in self.old s) }
    {
        self.player.follow_changes(early);
    }

    /// The turn begins, with its newest bodies, at most so many, before all of them: what changed last
    /// is heard first. It does not call the disk. The only refusal is `OutOfMemory`.
    pub fn begin_newest(&mut self, alloc: Global, most: usize) -> Result<(), Refusal>
        ensures disk { self.new.disk ≡ self.old.disk }
        ensures view { self.new.view ≡ self.old.view }
        ensures place { OnOk result ((s : journal.Standing) → Agrees self.old.view s
            → place_in self.new s
            ≡ begin_with (newest most s.carousel.cursor (place_in self.old s).turn.bodies)
            (place_in self.old s)) }
        ensures refused { IfErr result (λ refusal. refusal ≡ OutOfMemory) }
    {
        let cursor = self.bodies.repository.carousel().cursor;
        self.player.begin_newest(alloc, cursor, most)
    }

    /// Whether changed bodies wait, which come before the turn goes on.
    pub fn has_early(&self) -> bool
        ensures { (s : journal.Standing) → Agrees self.now.view s
            → result ≡ not ((place_in self.now s).early == 0) }
    {
        self.player.has_early()
    }

    /// The whole directory comes after the group under way, and then the turn goes on; if a turn
    /// begins next anyhow, nothing changes. It takes no memory, and does not call the disk.
    pub fn hear_directory(&mut self)
        ensures disk { self.new.disk ≡ self.old.disk }
        ensures view { self.new.view ≡ self.old.view }
        ensures place { (s : journal.Standing) → Agrees self.old.view s
            → place_in self.new s ≡ hear_directory (place_in self.old s) }
    {
        self.player.hear_directory();
    }

    /// How many packets the turn's directory takes.
    pub fn directory_packets(&self) -> usize
        ensures value { (s : journal.Standing)
            → result ≡ directory_packets (place_in self.now s) }
        ensures few { result < 2 ^ 32 }
    {
        self.player.directory_packets()
    }

    /// The next packet by the order of sending. It takes no memory. Its refusals are `DeviceFault`
    /// if a body can't be read, after which the server goes on from where it was, and `Halted`.
    pub fn next_packet(&mut self) -> Result<Played, Refusal>
        ensures only_reads { OnlyReads (D.state self.old.disk) (D.state self.new.disk) }
        ensures view { self.new.view ≡ self.old.view }

        // a part of a body at most
        ensures cost { (D.state self.new.disk).calls ≤ (D.state self.old.disk).calls + 1 }

        // It is the next packet of what the disk stands for.
        ensures sent { (s : journal.Standing) → HasStanding self.old.view s (D.state self.old.disk)
            → (D.state self.new.disk).IsHonest → IfOk result (λ played. IsStep
            (place_in self.old s) played.packet.items played.ends_turn (place_in self.new s)) }
        ensures stays { OnErr result (self.new.player ≡ self.old.player) }

        // On every disk it is the next packet of some bodies of the turn's lengths.
        ensures of_some { IfOk result (λ played. IsStepOfSome self.old.player
            played.packet.items played.ends_turn self.new.player) }

        // On every disk, each packet brings the end of the turn nearer.
        ensures nearer { IfOk result (λ played. played.ends_turn ≡ false
            → bytes_left self.new.player < bytes_left self.old.player) }
        ensures going { OnOk result (IsFalse self.old.view.halted) }
        ensures no_fault { OnOk result
            ((D.state self.new.disk).failures ≡ (D.state self.old.disk).failures) }
        ensures refused { IfErr result (λ refusal. IsReadRefusal self.old self.new
            (D.state self.old.disk).failures (D.state self.new.disk).failures refusal) }
    {
        let mut packet = Packet::new();
        let ends_turn = self.next_into(&mut packet)?;
        Ok(Played { packet, ends_turn })
    }

    /// As `next_packet`, in the place of what `packet` holds; whether it ends the turn.
    #[inline(always)]
    pub fn next_into(&mut self, packet: &mut Packet) -> Result<bool, Refusal>
        ensures only_reads { OnlyReads (D.state self.old.disk) (D.state self.new.disk) }
        ensures view { self.new.view ≡ self.old.view }

        // a part of a body at most
        ensures cost { (D.state self.new.disk).calls ≤ (D.state self.old.disk).calls + 1 }

        // It is the next packet of what the disk stands for.
        ensures sent { (s : journal.Standing) → HasStanding self.old.view s (D.state self.old.disk)
            → (D.state self.new.disk).IsHonest → IfOk result (λ ends_turn. IsStep
            (place_in self.old s) packet.new.items ends_turn (place_in self.new s)) }
        ensures stays { OnErr result (self.new.player ≡ self.old.player) }

        // On every disk it is the next packet of some bodies of the turn's lengths.
        ensures of_some { IfOk result (λ ends_turn. IsStepOfSome self.old.player
            packet.new.items ends_turn self.new.player) }

        // On every disk, each packet brings the end of the turn nearer.
        ensures nearer { IfOk result (λ ends_turn. ends_turn ≡ false
            → bytes_left self.new.player < bytes_left self.old.player) }
        ensures going { OnOk result (IsFalse self.old.view.halted) }
        ensures no_fault { OnOk result
            ((D.state self.new.disk).failures ≡ (D.state self.old.disk).failures) }
        ensures refused { IfErr result (λ refusal. IsReadRefusal self.old self.new
            (D.state self.old.disk).failures (D.state self.new.disk).failures refusal) }
        ensures left { OnErr result (packet.new ≡ packet.old) }
    {
        if self.bodies.repository.halted() {
            return Err(Refusal::Halted);
        }
        // There is a body for each object. The line is there for the proof, and does nothing when
        // it runs.
        let _ = self.bodies.repository.body_count();
        self.player.next_into(&mut self.bodies, packet)
    }

    /// The packets up to the first that ends a turn: from the beginning of a turn on they read as
    /// exactly the carousel. Its refusals are those of `next_packet`, and `OutOfMemory`; the server
    /// then goes on after the packets that were played.
    pub fn play_turn(&mut self, alloc: Global) -> Result<Vec<Packet>, Refusal>
        ensures only_reads { OnlyReads (D.state self.old.disk) (D.state self.new.disk) }
        ensures view { self.new.view ≡ self.old.view }
        ensures turn { (s : journal.Standing) → Holds self.old.view s (D.state self.old.disk)
            → (D.state self.new.disk).IsHonest → IfOk result (λ packets. HasPlayedTurn
            (place_in self.old s) (bytes_of_packets packets.items) (place_in self.new s)) }

        // They read as what the disk stands for.
        ensures reads { (s : journal.Standing) → Holds self.old.view s (D.state self.old.disk)
            → (D.state self.new.disk).IsHonest → IsAtTurnsBeginning (place_in self.old s)
            → IfOk result (λ packets. ReadsAs (bytes_of_packets packets.items) s.carousel
            s.geometry.segment) }
        ensures stands { (s : journal.Standing) → Holds self.old.view s (D.state self.old.disk)
            → (D.state self.new.disk).IsHonest → OnErr result ((count : ℕ)
            × (packets : List (List ℕ)) × HasPlayed (place_in self.old s) count packets
            (place_in self.new s)) }

        // On every disk they are packets of some bodies of the turn's lengths.
        ensures of_some { MatchResult result
            (λ packets. PlaysToTheEnd self.old.player (bytes_of_packets packets.items)
            self.new.player)
            (λ refusal. (packets : List (List ℕ)) × (PlaysOn self.old.player packets
            self.new.player ⊎ PlaysToTheEnd self.old.player packets self.new.player)) }
        ensures going { OnOk result (IsFalse self.old.view.halted) }
        ensures refused { IfErr result (λ refusal. IsTurnRefusal self.old self.new
            (D.state self.old.disk).failures (D.state self.new.disk).failures refusal) }

        // A disk fault is answered exactly if the disk has failed.
        ensures calm { MatchResult result
            (λ packets. (D.state self.new.disk).failures ≡ (D.state self.old.disk).failures)
            (λ refusal. IsCalm refusal (D.state self.old.disk).failures
            (D.state self.new.disk).failures) }

        // a part of a body at most for each packet
        ensures cost { IfOk result (λ packets.
            (D.state self.new.disk).calls ≤ (D.state self.old.disk).calls + vec_len packets) }
    {
        if self.halted() {
            return Err(Refusal::Halted);
        }
        // What holds of each server holds of this one at the beginning.
        let _ = self.segment_size();
        let mut packets = Vec::new(alloc);
        loop {
            let Played { packet, ends_turn } = self.next_packet()?;
            packets.push(packet)?;
            if ends_turn {
                return Ok(packets);
            }
        }
    }

    /// Whether the body of the object at this place has exactly these bytes. It only reads, a piece
    /// at a time, and nothing if the lengths differ. Its refusals are `DeviceFault`, which does not
    /// halt the server, and `Halted`.
    pub fn body_is(&mut self, place: usize, bytes: &[u8]) -> Result<bool, Refusal>
        requires { place < vec_len self.old.view.carousel.objects }
        ensures only_reads { OnlyReads (D.state self.old.disk) (D.state self.new.disk) }
        ensures view { self.new.view ≡ self.old.view }
        ensures player { self.new.player ≡ self.old.player }
        ensures going { OnOk result (IsFalse self.old.view.halted) }
        ensures refused { IfErr result (λ refusal. IsReadRefusal self.old self.new
            (D.state self.old.disk).failures (D.state self.new.disk).failures refusal) }

        ensures calm { OnOk result
            ((D.state self.new.disk).failures ≡ (D.state self.old.disk).failures) }

        // It is the body of what the disk stands for.
        ensures exact { (s : journal.Standing) → Holds self.old.view s (D.state self.old.disk)
            → (D.state self.new.disk).IsHonest → IfOk result
            (λ same. IsTrue same ↔ (object_body s.carousel.objects place ≡ bytes.now)) }
    {
        if self.halted() {
            return Err(Refusal::Halted);
        }
        // There is a body for each object. The line is there for the proof, and does nothing when
        // it runs.
        let _ = self.bodies.repository.body_count();
        is_body(&mut self.bodies.repository, place, bytes)
    }

    /// Whether no gate of the selected half is open after a closed one. It only reads. Its refusals
    /// are `DeviceFault`, which does not halt the server, and `Halted`.
    pub fn is_clean(&mut self) -> Result<bool, Refusal>
        ensures only_reads { OnlyReads (D.state self.old.disk) (D.state self.new.disk) }
        ensures view { self.new.view ≡ self.old.view }
        ensures player { self.new.player ≡ self.old.player }
        ensures cost { (D.state self.new.disk).calls
            ≤ (D.state self.old.disk).calls + gate_reads self.old.view.journal.geometry }
        ensures calm { OnOk result
            ((D.state self.new.disk).failures ≡ (D.state self.old.disk).failures) }
        ensures going { OnOk result (IsFalse self.old.view.halted) }
        ensures refused { IfErr result (λ refusal. IsReadRefusal self.old self.new
            (D.state self.old.disk).failures (D.state self.new.disk).failures refusal) }

        // If the disk stands for something, and the journal stands where it has its records, the
        // answer is whether the bytes that are read are clean.
        ensures exact { (s : journal.Standing) → (D.state self.new.disk).IsHonest
            → stands_for (D.state self.old.disk).bytes ≡ Ok s
            → StandsWhere self.old.view.journal (D.state self.old.disk).bytes
            → IfOk result (λ clean. IsTrue clean ↔ IsClean (D.state self.old.disk).bytes) }
    {
        self.bodies.repository.is_clean()
    }

    /// Rewrites the journal into layout 2; false, with no disk call, if it is of layout 2 already.
    /// It plays on as before. At `DeviceFault` the server is halted; `OutOfMemory` and `Halted`
    /// come before anything is written.
    pub fn migrate(&mut self, alloc: Global) -> Result<bool, Refusal>
        ensures keeps { Keeps (D.state self.old.disk) (D.state self.new.disk) }
        ensures player { self.new.player ≡ self.old.player }
        ensures geometry { self.new.view.journal.geometry ≡ self.old.view.journal.geometry }
        ensures carousel { self.new.view.carousel ≡ self.old.view.carousel }
        ensures extents { self.new.view.extents ≡ self.old.view.extents }
        ensures going { OnOk result (IsFalse self.new.view.halted) }
        ensures rewritten { IfOk result (λ done.
            (IsTrue done ↔ (self.old.view.journal.layout ≡ One))
            × (self.new.view.journal.layout ≡ Two)) }
        ensures still { self.old.view.journal.layout ≡ Two → (self.new ≡ self.old)
            × (IsFalse self.old.view.halted → result ≡ Ok false) }
        ensures refused { IfErr result (λ refusal. IsMigrationRefusal self.old.view self.new.view
            (D.state self.old.disk) (D.state self.new.disk) refusal) }
        ensures calm { OnOk result
            ((D.state self.new.disk).failures ≡ (D.state self.old.disk).failures) }
        ensures untouched { IfErr result
            (λ refusal. (refusal ≡ DeviceFault) ⊎ (self.new ≡ self.old)) }
        ensures cost { self.old.view.journal.layout ≡ One
            → Costs (slot_count Two self.old.view.journal.geometry + 3)
            (D.state self.old.disk) (D.state self.new.disk) result }

        // At each moment a crash leaves the same carousel, clean.
        ensures any_moment { (s : journal.Standing)
            → Holds self.old.view s (D.state self.old.disk)
            → Throughout (D.state self.old.disk) (D.state self.new.disk) (IsOf s) }
        ensures ok { (s : journal.Standing) → Holds self.old.view s (D.state self.old.disk)
            → OnOk result (Holds self.new.view s (D.state self.new.disk)) }
    {
        self.bodies.repository.migrate(alloc)
    }

    /// The size of the segments that it plays.
    fn segment_size(&self) -> SegmentSize
        ensures value { result ≡ self.now.player.segment_size }
        ensures plays { PlaysCarousel self.now.view.carousel
            self.now.view.journal.geometry.segment
            self.now.player }
        ensures place { (bodies : List (List ℕ)) → AreBodiesFor self.now.player.turn bodies
            → IsPlace (place_of self.now.player bodies) }
    {
        self.player.segment_size()
    }
}
