//! The life of a disk with lines: formatted, opened and served; and then opened and played as a
//! crash at any moment left it. Its words are input bytes, output bytes and packets alone.
ghost use Rattle.std.specs.Prelude.{◌≡◌, ◌≤◌, ◌++◌, ℕ, List, [], Some, None, IfOk, IfErr, ◌⊎◌};
ghost use Rattle.std.specs.Prelude.{true, false, if◌then◌else◌, MatchResult};
ghost use Rattle.std.specs.List.{flat_map};
ghost use Rattle.disk_model.specs.Disk.{IsStill, KeepsLength, OnlySyncs, Rises};
ghost use Rattle.mot_journal.specs.Geometry.{has_magic};
ghost use Rattle.mot_journal.specs.declared.layout.Layout.TheVariants.{Two};
ghost use Rattle.mot_numbers.specs.declared.geometry.Geometry.{Geometry};
ghost use Rattle.mot_numbers.specs.declared.refusal.Refusal.TheVariants.{OutOfMemory};
ghost use Rattle.mot_objects.specs.declared.command.Command.{Command};
ghost use Rattle.mot_repository.specs.Opening.{IsPassing};
ghost use Rattle.mot_objects.specs.Carousel.{carousel_after};
ghost use Rattle.mot_playout.specs.Life.{IsBlank, IsUnmade, carousel_from};
ghost use Rattle.mot_playout.specs.Lives.{HasDone, KeepsCommands, LivesOn};
ghost use Rattle.mot_playout.specs.Playing.{bytes_of_packets};
ghost use Rattle.mot_session.specs.Life.{AreRightReplies, Told, Tells, TellsLine, commands_done};
ghost use Rattle.mot_session.specs.Life.{fails_in};
ghost use Rattle.mot_session.specs.Served.{EndsServing, TakesInput};

use crate::{Geometry, MAX_READS, ServeEnd, WriteFault, serve, serve_line};
use disk_model::Disk;
use mot_numbers::TransportId;
use mot_playout::{Refused, Restarted, Server, format_and_open, restart};
use std::alloc::Global;
use std::io::{Read, Write};

/// What became of a disk that was formatted and served lines.
#[derive(Drop)]
pub struct ServedLife<D: Disk> {
    /// The disk, after the last line that was served.
    pub disk: D,
    /// How serving ended.
    pub end: ServeEnd,
}

/// Formats a disk, opens it and serves the reader's lines, as the program does. A crash comes at
/// any moment of that, before or inside any disk call, or after it. Each image that it may leave
/// keeps a beginning of the commands whose replies say `done`, with at most the one in flight; or
/// it has no magic, if the crash came before that. After the call it keeps all of them.
///
/// The operator's promise, with `mot_playout::first_turn`: for every input, whatever disk reads as
/// such an image, the packets of its first turn read, by the standards' grammars, as exactly the
/// carousel after the commands that the image keeps.
/// (`serve_line_and_restart` has it line by line: there the return is the moment from which on a
/// command whose `done` was written is never lost.)
///
/// Each reply is right at its place: a command is done exactly if the rules of the carousel accept
/// it, with the ids that they give, unless there may be no room for what it brings. Memory may run
/// out, and a disk fault is answered only if the disk failed.
pub fn format_and_serve<R: Read, W: Write, D: Disk>(
    disk: D,
    alloc: Global,
    geometry: &Geometry,
    directory: TransportId,
    reader: &mut R,
    writer: &mut W,
    reads: u64,
) -> Result<ServedLife<D>, Refused<D>>
    requires { reads ≤ MAX_READS }

    // The lines and their replies, each right at its place; a command is answered a disk fault only
    // if the disk failed. And what a crash leaves of their commands: first one at some moment since
    // the call began, then one that comes once it has returned.
    ensures told { IfOk result (λ life. (D.state life.disk).IsHonest → (input : List ℕ)
        × TakesInput reads (R.remaining reader.old) (R.remaining reader.new) input
        × (told : List Told) × (in_flight : List Command)
        × Tells geometry.now input (R.remaining reader.new) life.end.lines life.end.fault
        told in_flight (W.contents writer.old) (W.contents writer.new)
        × AreRightReplies (Rises (D.state disk).failures (D.state life.disk).failures)
        geometry.now (Some (carousel_from directory)) told
        × ((flat_map fails_in told ≡ [])
        ⊎ Rises (D.state disk).failures (D.state life.disk).failures)
        × (IsBlank (D.state disk) → (image : List ℕ)
        → (D.state life.disk).LeftSince (D.state disk).moment image
        → (has_magic image ≡ false)
        ⊎ KeepsCommands geometry.now directory [] (commands_done told ++ in_flight) image)
        × ((image : List ℕ) → (D.state life.disk).MayLeave image
        → KeepsCommands geometry.now directory (commands_done told) in_flight image)) }

    // what ended serving; if there was no memory to begin with, nothing was answered
    ensures ends { IfOk result (λ life. EndsServing life.end.fault
        × (life.end.fault ≡ Some OutOfMemory → life.end.lines ≡ 0)) }

    // why no disk was made, and what a crash at some moment of such a call leaves
    ensures refused { IfErr result (λ e. (D.state e.disk).IsHonest
        → IsUnmade geometry.now (D.state disk) (D.state e.disk) e.refusal) }
    ensures any_moment { IfErr result (λ e. (D.state e.disk).IsHonest → IsBlank (D.state disk)
        → (image : List ℕ) → (D.state e.disk).LeftSince (D.state disk).moment image
        → (has_magic image ≡ false) ⊎ KeepsCommands geometry.now directory [] [] image) }

    // one that was formatted before is refused, and stays
    ensures over { IfOk result (λ life. (D.state life.disk).IsHonest
        → has_magic (D.state disk).bytes ≡ false) }
    ensures still { IfErr result (λ e. (D.state e.disk).IsHonest
        → has_magic (D.state disk).bytes ≡ true → IsStill (D.state disk) (D.state e.disk)) }
{
    let mut server = format_and_open(alloc, disk, geometry, directory)?;
    let end = serve(alloc, reader, writer, &mut server, reads);
    Ok(ServedLife {
        disk: server.into_disk(),
        end,
    })
}

/// What became of lines that were served, and of what a crash left of the disk.
#[derive(Drop)]
pub struct ServedOn<E: Disk> {
    /// How serving ended.
    pub end: ServeEnd,
    /// The server on what the crash left, and the first turn that it played.
    pub restarted: Result<Restarted<E>, Refused<E>>,
}

/// One more life: serves the reader's lines on a disk that `format_and_open` made, and that may
/// have been served and crashed and opened by this function since, any number of times. A crash
/// comes at any moment, as in `format_and_serve`; `left` is any disk that reads as an image
/// which it may have left. It is opened, and its first turn is played: so it has another life
/// before it.
///
/// Whatever the lives were, the packets of each first turn read as exactly the carousel that the
/// commands done make of the new one: those done when the life before began, then those of its
/// replies that say `done` and at most the one in flight, and none of these but at the end is left
/// out. What was done stays done in each life to come.
pub fn serve_and_restart<R: Read, W: Write, D: Disk, E: Disk>(
    server: &mut Server<D>,
    alloc: Global,
    reader: &mut R,
    writer: &mut W,
    reads: u64,
    left: E,
) -> ServedOn<E>
    requires { reads ≤ MAX_READS }

    // The lines and their replies, each right at its place; a command is answered a disk fault only
    // if the disk failed. And what a crash leaves of their commands: first one at some moment since
    // the call began, then one that comes once it has returned.
    ensures in_a_row { (g : Geometry) (first : ℕ) (done : List Command)
        → HasDone D.state g first done [] server.old
        → (D.state server.new.disk).IsHonest → (input : List ℕ)
        × TakesInput reads (R.remaining reader.old) (R.remaining reader.new) input
        × (told : List Told) × (in_flight : List Command)
        × Tells g input (R.remaining reader.new) result.end.lines result.end.fault told in_flight
        (W.contents writer.old) (W.contents writer.new)
        × (server.old.view.journal.layout ≡ Two → AreRightReplies
        (Rises (D.state server.old.disk).failures (D.state server.new.disk).failures) g
        (if server.old.view.halted then None
        else carousel_after (carousel_from first) g.objects done) told)
        × ((flat_map fails_in told ≡ [])
        ⊎ Rises (D.state server.old.disk).failures (D.state server.new.disk).failures)
        × ((D.state server.new.disk).LeftSince (D.state server.old.disk).moment
        (E.state left).bytes → IfOk result.restarted (λ r. (E.state r.server.disk).IsHonest
        → LivesOn E.state g first done (commands_done told ++ in_flight) r.server
        (bytes_of_packets r.packets.items)))
        × ((D.state server.new.disk).MayLeave (E.state left).bytes
        → IfOk result.restarted (λ r. (E.state r.server.disk).IsHonest
        → LivesOn E.state g first (done ++ commands_done told) in_flight r.server
        (bytes_of_packets r.packets.items)))
        × ((image : List ℕ) → (D.state server.new.disk).MayLeave image
        → KeepsCommands g first (done ++ commands_done told) in_flight image) }

    // what ended serving; if there was no memory to begin with, nothing was answered
    ensures ends { EndsServing result.end.fault
        × (result.end.fault ≡ Some OutOfMemory → result.end.lines ≡ 0) }

    // it opens, unless memory runs out or the disk that was left fails
    ensures opens { (g : Geometry) (first : ℕ) (done : List Command)
        → HasDone D.state g first done [] server.old
        → (D.state server.new.disk).IsHonest
        → (D.state server.new.disk).LeftSince (D.state server.old.disk).moment (E.state left).bytes
        → IfErr result.restarted (λ e. (E.state e.disk).IsHonest
        → IsPassing (E.state left) (E.state e.disk) e.refusal) }
    ensures keeps { KeepsLength (D.state server.old.disk) (D.state server.new.disk) }

    // opened or not, what the crash left stays
    ensures left_stays { MatchResult result.restarted
        (λ r. OnlySyncs (E.state left) (E.state r.server.disk))
        (λ e. OnlySyncs (E.state left) (E.state e.disk)) }
{
    let end = serve(alloc, reader, writer, server, reads);
    let restarted = restart(alloc, left);
    ServedOn { end, restarted }
}

/// What became of one line that was served, and of what a crash left of the disk.
#[derive(Drop)]
pub struct ServedLineOn<E: Disk> {
    /// Err if a write or a flush failed.
    pub answered: Result<(), WriteFault>,
    /// The server on what the crash left, and the first turn that it played.
    pub restarted: Result<Restarted<E>, Refused<E>>,
}

/// One line of a life: `serve` answers each of its lines as this does. Here the return is the
/// moment: whoever has the reply knows that the commands done, with this line's if it says `done`,
/// stay done from now on, whatever follows and whenever a crash comes. A crash inside the call
/// leaves those done before and at most the line's command besides. So a life may be served line by
/// line, on a halted server too, and each line is promised if the disk is honest up to it, whatever
/// a later one reads.
pub fn serve_line_and_restart<W: Write, D: Disk, E: Disk>(
    server: &mut Server<D>,
    alloc: Global,
    line: &[u8],
    writer: &mut W,
    left: E,
) -> ServedLineOn<E>
    // The reply to the line, a disk fault only if the disk failed, and the commands that are done
    // then; and what a crash leaves: first one at some moment since the call began, then one that
    // comes once it has returned.
    ensures told { (g : Geometry) (first : ℕ) (done others : List Command)
        → HasDone D.state g first done others server.old → (D.state server.new.disk).IsHonest
        → (made cut_off : List Command)
        × TellsLine (Rises (D.state server.old.disk).failures
        (D.state server.new.disk).failures) g server.old.view.journal.layout
        (if server.old.view.halted then None
        else carousel_after (carousel_from first) g.objects done)
        result.answered line.now made cut_off (W.contents writer.old) (W.contents writer.new)
        × ((cut_off ≡ [])
        ⊎ Rises (D.state server.old.disk).failures (D.state server.new.disk).failures)
        × HasDone D.state g first (done ++ made) (others ++ cut_off) server.new
        × ((D.state server.new.disk).LeftSince (D.state server.old.disk).moment
        (E.state left).bytes → IfOk result.restarted (λ r. (E.state r.server.disk).IsHonest
        → LivesOn E.state g first done (others ++ (made ++ cut_off)) r.server
        (bytes_of_packets r.packets.items)))
        × ((D.state server.new.disk).MayLeave (E.state left).bytes
        → IfOk result.restarted (λ r. (E.state r.server.disk).IsHonest
        → LivesOn E.state g first (done ++ made) (others ++ cut_off) r.server
        (bytes_of_packets r.packets.items))) }

    // it opens, unless memory runs out or the disk that was left fails
    ensures opens { (g : Geometry) (first : ℕ) (done others : List Command)
        → HasDone D.state g first done others server.old → (D.state server.new.disk).IsHonest
        → (D.state server.new.disk).LeftSince (D.state server.old.disk).moment (E.state left).bytes
        → IfErr result.restarted (λ e. (E.state e.disk).IsHonest
        → IsPassing (E.state left) (E.state e.disk) e.refusal) }
    ensures keeps { KeepsLength (D.state server.old.disk) (D.state server.new.disk) }

    // opened or not, what the crash left stays
    ensures left_stays { MatchResult result.restarted
        (λ r. OnlySyncs (E.state left) (E.state r.server.disk))
        (λ e. OnlySyncs (E.state left) (E.state e.disk)) }
{
    let answered = serve_line(alloc, line, writer, server);
    let restarted = restart(alloc, left);
    ServedLineOn {
        answered,
        restarted,
    }
}
