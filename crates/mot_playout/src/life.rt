//! The life of a disk: formatted, opened, given commands; and then opened and played as a crash at
//! any moment left it. Nothing here is said in the words of the disk's format or of memory.
ghost use Rattle.std.specs.Prelude.{◌≡◌, ◌⊎◌, ◌++◌, ℕ, List, [], true, false, length, vec_len};
ghost use Rattle.std.specs.Prelude.{IfOk, IfErr, IfSome, IfNone, MatchResult};
ghost use Rattle.disk_model.specs.Disk.{IsStill, KeepsLength, OnlySyncs, Throughout};
ghost use Rattle.mot_journal.specs.Geometry.{has_magic};
ghost use Rattle.mot_journal.specs.declared.layout.Layout.TheVariants.{Two};
ghost use Rattle.mot_journal.specs.Image.{rest_of};
ghost use Rattle.mot_journal.specs.Journal.{NoneOrFrom, standing_from};
ghost use Rattle.mot_numbers.specs.declared.geometry.Geometry.{Geometry};
ghost use Rattle.mot_numbers.specs.declared.refusal.Refusal.TheVariants.{NotFormatted};
ghost use Rattle.mot_objects.specs.declared.command.Command.{Command};
ghost use Rattle.mot_repository.specs.Opening.{IsPassing};
ghost use Rattle.mot_repository.specs.Repository.{Holds};
ghost use Rattle.mot_playout.specs.Life.{AreMarksOf, IsBlank, IsUnmade, PlaysAfter, carousel_from};
ghost use Rattle.mot_playout.specs.Lives.{HasDone, KeepsCommands};
ghost use Rattle.mot_playout.specs.Playing.{bytes_of_packets};
ghost use Rattle.mot_playout.specs.Runs.{accepted_commands, commands_in_flight};

use crate::{Refused, Restarted, RunEnd, Server, restart};
use disk_model::Disk;
use mot_journal::{Geometry, format_from};
use mot_numbers::TransportId;
use mot_objects::Command;
use mot_packets::Packet;
use std::alloc::Global;

/// A disk that was opened, and the first turn that was played of it.
#[derive(Drop)]
pub struct FirstTurn<D: Disk> {
    /// The disk, as it stands.
    pub disk: D,
    /// The packets of the turn.
    pub packets: Vec<Packet>,
}

/// What became of a disk that was formatted and given commands.
#[derive(Drop)]
pub struct Life<D: Disk> {
    /// The disk, after the commands.
    pub disk: D,
    /// Which commands were accepted, and what ended the run.
    pub end: RunEnd,
}

/// Formats a disk, opens it and does the commands. A crash comes at any moment of that, before or
/// inside any disk call, or after it. Each image that it may leave keeps a beginning of the
/// accepted commands, with at most the one in flight; or it has no magic, if the crash came before
/// that. After the call it keeps each command that was accepted.
///
/// The headline, with `first_turn`: whatever disk reads as such an image, the packets of its first
/// turn read, by the standards' grammars, as exactly the carousel after the commands that the image
/// keeps. Its premises: the disk keeps the model to the end, and at first no image of it has the
/// magic of a formatted one. Runs on a disk that was left go on from there as `run_and_restart`
/// says.
pub fn format_and_run<D: Disk>(
    disk: D,
    alloc: Global,
    geometry: &Geometry,
    directory: TransportId,
    commands: &[Command],
) -> Result<Life<D>, Refused<D>>
    // a crash at some moment since the call began, which may have been refused
    ensures any_moment { MatchResult result (λ life. (D.state life.disk).IsHonest
        → IsBlank (D.state disk) → (image : List ℕ)
        → (D.state life.disk).LeftSince (D.state disk).moment image
        → (has_magic image ≡ false) ⊎ KeepsCommands geometry.now directory []
        (accepted_commands commands.now life.end.done.items
        ++ commands_in_flight commands.now life.end.done.items life.end.fault) image)
        (λ e. (D.state e.disk).IsHonest → IsBlank (D.state disk) → (image : List ℕ)
        → (D.state e.disk).LeftSince (D.state disk).moment image
        → (has_magic image ≡ false) ⊎ KeepsCommands geometry.now directory [] [] image) }

    // a crash once the call has returned
    ensures acknowledged { IfOk result (λ life. (D.state life.disk).IsHonest → (image : List ℕ)
        → (D.state life.disk).MayLeave image → KeepsCommands geometry.now directory
        (accepted_commands commands.now life.end.done.items)
        (commands_in_flight commands.now life.end.done.items life.end.fault) image) }

    // Which commands are accepted. Only running out of memory or a disk fault ends the run before
    // the last of them.
    ensures marks { IfOk result (λ life. (D.state life.disk).IsHonest
        → AreMarksOf geometry.now (carousel_from directory) commands.now life.end.done.items) }
    ensures whole { IfOk result (λ life.
        IfNone life.end.fault (vec_len life.end.done ≡ length commands.now)) }
    ensures fault { IfOk result (λ life. (D.state life.disk).IsHonest → IfSome life.end.fault
        (λ refusal. IsPassing (D.state disk) (D.state life.disk) refusal)) }

    // why no disk was made
    ensures refused { IfErr result (λ e. (D.state e.disk).IsHonest
        → IsUnmade geometry.now (D.state disk) (D.state e.disk) e.refusal) }

    // one that was formatted before is refused, and stays
    ensures over { IfOk result (λ life. (D.state life.disk).IsHonest
        → has_magic (D.state disk).bytes ≡ false) }
    ensures still { IfErr result (λ e. (D.state e.disk).IsHonest
        → has_magic (D.state disk).bytes ≡ true → IsStill (D.state disk) (D.state e.disk)) }
{
    let mut server = format_and_open(alloc, disk, geometry, directory)?;
    let end = server.run(alloc, commands);
    Ok(Life {
        disk: server.into_disk(),
        end,
    })
}

/// A new disk, formatted and opened: it stands for the new carousel, whose directory has this
/// transport id, and at each moment until then a crash leaves no magic, or an image that does. So it
/// is at each moment of a call that is refused.
pub fn format_and_open<D: Disk>(
    alloc: Global,
    disk: D,
    geometry: &Geometry,
    directory: TransportId,
) -> Result<Server<D>, Refused<D>>
    ensures keeps { MatchResult result (λ server. KeepsLength (D.state disk) (D.state server.disk))
        (λ e. KeepsLength (D.state disk) (D.state e.disk)) }
    ensures holds { IfOk result (λ server. (D.state server.disk).IsHonest
        → Holds server.view (standing_from geometry.now directory
        (rest_of geometry.now (D.state server.disk).bytes)) (D.state server.disk)) }
    ensures layout { IfOk result (λ server. (D.state server.disk).IsHonest
        → server.view.journal.layout ≡ Two) }
    ensures calm { IfOk result (λ server.
        (D.state server.disk).failures ≡ (D.state disk).failures) }
    ensures any_moment { MatchResult result (λ server. (D.state server.disk).IsHonest
        → IsBlank (D.state disk)
        → Throughout (D.state disk) (D.state server.disk) (NoneOrFrom geometry.now directory))
        (λ e. (D.state e.disk).IsHonest → IsBlank (D.state disk)
        → Throughout (D.state disk) (D.state e.disk) (NoneOrFrom geometry.now directory)) }

    // lives in a row begin so: no command is done
    ensures begins { IfOk result (λ server. (D.state server.disk).IsHonest
        → HasDone D.state geometry.now directory [] [] server) }
    ensures refused { IfErr result (λ e. (D.state e.disk).IsHonest
        → IsUnmade geometry.now (D.state disk) (D.state e.disk) e.refusal) }

    // a disk that was formatted before is refused, and stays
    ensures over { IfOk result (λ server. (D.state server.disk).IsHonest
        → has_magic (D.state disk).bytes ≡ false) }
    ensures still { IfErr result (λ e. (D.state e.disk).IsHonest
        → has_magic (D.state disk).bytes ≡ true → IsStill (D.state disk) (D.state e.disk)) }
{
    let mut disk = disk;
    if let Err(refusal) = format_from(&mut disk, geometry, directory) {
        return Err(Refused {
            refusal,
            reason: None,
            disk,
        });
    }
    let server = Server::open(alloc, disk)?;
    Ok(server)
}

/// Opens a disk, plays its first turn, and hands it out again. Whether it does or refuses, nothing
/// on the disk changes but that it is synced. `restart` says more of the turn, of any disk.
pub fn first_turn<E: Disk>(alloc: Global, left: E) -> Result<FirstTurn<E>, Refused<E>>
    // What a crash left keeps commands: the turn is that of the carousel after them.
    ensures plays { (g : Geometry) (first : ℕ) (sure others : List Command)
        → KeepsCommands g first sure others (E.state left).bytes
        → IfOk result (λ turn. (E.state turn.disk).IsHonest
        → PlaysAfter g first sure others (bytes_of_packets turn.packets.items)) }

    // then it opens, unless memory runs out or this disk fails
    ensures opens { (g : Geometry) (first : ℕ) (sure others : List Command)
        → KeepsCommands g first sure others (E.state left).bytes
        → IfErr result (λ e. (E.state e.disk).IsHonest
        → IsPassing (E.state left) (E.state e.disk) e.refusal) }

    // a disk without the magic is not opened, and is told to have none
    ensures blank { has_magic (E.state left).bytes ≡ false → MatchResult result
        (λ turn. (E.state turn.disk).IsHonest → ⊥)
        (λ e. (E.state e.disk).IsHonest → (e.refusal ≡ NotFormatted)
        ⊎ IsPassing (E.state left) (E.state e.disk) e.refusal) }
    ensures only_syncs { MatchResult result
        (λ turn. OnlySyncs (E.state left) (E.state turn.disk))
        (λ e. OnlySyncs (E.state left) (E.state e.disk)) }
{
    let Restarted { server, packets } = restart(alloc, left)?;
    Ok(FirstTurn {
        disk: server.into_disk(),
        packets,
    })
}
