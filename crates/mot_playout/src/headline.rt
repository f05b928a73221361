//! The headline: what a crash leaves of a run of commands, opened and played.
ghost use Rattle.std.specs.Prelude.{◌++◌, ℕ, List, take, IfOk, IfErr, MatchResult};
ghost use Rattle.disk_model.specs.Disk.{OnlySyncs};
ghost use Rattle.mot_journal.specs.Image.{Standing};
ghost use Rattle.mot_numbers.specs.declared.geometry.Geometry.{Geometry};
ghost use Rattle.mot_player.specs.Reading.{ReadsAs};
ghost use Rattle.mot_repository.specs.Opening.{IsPassing};
ghost use Rattle.mot_repository.specs.Repository.{IsOf, Holds};
ghost use Rattle.mot_playout.specs.Lives.{IsHistory};
ghost use Rattle.mot_playout.specs.Playing.{bytes_of_packets};
ghost use Rattle.mot_playout.specs.Run.{IsRun};
ghost use Rattle.mot_playout.specs.Runs.{accepted_commands, commands_in_flight, IsAfter};
ghost use Rattle.mot_playout.specs.Runs.{IsAfterSome};

use crate::{Refused, Restarted, RunEnd, Server, restart};
use disk_model::Disk;
use mot_objects::Command;
use std::alloc::Global;

/// What a run came to, and what was opened of the disk that a crash left of it.
#[derive(Drop)]
pub struct Aftermath<E: Disk> {
    /// How the run ended: the crash came before, at some moment of it.
    pub end: RunEnd,
    /// The server on what the crash left, and the first turn that it played.
    pub restarted: Result<Restarted<E>, Refused<E>>,
}

/// For every list of commands and a crash at any moment, before or inside any disk write, opening
/// the disk gives the carousel after a beginning of the accepted commands. It holds every
/// acknowledged one and at most the one in flight. The first turn of packets played from it reads,
/// by the standards' grammars, as exactly that carousel's directory and bodies, nothing more.
///
/// `left` is any disk that reads as an image which a crash may have left; that it is honest is
/// asked of it at the end, since a read may show that it is not. `s` is what the disk stood for
/// when the history began, `acknowledged` the commands that were accepted from there up to this
/// call, and `now` what they made of it: so a list of commands may be cut at any place, and the
/// statement holds at each cut.
///
/// It has no other premises than these. The disk is honest, and each image that a crash at the
/// beginning of the call may leave is clean and stands for what the server keeps (`Holds`). A disk
/// that was formatted here is so, and every call keeps it so, except one that halts the server.
/// After a disk fault the disk is opened again. And opening meets no lack of memory and no disk
/// fault: nothing else refuses the disk.
pub fn run_and_restart<D: Disk, E: Disk>(
    server: &mut Server<D>,
    alloc: Global,
    commands: &[Command],
    left: E,
) -> Aftermath<E>
    // a crash at some moment since the call began, inside a call of the disk or between two
    ensures headline { (s now : Standing) (acknowledged : List Command)
        → IsAfter s acknowledged now → Holds server.old.view now (D.state server.old.disk)
        → (D.state server.new.disk).LeftSince (D.state server.old.disk).moment (E.state left).bytes
        → IfOk result.restarted (λ r. (E.state r.server.disk).IsHonest → (last : Standing)
        × IsAfterSome s acknowledged
        (accepted_commands commands.now result.end.done.items
        ++ commands_in_flight commands.now result.end.done.items result.end.fault) last
        × IsOf last (E.state left).bytes
        × Holds r.server.view last (E.state r.server.disk)
        × ReadsAs (bytes_of_packets r.packets.items) last.carousel last.geometry.segment) }

    // a crash once the call has returned: each command that it accepted is acknowledged
    ensures acknowledged { (s now : Standing) (acknowledged : List Command)
        → IsAfter s acknowledged now → Holds server.old.view now (D.state server.old.disk)
        → (D.state server.new.disk).MayLeave (E.state left).bytes
        → IfOk result.restarted (λ r. (E.state r.server.disk).IsHonest → (last : Standing)
        × IsAfterSome s
        (acknowledged ++ accepted_commands commands.now result.end.done.items)
        (commands_in_flight commands.now result.end.done.items result.end.fault) last
        × IsOf last (E.state left).bytes
        × Holds r.server.view last (E.state r.server.disk)
        × ReadsAs (bytes_of_packets r.packets.items) last.carousel last.geometry.segment) }

    // the commands were run, and marked as they stand
    ensures runs { IsRun server.old.view server.new.view (D.state server.old.disk)
        (D.state server.new.disk) commands.now result.end }

    // so any number of runs, crashes and restarts may follow each other, from formatting on
    ensures in_a_row { (g : Geometry) (first : ℕ) (before : List Command) (now : Standing)
        → IsHistory g first before now → Holds server.old.view now (D.state server.old.disk)
        → (D.state server.new.disk).LeftSince (D.state server.old.disk).moment (E.state left).bytes
        → IfOk result.restarted (λ r. (E.state r.server.disk).IsHonest
        → (count : ℕ) × (last : Standing) × IsHistory g first (before
        ++ take count (accepted_commands commands.now result.end.done.items
        ++ commands_in_flight commands.now result.end.done.items result.end.fault)) last
        × Holds r.server.view last (E.state r.server.disk)) }

    // and a crash once the call has returned keeps each command that it accepted
    ensures in_a_row_after { (g : Geometry) (first : ℕ) (before : List Command) (now : Standing)
        → IsHistory g first before now → Holds server.old.view now (D.state server.old.disk)
        → (D.state server.new.disk).MayLeave (E.state left).bytes
        → IfOk result.restarted (λ r. (E.state r.server.disk).IsHonest
        → (count : ℕ) × (last : Standing)
        × IsHistory g first (before ++ accepted_commands commands.now result.end.done.items
        ++ take count (commands_in_flight commands.now result.end.done.items result.end.fault))
        last × Holds r.server.view last (E.state r.server.disk)) }

    // it opens, unless memory runs out or the disk that was left fails
    ensures opens { (now : Standing) → Holds server.old.view now (D.state server.old.disk)
        → (D.state server.new.disk).LeftSince (D.state server.old.disk).moment (E.state left).bytes
        → IfErr result.restarted (λ e. (E.state e.disk).IsHonest
        → IsPassing (E.state left) (E.state e.disk) e.refusal) }

    // opened or not, what the crash left stays
    ensures left_stays { MatchResult result.restarted
        (λ r. OnlySyncs (E.state left) (E.state r.server.disk))
        (λ e. OnlySyncs (E.state left) (E.state e.disk)) }
{
    let end = server.run(alloc, commands);
    let restarted = restart(alloc, left);
    Aftermath { end, restarted }
}
