//! Playing the disk of a file into what a path names.
ghost use Rattle.std.specs.Prelude.{◌≡◌, ◌⊎◌, ◌-◌, ℕ, [], ◌∷◌, false, true, Some, None, Err, Ok};
ghost use Rattle.std.specs.Prelude.{◌++◌, IfErr, IfOk, List, MatchResult, Option, unwrap_or};
ghost use Rattle.std.specs.Io.KnownBytes.{Keeps};
ghost use Rattle.clap.specs.Words.{Text};
ghost use Rattle.disk_store.specs.Beginning.{IsFirst};
ghost use Rattle.mot_air.specs.Inner.Beside.{lines_in, tale_aired};
ghost use Rattle.mot_air.specs.Directory.{IsFrame, often};
ghost use Rattle.mot_air.specs.Inner.StartError.{IsUnbegun};
ghost use Rattle.mot_air.specs.Playing.{Plays};
ghost use Rattle.mot_air.specs.Commands.{EndsSending, PlaysAsked, PlaysTo, Sends, is_all_done};
ghost use Rattle.mot_air.specs.Commands.{packets_of, played_as};
ghost use Rattle.mot_outcome.specs.Outcome.{Concludes, Opens};
ghost use Rattle.mot_air.specs.Telling.{EndsReading, Hands, HandsOut, folder_in};
ghost use Rattle.mot_endpoints.specs.Opened.{AreMet, Need};
ghost use Rattle.mot_endpoints.specs.Packets.{IsReason, IsTarget, OpensInto, destination_of};
ghost use Rattle.mot_endpoints.specs.Packets.{target_of, writer_handle, writer_system};
ghost use Rattle.mot_endpoints.specs.declared.fault.PacketsFault.{PacketsFault};
ghost use Rattle.mot_files.specs.Call.{Call, opened_disk};
ghost use Rattle.mot_numbers.specs.declared.refusal.Refusal.TheVariants.{DeviceFault, WriteFault};
ghost use Rattle.mot_playout.specs.Attempts.{fault_of};

use crate::Ended;
use crate::answered::answered;
use crate::frames::frame_on;
use crate::playing::{FollowedFolder, PlayEnd, play_and_answer, play_disk};
use disk_model::Disk;
use disk_store::{BegunFile, Start, WasThere};
use mot_cli::PlayTask;
use mot_endpoints::{Cause, Host, Machine, OpenPackets, StatusFile, Target};
use mot_feed::Manner;
use mot_files::{CallLog, System};
use mot_line_folder::LineFolder;
use mot_numbers::Refusal;
use mot_outcome::{TaskCalls, TaskEnd, clear_after};
use mot_packets::Outlet;
use mot_status::Telling;
use std::alloc::Global;
use std::io::Write;

/// After how many packets the directory is sent again if playing has no end, and a frame holds one. So
/// many take 8.2 seconds: with the group under way and itself it is there within ten.
const DIRECTORY_PACKETS: u32 = 340;

/// After how many packets of a turn the folder is looked at likewise. So many take 2.4 seconds.
const LOOK_PACKETS: u32 = 100;

/// How many changed bodies that are not begun come before the turn goes on, at most, if no number is
/// given. Others come in their place in the turn.
const EARLY_BODIES: u32 = 3;

/// How a disk is played: what the words ask for, and what may change the carousel.
#[derive(Drop)]
pub(crate) struct Airing<'a, 't, F: System + Drop, Y: System + Drop> {
    /// What the words ask for.
    pub(crate) task: PlayTask<'a>,
    /// The folder that the carousel is made equal to, if one is given.
    pub(crate) folder: Option<FollowedFolder<'t, F>>,
    /// The folder whose files are answered as lines, if one is given.
    pub(crate) lines: Option<LineFolder<'a, Y>>,
    /// The file that the status is written to, if one is given.
    pub(crate) status: Option<StatusFile<'a, Y>>,
}

/// Plays the disk of the file that the words name into what they name for packets. The log goes to
/// `writer`, and to `errors` if the packets go to `writer`.
pub(crate) fn play_file<
    'a,
    B: Start,
    Y: System + Drop,
    W: Write,
    E: Write,
    M: Machine<File = B::File> + Drop,
>(
    host: &mut Host<M>,
    alloc: Global,
    airing: Airing<'a, '_, Y, Y>,
    start: B,
    writer: &mut W,
    errors: &mut E,
) -> TaskEnd<B, bool>
    ensures ended { Concludes (λ r. (r ≡ DeviceFault) ⊎ (r ≡ WriteFault)) (λ all ending.
        PlaysTo airing.entry.task (λ frame refused then_folder then_lines.
        tale_aired Y.calls Y.calls airing.entry (played_as airing.entry.task frame) refused
        then_folder then_lines)
        all ending (W.contents writer.old) (W.contents writer.new) result.disk)
        result.result result.disk (W.contents writer.old) (W.contents writer.new) }
    ensures opens { Opens (packets_of airing.entry.task)
        airing.entry.task.disk.now (fault_of result.result) result.disk
        (M.System.calls host.old.system) (M.System.calls host.new.system) }
{
    match open_both(host, airing.task, start) {
        Ok((opened, disk)) => {
            let finished = play_both(alloc, disk, opened, airing, writer, errors);
            clear_after(host, &finished.result);
            finished
        }
        Err(unbegun) => unbegun,
    }
}

/// Opens what the words name for packets, and then the disk. If that is not opened, a new file is
/// taken away again.
fn open_both<'a, B: Start, M: Machine<File = B::File> + Drop>(
    host: &mut Host<M>,
    task: PlayTask<'a>,
    start: B,
) -> Result<(OpenPackets<'a, M::System>, BegunFile<B, WasThere>), TaskEnd<B, bool>>
    ensures target { IfOk result (λ both. IsTarget task.entry.packets.now (target_of both.0)) }
    ensures opened { IfOk result (λ both. OpensInto task.entry.packets.now task.entry.disk.now
        (writer_handle both.0.writer) [] (M.System.calls (writer_system both.0.writer))
        (destination_of both.0)) }
    ensures first { IfOk result (λ both. IsFirst false both.1.disk) }
    ensures refused { IfErr result (λ unbegun. IsUnbegun
        (λ r. (r ≡ DeviceFault) ⊎ (r ≡ WriteFault)) unbegun.result unbegun.disk) }
    ensures opens { MatchResult result
        (λ _. (then : List Call) × AreMet (packets_of task.entry) (M.System.calls host.old.system) then
        × (M.System.calls host.new.system ≡ then ++ opened_disk task.entry.disk.now true ∷ []))
        (λ unbegun. Opens (packets_of task.entry) task.entry.disk.now (fault_of unbegun.result)
        unbegun.disk (M.System.calls host.old.system) (M.System.calls host.new.system)) }
{
    let mut opened = match host.packets(task.packets, task.disk, task.turns) {
        Ok(opened) => opened,
        Err(cause) => return Err(TaskEnd::unbegun(Refusal::WriteFault, Some(cause), start)),
    };
    match host.disk(task.disk, start) {
        Ok(disk) => Ok((opened, disk)),
        Err(unopened) => {
            opened.take_away();
            Err(TaskEnd::unopened(unopened))
        }
    }
}

/// Plays the disk of a file into what was opened for packets. (It is a function of its own, for any
/// system of files, since calls at the program's own take longer to prove.)
fn play_both<B: Start, P: System + Drop, F: System + Drop, Y: System + Drop, W: Write, E: Write>(
    alloc: Global,
    disk: BegunFile<B, WasThere>,
    opened: OpenPackets<'_, P>,
    airing: Airing<'_, '_, F, Y>,
    writer: &mut W,
    errors: &mut E,
) -> TaskEnd<B, bool>
    ensures ended { IsTarget airing.entry.task.packets.now (target_of opened.entry)
        → OpensInto airing.entry.task.packets.now airing.entry.task.disk.now
        (writer_handle opened.entry.writer) [] (P.calls (writer_system opened.entry.writer))
        (destination_of opened.entry) → IsFirst false disk.disk
        → Concludes (λ r. (r ≡ DeviceFault) ⊎ (r ≡ WriteFault)) (λ all ending.
        PlaysTo airing.entry.task (λ frame refused then_folder then_lines.
        tale_aired F.calls Y.calls airing.entry (played_as airing.entry.task frame) refused
        then_folder then_lines)
        all ending (W.contents writer.old) (W.contents writer.new) result.disk)
        result.result result.disk (W.contents writer.old) (W.contents writer.new) }
    ensures opens { (path : Text) (needs : List Need) (old then new : List Call)
        → AreMet needs old then → new ≡ then ++ opened_disk path true ∷ []
        → Opens needs path (fault_of result.result) result.disk old new }
{
    let target = opened.target();
    let end = play_into(alloc, disk, opened, airing, writer, errors);
    let all_done = is_all_done(target, end.any_refused);
    TaskEnd::of_file(answered(end.ended, all_done), end.beside, end.cause)
}

/// Whether all is done that playing into the target is to do. A file is to show the folder; of a
/// stream the log alone says what was refused.
fn is_all_done(target: Target, any_refused: bool) -> bool
    ensures { result ≡ is_all_done target any_refused }
{
    match target {
        Target::File => !any_refused,
        Target::Output | Target::Stream => true,
    }
}

/// Plays the disk into what was opened. The log goes to `errors` if the packets go to `writer`.
fn play_into<D: Disk, P: System + Drop, F: System + Drop, Y: System + Drop, W: Write, E: Write>(
    alloc: Global,
    disk: D,
    opened: OpenPackets<'_, P>,
    airing: Airing<'_, '_, F, Y>,
    writer: &mut W,
    errors: &mut E,
) -> PlayEnd<D>
    ensures played { Hands result.beside (λ folder lines. Sends (destination_of opened.entry)
        (writer_handle opened.entry.writer) (fault_of result.ended.result)
        (λ begun taken. PlaysAsked (target_of opened.entry)
        (λ frame. tale_aired F.calls Y.calls airing.entry (played_as airing.entry.task frame)
        result.any_refused folder lines)
        (λ ended. EndsReading ended lines result.beside.lines.all)
        airing.entry.task (fault_of result.ended.result) begun taken
        (D.state disk) (D.state result.ended.disk)) (P.calls (writer_system opened.entry.writer))
        result.beside.packets.all) }
    ensures quiet { target_of opened.entry ≡ Target.Output
        → Keeps (W.contents writer.old) (W.contents writer.new) }
{
    match opened.target() {
        Target::Output => play_opened(alloc, disk, opened, airing, errors),
        Target::Stream | Target::File => play_opened(alloc, disk, opened, airing, writer),
    }
}

/// Plays the disk into the outlet, with looks at the folder and answers to lines, if these are
/// given.
fn air<D: Disk, F: System + Drop, Y: System + Drop, O: Outlet, L: Write + Drop>(
    alloc: Global,
    disk: D,
    outlet: &mut O,
    airing: Airing<'_, '_, F, Y>,
    log: L,
) -> PlayEnd<D>
    ensures { (frame : ℕ) × IsFrame airing.entry.task.rate frame (fault_of result.ended.result)
        (D.state disk) (D.state result.ended.disk)
        × (let how = played_as airing.entry.task frame in
        HandsOut (fault_of result.ended.result) result.beside (λ folder lines.
        Plays (tale_aired F.calls Y.calls airing.entry how result.any_refused folder lines) how
        (fault_of result.ended.result) (O.writes outlet.old) (O.writes outlet.new)
        (D.state disk) (D.state result.ended.disk))) }
{
    match frame_on(alloc, disk, airing.task.rate) {
        Ok((frame, disk)) => {
            let how = manner_of(airing.task, frame);
            air_so(alloc, disk, outlet, airing, log, how)
        }
        // Neither the folder of objects nor that of lines was read.
        Err(refused) => {
            let Airing { folder, lines, .. } = airing;
            let ended = Ended::unopened(refused);
            PlayEnd::unwatched(ended, folder_calls(folder), lines_calls(lines))
        }
    }
}

/// The calls on the folder of objects, if there is one.
fn folder_calls<F: System + Drop>(folder: Option<FollowedFolder<'_, F>>) -> CallLog
    ensures { (folder_in F.calls folder.entry).calls ≡ result.all }
{
    match folder {
        Some(followed) => followed.shelf.into_system().into_calls(),
        None => CallLog::new(),
    }
}

/// The calls on the folder of lines, if there is one.
fn lines_calls<Y: System + Drop>(lines: Option<LineFolder<'_, Y>>) -> CallLog
    ensures { (lines_in Y.calls lines.entry).calls ≡ result.all }
{
    match lines {
        Some(lines) => lines.place.system.into_calls(),
        None => CallLog::new(),
    }
}

/// The same in this manner.
fn air_so<D: Disk, F: System + Drop, Y: System + Drop, O: Outlet, L: Write + Drop>(
    alloc: Global,
    disk: D,
    outlet: &mut O,
    airing: Airing<'_, '_, F, Y>,
    log: L,
    how: Manner,
) -> PlayEnd<D>
    ensures { HandsOut (fault_of result.ended.result) result.beside (λ folder lines.
        Plays (tale_aired F.calls Y.calls airing.entry how result.any_refused folder lines) how
        (fault_of result.ended.result) (O.writes outlet.old) (O.writes outlet.new)
        (D.state disk) (D.state result.ended.disk)) }
{
    let Airing {
        task,
        folder,
        lines,
        status,
    } = airing;
    let telling = Telling {
        disk: task.disk,
        status,
        levels: task.levels,
    };
    match lines {
        Some(lines) => play_and_answer(alloc, disk, outlet, folder, lines, telling, log, how),
        None => play_disk(alloc, disk, outlet, folder, telling, log, how),
    }
}

/// Plays the disk into what was opened, each packet in one write. A new file then takes its place,
/// or is removed again.
fn play_opened<D: Disk, P: System + Drop, F: System + Drop, Y: System + Drop, L: Write>(
    alloc: Global,
    disk: D,
    opened: OpenPackets<'_, P>,
    airing: Airing<'_, '_, F, Y>,
    log: &mut L,
) -> PlayEnd<D>
    ensures played { Hands result.beside (λ folder lines. Sends (destination_of opened.entry)
        (writer_handle opened.entry.writer) (fault_of result.ended.result)
        (λ begun taken. PlaysAsked (target_of opened.entry)
        (λ frame. tale_aired F.calls Y.calls airing.entry (played_as airing.entry.task frame)
        result.any_refused folder lines)
        (λ ended. EndsReading ended lines result.beside.lines.all)
        airing.entry.task (fault_of result.ended.result) begun taken
        (D.state disk) (D.state result.ended.disk)) (P.calls (writer_system opened.entry.writer))
        result.beside.packets.all) }
{
    let mut opened = opened;
    let PlayEnd {
        ended,
        any_refused,
        cause,
        beside,
    } = air(alloc, disk, &mut opened.writer, airing, log);
    let (result, cause) = placed(&mut opened, ended.result, cause);
    PlayEnd {
        ended: Ended {
            disk: ended.disk,
            result,
            reason: ended.reason,
        },
        any_refused,
        cause,
        beside: TaskCalls {
            folder: beside.folder,
            packets: opened.into_calls(),
            lines: beside.lines,
        },
    }
}

/// Gives a new file its place, if playing into it ended so, or takes it away; answers the fault and
/// its cause, which is that one if packets were taken.
fn placed<P: System + Drop>(
    opened: &mut OpenPackets<'_, P>,
    ended: Result<(), Refusal>,
    cause: Option<Cause>,
) -> (Result<(), Refusal>, Option<Cause>)
    ensures came { (result.0 ≡ ended) ⊎ ((target_of opened.old ≡ Target.File)
        × (ended ≡ Ok tt) × (result.0 ≡ Err WriteFault)) }
    ensures sent { (told : List Call) × (fault : Option PacketsFault) × (why : Option Cause)
        × IsReason (destination_of opened.old) (writer_handle opened.old.writer) fault why
        (P.calls (writer_system opened.old.writer)) told
        × EndsSending (destination_of opened.old) (writer_handle opened.old.writer)
        (fault_of result.0) told (P.calls (writer_system opened.new.writer)) }
{
    let cause = match opened.reason() {
        Some(cause) => Some(cause),
        None => cause,
    };
    match ended {
        Ok(()) => match opened.take_place() {
            Ok(()) => (Ok(()), cause),
            Err(fault) => (Err(Refusal::WriteFault), Some(Cause::NewFile(fault))),
        },
        Err(refusal) => {
            opened.take_away();
            (Err(refusal), cause)
        }
    }
}

/// How the words ask for a disk to be played, if a frame holds so many packets.
fn manner_of(task: PlayTask<'_>, frame: u32) -> Manner
    ensures { result ≡ played_as task.entry frame }
{
    Manner {
        directory: often(DIRECTORY_PACKETS, task.turns, task.directory, frame),
        look: often(LOOK_PACKETS, task.turns, task.look, frame),
        early: task.early.unwrap_or(EARLY_BODIES),
        turns: turns_of(task.turns),
    }
}

/// So many turns; if no number is given, practically without end.
fn turns_of(turns: Option<u32>) -> u64
    ensures { result ≡ unwrap_or turns 18446744073709551615 }
{
    match turns {
        Some(turns) => turns as u64,
        None => u64::MAX,
    }
}

/// After how many packets the directory is sent, or a look comes, within turns, 0 for between turns
/// alone: if no number is given, so many for each packet of a frame without end, and else 0.
fn often(count: u32, turns: Option<u32>, packets: Option<u32>, frame: u32) -> u32
    ensures { result ≡ often count turns packets frame }
{
    match (packets, turns) {
        (Some(packets), _) => packets,
        (None, Some(_)) => 0,
        (None, None) => frame.saturating_mul(count),
    }
}
