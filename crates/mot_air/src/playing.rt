//! Playing a disk, and making its carousel equal to a folder.
ghost use Rattle.std.specs.Prelude.{◌≡◌, ◌↔◌, ◌⊎◌, ◌-◌, ℕ, [], IfErr, IsSomeAnd, IsTrue, List};
ghost use Rattle.std.specs.Prelude.{None, OnOk, Some, false};
ghost use Rattle.mot_air.specs.Playing.{AirsOn, KeepsDone, Plays, each_packet, place_at_start};
ghost use Rattle.mot_air.specs.Playing.{tale_of};
ghost use Rattle.mot_air.specs.Telling.{EndsReading, HandsOut, folder_in, lines_at, no_looks};
ghost use Rattle.mot_air.specs.Telling.{tale_with, watch_in, watched};
ghost use Rattle.mot_air.specs.Inner.Beside.{SourcesOf, beside, tells_answered, tells_lines_of};
ghost use Rattle.mot_air.specs.Inner.Beside.{tells_reported};
ghost use Rattle.mot_air.specs.Inner.Fed.{IsEndOf, disk_of, ending_of};
ghost use Rattle.mot_line_folder.specs.Spooling.{Finishes, GaveLines};
ghost use Rattle.mot_folder.specs.Looked.{so_far, watch};
ghost use Rattle.mot_lines.specs.Lines.{bytes_in_hand};
ghost use Rattle.mot_numbers.specs.declared.geometry.Geometry.{Geometry};
ghost use Rattle.mot_objects.specs.declared.command.Command.{Command};
ghost use Rattle.mot_feed.specs.Feeding.{server_for};
ghost use Rattle.mot_journal.specs.Image.{Standing};
ghost use Rattle.mot_numbers.specs.declared.refusal.Refusal.TheVariants.{OutOfMemory};
ghost use Rattle.mot_playout.specs.Runs.{place_in};
ghost use Rattle.mot_repository.specs.Repository.{Agrees};
ghost use Rattle.mot_update.specs.Opening.{IsUnopened, first_place};
ghost use Rattle.mot_line_folder.specs.Spool.{SpoolView, open_file, spool_system, spool_view};
ghost use Rattle.mot_shelf.specs.Reader.{reader_path, view};
ghost use Rattle.mot_playout.specs.Attempts.{fault_of};

use crate::Ended;
use disk_model::Disk;
use mot_endpoints::Cause;
use mot_events::Inlet;
use mot_feed::{Manner, feed};
use mot_feed_lines::{Lines, WatchedUpdate};
use mot_files::{CallLog, System};
use mot_folder::{FileTypes, Folder, Guard, Looks};
use mot_line_folder::{LineFolder, Spool};
use mot_numbers::Refusal;
use mot_outcome::TaskCalls;
use mot_packets::Outlet;
use mot_playout::{Refused, Server};
use mot_shelf::FolderReader;
use mot_status::{Reporter, Telling};
use mot_update::{LookHistory, NoUpdate, Update, Watch};
use std::alloc::Global;
use std::io::Write;

/// A folder that a carousel is made equal to, and which of its files are objects.
#[derive(Drop)]
pub struct FollowedFolder<'a, S: System + Drop> {
    /// The folder.
    pub shelf: FolderReader<'a, S>,
    /// The suffixes.
    pub types: &'a FileTypes,
    /// Which looks at it change nothing.
    pub guard: Guard,
}

/// What playing came to.
#[derive(Drop)]
pub struct PlayEnd<D: Disk> {
    /// The disk, and how playing ended.
    pub ended: Ended<D, ()>,
    /// Whether a look at the folder refused a file, or did not list it.
    pub any_refused: bool,
    /// Why it ended so, or why the folder was not opened at the last look, if more is known than the
    /// refusal says.
    pub cause: Option<Cause>,
    /// The calls that were made beside the disk.
    pub beside: TaskCalls,
}

impl<D: Disk> PlayEnd<D> {
    /// Playing ended so, after these looks and with these calls on the folder of lines.
    fn looking<S: System + Drop>(ended: Ended<D, ()>, looks: Looks<'_, S>, lines: CallLog) -> Self
        ensures ended { result.ended ≡ ended }
        ensures folder { (view S.calls looks.entry.folder.shelf).calls ≡ result.beside.folder.all }
        ensures lines { result.beside.lines ≡ lines }
        ensures refused { result.any_refused ≡ looks.entry.any_refused }
    {
        PlayEnd {
            ended,
            any_refused: looks.any_refused,
            cause: Cause::of_folder(looks.folder.shelf.fault()),
            beside: beside_of(looks.folder.shelf.into_system().into_calls(), lines),
        }
    }

    /// Playing ended so, without a look, with these calls on the folder of objects and that of lines.
    pub(crate) fn unwatched(ended: Ended<D, ()>, folder: CallLog, lines: CallLog) -> Self
        ensures ended { result.ended ≡ ended }
        ensures folder { result.beside.folder ≡ folder }
        ensures lines { result.beside.lines ≡ lines }
        ensures refused { result.any_refused ≡ false }
    {
        PlayEnd {
            ended,
            any_refused: false,
            cause: None,
            beside: beside_of(folder, lines),
        }
    }
}

/// These calls, and none on what takes the packets.
fn beside_of(folder: CallLog, lines: CallLog) -> TaskCalls
    ensures folder { result.folder ≡ folder }
    ensures lines { result.lines ≡ lines }
{
    TaskCalls {
        folder,
        packets: CallLog::new(),
        lines,
    }
}

/// Opens the disk and plays it into the outlet, with looks at the folder if there is one. The lines
/// of the looks, of the start and of the end are written to the log, and the status to its file. (No
/// clause says so: what is logged is tested.)
pub fn play_disk<S: System + Drop, F: System + Drop, D: Disk, O: Outlet, L: Write + Drop>(
    alloc: Global,
    disk: D,
    outlet: &mut O,
    folder: Option<FollowedFolder<'_, S>>,
    telling: Telling<'_, F>,
    log: L,
    how: Manner,
) -> PlayEnd<D>
    ensures { HandsOut (fault_of result.ended.result) result.beside (λ then_folder then_lines.
        Plays (tale_with (watched folder.entry (λ followed. watch_in how (reader_path followed.shelf)
        followed.types.now followed.guard)) None how result.any_refused
        (folder_in S.calls folder.entry) then_folder (lines_at [] []) then_lines) how
        (fault_of result.ended.result) (O.writes outlet.old) (O.writes outlet.new)
        (D.state disk) (D.state result.ended.disk)) }
{
    match folder {
        Some(followed) => {
            let update = looks_at(alloc, followed, how);
            let (ended, looks) = play_telling(alloc, disk, update, outlet, telling, log, how);
            PlayEnd::looking(ended, looks, CallLog::new())
        }
        None => {
            let (ended, _) = play_telling(alloc, disk, NoUpdate, outlet, telling, log, how);
            PlayEnd::unwatched(ended, CallLog::new(), CallLog::new())
        }
    }
}

/// Opens the disk and plays it into the outlet as `play_disk` does, and answers the lines of the
/// files in a folder before the first packet and then after every so many, as
/// `mot_feed_lines::Lines` does: a command may come within a turn. The lines about both are written
/// to the log.
pub fn play_and_answer<S: System + Drop, F: System + Drop, D: Disk, O: Outlet, L: Write + Drop>(
    alloc: Global,
    disk: D,
    outlet: &mut O,
    folder: Option<FollowedFolder<'_, S>>,
    lines: LineFolder<'_, F>,
    telling: Telling<'_, F>,
    log: L,
    how: Manner,
) -> PlayEnd<D>
    ensures { HandsOut (fault_of result.ended.result) result.beside (λ then_folder then_lines.
        Plays (tale_with (watched folder.entry (λ followed. watch_in how (reader_path followed.shelf)
        followed.types.now followed.guard))
        (Some (lines.entry.hand, lines.entry.every - 1)) how result.any_refused
        (folder_in S.calls folder.entry) then_folder
        (lines_at lines.entry.place.path.now (F.calls lines.entry.place.system)) then_lines) how
        (fault_of result.ended.result) (O.writes outlet.old) (O.writes outlet.new)
        (D.state disk) (D.state result.ended.disk)) }
{
    match folder {
        Some(followed) => {
            let update = looks_at(alloc, followed, how);
            let (ended, looks, lines) = play_answering(
                alloc, disk, update, outlet, lines, telling, log, how,
            );
            PlayEnd::looking(ended, looks, lines)
        }
        None => {
            let (ended, _, lines) = play_answering(
                alloc, disk, NoUpdate, outlet, lines, telling, log, how,
            );
            PlayEnd::unwatched(ended, CallLog::new(), lines)
        }
    }
}

/// Opens the disk and plays it into the outlet with these updates, and tells of them and of the
/// end. The updates are handed out. (Each layer of updates has a function of its own,
/// since a call at a type of several layers takes long to prove.)
fn play_telling<
    D: Disk,
    U: Update + LookHistory + Drop,
    F: System + Drop,
    O: Outlet,
    L: Write + Drop,
>(
    alloc: Global,
    disk: D,
    update: U,
    outlet: &mut O,
    telling: Telling<'_, F>,
    log: L,
    how: Manner,
) -> (Ended<D, ()>, U)
    ensures { Plays (tale_of U.tells how update result.1) how (fault_of result.0.result)
        (O.writes outlet.old) (O.writes outlet.new) (D.state disk) (D.state result.0.disk) }
{
    let watch = Reporter::new(alloc, log, telling);
    let mut reported = WatchedUpdate { update, watch };
    let fed = feed_reported(alloc, disk, &mut reported, outlet, how);
    tell_end(alloc, &fed, how.turns, &mut reported);
    let (update, _) = reported.into_parts();
    (end_of(fed), update)
}

/// Opens the disk and feeds it into the outlet with updates that are watched.
fn feed_reported<D: Disk, U: Update + LookHistory + Drop, T: Watch + Drop, O: Outlet>(
    alloc: Global,
    disk: D,
    reported: &mut WatchedUpdate<U, T>,
    outlet: &mut O,
    how: Manner,
) -> Fed<D>
    ensures { Plays (tale_of (tells_reported U.tells) how reported.old reported.new) how
        (ending_of result)
        (O.writes outlet.old) (O.writes outlet.new) (D.state disk) (D.state (disk_of result)) }
{
    feed_disk(alloc, disk, reported, outlet, how)
}

/// The same as `play_telling`, with answers to the lines of the files in a folder. The calls on it are
/// handed out, too.
fn play_answering<
    D: Disk,
    U: Update + LookHistory + Drop,
    F: System + Drop,
    O: Outlet,
    L: Write + Drop,
>(
    alloc: Global,
    disk: D,
    update: U,
    outlet: &mut O,
    lines: LineFolder<'_, F>,
    telling: Telling<'_, F>,
    log: L,
    how: Manner,
) -> (Ended<D, ()>, U, CallLog)
    ensures { (last : SourcesOf U SpoolView) × (last.update ≡ result.1)
        × EndsReading (fault_of result.0.result) last.lines result.2.all
        × Plays (tale_of (tells_lines_of GaveLines (lines.entry.every - 1) U.tells) how
        (beside update (lines_at lines.entry.place.path.now (F.calls lines.entry.place.system))
        lines.entry.hand) last) how (fault_of result.0.result) (O.writes outlet.old)
        (O.writes outlet.new) (D.state disk) (D.state result.0.disk) }
{
    let watch = Reporter::new(alloc, log, telling);
    let mut lines = lines_between(alloc, lines, WatchedUpdate { update, watch });
    let fed = feed_lines(alloc, disk, &mut lines, outlet, how);
    finish(&mut lines, &fed);
    tell_end(alloc, &fed, how.turns, &mut lines.reported);
    let (spool, update, _) = lines.into_parts();
    (end_of(fed), update, spool.into_system().into_calls())
}

/// Opens the disk and feeds it into the outlet with lines after updates that are watched.
fn feed_lines<D: Disk, R: Inlet + Drop, U: Update + LookHistory + Drop, T: Watch + Drop, O: Outlet>(
    alloc: Global,
    disk: D,
    lines: &mut Lines<R, U, T>,
    outlet: &mut O,
    how: Manner,
) -> Fed<D>
    ensures { Plays (tale_of (tells_answered R.gave R.view U.tells) how lines.old lines.new) how
        (ending_of result)
        (O.writes outlet.old) (O.writes outlet.new) (D.state disk) (D.state (disk_of result)) }
{
    feed_disk(alloc, disk, lines, outlet, how)
}

/// Looks at the folder while a disk is played so: after so many packets, if looks come within turns.
fn looks_at<'a, S: System + Drop>(
    alloc: Global,
    followed: FollowedFolder<'a, S>,
    how: Manner,
) -> Looks<'a, S>
    ensures watch { watch (reader_path result.folder.shelf) result.folder.types.now
        result.folder.guard result.every result.within
        ≡ watch_in how (reader_path followed.entry.shelf) followed.entry.types.now
        followed.entry.guard }
    ensures none { so_far result.left (view S.calls result.folder.shelf) result.any_refused
        result.folder.files.known.items ≡ no_looks (view S.calls followed.entry.shelf) }
{
    let FollowedFolder {
        shelf,
        types,
        guard,
    } = followed;
    let folder = Folder::new(alloc, shelf, types, guard);
    let mut looks = Looks::new(alloc, folder);
    if how.directory > 0 && how.look > 0 {
        looks.every = u64::from(how.look);
        looks.within = true;
    }
    looks
}

/// The lines of the files in a folder, answered after these updates, which are watched.
fn lines_between<'a, F: System + Drop, U: Update + LookHistory + Drop, T: Watch + Drop>(
    alloc: Global,
    lines: LineFolder<'a, F>,
    reported: WatchedUpdate<U, T>,
) -> Lines<Spool<'a, F>, U, T>
    ensures hand { result.intake.hand ≡ lines.entry.hand }
    ensures every { result.between ≡ lines.entry.every - 1 }
    ensures due { result.left ≡ 0 }
    ensures unread { spool_view F.calls result.reader
        ≡ lines_at lines.entry.place.path.now (F.calls lines.entry.place.system) }
    ensures reported { result.reported ≡ reported }
{
    let LineFolder { place, hand, every } = lines;
    Lines::new(alloc, place.spool(alloc), hand, every, reported)
}

/// What feeding a disk came to, with the server, or why the disk was not opened.
type Fed<D> = Result<(Server<D>, Result<(), Refusal>), Refused<D>>;

/// How a disk that was fed, or was not opened, is handed out.
fn end_of<D: Disk>(fed: Fed<D>) -> Ended<D, ()>
    ensures { IsEndOf fed result }
{
    match fed {
        Err(refused) => Ended::unopened(refused),
        Ok((server, result)) => Ended {
            disk: server.into_disk(),
            result,
            reason: None,
        },
    }
}

/// Tells the end, with the last status, if playing has come to it.
fn tell_end<D: Disk, U: Update + LookHistory + Drop, F: System + Drop, L: Write + Drop>(
    alloc: Global,
    fed: &Fed<D>,
    turns: u64,
    reported: &mut WatchedUpdate<U, Reporter<'_, F, L>>,
)
    ensures { reported.new.update ≡ reported.old.update }
{
    if let Ok((server, Ok(()))) = fed {
        let events = reported.update.events();
        reported.watch.tell_end(server, alloc, turns, events);
    }
}

/// Whether feeding has come to its end.
fn has_ended<D: Disk>(fed: &Fed<D>) -> bool
    ensures { IsTrue result ↔ (ending_of fed.now ≡ None) }
{
    match fed {
        Ok((_, result)) => result.is_ok(),
        Err(_) => false,
    }
}

/// Takes away the file of lines that was answered to its end, if playing has come to its end: else
/// the next run would answer it again.
fn finish<'a, D: Disk, F: System + Drop, U: Update + LookHistory + Drop, T: Watch + Drop>(
    lines: &mut Lines<Spool<'a, F>, U, T>,
    fed: &Fed<D>,
)
    ensures lines { EndsReading (ending_of fed.now) (spool_view F.calls lines.old.reader)
        (F.calls (spool_system lines.new.reader)) }
    ensures update { lines.new.reported.update ≡ lines.old.reported.update }
    ensures finishes { ending_of fed.now ≡ None → lines.old.intake.hand ≡ bytes_in_hand []
        → Finishes (open_file lines.old.reader)
        (F.calls (spool_system lines.old.reader)) (F.calls (spool_system lines.new.reader)) }
{
    if !has_ended(fed) {
        return;
    }
    if lines.is_answered() {
        lines.reader.finish(&mut lines.reported.watch);
    }
}

/// Opens the disk and plays it into the outlet, with one of these updates in front of each packet.
pub fn play_with<D: Disk, U: Update, O: Outlet>(
    alloc: Global,
    disk: D,
    update: &mut U,
    outlet: &mut O,
    how: Manner,
) -> Ended<D, ()>
    ensures ended { Plays (tale_of U.tells how update.old update.new) how (fault_of result.result)
        (O.writes outlet.old) (O.writes outlet.new) (D.state disk) (D.state result.disk) }

    // If commands were done in the lives before, it goes on from them.
    ensures lives { (g : Geometry) (first : ℕ) (done : List Command)
        → KeepsDone g first done (D.state disk) → (D.state result.disk).IsHonest
        → IsSomeAnd (fault_of result.result)
        (λ r. IsUnopened r (D.state disk) (D.state result.disk))
        ⊎ AirsOn g first done (tale_of U.tells how update.old update.new) how
        (fault_of result.result) (O.writes outlet.old) (O.writes outlet.new) (D.state disk)
        (D.state result.disk) }
{
    end_of(feed_disk(alloc, disk, update, outlet, how))
}

/// Opens the disk and plays it into the outlet, as `play_with` does.
fn feed_disk<D: Disk, U: Update, O: Outlet>(
    alloc: Global,
    disk: D,
    update: &mut U,
    outlet: &mut O,
    how: Manner,
) -> Fed<D>
    ensures ended { Plays (tale_of U.tells how update.old update.new) how (ending_of result)
        (O.writes outlet.old) (O.writes outlet.new) (D.state disk) (D.state (disk_of result)) }
    ensures lives { (g : Geometry) (first : ℕ) (done : List Command)
        → KeepsDone g first done (D.state disk) → (D.state (disk_of result)).IsHonest
        → IsSomeAnd (ending_of result)
        (λ r. IsUnopened r (D.state disk) (D.state (disk_of result)))
        ⊎ AirsOn g first done (tale_of U.tells how update.old update.new) how (ending_of result)
        (O.writes outlet.old) (O.writes outlet.new) (D.state disk) (D.state (disk_of result)) }
{
    let mut server = match Server::open(alloc, disk) {
        Ok(server) => server,
        Err(refused) => return Err(refused),
    };
    // Its sizes are in their ranges: each packet has room. (The line is there for the proof.)
    let _ = server.geometry();
    if let Err(refusal) = begin(&mut server, alloc, how) {
        return Err(Refused {
            refusal,
            reason: None,
            disk: server.into_disk(),
        });
    }
    let result = feed(&mut server, alloc, update, outlet, each_packet(how));
    Ok((server, result))
}

/// If the directory is to come within turns, and these have no end, begins the turn of a server that
/// was just opened with its newest bodies, one fewer than may come early. What changed last stands
/// last in the directory: where runs are shorter than a turn, nobody would hear it.
fn begin<D: Disk>(server: &mut Server<D>, alloc: Global, how: Manner) -> Result<(), Refusal>
    ensures disk { server.new.disk ≡ server.old.disk }
    ensures view { server.new.view ≡ server.old.view }
    ensures begun { OnOk result ((s : Standing) → Agrees server.old.view s
        → place_in server.old s ≡ first_place s
        → place_in (server_for how server.new) s ≡ place_at_start how s) }
    ensures refused { IfErr result (λ refusal. refusal ≡ OutOfMemory) }
{
    if how.directory == 0 || how.turns < u64::MAX {
        return Ok(());
    }
    server.begin_newest(alloc, how.early.saturating_sub(1) as usize)
}

/// The looks of a feed: one may come in front of each packet, or only between turns.
fn each_packet(how: Manner) -> Manner
    ensures { result ≡ each_packet how }
{
    Manner {
        directory: how.directory,
        look: how.look.min(1),
        early: how.early,
        turns: how.turns,
    }
}
