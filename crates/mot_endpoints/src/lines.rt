//! Which folder lines may come from while a disk is played.
ghost use Rattle.std.specs.Prelude.{◌≡◌, ◌↔◌, IfErr, IfOk, IfSome, IsTrue, MatchResult, Ok};
ghost use Rattle.std.specs.Prelude.{[], is_none, option_map, unwrap_or};
ghost use Rattle.mot_endpoints.specs.LinePlaces.{ChecksLines, IfGiven, IsApart, IsApartFrom};
ghost use Rattle.mot_endpoints.specs.LinePlaces.{IsElsewhere, IsRefused, IsUnresolved, PacketsApart};
ghost use Rattle.mot_endpoints.specs.Lines.{IsUnlined};
ghost use Rattle.mot_endpoints.specs.Opened.{AreMet, BeginsTo, if_given};
ghost use Rattle.mot_endpoints.specs.Opened.Need.{lines as lines_at};
ghost use Rattle.mot_endpoints.specs.declared.fault.LinesFault.{LinesFault};
ghost use Rattle.mot_files.specs.declared.system.Kind.TheVariants.{Folder};
ghost use Rattle.mot_line_folder.specs.declared.folder.LineFolder.{LineFolder};

use crate::host::{Host, Machine};
use crate::{Cause, LinesFault, OUTPUT, StartError, folder_of, leads_to};
use mot_files::{Fault, FileStat, Kind, System};
use mot_line_folder::LineFolder;
use mot_lines::Hand;
use std::alloc::Global;
use std::io::{self, ErrorKind};
use std::str::from_utf8;

/// After how many packets lines are read, if no number is given.
const EVERY: u32 = 8;

/// Room for a path without links.
const PATH: usize = 4_096;

/// The other files of the command. None may stand in the folder of lines, which are removed.
#[derive(Clone, Copy)]
pub struct OtherFiles<'a> {
    /// The folder of objects, if one is given.
    pub objects: Option<&'a str>,
    /// The disk.
    pub disk: &'a str,
    /// What takes the packets.
    pub packets: &'a str,
    /// The file that adds suffixes, if one is given.
    pub types: Option<&'a str>,
}

/// The folder at the path, if one is given, with room for a line. It is not that of the objects,
/// and none of the other files stands in it.
pub fn line_folder<'a, M: Machine + Drop>(
    host: &mut Host<M>,
    alloc: Global,
    path: Option<&'a str>,
    every: Option<u32>,
    others: OtherFiles<'_>,
) -> Result<Option<LineFolder<'a, M::System>>, StartError>
    ensures given { IfOk result (λ lines. is_none lines ≡ is_none path.entry) }
    ensures folder { IfOk result
        (λ lines. option_map (λ lines. lines.place.path) lines ≡ path.entry) }
    ensures every { IfOk result (λ lines. IfSome lines (λ l. l.every ≡ unwrap_or every EVERY)) }
    ensures hand { IfOk result (λ lines. option_map (λ lines. lines.hand) lines
        ≡ option_map (λ _. []) path.entry) }
    ensures checked { IfOk result (λ lines. IfSome lines (λ l. ChecksLines l.place.path.now
        others.entry (Ok tt) [] (M.System.calls l.place.system))) }
    ensures refused { IfErr result (λ unbegun. IsUnlined path.entry unbegun.refusal) }
    ensures opens { let needs = if_given (λ path. lines_at path others.entry) path.entry in
        MatchResult result
        (λ _. AreMet needs (M.System.calls host.old.system) (M.System.calls host.new.system))
        (λ unbegun. BeginsTo needs unbegun.refusal (M.System.calls host.old.system)
        (M.System.calls host.new.system)) }
{
    let Some(path) = path else {
        return Ok(None);
    };
    let place = match host.lines(path, others) {
        Ok(place) => place,
        Err(fault) => return Err(StartError::unread(Cause::Lines(fault))),
    };
    let Ok(hand) = Hand::new(alloc) else {
        return Err(StartError::no_memory());
    };
    let every = every.unwrap_or(EVERY);
    Ok(Some(LineFolder { place, hand, every }))
}

/// Why no lines can come from the path.
pub(crate) fn check_folder<S: System>(
    system: &mut S,
    path: &str,
    others: OtherFiles<'_>,
) -> Result<(), LinesFault>
    ensures { ChecksLines path.now others.entry result (S.calls system.old) (S.calls system.new) }
{
    let folder = system.follow(path)?;
    let Kind::Folder = folder.kind else {
        return Err(LinesFault::NoFolder);
    };
    check_elsewhere(system, &folder, others.objects, LinesFault::HasObjects)?;
    check_apart(system, &folder, Some(others.disk), LinesFault::HasDisk)?;
    check_packets(system, &folder, others.packets)?;
    check_apart(system, &folder, others.types, LinesFault::HasTypes)
}

/// Refuses what takes the packets if it stands in the folder. Standard output stands nowhere.
fn check_packets<S: System>(
    system: &mut S,
    folder: &FileStat,
    packets: &str,
) -> Result<(), LinesFault>
    ensures { PacketsApart folder.now packets.now result (S.calls system.old) (S.calls system.new) }
{
    if packets == OUTPUT {
        return Ok(());
    }
    check_apart(system, folder, Some(packets), LinesFault::HasPackets)
}

/// Refuses a path, if one is given, if what it names stands in the folder, or would; or, of a link,
/// what it leads to.
fn check_apart<S: System>(
    system: &mut S,
    folder: &FileStat,
    path: Option<&str>,
    why: LinesFault,
) -> Result<(), LinesFault>
    ensures { IfGiven (IsApart folder.now why) path.entry result (S.calls system.old)
        (S.calls system.new) }
{
    let Some(path) = path else {
        return Ok(());
    };
    check_elsewhere(system, folder, Some(folder_of(path)), why)?;
    let mut room = [0u8; PATH];
    let count = match system.resolve(path, &mut room) {
        Ok(count) => count,
        Err(fault) => return unresolved(fault),
    };
    match from_utf8(&room[..count]) {
        Ok(place) => check_elsewhere(system, folder, Some(folder_of(place)), why),
        Err(_) => Err(LinesFault::System(io::Error::from(ErrorKind::InvalidData))),
    }
}

/// Refuses a path, if one is given, if it leads to the folder.
fn check_elsewhere<S: System>(
    system: &mut S,
    folder: &FileStat,
    path: Option<&str>,
    why: LinesFault,
) -> Result<(), LinesFault>
    ensures { IfGiven (IsElsewhere folder.now why) path.entry result (S.calls system.old)
        (S.calls system.new) }
{
    let Some(path) = path else {
        return Ok(());
    };
    if leads_to(system, path, folder) {
        return Err(why);
    }
    Ok(())
}

/// What is not there leads nowhere; of any other fault it is not known where a path leads.
fn unresolved(fault: Fault) -> Result<(), LinesFault>
    ensures { IsUnresolved fault result }
{
    match fault {
        Fault::Absent(_) => Ok(()),
        _ => Err(LinesFault::from(fault)),
    }
}
