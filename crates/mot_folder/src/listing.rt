//! The files of a folder that are objects.
ghost use Rattle.std.specs.Str.{is_utf8};
ghost use Rattle.std.specs.Prelude.{◌≡◌, ◌<◌, ◌∷◌, ◌++◌, [], true, false, length};
ghost use Rattle.std.specs.Prelude.{IfNone, IfSome, IsTrue};
ghost use Rattle.std.specs.Prelude.{◌==◌, ◌≢◌, List, MatchResult, OnErr, OnOk, Some, nat_le, ℕ};
ghost use Rattle.mot_events.specs.Events.{event_of};
ghost use Rattle.mot_events.specs.declared.event.LookResult.TheVariants.{Skipped};
ghost use Rattle.mot_events.specs.declared.event.Skip.TheVariants.{NotUtf8};
ghost use Rattle.mot_folder.specs.Inner.Listing.{AreGoneOver, AreRead, IsCallRefusal, IsLeftOutFor};
ghost use Rattle.mot_folder.specs.Inner.Listing.{Lists, ListsNot, Skips, TellsNameless, stage};
ghost use Rattle.mot_folder.specs.Inner.Listing.{stage_of};
ghost use Rattle.mot_folder.specs.Inner.Notes.{unknown_objects};
ghost use Rattle.mot_folder.specs.Inner.Reading.{unread_for};
ghost use Rattle.mot_folder.specs.Inner.Reasons.{TellsNoMore, why_nameless};
ghost use Rattle.mot_objects.specs.Name.{is_name};
ghost use Rattle.mot_objects.specs.declared.name.TheConstants.{MAX_NAME};
ghost use Rattle.mot_folder.specs.Listed.{and_object, has_type};
ghost use Rattle.mot_folder.specs.Listed.{names_in};
ghost use Rattle.mot_folder.specs.Log.{TellsAnswers, TellsOne};
ghost use Rattle.mot_numbers.specs.declared.refusal.Refusal.TheVariants.{BadName, OutOfMemory};
ghost use Rattle.mot_shelf.specs.Given.{Given, nothing};
ghost use Rattle.mot_shelf.specs.Gives.{Gives, GoesOnSo};
ghost use Rattle.mot_shelf.specs.Reader.{reader_path, view};
ghost use Rattle.mot_suffixes.specs.Types.{is_hidden};
ghost use Rattle.mot_update.specs.Told.{TellsMore};
ghost use Rattle.mot_folder.specs.declared.report.TheConstants.{MAX_SKIPPED};

use crate::names::FileNames;
use crate::report::Report;
use memchr::memchr;
use mot_events::{Skip, Why};
use mot_files::{Kind, System};
use mot_numbers::Refusal;
use mot_objects::{Carousel, Name};
use mot_shelf::FolderReader;
use mot_suffixes::FileTypes;
use std::alloc::{AllocError, Global};
use std::io::{self, ErrorKind};
use std::str::from_utf8;

/// Room for the names that one read of a folder gives.
const ROOM: usize = 16_384;

/// How many names with one of the suffixes a folder may have, so that no look takes long.
pub(crate) const MAX_NAMES: u32 = 1_000;

/// Why a folder is not listed.
#[derive(Clone, Copy)]
pub(crate) struct Unlisted {
    /// The refusal.
    pub(crate) refusal: Refusal,
    /// What the system says, if it refused a call.
    error: Option<io::Error>,
}

// The system refused a call.
impl From<io::Error> for Unlisted {
    ghost from_gives = { λ error unlisted. IsCallRefusal unlisted.refusal };

    fn from(error: io::Error) -> Unlisted {
        Unlisted {
            refusal: read_refusal(error),
            error: Some(error),
        }
    }
}

impl From<Refusal> for Unlisted {
    ghost from_gives = { λ refusal unlisted. unlisted.refusal ≡ refusal };

    fn from(refusal: Refusal) -> Unlisted {
        Unlisted {
            refusal,
            error: None,
        }
    }
}

impl From<AllocError> for Unlisted {
    ghost from_gives = { λ error unlisted. unlisted.refusal ≡ OutOfMemory };

    fn from(_error: AllocError) -> Unlisted {
        Unlisted::from(Refusal::OutOfMemory)
    }
}

/// The names of the regular files directly in the folder that have one of the suffixes and do not
/// begin with a dot. A name that can't be an object's is logged, and left out. If the carousel has
/// an object without a file, the folder's names are made to last: so after a power cut none comes
/// back for which an object is withdrawn. The errors are `ReadFault`, if the folder can't be
/// listed, or its names not be made to last; `TooManyObjects`, if more than `MAX_NAMES` names have
/// one of the suffixes; and `OutOfMemory`.
pub(crate) fn list<S: System + Drop>(
    shelf: &mut FolderReader<'_, S>,
    alloc: Global,
    types: &FileTypes,
    report: &mut Report,
    carousel: &Carousel,
) -> Result<(FileNames, usize), Unlisted>
    // Nothing is withdrawn but by names that last.
    ensures { (given : Given)
        × Gives (view S.calls shelf.old) nothing (view S.calls shelf.new) given
        × MatchResult result
        (λ listed. Lists types.now (stage (reader_path shelf.old) nothing report.old 0 [])
        (stage_of (reader_path shelf.new) given report.new listed.0)
        × (listed.1 ≡ length (unknown_objects listed.0.names.items carousel.now.objects.items))
        × (unknown_objects listed.0.names.items carousel.now.objects.items ≢ []
        → (before : List (List ℕ)) × (given.kept_names ≡ before ++ reader_path shelf.old ∷ [])))
        (λ unlisted. ListsNot types.now (stage (reader_path shelf.old) nothing report.old 0 [])
        (stage (reader_path shelf.new) given report.new 0 []) unlisted.refusal) }
{
    let mut names = FileNames::new(alloc);
    shelf.open()?;
    read_names(shelf, alloc, types, &mut names, report)?;
    let going = count_unknown(&names, carousel);
    if going == 0 {
        return Ok((names, going));
    }
    shelf.keep_names()?;
    Ok((names, going))
}

/// How many objects of the carousel have none of the names.
pub(crate) fn count_unknown(names: &FileNames, carousel: &Carousel) -> usize
    ensures { result
        ≡ length (unknown_objects names.now.names.items carousel.now.objects.items) }
{
    let objects = carousel.objects.iter();
    objects.filter(|object| !names.has(&object.name)).count()
}

/// Adds those of the names that the open folder gives that are objects.
fn read_names<S: System + Drop>(
    shelf: &mut FolderReader<'_, S>,
    alloc: Global,
    types: &FileTypes,
    names: &mut FileNames,
    report: &mut Report,
) -> Result<(), Unlisted>
    ensures { GoesOnSo (view S.calls shelf.old) (view S.calls shelf.new) (λ given after.
        AreRead types.now
        (stage_of (reader_path shelf.old) given report.old names.old)
        (stage_of (reader_path shelf.new) after report.new names.new) result) }
{
    let mut room = [0; ROOM];
    for _ in 0..u64::MAX {
        match shelf.names(&mut room)? {
            0 => return Ok(()),
            count => add_all(shelf, alloc, types, &room[..count], names, report)?,
        }
    }
    Err(Unlisted::from(Refusal::ReadFault))
}

/// Adds those of the names, each ended by a zero byte, that are objects.
fn add_all<S: System + Drop>(
    shelf: &mut FolderReader<'_, S>,
    alloc: Global,
    types: &FileTypes,
    bytes: &[u8],
    names: &mut FileNames,
    report: &mut Report,
) -> Result<(), Unlisted>
    ensures { GoesOnSo (view S.calls shelf.old) (view S.calls shelf.new) (λ given after.
        AreGoneOver types.now (names_in bytes.now)
        (stage_of (reader_path shelf.old) given report.old names.old)
        (stage_of (reader_path shelf.new) after report.new names.new) result) }
{
    let mut rest = bytes;
    while let Some((name, others)) = cut_name(rest) {
        add_one(shelf, alloc, types, name, names, report)?;
        rest = others;
    }
    Ok(())
}

/// The first of the names, each ended by a zero byte, and the others; `None` if there is no name.
fn cut_name(bytes: &[u8]) -> Option<(&[u8], &[u8])>
    ensures first { IfSome result (λ cut. names_in bytes.now ≡ cut.0.now ∷ names_in cut.1.now) }
    ensures shorter { IfSome result (λ cut. length cut.1.now < length bytes.now) }
    ensures none { IfNone result (names_in bytes.now ≡ []) }
{
    let end = memchr(0, bytes)?;
    Some((&bytes[..end], &bytes[end + 1..]))
}

/// Adds the name, if it is that of an object.
fn add_one<S: System + Drop>(
    shelf: &mut FolderReader<'_, S>,
    alloc: Global,
    types: &FileTypes,
    name: &[u8],
    names: &mut FileNames,
    report: &mut Report,
) -> Result<(), Unlisted>
    ensures { GoesOnSo (view S.calls shelf.old) (view S.calls shelf.new) (λ given after.
        AreGoneOver types.now (name.now ∷ [])
        (stage_of (reader_path shelf.old) given report.old names.old)
        (stage_of (reader_path shelf.new) after report.new names.new) result) }
{
    if !is_object(types, name) {
        tell_skipped(shelf, name, false, report);
        return Ok(());
    }
    names.count()?;
    if !shelf.is_file(alloc, name)? {
        tell_skipped(shelf, name, true, report);
        return Ok(());
    }
    add_file(alloc, name, names, report)?;
    Ok(())
}

/// Tells why this name is left out, which has one of the suffixes or none, but for one that begins
/// with a dot.
fn tell_skipped<S: System + Drop>(
    shelf: &mut FolderReader<'_, S>,
    name: &[u8],
    has_suffix: bool,
    report: &mut Report,
)
    ensures same { reader_path shelf.new ≡ reader_path shelf.old }
    ensures gave { (given : Given)
        → Gives (view S.calls shelf.old) given (view S.calls shelf.new) given }
    ensures told { TellsMore (TellsAnswers report.old) (TellsAnswers report.new) [] }
    ensures further { (files : List (List ℕ)) → TellsNameless files report.old
        → TellsNameless files report.new }

    // It is told once at most.
    ensures skips { Skips report.old report.new name.now has_suffix }

    // What is not UTF-8 is told as that, whatever it names.
    ensures text { is_hidden name.now ≡ false → nat_le MAX_SKIPPED report.old.skipped ≡ false
        → is_utf8 name.now ≡ false
        → TellsOne report.old report.new (event_of name.now (Skipped NotUtf8)) }
{
    if is_hidden(name) || report.is_full() {
        return;
    }
    if let Some(skip) = why_skipped(shelf, name, has_suffix) {
        report.skipped(name, skip);
    }
}

/// Whether the name begins with a dot.
fn is_hidden(name: &[u8]) -> bool
    ensures { result ≡ is_hidden name.now }
{
    !name.is_empty() && name[0] == b'.'
}

/// Why this name is left out, which has one of the suffixes or none, if the system says it.
fn why_skipped<S: System + Drop>(
    shelf: &mut FolderReader<'_, S>,
    name: &[u8],
    has_suffix: bool,
) -> Option<Skip>
    ensures same { reader_path shelf.new ≡ reader_path shelf.old }
    ensures gave { (given : Given)
        → Gives (view S.calls shelf.old) given (view S.calls shelf.new) given }
    ensures why { IfSome result (λ skip. IsLeftOutFor has_suffix name.now skip) }
    ensures text { is_utf8 name.now ≡ false → result ≡ Some NotUtf8 }
{
    if !is_text(name) {
        return Some(Skip::NotUtf8);
    }
    match shelf.kind(name)? {
        Kind::Folder => Some(Skip::Folder),
        Kind::Link => Some(Skip::Link),
        Kind::Pipe | Kind::Special => Some(Skip::Special),
        Kind::File if !has_suffix => Some(Skip::Suffix),
        Kind::File => None,
    }
}

/// Whether the name has one of the suffixes.
fn is_object(types: &FileTypes, name: &[u8]) -> bool
    ensures typed { result ≡ has_type types.now name.now }
    ensures shown { IsTrue result → is_hidden name.now ≡ false }
{
    types.of_name(name).is_some()
}

/// Adds the name of a regular file; a name that can't be an object's is logged instead.
fn add_file(
    alloc: Global,
    name: &[u8],
    names: &mut FileNames,
    report: &mut Report,
) -> Result<(), AllocError>
    ensures told { TellsMore (TellsAnswers report.old) (TellsAnswers report.new) [] }
    ensures further { OnOk result ((files : List (List ℕ)) → TellsNameless files report.old
        → TellsNameless (files ++ name.now ∷ []) report.new) }
    ensures added { OnOk result
        (names.new.names.items ≡ and_object names.old.names.items name.now) }
    ensures kept { OnErr result (names.new.names.items ≡ names.old.names.items) }
    ensures counted { names.new.counted ≡ names.old.counted }

    // A file whose name can't be an object's is told, and why it can't.
    ensures nameless { OnOk result (is_name MAX_NAME name.now ≡ false
        → TellsOne report.old report.new (unread_for name.now BadName (why_nameless name.now))) }
{
    match Name::new(Vec::from_slice(alloc, name)?) {
        Ok(name) => names.add(name)?,
        Err(_) => report.missed(name, Refusal::BadName, why_nameless(name)),
    }
    Ok(())
}

/// Why the name of a file can't be an object's.
fn why_nameless(name: &[u8]) -> Why
    ensures { result ≡ why_nameless name.now }
{
    if !is_text(name) {
        Why::NotUtf8
    } else if name.contains(&b' ') {
        Why::Space
    } else {
        Why::Control
    }
}

/// Whether the name is UTF-8.
fn is_text(name: &[u8]) -> bool
    ensures { result ≡ is_utf8 name.now }
{
    from_utf8(name).is_ok()
}

/// Why a folder is not listed, if more is known than the refusal.
pub(crate) fn why_unlisted(report: &mut Report, unlisted: Unlisted) -> Why
    ensures told { TellsNoMore report.old report.new }
{
    match (unlisted.refusal, unlisted.error) {
        (_, Some(error)) => report.words_of(error),
        (Refusal::TooManyObjects, None) => Why::Names(u64::from(MAX_NAMES)),
        _ => Why::Unsaid,
    }
}

/// Why something could not be read.
pub(crate) fn read_refusal(error: io::Error) -> Refusal
    ensures { IsCallRefusal result }
{
    match error.kind() {
        ErrorKind::OutOfMemory => Refusal::OutOfMemory,
        _ => Refusal::ReadFault,
    }
}
