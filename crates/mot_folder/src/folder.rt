//! A folder of files, as a source of wanted objects.
ghost use Rattle.std.specs.Prelude.{◌≡◌, ◌⊎◌, ◌||◌, ◌-◌, ◌<◌, ℕ, List, [], true, false, not, IfErr};
ghost use Rattle.std.specs.Prelude.{IfOk, IfSome, MatchResult, Some, slice_get};
ghost use Rattle.mot_folder.specs.Inner.Knowing.{IsKnownWith, is_fine_look};
ghost use Rattle.mot_folder.specs.Inner.Names.{name_or_none};
ghost use Rattle.mot_folder.specs.Inner.Reading.{LookStart, LookedSince, Misses, OfferedSince, Takes, TellsFile, TellsUntaken};
ghost use Rattle.mot_folder.specs.Inner.Reading.{TellsFault, is_for_next};
ghost use Rattle.mot_folder.specs.Inner.Reasons.{StaysShort, and_settled};
ghost use Rattle.mot_folder.specs.Inner.Images.{NotesImage};
ghost use Rattle.mot_folder.specs.Log.{AreKept, TellsOf};
ghost use Rattle.mot_folder.specs.declared.folder.Untaken.TheVariants.{Refused as NotTaken};
ghost use Rattle.mot_folder.specs.declared.folder.Untaken.TheVariants.{ReadFailure as NotRead};
ghost use Rattle.mot_numbers.specs.declared.refusal.Refusal.{Refusal};
ghost use Rattle.mot_numbers.specs.declared.refusal.Refusal.TheVariants.{OutOfMemory};
ghost use Rattle.mot_files.specs.declared.reading.ReadFailure.TheVariants.{TooLong};
ghost use Rattle.mot_shelf.specs.Given.{Given, and_unchanged};
ghost use Rattle.mot_shelf.specs.Gives.{Gives, GoesOnSo};
ghost use Rattle.mot_shelf.specs.Reader.{reader_path, view};
ghost use Rattle.mot_files.specs.declared.system.Stamp.{Stamp};
ghost use Rattle.mot_suffixes.specs.Types.{SuffixType, type_of_name};
ghost use Rattle.mot_update.specs.Looking.{was_settled};
ghost use Rattle.mot_folder.specs.Taken.{IsUntakable, wanted_file};
ghost use Rattle.mot_update.specs.Told.{TellsBoth, answers_of};

use crate::guard::Guard;
use crate::known::KnownFiles;
use crate::listing::read_refusal;
use crate::names::FileNames;
use crate::report::{Report, Sizes, has_to_wait};
use mot_events::{LookResult, LookStep, Why};
use mot_files::{ReadFailure, Stamp, System};
use mot_numbers::Refusal;
use mot_objects::{Body, Item, MAX_BODY, Name};
use mot_playout::Attempt;
use mot_shelf::FolderReader;
use mot_suffixes::{FileTypes, other_image};
use mot_update::{SettleOutcome, Source};
use std::alloc::Global;
use std::io;

/// A folder that a carousel is made equal to, look by look. In a look its files are listed, and each
/// is read when its turn comes; one that can't be taken is logged, and its object stays as it is. A
/// file that was not changed since a look found it equal to its object is not read again.
#[derive(Drop)]
pub struct Folder<'a, S: System + Drop> {
    /// The folder, and what it gave in the last look.
    pub shelf: FolderReader<'a, S>,
    /// Which of its files are objects.
    pub types: &'a FileTypes,
    /// Which looks change nothing.
    pub guard: Guard,
    /// Whether the look before went by the folder's list. Else one that does tells so.
    pub was_listed: bool,
    /// The names of the last look.
    pub(crate) names: FileNames,
    /// How many of them were gone over.
    pub(crate) place: usize,
    /// How many bytes the file had that was read last, and how many objects there may be.
    pub(crate) sizes: Sizes,
    /// What is known of its files.
    pub files: KnownFiles,
    /// Whether a file was passed over in the last look.
    pub(crate) any_passed: bool,
    /// Whether the file that was read last was made to last.
    pub(crate) is_kept: bool,
    /// What is told of the last look.
    pub report: Report,
}

impl<'a, S: System + Drop> Folder<'a, S> {
    /// No look yet.
    pub fn new(
        alloc: Global,
        shelf: FolderReader<'a, S>,
        types: &'a FileTypes,
        guard: Guard,
    ) -> Folder<'a, S>
        ensures shelf { result.shelf ≡ shelf.entry }
        ensures types { result.types.now ≡ types.now }
        ensures guard { result.guard ≡ guard }
        ensures listed { result.was_listed ≡ true }
        ensures untold { result.report.events.items ≡ [] }

        // It knows no file: so the first look reads them all.
        ensures known { result.files.known.items ≡ [] }
    {
        Folder {
            shelf,
            types,
            guard,
            was_listed: true,
            names: FileNames::new(alloc),
            place: 0,
            sizes: Sizes::default(),
            files: KnownFiles::new(alloc),
            any_passed: false,
            is_kept: false,
            report: Report::new(alloc),
        }
    }
}

impl<'a, S: System + Drop> Source for Folder<'a, S> {
    ghost names = { λ folder. folder.names.names.items };

    ghost place = { λ folder. folder.place };

    // Where a file is passed over, no object of its name is given.
    ghost is_fine = { λ folder. is_fine_look folder.report.any_refused folder.any_passed };

    // What the look began with.
    ghost Since = { LookStart };

    ghost was_told = { λ folder since told given. LookedSince since (view S.calls folder.shelf)
        folder.types.now folder.files folder.names.names.items folder.place folder.report
        folder.sizes.waiting folder.is_kept told given };

    ghost offers = { λ folder wanted since told given. OfferedSince since
        (view S.calls folder.shelf) folder.types.now folder.files folder.names.names.items
        folder.place folder.report folder.sizes.waiting folder.is_kept wanted told given };

    ghost last = { λ folder. name_or_none (slice_get folder.names.names.items (folder.place - 1)) };

    ghost lasts = { λ folder. folder.is_kept ≡ true };

    fn knows(&self, name: &Name) -> bool {
        self.names.has(name)
    }

    fn next(&mut self, alloc: Global) -> Option<Item> {
        while self.place < self.names.names.len() {
            let place = self.place;
            self.place += 1;
            self.is_kept = false;
            let names = &self.names;
            let name = &names.names[place];
            if is_unchanged(&self.shelf, &self.files, name) {
                self.any_passed = true;
                continue;
            }
            match read(&mut self.shelf, alloc, self.types, name) {
                Ok((wanted, stamp)) => {
                    self.sizes.length = wanted.body.length().get();
                    self.files.add(name, stamp_to_keep(&wanted, stamp));
                    return Some(wanted);
                }
                Err(untaken) => tell_untaken(&mut self.report, name.as_bytes(), untaken),
            }
        }
        None
    }

    fn take(&mut self, wanted: &Item, is_new: bool) -> bool {
        if !is_new {
            note_image(&mut self.report, wanted);
            return true;
        }
        let name = wanted.name.as_bytes();
        if let Err(unread) = self.shelf.keep(name) {
            // What is not stored is not known: the next look reads it again.
            let place = self.place.saturating_sub(1);
            self.files.settle(&self.names, place, true);
            tell_untaken(&mut self.report, name, Untaken::ReadFailure(unread));
            return false;
        }
        self.is_kept = true;
        note_image(&mut self.report, wanted);
        true
    }

    fn withdrew(&mut self, name: &Name, attempt: Attempt) {
        let name = name.as_bytes();
        self.report
            .answered(LookStep::Withdraw, name, attempt, Why::Unsaid);
    }

    fn settled(&mut self, settled: SettleOutcome) {
        let place = self.place.saturating_sub(1);
        let waiting = and_settled(self.sizes.waiting, &settled);
        self.files.settle(&self.names, place, is_refused(&settled));
        let name = name_at(&self.names, place);
        tell_settled(&mut self.report, name, self.sizes, settled);
        self.sizes.waiting = waiting;
    }
}

/// Why a file is not taken.
#[derive(Clone, Copy)]
enum Untaken {
    /// It was not read.
    ReadFailure(ReadFailure),
    /// What was read of it makes no object.
    Refused(Refusal),
}

/// Tells that the file of this name could not be taken, and why.
fn tell_untaken(report: &mut Report, name: &[u8], untaken: Untaken)
    ensures any { report.new.any_refused ≡ true }
    ensures stays { StaysShort report.old report.new }
    ensures memory { untaken ≡ NotTaken OutOfMemory → report.new.any_without_memory ≡ true }
    ensures told { TellsFile report.old report.new name.now }

    // Why is told as it is known; what may be read next time brings a look soon.
    ensures why { TellsUntaken untaken report.old report.new name.now }
    ensures left { report.new.any_left ≡ (report.old.any_left || is_for_next untaken) }
{
    match untaken {
        Untaken::Refused(refusal) => report.missed(name, refusal, Why::Unsaid),
        Untaken::ReadFailure(ReadFailure::Young) => report.left(name, LookResult::Young),
        Untaken::ReadFailure(ReadFailure::Changed) => report.left(name, LookResult::Changed),
        Untaken::ReadFailure(ReadFailure::TooLong(length)) => {
            report.missed(name, Refusal::BodyTooLong, Why::TooLong(length));
        }
        Untaken::ReadFailure(ReadFailure::System(fault)) => tell_fault(report, name, fault.error()),
        Untaken::ReadFailure(ReadFailure::NoMemory) => {
            report.missed(name, Refusal::OutOfMemory, Why::Unsaid);
        }
    }
}

/// Tells that the system refused to read the file of this name.
fn tell_fault(report: &mut Report, name: &[u8], error: io::Error)
    ensures any { report.new.any_refused ≡ true }
    ensures stays { StaysShort report.old report.new }
    ensures left { report.new.any_left ≡ report.old.any_left }
    ensures told { TellsFault report.old report.new name.now }
{
    match read_refusal(error) {
        Refusal::ReadFault => {
            let why = report.words_of(error);
            report.missed(name, Refusal::ReadFault, why);
        }
        refusal => report.missed(name, refusal, Why::Unsaid),
    }
}

/// Notes that the bytes of an object are of another image type than its suffix says, if they are.
fn note_image(report: &mut Report, wanted: &Item)
    ensures notes { NotesImage report.old report.new wanted.now }
{
    if let Some(other) = other_image(wanted.content, wanted.body.as_bytes()) {
        report.note(wanted.name.as_bytes(), LookResult::OtherImage(other));
    }
}

/// The bytes of the name at this place; `None` if there is no such place.
fn name_at(names: &FileNames, place: usize) -> &[u8]
    ensures { result.now ≡ name_or_none (slice_get names.now.names.items place) }
{
    match names.names.get(place) {
        Some(name) => name.as_bytes(),
        None => b"",
    }
}

/// Tells what became of the object of this name and these sizes. If anything was done for it, its
/// file was made to last.
fn tell_settled(report: &mut Report, name: &[u8], sizes: Sizes, settled: SettleOutcome)
    ensures any { report.new.any_refused ≡ (report.old.any_refused || not (was_settled settled)) }
    ensures told { (types : List SuffixType) (given : Given) (names_before : List (List ℕ))
        → AreKept given.kept (answers_of name.now settled)
        → TellsBoth (TellsOf types given report.old sizes.waiting names_before)
        (TellsOf types given report.new (and_settled sizes.waiting settled) names_before)
        (answers_of name.now settled) [] }
{
    match settled {
        SettleOutcome::Right => {}
        SettleOutcome::Put(attempt) => report.stored(LookStep::Put, name, attempt, sizes),
        SettleOutcome::Replaced(attempt) => report.stored(LookStep::Replace, name, attempt, sizes),
    }
}

/// Whether a command was needed, and refused.
fn is_refused(settled: &SettleOutcome) -> bool
    ensures { result ≡ not (was_settled settled.now) }
{
    matches!(
        settled,
        SettleOutcome::Put(Attempt::Refused(_)) | SettleOutcome::Replaced(Attempt::Refused(_))
    )
}

/// How many objects wait, where so many did before one was settled so.
fn and_settled(waiting: u32, settled: &SettleOutcome) -> u32
    ensures { result ≡ and_settled waiting settled.now }
{
    match settled {
        SettleOutcome::Put(attempt) | SettleOutcome::Replaced(attempt) if has_to_wait(attempt) => {
            waiting.saturating_add(1)
        }
        _ => waiting,
    }
}

/// Whether the file of this name is known, and had not changed when the look listed it. It is not
/// read.
fn is_unchanged<S: System + Drop>(
    shelf: &FolderReader<'_, S>,
    files: &KnownFiles,
    name: &Name,
) -> bool
    ensures { result ≡ true → (given : Given) → (stamp : Stamp)
        × IsKnownWith files.now.known.items (name.now, stamp)
        × Gives (view S.calls shelf.now) given (view S.calls shelf.now)
        (and_unchanged given name.now stamp) }
{
    match files.stamp_of(name) {
        Some(stamp) => shelf.is_unchanged(name.as_bytes(), &stamp),
        None => false,
    }
}

/// The stamp of a file of which this is wanted, but where its image type is noted: a note comes again
/// in each look.
fn stamp_to_keep(wanted: &Item, stamp: Option<Stamp>) -> Option<Stamp>
    ensures { IfSome result (λ kept. stamp ≡ Some kept) }
{
    if other_image(wanted.content, wanted.body.as_bytes()).is_some() {
        None
    } else {
        stamp
    }
}

/// Reads the file of this name, as what is wanted, with the stamp that it had before.
fn read<S: System + Drop>(
    shelf: &mut FolderReader<'_, S>,
    alloc: Global,
    types: &FileTypes,
    name: &Name,
) -> Result<(Item, Option<Stamp>), Untaken>
    ensures same { reader_path shelf.new ≡ reader_path shelf.old }
    ensures took { GoesOnSo (view S.calls shelf.old) (view S.calls shelf.new) (λ given after.
        MatchResult result
        (λ taken. (takes : Takes types.now name.now given after taken.0)
        × (takes.stamp ≡ taken.1))
        (λ untaken. Misses types.now name.now given after (untaken ≡ NotTaken OutOfMemory))) }

    // A file is too long only where no body has so many bytes.
    ensures long { IfErr result (λ untaken. (count : ℕ) → untaken ≡ NotRead (TooLong count)
        → MAX_BODY < count) }
{
    let file = match shelf.read(alloc, name.as_bytes(), u64::from(MAX_BODY)) {
        Ok(file) => file,
        Err(unread) => return Err(Untaken::ReadFailure(unread)),
    };
    let stamp = file.stamp;
    match wanted_of_file(types, name, file.bytes) {
        Ok(wanted) => Ok((wanted, stamp)),
        Err(refusal) => Err(Untaken::Refused(refusal)),
    }
}

/// What is wanted of a file of this name with these bytes.
fn wanted_of_file(types: &FileTypes, name: &Name, bytes: Vec<u8>) -> Result<Item, Refusal>
    ensures made { IfOk result (λ wanted. (type : SuffixType)
        × (type_of_name types.now name.now ≡ Some type)
        × (wanted ≡ wanted_file type name.now bytes.items)) }
    ensures why { IfErr result (λ refusal. IsUntakable types.now name.now bytes.items
        ⊎ (refusal ≡ OutOfMemory)) }
{
    let Some(file_type) = types.of_name(name.as_bytes()) else {
        return Err(Refusal::BadName);
    };
    let body = Body::new(bytes)?;
    Ok(Item {
        name: name.clone()?,
        content: file_type.content,
        mime: file_type.mime.clone()?,
        body,
    })
}
