//! A look at a folder, and looks between the packets of a feed.
ghost use Rattle.std.specs.Prelude.{◌≡◌, ◌&&◌, ◌||◌, ◌+◌, ◌/◌, ◌≤◌, [], OnOk, true, ◌≢◌, ◌⊎◌};
ghost use Rattle.std.specs.Prelude.{IfErr, None, Some, ◌<◌, false, ℕ, List, if◌then◌else◌, length};
ghost use Rattle.std.specs.Prelude.{min};
ghost use Rattle.disk_model.specs.Disk.{KeepsLength};
ghost use Rattle.mot_update.specs.HasRun.{IsUpdating, may_look};
ghost use Rattle.mot_events.specs.Events.{is_listed, event_of};
ghost use Rattle.mot_events.specs.declared.event.Why.{Why};
ghost use Rattle.mot_folder.specs.Log.{TellsOf, TellsOne, is_note, unlisted_for};
ghost use Rattle.mot_folder.specs.Inner.Notes.{unknown_objects};
ghost use Rattle.mot_folder.specs.Inner.Listing.{IsListed, TellsNameless, stage_of};
ghost use Rattle.mot_folder.specs.Guard.{is_kept, kept_so};
ghost use Rattle.mot_folder.specs.Looked.{HasLookedAtFolder, TellsWatch, is_look_due, packets_left};
ghost use Rattle.mot_folder.specs.Looked.{packets_left_behind, so_far, watch};
ghost use Rattle.mot_journal.specs.Image.{Standing};
ghost use Rattle.mot_repository.specs.Repository.{Holds};
ghost use Rattle.mot_update.specs.Faults.{TellsFaults};
ghost use Rattle.mot_shelf.specs.Given.{Given, nothing};
ghost use Rattle.mot_shelf.specs.Gives.{GaveSo, Gives};
ghost use Rattle.mot_shelf.specs.Reader.{reader_path, view};
ghost use Rattle.mot_shelf.specs.View.{FolderView, afresh};
ghost use Rattle.mot_suffixes.specs.Types.{SuffixType};
ghost use Rattle.mot_update.specs.Told.{Answer};
ghost use Rattle.mot_objects.specs.declared.command.Item.{Item};
ghost use Rattle.mot_numbers.specs.declared.refusal.Refusal.TheVariants.{OutOfMemory};
ghost use Rattle.mot_playout.specs.Attempts.{fault_of};

use crate::folder::Folder;
use crate::guard::{is_kept, kept_so};
use crate::listing::{Unlisted, list, why_unlisted};
use crate::report::Report;
use disk_model::Disk;
use mot_events::{LookEvent, LookResult, LookStep, is_listed};
use mot_files::System;
use mot_numbers::Refusal;
use mot_objects::Carousel;
use mot_playout::Server;
use mot_suffixes::FileTypes;
use mot_update::{LookHistory, Update, UpdatePoint, look};
use std::alloc::Global;
use std::mem::swap;

/// How many packets come between two looks, and then those up to where one may come, if no other
/// number is set.
const PACKETS: u64 = 1_000;

/// How many packets come before a look that may take what the one before it left.
const SOON: u64 = 100;

/// Makes the carousel equal to the files of the folder that have one of the suffixes. A folder that
/// can't be listed, has too many of them, or for which more objects would go than its guard lets, is
/// told, and changes nothing. The errors are those of `look`, and `OutOfMemory` if memory ran out for
/// an event, or for the subject of one.
pub fn look_at_folder<S: System + Drop, D: Disk>(
    alloc: Global,
    server: &mut Server<D>,
    folder: &mut Folder<'_, S>,
) -> Result<(), Refusal>
    ensures keeps { KeepsLength (D.state server.old.disk) (D.state server.new.disk) }
    ensures faults { TellsFaults server.old server.new
        (D.state server.old.disk) (D.state server.new.disk) result }
    ensures looked { (s : Standing) → Holds server.old.view s (D.state server.old.disk)
        → (D.state server.new.disk).IsHonest
        → GaveSo (view S.calls folder.old.shelf) (view S.calls folder.new.shelf) (λ given.
        HasLookedAtFolder server.old server.new (D.state server.old.disk)
        (D.state server.new.disk) s folder.old.types.now folder.old.guard
        (reader_path folder.old.shelf) given folder.new.report (fault_of result)
        folder.old.files.known.items folder.new.files.known.items) }

    // If it came to its end, nothing is left out of what is told.
    ensures whole { OnOk result (folder.new.report.any_left_out ≡ false) }
{
    let is_any_known = !folder.files.known.is_empty();
    folder.shelf.begin(alloc, is_any_known);
    folder.report.begin();
    let going = match list(
        &mut folder.shelf,
        alloc,
        folder.types,
        &mut folder.report,
        server.carousel(),
    ) {
        Ok((names, going)) => {
            folder.names = names;
            going
        }
        Err(why) => return end_unlisted(folder, why),
    };
    if is_kept(folder.guard, &folder.names, server.carousel()) {
        return end_kept(folder, server.carousel());
    }
    look_at_names(alloc, server, folder, going)
}

/// Ends a look at a folder that is not listed.
fn end_unlisted<S: System + Drop>(folder: &mut Folder<'_, S>, why: Unlisted) -> Result<(), Refusal>
    ensures same { folder.new ≡ record folder.old { report = folder.new.report } }
    ensures any { folder.new.report.any_refused ≡ true }
    ensures told { (reason : Why) × TellsOne folder.old.report folder.new.report
        (unlisted_for (reader_path folder.old.shelf) why.refusal reason) }
    ensures fault { ((fault_of result ≡ None) × (why.refusal ≢ OutOfMemory))
        ⊎ (fault_of result ≡ Some OutOfMemory) }
    ensures whole { OnOk result (folder.new.report.any_left_out ≡ false) }
{
    let reason = why_unlisted(&mut folder.report, why);
    let path = folder.shelf.shown().as_bytes();
    folder
        .report
        .refused(LookStep::Look, path, why.refusal, reason);
    folder.report.end()
}

/// Ends a look that takes no object off the air, since too many would go.
fn end_kept<S: System + Drop>(
    folder: &mut Folder<'_, S>,
    carousel: &Carousel,
) -> Result<(), Refusal>
    ensures same { folder.new ≡ record folder.old { report = folder.new.report } }
    ensures any { folder.new.report.any_refused ≡ true }
    ensures told { TellsOne folder.old.report folder.new.report
        (event_of (reader_path folder.old.shelf) (kept_so folder.old.names.names.items
        (length (unknown_objects folder.old.names.names.items carousel.now.objects.items))
        (length carousel.now.objects.items))) }
    ensures fault { (fault_of result ≡ None) ⊎ (fault_of result ≡ Some OutOfMemory) }
    ensures whole { OnOk result (folder.new.report.any_left_out ≡ false) }
{
    let kept = kept_so(&folder.names, carousel);
    let path = folder.shelf.shown().as_bytes();
    folder.report.tell_refusal(path, kept);
    folder.report.end()
}

/// Makes the carousel equal to the files of these names, of a folder that was listed. So many
/// objects go.
fn look_at_names<S: System + Drop, D: Disk>(
    alloc: Global,
    server: &mut Server<D>,
    folder: &mut Folder<'_, S>,
    going: usize,
) -> Result<(), Refusal>
    requires updates { is_kept folder.old.guard folder.old.names.names.items
        (length (unknown_objects folder.old.names.names.items
        server.old.view.carousel.objects.items))
        (length server.old.view.carousel.objects.items) ≡ false }
    ensures keeps { KeepsLength (D.state server.old.disk) (D.state server.new.disk) }
    ensures faults { TellsFaults server.old server.new
        (D.state server.old.disk) (D.state server.new.disk) result }
    ensures looked { (since : FolderView) (first : Given)
        → Gives (afresh since) nothing (view S.calls folder.old.shelf) first
        → IsListed folder.old.types.now (stage_of (reader_path folder.old.shelf) first
        folder.old.report folder.old.names)
        → (s : Standing) → Holds server.old.view s (D.state server.old.disk)
        → (D.state server.new.disk).IsHonest
        → GaveSo since (view S.calls folder.new.shelf) (λ given.
        HasLookedAtFolder server.old server.new (D.state server.old.disk)
        (D.state server.new.disk) s folder.old.types.now folder.old.guard
        (reader_path folder.old.shelf) given folder.new.report (fault_of result)
        folder.old.files.known.items folder.new.files.known.items) }
    ensures whole { OnOk result (folder.new.report.any_left_out ≡ false) }
{
    let path = folder.shelf.shown();
    let is_new = !folder.was_listed;
    note_if(&mut folder.report, path, is_new, LookResult::Listed);
    let all = server.carousel().objects.len();
    let note = LookResult::Going(going as u64, all as u64);
    note_if(&mut folder.report, path, going > all / 2, note);
    folder.place = 0;
    folder.any_passed = false;
    folder.is_kept = false;
    folder.sizes.most = server.geometry().objects;
    folder.sizes.waiting = 0;
    folder.files.start(alloc, server.carousel());
    look(server, alloc, folder)?;
    folder.files.finish(alloc, server.carousel());
    end_listed(folder, server.longest_gap())
}

/// Ends a look that went over all names.
fn end_listed<S: System + Drop>(folder: &mut Folder<'_, S>, gap: u32) -> Result<(), Refusal>
    ensures same { folder.new ≡ record folder.old { report = folder.new.report } }
    ensures told { (types : List SuffixType) (given : Given) (waiting : ℕ) (names : List (List ℕ))
        (answers : List Answer) (wanted : List Item)
        → TellsOf types given folder.old.report waiting names answers wanted
        → TellsOf types given folder.new.report waiting names answers wanted }
    ensures whole { OnOk result ((folder.new.report.any_left_out ≡ false)
        × (folder.new.report.any_without_memory ≡ false)) }
    ensures fault { IfErr result (λ refusal. refusal ≡ OutOfMemory) }
{
    let path = folder.shelf.shown();
    let files = u64::from(folder.sizes.waiting);
    let note = LookResult::Waiting(u64::from(folder.sizes.most), files);
    note_if(&mut folder.report, path, files > 1, note);
    let had_no_room = folder.report.any_without_room;
    note_if(&mut folder.report, path, had_no_room, LookResult::Gap(gap));
    folder.report.end()
}

/// Notes this of the folder of this path, if it is so.
fn note_if(report: &mut Report, path: &str, is_so: bool, note: LookResult)
    ensures further { is_note note ≡ true → (files : List (List ℕ))
        → TellsNameless files report.old → TellsNameless files report.new }
    ensures told { is_note note ≡ true
        → (types : List SuffixType) (given : Given) (waiting : ℕ) (names : List (List ℕ))
        (answers : List Answer) (wanted : List Item)
        → TellsOf types given report.old waiting names answers wanted
        → TellsOf types given report.new waiting names answers wanted }
    ensures none { is_so ≡ false → report.new ≡ report.old }
    ensures notes { is_so ≡ true → TellsOne report.old report.new (event_of path.now note) }
{
    if is_so {
        report.note(path.as_bytes(), note);
    }
}

/// Looks at a folder before the first packet, and then where one may come, after 1,000 packets, or
/// after as many as `every` is set to; or after 100, if a file is left that may be taken then.
#[derive(Drop)]
pub struct Looks<'a, S: System + Drop> {
    /// The folder, with what is told of the last look.
    pub folder: Folder<'a, S>,
    /// What was told of the look before it.
    pub before: Vec<LookEvent>,
    /// How many packets come between two looks, and then those up to where one may come.
    pub every: u64,
    /// Whether looks come within turns: then only the packets count in front of which one may come.
    pub within: bool,
    /// How many packets come before the next look.
    pub left: u64,
    /// How many looks there were.
    pub count: u64,
    /// Whether a file was refused in any of them, or the folder not listed.
    pub any_refused: bool,
}

impl<'a, S: System + Drop> Looks<'a, S> {
    /// No look yet.
    pub fn new(alloc: Global, folder: Folder<'a, S>) -> Looks<'a, S>
        ensures due { result.left ≡ 0 }
        ensures every { result.every ≡ PACKETS }
        ensures within { result.within ≡ false }
        ensures folder { result.folder ≡ folder.entry }
        ensures before { result.before.items ≡ [] }
        ensures uncounted { result.count ≡ 0 }
        ensures fine { result.any_refused ≡ false }
    {
        Looks {
            folder,
            before: Vec::new(alloc),
            every: PACKETS,
            within: false,
            left: 0,
            count: 0,
            any_refused: false,
        }
    }
}

impl<'a, S: System + Drop> Update for Looks<'a, S> {
    ghost tells = { λ old new moment. TellsWatch
        (watch (reader_path old.folder.shelf) old.folder.types.now old.folder.guard old.every
        old.within)
        (watch (reader_path new.folder.shelf) new.folder.types.now new.folder.guard new.every
        new.within)
        moment (so_far old.left (view S.calls old.folder.shelf) old.any_refused
        old.folder.files.known.items)
        (so_far new.left (view S.calls new.folder.shelf) new.any_refused
        new.folder.files.known.items) };

    fn update<D: Disk>(
        &mut self,
        server: &mut Server<D>,
        alloc: Global,
        moment: UpdatePoint,
        _sent: u64,
    ) -> Result<(), Refusal>
        ensures keeps { KeepsLength (D.state server.old.disk) (D.state server.new.disk) }
        ensures faults { TellsFaults server.old server.new
            (D.state server.old.disk) (D.state server.new.disk) result }
        ensures run { (s : Standing) → Holds server.old.view s (D.state server.old.disk)
            → (D.state server.new.disk).IsHonest
            → IsUpdating (TellsWatch
            (watch (reader_path self.old.folder.shelf) self.old.folder.types.now
            self.old.folder.guard self.old.every self.old.within)
            (watch (reader_path self.new.folder.shelf) self.new.folder.types.now
            self.new.folder.guard self.new.every self.new.within)
            moment (so_far self.old.left (view S.calls self.old.folder.shelf) self.old.any_refused
            self.old.folder.files.known.items)
            (so_far self.new.left (view S.calls self.new.folder.shelf) self.new.any_refused
            self.new.folder.files.known.items))
            server.old server.new (D.state server.old.disk) (D.state server.new.disk) s
            (fault_of result) }

        // It looks if a look is due, and else it only counts.
        ensures counts { is_look_due self.old.left (may_look moment) ≡ false
            → (server.new ≡ server.old)
            × (self.new.left ≡ packets_left_behind self.old.within (may_look moment) self.old.left) }
        ensures looks { is_look_due self.old.left (may_look moment) ≡ true
            → self.new.left ≡ packets_left self.new.folder.report.any_left self.old.every }

        // It knows whether the look before went by the folder's list.
        ensures listed { is_look_due self.old.left (may_look moment) ≡ true
            → self.new.folder.was_listed ≡ is_listed self.old.folder.report.events.items }

        // What the last look told is what the one before told, once there is a further one.
        ensures before { self.new.before.items
            ≡ (if is_look_due self.old.left (may_look moment)
            then self.old.folder.report.events.items else self.old.before.items) }

        // It counts its looks, and keeps whether something was refused in any of them.
        ensures counted { self.new.count ≡ (if is_look_due self.old.left (may_look moment)
            then min (self.old.count + 1) 18446744073709551615 else self.old.count) }
        ensures kept { self.new.any_refused ≡ (self.old.any_refused
            || is_look_due self.old.left (may_look moment) && self.new.folder.report.any_refused) }
        ensures looked { is_look_due self.old.left (may_look moment) ≡ true
            → (s : Standing) → Holds server.old.view s (D.state server.old.disk)
            → (D.state server.new.disk).IsHonest
            → GaveSo (view S.calls self.old.folder.shelf) (view S.calls self.new.folder.shelf)
            (λ given. HasLookedAtFolder server.old server.new (D.state server.old.disk)
            (D.state server.new.disk) s self.old.folder.types.now self.old.folder.guard
            (reader_path self.old.folder.shelf) given self.new.folder.report
            (fault_of result) self.old.folder.files.known.items
            self.new.folder.files.known.items) }
    {
        if !look_is_due(&mut self.left, self.within, moment.may_look()) {
            return Ok(());
        }
        swap(&mut self.before, &mut self.folder.report.events);
        let was_listed = is_listed(self.before.as_slice());
        self.folder.was_listed = was_listed;
        let (types, guard) = (self.folder.types, self.folder.guard);
        let result = look_at_folder(alloc, server, &mut self.folder);
        // A look leaves them as they are. (The lines are there for the proof.)
        self.folder.types = types;
        self.folder.guard = guard;
        self.folder.was_listed = was_listed;
        self.count = self.count.saturating_add(1);
        self.any_refused |= self.folder.report.any_refused;
        self.left = packets_left(self.folder.report.any_left, self.every);
        result
    }
}

/// How many packets come before the next look, after one that left a file for it, or none.
fn packets_left(any_left: bool, every: u64) -> u64
    ensures { result ≡ packets_left any_left every }
{
    if any_left && SOON <= every {
        SOON
    } else {
        every
    }
}

/// Counts a packet of those that come before the next look; whether that is due.
fn look_is_due(left: &mut u64, within: bool, may_look: bool) -> bool
    ensures due { result ≡ is_look_due left.old may_look }
    ensures counts { left.new ≡ packets_left_behind within may_look left.old }
{
    if may_look || !within {
        *left = left.saturating_sub(1);
    }
    may_look && *left == 0
}

impl<'a, S: System + Drop> LookHistory for Looks<'a, S> {
    fn looks(&self) -> u64
        ensures { result ≡ self.now.count }
    {
        self.count
    }

    fn events(&self) -> &[LookEvent]
        ensures { result.now ≡ self.now.folder.report.events.items }
    {
        self.folder.report.events.as_slice()
    }

    fn events_before(&self) -> &[LookEvent]
        ensures { result.now ≡ self.now.before.items }
    {
        self.before.as_slice()
    }

    fn folder(&self) -> &str {
        self.folder.shelf.shown()
    }

    #[inline(always)]
    fn is_due(&self, moment: UpdatePoint) -> bool
        ensures { result ≡ is_look_due self.now.left (may_look moment) }
    {
        self.left <= 1 && moment.may_look()
    }
}
