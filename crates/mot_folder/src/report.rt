//! What is told of a look at a folder, event by event.
ghost use Rattle.std.specs.Prelude.{◌≡◌, ◌≢◌, ◌↔◌, ◌||◌, ◌++◌, ◌∷◌, [], true, false, not};
ghost use Rattle.std.specs.Prelude.{IfErr, IsOk, OnOk, nat_le};
ghost use Rattle.mot_events.specs.Events.{event_of};
ghost use Rattle.mot_events.specs.declared.event.LookResult.TheVariants as outcome;
ghost use Rattle.mot_folder.specs.Inner.Reading.{unread_for};
ghost use Rattle.mot_folder.specs.Inner.Reasons.{BeginsAnew, StaysShort, TellsNoMore};
ghost use Rattle.mot_folder.specs.Inner.Reasons.{TellsUnless, is_counted, why_not_stored};
ghost use Rattle.mot_folder.specs.Log.{TellsOne, has_to_wait, result_for};
ghost use Rattle.mot_numbers.specs.declared.refusal.Refusal.TheVariants.{NoRoom, OutOfMemory};
ghost use Rattle.mot_update.specs.Told.{was_accepted};

use disk_store::OpenFault;
use mot_events::{LookEvent, LookResult, LookStep, Skip, Why, Words};
use mot_numbers::Refusal;
use mot_playout::Attempt;
use std::alloc::{AllocError, Global};
use std::io;

/// How many names that are skipped are told in one look: further ones are not.
const MAX_SKIPPED: u32 = 100;

/// What tells why an object was not stored.
#[derive(Clone, Copy, Default)]
pub struct Sizes {
    /// How many bytes it has.
    pub length: u32,
    /// How many objects there may be.
    pub most: u16,
    /// How many were refused in the look since there were as many.
    pub waiting: u32,
}

/// What is told of a look.
#[derive(Drop)]
pub struct Report {
    alloc: Global,
    /// What happened, in order.
    pub events: Vec<LookEvent>,
    /// Whether anything was refused.
    pub any_refused: bool,
    /// Whether there was no memory for an event, which is then left out, or for a reason.
    pub any_left_out: bool,
    /// Whether an event says that memory ran out.
    pub any_without_memory: bool,
    /// Whether a file is left for the next look, which may take it.
    pub any_left: bool,
    /// Whether there was no room for an object.
    pub any_without_room: bool,
    /// How many names were skipped that are told.
    skipped: u32,
}

impl Report {
    /// Nothing happened.
    pub(crate) fn new(alloc: Global) -> Report
        ensures { BeginsAnew result }
    {
        Report {
            alloc,
            events: Vec::new(alloc),
            any_refused: false,
            any_left_out: false,
            any_without_memory: false,
            any_left: false,
            any_without_room: false,
            skipped: 0,
        }
    }

    /// A further look begins.
    pub(crate) fn begin(&mut self)
        ensures { BeginsAnew self.new }
    {
        self.events.clear();
        self.any_refused = false;
        self.any_left_out = false;
        self.any_without_memory = false;
        self.any_left = false;
        self.any_without_room = false;
        self.skipped = 0;
    }

    /// How a look ends that no fault ended: `OutOfMemory` if memory ran out for an event, or for the
    /// subject of one.
    pub fn end(&self) -> Result<(), Refusal>
        ensures ends { IsOk result
            ↔ ((self.now.any_left_out ≡ false) × (self.now.any_without_memory ≡ false)) }
        ensures fault { IfErr result (λ refusal. refusal ≡ OutOfMemory) }
    {
        if self.any_left_out || self.any_without_memory {
            return Err(Refusal::OutOfMemory);
        }
        Ok(())
    }

    /// What became of a command on the object of this name, and why it was refused, if it was.
    pub(crate) fn answered(&mut self, step: LookStep, name: &[u8], attempt: Attempt, why: Why)
        ensures any { self.new.any_refused
            ≡ (self.old.any_refused || not (was_accepted attempt)) }
        ensures stays { StaysShort self.old self.new }
        ensures told { TellsOne self.old self.new (event_of name.now (result_for step attempt why)) }
    {
        match attempt {
            Attempt::Accepted(done) => self.note(name, LookResult::Done(step, done)),
            Attempt::Refused(refusal) => self.refused(step, name, refusal, why),
        }
    }

    /// What became of a command that was to store an object of these sizes. Of the objects that have
    /// to wait for others to go only the first is told.
    pub(crate) fn stored(&mut self, step: LookStep, name: &[u8], attempt: Attempt, sizes: Sizes)
        ensures any { self.new.any_refused
            ≡ (self.old.any_refused || not (was_accepted attempt)) }
        ensures stays { StaysShort self.old self.new }
        ensures told { TellsUnless (is_counted sizes.waiting attempt) self.old self.new
            (event_of name.now (result_for step attempt (why_not_stored sizes attempt))) }
    {
        if has_to_wait(&attempt) && sizes.waiting > 0 {
            self.any_refused = true;
            return;
        }
        let why = why_not_stored(sizes, &attempt);
        self.answered(step, name, attempt, why);
    }

    /// It was refused, for this reason.
    pub(crate) fn refused(&mut self, step: LookStep, name: &[u8], refusal: Refusal, why: Why)
        ensures any { self.new.any_refused ≡ true }
        ensures memory { refusal ≡ OutOfMemory → self.new.any_without_memory ≡ true }
        ensures stays { StaysShort self.old self.new }
        ensures left { self.new.any_left ≡ self.old.any_left }

        // That there was no room is noted of this refusal alone.
        ensures room { (refusal ≡ NoRoom → self.new.any_without_room ≡ true)
            × (refusal ≢ NoRoom → self.new.any_without_room ≡ self.old.any_without_room) }
        ensures told { TellsOne self.old self.new (event_of name.now (outcome.Refused step refusal why)) }
    {
        if refusal == Refusal::OutOfMemory {
            self.any_without_memory = true;
        }
        if refusal == Refusal::NoRoom {
            self.any_without_room = true;
        }
        self.tell_refusal(name, LookResult::Refused(step, refusal, why));
    }

    /// The file of this name was not taken, for this reason.
    pub fn missed(&mut self, name: &[u8], refusal: Refusal, why: Why)
        ensures any { self.new.any_refused ≡ true }
        ensures memory { refusal ≡ OutOfMemory → self.new.any_without_memory ≡ true }
        ensures stays { self.old.any_without_memory ≡ true
            → self.new.any_without_memory ≡ true }
        ensures left { self.new.any_left ≡ self.old.any_left }
        ensures told { TellsOne self.old self.new (unread_for name.now refusal why) }
    {
        self.refused(LookStep::Read, name, refusal, why);
    }

    /// The file of this name was not taken, for this reason. The next look may take it.
    pub(crate) fn left(&mut self, name: &[u8], outcome: LookResult)
        ensures any { self.new.any_refused ≡ true }
        ensures left { self.new.any_left ≡ true }
        ensures stays { StaysShort self.old self.new }
        ensures told { TellsOne self.old self.new (event_of name.now outcome) }
    {
        self.any_left = true;
        self.tell_refusal(name, outcome);
    }

    /// A further event, of this name, which counts as a refusal.
    pub(crate) fn tell_refusal(&mut self, name: &[u8], outcome: LookResult)
        ensures any { self.new.any_refused ≡ true }
        ensures memory { self.new.any_without_memory ≡ self.old.any_without_memory }
        ensures left { (self.new.any_left ≡ self.old.any_left)
            × (self.new.any_without_room ≡ self.old.any_without_room) }
        ensures told { TellsOne self.old self.new (event_of name.now outcome) }
    {
        self.any_refused = true;
        self.note(name, outcome);
    }

    /// Whether as many names were skipped as are told.
    pub fn is_full(&self) -> bool
        ensures { result ≡ nat_le MAX_SKIPPED self.now.skipped }
    {
        self.skipped >= MAX_SKIPPED
    }

    /// This name is left out, for this reason.
    pub fn skipped(&mut self, name: &[u8], skip: Skip)
        ensures same { self.new.any_refused ≡ self.old.any_refused }
        ensures told { TellsOne self.old self.new (event_of name.now (outcome.Skipped skip)) }
    {
        self.skipped = self.skipped.saturating_add(1);
        self.note(name, LookResult::Skipped(skip));
    }

    /// Why the system refused a call, in its words. If there is no memory for them, something is
    /// left out.
    pub(crate) fn words_of(&mut self, error: io::Error) -> Why
        ensures same { (self.new.any_refused ≡ self.old.any_refused)
            × (self.new.any_without_memory ≡ self.old.any_without_memory)
            × (self.new.any_left ≡ self.old.any_left) }
        ensures told { TellsNoMore self.old self.new }
    {
        let fault = OpenFault::System(error);
        let Ok(words) = format!(in self.alloc; "{fault}") else {
            self.any_left_out = true;
            return Why::Unsaid;
        };
        Why::Words(Words::new(words.into_bytes()))
    }

    /// A further event, of this name.
    pub(crate) fn note(&mut self, name: &[u8], outcome: LookResult)
        ensures same { self.new.any_refused ≡ self.old.any_refused }
        ensures memory { self.new.any_without_memory ≡ self.old.any_without_memory }
        ensures left { (self.new.any_left ≡ self.old.any_left)
            × (self.new.any_without_room ≡ self.old.any_without_room) }
        ensures told { TellsOne self.old self.new (event_of name.now outcome) }
    {
        let Ok(()) = add_event(&mut self.events, self.alloc, name, outcome) else {
            self.any_left_out = true;
            return;
        };
    }
}

/// Whether an object has to wait, since there are as many as there may be.
pub(crate) fn has_to_wait(attempt: &Attempt) -> bool
    ensures { result ≡ has_to_wait attempt.now }
{
    matches!(attempt, Attempt::Refused(Refusal::TooManyObjects))
}

/// Why an object of these sizes was not stored. For want of room, the reason is how many bytes it
/// has; and where there are as many objects as there may be, how many those are.
fn why_not_stored(sizes: Sizes, attempt: &Attempt) -> Why
    ensures { result ≡ why_not_stored sizes attempt.now }
{
    match attempt {
        Attempt::Refused(Refusal::NoRoom) => Why::Bytes(u64::from(sizes.length)),
        Attempt::Refused(Refusal::TooManyObjects) => Why::Objects(u64::from(sizes.most)),
        _ => Why::Unsaid,
    }
}

/// Adds an event.
fn add_event(
    events: &mut Vec<LookEvent>,
    alloc: Global,
    name: &[u8],
    outcome: LookResult,
) -> Result<(), AllocError>
    ensures { OnOk result (events.new.items ≡ events.old.items ++ event_of name.now outcome ∷ []) }
{
    let name = Words::new(Vec::from_slice(alloc, name)?);
    events.push(LookEvent { name, outcome })?;
    Ok(())
}
