//! What is told of a look at a folder: what the look before had not.
ghost use Rattle.std.specs.Prelude.{◌≡◌, ◌∷◌, [], MatchOption, false, fold, true};
ghost use Rattle.std.specs.List.{list_any};
ghost use Rattle.mot_log.specs.Look.{counted_look, counted_result, new_events};

use crate::log::EventLog;
use mot_events::{Event, LookEvent, Tells};
use std::io::Write;

impl<W: Write + Drop> EventLog<W> {
    /// Counts a look, and tells those of its events that the look before had not.
    pub fn tell_look(&mut self, events: &[LookEvent], before: &[LookEvent])
        ensures counts { let same = ⟦<LookEvent as PartialEq>⟧.eq in
            self.new.counters
            ≡ counted_look self.old.counters (new_events same before.now events.now) }
    {
        self.tell(&Event::Looked);
        self.tell_new(events, before);
    }

    /// Tells those of the events that are not among those before. Most of these stand there in the
    /// same order, so each is looked for first after the one that was found last.
    fn tell_new(&mut self, events: &[LookEvent], before: &[LookEvent])
        ensures counts { let same = ⟦<LookEvent as PartialEq>⟧.eq in
            self.new.counters
            ≡ fold counted_result self.old.counters (new_events same before.now events.now) }
    {
        let mut place = 0;
        for event in events {
            place = self.tell_unless(event, before, place);
        }
    }

    /// Tells an event, unless one of those before is the same, which is looked for first at this
    /// place; where the next one is looked for first.
    fn tell_unless(&mut self, event: &LookEvent, before: &[LookEvent], place: usize) -> usize
        ensures counts { let same = ⟦<LookEvent as PartialEq>⟧.eq in
            self.new.counters
            ≡ fold counted_result self.old.counters (new_events same before.now (event.now ∷ [])) }
    {
        match place_after(event, before, place) {
            Some(next) => next,
            None => {
                self.tell(&Event::Look(event));
                place
            }
        }
    }
}

/// The place after one of those before that is the same, if there is one. It is looked for first
/// at this place.
fn place_after(event: &LookEvent, before: &[LookEvent], place: usize) -> Option<usize>
    ensures { let is_known = list_any (⟦<LookEvent as PartialEq>⟧.eq event.now) before.now in
        MatchOption result (is_known ≡ false) (λ _. is_known ≡ true) }
{
    if let Some(next) = before.get(place)
        && event.is_same(next)
    {
        return Some(place.saturating_add(1));
    }
    for (at, other) in before.iter().enumerate() {
        if event.is_same(other) {
            return Some(at.saturating_add(1));
        }
    }
    None
}
