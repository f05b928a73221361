//! Counts of what happened.
ghost use Rattle.std.specs.Prelude.{◌≡◌};
ghost use Rattle.std.specs.List.{slice_index};
ghost use Rattle.mot_log.specs.Counters.{counted, none_counted, packets_counted};
ghost use Rattle.mot_log.specs.Counters.{refusal_counted};
ghost use Rattle.mot_numbers.specs.Refusal.{number_of};

use crate::tally::EventClass;
use mot_numbers::Refusal;

/// One more than the greatest number of a refusal.
const NUMBERS: usize = 24;

/// Counts of what happened. Each stays at the greatest number that it can have.
#[derive(Drop)]
pub struct Counters {
    /// Packets that were taken.
    pub packets: u64,
    /// Turns.
    pub turns: u64,
    /// Looks at the folder.
    pub looks: u64,
    /// Commands that were done.
    pub changes: u64,
    /// Refusals.
    pub refusals: u64,
    /// Those of them that are about lines of files.
    pub line_refusals: u64,
    /// How often more than half of the objects went, and more than three.
    pub goings: u64,
    /// Refusals by their numbers.
    pub numbered: [u64; NUMBERS],
}

impl Counters {
    /// Nothing happened.
    pub fn new() -> Counters
        ensures { result ≡ none_counted }
    {
        Counters {
            packets: 0,
            turns: 0,
            looks: 0,
            changes: 0,
            refusals: 0,
            line_refusals: 0,
            goings: 0,
            numbered: [0; NUMBERS],
        }
    }

    /// So many packets were taken by now, and a turn may have ended with the last.
    #[inline(always)]
    pub fn count_packets(&mut self, packets: u64, ends_turn: bool)
        ensures { self.new ≡ packets_counted self.old packets ends_turn }
    {
        self.packets = packets;
        if ends_turn {
            self.turns = self.turns.saturating_add(1);
        }
    }

    /// Counts what happened.
    #[inline(always)]
    pub fn count(&mut self, tally: EventClass)
        ensures { self.new ≡ counted self.old tally }
    {
        match tally {
            EventClass::Change => self.changes = self.changes.saturating_add(1),
            EventClass::Refusal(refusal) => self.count_refusal(refusal),
            EventClass::LineRefusal(refusal) => {
                self.line_refusals = self.line_refusals.saturating_add(1);
                self.count_refusal(refusal);
            }
            EventClass::Stop(refusal) => self.count_refusal(refusal),
            EventClass::Kept => self.refusals = self.refusals.saturating_add(1),
            EventClass::Going => self.goings = self.goings.saturating_add(1),
            EventClass::Doubt | EventClass::News => {}
            EventClass::Look => self.looks = self.looks.saturating_add(1),
        }
    }

    /// Counts a refusal, and that it is one of its number.
    fn count_refusal(&mut self, refusal: Refusal)
        ensures { self.new ≡ refusal_counted self.old refusal }
    {
        self.refusals = self.refusals.saturating_add(1);
        let number = usize::from(refusal.number());
        self.numbered[number] = self.numbered[number].saturating_add(1);
    }

    /// How often this refusal came.
    pub fn of(&self, refusal: Refusal) -> u64
        ensures { result ≡ slice_index self.now.numbered (number_of refusal) }
    {
        self.numbered[usize::from(refusal.number())]
    }
}
