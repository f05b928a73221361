//! The log, line by line.
ghost use Rattle.std.specs.Prelude.{◌≡◌};
ghost use Rattle.mot_log.specs.Counters.{counted, none_counted};
ghost use Rattle.mot_log.specs.EventClass.{class_of};

use crate::counters::Counters;
use crate::tally::EventClass;
use crate::text::{add, add_text};
use mot_events::{Event, Tells};
use std::alloc::{AllocError, Global};
use std::io::Write;

/// The most bytes of a line, without its level and its end. What is longer is cut.
const MAX_LINE: usize = 8_192;

/// Room for a level and an end.
const AROUND: usize = 4;

/// A log of events, each with its line in one write. What happened is counted, also if its line
/// can't be written.
#[derive(Drop)]
pub struct EventLog<W: Write + Drop> {
    /// What takes the lines.
    pub writer: W,
    /// Whether lines begin with their level.
    pub levels: bool,
    /// Room for a line.
    line: Vec<u8>,
    /// Counts of what happened.
    pub counters: Counters,
}

impl<W: Write + Drop> EventLog<W> {
    /// Nothing happened. If there is no memory for a line now, it is taken as the line comes.
    pub fn new(alloc: Global, writer: W, levels: bool) -> EventLog<W>
        ensures counters { result.counters ≡ none_counted }
    {
        let line = match Vec::with_capacity(alloc, MAX_LINE + AROUND) {
            Ok(line) => line,
            Err(AllocError) => Vec::new(alloc),
        };
        EventLog {
            writer,
            levels,
            line,
            counters: Counters::new(),
        }
    }

    /// Writes the line of an event that counts so, and flushes. A line that can't be written is left
    /// out.
    #[inline(never)]
    fn write_line(&mut self, class: EventClass, event: &Event<'_>)
        ensures counts { self.new.counters ≡ self.old.counters }
    {
        if set_line(&mut self.line, self.levels, class, event).is_ok()
            && self.writer.write_all(self.line.as_slice()).is_ok()
        {
            let _ = self.writer.flush();
        }
    }
}

impl<W: Write + Drop> Tells for EventLog<W> {
    /// Counts an event, and writes its line, if it has one.
    #[inline(always)]
    fn tell(&mut self, event: &Event<'_>)
        ensures counted { self.new.counters ≡ counted self.old.counters (class_of event.now) }
    {
        let class = EventClass::of(event);
        self.counters.count(class);
        if class != EventClass::Look {
            self.write_line(class, event);
        }
    }
}

/// Makes the line that of an event that counts so, with its end.
fn set_line(
    line: &mut Vec<u8>,
    levels: bool,
    class: EventClass,
    event: &Event<'_>,
) -> Result<(), AllocError> {
    line.clear();
    if levels {
        add(line, class.level())?;
    }
    let front = line.as_slice().len();
    add_text(line, event)?;
    line.truncate(front.saturating_add(MAX_LINE));
    line.push(b'\n')?;
    Ok(())
}
