//! What an event counts as, and the level of its line. Both are functions of what happened: no name
//! and no text has a part in them.
ghost use Rattle.std.specs.Prelude.{◌≡◌};
ghost use Rattle.mot_log.specs.EventClass.{class_of, class_of_going, class_of_reply, class_of_result};

use mot_events::{Event, LookResult, Reply};
use mot_numbers::Refusal;

/// Up to how many objects may go at once, without a warning.
const FEW: u64 = 3;

/// What an event counts as.
#[derive(Clone, Copy, PartialEq, Eq)]
pub enum EventClass {
    /// A command was done.
    Change,
    /// Something was refused.
    Refusal(Refusal),
    /// A line of a file was refused, or a file or the folder of them.
    LineRefusal(Refusal),
    /// The program ends with a refusal.
    Stop(Refusal),
    /// A look kept the objects, since the folder has none, or too few: a refusal with no number.
    Kept,
    /// More than half of the objects go, and more than three.
    Going,
    /// Something is on air that a receiver may not show, or a look took long: nothing is counted.
    Doubt,
    /// Nothing is counted.
    News,
    /// A look.
    Look,
}

impl EventClass {
    /// What its line begins with for systemd: the level of an end of the program, of what needs a
    /// person, or of news.
    pub fn level(self) -> &'static str {
        match self {
            EventClass::Stop(_) => "<3>",
            EventClass::Refusal(_)
            | EventClass::LineRefusal(_)
            | EventClass::Kept
            | EventClass::Going
            | EventClass::Doubt => "<4>",
            EventClass::Change | EventClass::News | EventClass::Look => "<6>",
        }
    }

    /// What an event counts as.
    #[inline(always)]
    pub fn of(event: &Event<'_>) -> EventClass
        ensures { result ≡ class_of event.now }
    {
        match event {
            Event::Look(look) => EventClass::of_result(&look.outcome),
            Event::Looked => EventClass::Look,
            Event::LookTook(_, _) => EventClass::Doubt,
            Event::LinesRefused(_, refusal, _) => EventClass::LineRefusal(*refusal),
            Event::Answered(_, _, _, _, reply) => EventClass::of_reply(reply),
            Event::StatusRefused(_, _) => EventClass::Refusal(Refusal::WriteFault),
            Event::Stopped(refusal) => EventClass::Stop(*refusal),
            _ => EventClass::News,
        }
    }

    /// What it counts as that a look met this.
    fn of_result(outcome: &LookResult) -> EventClass
        ensures { result ≡ class_of_result outcome.now }
    {
        match outcome {
            LookResult::Done(_, _) => EventClass::Change,
            LookResult::Refused(_, refusal, _) => EventClass::Refusal(*refusal),
            LookResult::Going(going, _) => class_of_going(*going),
            LookResult::Kept | LookResult::KeptMost(_, _) => EventClass::Kept,
            LookResult::OtherImage(_) => EventClass::Doubt,
            _ => EventClass::News,
        }
    }

    /// What this line of a reply counts as.
    fn of_reply(reply: &Reply<'_>) -> EventClass
        ensures { result ≡ class_of_reply reply.now }
    {
        match reply {
            Reply::Done(_) => EventClass::Change,
            Reply::Refused(refusal, _) => EventClass::LineRefusal(*refusal),
            Reply::Shown(_) => EventClass::News,
        }
    }
}

/// What it counts as that more than half of the objects go, which are so many.
fn class_of_going(going: u64) -> EventClass
    ensures { result ≡ class_of_going going }
{
    if going > FEW {
        return EventClass::Going;
    }
    EventClass::News
}
