//! Who is told what happened.
use crate::event::Event;

/// What events are told to, such as a log. Who makes events tells them to one of these, and knows
/// no more of it than that.
pub trait Tells {
    /// This happened.
    fn tell(&mut self, event: &Event<'_>);
}
