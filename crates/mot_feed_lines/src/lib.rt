//! Commands from lines, done between the packets of a feed, and what is told of all updates.
#![tactic(auto)]

mod answering;
mod asked;
mod intake;
mod lines;
mod reason;
mod reported;
mod telling;

pub use answering::answer_there;
pub use intake::Intake;
pub use lines::Lines;
pub use reported::WatchedUpdate;
