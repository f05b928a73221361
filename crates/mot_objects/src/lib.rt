//! Objects, the carousel that they make, and the commands that change it.
#![tactic(auto)]

mod body;
mod carousel;
mod command;
mod content;
mod mime;
mod name;
mod object;
mod period;
mod text;

pub use body::{Body, BodyLength, MAX_BODY};
pub use carousel::Carousel;
pub use command::{Change, Command, Done, Item};
pub use content::{Content, MAX_SUBTYPE, MAX_TYPE};
pub use mime::{MAX_MIME, Mime};
pub use name::{MAX_NAME, Name};
pub use object::Object;
pub use period::{MAX_PERIOD, Period};
