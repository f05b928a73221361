//! What changes a carousel.
ghost use Rattle.std.specs.Prelude.{◌≡◌};
ghost use Rattle.mot_objects.specs.declared.command.Command.TheVariants.{Put, Replace};

use crate::{Body, Carousel, Content, Mime, Name, Period};
use mot_numbers::TransportId;

/// What an operator asks of the carousel.
#[derive(Drop)]
pub enum Command {
    /// A new object, at the end of the list.
    Put {
        name: Name,
        content: Content,
        mime: Option<Mime>,
        body: Body,
    },
    /// New content for the object of this name, in its place.
    Replace {
        name: Name,
        content: Content,
        mime: Option<Mime>,
        body: Body,
    },
    /// The object of this name goes.
    Withdraw {
        name: Name,
    },
    /// The DataCarouselPeriod is set.
    Period(Period),
}

/// An object as a put or a replace brings it: with no transport id and no version.
#[derive(Drop)]
pub struct Item {
    /// Its ContentName.
    pub name: Name,
    /// Its content type and subtype.
    pub content: Content,
    /// Its MimeType, if it has one.
    pub mime: Option<Mime>,
    /// Its body.
    pub body: Body,
}

impl Item {
    /// The command that puts it.
    pub fn into_put(self) -> Command
        ensures { result ≡ Put self.name self.content self.mime self.body }
    {
        Command::Put {
            name: self.name,
            content: self.content,
            mime: self.mime,
            body: self.body,
        }
    }

    /// The command that makes it replace the object of its name.
    pub fn into_replace(self) -> Command
        ensures { result ≡ Replace self.name self.content self.mime self.body }
    {
        Command::Replace {
            name: self.name,
            content: self.content,
            mime: self.mime,
            body: self.body,
        }
    }
}

/// The transport ids that an accepted command took.
#[derive(Clone, Copy, Debug, PartialEq, Eq)]
pub struct Done {
    /// The object's id, if the command was a put or a replace.
    pub object: Option<TransportId>,
    /// The directory's id.
    pub directory: TransportId,
}

/// What an accepted command makes of a carousel.
#[derive(Drop)]
pub struct Change {
    /// The carousel after the command.
    pub next: Carousel,
    /// The ids that the command took.
    pub done: Done,
}
