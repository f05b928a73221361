//! Why a disk is not opened, or not formatted, in words.
use crate::range::range_of;
use mot_journal::{HeadFault, Reason};
use std::fmt::{self, Display, Formatter};

/// A reason, which prints in words: of a number that is out of its range, with that range.
#[derive(Clone, Copy)]
pub(crate) struct InWords(pub(crate) Reason);

impl Display for InWords {
    fn fmt<W: fmt::Write>(&self, f: &mut Formatter<W>) -> fmt::Result {
        self.0.fmt(f)?;
        match self.0 {
            Reason::Head(HeadFault::OutOfRange { size, .. }) => {
                let range = range_of(size.option());
                write!(f, ": {range}")
            }
            _ => Ok(()),
        }
    }
}
