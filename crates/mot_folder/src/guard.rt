//! Looks that change nothing, since too much would go.
ghost use Rattle.std.specs.Prelude.{◌≡◌, length};
ghost use Rattle.mot_folder.specs.Guard.{are_most, guard_of, is_kept, kept_so};
ghost use Rattle.mot_folder.specs.Inner.Notes.{unknown_objects};

use crate::listing::count_unknown;
use crate::names::FileNames;
use mot_events::LookResult;
use mot_objects::Carousel;

/// Up to how many objects may always go, if the folder has an object.
const FEW: usize = 3;

/// Which looks change nothing, so that the objects stay on air.
#[derive(Clone, Copy)]
pub enum Guard {
    /// None: all objects may go.
    Off,
    /// One at a folder that has no object.
    Empty,
    /// That one, and one that would withdraw more than half of the objects, and more than three.
    Most,
}

impl Guard {
    /// The guard that the flags of a command ask for.
    pub fn of(allow_empty: bool, keep_most: bool) -> Guard
        ensures { result ≡ guard_of allow_empty keep_most }
    {
        if allow_empty {
            Guard::Off
        } else if keep_most {
            Guard::Most
        } else {
            Guard::Empty
        }
    }
}

/// Whether the objects of the carousel stay, since too many would go.
pub(crate) fn is_kept(guard: Guard, names: &FileNames, carousel: &Carousel) -> bool
    ensures { result ≡ is_kept guard names.now.names.items
        (length (unknown_objects names.now.names.items carousel.now.objects.items))
        (length carousel.now.objects.items) }
{
    let are_all = names.names.is_empty() && !carousel.objects.is_empty();
    match guard {
        Guard::Off => false,
        Guard::Empty => are_all,
        Guard::Most => are_all || are_most(names, carousel),
    }
}

/// Whether more than half of the objects would go, and more than three.
fn are_most(names: &FileNames, carousel: &Carousel) -> bool
    ensures { result ≡ are_most
        (length (unknown_objects names.now.names.items carousel.now.objects.items))
        (length carousel.now.objects.items) }
{
    let going = count_unknown(names, carousel);
    going > carousel.objects.len() / 2 && going > FEW
}

/// What is told where the objects stay: also how many would go, if the folder has an object.
pub(crate) fn kept_so(names: &FileNames, carousel: &Carousel) -> LookResult
    ensures { result ≡ kept_so names.now.names.items
        (length (unknown_objects names.now.names.items carousel.now.objects.items))
        (length carousel.now.objects.items) }
{
    if names.names.is_empty() {
        return LookResult::Kept;
    }
    let going = count_unknown(names, carousel);
    LookResult::KeptMost(going as u64, carousel.objects.len() as u64)
}
