//! The carousel, as it is kept in memory.
ghost use Rattle.mot_numbers.specs.declared.geometry.TheConstants.{MAX_OBJECTS};
ghost use Rattle.std.specs.Prelude.{◌≡◌, ◌<◌, ◌≤◌, [], vec_len, IfSome};

use crate::{Name, Object, Period};
use mot_numbers::TransportId;
use std::alloc::Global;

/// A carousel of at most 250 objects, whose bodies stand beside it in the order of the objects.
#[derive(Drop)]
pub struct Carousel {
    /// The directory's DataCarouselPeriod.
    pub period: Period,
    /// The directory's transport id.
    pub directory: TransportId,
    /// The transport id that was taken last.
    pub cursor: TransportId,
    /// The objects, in the order of the directory.
    pub objects: Vec<Object>,
    pub ghost few: { vec_len objects ≤ MAX_OBJECTS },
}

impl Carousel {
    ghost use Rattle.mot_objects.specs.Carousel.{new_carousel};
    ghost use Rattle.mot_objects.specs.Laws.{CommandsMakeSoundCarousels};
    ghost use Rattle.mot_objects.specs.Stands.{AreBodiesOf, carousel_of, index_of};

    /// The new carousel: period 0, directory 1, cursor 1 and no objects.
    pub fn new(alloc: Global) -> Self
        ensures new { carousel_of result [] ≡ new_carousel }
        ensures bodies { AreBodiesOf result [] }
        ensures sound { CommandsMakeSoundCarousels }
    {
        let first = TransportId::FIRST;
        Carousel {
            period: Period::ZERO,
            directory: first,
            cursor: first,
            objects: Vec::new(alloc),
        }
    }

    /// The place of the object of this name in the list; `None` if there is no such object.
    pub fn place_of(&self, name: &Name) -> Option<usize>
        ensures place { result ≡ index_of name.now self.now.objects.items }
        ensures within { IfSome result (λ place. place < vec_len self.now.objects) }
    {
        self.objects.iter().position(|object| object.name == *name)
    }
}
