//! The carousel that is kept in memory, and where its bodies lie.
ghost use Rattle.mot_repository.specs.OnDisk.{ArePaired};
ghost use Rattle.mot_carousel.specs.Gap.{AreReordered};

use mot_objects::Carousel;

/// A carousel without its bodies, and where in the data area these lie.
#[derive(Drop)]
pub(crate) struct Inventory {
    pub carousel: Carousel,
    /// For each object, where its body begins, and its length.
    pub extents: Vec<(u32, u32)>,
    /// The same, by their starts: a search for a gap then takes one pass. (Their order is for speed
    /// alone.)
    pub by_start: Vec<(u32, u32)>,
    ghost paired: { ArePaired carousel extents.items },
    ghost reordered: { AreReordered extents.items by_start.items },
}
