//! Where bodies lie, by their starts, so that the first gap is found in one pass. Nothing rests on
//! this order but speed.
ghost use Rattle.std.specs.Prelude.{◌≡◌, ◌+◌, ◌<◌, ℕ, count_by, position, sum_by, IfOk};
ghost use Rattle.mot_carousel.specs.Gap.{AreReordered};
ghost use Rattle.mot_repository.specs.Inner.Extents.{is_extent};

use std::alloc::{AllocError, Global};

/// A copy of the extents, sorted by their starts.
pub(crate) fn sorted_by_start(
    alloc: Global,
    extents: &[(u32, u32)],
) -> Result<Vec<(u32, u32)>, AllocError>
    ensures { IfOk result (λ sorted. AreReordered extents.now sorted.items) }
{
    let mut sorted = Vec::from_slice(alloc, extents)?;
    sorted.sort_unstable_by_key(|extent| extent.0);
    Ok(sorted)
}

/// Puts an extent in front of the first that begins after it.
pub(crate) fn insert_by_start(
    extents: &mut Vec<(u32, u32)>,
    extent: (u32, u32),
) -> Result<(), AllocError>
    ensures { (f : ℕ × ℕ → ℕ) → IfOk result (λ _.
        sum_by f extents.new.items ≡ sum_by f extents.old.items + f extent) }
{
    let place = extents.partition_point(|other| other.0 < extent.0);
    extents.insert(place, extent)?;
    Ok(())
}

/// Takes an extent out, which is there.
pub(crate) fn take_out(extents: &mut Vec<(u32, u32)>, extent: (u32, u32))
    requires { 0 < count_by (is_extent extent) extents.old.items }
    ensures { (f : ℕ × ℕ → ℕ) →
        sum_by f extents.new.items + f extent ≡ sum_by f extents.old.items }
{
    if let Some(place) = place_of_extent(extents, extent) {
        extents.remove(place);
    }
}

/// Where this extent stands.
fn place_of_extent(extents: &[(u32, u32)], extent: (u32, u32)) -> Option<usize>
    ensures { result ≡ position (is_extent extent) extents.now }
{
    extents
        .iter()
        .position(|other| other.0 == extent.0 && other.1 == extent.1)
}
