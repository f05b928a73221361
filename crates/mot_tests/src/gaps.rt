//! What no clause says of the search for a gap: that it takes no step for each byte.
use crate::expecting::expect;
use mot_repository::first_fit;

// From the last extent to the first, so that each is looked for among all: byte by byte it would
// take minutes.
#[test]
fn the_gap_behind_many_extents_is_found_at_once(rt: HostRuntime) {
    const MIB: u32 = 1_048_576;
    let mut extents = [(0u32, MIB); 250];
    for (place, extent) in extents.iter_mut().rev().enumerate() {
        extent.0 = (place as u32).wrapping_mul(MIB);
    }
    for (area, start) in [(268_435_456, Some(262_144_000)), (262_144_000, None)] {
        expect(&rt, first_fit(&extents, 262_144, area), start);
    }
}
