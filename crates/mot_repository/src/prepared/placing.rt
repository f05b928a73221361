//! Where the bodies lie after a command.
ghost use Rattle.std.specs.Prelude.{◌≡◌, IfOk};
ghost use Rattle.mot_carousel.specs.Gap.{AreReordered};
ghost use Rattle.mot_repository.specs.Inner.Extents.{names_kept};
ghost use Rattle.mot_repository.specs.Outcome.{extents_after};

use crate::by_start::{insert_by_start, take_out};
use crate::inventory::Inventory;
use mot_objects::Command;
use std::alloc::{AllocError, Global};

/// The extents after a command whose body, if it brings one, begins at `start`; and by their starts.
pub(crate) fn extents_after(
    alloc: Global,
    inventory: &Inventory,
    command: &Command,
    start: u32,
) -> Result<(Vec<(u32, u32)>, Vec<(u32, u32)>), AllocError>
    ensures extents { IfOk result (λ after. after.0.items ≡ extents_after
        (names_kept inventory.now.carousel) inventory.now.extents.items command.now start) }
    ensures reordered { IfOk result (λ after. AreReordered after.0.items after.1.items) }
{
    let mut extents = Vec::from_slice(alloc, &inventory.extents)?;
    let mut by_start = Vec::from_slice(alloc, &inventory.by_start)?;
    match command {
        Command::Put { body, .. } => {
            let extent = (start, body.length().get());
            insert_by_start(&mut by_start, extent)?;
            extents.push(extent)?;
        }
        Command::Replace { name, body, .. } => {
            if let Some(place) = inventory.carousel.place_of(name) {
                let extent = (start, body.length().get());
                take_out(&mut by_start, extents[place]);
                insert_by_start(&mut by_start, extent)?;
                extents[place] = extent;
            }
        }
        Command::Withdraw { name } => {
            if let Some(place) = inventory.carousel.place_of(name) {
                take_out(&mut by_start, extents[place]);
                extents.remove(place);
            }
        }
        Command::Period(_) => {}
    }
    Ok((extents, by_start))
}
