//! What `list` shows.
ghost use Rattle.std.specs.List.{flat_map};
ghost use Rattle.mot_lines.specs.Listing.{object_line_beside, listing_text_beside};
ghost use Rattle.mot_session.specs.Served.{Writes};

use super::output::{WriteFault, write_whole};
use mot_lines::{carousel_text, object_text};
use mot_objects::{Carousel, Object};
use std::io::Write;

/// Writes the carousel's line, and then one for each object; after a fault some first bytes of them
/// were written.
pub fn write_listing<W: Write>(writer: &mut W, carousel: &Carousel) -> Result<(), WriteFault>
    ensures { Writes result (listing_text_beside carousel.now)
        (W.contents writer.old) (W.contents writer.new) }
{
    write_whole(writer, carousel_text(carousel).as_slice())?;
    write_objects(writer, &carousel.objects)
}

/// Writes the objects, a line each.
fn write_objects<W: Write>(writer: &mut W, objects: &[Object]) -> Result<(), WriteFault>
    ensures { Writes result (flat_map object_line_beside objects.now)
        (W.contents writer.old) (W.contents writer.new) }
{
    for object in objects {
        write_whole(writer, object_text(object).as_slice())?;
    }
    Ok(())
}
