//! The words of a line that describe an object.
ghost use Rattle.std.specs.Prelude.{◌≡◌, ℕ, List};
ghost use Rattle.mot_lines.specs.Line.{description_of};
ghost use Rattle.mot_lines.specs.Inner.{OrOutOfMemory};
ghost use Rattle.mot_lines.specs.Fields.{words_after};

use super::fields::{parse_body, parse_content, parse_mime, parse_name};
use super::words::five_words;
use mot_numbers::Refusal;
use mot_objects::Item;
use std::alloc::Global;

/// NAME TYPE SUBTYPE MIME HEX.
pub(super) fn parse_description(alloc: Global, words: Option<&[u8]>) -> Result<Item, Refusal>
    ensures { OrOutOfMemory result (description_of (words_after words.entry)) }
{
    let Some((name, kind, subtype, mime, hex)) = five_words(words) else {
        return Err(Refusal::BadLine);
    };
    let name = parse_name(alloc, name)?;
    let content = parse_content(kind, subtype)?;
    let mime = parse_mime(alloc, mime)?;
    let body = parse_body(alloc, hex)?;
    Ok(Item {
        name,
        content,
        mime,
        body,
    })
}
