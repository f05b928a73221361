//! What `check` does.
ghost use Rattle.std.specs.Prelude.{◌≡◌, IfOk};
ghost use Rattle.mot_commands.specs.Inner.Shown.{report_beside, shown_beside};
ghost use Rattle.mot_commands.specs.Json.{layout_number};
ghost use Rattle.mot_commands.specs.Report.{Checks, clean_line, layout_line};
ghost use Rattle.mot_objects.specs.declared.carousel.Carousel.{Carousel};
ghost use Rattle.mot_playout.specs.Attempts.{fault_of};

use crate::shown::text_in;
use crate::working::ended_with;
use disk_model::Disk;
use mot_cli::Form;
use mot_export::{JsonValue, add_json_line};
use mot_journal::Layout;
use mot_outcome::print_text;
use mot_repository::Repository;
use mot_update::Ended;
use std::alloc::{AllocError, Global};
use std::io::Write;

/// Prints what a disk keeps, whether it is clean, and its layout. Nothing on it changes, but that
/// it is synced.
pub(crate) fn check_disk<D: Disk, W: Write>(
    alloc: Global,
    disk: D,
    form: Form,
    writer: &mut W,
) -> Ended<D, ()>
    ensures { Checks form (fault_of result.result) (W.contents writer.old) (W.contents writer.new)
        (D.state disk) (D.state result.disk) }
{
    let mut repository = match Repository::open(alloc, disk) {
        Ok(repository) => repository,
        Err(refused) => return Ended::unopened(refused),
    };
    match repository.is_clean() {
        Ok(is_clean) => {
            let text = text_in(alloc, repository.carousel(), form);
            let report = report_in(text, is_clean, repository.layout(), form);
            ended_with(repository.into_disk(), print_text(writer, report))
        }
        Err(refusal) => ended_with(repository.into_disk(), Err(refusal)),
    }
}

/// Adds to what is shown of a carousel whether its disk is clean, and the disk's layout.
fn report_in(
    text: Result<Vec<u8>, AllocError>,
    is_clean: bool,
    layout: Layout,
    form: Form,
) -> Result<Vec<u8>, AllocError>
    ensures { (c : Carousel) → IfOk text (λ shown. shown.items ≡ shown_beside form c)
        → IfOk result (λ report. report.items ≡ report_beside form c is_clean layout) }
{
    let mut text = text?;
    match form {
        Form::Words => {
            text.extend_from_slice(clean_text(is_clean))?;
            text.extend_from_slice(layout_text(layout))?;
            Ok(text)
        }
        Form::Json => {
            let members = [
                ("clean", JsonValue::Flag(is_clean)),
                ("layout", JsonValue::Count(layout_number(layout))),
            ];
            add_json_line(text, &members)
        }
    }
}

/// Whether a disk is clean, as a line.
fn clean_text(is_clean: bool) -> &'static [u8]
    ensures { result.now ≡ clean_line is_clean }
{
    if is_clean { b"clean\n" } else { b"not clean\n" }
}

/// A layout, as a line.
fn layout_text(layout: Layout) -> &'static [u8]
    ensures { result.now ≡ layout_line layout }
{
    match layout {
        Layout::One => b"layout 1\n",
        Layout::Two => b"layout 2\n",
    }
}

/// The number of a layout.
fn layout_number(layout: Layout) -> u64
    ensures { result ≡ layout_number layout }
{
    match layout {
        Layout::One => 1,
        Layout::Two => 2,
    }
}
