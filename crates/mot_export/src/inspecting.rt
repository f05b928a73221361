//! Printing a disk's sizes, what is free of them, and its turn.
ghost use Rattle.std.specs.Prelude.{IfOk};
ghost use Rattle.mot_journal.specs.Image.{Standing};
ghost use Rattle.mot_export.specs.Filling.{TurnsHaveTheirLengths};
ghost use Rattle.mot_export.specs.Inspecting.{Inspects, TurnsHaveTheirPackets};
ghost use Rattle.mot_export.specs.Inner.Inspected.{IsAbout};
ghost use Rattle.mot_repository.specs.Repository.{Agrees};
ghost use Rattle.mot_playout.specs.Attempts.{fault_of};
ghost use Rattle.mot_playout.specs.Runs.{place_in};

use crate::inspection::inspection_of;
use crate::shown::text_of;
use disk_model::Disk;
use mot_cli::Form;
use mot_outcome::print_text;
use mot_playout::Server;
use mot_update::Ended;
use std::alloc::{AllocError, Global};
use std::io::Write;

/// Opens the disk, and prints its sizes, what is used and free of them, what a turn takes, and how
/// long it is in packets of each length: in a sub-channel of this rate in kbit/s or, if none is
/// given, of the usual ones. Behind them comes for how many packets a receiver has to listen, if
/// `play` is told this rate or none. No body is read.
pub fn inspect_disk<D: Disk, W: Write>(
    alloc: Global,
    disk: D,
    rate: Option<u32>,
    form: Form,
    writer: &mut W,
) -> Ended<D, ()>
    ensures ended { Inspects rate form (fault_of result.result)
        (W.contents writer.old) (W.contents writer.new) (D.state disk) (D.state result.disk) }

    // The lengths that are told of the disk's own packets are those of each turn that is played.
    ensures lengths { TurnsHaveTheirLengths }
    ensures packets { TurnsHaveTheirPackets }
{
    let server = match Server::open(alloc, disk) {
        Ok(server) => server,
        Err(refused) => return Ended::unopened(refused),
    };
    let result = print_text(writer, text_about(alloc, &server, rate, form));
    Ended {
        disk: server.into_disk(),
        result,
        reason: None,
    }
}

/// What is told of an open server.
fn text_about<D: Disk>(
    alloc: Global,
    server: &Server<D>,
    rate: Option<u32>,
    form: Form,
) -> Result<Vec<u8>, AllocError>
    ensures { (s : Standing) → Agrees server.now.view s → IfOk result (λ text. IsAbout rate form
        server.now.view.journal (place_in server.now s) s text.items) }
{
    match inspection_of(alloc, server, rate) {
        Ok(inspection) => text_of(alloc, form, &inspection),
        Err(_) => Err(AllocError),
    }
}
