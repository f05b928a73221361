//! Answering on a server that is only read.
ghost use Rattle.std.specs.Prelude.{◌≡◌, ℕ, List, Ok, OnOk};
ghost use Rattle.std.specs.Io.KnownBytes.{Appends};
ghost use Rattle.mot_lines.specs.Text.{refusal_line};
ghost use Rattle.mot_lines.specs.declared.line.Line.TheVariants as asks;
ghost use Rattle.mot_numbers.specs.Geometry.{IsValid};
ghost use Rattle.mot_repository.specs.Repository.{RepositoryView};
ghost use Rattle.mot_session.specs.Served.{Writes, WritesFront};
ghost use Rattle.mot_session.specs.OnAnyDisk.{AnswersAnyhow, read_only};

use super::listing::write_listing;
use super::output::{WriteFault, write_whole};
use super::reply::write_packets;
use crate::deciding::group_of;
use disk_model::Disk;
use mot_lines::{Line, SegmentBytes, refusal_text};
use mot_numbers::{Geometry, GroupKind, Refusal, TransportId};
use mot_playout::Server;
use std::alloc::{AllocError, Global};
use std::io::Write;

/// Answers a parsed line as `serve_line` does, on a server that is only read: a list, a raw line,
/// or a line's own refusal. A line that would change or play the carousel (a command, a `next` or a
/// `turn` line) is refused `BadLine`. Err if a write or a flush failed.
pub fn answer_reading<W: Write, D: Disk>(
    alloc: Global,
    request: &Result<Line, Refusal>,
    writer: &mut W,
    server: &Server<D>,
) -> Result<(), WriteFault>
    // The reply, and what was written of it: all of it, or after a fault some first bytes.
    ensures answered { (text : List ℕ) × AnswersAnyhow server.now.view server.now.view
        (D.state server.now.disk).failures (D.state server.now.disk).failures
        (read_only request.now) text
        × WritesFront text (W.contents writer.old) (W.contents writer.new)
        × OnOk result (Appends (W.contents writer.old) (W.contents writer.new) text) }
{
    write_reading(alloc, request, writer, server)?;
    writer.flush().map_err(|_| WriteFault)
}

/// Writes the reply.
fn write_reading<W: Write, D: Disk>(
    alloc: Global,
    request: &Result<Line, Refusal>,
    writer: &mut W,
    server: &Server<D>,
) -> Result<(), WriteFault>
    ensures { (text : List ℕ) × AnswersAnyhow server.now.view server.now.view
        (D.state server.now.disk).failures (D.state server.now.disk).failures
        (read_only request.now) text
        × Writes result text (W.contents writer.old) (W.contents writer.new) }
{
    match request {
        Ok(line) => write_shown(alloc, line, writer, server),
        Err(refusal) => write_refusal(writer, *refusal),
    }
}

/// Writes what a line shows.
fn write_shown<W: Write, D: Disk>(
    alloc: Global,
    line: &Line,
    writer: &mut W,
    server: &Server<D>,
) -> Result<(), WriteFault>
    ensures { (text : List ℕ) × AnswersAnyhow server.now.view server.now.view
        (D.state server.now.disk).failures (D.state server.now.disk).failures
        (read_only (Ok line.now)) text
        × Writes result text (W.contents writer.old) (W.contents writer.new) }
{
    match line {
        Line::List => write_list(writer, server),
        Line::Raw { kind, tid, body } => {
            write_raw(alloc, *kind, *tid, body, writer, &server.geometry())
        }
        Line::Command(_) => write_refusal(writer, Refusal::BadLine),
        Line::Next(_) => write_refusal(writer, Refusal::BadLine),
        Line::Turn => write_refusal(writer, Refusal::BadLine),
    }
}

/// Writes a refusal's line.
fn write_refusal<W: Write>(writer: &mut W, refusal: Refusal) -> Result<(), WriteFault>
    ensures { Writes result (refusal_line refusal)
        (W.contents writer.old) (W.contents writer.new) }
{
    write_whole(writer, refusal_text(refusal).as_slice())
}

/// Writes the reply to a `list` line.
fn write_list<W: Write, D: Disk>(writer: &mut W, server: &Server<D>) -> Result<(), WriteFault>
    ensures { (text : List ℕ) × AnswersAnyhow server.now.view server.now.view
        (D.state server.now.disk).failures (D.state server.now.disk).failures (Ok asks.List) text
        × Writes result text (W.contents writer.old) (W.contents writer.new) }
{
    if server.halted() {
        write_refusal(writer, Refusal::Halted)
    } else {
        write_listing(writer, server.carousel())
    }
}

/// Writes the reply to a `raw` line.
fn write_raw<W: Write>(
    alloc: Global,
    kind: GroupKind,
    tid: TransportId,
    body: &SegmentBytes,
    writer: &mut W,
    geometry: &Geometry,
) -> Result<(), WriteFault>
    requires { IsValid geometry.now }
    ensures { (view : RepositoryView) (count : ℕ) → view.journal.geometry ≡ geometry.now
        → (text : List ℕ)
        × AnswersAnyhow view view count count (Ok (asks.Raw kind tid body.now)) text
        × Writes result text (W.contents writer.old) (W.contents writer.new) }
{
    match group_of(alloc, kind, tid, body) {
        Ok(group) => write_packets(writer, geometry, &group),
        Err(AllocError) => write_refusal(writer, Refusal::OutOfMemory),
    }
}
