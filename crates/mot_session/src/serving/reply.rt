//! Answering one line.
ghost use Rattle.std.specs.Prelude.{◌≡◌, ◌<◌, ℕ, List, Result, Ok, Some, false, IfOk, IsFalse};
ghost use Rattle.std.specs.List.{flat_map};
ghost use Rattle.mot_journal.specs.Image.{Standing};
ghost use Rattle.mot_lines.specs.Line.{IsParsed, line_of};
ghost use Rattle.mot_lines.specs.Text.{packet_line};
ghost use Rattle.mot_lines.specs.declared.line.Line.TheVariants as asks;
ghost use Rattle.mot_numbers.specs.Geometry.{IsValid};
ghost use Rattle.mot_player.specs.Laws.{bytes_left};
ghost use Rattle.mot_repository.specs.Repository.{Holds, RepositoryView};
ghost use Rattle.mot_session.specs.Inner.Anyhow.{AnswersWithAnyhow, DecidesAnyhow, ShowsOne};
ghost use Rattle.mot_session.specs.Inner.Writes.{Decides, may_be_done, AnswersLine, AnswersOne};
ghost use Rattle.mot_session.specs.Inner.Writes.{AnswersRequest, ReadsAlone};
ghost use Rattle.mot_session.specs.Served.{Writes};
ghost use Rattle.mot_session.specs.LineByLine.{GoesOn};
ghost use Rattle.mot_session.specs.Session.{packets_at, Leads, ServerState, StandsFor, state_of};

use super::listing::write_listing;
use super::output::{WriteFault, write_whole};
use crate::deciding::{Decision, decide};
use disk_model::Disk;
use mot_lines::{Line, PacketLine, done_text, refusal_text, set_packet_text};
use mot_numbers::{Geometry, Refusal};
use mot_packets::{Packet, cut_packet, packet_count};
use mot_playout::Server;
use std::alloc::Global;
use std::io::Write;

/// Does what a line was parsed to ask for, writes the whole reply, and flushes the writer; after a
/// fault some first bytes of the reply were written.
pub(super) fn respond<W: Write, D: Disk>(
    alloc: Global,
    request: Result<Line, Refusal>,
    writer: &mut W,
    server: &mut Server<D>,
) -> Result<(), WriteFault>
    ensures answers { (line : List ℕ) → IsParsed request (line_of line)
        → Leads D.state server.old server.new (λ before after. AnswersLine result
        (D.state server.old.disk) (D.state server.new.disk) before line after
        (W.contents writer.old) (W.contents writer.new)) }
    ensures anyhow { (line : List ℕ) → IsParsed request (line_of line)
        → AnswersWithAnyhow result server.old.view server.new.view
        (D.state server.old.disk).failures (D.state server.new.disk).failures (line_of line)
        (W.contents writer.old) (W.contents writer.new) }
    ensures goes { GoesOn server.old server.new
        (D.state server.old.disk) (D.state server.new.disk) }
{
    let decision = decide(alloc, request, server);
    write_reply(writer, server, &decision)?;
    writer.flush().map_err(|_| WriteFault)
}

/// Writes the reply that was decided, and plays the packets of it that are to be played.
fn write_reply<W: Write, D: Disk>(
    writer: &mut W,
    server: &mut Server<D>,
    decision: &Decision,
) -> Result<(), WriteFault>
    ensures reads { ReadsAlone server.old server.new
        (D.state server.old.disk) (D.state server.new.disk) }
    ensures answers { (before : ServerState) (request : Result Line Refusal) (s : Standing)
        → StandsFor server.old.view s (D.state server.old.disk)
        → (D.state server.new.disk).IsHonest
        → Decides before request decision.now (state_of server.old s (D.state server.old.disk))
        → AnswersRequest result (may_be_done decision.now) before request
        (state_of server.new s (D.state server.new.disk))
        (W.contents writer.old) (W.contents writer.new) }
    ensures anyhow { (old : RepositoryView) (before : ℕ) (request : Result Line Refusal)
        → DecidesAnyhow old server.old.view before (D.state server.old.disk).failures request
        decision.now → AnswersWithAnyhow result old server.new.view before
        (D.state server.new.disk).failures request
        (W.contents writer.old) (W.contents writer.new) }
{
    match decision {
        Decision::Refused(refusal) => write_whole(writer, refusal_text(*refusal).as_slice()),
        Decision::Accepted(done) => write_whole(writer, done_text(*done).as_slice()),
        Decision::Listing => write_listing(writer, server.carousel()),
        Decision::Packets(group) => write_packets(writer, &server.geometry(), group),
        Decision::Next(count) => write_next(writer, server, *count),
        Decision::Turn => write_turn(writer, server),
    }
}

/// Plays so many packets, or those before a body that can't be read, and writes a line of each
/// before the next is made.
fn write_next<W: Write, D: Disk>(
    writer: &mut W,
    server: &mut Server<D>,
    count: u32,
) -> Result<(), WriteFault>
    ensures reads { ReadsAlone server.old server.new
        (D.state server.old.disk) (D.state server.new.disk) }
    ensures answers { (s : Standing) → Holds server.old.view s (D.state server.old.disk)
        → (D.state server.new.disk).IsHonest → AnswersRequest result false
        (state_of server.old s (D.state server.old.disk)) (Ok (asks.Next count))
        (state_of server.new s (D.state server.new.disk))
        (W.contents writer.old) (W.contents writer.new) }
    ensures anyhow { IsFalse server.old.view.halted
        → AnswersWithAnyhow result server.old.view server.new.view
        (D.state server.old.disk).failures (D.state server.new.disk).failures (Ok (asks.Next count))
        (W.contents writer.old) (W.contents writer.new) }
{
    let mut line = PacketLine::new();
    for _ in 0..count {
        let Some(_) = write_next_packet(writer, server, &mut line)? else {
            return Ok(());
        };
    }
    Ok(())
}

/// Plays the packets up to the first that ends a turn, or those before a body that can't be read,
/// and writes a line of each before the next is made.
fn write_turn<W: Write, D: Disk>(writer: &mut W, server: &mut Server<D>) -> Result<(), WriteFault>
    ensures reads { ReadsAlone server.old server.new
        (D.state server.old.disk) (D.state server.new.disk) }
    ensures answers { (s : Standing) → Holds server.old.view s (D.state server.old.disk)
        → (D.state server.new.disk).IsHonest → AnswersRequest result false
        (state_of server.old s (D.state server.old.disk)) (Ok asks.Turn)
        (state_of server.new s (D.state server.new.disk))
        (W.contents writer.old) (W.contents writer.new) }
    ensures anyhow { IsFalse server.old.view.halted
        → AnswersWithAnyhow result server.old.view server.new.view
        (D.state server.old.disk).failures (D.state server.new.disk).failures (Ok asks.Turn)
        (W.contents writer.old) (W.contents writer.new) }
{
    let mut line = PacketLine::new();
    loop {
        let Some(ends_turn) = write_next_packet(writer, server, &mut line)? else {
            return Ok(());
        };
        if ends_turn {
            return Ok(());
        }
    }
}

/// Plays a packet and writes its line; answers whether it ends a turn. If it is refused, the
/// refusal's line is written, and the answer is `None`. The line is a place to make it in.
fn write_next_packet<W: Write, D: Disk>(
    writer: &mut W,
    server: &mut Server<D>,
    line: &mut PacketLine,
) -> Result<Option<bool>, WriteFault>
    ensures reads { ReadsAlone server.old server.new
        (D.state server.old.disk) (D.state server.new.disk) }
    ensures answers { (s : Standing) → Holds server.old.view s (D.state server.old.disk)
        → (D.state server.new.disk).IsHonest → AnswersOne result
        (state_of server.old s (D.state server.old.disk))
        (state_of server.new s (D.state server.new.disk))
        (W.contents writer.old) (W.contents writer.new) }
    ensures anyhow { IsFalse server.old.view.halted → ShowsOne result
        (D.state server.old.disk).failures (D.state server.new.disk).failures
        (W.contents writer.old) (W.contents writer.new) }
    ensures nearer { IfOk result (λ shown. shown ≡ Some false
        → bytes_left server.new.player < bytes_left server.old.player) }
{
    let mut packet = Packet::new();
    match server.next_into(&mut packet) {
        Ok(ends_turn) => {
            set_packet_text(line, &packet, ends_turn);
            write_whole(writer, line.as_slice())?;
            Ok(Some(ends_turn))
        }
        Err(refusal) => {
            write_whole(writer, refusal_text(refusal).as_slice())?;
            Ok(None)
        }
    }
}

/// Writes the packets of a group, a line each.
pub(super) fn write_packets<W: Write>(
    writer: &mut W,
    geometry: &Geometry,
    group: &[u8],
) -> Result<(), WriteFault>
    requires { IsValid geometry.now }
    ensures { Writes result
        (flat_map packet_line (packets_at geometry.now group.now))
        (W.contents writer.old) (W.contents writer.new) }
{
    // This loop is `State::send` of `mot_player` in one go: a group that is shown has no turn, so
    // no other group comes between its packets, and their indexes begin at 0.
    let length = geometry.length_of_packets();
    let address = geometry.address_of_packets();
    let mut text = PacketLine::new();
    for number in 0..packet_count(group.len(), length) {
        let at = number * length.room();
        let packet = cut_packet(group, at, length, address, (number % 4) as u8);
        set_packet_text(&mut text, &packet, false);
        write_whole(writer, text.as_slice())?;
    }
    Ok(())
}
