//! Serving the lines of an input.
ghost use Rattle.std.specs.Prelude.{◌≡◌, ℕ, ◌+◌, ◌-◌, ◌^◌, ◌≤◌, ◌<◌, ◌⊎◌, Option, List, ◌++◌};
ghost use Rattle.std.specs.Prelude.{length, OnOk, OnErr, None, Some};
ghost use Rattle.std.specs.Io.KnownBytes.{Keeps, IsAtEnd};
ghost use Rattle.mot_lines.specs.Lines.{whole_lines, lines_of};
ghost use Rattle.mot_numbers.specs.declared.refusal.Refusal.TheVariants.{OutOfMemory, ReadFault};
ghost use Rattle.mot_playout.specs.Runs.{ServerView};
ghost use Rattle.mot_session.specs.Inner.Writes.{InHand};
ghost use Rattle.mot_session.specs.LineByLine.{BreaksOff, GoesOn, ServesEach, ServesOne};
ghost use Rattle.mot_session.specs.LineByLine.{ServesSome};
ghost use Rattle.mot_session.specs.Laws.{SessionLaws};
ghost use Rattle.mot_session.specs.Served.{TakesInput, EndsServing};

mod listing;
mod output;
mod reading;
mod reply;

use disk_model::Disk;
pub use listing::write_listing;
use mot_lines::{Hand, cut_at_line_end, parse_line};
use mot_numbers::Refusal;
use mot_playout::Server;
pub use output::{WriteFault, write_whole};
pub use reading::answer_reading;
use reply::respond;
use std::alloc::Global;
use std::io::{Read, Write};

/// The most bytes of one read.
pub const READ_SIZE: usize = 4_096;

/// The most reads that a call of `serve` may be given.
pub const MAX_READS: u64 = 4_294_967_296;

/// How serving ended.
#[derive(Clone, Copy, Debug, PartialEq, Eq)]
pub struct ServeEnd {
    /// How many lines were answered in full.
    pub lines: u64,
    /// What ended it: nothing if the input ended, or `OutOfMemory`, `ReadFault` or `WriteFault`.
    pub fault: Option<Refusal>,
}

/// Answers each line that the reader gives, in at most `reads` reads of at most 4,096 bytes each,
/// each by a call of `serve_line`, so that the writer is flushed after each reply. Faults are
/// `ReadFault`, if a read failed or the input did not end within the reads (a line in hand is not
/// answered); `WriteFault`, if a write or a flush failed; and `OutOfMemory`, if there is no room
/// for a line (nothing was read or written). A disk fault ends no serving: it is a line's reply,
/// and a command's halts the server.
///
/// The promises about replies, about what a crash leaves, and about the server afterwards have as
/// their premise that the server stood for something (`StandsFor`: every server does that was
/// opened on a disk formatted here), and that the disk is honest to the end. They hold of each line
/// if the disk is honest up to that line, whatever a later one reads (`ServesEach`). Which reply a
/// line gets is right on every disk for what the server keeps in memory.
pub fn serve<R: Read, W: Write, D: Disk>(
    alloc: Global,
    reader: &mut R,
    writer: &mut W,
    server: &mut Server<D>,
    reads: u64,
) -> ServeEnd
    requires { reads ≤ MAX_READS }

    // All that the reader had was read, and each line of it was answered; all acknowledged commands
    // are stored.
    ensures ended { result.fault ≡ None → (input : List ℕ)
        × TakesInput reads (R.remaining reader.old) (R.remaining reader.new) input
        × IsAtEnd (R.remaining reader.new) × (result.lines ≡ length (lines_of input))
        × ServesEach D.state server.old (lines_of input) server.new
        (W.contents writer.old) (W.contents writer.new) }

    // Each line whose end was read was answered; all acknowledged commands are stored.
    ensures unread { result.fault ≡ Some ReadFault → (input : List ℕ)
        × TakesInput reads (R.remaining reader.old) (R.remaining reader.new) input
        × (result.lines ≡ length (whole_lines input))
        × ServesEach D.state server.old (whole_lines input) server.new
        (W.contents writer.old) (W.contents writer.new) }

    // The first lines were answered, and the reply to the next was broken off; all acknowledged
    // commands are stored. The bytes after the last line end are a line only if the input has
    // ended.
    ensures unwritten { result.fault ≡ Some Refusal.WriteFault → (input : List ℕ)
        × TakesInput reads (R.remaining reader.old) (R.remaining reader.new) input
        × (ServesSome D.state server.old (whole_lines input) result.lines server.new
        (W.contents writer.old) (W.contents writer.new)
        ⊎ (IsAtEnd (R.remaining reader.new)
        × ServesSome D.state server.old (lines_of input) result.lines server.new
        (W.contents writer.old) (W.contents writer.new))) }

    // Nothing was done.
    ensures none { result.fault ≡ Some OutOfMemory → (result.lines ≡ 0) × (server.new ≡ server.old)
        × Keeps (R.remaining reader.old) (R.remaining reader.new)
        × Keeps (W.contents writer.old) (W.contents writer.new) }
    ensures faults { EndsServing result.fault }

    // The disk keeps its length, and a server that is halted changes nothing.
    ensures goes { GoesOn server.old server.new
        (D.state server.old.disk) (D.state server.new.disk) }

    // The packets of raw replies read as what was asked for, those of a session have their
    // continuity indexes, and no more device faults are answered than the disk has.
    ensures laws { SessionLaws }
{
    let Ok(mut hand) = Hand::new(alloc) else {
        return ended(0, Refusal::OutOfMemory);
    };
    let mut chunk = [0u8; READ_SIZE];
    let mut lines = 0u64;
    for _ in 0..reads {
        let Ok(count) = reader.read(&mut chunk) else {
            return ended(lines, Refusal::ReadFault);
        };
        if count == 0 {
            return answer_last(alloc, &hand, lines, writer, server);
        }
        let chunk = &chunk[..count];
        let Ok(()) = answer_chunk(alloc, chunk, &mut hand, &mut lines, writer, server) else {
            return ended(lines, Refusal::WriteFault);
        };
    }
    ended(lines, Refusal::ReadFault)
}

/// Answers one line, given without its end: does what it asks for, writes the whole reply, and
/// flushes the writer. Err if a write or a flush failed. `serve` calls it for each line of its
/// input, one after the other; of a line above 530,000 bytes it gives the first 530,001, which are
/// refused as the whole line would be.
///
/// Here the states of the disk are those of one line's beginning and of the call's return: whoever
/// has the reply knows a moment of the disk's clock since which the acknowledged commands are
/// stored. The premise is that of `serve`.
pub fn serve_line<W: Write, D: Disk>(
    alloc: Global,
    line: &[u8],
    writer: &mut W,
    server: &mut Server<D>,
) -> Result<(), WriteFault>
    // The whole reply was written, and the acknowledged commands are stored. On every disk the
    // reply is right for what is kept in memory; and a server that is halted changes nothing.
    ensures answered { OnOk result (ServesOne D.state server.old line.now server.new
        (W.contents writer.old) (W.contents writer.new)) }

    // So, but some first bytes of the reply were written; its command is stored all the same.
    ensures broken { OnErr result (BreaksOff D.state server.old line.now server.new
        (W.contents writer.old) (W.contents writer.new)) }
{
    respond(alloc, parse_line(alloc, line), writer, server)
}

/// Serving that a fault ended.
fn ended(lines: u64, fault: Refusal) -> ServeEnd
    ensures { result ≡ record { lines = lines; fault = Some fault } }
{
    ServeEnd {
        lines,
        fault: Some(fault),
    }
}

/// Answers what follows the last line end, unless it is empty.
fn answer_last<W: Write, D: Disk>(
    alloc: Global,
    hand: &Hand,
    lines: u64,
    writer: &mut W,
    server: &mut Server<D>,
) -> ServeEnd
    requires { lines < 2 ^ 64 - 1 }
    ensures lines { result.fault ≡ None → (input : List ℕ) → InHand input hand.now lines
        → result.lines ≡ length (lines_of input) }
    ensures fault { (result.fault ≡ None) ⊎ (result.fault ≡ Some Refusal.WriteFault) }
    ensures each { result.fault ≡ None
        → (first : ServerView D) (old : Option (List ℕ)) (input : List ℕ)
        → InHand input hand.now lines
        → ServesEach D.state first (whole_lines input) server.old old (W.contents writer.old)
        → ServesEach D.state first (lines_of input) server.new old (W.contents writer.new) }
    ensures some { result.fault ≡ Some Refusal.WriteFault
        → (first : ServerView D) (old : Option (List ℕ)) (input : List ℕ)
        → InHand input hand.now lines
        → ServesEach D.state first (whole_lines input) server.old old (W.contents writer.old)
        → ServesSome D.state first (lines_of input) result.lines server.new old
        (W.contents writer.new) }
    ensures goes { GoesOn server.old server.new
        (D.state server.old.disk) (D.state server.new.disk) }
{
    if hand.is_empty() {
        return ServeEnd { lines, fault: None };
    }
    match serve_line(alloc, hand.as_slice(), writer, server) {
        Ok(()) => ServeEnd {
            lines: lines + 1,
            fault: None,
        },
        Err(WriteFault) => ended(lines, Refusal::WriteFault),
    }
}

/// Answers each line that ends in the chunk, and keeps the rest in hand.
fn answer_chunk<W: Write, D: Disk>(
    alloc: Global,
    chunk: &[u8],
    hand: &mut Hand,
    lines: &mut u64,
    writer: &mut W,
    server: &mut Server<D>,
) -> Result<(), WriteFault>
    requires { lines.old + length chunk.now < 2 ^ 64 }
    ensures bound { OnOk result (lines.new ≤ lines.old + length chunk.now) }
    ensures hand { OnOk result ((input : List ℕ) → InHand input hand.old lines.old
        → InHand (input ++ chunk.now) hand.new lines.new) }
    ensures each { OnOk result ((first : ServerView D) (old : Option (List ℕ)) (input : List ℕ)
        → InHand input hand.old lines.old
        → ServesEach D.state first (whole_lines input) server.old old (W.contents writer.old)
        → ServesEach D.state first (whole_lines (input ++ chunk.now)) server.new old
        (W.contents writer.new)) }
    ensures some { OnErr result ((first : ServerView D) (old : Option (List ℕ)) (input : List ℕ)
        → InHand input hand.old lines.old
        → ServesEach D.state first (whole_lines input) server.old old (W.contents writer.old)
        → ServesSome D.state first (whole_lines (input ++ chunk.now)) lines.new server.new old
        (W.contents writer.new)) }
    ensures goes { GoesOn server.old server.new
        (D.state server.old.disk) (D.state server.new.disk) }
{
    let mut rest = chunk;
    while let Some((line, next)) = cut_at_line_end(rest) {
        hand.add(line);
        serve_line(alloc, hand.as_slice(), writer, server)?;
        hand.clear();
        *lines += 1;
        rest = next;
    }
    hand.add(rest);
    Ok(())
}
