//! Deciding the answer to a line.
ghost use Rattle.std.specs.Prelude.{◌≡◌, Ok, IsTrue, IsFalse};
ghost use Rattle.mot_session.specs.Inner.Anyhow.{DecidesAnyhow};
ghost use Rattle.mot_session.specs.Inner.Writes.{Decides, MayWrite, written_by};
ghost use Rattle.mot_session.specs.Session.{Leads};

mod group;

use disk_model::Disk;
pub(crate) use group::group_of;
use mot_lines::Line;
use mot_numbers::Refusal;
use mot_objects::{Command, Done};
use mot_playout::Server;
use std::alloc::{AllocError, Global};

/// The answer to a line, before it is written. A list and packets are shown as the server has them
/// then, and played packets are made while they are written.
#[derive(Drop)]
pub(crate) enum Decision {
    /// The line was refused, or what it asked for.
    Refused(Refusal),
    /// A command was accepted, and took these ids.
    Accepted(Done),
    /// The carousel is shown.
    Listing,
    /// The packets of this data group are shown.
    Packets(Vec<u8>),
    /// So many packets are to be played.
    Next(u32),
    /// The packets up to the first that ends a turn are to be played.
    Turn,
}

/// Does what a line asks for, and decides the reply.
pub(crate) fn decide<D: Disk>(
    alloc: Global,
    request: Result<Line, Refusal>,
    server: &mut Server<D>,
) -> Decision
    ensures decides { Leads D.state server.old server.new
        (λ before after. Decides before request result after) }

    // On every disk it is right for what is kept in memory.
    ensures anyhow { DecidesAnyhow server.old.view server.new.view
        (D.state server.old.disk).failures (D.state server.new.disk).failures request result }

    // At each moment a crash leaves the carousel from before, or after the request's command.
    ensures writes { MayWrite server.old.view server.new.view
        (D.state server.old.disk) (D.state server.new.disk) (written_by result request) }
{
    match request {
        Ok(request) => decide_request(alloc, &request, server),
        Err(refusal) => Decision::Refused(refusal),
    }
}

/// Does what a request asks, and decides the reply. A halted server answers raw lines alone.
fn decide_request<D: Disk>(alloc: Global, request: &Line, server: &mut Server<D>) -> Decision
    ensures decides { Leads D.state server.old server.new
        (λ before after. Decides before (Ok request.now) result after) }
    ensures anyhow { DecidesAnyhow server.old.view server.new.view
        (D.state server.old.disk).failures (D.state server.new.disk).failures
        (Ok request.now) result }
    ensures writes { MayWrite server.old.view server.new.view
        (D.state server.old.disk) (D.state server.new.disk) (written_by result (Ok request.now)) }
{
    match request {
        Line::Command(command) => decide_command(alloc, command, server),
        Line::Raw { kind, tid, body } => match group_of(alloc, *kind, *tid, body) {
            Ok(group) => Decision::Packets(group),
            Err(AllocError) => Decision::Refused(Refusal::OutOfMemory),
        },
        Line::List => show(server, Decision::Listing),
        Line::Next(count) => show(server, Decision::Next(*count)),
        Line::Turn => show(server, Decision::Turn),
    }
}

/// What shows or plays the carousel is decided so, unless the server is halted.
fn show<D: Disk>(server: &Server<D>, decision: Decision) -> Decision
    ensures halted { IsTrue server.now.view.halted → result ≡ Decision.Refused Refusal.Halted }
    ensures going { IsFalse server.now.view.halted → result ≡ decision }
{
    if server.halted() {
        Decision::Refused(Refusal::Halted)
    } else {
        decision
    }
}

/// Does what a command asks, and decides the reply.
fn decide_command<D: Disk>(alloc: Global, command: &Command, server: &mut Server<D>) -> Decision
    ensures decides { Leads D.state server.old server.new
        (λ before after. Decides before (Ok (Line.Command command.now)) result after) }
    ensures anyhow { DecidesAnyhow server.old.view server.new.view
        (D.state server.old.disk).failures (D.state server.new.disk).failures
        (Ok (Line.Command command.now)) result }
    ensures writes { MayWrite server.old.view server.new.view
        (D.state server.old.disk) (D.state server.new.disk) (written_by result (Ok (Line.Command command.now))) }
{
    match server.execute(alloc, command) {
        Ok(done) => Decision::Accepted(done),
        Err(refusal) => Decision::Refused(refusal),
    }
}
