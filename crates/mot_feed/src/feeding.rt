//! Taking turns between updating the carousel and sending its packets.
ghost use Rattle.std.specs.Prelude.{◌≡◌, ◌==◌, ◌-◌, ◌<◌, if◌then◌else◌, IfErr, OnOk};
ghost use Rattle.disk_model.specs.Disk.{KeepsLength};
ghost use Rattle.mot_feed.specs.Feeding.{IsFeedFault, moment_at, Feeds, is_due, look_in, pause};
ghost use Rattle.mot_feed.specs.Feeding.{server_for};
ghost use Rattle.mot_journal.specs.Image.{Standing};
ghost use Rattle.mot_player.specs.Place.{hear_directory};
ghost use Rattle.mot_repository.specs.Repository.{Agrees, Holds};
ghost use Rattle.mot_playout.specs.Attempts.{fault_of};
ghost use Rattle.mot_playout.specs.Runs.{place_in};
ghost use Rattle.mot_update.specs.Faults.{StaysCalm};

use crate::Outlet;
use crate::manner::Manner;
use crate::sending::send_one;
use disk_model::Disk;
use mot_numbers::Refusal;
use mot_packets::Packet;
use mot_playout::Server;
use mot_update::{Update, UpdatePoint};
use std::alloc::Global;

/// Sends packets, each in one write, with a call of the update before each, until so many turns
/// have ended. The errors are those of the updates and of `Server::next_packet`, and `WriteFault`,
/// if the outlet failed or took less than a packet.
///
/// If the directory is to come within turns, an accepted command does not begin a new turn: what it
/// changed comes next, and then the turn goes on. Of the bodies that changed and are not begun, at
/// most `early` come next; another one comes in its place in the turn.
///
/// The directory is then asked for in front of each turn, which changes nothing there, and again
/// and again: after the packet that follows, `directory` packets go out until the next time, or ten
/// times as many as the directory takes, if these are more. It is asked for at no other time.
///
/// A look may come between turns, and within a turn after `look` packets since one might come last,
/// without those after which changed bodies wait.
pub fn feed<D: Disk, O: Outlet, U: Update>(
    server: &mut Server<D>,
    alloc: Global,
    update: &mut U,
    outlet: &mut O,
    how: Manner,
) -> Result<(), Refusal>
    ensures keeps { KeepsLength (D.state server.old.disk) (D.state server.new.disk) }
    ensures calm { OnOk result
        (StaysCalm server.old server.new (D.state server.old.disk) (D.state server.new.disk)) }
    ensures fault { IfErr result (λ refusal. IsFeedFault server.old
        (D.state server.old.disk) (D.state server.new.disk) refusal) }
    ensures fed { (s : Standing) → Holds server.old.view s (D.state server.old.disk)
        → (D.state server.new.disk).IsHonest
        → Feeds U.tells how (fault_of result) update.old update.new server.old server.new
        (D.state server.old.disk) (D.state server.new.disk) s
        (O.writes outlet.old) (O.writes outlet.new) }
{
    follow(server, how);
    let mut left = how.turns;
    let mut between_turns = true;
    let mut until = 0;
    let mut rest = 0;
    let mut packet = Packet::new();
    for sent in 0..u64::MAX {
        if left == 0 {
            return Ok(());
        }
        let moment = moment_at(how, between_turns, rest);
        update.update(server, alloc, moment, sent)?;
        let due = is_due(how, between_turns, until);
        ask(server, due);
        between_turns = send_one(server, outlet, &mut packet)?;
        until = until_after(server, how, due, until);
        rest = rest_after(server, how, moment.may_look(), rest);
        if between_turns {
            left -= 1;
        }
    }
    Ok(())
}

/// Follows changes, if the directory is to come within turns.
fn follow<D: Disk>(server: &mut Server<D>, how: Manner)
    ensures disk { server.new.disk ≡ server.old.disk }
    ensures view { server.new.view ≡ server.old.view }
    ensures place { (s : Standing) → place_in server.new s ≡ place_in (server_for how server.old) s }
{
    if how.directory > 0 {
        server.follow_changes(how.early as usize);
    }
}

/// After how many packets of a turn a look may come; with 0 between turns alone.
fn look_in(how: Manner) -> u32
    ensures { result ≡ look_in how }
{
    if how.directory == 0 {
        return 0;
    }
    how.look
}

/// Where the update comes: between turns, or within one, where a look may come if no more packets go
/// out before it.
fn moment_at(how: Manner, between_turns: bool, rest: u32) -> UpdatePoint
    ensures { result ≡ moment_at (look_in how) between_turns rest }
{
    if between_turns {
        UpdatePoint::BetweenTurns
    } else if look_in(how) > 0 && rest == 0 {
        UpdatePoint::AtLook
    } else {
        UpdatePoint::Within
    }
}

/// Whether the directory is to be asked for, if no more packets go out before it than these.
fn is_due(how: Manner, between_turns: bool, until: u64) -> bool
    ensures { 0 < how.directory → result ≡ is_due between_turns until }
{
    how.directory > 0 && (between_turns || until == 0)
}

/// Asks for the directory if it is due.
fn ask<D: Disk>(server: &mut Server<D>, due: bool)
    ensures disk { server.new.disk ≡ server.old.disk }
    ensures view { server.new.view ≡ server.old.view }
    ensures asked { (s : Standing) → Agrees server.old.view s
        → place_in server.new s
        ≡ (if due then hear_directory (place_in server.old s) else place_in server.old s) }
{
    if due {
        server.hear_directory();
    }
}

/// How many packets go out before the directory is due, after a packet in front of which it was due
/// or not.
fn until_after<D: Disk>(server: &Server<D>, how: Manner, due: bool, until: u64) -> u64
    ensures { (s : Standing) → result
        ≡ (if due then pause how.directory (place_in server.now s) else until - 1) }
{
    if !due {
        return until.saturating_sub(1);
    }
    pause(server, u64::from(how.directory))
}

/// The same after one in front of which it was due.
fn pause<D: Disk>(server: &Server<D>, every: u64) -> u64
    ensures { (s : Standing) → result ≡ pause every (place_in server.now s) }
{
    let packets = server.directory_packets() as u64;
    every.max(10 * packets)
}

/// How many packets go out before a look may come within a turn, after a packet in front of which
/// one might or not: it does not count if changed bodies wait.
fn rest_after<D: Disk>(server: &Server<D>, how: Manner, may: bool, rest: u32) -> u32
    ensures { (s : Standing) → Agrees server.now.view s → result
        ≡ (if may then look_in how else rest) - (if (place_in server.now s).early == 0 then 1 else 0) }
{
    let rest = if may { look_in(how) } else { rest };
    if server.has_early() {
        rest
    } else {
        rest.saturating_sub(1)
    }
}
