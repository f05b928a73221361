//! A look at a source: what it gives, made of a server's carousel.
ghost use Rattle.std.specs.Prelude.{◌≡◌, ◌≢◌, ◌<◌, ◌≤◌, [], None, Ok, Some, length, true, IfErr};
ghost use Rattle.std.specs.Prelude.{IfOk, OnOk};
ghost use Rattle.disk_model.specs.Disk.{KeepsLength};
ghost use Rattle.mot_journal.specs.Image.{Standing};
ghost use Rattle.mot_numbers.specs.declared.refusal.Refusal.TheVariants.{OutOfMemory};
ghost use Rattle.mot_objects.specs.Carousel.{are_names_distinct};
ghost use Rattle.mot_repository.specs.Repository.{Holds};
ghost use Rattle.mot_playout.specs.Attempts.{fault_of};
ghost use Rattle.mot_update.specs.Faults.{TellsFaults};
ghost use Rattle.mot_update.specs.HasRun.{HasRun};
ghost use Rattle.mot_update.specs.Inner.{HasGapFor, HasRoomFor, IsDoneRightly, commands_if};
ghost use Rattle.mot_update.specs.Inner.{given_if, is_command, marks_if};
ghost use Rattle.mot_update.specs.Looking.{Gives, HasLooked, HasSettled, RunsThrough};
ghost use Rattle.mot_update.specs.Looking.{unknown_names, was_stored, withdraw_all};
ghost use Rattle.mot_update.specs.Told.{TellsSince};
ghost use Rattle.mot_update.specs.declared.settling.Need.{Need};
ghost use Rattle.mot_update.specs.declared.settling.SettleOutcome.{SettleOutcome};

use crate::{Need, SettleOutcome, Source, need_of, settle, withdraw};
use disk_model::Disk;
use mot_numbers::Refusal;
use mot_objects::{Carousel, Item, Name};
use mot_playout::Server;
use std::alloc::Global;

/// Makes the carousel have what the source gives: objects whose names it does not know are
/// withdrawn, and then each object that it gives is settled. A refused command goes to the source,
/// and the look goes on. The error is what would end a run of commands, `OutOfMemory`, and
/// `DeviceFault` if a body on the disk can't be read, which does not halt the server.
pub fn look<D: Disk, S: Source>(
    server: &mut Server<D>,
    alloc: Global,
    source: &mut S,
) -> Result<(), Refusal>
    requires { are_names_distinct (S.names source.old) ≡ true }
    ensures keeps { KeepsLength (D.state server.old.disk) (D.state server.new.disk) }
    ensures faults { TellsFaults server.old server.new
        (D.state server.old.disk) (D.state server.new.disk) result }
    ensures looked { (s : Standing) → Holds server.old.view s (D.state server.old.disk)
        → (D.state server.new.disk).IsHonest
        → (looked : HasLooked server.old server.new
        (D.state server.old.disk) (D.state server.new.disk) s
        (S.names source.old) (S.place source.old) (S.given source.old) (S.given source.new)
        (S.is_fine source.new) (fault_of result))
        × TellsSince (S.was_told source.old) (S.was_told source.new) looked.runs.answers
        looked.wanted }

    // If it came to its end, all names were gone over.
    ensures ended { OnOk result (length (S.names source.new) ≤ S.place source.new) }
    ensures same { S.names source.new ≡ S.names source.old }
    ensures fine { S.is_fine source.new ≡ true → S.is_fine source.old ≡ true }
{
    let names = names_to_withdraw(alloc, server.carousel(), source)?;
    withdraw_these(server, alloc, source, &names)?;
    settle_all(server, alloc, source)
}

/// The names of the objects that the source does not know.
fn names_to_withdraw<S: Source>(
    alloc: Global,
    carousel: &Carousel,
    source: &S,
) -> Result<Vec<Name>, Refusal>
    ensures names { IfOk result
        (λ names. names.items ≡ unknown_names (S.names source.now) carousel.now.objects.items) }
    ensures fault { IfErr result (λ refusal. refusal ≡ OutOfMemory) }
{
    let mut names = Vec::new(alloc);
    for object in &carousel.objects {
        if !source.knows(&object.name) {
            names.push(object.name.clone()?)?;
        }
    }
    Ok(names)
}

/// Withdraws the objects of these names.
fn withdraw_these<D: Disk, S: Source>(
    server: &mut Server<D>,
    alloc: Global,
    source: &mut S,
    names: &[Name],
) -> Result<(), Refusal>
    ensures keeps { KeepsLength (D.state server.old.disk) (D.state server.new.disk) }
    ensures faults { TellsFaults server.old server.new
        (D.state server.old.disk) (D.state server.new.disk) result }
    ensures same { S.names source.new ≡ S.names source.old }
    ensures stays { S.place source.new ≡ S.place source.old }
    ensures gives { Gives (S.given source.old) (S.given source.new) [] }
    ensures runs { (s : Standing) → Holds server.old.view s (D.state server.old.disk)
        → (D.state server.new.disk).IsHonest
        → (runs : RunsThrough server.old server.new
        (D.state server.old.disk) (D.state server.new.disk) s
        (withdraw_all names.now) (S.is_fine source.new) (fault_of result))
        × TellsSince (S.was_told source.old) (S.was_told source.new) runs.answers [] }
    ensures fine { S.is_fine source.new ≡ true → S.is_fine source.old ≡ true }
{
    for name in names {
        let attempt = withdraw(server, alloc, name.clone()?)?;
        source.withdrew(name, attempt);
    }
    Ok(())
}

/// Settles each object that the source gives.
fn settle_all<D: Disk, S: Source>(
    server: &mut Server<D>,
    alloc: Global,
    source: &mut S,
) -> Result<(), Refusal>
    requires { are_names_distinct (S.names source.old) ≡ true }
    ensures keeps { KeepsLength (D.state server.old.disk) (D.state server.new.disk) }
    ensures faults { TellsFaults server.old server.new
        (D.state server.old.disk) (D.state server.new.disk) result }
    ensures settled { (s : Standing) → Holds server.old.view s (D.state server.old.disk)
        → (D.state server.new.disk).IsHonest
        → (settled : HasSettled server.old server.new
        (D.state server.old.disk) (D.state server.new.disk) s
        (S.names source.old) (S.place source.old) (S.given source.old) (S.given source.new)
        (S.is_fine source.new) (fault_of result))
        × TellsSince (S.was_told source.old) (S.was_told source.new) settled.runs.answers
        settled.wanted }
    ensures ended { OnOk result (length (S.names source.new) ≤ S.place source.new) }
    ensures same { S.names source.new ≡ S.names source.old }
    ensures fine { S.is_fine source.new ≡ true → S.is_fine source.old ≡ true }
{
    loop {
        let Some(wanted) = source.next(alloc) else {
            return Ok(());
        };
        let Some(settled) = settle_taken(server, alloc, source, wanted)? else {
            continue;
        };
        source.settled(settled);
    }
}

/// Settles the object that the source offered, if the source gives it. If the carousel lacks it, and
/// has room for it, the source makes it last before.
fn settle_taken<D: Disk, S: Source>(
    server: &mut Server<D>,
    alloc: Global,
    source: &mut S,
    wanted: Item,
) -> Result<Option<SettleOutcome>, Refusal>
    requires { S.last source.old ≡ wanted.name }
    ensures keeps { KeepsLength (D.state server.old.disk) (D.state server.new.disk) }
    ensures faults { TellsFaults server.old server.new
        (D.state server.old.disk) (D.state server.new.disk) result }

    // If it is not given, nothing is done for it.
    ensures run { (s : Standing) → Holds server.old.view s (D.state server.old.disk)
        → (D.state server.new.disk).IsHonest
        → HasRun server.old server.new (D.state server.old.disk) (D.state server.new.disk) s
        (commands_if result s.carousel.objects wanted) (marks_if result) (fault_of result) }
    ensures right { (s : Standing) → Holds server.old.view s (D.state server.old.disk)
        → (D.state server.new.disk).IsHonest
        → IsDoneRightly server.old.view.journal.layout s wanted result }
    ensures source { (S.names source.new ≡ S.names source.old)
        × (S.place source.new ≡ S.place source.old) × (S.last source.new ≡ S.last source.old) }
    ensures gives { Gives (S.given source.old) (S.given source.new) (given_if result wanted) }
    ensures told { TellsSince (S.offers source.old wanted) (S.was_told source.new) []
        (given_if result wanted) }
    ensures fine { S.is_fine source.new ≡ true
        → (S.is_fine source.old ≡ true) × (result ≢ Ok None) }

    // What was stored was made to last.
    ensures lasts { (settled : SettleOutcome) → result ≡ Ok (Some settled) → was_stored settled ≡ true
        → S.lasts source.new }
{
    let need = need_of(server, &wanted);
    if !source.take(&wanted, comes_in(server, need, &wanted)) {
        return Ok(None);
    }
    let settled = settle(server, alloc, wanted, need?)?;
    Ok(Some(settled))
}

/// Whether the object comes into the carousel: a command is needed, and there is room for what it
/// brings. What could not be stored is not made to last: it would be again at each look.
fn comes_in<D: Disk>(server: &Server<D>, need: Result<Need, Refusal>, wanted: &Item) -> bool
    ensures needed { result ≡ true → is_command need ≡ true }
    ensures room { (n : Need) → need ≡ Ok n → HasRoomFor server.now.view n wanted.now
        → result ≡ true }
{
    match need {
        Ok(Need::Put) => has_place(server) && has_gap(server, wanted),
        Ok(Need::Replace) => has_gap(server, wanted),
        Ok(Need::Nothing) | Err(_) => false,
    }
}

/// Whether there may be one object more.
fn has_place<D: Disk>(server: &Server<D>) -> bool
    ensures { length server.now.view.carousel.objects.items
        < server.now.view.journal.geometry.objects → result ≡ true }
{
    server.carousel().objects.len() < usize::from(server.geometry().objects)
}

/// Whether a gap holds the body.
fn has_gap<D: Disk>(server: &Server<D>, wanted: &Item) -> bool
    ensures { HasGapFor server.now.view (length wanted.now.body) → result ≡ true }
{
    wanted.body.length().get() <= server.longest_gap()
}
