//! Answering what there is of an inlet.
ghost use Rattle.std.specs.Prelude.{◌≡◌, ◌++◌, ◌∷◌, [], ℕ, List, None, IfNone, IfSome, ⊤};
ghost use Rattle.disk_model.specs.Disk.{KeepsLength};
ghost use Rattle.mot_feed_lines.specs.Answering.{TellsLines};
ghost use Rattle.mot_feed_lines.specs.Inner.{AnswersMore, HasAnswered, end_of};
ghost use Rattle.mot_update.specs.HasRun.{IsUpdating};
ghost use Rattle.mot_playout.specs.Attempts.{fault_of};
ghost use Rattle.mot_journal.specs.Image.{Standing};
ghost use Rattle.mot_lines.specs.Lines.{bytes_in_hand, rest_of};
ghost use Rattle.mot_lines.specs.Line.{line_of};
ghost use Rattle.mot_repository.specs.Repository.{Holds};
ghost use Rattle.mot_session.specs.Session.{command_in};
ghost use Rattle.mot_update.specs.Faults.{TellsFaults};

use crate::intake::Intake;
use crate::telling::{show, tell_attempt, tell_refused};
use disk_model::Disk;
use mot_events::{Inlet, Tells, Why};
use mot_lines::{Line, cut_at_line_end, parse_line};
use mot_numbers::Refusal;
use mot_objects::Command;
use mot_playout::{Attempt, Server};
use mot_session::READ_SIZE;
use std::alloc::Global;

/// Answers what there is of an inlet now, in one read of at most 4,096 bytes: each line that ends
/// in it as `serve_line` does, except that a `next` and a `turn` line are refused `BadLine`. The
/// bytes after the last line end stay in hand. An inlet that gives nothing ends nothing, nor does a
/// command for which memory runs out. The errors are `DeviceFault` and `Halted`, those of the last
/// line that was answered; the rest of what was read is lost.
pub fn answer_there<R: Inlet, T: Tells, D: Disk>(
    alloc: Global,
    reader: &mut R,
    intake: &mut Intake,
    log: &mut T,
    server: &mut Server<D>,
) -> Result<(), Refusal>
    ensures keeps { KeepsLength (D.state server.old.disk) (D.state server.new.disk) }
    ensures faults { TellsFaults server.old server.new
        (D.state server.old.disk) (D.state server.new.disk) result }
    ensures run { (s : Standing) → Holds server.old.view s (D.state server.old.disk)
        → (D.state server.new.disk).IsHonest
        → IsUpdating (λ _. TellsLines R.gave intake.old.hand intake.new.hand
        (R.view reader.old) (R.view reader.new)) server.old server.new
        (D.state server.old.disk) (D.state server.new.disk) s (fault_of result) }
{
    let mut chunk = [0u8; READ_SIZE];
    let count = reader.read(&mut chunk, &mut intake.count, log);
    answer_chunk(alloc, &chunk[..count], intake, log, server)
}

/// Answers each line that ends in the chunk, and keeps the rest in hand.
fn answer_chunk<T: Tells, D: Disk>(
    alloc: Global,
    chunk: &[u8],
    intake: &mut Intake,
    log: &mut T,
    server: &mut Server<D>,
) -> Result<(), Refusal>
    ensures keeps { KeepsLength (D.state server.old.disk) (D.state server.new.disk) }
    ensures faults { TellsFaults server.old server.new
        (D.state server.old.disk) (D.state server.new.disk) result }
    ensures run { (s : Standing) → Holds server.old.view s (D.state server.old.disk)
        → (D.state server.new.disk).IsHonest
        → IsUpdating (λ _ _ _ _. ⊤) server.old server.new
        (D.state server.old.disk) (D.state server.new.disk) s (fault_of result) }
    ensures answered { (input : List ℕ) → intake.old.hand ≡ bytes_in_hand (rest_of input)
        → AnswersMore D.state server.old server.new input (input ++ chunk.now) (fault_of result) }
    ensures in_hand { fault_of result ≡ None
        → (input : List ℕ) → intake.old.hand ≡ bytes_in_hand (rest_of input)
        → intake.new.hand ≡ bytes_in_hand (rest_of (input ++ chunk.now)) }
{
    let mut rest = chunk;
    while let Some((line, next)) = cut_at_line_end(rest) {
        intake.hand.add(line);
        answer_line(alloc, intake, log, server)?;
        intake.hand.clear();
        rest = next;
    }
    intake.hand.add(rest);
    Ok(())
}

/// Answers the line in hand.
fn answer_line<T: Tells, D: Disk>(
    alloc: Global,
    intake: &mut Intake,
    log: &mut T,
    server: &mut Server<D>,
) -> Result<(), Refusal>
    ensures keeps { KeepsLength (D.state server.old.disk) (D.state server.new.disk) }
    ensures faults { TellsFaults server.old server.new
        (D.state server.old.disk) (D.state server.new.disk) result }
    ensures run { (s : Standing) → Holds server.old.view s (D.state server.old.disk)
        → (D.state server.new.disk).IsHonest
        → IsUpdating (λ _ _ _ _. ⊤) server.old server.new
        (D.state server.old.disk) (D.state server.new.disk) s (fault_of result) }
    ensures answered { (line : List ℕ) → intake.old.hand ≡ bytes_in_hand line
        → HasAnswered D.state server.old server.new (command_in (line_of line))
        (fault_of result) }
    ensures hand { intake.new.hand ≡ intake.old.hand }
{
    intake.count.add();
    let request = parse_line(alloc, intake.hand.as_slice());
    answer_request(alloc, &request, intake, log, server)
}

/// Answers what a line was parsed to ask for.
fn answer_request<T: Tells, D: Disk>(
    alloc: Global,
    request: &Result<Line, Refusal>,
    intake: &Intake,
    log: &mut T,
    server: &mut Server<D>,
) -> Result<(), Refusal>
    ensures keeps { KeepsLength (D.state server.old.disk) (D.state server.new.disk) }
    ensures faults { TellsFaults server.old server.new
        (D.state server.old.disk) (D.state server.new.disk) result }
    ensures answered { HasAnswered D.state server.old server.new (command_in request.now)
        (fault_of result) }
{
    match command_of(request) {
        Some(command) => answer_command(alloc, command, intake, log, server),
        None => {
            show(alloc, request, intake, log, server);
            Ok(())
        }
    }
}

/// The command that is asked for, if one is.
fn command_of(request: &Result<Line, Refusal>) -> Option<&Command>
    ensures some { IfSome result (λ command. command_in request.now ≡ command.now ∷ []) }
    ensures none { IfNone result (command_in request.now ≡ []) }
{
    match request {
        Ok(Line::Command(command)) => Some(command),
        Ok(Line::List | Line::Raw { .. } | Line::Next(_) | Line::Turn) | Err(_) => None,
    }
}

/// Does a command, and then answers what became of it.
fn answer_command<T: Tells, D: Disk>(
    alloc: Global,
    command: &Command,
    intake: &Intake,
    log: &mut T,
    server: &mut Server<D>,
) -> Result<(), Refusal>
    ensures keeps { KeepsLength (D.state server.old.disk) (D.state server.new.disk) }
    ensures faults { TellsFaults server.old server.new
        (D.state server.old.disk) (D.state server.new.disk) result }
    ensures answered { HasAnswered D.state server.old server.new (command.now ∷ [])
        (fault_of result) }
{
    if server.halted() {
        tell_refused(intake, log, Refusal::Halted, &Why::Unsaid);
        return Err(Refusal::Halted);
    }
    let attempt = server.attempt(alloc, command);
    tell_attempt(intake, log, &attempt);
    ended(attempt)
}

/// What a command ends. Running out of memory ends nothing.
fn ended(attempt: Result<Attempt, Refusal>) -> Result<(), Refusal>
    ensures { fault_of result ≡ end_of attempt }
{
    match attempt {
        Ok(_) => Ok(()),
        Err(Refusal::OutOfMemory) => Ok(()),
        Err(refusal) => Err(refusal),
    }
}
