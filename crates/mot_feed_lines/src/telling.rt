//! Telling what lines were answered.
use crate::asked::command_of;
use crate::intake::Intake;
use crate::reason::{refusal_of, why_of};
use disk_model::Disk;
use mot_events::{Event, Reply, Tells, Why};
use mot_lines::{Line, cut_at_line_end};
use mot_numbers::Refusal;
use mot_objects::Done;
use mot_playout::{Attempt, Server};
use mot_session::answer_reading;
use std::alloc::Global;

/// Tells that the command in hand was done.
fn tell_done<T: Tells>(intake: &Intake, log: &mut T, done: Done) {
    let (asked, subject) = command_of(intake.hand.as_slice());
    let (file, number) = (intake.count.file(), intake.count.number);
    log.tell(&Event::Answered(file, number, asked, subject, Reply::Done(done)));
}

/// Tells that the line in hand is refused, and why.
pub(crate) fn tell_refused<'x, T: Tells>(
    intake: &'x Intake,
    log: &mut T,
    refusal: Refusal,
    why: &'x Why,
) {
    let (asked, subject) = command_of(intake.hand.as_slice());
    let (file, number) = (intake.count.file(), intake.count.number);
    let reply = Reply::Refused(refusal, why);
    log.tell(&Event::Answered(file, number, asked, subject, reply));
}

/// Tells a line that the line in hand asks for.
fn tell_shown<'x, T: Tells>(intake: &'x Intake, log: &mut T, line: &'x [u8]) {
    let (asked, subject) = command_of(intake.hand.as_slice());
    let (file, number) = (intake.count.file(), intake.count.number);
    log.tell(&Event::Answered(file, number, asked, subject, Reply::Shown(line)));
}

/// Tells what became of the command in hand.
pub(crate) fn tell_attempt<T: Tells>(
    intake: &Intake,
    log: &mut T,
    attempt: &Result<Attempt, Refusal>,
) {
    match attempt {
        Ok(Attempt::Accepted(done)) => tell_done(intake, log, *done),
        Ok(Attempt::Refused(refusal)) => tell_refused(intake, log, *refusal, &Why::Unsaid),
        Err(refusal) => tell_refused(intake, log, *refusal, &Why::Unsaid),
    }
}

/// Tells the reply to a line that changes and plays nothing.
pub(crate) fn show<T: Tells, D: Disk>(
    alloc: Global,
    request: &Result<Line, Refusal>,
    intake: &Intake,
    log: &mut T,
    server: &Server<D>,
) {
    match refusal_of(request) {
        Some(refusal) => {
            let why = why_of(request, intake.hand.as_slice());
            tell_refused(intake, log, refusal, &why);
        }
        None => show_text(alloc, request, intake, log, server),
    }
}

/// Tells the lines that are asked for. If there is no memory for them, that is told in their place.
fn show_text<T: Tells, D: Disk>(
    alloc: Global,
    request: &Result<Line, Refusal>,
    intake: &Intake,
    log: &mut T,
    server: &Server<D>,
) {
    let mut text = Vec::new(alloc);
    match answer_reading(alloc, request, &mut text, server) {
        Ok(()) => show_lines(intake, log, text.as_slice()),
        Err(_) => tell_refused(intake, log, Refusal::OutOfMemory, &Why::Unsaid),
    }
}

/// Tells each line of a text.
fn show_lines<T: Tells>(intake: &Intake, log: &mut T, text: &[u8]) {
    let mut rest = text;
    while let Some((line, next)) = cut_at_line_end(rest) {
        tell_shown(intake, log, line);
        rest = next;
    }
    if rest.len() > 0 {
        tell_shown(intake, log, rest);
    }
}
