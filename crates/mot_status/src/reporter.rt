//! What is told of a disk while it is played: packets, turns, looks, the start and the end, and the
//! status.
use crate::clock::seconds_or;
use crate::figures::{VERSION, figures_of};
use crate::told::{hand, tell_written};
use crate::turn::{TurnMeasurement, measure};
use disk_model::Disk;
use mot_endpoints::StatusFile;
use mot_events::{Event, LookEvent, Tells};
use mot_files::{System, Time};
use mot_listening::TurnSize;
use mot_log::EventLog;
use mot_playout::Server;
use mot_update::{LookHistory, UpdatePoint, Watch};
use std::alloc::{AllocError, Global};
use std::io::Write;

/// After how many packets the status is written again.
const PACKETS: u64 = 1_000;

/// From how many seconds on a look took long.
const LONG: u64 = 2;

/// How many nanoseconds a second has.
const NANOS: u128 = 1_000_000_000;

/// Room for the text of a status. That of many objects or refused files takes more.
const ROOM: usize = 16_384;

/// What is told of a disk while it is played.
#[derive(Drop)]
pub struct Telling<'a, S: System + Drop> {
    /// The path of the disk.
    pub disk: &'a str,
    /// The file that the status is written to, if one is given.
    pub status: Option<StatusFile<'a, S>>,
    /// Whether lines of the log begin with their level.
    pub levels: bool,
}

/// What tells of a disk while it is played.
#[derive(Drop)]
pub struct Reporter<'a, S: System + Drop, W: Write + Drop> {
    /// The log, with the counts of what was told.
    pub log: EventLog<W>,
    /// The path of the disk.
    disk: &'a str,
    /// The file of the status, if one is given.
    status: Option<StatusFile<'a, S>>,
    /// The text of the status.
    text: Vec<u8>,
    /// Whether there was an update: one comes in front of each packet.
    has_begun: bool,
    /// How many looks were told.
    looks: u64,
    /// After how many packets the status is written again.
    next: u64,
    /// After how many packets there is news: none before the next status, if no look began and
    /// nothing was told.
    quiet_until: u64,
    /// What a turn takes, if that is known.
    size: Option<TurnMeasurement>,
    /// Of how many changes the time is known.
    changes: u64,
    /// When the last of them was made, in seconds since 1970; 0 if that is not known.
    last_change: u64,
    /// Whether the log says that the status is not written.
    is_unwritten: bool,
    /// When the last look began, if that is known.
    look_began: Option<Time>,
}

impl<'a, S: System + Drop, W: Write + Drop> Reporter<'a, S, W> {
    /// Nothing was told. If there is no memory for a text or a line now, it is taken as that comes.
    pub fn new(alloc: Global, log: W, telling: Telling<'a, S>) -> Reporter<'a, S, W> {
        let Telling {
            disk,
            status,
            levels,
        } = telling;
        let text = match Vec::with_capacity(alloc, ROOM) {
            Ok(text) => text,
            Err(AllocError) => Vec::new(alloc),
        };
        Reporter {
            log: EventLog::new(alloc, log, levels),
            disk,
            status,
            text,
            has_begun: false,
            looks: 0,
            next: 0,
            quiet_until: 0,
            size: None,
            changes: 0,
            last_change: 0,
            is_unwritten: false,
            look_began: None,
        }
    }

    /// Counts the packets up to the one that ended a turn; before the first turn tells which disk is
    /// played, by which program.
    #[inline(never)]
    fn begin_turn<D: Disk>(&mut self, server: &Server<D>, alloc: Global, sent: u64) {
        if self.has_begun {
            return self.log.counters.count_packets(sent, true);
        }
        self.has_begun = true;
        self.size = measure(self.size, server, alloc);
        let objects = server.carousel().objects.len() as u64;
        let packets = turn_packets(self.size);
        let disk = self.disk.as_bytes();
        self.log
            .tell(&Event::Began(VERSION, disk, objects, packets));
    }

    /// Tells what the last look met, if there was one since the last call.
    fn tell_looked<U: LookHistory>(&mut self, update: &U) {
        let is_new = update.looks() != self.looks;
        self.looks = update.looks();
        if is_new {
            self.log.tell_look(update.events(), update.events_before());
            self.tell_took(update.folder());
        }
    }

    /// Tells how long the last look took, if that was long and the time is known.
    fn tell_took(&mut self, folder: &str) {
        let (Some(began), Some(now)) = (self.look_began, time_of(&mut self.status)) else {
            return;
        };
        let seconds = now.nanos.saturating_sub(began.nanos) / NANOS;
        if let Ok(seconds) = u64::try_from(seconds)
            && seconds >= LONG
        {
            self.log.tell(&Event::LookTook(folder.as_bytes(), seconds));
        }
    }

    /// Notes when the last change was made, if there was one since the last call.
    fn note_changes(&mut self) {
        let grew = self.log.counters.changes != self.changes;
        self.changes = self.log.counters.changes;
        self.last_change = ask_time(&mut self.status, grew, self.last_change);
    }

    /// Tells what the last look met, if there was one since the last call; notes when the last
    /// change was made; and writes the status after a look, and if that is due.
    #[inline(never)]
    fn tell_news<D: Disk, U: LookHistory>(
        &mut self,
        server: &Server<D>,
        alloc: Global,
        update: &U,
    ) {
        let is_due = self.log.counters.packets >= self.next || update.looks() != self.looks;
        self.tell_looked(update);
        self.note_changes();
        if is_due {
            self.next = next_after(self.log.counters.packets);
            self.tell_status(server, alloc, update.events());
        }
        self.quiet_until = self.next;
    }

    /// Writes the status, if a file of it is given, and tells of a fault of it once.
    #[inline(never)]
    fn tell_status<D: Disk>(&mut self, server: &Server<D>, alloc: Global, events: &[LookEvent]) {
        self.size = measure(self.size, server, alloc);
        let Some(status) = &mut self.status else {
            return;
        };
        let now = seconds_or(status.now(), 0);
        let turn = turn_of(self.size);
        let figures = figures_of(self.disk, server, turn, self.last_change, now);
        let counters = &self.log.counters;
        let written = hand(status, &mut self.text, alloc, &figures, counters, events);
        let was = self.is_unwritten;
        self.is_unwritten = tell_written(&mut self.log, alloc, status.path, was, written);
    }

    /// Tells that so many turns were sent, which are all, and writes the status once more. The last
    /// packet, with which the last turn has ended, was taken since the last update, after which the
    /// last look had met this.
    pub fn tell_end<D: Disk>(
        &mut self,
        server: &Server<D>,
        alloc: Global,
        turns: u64,
        events: &[LookEvent],
    ) {
        if self.has_begun {
            let sent = self.log.counters.packets.saturating_add(1);
            self.log.counters.count_packets(sent, true);
        }
        let packets = self.log.counters.packets;
        self.log.tell(&Event::Ended(turns, packets));
        self.note_changes();
        self.tell_status(server, alloc, events);
    }
}

impl<'a, S: System + Drop, W: Write + Drop> Tells for Reporter<'a, S, W> {
    /// Counts an event, and writes its line to the log, if it has one.
    fn tell(&mut self, event: &Event<'_>) {
        self.quiet_until = 0;
        self.log.tell(event);
    }
}

impl<'a, S: System + Drop, W: Write + Drop> Watch for Reporter<'a, S, W> {
    /// At the first update tells that playing begins; at each other one counts the packets.
    #[inline(always)]
    fn begin<D: Disk>(
        &mut self,
        server: &Server<D>,
        alloc: Global,
        moment: UpdatePoint,
        sent: u64,
    ) {
        match moment {
            UpdatePoint::BetweenTurns => self.begin_turn(server, alloc, sent),
            UpdatePoint::AtLook | UpdatePoint::Within => {
                self.log.counters.count_packets(sent, false);
            }
        }
    }

    /// Notes when a look begins.
    #[inline(always)]
    fn begin_look(&mut self, is_look: bool) {
        if is_look {
            self.quiet_until = 0;
            self.look_began = time_of(&mut self.status);
        }
    }

    /// Tells what is due after an update: what the last look met, if there was one since, and the
    /// status after a look and after each 1,000 packets.
    #[inline(always)]
    fn end<D: Disk, U: LookHistory>(
        &mut self,
        server: &Server<D>,
        alloc: Global,
        update: &U,
        sent: u64,
    ) {
        if sent >= self.quiet_until {
            self.tell_news(server, alloc, update);
        }
    }
}

/// What a turn takes: nothing, if that is not known.
fn turn_of(size: Option<TurnMeasurement>) -> TurnSize {
    match size {
        Some(measured) => measured.turn,
        None => TurnSize::none(),
    }
}

/// How many packets a turn has, if that is known.
fn turn_packets(size: Option<TurnMeasurement>) -> Option<u64> {
    match size {
        Some(measured) => Some(measured.turn.packets),
        None => None,
    }
}

/// After how many packets the status is written again, once it was written after so many.
fn next_after(packets: u64) -> u64 {
    (packets - packets % PACKETS).saturating_add(PACKETS)
}

/// Asks the system for the time, if changes were made since it was asked last; the seconds of the
/// last change, which were these.
fn ask_time<S: System + Drop>(
    status: &mut Option<StatusFile<'_, S>>,
    grew: bool,
    seconds: u64,
) -> u64 {
    if !grew {
        return seconds;
    }
    seconds_or(time_of(status), seconds)
}

/// The time, if there is a system to be asked for it.
#[inline(never)]
fn time_of<S: System + Drop>(status: &mut Option<StatusFile<'_, S>>) -> Option<Time> {
    match status {
        Some(file) => file.now(),
        None => None,
    }
}
