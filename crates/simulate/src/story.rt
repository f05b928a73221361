//! The story of a seed: a disk is made, the program lives and dies on it, and comes to a calm end. After
//! each life the disk is compared with what an operator was told.
use crate::air::Air;
use crate::asking::ask_all;
use crate::commands::{Command, Manner};
use crate::counting::Counted;
use crate::ending::end;
use crate::hearing::hear;
use crate::living::{Life, run};
use crate::model::{Model, Open};
use crate::status::judge_whole;
use crate::stop::{Stop, Wrong, ask, held};
use crate::texts::{BODIES, LINES, NAMES, OBJECTS};
use mot_files::Kind;
use mot_memory_files::{Call, Plan, World, add_reached};
use std::alloc::{AllocError, Global};
use std::cell::RefCell;

/// A life that makes so many calls has no end.
pub const LONGEST: u64 = 200_000;

/// What a seed came to.
#[derive(Drop)]
pub struct Outcome {
    pub wrong: Option<Wrong>,
    pub counted: Counted,
    pub trace: Vec<u8>,
}

/// A story under way.
#[derive(Drop)]
pub struct Story<'a> {
    pub alloc: Global,
    pub world: &'a RefCell<World>,
    pub model: Model,
    pub air: Air,
    pub counted: Counted,
    /// Whether the disk has room for few objects.
    pub is_tight: bool,
    /// Whether the time of day has jumped.
    pub has_jumped: bool,
    /// Whether a file may have a time to come.
    is_ahead: bool,
    /// How far the disk may still be from what was told once the power goes: what a life that was cut
    /// off has written may be synced by the next opening alone.
    loose: Open,
    /// How far the next opening may take it from what was told: after a sync that failed the system may
    /// have forgotten what was written.
    pub doubt: Open,
}

/// Where a status is written first.
const BESIDE: &str = "status.prom.new";

/// What there was before a life.
#[derive(Clone, Copy)]
struct Before {
    has_text: bool,
    /// How many removals and makings, and questions for the time of day, were refused.
    removals: u64,
    times: u64,
}

impl Before {
    fn of(w: &World) -> Before {
        Before {
            has_text: w.node_of(BESIDE).is_some(),
            removals: failed_beside(w),
            times: w.times_failed(Call::Now),
        }
    }
}

/// How a life ended.
#[derive(Clone, Copy, PartialEq, Eq)]
enum End {
    Exit,
    Kill,
    PowerCut,
}

/// Tells the story of a seed.
pub fn tell(alloc: Global, seed: u64, is_traced: bool) -> Result<Outcome, AllocError> {
    let mut world = World::new(alloc, seed);
    world.is_traced = is_traced;
    furnish(&mut world)?;
    let world = RefCell::new(world);
    let mut outcome = Outcome {
        wrong: None,
        counted: Counted::new(alloc)?,
        trace: Vec::new(alloc),
    };
    match tell_on(alloc, &world, &mut outcome) {
        Ok(()) => {}
        Err(Stop::Wrong(wrong)) => outcome.wrong = Some(wrong),
        Err(Stop::NoMemory) => return Err(AllocError),
    }
    let world = world.into_inner();
    outcome.counted.calls = world.steps;
    add_reached(&mut outcome.counted.reached, world.reached.as_slice())?;
    outcome.trace = world.trace;
    Ok(outcome)
}

/// Tells it on this machine.
fn tell_on(alloc: Global, world: &RefCell<World>, outcome: &mut Outcome) -> Result<(), Stop> {
    let mut story = Story {
        alloc,
        world,
        model: Model::new(alloc),
        air: Air::new(alloc),
        counted: Counted::new(alloc)?,
        is_tight: false,
        has_jumped: false,
        is_ahead: false,
        loose: Open::Nothing,
        doubt: Open::Nothing,
    };
    let ended = story.lives();
    outcome.counted.add(&story.counted)?;
    outcome.counted.packets = story.air.packets;
    outcome.counted.bodies = story.air.bodies;
    ended
}

/// The folders with some files, and the pipe.
fn furnish(world: &mut World) -> Result<(), AllocError> {
    world.names = OBJECTS;
    world.texts = BODIES;
    world.line_names = NAMES;
    world.line_texts = LINES;
    for folder in [".", "objects", "lines"] {
        world.place_other(folder, Kind::Folder)?;
    }
    world.place_other("packets", Kind::Pipe)?;
    world.place_file("objects/a.txt", b"gggggggggggggggg")?;
    world.place_file("objects/b.txt", b"hhhhhhhhhhhhhhhhhhhhhhhhhhhhhh")?;
    world.place_file("objects/c.png", b"iiii")?;
    world.place_other("objects/d.txt", Kind::Link)?;
    for (name, most) in NAMES.iter().zip([1, 4, 6]) {
        let at = world.any(most) as usize;
        if let Some(text) = LINES.get(at) {
            world.place_file(name, text)?;
        }
    }
    world.make_all_firm()?;
    world.clock = world.clock.wrapping_add(10_000_000_000);
    Ok(())
}

impl<'a> Story<'a> {
    fn lives(&mut self) -> Result<(), Stop> {
        self.format()?;
        let count = held(self.world)?.any(4);
        for _ in 0..=count {
            self.live()?;
        }
        end(self)
    }

    /// Draws how the disk is made, and whether that may be cut off.
    fn draw_format(&mut self) -> Result<(bool, [&'static str; 12]), Stop> {
        let mut w = held(self.world)?;
        self.is_tight = w.any(4) == 0;
        let is_stormy = w.any(4) == 0;
        if is_stormy {
            let plan = plan_of(&mut w);
            w.plan = Plan {
                changes: 0,
                jumps: 0,
                ..plan
            };
        }
        let (objects, data) = match self.is_tight {
            true => ("4", "140"),
            false => ("12", "6000"),
        };
        let packet = if w.any(3) == 0 { "24" } else { "96" };
        // The ids begin again at 1 soon in some stories.
        let after = if w.any(3) == 0 { "65500" } else { "0" };
        Ok((
            is_stormy,
            [
                "format",
                "--objects",
                objects,
                "--segment",
                "64",
                "--data",
                data,
                "--packet",
                packet,
                "--after",
                after,
                "d.disk",
            ],
        ))
    }

    /// The disk is made. If that is cut off, an operator removes what it left, and makes it again.
    fn format(&mut self) -> Result<(), Stop> {
        let (is_stormy, words) = self.draw_format()?;
        let life = run(self.world, self.alloc, &words, b"")?;
        let is_told = life.log.shown.starts_with(b"formatted");
        ask(
            is_stormy || (is_told && life.status == 0),
            "format is refused",
        )?;
        let _end = self.end_life()?;
        if !is_told {
            self.remove("d.disk", "d.disk-wal")?;
            let life = run(self.world, self.alloc, &words, b"")?;
            ask(life.status == 0, "format is refused where nothing is")?;
            held(self.world)?.exit();
        }
        let w = held(self.world)?;
        self.model.compare(&w, "d.disk", Open::Nothing)
    }

    /// An operator removes files, for good.
    fn remove(&self, first: &str, second: &str) -> Result<(), Stop> {
        let mut w = held(self.world)?;
        w.take_path_firmly(first)?;
        w.take_path_firmly(second)?;
        Ok(())
    }

    /// A life in which files come and go, and calls fail, and at some moment the machine may die.
    fn live(&mut self) -> Result<(), Stop> {
        let mut manner = begin_life(&mut *held(self.world)?)?;
        self.has_jumped = self.has_jumped || manner.jumps;
        manner.jumps = self.has_jumped;
        self.spare_young(manner)?;
        self.counted.begin(manner.place());
        let words = manner.words(self.alloc)?;
        let before = Before::of(&*held(self.world)?);
        let life = run(
            self.world,
            self.alloc,
            words.as_slice(),
            manner.input_text(),
        )?;
        self.judge_life(&life, manner, before)?;
        let is_cut = held(self.world)?.is_dead() || life.has_device_fault();
        let open = open_after(is_cut, manner).or(self.loose);
        let _end = self.end_life()?;
        self.compare(open)?;
        if manner.command == Command::Copy {
            self.judge_copy(&life)?;
        }
        if held(self.world)?.any(4) == 0 {
            ask_all(self.alloc, self.world, "d.disk")?;
        }
        Ok(())
    }

    /// Two changes in place within one tick of the clock cannot be seen. Where files may be taken that
    /// are young, or seem old by a time to come, none is changed in place by a coarse clock.
    fn spare_young(&mut self, manner: Manner) -> Result<(), Stop> {
        let mut w = held(self.world)?;
        let plan = w.plan;
        self.is_ahead = self.is_ahead || manner.jumps || plan.future != 0;
        let knows_times = plan.faults == 0 && plan.outage == 0;
        if plan.grain != 1 && (manner.at_once || self.is_ahead || !knows_times) {
            w.plan.in_place = false;
        }
        Ok(())
    }

    /// What was told, shown and sent in a life, before the machine is anything else.
    fn judge_life(&mut self, life: &Life<'_>, manner: Manner, before: Before) -> Result<(), Stop> {
        let mut w = held(self.world)?;
        // A file is not young where the time of day is not known.
        let manner = Manner {
            jumps: manner.jumps || w.times_failed(Call::Now) != before.times,
            ..manner
        };
        hear(self.alloc, &mut w, &mut self.model, life, manner)?;
        judge_whole(&w)?;
        let may_be_left = before.has_text || w.is_dead() || failed_beside(&w) != before.removals;
        ask(
            may_be_left || w.node_of(BESIDE).is_none(),
            "a text is left beside the status",
        )?;
        let _received = self.air.take(&mut w)?;
        Ok(())
    }

    /// Compares the disk with what was told, after a life.
    fn compare(&mut self, open: Open) -> Result<(), Stop> {
        let w = held(self.world)?;
        self.model.compare(&w, "d.disk", open)?;
        self.loose = match w.node_of("d.disk") {
            Some(node) if node.is_loose => open,
            _ => Open::Nothing,
        };
        self.doubt = match w.node_of("d.disk") {
            Some(node) if node.is_doubtful => open,
            _ => Open::Nothing,
        };
        Ok(())
    }

    /// What a copy left. Sometimes it takes the disk's place.
    fn judge_copy(&mut self, life: &Life<'_>) -> Result<(), Stop> {
        let is_told = life.log.shown.starts_with(b"copied");
        if is_told {
            let mut w = held(self.world)?;
            self.model.compare(&w, "n.disk", Open::Nothing)?;
            if w.any(2) == 0
                && let Some(bytes) = w.file_at("n.disk")
            {
                let bytes = Vec::from_slice(self.alloc, bytes)?;
                w.place_firm("d.disk", bytes.as_slice())?;
            }
        }
        self.remove("n.disk", "n.disk-wal")
    }

    /// The life is over: the program ended, was killed, or the power went.
    fn end_life(&mut self) -> Result<End, Stop> {
        let mut w = held(self.world)?;
        let end = match (w.is_dead(), w.any(4)) {
            (true, 0) => End::Kill,
            (true, _) | (false, 1) => End::PowerCut,
            _ => End::Exit,
        };
        match end {
            End::Exit => w.exit(),
            End::Kill => {
                self.counted.kills = self.counted.kills.wrapping_add(1);
                w.note(b"  KILL\n");
                w.exit();
            }
            End::PowerCut => {
                self.counted.crashes = self.counted.crashes.wrapping_add(1);
                w.note(b"  POWER CUT\n");
                w.crash()?;
                // It may be anything now, by what the manual says.
                w.take_path_firmly("status.prom")?;
            }
        }
        w.plan = Plan::calm();
        Ok(end)
    }
}

/// How many calls failed by which a text may be left beside the status.
fn failed_beside(w: &World) -> u64 {
    w.times_failed(Call::Remove)
        .wrapping_add(w.times_failed(Call::OpenNew))
}

/// How far the disk may be from what was told, after a life that was cut off or not.
fn open_after(is_cut: bool, manner: Manner) -> Open {
    match manner.command {
        _ if !is_cut => Open::Nothing,
        Command::TrySync | Command::Copy => Open::Nothing,
        Command::Serve | Command::PlayLines => Open::OneCommand,
        _ => Open::OneLook,
    }
}

/// Draws how a life is, and when it ends.
fn plan_of(w: &mut World) -> Plan {
    let (stop, disk_stop) = match w.any(4) {
        0 => {
            let most = w.one_of([40, 150, 400, 1_000]);
            (w.steps.wrapping_add(1).wrapping_add(w.any(most)), 0)
        }
        1 => {
            let most = w.one_of([12, 40, 100, 200]);
            (0, w.disk_steps.wrapping_add(1).wrapping_add(w.any(most)))
        }
        _ => (w.steps.wrapping_add(LONGEST), 0),
    };
    Plan {
        changes: w.one_of([0, 4, 10, 40]),
        until: 0,
        faults: w.one_of([0, 0, 12, 60]),
        disk_faults: w.one_of([0, 0, 0, 60]),
        piece: w.one_of([10, 10, 40, 0]),
        step: w.one_of([1_000, 1_000_000, 30_000_000, 300_000_000]),
        grain: w.one_of([1, 1, 4_000_000, 1_000_000_000]),
        stop,
        disk_stop,
        disk_fault_at: if w.any(6) == 0 {
            w.disk_steps.wrapping_add(1).wrapping_add(w.any(60))
        } else {
            0
        },
        listing_faults: w.one_of([0, 0, 3, 10]),
        read_faults: w.one_of([0, 0, 4, 12]),
        jumps: if w.any(10) == 0 { 40 } else { 0 },
        packets: w.one_of([10, 30, 100, 200]),
        cuts: w.one_of([0, 0, 0, 30]),
        in_place: w.any(2) == 0,
        ..storm_of(w)
    }
}

/// Draws what else may go wrong in a life.
fn storm_of(w: &mut World) -> Plan {
    let outage = match w.any(12) {
        0 => w.steps.wrapping_add(1).wrapping_add(w.any(400)),
        _ => 0,
    };
    Plan {
        outage,
        outage_len: w.one_of([1, 10, 60, 400]),
        late: w.one_of([0, 0, 0, 30]),
        busy: w.one_of([0, 0, 0, 4]),
        listing_changes: w.one_of([0, 0, 3, 10]),
        doubles: w.one_of([0, 0, 2, 6]),
        disk_read_faults: w.one_of([0, 0, 0, 80]),
        disk_write_faults: w.one_of([0, 0, 0, 40]),
        disk_sync_faults: w.one_of([0, 0, 0, 20]),
        room: w.one_of([u64::MAX, u64::MAX, u64::MAX, 2_000]),
        future: w.one_of([0, 0, 0, 8]),
        permissions: w.any(3) == 0,
        stale: w.any(3) == 0,
        torn: w.any(2) == 0,
        unable: w.any(12) == 0,
        numbers_again: w.any(3) != 0,
        ..Plan::calm()
    }
}

/// Draws a life.
fn begin_life(w: &mut World) -> Result<Manner, AllocError> {
    let mut plan = plan_of(w);
    // Where reads alone break off, and files are read in large pieces, no line may be read twice.
    let is_exact = w.any(10) == 0;
    if is_exact {
        plan = Plan {
            changes: 0,
            faults: 0,
            piece: 0,
            listing_faults: 0,
            read_faults: 3,
            outage: 0,
            late: 0,
            busy: 0,
            listing_changes: 0,
            room: u64::MAX,
            stale: false,
            ..plan
        };
    }
    let mut manner = Manner::drawn(w);
    manner.is_still = plan.changes == 0 && plan.listing_changes == 0 && !plan.unable;
    manner.is_exact = is_exact;
    manner.jumps = plan.jumps != 0;
    // Sometimes a file comes just before, by a writer that syncs nothing.
    if w.any(2) == 0 {
        w.place_file("objects/a.txt", b"kkkkkkkkkkkkkkkkkkkk")?;
        w.clock = w.clock.wrapping_add(5_000_000_000);
    }
    w.plan = plan;
    Ok(manner)
}
