//! Lines between the packets of a feed.
ghost use Rattle.std.specs.Prelude.{◌≡◌, ◌<◌, ◌-◌, ◌↔◌, [], ℕ, IsTrue, List, OnOk};
ghost use Rattle.disk_model.specs.Disk.{KeepsLength};
ghost use Rattle.mot_feed_lines.specs.Answering.{TellsOnTime};
ghost use Rattle.mot_update.specs.HasRun.{IsUpdating};
ghost use Rattle.mot_playout.specs.Attempts.{fault_of};
ghost use Rattle.mot_journal.specs.Image.{Standing};
ghost use Rattle.mot_lines.specs.Lines.{bytes_in_hand};
ghost use Rattle.mot_repository.specs.Repository.{Holds};
ghost use Rattle.mot_update.specs.Faults.{TellsFaults};

use crate::answering::answer_there;
use crate::intake::Intake;
use crate::reported::WatchedUpdate;
use disk_model::Disk;
use mot_events::{Inlet, LineCount};
use mot_lines::Hand;
use mot_numbers::Refusal;
use mot_playout::Server;
use mot_update::{LookHistory, Update, UpdatePoint, Watch};
use std::alloc::Global;

/// Answers lines between packets: at its first call, before the first packet, and then at one call
/// of every so many it answers what there is of the inlet, in one read, as `answer_there` does. At
/// each call another update is called first, which is watched; what watches it is told of lines, too.
#[derive(Drop)]
pub struct Lines<R: Inlet + Drop, U: Update + LookHistory + Drop, T: Watch + Drop> {
    /// What gives the lines.
    pub reader: R,
    /// What has come of them.
    pub intake: Intake,
    /// The other update.
    pub reported: WatchedUpdate<U, T>,
    /// How many updates come between two that read.
    pub between: u32,
    /// How many updates come before the next that reads.
    pub left: u32,
}

impl<R: Inlet + Drop, U: Update + LookHistory + Drop, T: Watch + Drop> Lines<R, U, T> {
    /// Nothing was read but what is in hand. 0 packets count as 1.
    pub fn new(
        alloc: Global,
        reader: R,
        hand: Hand,
        every: u32,
        reported: WatchedUpdate<U, T>,
    ) -> Lines<R, U, T>
        ensures given { (result.reader ≡ reader) × (result.intake.hand ≡ hand)
            × (result.reported ≡ reported) }
        ensures due { result.left ≡ 0 }
        ensures every { result.between ≡ every - 1 }
    {
        Lines {
            reader,
            intake: Intake {
                hand,
                count: LineCount::new(alloc),
            },
            reported,
            between: every.saturating_sub(1),
            left: 0,
        }
    }

    /// What gives the lines, the other update, and what was told of both.
    pub fn into_parts(self) -> (R, U, T)
        ensures reader { result.0 ≡ self.reader }
        ensures update { result.1 ≡ self.reported.update }
        ensures watch { result.2 ≡ self.reported.watch }
    {
        let (update, watch) = self.reported.into_parts();
        (self.reader, update, watch)
    }

    /// Whether each line of which something was read was read to its end, and so was answered.
    pub fn is_answered(&self) -> bool
        ensures { (line : List ℕ) → self.now.intake.hand ≡ bytes_in_hand line
            → (IsTrue result ↔ (line ≡ [])) }
    {
        self.intake.hand.is_empty()
    }
}

impl<R: Inlet + Drop, U: Update + LookHistory + Drop, T: Watch + Drop> Update for Lines<R, U, T> {
    // What the other update tells; and, where a read was due, what the lines do after it.
    ghost tells = { λ old new moment. TellsOnTime R.gave
        old.between new.between old.left new.left old.intake.hand new.intake.hand
        (R.view old.reader) (R.view new.reader)
        (U.tells old.reported.update new.reported.update moment) };

    fn update<D: Disk>(
        &mut self,
        server: &mut Server<D>,
        alloc: Global,
        moment: UpdatePoint,
        sent: u64,
    ) -> Result<(), Refusal>
        ensures keeps { KeepsLength (D.state server.old.disk) (D.state server.new.disk) }
        ensures faults { TellsFaults server.old server.new
            (D.state server.old.disk) (D.state server.new.disk) result }
        ensures run { (s : Standing) → Holds server.old.view s (D.state server.old.disk)
            → (D.state server.new.disk).IsHonest
            → IsUpdating (TellsOnTime R.gave
            self.old.between self.new.between self.old.left self.new.left
            self.old.intake.hand self.new.intake.hand (R.view self.old.reader)
            (R.view self.new.reader)
            (U.tells self.old.reported.update self.new.reported.update moment))
            server.old server.new (D.state server.old.disk) (D.state server.new.disk) s
            (fault_of result) }

        // It reads if a read is due, and else it only counts.
        ensures counts { 0 < self.old.left → (self.new.reader ≡ self.old.reader)
            × (self.new.intake ≡ self.old.intake)
            × OnOk result (self.new.left ≡ self.old.left - 1) }
        ensures reads { self.old.left ≡ 0 → OnOk result (self.new.left ≡ self.old.between) }
    {
        self.reported.update(server, alloc, moment, sent)?;
        if self.left > 0 {
            self.left -= 1;
            return Ok(());
        }
        self.left = self.between;
        answer_there(
            alloc,
            &mut self.reader,
            &mut self.intake,
            &mut self.reported.watch,
            server,
        )
    }
}
