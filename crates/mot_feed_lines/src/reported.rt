//! Updates that are watched.
ghost use Rattle.std.specs.Prelude.{◌≡◌};
ghost use Rattle.disk_model.specs.Disk.{KeepsLength};
ghost use Rattle.mot_journal.specs.Image.{Standing};
ghost use Rattle.mot_repository.specs.Repository.{Holds};
ghost use Rattle.mot_playout.specs.Attempts.{fault_of};
ghost use Rattle.mot_update.specs.HasRun.{IsUpdating};
ghost use Rattle.mot_update.specs.Faults.{TellsFaults};

use disk_model::Disk;
use mot_numbers::Refusal;
use mot_playout::Server;
use mot_update::{LookHistory, Update, UpdatePoint, Watch};
use std::alloc::Global;

/// Updates that are watched. Nothing is changed by that.
#[derive(Drop)]
pub struct WatchedUpdate<U: Update + LookHistory + Drop, T: Watch + Drop> {
    /// The updates.
    pub update: U,
    /// What is told of them.
    pub watch: T,
}

impl<U: Update + LookHistory + Drop, T: Watch + Drop> WatchedUpdate<U, T> {
    /// The updates, and what was told of them.
    pub fn into_parts(self) -> (U, T)
        ensures update { result.0 ≡ self.update }
        ensures watch { result.1 ≡ self.watch }
    {
        (self.update, self.watch)
    }
}

impl<U: Update + LookHistory + Drop, T: Watch + Drop> Update for WatchedUpdate<U, T> {
    ghost tells = { λ old new moment. U.tells old.update new.update moment };

    #[inline(always)]
    fn update<D: Disk>(
        &mut self,
        server: &mut Server<D>,
        alloc: Global,
        moment: UpdatePoint,
        sent: u64,
    ) -> Result<(), Refusal>
        ensures keeps { KeepsLength (D.state server.old.disk) (D.state server.new.disk) }
        ensures faults { TellsFaults server.old server.new
            (D.state server.old.disk) (D.state server.new.disk) result }
        ensures run { (s : Standing) → Holds server.old.view s (D.state server.old.disk)
            → (D.state server.new.disk).IsHonest
            → IsUpdating (U.tells self.old.update self.new.update moment) server.old server.new
            (D.state server.old.disk) (D.state server.new.disk) s (fault_of result) }
    {
        self.watch.begin(server, alloc, moment, sent);
        self.watch.begin_look(self.update.is_due(moment));
        let result = self.update.update(server, alloc, moment, sent);
        self.watch.end(server, alloc, &self.update, sent);
        result
    }
}
