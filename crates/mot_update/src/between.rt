//! What changes a carousel between its packets.
ghost use Rattle.std.specs.Prelude.{◌≡◌, Bool, IsOk, List, [], Option, ⊤};
ghost use Rattle.disk_model.specs.Disk.{KeepsLength};
ghost use Rattle.mot_journal.specs.Image.{Standing};
ghost use Rattle.mot_numbers.specs.declared.refusal.Refusal.{Refusal};
ghost use Rattle.mot_objects.specs.Carousel.{Carousel};
ghost use Rattle.mot_objects.specs.declared.command.Command.{Command};
ghost use Rattle.mot_repository.specs.Repository.{Holds};
ghost use Rattle.mot_playout.specs.Attempts.{fault_of};
ghost use Rattle.mot_update.specs.HasRun.{IsUpdating};
ghost use Rattle.mot_update.specs.Faults.{TellsFaults};
ghost use Rattle.mot_update.specs.declared.moment.UpdatePoint.{UpdatePoint};

use crate::UpdatePoint;
use disk_model::Disk;
use mot_numbers::Refusal;
use mot_playout::Server;
use std::alloc::Global;

/// What changes a carousel between its packets, by commands.
pub trait Update {
    // What is told of a call that led from the one to the other, at this moment: the carousel that
    // it found, its commands, whether each was accepted, and what broke them off.
    ghost tells: { Self → Self → UpdatePoint → Carousel → List Command → List Bool → Option Refusal
        → Type 0 } = { λ _ _ _ _ _ _ _. ⊤ };

    /// Does what is to be done now, in front of a packet, before which so many were sent. The error is
    /// what would end a run of commands, or that a body can't be read.
    fn update<D: Disk>(
        &mut self,
        server: &mut Server<D>,
        alloc: Global,
        moment: UpdatePoint,
        sent: u64,
    ) -> Result<(), Refusal>
        ensures keeps { KeepsLength (D.state server.old.disk) (D.state server.new.disk) }
        ensures faults { TellsFaults server.old server.new
            (D.state server.old.disk) (D.state server.new.disk) result }
        ensures run { (s : Standing) → Holds server.old.view s (D.state server.old.disk)
            → (D.state server.new.disk).IsHonest
            → IsUpdating (tells self.old self.new moment) server.old server.new
            (D.state server.old.disk) (D.state server.new.disk) s (fault_of result) };
}

/// No updates: the carousel is played as it is.
#[derive(Clone, Copy)]
pub struct NoUpdate;

impl Update for NoUpdate {
    ghost tells = { λ _ _ _ _ commands _ _. commands ≡ [] };

    fn update<D: Disk>(
        &mut self,
        server: &mut Server<D>,
        _alloc: Global,
        _moment: UpdatePoint,
        _sent: u64,
    ) -> Result<(), Refusal>
        ensures keeps { KeepsLength (D.state server.old.disk) (D.state server.new.disk) }
        ensures faults { TellsFaults server.old server.new
            (D.state server.old.disk) (D.state server.new.disk) result }
        ensures run { (s : Standing) → Holds server.old.view s (D.state server.old.disk)
            → (D.state server.new.disk).IsHonest
            → IsUpdating (λ _ commands _ _. commands ≡ []) server.old server.new
            (D.state server.old.disk) (D.state server.new.disk) s (fault_of result) }

        // Nothing is done, and nothing refused.
        ensures ok { IsOk result }
        ensures same { server.new ≡ server.old }
    {
        Ok(())
    }
}
