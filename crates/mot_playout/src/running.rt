//! Commands in a row, up to the first that can't be answered.
ghost use Rattle.std.specs.Prelude.{◌≡◌, ◌⊎◌, ◌<◌, false, [], ◌∷◌, length, vec_len, None, Ok, Some};
ghost use Rattle.std.specs.Prelude.{IfErr, IfOk, IsFalse, IsTrue, MatchResult, OnErr, OnOk};
ghost use Rattle.mot_numbers.specs.Refusal.{IsCalm};
ghost use Rattle.mot_numbers.specs.declared.refusal.Refusal.TheVariants.{DeviceFault, Halted};
ghost use Rattle.mot_playout.specs.RunEnds.{is_run_ending};

use crate::Server;
use disk_model::Disk;
use mot_numbers::Refusal;
use mot_objects::{Command, Done};
use std::alloc::Global;

/// What a run of commands came to.
#[derive(Drop)]
pub struct RunEnd {
    /// For each command that was answered, in order, whether it was accepted.
    pub done: Vec<bool>,
    /// What ended the run before its last command: `OutOfMemory`, `DeviceFault` or `Halted`.
    pub fault: Option<Refusal>,
}

/// What one command came to that was answered.
#[derive(Clone, Copy, Debug, PartialEq, Eq)]
pub enum Attempt {
    /// It was accepted, and took these ids.
    Accepted(Done),
    /// It was refused, and nothing changed.
    Refused(Refusal),
}

impl<D: Disk> Server<D> {
    ghost use Rattle.disk_model.specs.Disk.{Costs, Keeps};
    ghost use Rattle.mot_journal.specs.Image.{Standing};
    ghost use Rattle.mot_player.specs.Place.{change_turn};
    ghost use Rattle.mot_player.specs.Turn.{turn_of_carousel};
    ghost use Rattle.mot_repository.specs.Outcome.{calls_of_command};
    ghost use Rattle.mot_repository.specs.Repository.{Agrees, Holds};
    ghost use Rattle.mot_repository.specs.Answers.{IsAnswered};
    ghost use Rattle.mot_playout.specs.Attempts.{answer_of, fault_of, marks_of};
    ghost use Rattle.mot_playout.specs.Run.{IsRun};
    ghost use Rattle.mot_playout.specs.RunEnds.{IsRunFault, RunLeaves, TurnsBeginAnew};
    ghost use Rattle.mot_playout.specs.RunEnds.{place_behind};
    ghost use Rattle.mot_playout.specs.Runs.{accepted_commands, IsAfter, place_in};

    /// Does the commands in order. A command that the carousel's rules refuse is marked false, as
    /// is one whose body finds no room, or whose name is too long for layout 1, and the run goes
    /// on; every other refusal ends it. On a server that is halted it ends at once.
    pub fn run(&mut self, alloc: Global, commands: &[Command]) -> RunEnd
        ensures runs { IsRun self.old.view self.new.view (D.state self.old.disk)
            (D.state self.new.disk) commands.now result }

        // A server that is halted does nothing.
        ensures halted { IsTrue self.old.view.halted → (self.new ≡ self.old)
            × (result.done.items ≡ []) × (result.fault ≡ Some Halted) }
        ensures layout { self.new.view.journal.layout ≡ self.old.view.journal.layout }
        ensures in_flight { result.fault ≡ Some DeviceFault
            → vec_len result.done < length commands.now }

        // Only accepted commands change what is played; and of a server that does not follow, the
        // last one alone.
        ensures place { (s last : Standing) → Holds self.old.view s (D.state self.old.disk)
            → IsAfter s (accepted_commands commands.now result.done.items) last
            → place_in self.new last
            ≡ place_behind s (accepted_commands commands.now result.done.items)
            (place_in self.old s) }
        ensures anew { TurnsBeginAnew }
    {
        if self.halted() {
            return RunEnd {
                done: Vec::new(alloc),
                fault: Some(Refusal::Halted),
            };
        }
        let Ok(mut done) = Vec::with_capacity(alloc, commands.len()) else {
            return RunEnd {
                done: Vec::new(alloc),
                fault: Some(Refusal::OutOfMemory),
            };
        };
        for command in commands {
            match self.execute(alloc, command) {
                Ok(_) => done.push_reserved(true),
                Err(refusal) => {
                    if ends_run(refusal) {
                        return RunEnd {
                            done,
                            fault: Some(refusal),
                        };
                    }
                    done.push_reserved(false);
                }
            }
        }
        RunEnd { done, fault: None }
    }

    /// Does one command, as a run of it alone: a command that would be marked false has an answer,
    /// and what would end the run is the error. Unlike a run it gives the ids, and the refusal.
    pub fn attempt(&mut self, alloc: Global, command: &Command) -> Result<Attempt, Refusal>
        ensures keeps { Keeps (D.state self.old.disk) (D.state self.new.disk) }
        ensures layout { self.new.view.journal.layout ≡ self.old.view.journal.layout }
        ensures fault { IfErr result (λ refusal. IsRunFault self.old.view self.new.view
            (D.state self.old.disk) (D.state self.new.disk) refusal) }

        // What ends a run is the error, and never an answer; so a halted server has no answer.
        ensures goes_on { IfOk result (λ answer. IfErr (answer_of (Ok answer))
            (λ refusal. is_run_ending refusal ≡ false)) }
        ensures going { OnOk result (IsFalse self.old.view.halted) }

        ensures halted { OnOk result (self.new.view.halted ≡ self.old.view.halted) }
        ensures untouched { IfErr (answer_of result)
            (λ refusal. (refusal ≡ DeviceFault) ⊎ (self.new ≡ self.old)) }
        ensures stays { OnErr (answer_of result) (self.new.player ≡ self.old.player) }
        ensures cost { Costs (calls_of_command self.old.view.journal command.now)
            (D.state self.old.disk) (D.state self.new.disk) (answer_of result) }

        // A disk fault is answered exactly if the disk has failed.
        ensures calm { MatchResult result
            (λ answer. (D.state self.new.disk).failures ≡ (D.state self.old.disk).failures)
            (λ refusal. IsCalm refusal (D.state self.old.disk).failures
            (D.state self.new.disk).failures) }

        // On every disk the ids and the refusal are those of the command.
        ensures answered { IsAnswered self.old.view self.new.view
            (D.state self.old.disk) (D.state self.new.disk) command.now (answer_of result) }
        ensures leaves { (s : Standing) → Holds self.old.view s (D.state self.old.disk)
            → RunLeaves self.old.view self.new.view (D.state self.old.disk)
            (D.state self.new.disk) s (command.now ∷ []) (marks_of result) (fault_of result) }
        ensures place { (s last : Standing) → Holds self.old.view s (D.state self.old.disk)
            → IsAfter s (accepted_commands (command.now ∷ []) (marks_of result)) last
            → place_in self.new last
            ≡ place_behind s (accepted_commands (command.now ∷ []) (marks_of result))
            (place_in self.old s) }
        ensures anew { (s next : Standing) → self.old.player.follows ≡ None
            → Agrees self.old.view s → Agrees self.new.view next → OnOk (answer_of result)
            (place_in self.new next
            ≡ change_turn (turn_of_carousel next.carousel next.geometry.segment)
            (place_in self.old s)) }
    {
        match self.execute(alloc, command) {
            Ok(done) => Ok(Attempt::Accepted(done)),
            Err(refusal) => {
                if ends_run(refusal) {
                    return Err(refusal);
                }
                Ok(Attempt::Refused(refusal))
            }
        }
    }
}

/// Whether the refusal ends a run.
fn ends_run(refusal: Refusal) -> bool
    ensures { result ≡ is_run_ending refusal }
{
    matches!(
        refusal,
        Refusal::OutOfMemory | Refusal::DeviceFault | Refusal::Halted
    )
}
