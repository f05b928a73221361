//! The machine as a whole, which the program runs over.
use crate::machine::MemoryMachine;
use crate::system::MachineSystem;
use mot_endpoints::Machine;

impl<'a> Machine for MemoryMachine<'a> {
    type System = MachineSystem<'a>;

    fn system(&self) -> MachineSystem<'a> {
        MachineSystem::new(self.world)
    }
}
