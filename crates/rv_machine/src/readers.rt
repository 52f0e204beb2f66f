//! What may be read of a machine between two steps.
ghost use Rattle.std.specs.Prelude.{◌≡◌, ◌≤◌, [], SomeIff};
ghost use Rattle.rv_isa.specs.Machine.{reg};
ghost use Rattle.rv_machine.specs.Memory.{memory_of};
ghost use Rattle.rv_machine.specs.View.{space, state};
ghost use Rattle.rv_machine.specs.Steps.{bytes_at};

use crate::machine::Machine;
use object_model::Words;
use rv_isa::fields::Register;

impl Machine {
    /// What is in the register of this number, None exactly where the number is above 31. It takes no memory.
    pub fn reg(&self, register: u8) -> Option<u64>
        ensures { SomeIff result (register ≤ 31) (reg (state [] [] self.now).registers register) }
    {
        if register <= 31 {
            Some(self.registers.get(Register::of(u32::from(register))))
        } else {
            None
        }
    }

    /// The address of the next instruction, or of the one at which the machine has ended. It takes no memory.
    pub fn pc(&self) -> u64
        ensures { result ≡ (state [] [] self.now).pc }
    {
        self.pc
    }

    /// The word of 64 bits at an address. None exactly where the address isn't a multiple of 8, or its eight bytes aren't
    /// wholly inside one region. It takes no memory.
    pub fn word(&self, address: u64) -> Option<u64>
        ensures { result ≡ bytes_at (space self.now) (state [] [] self.now).memory address 8 }
    {
        self.bytes(address, 8)
    }
}

/// The words that `Machine::word` reads.
impl Words for Machine {
    ghost words = { λ m address. bytes_at (space m) (memory_of m.memory) address 8 };

    fn word(&self, address: u64) -> Option<u64> {
        self.bytes(address, 8)
    }
}
