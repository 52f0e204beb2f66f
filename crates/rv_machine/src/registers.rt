ghost use Rattle.std.specs.Prelude.{◌≡◌, ◌≤◌, ℕ, []};
ghost use Rattle.rv_isa.specs.Machine.{reg, put_reg};
ghost use Rattle.rv_isa.specs.Start.{first_registers};
ghost use Rattle.rv_machine.specs.Registers.{registers_of};
ghost use Rattle.rv_machine.specs.Limits.{setup};

use rv_isa::fields::Register;

/// The 32 registers, by their numbers.
#[derive(Drop)]
pub(crate) struct Registers {
    words: [u64; 32],
}

impl Registers {
    /// All registers with 0.
    pub(crate) fn zero() -> Self
        ensures { registers_of result ≡ (λ (r : ℕ). 0) }
    {
        Registers { words: [0; 32] }
    }

    /// What is in a register. That is 0 for x0.
    pub(crate) fn get(&self, register: Register) -> u64
        ensures { result ≡ reg (registers_of self.now) register }
    {
        match register.number() {
            0 => 0,
            number => self.words[number as usize],
        }
    }

    /// Puts a word in a register. Nothing is changed where that is x0.
    pub(crate) fn set(&mut self, register: Register, word: u64)
        ensures { registers_of self.new ≡ put_reg register word (registers_of self.old) }
    {
        match register.number() {
            0 => {}
            number => self.words[number as usize] = word,
        }
    }

    /// The registers of the first state, with these sizes of the heap and of each stack.
    pub(crate) fn first(heap: u64, stack: u64) -> Self
        requires heap { heap ≤ 0x10000000 }
        requires stack { stack ≤ 0x10000000 }
        ensures { registers_of result ≡ first_registers (setup [] [] 0 heap stack) }
    {
        let mut registers = Registers::zero();
        // the value NIL
        registers.set(Register::of(19), 0x2000_0003);
        // the ends of the number stack, of the control stack and of the heap
        registers.set(Register::of(29), 0x7000_0000 + stack);
        registers.set(Register::of(28), 0x6000_0000 + stack);
        registers.set(Register::of(9), 0x4000_0000 + heap);
        // where the next object goes, the control frame, and the ends of what is on the stacks
        registers.set(Register::of(8), 0x4000_0000);
        registers.set(Register::of(4), 0x6000_0000);
        registers.set(Register::of(3), 0x6000_0000);
        registers.set(Register::of(2), 0x7000_0000);
        registers
    }
}
