//! What a step leaves in the machine.
ghost use Rattle.std.specs.Prelude.{◌≡◌, ℕ, ◌<◌, List, None};
ghost use Rattle.rv_isa.specs.Machine.{trapped, ended, sets, links, branches, loads, stores};
ghost use Rattle.rv_machine.specs.View.{space};
ghost use Rattle.rv_machine.specs.Steps.{event_of, Does};

use crate::events::Event;
use crate::machine::Machine;
use crate::parts::{load_bytes, load_value, store_bytes};
use rv_isa::ending::Ending;
use rv_isa::fields::Register;
use rv_isa::instr::{Load, Store};

/// The event that tells an ending.
pub(crate) fn event_of(ending: Ending) -> Event
    ensures { result ≡ event_of ending }
{
    match ending {
        Ending::Value(value) => Event::Value(value),
        Ending::Error { kind, a, b, c, pc } => Event::Error { kind, a, b, c, pc },
        Ending::Heap => Event::Heap,
        Ending::Stack => Event::Stack,
        Ending::Trap { pc } => Event::Trap { pc },
    }
}

impl Machine {
    /// Ends at this instruction, which can't be executed.
    pub(crate) fn trap(&mut self) -> Event
        requires { self.old.ending ≡ None }
        ensures { (input : List ℕ) → Does trapped input self.old result self.new }
    {
        let pc = self.pc;
        self.end(Ending::Trap { pc })
    }

    /// Ends.
    pub(crate) fn end(&mut self, ending: Ending) -> Event
        ensures { (input : List ℕ) → Does (ended ending) input self.old result self.new }
    {
        self.ending = Some(ending);
        event_of(ending)
    }

    /// Puts a word in a register, and goes on to the next instruction.
    pub(crate) fn set(&mut self, rd: Register, word: u64) -> Event
        requires on { self.old.ending ≡ None }
        requires small { self.old.pc < 0x20000000 }
        ensures { (input : List ℕ) → Does (sets rd word) input self.old result self.new }
    {
        self.registers.set(rd, word);
        self.pc += 4;
        Event::Went
    }

    /// Puts the address of the next instruction in a register, and goes on to the one at the target.
    pub(crate) fn link(&mut self, rd: Register, target: u64) -> Event
        requires on { self.old.ending ≡ None }
        requires small { self.old.pc < 0x20000000 }
        ensures { (input : List ℕ) → Does (links rd target) input self.old result self.new }
    {
        self.registers.set(rd, self.pc + 4);
        self.pc = target;
        Event::Went
    }

    /// Goes on to the target or to the next instruction.
    pub(crate) fn branch(&mut self, taken: bool, target: u64) -> Event
        requires on { self.old.ending ≡ None }
        requires small { self.old.pc < 0x20000000 }
        ensures { (input : List ℕ) → Does (branches taken target) input self.old result self.new }
    {
        self.pc = if taken { target } else { self.pc + 4 };
        Event::Went
    }

    /// Loads the bytes at an address into a register.
    pub(crate) fn load_bytes(&mut self, op: Load, rd: Register, address: u64) -> Event
        requires on { self.old.ending ≡ None }
        requires small { self.old.pc < 0x20000000 }
        ensures { (input : List ℕ) → Does (loads (space self.old) op rd address) input self.old result self.new }
    {
        match self.bytes(address, load_bytes(op)) {
            Some(number) => self.set(rd, load_value(op, number)),
            None => self.trap(),
        }
    }

    /// Stores the low bytes of a word at an address.
    pub(crate) fn store_bytes(&mut self, op: Store, address: u64, word: u64) -> Event
        requires on { self.old.ending ≡ None }
        requires small { self.old.pc < 0x20000000 }
        ensures { (input : List ℕ) → Does (stores (space self.old) op address word) input self.old result self.new }
    {
        if self.memory.store(address, store_bytes(op), word) {
            self.pc += 4;
            Event::Went
        } else {
            self.trap()
        }
    }
}
