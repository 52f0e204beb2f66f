//! The environment calls.
ghost use Rattle.std.specs.Prelude.{◌≡◌, ℕ, ◌<◌, List, None};
ghost use Rattle.rv_isa.specs.Machine.{reg, writes, reads, fails, calls};
ghost use Rattle.rv_machine.specs.Registers.{registers_of};
ghost use Rattle.rv_machine.specs.Steps.{Does};
ghost use Rattle.rv_machine.specs.Effects.{call};

use crate::events::Event;
use crate::machine::Machine;
use rv_isa::ending::Ending;
use rv_isa::fields::Register;

impl Machine {
    /// What is in the register of this number.
    fn register(&self, number: u32) -> u64
        requires { number < 32 }
        ensures { result ≡ reg (registers_of self.now.registers) number }
    {
        self.registers.get(Register::of(number))
    }

    /// Makes the environment call whose number is in x17.
    pub(crate) fn call(&mut self, input: &[char]) -> Event
        requires on { self.old.ending ≡ None }
        requires small { self.old.pc < 0x20000000 }
        ensures { Does call input.now self.old result self.new }
    {
        match self.register(17) {
            1 => self.write(),
            2 => self.read(input),
            3 => self.end(Ending::Value(self.register(10))),
            4 => self.fail(),
            5 => self.end(Ending::Heap),
            6 => self.end(Ending::Stack),
            _ => self.trap(),
        }
    }

    /// Writes the character whose code point is in x16.
    fn write(&mut self) -> Event
        requires on { self.old.ending ≡ None }
        requires small { self.old.pc < 0x20000000 }
        ensures { (input : List ℕ) → Does (λ m. writes (reg m.registers 16) m) input self.old result self.new }
    {
        match self.register(16) {
            code @ (0..0xD800 | 0xE000..0x11_0000) => {
                self.pc += 4;
                Event::Wrote(code as u32)
            }
            _ => self.trap(),
        }
    }

    /// Reads the next character of the input into x16, and all ones at its end.
    fn read(&mut self, input: &[char]) -> Event
        requires on { self.old.ending ≡ None }
        requires small { self.old.pc < 0x20000000 }
        ensures { Does (λ m. reads m.input m) input.now self.old result self.new }
    {
        if self.taken < input.len() {
            let code = u64::from(u32::from(input[self.taken]));
            self.taken += 1;
            self.set(Register::of(16), code)
        } else {
            self.set(Register::of(16), u64::MAX)
        }
    }

    /// Ends with the error whose kind is in x16.
    fn fail(&mut self) -> Event
        requires { self.old.ending ≡ None }
        ensures { (input : List ℕ) → Does (λ m. fails (reg m.registers 16) m) input self.old result self.new }
    {
        match self.register(16) {
            kind @ 1..=10 => self.end(Ending::Error {
                kind: kind as u32,
                a: self.register(10),
                b: self.register(11),
                c: self.register(12),
                pc: self.pc,
            }),
            _ => self.trap(),
        }
    }
}
