//! One step of the machine.
ghost use Rattle.std.specs.Prelude.{◌≡◌, ◌<◌, None, IfSome};
ghost use Rattle.rv_isa.specs.Machine.{step, fetched, executed, executed_if};
ghost use Rattle.rv_machine.specs.View.{space};
ghost use Rattle.rv_machine.specs.Effects.{effected};
ghost use Rattle.rv_machine.specs.Steps.{Does};

use crate::effect::effect;
use crate::effects::Effect;
use crate::events::Event;
use crate::loads::CODE;
use crate::machine::Machine;
use crate::moves::event_of;
use rv_isa::instr::Instr;
use rv_isa::words::decode;

impl Machine {
    /// Makes one step, where the program reads this input, and tells what it did. A machine that has ended stays as it is,
    /// and tells that ending again. It takes no memory.
    #[inline(always)]
    pub fn step(&mut self, input: &[char]) -> Event
        ensures { Does (step (space self.old)) input.now self.old result self.new }
    {
        match self.ending {
            Some(ending) => event_of(ending),
            None => self.advance(input),
        }
    }

    /// Executes the instruction at which the machine stands.
    #[inline(always)]
    fn advance(&mut self, input: &[char]) -> Event
        requires { self.old.ending ≡ None }
        ensures { Does (λ m. executed_if (space self.old) (fetched (space self.old) m.pc) m) input.now self.old result self.new }
    {
        match self.fetch() {
            Some(instr) => self.execute(instr, input),
            None => self.trap(),
        }
    }

    /// The instruction at which the machine stands, if there is one.
    #[inline(always)]
    fn fetch(&self) -> Option<Instr>
        ensures value { result ≡ fetched (space self.now) self.now.pc }
        ensures small { IfSome result (λ _. self.now.pc < 0x20000000) }
    {
        let index = (self.pc / 4).checked_sub(CODE / 4)?;
        if self.pc % 4 == 0 && index < self.code.len() as u64 {
            decode(self.code[index as usize])
        } else {
            None
        }
    }

    /// Executes an instruction.
    #[inline(always)]
    fn execute(&mut self, instr: Instr, input: &[char]) -> Event
        requires on { self.old.ending ≡ None }
        requires small { self.old.pc < 0x20000000 }
        ensures { Does (executed (space self.old) instr) input.now self.old result self.new }
    {
        let effect = effect(&self.registers, self.pc, instr);
        self.apply(effect, input)
    }

    /// Does what an instruction asks for.
    #[inline(always)]
    fn apply(&mut self, effect: Effect, input: &[char]) -> Event
        requires on { self.old.ending ≡ None }
        requires small { self.old.pc < 0x20000000 }
        ensures { Does (effected (space self.old) effect) input.now self.old result self.new }
    {
        match effect {
            Effect::Set { rd, word } => self.set(rd, word),
            Effect::Link { rd, target } => self.link(rd, target),
            Effect::Branch { taken, target } => self.branch(taken, target),
            Effect::Load { op, rd, address } => self.load_bytes(op, rd, address),
            Effect::Store { op, address, word } => self.store_bytes(op, address, word),
            Effect::Call => self.call(input),
        }
    }
}
