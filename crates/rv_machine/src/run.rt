//! A run of the machine.
ghost use Rattle.std.specs.Prelude.{◌≡◌, ◌≤◌};
ghost use Rattle.rv_machine.specs.Runs.{IsRun};

use crate::events::{Event, Stop};
use crate::machine::Machine;

impl Machine {
    /// Makes up to `n` steps, where the program reads this input, until one does something else than go on, and tells how many
    /// steps it made and what the last of them did. It takes no memory.
    pub fn run(&mut self, n: u64, input: &[char]) -> Stop
        ensures { IsRun input.now self.old n result self.new }
    {
        let mut steps = 0;
        while steps < n {
            let event = self.step(input);
            steps += 1;
            if !matches!(event, Event::Went) {
                return Stop { steps, event };
            }
        }
        Stop {
            steps,
            event: Event::Went,
        }
    }
}
