//! The bytes that may be read.
ghost use Rattle.std.specs.Prelude.{◌≡◌, ◌*◌, ◌^◌, ◌<◌, IfSome};
ghost use Rattle.rv_isa.specs.Machine.{code_word};
ghost use Rattle.rv_machine.specs.Parts.{IsWidth};
ghost use Rattle.rv_machine.specs.Memory.{memory_of};
ghost use Rattle.rv_machine.specs.View.{space};
ghost use Rattle.rv_machine.specs.Steps.{bytes_at, code_at};

use crate::machine::Machine;
use crate::parts::bytes_of;

/// The address at which the code starts.
pub(crate) const CODE: u64 = 0x1_0000;

impl Machine {
    /// The number in the `count` bytes from an address on, if they may be read.
    pub(crate) fn bytes(&self, address: u64, count: u64) -> Option<u64>
        requires { IsWidth count }
        ensures value { result ≡ bytes_at (space self.now) (memory_of self.now.memory) address count }
        ensures small { IfSome result (λ n. n < 2 ^ (count * 8)) }
    {
        if address % count != 0 {
            return None;
        }
        let word = match self.code_at(address, count) {
            Some(word) => word,
            None => self.memory.word_at(address)?,
        };
        Some(bytes_of(word, address, count))
    }

    /// The word of 64 bits that has the `count` bytes from an address on, if they are the code's.
    fn code_at(&self, address: u64, count: u64) -> Option<u64>
        requires { IsWidth count }
        ensures { result ≡ code_at (space self.now) address count }
    {
        let offset = address.checked_sub(CODE)?;
        let size = 4 * self.code.len() as u64;
        if size < count || size - count < offset {
            return None;
        }
        let index = (offset / 8 * 2) as usize;
        Some(self.code_word(index) + (self.code_word(index + 1) << 32))
    }

    /// A word of the code, and 0 behind its end.
    fn code_word(&self, index: usize) -> u64
        ensures value { result ≡ code_word (space self.now) index }
        ensures small { result < 2 ^ 32 }
    {
        if index < self.code.len() {
            u64::from(self.code[index])
        } else {
            0
        }
    }
}
