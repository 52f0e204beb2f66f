ghost use Rattle.std.specs.Prelude.{◌≤◌, length};

use crate::regions::Regions;
use crate::registers::Registers;
use rv_isa::ending::Ending;

/// A machine with all its memory: what it holds between two steps. It doesn't hold what was written, nor the input.
#[derive(Drop)]
pub struct Machine {
    pub(crate) registers: Registers,
    pub(crate) pc: u64,
    pub(crate) code: Vec<u32>,
    pub(crate) memory: Regions,
    /// How many characters of the input were read.
    pub(crate) taken: usize,
    pub(crate) ending: Option<Ending>,
    // the code ends before the statics begin
    ghost code_end: { length code.items ≤ 0x02000000 },
}
