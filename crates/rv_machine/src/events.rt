use rv_isa::ending::Ending;

/// What a step did.
#[derive(Clone, Copy, Debug, PartialEq, Eq)]
pub enum Event {
    /// The machine went on.
    Went,
    /// It went on, and wrote the character with this code point.
    Wrote(u32),
    /// It has ended with this value, a tagged word.
    Value(u64),
    /// It has ended with an error.
    Error {
        /// The kind of error, from 1 to 10.
        kind: u32,
        /// The first datum, a tagged word.
        a: u64,
        /// The second datum, a tagged word.
        b: u64,
        /// The third datum, a tagged word.
        c: u64,
        /// The address of the environment call.
        pc: u64,
    },
    /// It has ended since the heap is full.
    Heap,
    /// It has ended since a stack is full.
    Stack,
    /// It has ended at an instruction that can't be executed.
    Trap {
        /// The address of that instruction.
        pc: u64,
    },
}

/// What stopped a run.
#[derive(Clone, Copy, Debug, PartialEq, Eq)]
pub struct Stop {
    /// How many steps the machine made, the last one included.
    pub steps: u64,
    /// What the last of them did. `Went` where every step that was asked for went, or none was asked for.
    pub event: Event,
}
