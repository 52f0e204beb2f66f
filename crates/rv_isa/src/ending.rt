/// How a run of the machine ends.
#[derive(Clone, Copy, Debug, PartialEq, Eq)]
pub enum Ending {
    /// The program gave this value, a tagged word.
    Value(u64),
    /// The program signalled an error.
    Error {
        /// The kind of error, from 1 to 10.
        kind: u32,
        /// The first datum, a tagged word.
        a: u64,
        /// The second datum, a tagged word.
        b: u64,
        /// The third datum, a tagged word.
        c: u64,
        /// The address of the environment call.
        pc: u64,
    },
    /// The heap is full.
    Heap,
    /// A stack is full.
    Stack,
    /// The instruction at this address can't be executed.
    Trap {
        /// The address of that instruction.
        pc: u64,
    },
}
