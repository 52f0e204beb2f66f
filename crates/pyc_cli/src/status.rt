//! How a call of the tool ended, as a number for the system.

/// How a call of the tool ended; `status as u8` is the status of the process.
#[derive(Clone, Copy, PartialEq, Eq, Debug, Drop)]
pub enum Status {
    /// A run ended with a value, or what a command writes was written whole.
    Done = 0,
    /// A run ended with an error.
    LispError = 1,
    /// The words are outside the grammar.
    Usage = 2,
    /// The source is no program.
    Refused = 3,
    /// A name isn't there.
    Absent = 4,
    /// The store or the input failed where it was read.
    ReadFault = 5,
    /// The store or an output failed where it was written.
    WriteFault = 6,
    /// A run ended since the heap is full.
    Heap = 7,
    /// A run ended since a stack is full.
    Stack = 8,
    /// A run didn't end within its instructions.
    StepLimit = 9,
    /// The bytes are no image.
    BadImage = 10,
    /// A run ended at an instruction that can't be executed.
    Trap = 11,
    /// The input isn't UTF-8.
    InputNotText = 12,
    /// The input is longer than 16,777,216 bytes.
    InputTooLong = 13,
    /// There was no memory.
    Memory = 14,
}
