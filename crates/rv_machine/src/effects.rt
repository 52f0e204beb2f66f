use rv_isa::fields::Register;
use rv_isa::instr::{Load, Store};

/// What an instruction asks of the machine, its operands read and its result computed.
#[derive(Clone, Copy)]
pub(crate) enum Effect {
    /// A register gets a word, and the next instruction follows.
    Set {
        rd: Register,
        word: u64,
    },
    /// A register gets the address of the next instruction, and the one at the target follows.
    Link {
        rd: Register,
        target: u64,
    },
    /// The instruction at the target follows, if the branch is taken.
    Branch {
        taken: bool,
        target: u64,
    },
    /// A register gets the bytes at an address.
    Load {
        op: Load,
        rd: Register,
        address: u64,
    },
    /// The bytes at an address get those of a word.
    Store {
        op: Store,
        address: u64,
        word: u64,
    },
    /// An environment call.
    Call,
}
