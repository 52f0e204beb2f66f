use rv_isa::fields::Register;
use rv_isa::instr::{Branch, Instr};

/// One item of what is assembled. Labels and sites give no word; their numbers are the caller's to choose.
#[derive(Clone, Copy, Debug, PartialEq, Eq)]
pub enum Item {
    /// This instruction, as it is.
    Plain(Instr),
    /// The place of the label with this number: that of the next word.
    Label(u32),
    /// One branch to a label, taken where the test holds of the registers `a` and `b`.
    BranchTo {
        /// The test.
        test: Branch,
        /// The first register that is tested.
        a: Register,
        /// The second register that is tested.
        b: Register,
        /// The number of the label.
        label: u32,
    },
    /// One JAL to a label.
    JumpTo {
        /// The register that then holds the address of the next word.
        link: Register,
        /// The number of the label.
        label: u32,
    },
    /// An AUIPC and an ADDI, after which a register holds the address of a label (x0 stays zero).
    AddressOf {
        /// The register.
        to: Register,
        /// The number of the label.
        label: u32,
    },
    /// A place to be told of under this number: that of the next word.
    Site(u32),
}
