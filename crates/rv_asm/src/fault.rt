ghost use Rattle.std.specs.Prelude.{◌≡◌};
ghost use Rattle.rv_asm.specs.declared.fault.AsmFault.TheVariants.{Memory};

use std::alloc::{AllocError, AllocFailed};

/// Why items can't be assembled.
#[derive(Clone, Copy, Debug, PartialEq, Eq)]
pub enum AsmFault {
    /// Two items place the label with this number.
    DoubleLabel {
        /// The number of the label.
        label: u32,
    },
    /// No item places the label with this number, which is used.
    UnknownLabel {
        /// The number of the label.
        label: u32,
    },
    /// A branch or a jump can't reach its label. Both places are counted in bytes from the first item.
    FarBranch {
        /// The place of the branch or jump.
        from: u64,
        /// The place of the label.
        to: u64,
    },
    /// Memory ran out.
    Memory,
}

impl From<AllocError> for AsmFault {
    ghost from_gives = { λ _ e. e ≡ Memory };

    fn from(_error: AllocError) -> AsmFault {
        AsmFault::Memory
    }
}

impl<T: Drop> From<AllocFailed<T>> for AsmFault {
    ghost from_gives = { λ _ e. e ≡ Memory };

    fn from(_failed: AllocFailed<T>) -> AsmFault {
        AsmFault::Memory
    }
}
