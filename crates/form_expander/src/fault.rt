//! Why expansion stops.

ghost use Rattle.std.specs.Prelude.{◌≡◌};

use expansion::ExpandKind;
use lisp_base::Place;
use std::alloc::{AllocError, AllocFailed};

/// Why a form gives no tree.
#[derive(Clone, Copy, PartialEq, Eq, Debug)]
pub enum Fault {
    /// The file is refused, for this cause at this place.
    Refused { kind: ExpandKind, place: Place },
    /// Want of memory.
    Memory,
}

impl From<AllocError> for Fault {
    ghost use Rattle.form_expander.specs.declared.fault.Fault.TheVariants.{Memory};

    ghost from_gives = { λ _ fault. fault ≡ Memory };

    fn from(_error: AllocError) -> Self {
        Fault::Memory
    }
}

impl<T: Drop> From<AllocFailed<T>> for Fault {
    ghost use Rattle.form_expander.specs.declared.fault.Fault.TheVariants.{Memory};

    ghost from_gives = { λ _ fault. fault ≡ Memory };

    fn from(_failed: AllocFailed<T>) -> Self {
        Fault::Memory
    }
}
