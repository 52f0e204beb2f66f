//! Why declarations are refused.

use std::alloc::{AllocError, AllocFailed};
use type_spec::TypeFault;

/// Why declarations are refused.
#[derive(Clone, Copy, PartialEq, Eq, Debug)]
pub enum DeclarationFault {
    /// A declaration is outside its syntax.
    BadForm,
    /// A type is no type specifier, or a declaration is none that is known.
    BadType,
    /// The policy has safety 0, or speed above safety.
    BadPolicy,
    /// Want of memory.
    Memory,
}

impl From<AllocError> for DeclarationFault {
    ghost use Rattle.std.specs.Prelude.{◌≡◌};
    ghost use Rattle.declarations.specs.declared.fault.DeclarationFault.TheVariants.{Memory};

    ghost from_gives = { λ _ fault. fault ≡ Memory };

    fn from(_error: AllocError) -> Self {
        DeclarationFault::Memory
    }
}

impl<T: Drop> From<AllocFailed<T>> for DeclarationFault {
    ghost use Rattle.std.specs.Prelude.{◌≡◌};
    ghost use Rattle.declarations.specs.declared.fault.DeclarationFault.TheVariants.{Memory};

    ghost from_gives = { λ _ fault. fault ≡ Memory };

    fn from(_error: AllocFailed<T>) -> Self {
        DeclarationFault::Memory
    }
}

impl From<TypeFault> for DeclarationFault {
    ghost use Rattle.std.specs.Prelude.{◌≡◌};
    ghost use Rattle.declarations.specs.Declarations.{fault_of_type};

    ghost from_gives = { λ error fault. fault ≡ fault_of_type error };

    fn from(error: TypeFault) -> Self {
        match error {
            TypeFault::BadType => DeclarationFault::BadType,
            TypeFault::Memory => DeclarationFault::Memory,
        }
    }
}
