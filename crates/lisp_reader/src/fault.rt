//! Why a file is no list of forms.

use std::alloc::{AllocError, AllocFailed};

/// The kind of a refusal.
#[derive(Clone, Copy, PartialEq, Eq, Debug)]
pub enum ReadKind {
    /// The file has more than 1,048,576 bytes.
    TooLong,
    /// The file is not UTF-8.
    NotText,
    /// A `)` without a list or vector.
    Unbalanced,
    /// What is no token, or stands where it may not.
    BadToken,
    /// Syntax that is left out.
    Unsupported,
    /// Level 201 of lists, vectors and prefixes.
    TooDeep,
    /// The symbol table is full.
    TooManySymbols,
    /// The end inside a form, string or comment.
    Eof,
}

/// Why a file is not read.
#[derive(Clone, Copy, PartialEq, Eq, Debug)]
pub enum ReadFault {
    /// The file is refused; the offset counts bytes from its start.
    Refused { kind: ReadKind, offset: u32 },
    /// Want of memory.
    Memory,
}

impl From<AllocError> for ReadFault {
    ghost use Rattle.std.specs.Prelude.{◌≡◌};
    ghost use Rattle.lisp_reader.specs.declared.fault.ReadFault.TheVariants.{Memory};

    ghost from_gives = { λ _ fault. fault ≡ Memory };

    fn from(_error: AllocError) -> Self {
        ReadFault::Memory
    }
}

impl<T: Drop> From<AllocFailed<T>> for ReadFault {
    ghost use Rattle.std.specs.Prelude.{◌≡◌};
    ghost use Rattle.lisp_reader.specs.declared.fault.ReadFault.TheVariants.{Memory};

    ghost from_gives = { λ _ fault. fault ≡ Memory };

    fn from(_error: AllocFailed<T>) -> Self {
        ReadFault::Memory
    }
}
