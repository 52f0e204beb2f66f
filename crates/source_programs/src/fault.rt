//! Why a source is no program.

use expansion::ExpandKind;
use lisp_base::{Place, SymTab};
use lisp_reader::ReadKind;
use std::alloc::AllocError;

/// Why a source is no program.
#[derive(Drop)]
pub enum ProgramFault {
    /// It can't be read: the kind of the refusal, and its offset in bytes.
    Read {
        kind: ReadKind,
        offset: u32,
    },
    /// It can be read, but what was read is refused for this cause at this place, which is read in
    /// these symbols: they hold at least those of the source.
    Expand {
        kind: ExpandKind,
        place: Place,
        symbols: SymTab,
    },
    /// Want of memory.
    Memory,
}

impl From<AllocError> for ProgramFault {
    ghost use Rattle.std.specs.Prelude.{◌≡◌};
    ghost use Rattle.source_programs.specs.declared.fault.ProgramFault.TheVariants.{Memory};

    ghost from_gives = { λ _ fault. fault ≡ Memory };

    fn from(_error: AllocError) -> Self {
        ProgramFault::Memory
    }
}
