// Why a source was not compiled.
ghost use Rattle.std.specs.Prelude.{◌≡◌};
ghost use Rattle.compiler.specs.declared.fault.CompileFault.TheVariants.{Memory};

use core_form::Program;
use expansion::ExpandKind;
use lisp_base::{Place, SymTab};
use lisp_reader::ReadKind;
use std::alloc::AllocError;

/// Why a source was not compiled.
#[derive(Drop)]
pub enum CompileFault {
    /// The source can't be read: the kind of the refusal, and its offset in bytes.
    Read {
        kind: ReadKind,
        offset: u32,
    },
    /// The source can be read, but what was read is no program, for this cause at this place, which
    /// is read in these symbols.
    Expand {
        kind: ExpandKind,
        place: Place,
        symbols: SymTab,
    },
    /// The source is this program, but the node at this place is the first that isn't built.
    NotYet {
        place: Place,
        program: Program,
    },
    /// Memory ran out.
    Memory,
}

impl From<AllocError> for CompileFault {
    ghost from_gives = { λ _ e. e ≡ Memory };

    fn from(_e: AllocError) -> CompileFault {
        CompileFault::Memory
    }
}
