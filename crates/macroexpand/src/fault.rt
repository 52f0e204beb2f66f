//! Why a file gives no program.

use expansion::ExpandKind;
use lisp_base::{Place, SymTab};

/// Why the forms of a file are no program.
#[derive(Drop)]
pub enum ExpandFault {
    /// The file is refused, for this cause at this place, which is read in these symbols: they
    /// hold at least those of the file.
    Refused {
        kind: ExpandKind,
        place: Place,
        symbols: SymTab,
    },
    /// Want of memory.
    Memory,
}
