// The faults of edits.

use std::alloc::AllocError;

/// Why an edit is refused. Where several hold, the first of this order is told.
#[derive(Clone, Copy, PartialEq, Eq, Debug)]
pub enum EditFault {
    /// An identifier is not live.
    NotLive,
    /// The link is there.
    Linked,
    /// The link is not there.
    NotLinked,
    /// No node follows.
    NotLast,
    /// Other blocks lead into the second or out of the first, or both are one.
    NotAlone,
    /// Something else still names it.
    StillUsed,
    /// Want of memory.
    Memory,
}

impl From<AllocError> for EditFault {
    ghost use Rattle.std.specs.Prelude.{◌≡◌};
    ghost use Rattle.icr_graph.specs.declared.faults.EditFault.TheVariants.{Memory};

    ghost from_gives = { λ _ fault. fault ≡ Memory };

    fn from(_error: AllocError) -> Self {
        EditFault::Memory
    }
}
