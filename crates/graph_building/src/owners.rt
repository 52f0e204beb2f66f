// To which function each block belongs.
ghost use Rattle.std.specs.Prelude.{◌≡◌, map, slice_get, Some, IsTrue, OnOk};
ghost use Rattle.icr_graph.specs.Kinds.{arrivals_of};
ghost use Rattle.graph_building.specs.Orderly.{AllOwned, MoreOwners, SameOwner};

use icr_graph::{Extent, Links, NodeKind, Tag};
use ir_ids::{BlockId, FunId, Id};
use std::alloc::AllocError;

/// The function of each block, by the block's number.
pub(crate) type Owners = Links<FunId>;

// Notes to which function a new block belongs. New blocks get rising numbers as long as none is
// removed; that isn't proved here, and another number would be told as want of memory.
pub(crate) fn note_owner(
    owners: &mut Owners,
    block: BlockId,
    owner: FunId,
) -> Result<(), AllocError>
    ensures more { MoreOwners owners.old owners.new }
    ensures noted { OnOk result (slice_get owners.new block ≡ Some owner) }
{
    if block.number() != owners.len() {
        return Err(AllocError);
    }
    owners.push(owner)
}

// The function to which a block belongs.
pub(crate) fn owner_of(owners: &[FunId], block: BlockId) -> Option<FunId>
    ensures { result ≡ slice_get owners.now block }
{
    owners.get(block.number()).copied()
}

// Whether two blocks belong to one function.
pub(crate) fn have_one_owner(owners: &[FunId], first: BlockId, second: BlockId) -> bool
    ensures { IsTrue result → SameOwner owners.now first second }
{
    let (Some(one), Some(other)) = (owner_of(owners, first), owner_of(owners, second)) else {
        return false;
    };
    one.number() == other.number()
}

// Whether the blocks of all tags belong to the function of a block.
fn tags_have_owner(owners: &[FunId], block: BlockId, tags: &[Tag]) -> bool
    ensures { IsTrue result → AllOwned owners.now block (map (λ t. t.block) tags.now) }
{
    for tag in tags {
        if !have_one_owner(owners, block, tag.block) {
            return false;
        }
    }
    true
}

// Whether exits arrive at a node of this kind in the function of a block.
pub(crate) fn arrive_at_home(owners: &[FunId], block: BlockId, kind: &NodeKind) -> bool
    ensures { IsTrue result → AllOwned owners.now block (arrivals_of kind.now) }
{
    let NodeKind::Entry { extent, .. } = kind else {
        return true;
    };
    match extent {
        Extent::Named { land, .. } => have_one_owner(owners, block, *land),
        Extent::Tags { tags, .. } => tags_have_owner(owners, block, tags.as_slice()),
        Extent::Catching { land, .. } => have_one_owner(owners, block, *land),
        Extent::Guarded { cleanup } => have_one_owner(owners, block, *cleanup),
        Extent::Special { .. } | Extent::Keep { .. } => true,
    }
}
