// The edges between blocks.

ghost use Rattle.std.specs.Prelude.{◌≡◌, None, Some, IfErr, OnErr, OnOk};
ghost use Rattle.ir_ids.specs.Entries.{map_of};
ghost use Rattle.icr_graph.specs.Lists.{changed};
ghost use Rattle.icr_graph.specs.Plain.{graph_of};
ghost use Rattle.icr_graph.specs.Edits.{followed_by, preceded_by, not_followed_by, not_preceded_by, but_last_after, linked, unlinked};
ghost use Rattle.icr_graph.specs.Faults.{link_fault, unlink_fault, Refused};

use crate::faults::EditFault;
use crate::graph::Graph;
use crate::parts::Block;
use ir_ids::{Arena, BlockId};
use std::alloc::AllocError;

// Adds a block to those after a block.
fn add_after(
    blocks: &mut Arena<BlockId, Block>,
    from: BlockId,
    to: BlockId,
) -> Result<(), AllocError>
    ensures ok { OnOk result (map_of blocks.new ≡ changed (followed_by to) from (map_of blocks.old)) }
    ensures err { OnErr result (map_of blocks.new ≡ map_of blocks.old) }
{
    if let Some(block) = blocks.get_mut(from) {
        block.after.push(to)?;
    }
    Ok(())
}

// Adds a block to those before a block.
fn add_before(
    blocks: &mut Arena<BlockId, Block>,
    to: BlockId,
    from: BlockId,
) -> Result<(), AllocError>
    ensures ok { OnOk result (map_of blocks.new ≡ changed (preceded_by from) to (map_of blocks.old)) }
    ensures err { OnErr result (map_of blocks.new ≡ map_of blocks.old) }
{
    if let Some(block) = blocks.get_mut(to) {
        block.before.push(from)?;
    }
    Ok(())
}

// Takes the last of the blocks after a block away.
fn drop_last_after(blocks: &mut Arena<BlockId, Block>, from: BlockId)
    ensures { map_of blocks.new ≡ changed but_last_after from (map_of blocks.old) }
{
    if let Some(block) = blocks.get_mut(from) {
        block.after.pop();
    }
}

// Takes a block away from those after a block.
fn remove_after(blocks: &mut Arena<BlockId, Block>, from: BlockId, to: BlockId)
    ensures { map_of blocks.new ≡ changed (not_followed_by to) from (map_of blocks.old) }
{
    if let Some(block) = blocks.get_mut(from) {
        block.after.remove(to);
    }
}

// Takes a block away from those before a block.
pub(crate) fn remove_before(blocks: &mut Arena<BlockId, Block>, to: BlockId, from: BlockId)
    ensures { map_of blocks.new ≡ changed (not_preceded_by from) to (map_of blocks.old) }
{
    if let Some(block) = blocks.get_mut(to) {
        block.before.remove(from);
    }
}

// Adds an edge between two blocks.
fn add_edge(
    blocks: &mut Arena<BlockId, Block>,
    from: BlockId,
    to: BlockId,
) -> Result<(), AllocError>
    ensures ok { OnOk result (map_of blocks.new ≡ changed (preceded_by from) to (changed (followed_by to) from (map_of blocks.old))) }
    ensures err { OnErr result (map_of blocks.new ≡ map_of blocks.old) }
{
    add_after(blocks, from, to)?;
    if let Err(error) = add_before(blocks, to, from) {
        drop_last_after(blocks, from);
        return Err(error);
    }
    Ok(())
}

impl Graph {
    /// Adds an edge: `to` becomes the last of the blocks after `from`, and `from` the last of those
    /// before `to`. It looks at the blocks after `from`.
    ///
    /// # Errors
    /// `NotLive` exactly where an identifier is not live, `Linked` exactly where the edge is there;
    /// want of memory. The graph is then as before.
    pub fn link(&mut self, from: BlockId, to: BlockId) -> Result<(), EditFault>
        ensures allowed { OnOk result (link_fault (graph_of self.old) from to ≡ None) }
        ensures ok { OnOk result (graph_of self.new ≡ linked from to (graph_of self.old)) }
        ensures fault { IfErr result (λ fault. Refused (link_fault (graph_of self.old) from to) fault) }
        ensures err { OnErr result (graph_of self.new ≡ graph_of self.old) }
    {
        if let Some(fault) = self.link_fault(from, to) {
            return Err(fault);
        }
        add_edge(&mut self.blocks, from, to)?;
        Ok(())
    }

    /// Removes an edge. It looks at the blocks after `from` and at those before `to`, and takes no
    /// memory.
    ///
    /// # Errors
    /// `NotLive` exactly where an identifier is not live, `NotLinked` exactly where there is no
    /// edge. The graph is then as before.
    pub fn unlink(&mut self, from: BlockId, to: BlockId) -> Result<(), EditFault>
        ensures allowed { OnOk result (unlink_fault (graph_of self.old) from to ≡ None) }
        ensures ok { OnOk result (graph_of self.new ≡ unlinked from to (graph_of self.old)) }
        ensures fault { IfErr result (λ fault. unlink_fault (graph_of self.old) from to ≡ Some fault) }
        ensures err { OnErr result (self.new ≡ self.old) }
    {
        if let Some(fault) = self.unlink_fault(from, to) {
            return Err(fault);
        }
        remove_after(&mut self.blocks, from, to);
        remove_before(&mut self.blocks, to, from);
        Ok(())
    }
}
