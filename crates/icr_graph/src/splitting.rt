// One block split into two.

ghost use Rattle.std.specs.Prelude.{◌≡◌, true, false, [], ◌∷◌, None, Some, IfErr, IfOk, OnErr, OnOk};
ghost use Rattle.ir_ids.specs.Entries.{map_of};
ghost use Rattle.icr_graph.specs.Lists as Lists;
ghost use Rattle.icr_graph.specs.Lists.{changed, touched, numbers_of};
ghost use Rattle.icr_graph.specs.Plain.{graph_of, nodes_in, blocks_after, block_of};
ghost use Rattle.icr_graph.specs.Edits.{behind_block, in_block, ending_at};
ghost use Rattle.icr_graph.specs.Splitting as stated;
ghost use Rattle.icr_graph.specs.Faults.{Refused, is_block, is_node};

use crate::faults::EditFault;
use crate::graph::Graph;
use crate::links::{Links, behind};
use crate::nodes::{BlockIds, Node};
use crate::parts::Block;
use ir_ids::{Arena, BlockId, NodeId};
use std::mem;

// A node lies in another block.
fn move_node(nodes: &mut Arena<NodeId, Node>, id: NodeId, to: BlockId)
    ensures { map_of nodes.new ≡ changed (in_block to) id (map_of nodes.old) }
{
    if let Some(node) = nodes.get_mut(id) {
        node.block = to;
    }
}

// These nodes lie in another block.
pub(crate) fn move_nodes(nodes: &mut Arena<NodeId, Node>, ids: &[NodeId], to: BlockId)
    ensures { map_of nodes.new ≡ touched ids.now (in_block to) (map_of nodes.old) }
{
    for id in ids {
        move_node(nodes, *id, to);
    }
}

// The nodes that a block lists lie in it.
fn move_into(nodes: &mut Arena<NodeId, Node>, blocks: &Arena<BlockId, Block>, to: BlockId)
    ensures { map_of nodes.new ≡ touched (numbers_of (λ x. x.nodes) (map_of blocks.now to)) (in_block to) (map_of nodes.old) }
{
    if let Some(block) = blocks.get(to) {
        move_nodes(nodes, block.nodes.as_slice(), to);
    }
}

// A block comes behind the new one in the place of the old.
fn rename_before(blocks: &mut Arena<BlockId, Block>, id: BlockId, old: BlockId, new: BlockId)
    ensures { map_of blocks.new ≡ changed (behind_block old new) id (map_of blocks.old) }
{
    if let Some(block) = blocks.get_mut(id) {
        block.before.rename(old, new);
    }
}

// These blocks come behind the new one in the place of the old.
pub(crate) fn rename_all_before(
    blocks: &mut Arena<BlockId, Block>,
    ids: &[BlockId],
    old: BlockId,
    new: BlockId,
)
    ensures { map_of blocks.new ≡ touched ids.now (behind_block old new) (map_of blocks.old) }
{
    for id in ids {
        rename_before(blocks, *id, old, new);
    }
}

// Ends a block at a node, before a new block. What came after it is given back.
fn end_at(
    blocks: &mut Arena<BlockId, Block>,
    id: BlockId,
    node: NodeId,
    new: BlockId,
) -> Option<BlockIds>
    ensures after { numbers_of (λ x. x) result ≡ numbers_of (λ x. x.after) (map_of blocks.old id) }
    ensures ended { map_of blocks.new ≡ changed (ending_at node new) id (map_of blocks.old) }
{
    let block = blocks.get_mut(id)?;
    block.nodes.cut_behind(node);
    let next = Links::one(block.after.allocator(), new);
    Some(mem::replace(&mut block.after, next))
}

// A new block comes behind a block that ends at a node, and before what came after it.
fn hand_on(blocks: &mut Arena<BlockId, Block>, old: BlockId, node: NodeId, new: BlockId)
    ensures { map_of blocks.new ≡ touched (numbers_of (λ x. x.after) (map_of blocks.old old)) (behind_block old new) (changed (ending_at node new) old (map_of blocks.old)) }
{
    if let Some(heirs) = end_at(blocks, old, node, new) {
        rename_all_before(blocks, heirs.as_slice(), old, new);
    }
}

impl Graph {
    // Why a block cannot be split behind a node.
    fn split_fault(&self, after: NodeId) -> Option<EditFault>
        ensures { result ≡ stated.split_fault (graph_of self.now) after }
    {
        let Some(node) = self.nodes.get(after) else {
            return Some(EditFault::NotLive);
        };
        if self.is_last(node.block, after) {
            Some(EditFault::NotLast)
        } else {
            None
        }
    }

    // The block of a node that is live.
    fn block_of(&self, id: NodeId) -> BlockId
        requires { is_node (graph_of self.now) id ≡ true }
        ensures { block_of (graph_of self.now) id ≡ result ∷ [] }
    {
        match self.nodes.get(id) {
            Some(node) => node.block,
            None => unreachable!(),
        }
    }

    // What stands behind a node of a block, as a block that comes after it and before what comes
    // after it.
    fn rest_of(&self, id: BlockId, node: NodeId) -> Result<Block, EditFault>
        requires { is_block (graph_of self.now) id ≡ true }
        ensures ok { IfOk result (λ rest. rest ≡ record { nodes = Lists.behind node (nodes_in (graph_of self.now) id); before = id ∷ []; after = blocks_after (graph_of self.now) id; arriving = []; entry_of = None }) }
        ensures err { IfErr result (λ fault. fault ≡ EditFault.Memory) }
    {
        let Some(block) = self.blocks.get(id) else {
            unreachable!();
        };
        let alloc = block.nodes.allocator();
        Ok(Block {
            nodes: Links::of(alloc, behind(block.nodes.as_slice(), node))?,
            before: Links::one(alloc, id),
            after: block.after.copy()?,
            arriving: Links::new(alloc),
            entry_of: None,
        })
    }

    /// Splits the block of a node behind it: the nodes after it go to a new block, which becomes
    /// the only successor and has the successors that the block had. It looks at the nodes of the
    /// block, at its successors and at the links into these.
    ///
    /// # Errors
    /// `NotLive` exactly where the identifier is not live, `NotLast` exactly where no node follows
    /// it in its block; want of memory. The graph is then as before.
    pub fn split_block(&mut self, after: NodeId) -> Result<BlockId, EditFault>
        ensures allowed { OnOk result (stated.split_fault (graph_of self.old) after ≡ None) }
        ensures vacant { IfOk result (λ new. (graph_of self.old).block new ≡ None) }
        ensures ok { IfOk result (λ new. graph_of self.new ≡ stated.split_behind after (block_of (graph_of self.old) after) new (graph_of self.old)) }
        ensures fault { IfErr result (λ fault. Refused (stated.split_fault (graph_of self.old) after) fault) }
        ensures err { OnErr result (self.new ≡ self.old) }
    {
        if let Some(fault) = self.split_fault(after) {
            return Err(fault);
        }
        let old = self.block_of(after);
        let rest = self.rest_of(old, after)?;
        let Ok(new) = self.blocks.add(rest) else {
            return Err(EditFault::Memory);
        };
        move_into(&mut self.nodes, &self.blocks, new);
        hand_on(&mut self.blocks, old, after, new);
        Ok(new)
    }
}
