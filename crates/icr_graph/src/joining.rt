// Two blocks joined into one.

ghost use Rattle.std.specs.Prelude.{◌≡◌, true, false, ◌++◌, None, Some, IfErr, IfOk, OnErr, OnOk};
ghost use Rattle.ir_ids.specs.Entries.{map_of};
ghost use Rattle.icr_graph.specs.Lists.{changed};
ghost use Rattle.icr_graph.specs.Plain.{graph_of, nodes_in, blocks_after, blocks_before};
ghost use Rattle.icr_graph.specs.Edits.{joined};
ghost use Rattle.icr_graph.specs.Splitting as stated;
ghost use Rattle.icr_graph.specs.Joining.{with_links};
ghost use Rattle.icr_graph.specs.Faults.{Refused, is_block};

use crate::faults::EditFault;
use crate::graph::Graph;
use crate::nodes::{BlockIds, NodeIds, NodeKind};
use crate::parts::Block;
use crate::splitting::{move_nodes, rename_all_before};
use ir_ids::{Arena, BlockId, Id};

// A block has these nodes and these successors.
fn set_links(blocks: &mut Arena<BlockId, Block>, id: BlockId, nodes: NodeIds, after: BlockIds)
    ensures { map_of blocks.new ≡ changed (with_links nodes after) id (map_of blocks.old) }
{
    if let Some(block) = blocks.get_mut(id) {
        block.nodes = nodes;
        block.after = after;
    }
}

impl Graph {
    // Whether a block ends with an If.
    fn ends_with_if(&self, id: BlockId) -> bool
        ensures { result ≡ stated.ends_with_if (graph_of self.now) id }
    {
        let Some(block) = self.blocks.get(id) else {
            return false;
        };
        let [.., last] = block.nodes.as_slice() else {
            return false;
        };
        match self.nodes.get(*last) {
            Some(node) => matches!(node.kind, NodeKind::If { .. }),
            None => false,
        }
    }

    // Whether another block than the second comes after the first.
    fn has_other_after(&self, first: BlockId, second: BlockId) -> bool
        ensures { result ≡ stated.have_other second (blocks_after (graph_of self.now) first) }
    {
        match self.blocks.get(first) {
            Some(block) => block.after.has_other(second),
            None => false,
        }
    }

    // Whether another block than the first comes before the second.
    fn is_reached_from_other(&self, first: BlockId, second: BlockId) -> bool
        ensures { result ≡ stated.have_other first (blocks_before (graph_of self.now) second) }
    {
        match self.blocks.get(second) {
            Some(block) => block.before.has_other(first),
            None => false,
        }
    }

    // Whether more than one edge between two blocks leads out of the first or into the second.
    fn are_not_alone(&self, first: BlockId, second: BlockId) -> bool
        ensures { result ≡ stated.are_not_alone (graph_of self.now) first second }
    {
        let leaves = self.has_other_after(first, second) || self.ends_with_if(first);
        let arrives = self.is_reached_from_other(first, second) || self.is_entered(second);
        leaves || arrives || first.number() == second.number()
    }

    // Why two blocks cannot be joined.
    fn join_fault(&self, first: BlockId, second: BlockId) -> Option<EditFault>
        ensures { result ≡ stated.join_fault (graph_of self.now) first second }
    {
        if !(self.has_block(first) && self.has_block(second)) {
            Some(EditFault::NotLive)
        } else if !self.has_edge(first, second) {
            Some(EditFault::NotLinked)
        } else if self.are_not_alone(first, second) {
            Some(EditFault::NotAlone)
        } else {
            None
        }
    }

    // The nodes of one block and then those of another.
    fn nodes_of_both(&self, first: BlockId, second: BlockId) -> Result<NodeIds, EditFault>
        requires first { is_block (graph_of self.now) first ≡ true }
        requires second { is_block (graph_of self.now) second ≡ true }
        ensures ok { IfOk result (λ nodes. nodes ≡ nodes_in (graph_of self.now) first ++ nodes_in (graph_of self.now) second) }
        ensures err { IfErr result (λ fault. fault ≡ EditFault.Memory) }
    {
        let (Some(front), Some(back)) = (self.blocks.get(first), self.blocks.get(second)) else {
            unreachable!();
        };
        let mut nodes = front.nodes.copy()?;
        nodes.extend(back.nodes.as_slice())?;
        Ok(nodes)
    }

    // The first block goes on with what the second has, which is gone. The list has the nodes of
    // both.
    fn join(&mut self, first: BlockId, second: BlockId, nodes: NodeIds)
        requires allowed { stated.join_fault (graph_of self.old) first second ≡ None }
        requires both { nodes ≡ nodes_in (graph_of self.old) first ++ nodes_in (graph_of self.old) second }
        ensures { graph_of self.new ≡ joined first second (graph_of self.old) }
    {
        let Some(gone) = self.blocks.retire(second) else {
            unreachable!();
        };
        move_nodes(&mut self.nodes, gone.nodes.as_slice(), first);
        rename_all_before(&mut self.blocks, gone.after.as_slice(), second, first);
        set_links(&mut self.blocks, first, nodes, gone.after);
    }

    /// Joins two blocks: `first` goes on with the nodes and the successors of `second`, which is
    /// gone. It looks at the nodes of both blocks, at their links, and at the links into the
    /// successors of `second`.
    ///
    /// # Errors
    /// `NotLive` exactly where an identifier is not live, `NotLinked` exactly where there is no
    /// edge from `first` to `second`, `NotAlone` exactly where `first` has another successor or
    /// ends with an If, `second` has another predecessor or is the entry of a function or a
    /// non-local entry, or both are one block; want of memory. The graph is then as before.
    pub fn join_blocks(&mut self, first: BlockId, second: BlockId) -> Result<(), EditFault>
        ensures allowed { OnOk result (stated.join_fault (graph_of self.old) first second ≡ None) }
        ensures ok { OnOk result (graph_of self.new ≡ joined first second (graph_of self.old)) }
        ensures fault { IfErr result (λ fault. Refused (stated.join_fault (graph_of self.old) first second) fault) }
        ensures err { OnErr result (self.new ≡ self.old) }
    {
        if let Some(fault) = self.join_fault(first, second) {
            return Err(fault);
        }
        let nodes = self.nodes_of_both(first, second)?;
        self.join(first, second, nodes);
        Ok(())
    }
}
