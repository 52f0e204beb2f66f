// Nodes and blocks removed.

ghost use Rattle.std.specs.Prelude.{◌≡◌, true, None, Some, IfErr, IfOk, OnErr, OnOk};
ghost use Rattle.ir_ids.specs.Entries.{map_of};
ghost use Rattle.icr_graph.specs.Lists.{touched};
ghost use Rattle.icr_graph.specs.Plain.{graph_of, nodes_in};
ghost use Rattle.icr_graph.specs.Edits.{without_node, without_nodes, without_block, deleted, not_preceded_by};
ghost use Rattle.icr_graph.specs.Faults as stated;
ghost use Rattle.icr_graph.specs.Removal.{IsFree};

use crate::edges::remove_before;
use crate::faults::EditFault;
use crate::graph::Graph;
use crate::nodes::NodeIds;
use crate::parts::Block;
use ir_ids::{Arena, BlockId, NodeId};
use std::alloc::AllocError;

// Takes a block away from those before each of these.
fn remove_all_before(blocks: &mut Arena<BlockId, Block>, ids: &[BlockId], from: BlockId)
    ensures { map_of blocks.new ≡ touched ids.now (not_preceded_by from) (map_of blocks.old) }
{
    for id in ids {
        remove_before(blocks, *id, from);
    }
}

impl Graph {
    /// Removes a node; every link to it goes. It looks at the links of the node, and at the other
    /// links of the parts that it names. It takes no memory.
    ///
    /// # Errors
    /// `NotLive` exactly where the identifier is not live, `StillUsed` exactly where the node's
    /// continuation has a destination or no node follows it in its block. The graph is then as
    /// before.
    pub fn retire(&mut self, id: NodeId) -> Result<(), EditFault>
        ensures allowed { OnOk result (stated.retire_fault (graph_of self.old) id ≡ None) }
        ensures ok { OnOk result (graph_of self.new ≡ without_node id (graph_of self.old)) }
        ensures fault { IfErr result (λ fault. stated.retire_fault (graph_of self.old) id ≡ Some fault) }
        ensures err { OnErr result (self.new ≡ self.old) }
    {
        if let Some(fault) = self.retire_fault(id) {
            return Err(fault);
        }
        self.remove(id);
        Ok(())
    }

    // The nodes of a block.
    fn nodes_in(&self, id: BlockId) -> Result<NodeIds, EditFault>
        requires { stated.is_block (graph_of self.now) id ≡ true }
        ensures ok { IfOk result (λ nodes. nodes ≡ nodes_in (graph_of self.now) id) }
        ensures err { IfErr result (λ fault. fault ≡ EditFault.Memory) }
    {
        match self.blocks.get(id) {
            Some(block) => Ok(block.nodes.copy()?),
            None => unreachable!(),
        }
    }

    // Removes nodes and every link to them.
    fn remove_all(&mut self, ids: &[NodeId])
        ensures { graph_of self.new ≡ without_nodes ids.now (graph_of self.old) }
    {
        for id in ids {
            self.remove(*id);
        }
    }

    // Removes a block that has no node and nothing but itself before it.
    fn remove_block(&mut self, id: BlockId)
        requires live { stated.is_block (graph_of self.old) id ≡ true }
        requires free { IsFree (graph_of self.old) id }
        ensures { graph_of self.new ≡ without_block id (graph_of self.old) }
    {
        let Some(block) = self.blocks.retire(id) else {
            unreachable!();
        };
        remove_all_before(&mut self.blocks, block.after.as_slice(), id);
    }

    /// Removes a block with its edges and its nodes; every link to one of them goes. It looks at
    /// the links of the block and its nodes, and at the other links of the parts that they name.
    ///
    /// # Errors
    /// `NotLive` exactly where the identifier is not live, `StillUsed` exactly where a block other
    /// than itself comes before it, or it is the entry of a function or a non-local entry; want of
    /// memory. The graph is then as before.
    pub fn delete_block(&mut self, id: BlockId) -> Result<(), EditFault>
        ensures allowed { OnOk result (stated.delete_fault (graph_of self.old) id ≡ None) }
        ensures ok { OnOk result (graph_of self.new ≡ deleted id (graph_of self.old)) }
        ensures fault { IfErr result (λ fault. stated.Refused (stated.delete_fault (graph_of self.old) id) fault) }
        ensures err { OnErr result (self.new ≡ self.old) }
    {
        if let Some(fault) = self.delete_fault(id) {
            return Err(fault);
        }
        let nodes = self.nodes_in(id)?;
        self.remove_all(nodes.as_slice());
        self.remove_block(id);
        Ok(())
    }
}
