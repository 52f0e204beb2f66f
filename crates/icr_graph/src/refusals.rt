// Where edits are refused.

ghost use Rattle.std.specs.Prelude.{◌≡◌, not};
ghost use Rattle.icr_graph.specs.Plain.{graph_of, dest_of, nodes_in};
ghost use Rattle.icr_graph.specs.Lists as Lists;
ghost use Rattle.icr_graph.specs.Lists.{listed};
ghost use Rattle.icr_graph.specs.Faults as stated;

use crate::faults::EditFault;
use crate::graph::Graph;
use crate::links::behind;
use ir_ids::{BlockId, ContId, Id, NodeId};

impl Graph {
    // Whether a block is live.
    pub(crate) fn has_block(&self, id: BlockId) -> bool
        ensures { result ≡ stated.is_block (graph_of self.now) id }
    {
        self.blocks.get(id).is_some()
    }

    // Whether a block comes after another.
    pub(crate) fn has_edge(&self, from: BlockId, to: BlockId) -> bool
        ensures { result ≡ stated.is_edge (graph_of self.now) from to }
    {
        match self.blocks.get(from) {
            Some(block) => block.after.contains(to),
            None => false,
        }
    }

    // Why an edge cannot be added.
    pub(crate) fn link_fault(&self, from: BlockId, to: BlockId) -> Option<EditFault>
        ensures { result ≡ stated.link_fault (graph_of self.now) from to }
    {
        if !(self.has_block(from) && self.has_block(to)) {
            Some(EditFault::NotLive)
        } else if self.has_edge(from, to) {
            Some(EditFault::Linked)
        } else {
            None
        }
    }

    // Why an edge cannot be removed.
    pub(crate) fn unlink_fault(&self, from: BlockId, to: BlockId) -> Option<EditFault>
        ensures { result ≡ stated.unlink_fault (graph_of self.now) from to }
    {
        if !(self.has_block(from) && self.has_block(to)) {
            Some(EditFault::NotLive)
        } else if !self.has_edge(from, to) {
            Some(EditFault::NotLinked)
        } else {
            None
        }
    }

    // Whether a continuation, if there is one, has a destination.
    fn is_taken(&self, cont: Option<ContId>) -> bool
        ensures { result ≡ stated.are_taken (graph_of self.now) (listed cont) }
    {
        let Some(id) = cont else {
            return false;
        };
        self.has_dest(id)
    }

    // Whether a continuation has a destination.
    pub(crate) fn has_dest(&self, id: ContId) -> bool
        ensures { result ≡ not (stated.is_empty (dest_of (graph_of self.now) id)) }
    {
        match self.conts.get(id) {
            Some(cont) => cont.dest.is_some(),
            None => false,
        }
    }

    // Whether no node follows one in a block.
    pub(crate) fn is_last(&self, block: BlockId, id: NodeId) -> bool
        ensures { result ≡ stated.is_empty (Lists.behind id (nodes_in (graph_of self.now) block)) }
    {
        match self.blocks.get(block) {
            Some(block) => behind(block.nodes.as_slice(), id).is_empty(),
            None => true,
        }
    }

    // Why a node cannot be removed.
    pub(crate) fn retire_fault(&self, id: NodeId) -> Option<EditFault>
        ensures { result ≡ stated.retire_fault (graph_of self.now) id }
    {
        let Some(node) = self.nodes.get(id) else {
            return Some(EditFault::NotLive);
        };
        if self.is_taken(node.cont) || self.is_last(node.block, id) {
            Some(EditFault::StillUsed)
        } else {
            None
        }
    }

    // Whether a block is the entry of a function or a non-local entry.
    pub(crate) fn is_entered(&self, id: BlockId) -> bool
        ensures { result ≡ stated.is_entered (graph_of self.now) id }
    {
        match self.blocks.get(id) {
            Some(block) => block.entry_of.is_some() || !block.arriving.is_empty(),
            None => false,
        }
    }

    // Whether a block other than this comes before it.
    pub(crate) fn has_other_before(&self, id: BlockId) -> bool
        ensures { result ≡ stated.has_other_before (graph_of self.now) id }
    {
        match self.blocks.get(id) {
            Some(block) => block.before.has_other(id),
            None => false,
        }
    }

    // Why a block cannot be deleted.
    pub(crate) fn delete_fault(&self, id: BlockId) -> Option<EditFault>
        ensures { result ≡ stated.delete_fault (graph_of self.now) id }
    {
        if !self.has_block(id) {
            Some(EditFault::NotLive)
        } else if self.has_other_before(id) || self.is_entered(id) {
            Some(EditFault::StillUsed)
        } else {
            None
        }
    }

    // Whether a continuation is live.
    pub(crate) fn has_cont(&self, id: ContId) -> bool
        ensures { result ≡ stated.is_cont (graph_of self.now) id }
    {
        self.conts.get(id).is_some()
    }

    // Why a continuation cannot be taken in the place of another.
    pub(crate) fn substitute_fault(&self, old: ContId, new: ContId) -> Option<EditFault>
        ensures { result ≡ stated.substitute_fault (graph_of self.now) old new }
    {
        if !(self.has_cont(old) && self.has_cont(new)) {
            Some(EditFault::NotLive)
        } else if !self.has_dest(old) {
            Some(EditFault::NotLinked)
        } else if self.has_dest(new) || old.number() == new.number() {
            Some(EditFault::StillUsed)
        } else {
            None
        }
    }
}
