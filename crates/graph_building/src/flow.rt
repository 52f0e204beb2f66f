// Blocks that end, and go on at others.
ghost use Rattle.std.specs.Prelude.{◌≡◌, ◌≢◌, true, false, IfSome, IsTrue, OnOk};
ghost use Rattle.icr_graph.specs.Plain.{graph_of};
ghost use Rattle.graph_building.specs.Built as built;
ghost use Rattle.graph_building.specs.Orderly.{EndsWith};
ghost use Rattle.graph_building.specs.Steps.{IsOpen};

use crate::builder::{Builder, want_of_memory};
use crate::owners::have_one_owner;
use icr_graph::{Graph, NodeKind};
use ir_ids::{BlockId, Id};
use std::alloc::AllocError;

// Whether a block has no nodes, and no block after it.
fn is_open(graph: &Graph, block: BlockId) -> bool
    ensures { IsTrue result → IsOpen (graph_of graph.now) block }
{
    match graph.block(block) {
        Some(block) => block.nodes.is_empty() && block.after.is_empty(),
        None => false,
    }
}

// Whether the last node of a block is an If; None where that node isn't there.
fn ends_with_if(graph: &Graph, block: BlockId) -> Option<bool>
    ensures { IfSome result (λ is_if. EndsWith is_if (graph_of graph.now) block) }
{
    let Some(block) = graph.block(block) else {
        return Some(false);
    };
    let [.., last] = block.nodes.as_slice() else {
        return Some(false);
    };
    let node = graph.node(*last)?;
    Some(matches!(node.kind, NodeKind::If { .. }))
}

impl Builder {
    // Whether the block ends with no If, so that at most one block may follow it.
    pub(crate) fn ends_plainly(&self) -> bool
        ensures { IsTrue result → EndsWith false (built.graph self.now) self.now.block }
    {
        matches!(ends_with_if(&self.graph, self.block), Some(false))
    }

    // Whether the block ends with an If, so that two blocks are to follow it.
    fn ends_with_if(&self) -> bool
        ensures { IsTrue result → EndsWith true (built.graph self.now) self.now.block }
    {
        matches!(ends_with_if(&self.graph, self.block), Some(true))
    }

    // Whether another block than this is such a block.
    fn may_begin(&self, block: BlockId) -> bool
        ensures open { IsTrue result → IsOpen (built.graph self.now) block }
        ensures other { IsTrue result → block ≢ self.now.block }
    {
        block.number() != self.block.number() && is_open(&self.graph, block)
    }

    /// Lets nodes be added to a block that has none. The block before doesn't end with an If.
    ///
    /// # Errors
    /// Want of memory.
    pub fn begin(&mut self, block: BlockId) -> Result<(), AllocError>
        ensures { OnOk result (built.Begins block self.old self.new) }
    {
        if !self.ends_plainly() || !is_open(&self.graph, block) {
            return Err(AllocError);
        }
        self.block = block;
        Ok(())
    }

    /// Ends the block, which goes on at `next`, a block of the same function; nodes are then added
    /// to `then`, which has none. The block doesn't end with an If.
    ///
    /// # Errors
    /// Want of memory.
    pub fn go_on(&mut self, next: BlockId, then: BlockId) -> Result<(), AllocError>
        ensures { OnOk result (built.GoesOn next then self.old self.new) }
    {
        if !self.ends_plainly() || !self.may_begin(then) {
            return Err(AllocError);
        }
        if !have_one_owner(self.owners.as_slice(), self.block, next) {
            return Err(AllocError);
        }
        self.graph.link(self.block, next).map_err(want_of_memory)?;
        self.block = then;
        Ok(())
    }

    /// Ends the block behind an If, which goes on at `yes` or at `no`, blocks of the same function;
    /// nodes are then added to `yes`, which has none.
    ///
    /// # Errors
    /// Want of memory.
    pub fn fork(&mut self, yes: BlockId, no: BlockId) -> Result<(), AllocError>
        ensures { OnOk result (built.ForksTo yes no self.old self.new) }
    {
        if self.half_forked || !self.ends_with_if() || !self.may_begin(yes) {
            return Err(AllocError);
        }
        let owners = self.owners.as_slice();
        if !have_one_owner(owners, self.block, yes) || !have_one_owner(owners, self.block, no) {
            return Err(AllocError);
        }
        let ended = self.block;
        self.graph.link(ended, yes).map_err(want_of_memory)?;
        self.block = yes;
        self.half_forked = true;
        self.graph.link(ended, no).map_err(want_of_memory)?;
        self.half_forked = false;
        Ok(())
    }
}
