// The calls that build a graph.

ghost use Rattle.std.specs.Prelude.{◌≡◌, None, Some, IfOk, OnErr};
ghost use Rattle.icr_graph.specs.Plain.{graph_of};
ghost use Rattle.icr_graph.specs.Building as built;
ghost use Rattle.icr_graph.specs.Building.{with_block, with_cont, with_variable};

use crate::graph::Graph;
use crate::links::Links;
use crate::listing::Listing;
use crate::parts::{Block, Cont, Variable};
use ir_ids::{BlockId, ContId, VarId};
use std::alloc::{AllocError, Global};

// A block without nodes or edges.
fn empty_block(alloc: Global) -> Block
    ensures { result ≡ built.empty_block }
{
    Block {
        nodes: Links::new(alloc),
        before: Links::new(alloc),
        after: Links::new(alloc),
        arriving: Links::new(alloc),
        entry_of: None,
    }
}

// A continuation without uses, destination or assertions.
fn empty_cont(alloc: Global) -> Cont
    ensures { result ≡ built.empty_cont }
{
    Cont {
        uses: Links::new(alloc),
        dest: None,
        asserts: Listing::new(alloc),
    }
}

impl Graph {
    /// Adds a block without nodes or edges.
    ///
    /// # Errors
    /// Want of memory alone; the graph is then as before.
    pub fn add_block(&mut self, alloc: Global) -> Result<BlockId, AllocError>
        ensures vacant { IfOk result (λ b. (graph_of self.old).block b ≡ None) }
        ensures ok { IfOk result (λ b. graph_of self.new ≡ with_block b (graph_of self.old)) }
        ensures err { OnErr result (self.new ≡ self.old) }
    {
        let block = empty_block(alloc);
        let Ok(id) = self.blocks.add(block) else {
            return Err(AllocError);
        };
        Ok(id)
    }

    /// Adds a continuation without uses, destination or assertions.
    ///
    /// # Errors
    /// Want of memory alone; the graph is then as before.
    pub fn add_cont(&mut self, alloc: Global) -> Result<ContId, AllocError>
        ensures vacant { IfOk result (λ k. (graph_of self.old).cont k ≡ None) }
        ensures ok { IfOk result (λ k. graph_of self.new ≡ with_cont k (graph_of self.old)) }
        ensures err { OnErr result (self.new ≡ self.old) }
    {
        let cont = empty_cont(alloc);
        let Ok(id) = self.conts.add(cont) else {
            return Err(AllocError);
        };
        Ok(id)
    }

    /// Adds a variable.
    ///
    /// # Errors
    /// Want of memory alone; the graph is then as before.
    pub fn add_variable(&mut self, variable: Variable) -> Result<VarId, AllocError>
        ensures vacant { IfOk result (λ v. (graph_of self.old).variable v ≡ None) }
        ensures ok { IfOk result (λ v. graph_of self.new ≡ with_variable v variable (graph_of self.old)) }
        ensures err { OnErr result (self.new ≡ self.old) }
    {
        let Ok(id) = self.variables.add(variable) else {
            return Err(AllocError);
        };
        Ok(id)
    }
}
