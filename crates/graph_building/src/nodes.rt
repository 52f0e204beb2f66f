// Blocks, variables, continuations and nodes added.
ghost use Rattle.std.specs.Prelude.{◌≡◌, ◌≤◌, suc, [], None, IfOk, OnOk};
ghost use Rattle.lisp_base.specs.Reading.{spec_of};
ghost use Rattle.icr_graph.specs.Kinds.{partners_of};
ghost use Rattle.graph_building.specs.Built as built;
ghost use Rattle.graph_building.specs.Steps.{Becomes, AddsCont, AddsNode, delivering, pairing};

use crate::builder::{Builder, want_of_memory};
use crate::owners::{arrive_at_home, note_owner, owner_of};
use icr_graph::{Assertion, Charges, Leaving, NodeKind, Variable};
use ir_ids::{BlockId, ContId, Id, NodeId, VarId};
use lisp_base::{Place, TypeSpec};
use std::alloc::AllocError;

// The number above that of a continuation, which is not below `fresh`. New continuations get rising
// numbers as long as none is removed; that isn't proved here, and such a number would be told as
// want of memory.
fn above(fresh: u32, cont: ContId) -> Result<u32, AllocError>
    ensures from { IfOk result (λ next. fresh ≤ cont) }
    ensures next { IfOk result (λ next. next ≡ suc cont) }
{
    let Ok(number) = u32::try_from(cont.number()) else {
        return Err(AllocError);
    };
    if number < fresh || number == u32::MAX {
        return Err(AllocError);
    }
    Ok(number + 1)
}

impl Builder {
    /// Adds a block without nodes, of the function to whose code nodes are added.
    ///
    /// # Errors
    /// Want of memory.
    pub fn block(&mut self) -> Result<BlockId, AllocError>
        ensures { OnOk result (built.Beside self.old self.new) }
    {
        let Some(owner) = owner_of(self.owners.as_slice(), self.block) else {
            return Err(AllocError);
        };
        let block = self.graph.add_block(self.alloc)?;
        note_owner(&mut self.owners, block, owner)?;
        Ok(block)
    }

    /// Adds a variable.
    ///
    /// # Errors
    /// Want of memory.
    pub fn variable(&mut self, variable: Variable) -> Result<VarId, AllocError>
        ensures { IfOk result (built.NewVariable variable self.old self.new) }
    {
        self.graph.add_variable(variable)
    }

    // Adds a continuation, under a number above those before it.
    fn add_cont(&mut self) -> Result<ContId, AllocError>
        ensures { IfOk result (AddsCont self.old self.new) }
    {
        let cont = self.graph.add_cont(self.alloc)?;
        self.fresh = above(self.fresh, cont)?;
        Ok(cont)
    }

    /// Adds a continuation of which nothing is asserted.
    ///
    /// # Errors
    /// Want of memory.
    pub fn cont(&mut self) -> Result<ContId, AllocError>
        ensures { IfOk result (built.FreeCont self.old self.new) }
    {
        self.add_cont()
    }

    /// Adds a continuation whose values are tested to be of a type, told at a place.
    ///
    /// # Errors
    /// Want of memory.
    pub fn asserted_cont(&mut self, spec: TypeSpec, place: Place) -> Result<ContId, AllocError>
        ensures { IfOk result (built.AssertedCont place (spec_of spec) self.old self.new) }
    {
        let cont = self.add_cont()?;
        let assertion = Assertion {
            spec,
            place,
            checked: true,
        };
        self.graph
            .assert_on(cont, assertion)
            .map_err(want_of_memory)?;
        Ok(cont)
    }

    // Adds a node, which delivers nowhere yet.
    fn add(&mut self, kind: NodeKind, place: Place, charges: Charges) -> Result<NodeId, AllocError>
        requires { partners_of kind ≡ [] }
        ensures { IfOk result (AddsNode (record { kind = kind; cont = None; block = self.old.block; place = place; charges = charges }) self.old self.new) }
    {
        if !arrive_at_home(self.owners.as_slice(), self.block, &kind) {
            return Err(AllocError);
        }
        self.graph
            .add_node(self.alloc, self.block, kind, place, charges)
            .map_err(want_of_memory)
    }

    // Lets a node deliver to a continuation, if there is one.
    fn deliver(&mut self, node: NodeId, to: Option<ContId>) -> Result<(), AllocError>
        ensures { OnOk result (Becomes (delivering node to) self.old self.new) }
    {
        match to {
            Some(cont) => self.graph.deliver(node, cont).map_err(want_of_memory),
            None => Ok(()),
        }
    }

    // Gives an exit its entry, if there is one.
    fn pair(&mut self, exit: NodeId, entry: Option<NodeId>) -> Result<(), AllocError>
        ensures { OnOk result (Becomes (pairing exit entry) self.old self.new) }
    {
        match entry {
            Some(entry) => self.graph.pair(exit, entry).map_err(want_of_memory),
            None => Ok(()),
        }
    }

    /// Adds a node, which delivers to a continuation or nowhere. The kind names neither an entry
    /// nor exits, and no block of another function.
    ///
    /// # Errors
    /// Want of memory.
    pub fn node(
        &mut self,
        kind: NodeKind,
        to: Option<ContId>,
        place: Place,
        charges: Charges,
    ) -> Result<NodeId, AllocError>
        requires { partners_of kind ≡ [] }
        ensures { IfOk result (built.NewNode kind to place charges self.old self.new) }
    {
        let node = self.add(kind, place, charges)?;
        self.deliver(node, to)?;
        Ok(node)
    }

    /// Adds an exit, which names its entry where it has one.
    ///
    /// # Errors
    /// Want of memory.
    pub fn exit(
        &mut self,
        leaving: Leaving,
        entry: Option<NodeId>,
        to: Option<ContId>,
        place: Place,
        charges: Charges,
    ) -> Result<(), AllocError>
        ensures { OnOk result (built.NewExit leaving entry to place charges self.old self.new) }
    {
        let kind = NodeKind::Exit {
            leaving,
            entry: None,
        };
        let node = self.add(kind, place, charges)?;
        self.pair(node, entry)?;
        self.deliver(node, to)
    }
}
