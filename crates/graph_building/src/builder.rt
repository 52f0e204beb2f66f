// The builder: a graph, and the block to which nodes are added.
ghost use Rattle.std.specs.Prelude.{◌≡◌, ℕ, [], None, Some, IfOk};
ghost use Rattle.icr_graph.specs.Plain.{graph_of};
ghost use Rattle.graph_meaning.specs.Reading.{variable_of_entry};
ghost use Rattle.graph_building.specs.Built as built;
ghost use Rattle.graph_building.specs.Orderly.{AllChecked, FewSuccessors, OneFunction};

use crate::functions::begin_function;
use crate::owners::Owners;
use icr_graph::{Defined, EditFault, Extent, Function, Graph, Links, Node, NodeKind};
use ir_ids::{BlockId, FunId, NodeId, VarId};
use lisp_base::Place;
use std::alloc::{AllocError, Global};
use std::marker::Model;

/// A graph that is being built. Nodes are added at the end of one block, which no block follows
/// yet; every other block has the successors that its last node asks for, or none. A new block
/// belongs to the function of the block to which nodes are added. Continuations have rising
/// numbers, and each of their assertions is checked.
///
/// A call that fails says want of memory, and the builder is then of no further use.
#[derive(Drop)]
pub struct Builder {
    pub(crate) alloc: Global,
    pub(crate) graph: Graph,
    pub(crate) block: BlockId,
    pub(crate) fresh: u32,
    pub(crate) owners: Owners,
    // Whether a fork failed at its second edge. The graph is then never finished.
    pub(crate) half_forked: bool,
}

impl Model for Builder {
    ghost use Rattle.icr_graph.specs.Plain.{graph_of};
    ghost use Rattle.graph_building.specs.Built.{Built};
    ghost use Rattle.graph_building.specs.Orderly.{IsOrderly};
    ghost use Rattle.std.specs.Coded.{codes};
    ghost use Rattle.lisp_base.specs.contracts.types.TypeSpec as type_spec;

    ghost Value = { Built };

    ghost view = { λ b. record { slots = b.graph; block = b.block; fresh = b.fresh } };

    ghost coded = { Prim.hlevel (codes, type_spec.the_row.coded) };

    ghost invariant = { λ b. IsOrderly b.half_forked b.owners (graph_of b.graph) b.block };
}

/// A function that was added, and the block at which its code begins.
#[derive(Clone, Copy, Debug)]
pub struct NewFunction {
    pub function: FunId,
    pub block: BlockId,
}

// What a refused edit is told as. Where a graph is built from a form, edits name what was added
// before and link nothing twice, so that memory alone is wanted. That isn't proved here.
pub(crate) fn want_of_memory(_fault: EditFault) -> AllocError {
    AllocError
}

// The function of a form's own code, before its code begins.
fn own_code(alloc: Global, place: Place) -> Function
    ensures { result ≡ record (built.own_code place 0) { entries = [] } }
{
    Function {
        lambda: None,
        name: None,
        place,
        required: 0,
        optional: 0,
        rest: false,
        parameters: Links::new(alloc),
        closed: Links::new(alloc),
        entries: Links::new(alloc),
    }
}

// The variable of the block or tagbody that a node opens.
fn variable_opened(node: &Node) -> Option<VarId>
    ensures { result ≡ variable_of_entry (Some node.now) }
{
    let NodeKind::Entry { extent, .. } = &node.kind else {
        return None;
    };
    match extent {
        Extent::Named { variable, .. } => Some(*variable),
        Extent::Tags { variable, .. } => Some(*variable),
        _ => None,
    }
}

impl Builder {
    /// A graph for a form at a place with so many nodes and closed copies, which defines this where
    /// it is a form of the prelude. It has the function of the form's own code, and nodes are added
    /// where that begins.
    ///
    /// # Errors
    /// Want of memory alone.
    pub fn new(
        alloc: Global,
        size: u32,
        copies: u32,
        defines: Option<Defined>,
        place: Place,
    ) -> Result<Self, AllocError>
        ensures { IfOk result (built.IsBegun size copies defines place) }
    {
        let mut graph = Graph::new(alloc, size, copies, defines);
        let mut owners = Owners::new(alloc);
        let code = begin_function(&mut graph, &mut owners, alloc, own_code(alloc, place))?;
        graph.set_code(code.function).map_err(want_of_memory)?;
        Ok(Builder {
            alloc,
            graph,
            block: code.block,
            fresh: 0,
            owners,
            half_forked: false,
        })
    }

    /// The variable of the block or tagbody that an entry opens; None where it opens neither.
    pub fn extent_variable(&self, entry: NodeId) -> Option<VarId>
        ensures { (v : ℕ) → result ≡ Some v → built.Opens self.now entry v }
    {
        match self.graph.node(entry) {
            Some(node) => variable_opened(node),
            None => None,
        }
    }

    /// The graph. Every assertion in it is checked, and two blocks follow each block that ends with
    /// an If, at most one each other block. Each block belongs to one function.
    ///
    /// # Errors
    /// Want of memory; told as that: nodes are added to a block that ends with an If, or a fork
    /// failed before.
    pub fn finish(self) -> Result<Graph, AllocError>
        ensures graph { IfOk result (λ g. g ≡ self.slots) }
        ensures checked { IfOk result (λ g. AllChecked (graph_of g)) }
        ensures few { IfOk result (λ g. FewSuccessors (graph_of g)) }
        ensures functions { IfOk result (λ g. OneFunction (graph_of g)) }
    {
        if self.half_forked || !self.ends_plainly() {
            return Err(AllocError);
        }
        Ok(self.graph)
    }
}
