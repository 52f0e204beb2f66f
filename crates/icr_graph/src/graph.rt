// The flow graph.

ghost use Rattle.std.specs.Prelude.{◌≡◌, [], None, Some, IfOk, IfErr, OnErr, OnOk, option_copied};
ghost use Rattle.icr_graph.specs.Plain.{graph_of};

use crate::listing::Listing;
use crate::nodes::Node;
use crate::parts::{Block, Cont, Defined, Function, Variable};
use ir_ids::{Arena, BlockId, ContId, FunId, NodeId, VarId};
use std::alloc::Global;
use std::marker::Model;

/// The flow graph of one top-level form.
#[derive(Drop)]
pub struct Graph {
    pub(crate) nodes: Arena<NodeId, Node>,
    pub(crate) conts: Arena<ContId, Cont>,
    pub(crate) blocks: Arena<BlockId, Block>,
    pub(crate) functions: Arena<FunId, Function>,
    pub(crate) variables: Arena<VarId, Variable>,
    size: u32,
    copies: u32,
    pub(crate) lambdas: Listing<Option<FunId>>,
    pub(crate) code: Option<FunId>,
    defines: Option<Defined>,
}

impl Model for Graph {
    ghost use Rattle.icr_graph.specs.Plain.{Slots, graph_of};
    ghost use Rattle.icr_graph.specs.Whole.{IsWhole};
    ghost use Rattle.std.specs.Coded.{codes};
    ghost use Rattle.lisp_base.specs.contracts.types.TypeSpec as type_spec;

    ghost Value = { Slots };

    ghost coded = { Prim.hlevel (codes, type_spec.the_row.coded) };

    ghost view = { λ g. record {
      nodes = g.nodes;
      conts = g.conts;
      blocks = g.blocks;
      functions = g.functions;
      variables = g.variables;
      size = g.size;
      copies = g.copies;
      lambdas = g.lambdas;
      code = g.code;
      defines = g.defines;
    } };

    ghost invariant = { λ g. IsWhole (graph_of (record {
      nodes = g.nodes;
      conts = g.conts;
      blocks = g.blocks;
      functions = g.functions;
      variables = g.variables;
      size = g.size;
      copies = g.copies;
      lambdas = g.lambdas;
      code = g.code;
      defines = g.defines;
    })) };
}

impl Graph {
    /// A graph with nothing in it, for a form with so many nodes and closed copies, which defines
    /// this where it is a form of the prelude.
    pub fn new(alloc: Global, size: u32, copies: u32, defines: Option<Defined>) -> Self
        ensures { result ≡ record { nodes = []; conts = []; blocks = []; functions = []; variables = []; size = size; copies = copies; lambdas = []; code = None; defines = defines } }
    {
        Graph {
            nodes: Arena::new(alloc),
            conts: Arena::new(alloc),
            blocks: Arena::new(alloc),
            functions: Arena::new(alloc),
            variables: Arena::new(alloc),
            size,
            copies,
            lambdas: Listing::new(alloc),
            code: None,
            defines,
        }
    }

    /// How many nodes the form has.
    pub fn size(&self) -> u32
        ensures { result ≡ self.now.size }
    {
        self.size
    }

    /// How many closed copies the form has.
    pub fn copies(&self) -> u32
        ensures { result ≡ self.now.copies }
    {
        self.copies
    }

    /// The function of each lambda of the form, by the lambda's number; None where it is gone.
    pub fn lambdas(&self) -> &[Option<FunId>]
        ensures { result.now ≡ self.now.lambdas }
    {
        self.lambdas.as_slice()
    }

    /// The function that is the form's own code; None until it is set.
    pub fn code(&self) -> Option<FunId>
        ensures { result ≡ self.now.code }
    {
        self.code
    }

    /// What the form defines, for a form of the prelude; None for another.
    pub fn defines(&self) -> Option<Defined>
        ensures { result ≡ self.now.defines }
    {
        self.defines
    }

    /// The node of an identifier; None exactly where it is not live.
    pub fn node(&self, id: NodeId) -> Option<&Node>
        ensures { option_copied result ≡ (graph_of self.now).node id }
    {
        self.nodes.get(id)
    }

    /// The continuation of an identifier; None exactly where it is not live.
    pub fn cont(&self, id: ContId) -> Option<&Cont>
        ensures { option_copied result ≡ (graph_of self.now).cont id }
    {
        self.conts.get(id)
    }

    /// The function of an identifier; None exactly where it is not live.
    pub fn function(&self, id: FunId) -> Option<&Function>
        ensures { option_copied result ≡ (graph_of self.now).function id }
    {
        self.functions.get(id)
    }

    /// The variable of an identifier; None exactly where it is not live.
    pub fn variable(&self, id: VarId) -> Option<&Variable>
        ensures { option_copied result ≡ (graph_of self.now).variable id }
    {
        self.variables.get(id)
    }

    /// The block of an identifier; None exactly where it is not live.
    pub fn block(&self, id: BlockId) -> Option<&Block>
        ensures { option_copied result ≡ (graph_of self.now).block id }
    {
        self.blocks.get(id)
    }
}
