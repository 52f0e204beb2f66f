// The other parts of a flow graph: continuations, blocks, functions and variables.

use crate::listing::Listing;
use crate::nodes::{BlockIds, NodeIds, VarIds};
use ir_ids::{FunId, NodeId};
use lisp_base::{Place, Specs, SymId, TypeSpec};

/// That a value is of a type. Where the flag is on, it is tested where the value is taken.
#[derive(Debug, Drop)]
pub struct Assertion {
    pub spec: TypeSpec,
    pub place: Place,
    pub checked: bool,
}

/// A list of assertions, in the order in which they are tested.
pub type Assertions = Listing<Assertion>;

/// A continuation: the nodes that deliver values to it, the node that takes them, and what is
/// asserted of the first of them.
#[derive(Drop)]
pub struct Cont {
    pub uses: NodeIds,
    pub dest: Option<NodeId>,
    pub asserts: Assertions,
}

/// A block: its nodes in their order, and the blocks before and after it. After an If the
/// successor of the true branch comes first.
#[derive(Drop)]
pub struct Block {
    pub nodes: NodeIds,
    pub before: BlockIds,
    pub after: BlockIds,
    /// The entries whose exits arrive at this block.
    pub arriving: NodeIds,
    /// The function of which the block is an entry.
    pub entry_of: Option<FunId>,
}

/// A function of a top-level form.
#[derive(Drop)]
pub struct Function {
    /// The number of its lambda in the top-level form; None for the form's own code.
    pub lambda: Option<u32>,
    pub name: Option<SymId>,
    pub place: Place,
    /// How many required and optional parameters it has, and whether it takes further arguments.
    pub required: u32,
    pub optional: u32,
    pub rest: bool,
    /// The variables that its parameters bind, in their order.
    pub parameters: VarIds,
    /// The variables that it closes over, blocks and tagbodies among them.
    pub closed: VarIds,
    /// Where its code begins. The first is for every call, those behind it for local calls.
    pub entries: BlockIds,
}

/// What a form of the prelude defines: a symbol's function, by the number of its lambda.
#[derive(Clone, Copy, Debug)]
pub struct Defined {
    pub name: SymId,
    pub lambda: u32,
}

/// A lexical variable, or what stands for a block or a tagbody.
#[derive(Debug, Drop)]
pub struct Variable {
    /// Its number in its top-level form.
    pub number: u32,
    /// Its name; None for what stands for a block or a tagbody.
    pub name: Option<SymId>,
    /// Whether its value is kept in a cell, since a function closes over it and it is set.
    pub cell: bool,
    /// Whether its declared types are within the integers, so that a word may hold its value.
    pub word: bool,
    /// Its declared types.
    pub types: Specs,
}
