// Nodes of the flow graph: what they do, and how they hang together.

use crate::links::Links;
use crate::listing::Listing;
use ir_ids::{BlockId, ContId, FunId, NodeId, VarId};
use lisp_base::{Place, Primitive, SymId, TypeSpec, Val};

/// A list of nodes.
pub type NodeIds = Links<NodeId>;

/// A list of continuations.
pub type ContIds = Links<ContId>;

/// A list of blocks.
pub type BlockIds = Links<BlockId>;

/// A list of lexical variables.
pub type VarIds = Links<VarId>;

/// What a reference gives.
#[derive(Clone, Copy, Debug)]
pub enum Leaf {
    /// A constant.
    Constant(Val),
    /// The value of a lexical variable.
    Variable(VarId),
    /// The global value of a symbol.
    Global(SymId),
    /// The global function of a symbol.
    GlobalFunction(SymId),
    /// A new function, with the values of the variables that it closes over.
    Functional(FunId),
    /// The values of the variables that a known function closes over, for a call of it. Such a
    /// call may count an object, as where the function is written where it is called.
    Closed { function: FunId, counted: bool },
    /// The argument of the running call with this number, counted from 0.
    Argument(u32),
    /// Whether the running call has an argument with this number.
    Supplied(u32),
    /// A fresh list of the arguments of the running call from this number on.
    RestFrom(u32),
}

/// What a combination does with its operands.
#[derive(Debug, Drop)]
pub enum Operation {
    /// A primitive on them.
    Primitive(Primitive),
    /// Whether the value is of a type.
    Is(TypeSpec),
    /// Gives a symbol a global value.
    SetGlobal(SymId),
    /// Gives a symbol a global function.
    SetFunction(SymId),
    /// All of them, as the values of one form.
    Values,
    /// All values of the one operand, which meet its assertions.
    Pass,
    /// Calls the global function of a symbol.
    CallGlobal {
        name: SymId,
        tail: bool,
    },
    /// Calls the function that the first operand is.
    Funcall {
        tail: bool,
    },
    /// The same, the last operand being a list of further arguments.
    Apply {
        tail: bool,
    },
    /// Calls a known function, whose closed values the first operand is. A local call names the
    /// entry at which it arrives: 0 is the function's first.
    CallKnown {
        function: FunId,
        entry: Option<u32>,
        tail: bool,
    },
}

/// A tag of a TAGBODY, and the block at which a GO to it arrives.
#[derive(Clone, Copy, Debug)]
pub struct Tag {
    /// The number of the tag in its top-level form.
    pub number: u32,
    /// The tag itself, a symbol or an integer.
    pub name: Val,
    pub block: BlockId,
}

/// What an entry opens. It ends at an exit that names the entry, or where an exit passes it.
#[derive(Debug, Drop)]
pub enum Extent {
    /// A BLOCK: the variable that stands for it, and where a RETURN-FROM arrives.
    Named { variable: VarId, land: BlockId },
    /// A TAGBODY: the variable that stands for it, and its tags.
    Tags { variable: VarId, tags: Listing<Tag> },
    /// A CATCH: its tag, and where a THROW arrives.
    Catching { tag: ContId, land: BlockId },
    /// The guarded form of an UNWIND-PROTECT, and where its cleanup form begins.
    Guarded { cleanup: BlockId },
    /// The binding of a special variable.
    Special { name: SymId, value: ContId },
    /// Values that are kept until they are released.
    Keep { values: ContId },
}

/// How an exit leaves.
#[derive(Clone, Copy, Debug)]
pub enum Leaving {
    /// The extent of the entry ends here, and what follows is outside it.
    Close,
    /// The guarded form has ended with these values, which are kept for the end of its cleanup
    /// form.
    Guard { values: ContId },
    /// The cleanup form has ended: the exit in progress goes on, or the kept values are delivered.
    Resume,
    /// The kept values are delivered.
    Release,
    /// A RETURN-FROM the block of this name.
    ReturnFrom { name: SymId, values: ContId },
    /// A GO to the tag of this number and name.
    Go { tag: u32, name: Val },
    /// A THROW to a tag, with values.
    Throw { tag: ContId, values: ContId },
}

/// What a node does. A node takes the values of its operands, in their order.
#[derive(Drop)]
pub enum NodeKind {
    /// Delivers the value of a leaf.
    Ref(Leaf),
    /// Gives a lexical variable a value, and delivers it.
    Set {
        variable: VarId,
        value: ContId,
    },
    /// Goes on at the first successor of its block where the value is true, else at the second.
    If {
        test: ContId,
    },
    /// Delivers what an operation gives.
    Combination {
        operation: Operation,
        operands: ContIds,
    },
    /// Calls the function with all values of all operands as arguments.
    MvCombination {
        function: ContId,
        operands: ContIds,
        tail: bool,
    },
    /// Binds a lexical variable to a value.
    Bind {
        variable: VarId,
        value: ContId,
    },
    /// Ends the function with these values.
    Return {
        value: ContId,
    },
    /// Opens an extent. Where an exit arrives, its values are delivered to the node's continuation.
    Entry {
        extent: Extent,
        exits: NodeIds,
    },
    /// Leaves an extent. One whose entry is gone leaves what isn't in force.
    Exit {
        leaving: Leaving,
        entry: Option<NodeId>,
    },
}

/// What a node adds to the counts of a run.
#[derive(Clone, Copy, Debug)]
pub struct Charges {
    /// The cost that is charged before the node runs.
    pub cost: u32,
    /// How many forms of the source deliver the values that the node delivers.
    pub levels: u32,
    /// How many of these forms box an integer.
    pub boxing: u32,
}

/// A node: what it does, the continuation to which it delivers, its block, the place of its form,
/// and what it adds to the counts.
#[derive(Drop)]
pub struct Node {
    pub kind: NodeKind,
    pub cont: Option<ContId>,
    pub block: BlockId,
    pub place: Place,
    pub charges: Charges,
}
