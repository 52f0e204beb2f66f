//! The flow graph of one top-level form: nodes joined by continuations, in blocks.
#![tactic(auto)]

mod adding;
mod attaching;
mod building;
mod deletion;
mod edges;
mod faults;
mod functions;
mod graph;
mod joining;
mod links;
mod listing;
mod nodes;
mod parts;
mod refusals;
mod removal;
mod splitting;
mod substitution;

pub use faults::EditFault;
pub use graph::Graph;
pub use links::Links;
pub use listing::Listing;
pub use nodes::{
    BlockIds, Charges, ContIds, Extent, Leaf, Leaving, Node, NodeIds, NodeKind, Operation, Tag,
    VarIds,
};
pub use parts::{Assertion, Assertions, Block, Cont, Defined, Function, Variable};
