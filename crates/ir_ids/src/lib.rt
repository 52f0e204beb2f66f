//! Numbers of the parts of a flow graph and of its code, each kind with a type of its own, and
//! arenas, which keep values under such numbers.
#![tactic(auto)]

mod arena;
mod ids;

pub use arena::Arena;
pub use ids::{BlockId, ContId, FunId, Id, NodeId, TnId, VarId};

#[cfg(test)]
mod tests;
