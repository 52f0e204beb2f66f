//! Declarations: the types and special variables that they declare, the policy that they set, and
//! the bodies that they stand in.
#![tactic(auto)]

mod bodies;
mod contents;
mod copies;
mod fault;
mod policy;
mod qualities;
mod reading;
mod specifiers;
mod subject;

pub use bodies::{Body, body_of};
pub use contents::{Declared, SymIds, Typed, TypedVariables};
pub use copies::copy_type;
pub use fault::DeclarationFault;
pub use policy::{FIRST_POLICY, Policy};
pub use reading::{read_declarations, read_specifiers};

#[cfg(test)]
mod tests;
