//! What declarations say.

use crate::policy::Policy;
use lisp_base::{SymId, TypeSpec};

/// A type that is declared of a variable.
#[derive(Drop)]
pub struct Typed {
    pub variable: SymId,
    pub spec: TypeSpec,
}

/// A list of types that are declared of variables.
pub type TypedVariables = Vec<Typed>;

/// A list of symbols.
pub type SymIds = Vec<SymId>;

/// What the declarations of one form say.
#[derive(Drop)]
pub struct Declared {
    /// The types of variables, in their order; several may be declared of one variable.
    pub types: TypedVariables,
    /// The variables that are declared special, in their order.
    pub specials: SymIds,
    /// The policy from there on.
    pub policy: Policy,
}
