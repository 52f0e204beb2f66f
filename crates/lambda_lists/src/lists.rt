//! What a lambda list says.

use lisp_base::{SymId, Val};

/// A list of symbols.
pub type SymIds = Vec<SymId>;

/// A parameter that may be left out, of `&OPTIONAL` or `&KEY` (ANSI Common Lisp 3.4.1.2, 3.4.1.4).
#[derive(Clone, Copy, PartialEq, Eq, Debug)]
pub struct Defaulted {
    /// Its variable.
    pub variable: SymId,
    /// The form of its value where it is left out; NIL where none is written.
    pub value: Val,
    /// The variable that tells whether it was there.
    pub supplied: Option<SymId>,
}

/// A variable and the form of its value.
#[derive(Clone, Copy, PartialEq, Eq, Debug)]
pub struct Binding {
    /// The variable.
    pub variable: SymId,
    /// The form of its value.
    pub value: Val,
}

/// A lambda list (ANSI Common Lisp 3.4.1).
#[derive(Drop)]
pub struct LambdaList {
    /// The required parameters.
    pub required: SymIds,
    /// The parameters of `&OPTIONAL`.
    pub optional: Vec<Defaulted>,
    /// The variable of `&REST`.
    pub rest: Option<SymId>,
    /// The parameters of `&KEY`; None where there is no `&KEY`.
    pub keys: Option<Vec<Defaulted>>,
    /// The variables of `&AUX` with their forms; NIL where none is written.
    pub auxiliary: Vec<Binding>,
}
