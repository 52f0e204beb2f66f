//! Nodes by their parts, without the parts: what a sketch of a form is made of.

use lisp_base::{Primitive, SymId, Val};

/// A node without parts.
#[derive(Clone, Copy)]
pub enum Leaf {
    /// Gives a constant.
    Constant(Val),
    /// The value of a lexical variable.
    LocalVariable(u32),
    /// The global value of a symbol.
    GlobalVariable(SymId),
    /// A local function as a value.
    LocalFunction(u32),
    /// The global function of a symbol.
    GlobalFunction(SymId),
    /// Goes on at a tag.
    GoTo(u32),
}

/// A node of two parts.
#[derive(Clone, Copy)]
pub enum Binary {
    Catching,
    Throwing,
    Unwinding,
    /// Gives all values of the first part, after the second.
    KeepingValues,
}

/// A node of any number of parts.
#[derive(Clone, Copy)]
pub enum Many {
    /// One part after another.
    Sequence,
    /// Calls a local function.
    CallingLocal(u32),
    /// Calls the global function of a symbol.
    CallingGlobal(SymId),
    /// A primitive on its arguments.
    Operating(Primitive),
    /// The first values of the parts, together.
    GivingValues,
}

/// A node of a part that gives a function, and any number of other parts.
#[derive(Clone, Copy)]
pub enum Calling {
    Funcalling,
    Applying,
    /// With all values of all parts as arguments.
    CallingWithValues,
}

/// Where local functions may be called: only in the body, or in the definitions too.
#[derive(Clone, Copy)]
pub enum Reach {
    ForBody,
    ForAll,
}

/// What the name of a variable means.
#[derive(Clone, Copy)]
pub enum Target {
    /// A lexical variable, by its number.
    Lexical(u32),
    /// The value of a symbol.
    Global(SymId),
}
