// Errors of a running program.
use lisp_base::{SymId, TypeSpec, Val};

/// An error that a program signals, with what is shown of it.
#[derive(Debug, Drop)]
pub enum Fault {
    /// A value is not of the type that is expected.
    TypeError { datum: Val, expected: TypeSpec },
    /// An index is none of a vector or string of this length; shown as a type error.
    Index { datum: Val, length: u32 },
    /// The result of an operation is past the integers.
    Overflow { op: SymId, a: Val, b: Val },
    /// A divisor is 0.
    ZeroDivide { op: SymId, a: Val, b: Val },
    /// A symbol has no value.
    Unbound { name: SymId },
    /// A symbol has no function.
    Undefined { name: SymId },
    /// A function was given a number of arguments that it doesn't take; None where it has no name.
    Arguments { callee: Option<SymId>, given: u32 },
    /// An exit to a tag or block that is not in force.
    Control { tag: Val },
    /// The input is at its end.
    EndOfFile,
    /// An error that the program states: its first argument, and the list of the others.
    Simple { first: Val, others: Val },
}
