//! Why a file is refused.

/// Why the forms of a file are no program.
#[derive(Clone, Copy, PartialEq, Eq, Debug)]
pub enum ExpandKind {
    /// A form breaks the syntax of its operator.
    BadForm,
    /// A type specifier is none of the language.
    BadType,
    /// The operator is one of the standard that is left out.
    UnknownOperator,
    /// A top-level form has more than 4,000 nodes.
    TooManyNodes,
    /// A node would stand at depth 1,001, or 1,001 forms without a node follow one another.
    TooNested,
    /// A top-level form has more than 3,000 closed copies.
    TooManyClosed,
    /// The program has more than 400,000 nodes or closed copies, or too many words of constants.
    ProgramTooLarge,
    /// A symbol past 65,536 is needed.
    TooManySymbols,
    /// A policy without safety, or with speed above safety.
    BadPolicy,
}
