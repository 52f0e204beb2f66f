//! The operators whose forms the expander reads itself.

/// An operator with a syntax of its own: the special operators, and the macros that define, declare or
/// name a package (ANSI Common Lisp 3.1.2.1.2.1).
#[derive(Clone, Copy)]
pub enum Operator {
    Quote,
    Function,
    Setq,
    If,
    Progn,
    Let,
    /// `LET*`
    LetInOrder,
    Flet,
    Labels,
    Locally,
    The,
    Block,
    /// `RETURN-FROM`
    ReturnFrom,
    Tagbody,
    Go,
    Catch,
    Throw,
    /// `UNWIND-PROTECT`
    UnwindProtect,
    /// `MULTIPLE-VALUE-CALL`
    MultipleValueCall,
    /// `MULTIPLE-VALUE-PROG1`
    MultipleValueProg1,
    Values,
    Funcall,
    Apply,
    Typep,
    Defun,
    Defvar,
    Defparameter,
    Defconstant,
    Declaim,
    /// `IN-PACKAGE`
    InPackage,
}

/// A function whose calls are written otherwise than as a call of the primitive of its name.
#[derive(Clone, Copy)]
pub enum Direct {
    /// `+`
    Add,
    /// `-`
    Subtract,
    /// `*`
    Multiply,
    LogAnd,
    LogIor,
    LogXor,
    /// `1+`
    Increment,
    /// `1-`
    Decrement,
    Truncate,
    Floor,
    /// `READ-CHAR`
    ReadChar,
    Error,
    Eql,
    Char,
    Not,
    Null,
    Consp,
    Listp,
    Atom,
    Symbolp,
    Keywordp,
    Integerp,
    Numberp,
    Characterp,
    Functionp,
    Stringp,
    /// `SIMPLE-STRING-P`
    SimpleStringP,
    Vectorp,
    /// `SIMPLE-VECTOR-P`
    SimpleVectorP,
}
