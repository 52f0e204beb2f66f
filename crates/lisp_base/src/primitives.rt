// The operations that the language has built in.

/// A primitive: a function whose calls become code in place. The comments give its Lisp name where
/// that is other than the variant's; names that begin with `%` are not those of the standard.
#[derive(Clone, Copy, PartialEq, Eq, Debug)]
pub enum Primitive {
    Cons,
    List,
    Car,
    Cdr,
    Rplaca,
    Rplacd,
    /// `%MAKE-VECTOR`
    MakeVector,
    /// `%MAKE-STRING`
    MakeString,
    Svref,
    Schar,
    /// `%SVSET`
    SetSvref,
    /// `%SCHARSET`
    SetSchar,
    /// `%VECTOR-LENGTH`
    VectorLength,
    /// `%STRING-LENGTH`
    StringLength,
    Eq,
    /// `+`
    Add,
    /// `-`
    Subtract,
    /// `*`
    Multiply,
    Truncate,
    Floor,
    Rem,
    Mod,
    /// `=`
    Equal,
    /// `/=`
    NotEqual,
    /// `<`
    Less,
    /// `>`
    Greater,
    /// `<=`
    LessOrEqual,
    /// `>=`
    GreaterOrEqual,
    /// `LOGAND`
    LogAnd,
    /// `LOGIOR`
    LogIor,
    /// `LOGXOR`
    LogXor,
    /// `LOGNOT`
    LogNot,
    Ash,
    /// `CHAR-CODE`
    CharCode,
    /// `CODE-CHAR`
    CodeChar,
    /// `CHAR=`
    CharEqual,
    /// `CHAR<`
    CharLess,
    /// `READ-CHAR`
    ReadChar,
    /// `WRITE-CHAR`
    WriteChar,
    /// `SYMBOL-NAME`
    SymbolName,
    /// `SYMBOL-VALUE`
    SymbolValue,
    /// `SYMBOL-FUNCTION`
    SymbolFunction,
    /// `SET`
    SetValue,
    Boundp,
    Fboundp,
    /// `%UNINTERNEDP`
    Uninternedp,
    /// `%ERROR`
    Error,
    /// `VALUES-LIST`
    ValuesList,
}
