// The table of primitives: what each takes, what it gives, and its own condition.
ghost use Rattle.std.specs.Prelude.{◌≡◌, ◌∷◌, []};
ghost use Rattle.lisp_base.specs.Rows.{prim_row, takes};

use crate::primitives::Primitive;

/// A type of an argument or of the result of a primitive.
#[derive(Clone, Copy, PartialEq, Eq, Debug)]
pub enum PrimType {
    /// Everything.
    T,
    /// Nothing: the primitive gives no value.
    Never,
    Integer,
    /// The code points, 0 to 10FFFF hex.
    CodePoint,
    /// The lengths of vectors and strings, 0 to 16,777,215.
    Length,
    Character,
    /// A character or NIL.
    CharacterOrNull,
    Boolean,
    /// NIL and T, by name.
    NilOrT,
    Symbol,
    /// The symbols whose value may be set: no keyword, and neither NIL nor T.
    Settable,
    List,
    Cons,
    SimpleVector,
    SimpleString,
    Function,
}

/// What a primitive asks for beyond the types of its arguments; where it isn't met, an error is
/// signalled.
#[derive(Clone, Copy, PartialEq, Eq, Debug)]
pub enum Own {
    /// Nothing more.
    Nothing,
    /// The first argument is a length, 0 to 16,777,215.
    Length,
    /// The second argument is an index, an integer from 0 to the length less 1.
    Index,
    /// The result is from -2^63 to 2^63-1.
    Overflow,
    /// The second argument isn't 0.
    Zero,
    /// The second argument isn't 0, and the results are from -2^63 to 2^63-1.
    ZeroOrOverflow,
    /// There is a character left, or the second argument is NIL.
    EndOfFile,
    /// The symbol has a value.
    Unbound,
    /// The symbol has a function.
    Undefined,
    /// Never met: the primitive signals.
    SimpleError,
    /// The argument is a proper list of at most 20 values.
    ProperList,
}

/// The row of a primitive.
#[derive(Clone, Copy, PartialEq, Eq, Debug)]
pub struct PrimRow {
    /// The types of the arguments; the places from `count` on are T.
    pub args: [PrimType; 3],
    /// The number of arguments, those of `rest` aside.
    pub count: u32,
    /// The type of any number of further arguments.
    pub rest: Option<PrimType>,
    /// The type of the first value.
    pub gives: PrimType,
    /// The own condition.
    pub own: Own,
}

impl Primitive {
    /// What the primitive takes and gives (ANSI Common Lisp's entries of the functions, as far as
    /// the language has them).
    pub fn row(self) -> PrimRow
        ensures { result ≡ prim_row self }
    {
        use PrimType::*;
        match self {
            Primitive::Cons => two(T, T, Cons, Own::Nothing),
            Primitive::List => any_number(List),
            Primitive::Car | Primitive::Cdr => one(List, T, Own::Nothing),
            Primitive::Rplaca | Primitive::Rplacd => two(Cons, T, Cons, Own::Nothing),
            Primitive::MakeVector => two(T, T, SimpleVector, Own::Length),
            Primitive::MakeString => two(T, Character, SimpleString, Own::Length),
            Primitive::Svref => two(SimpleVector, T, T, Own::Index),
            Primitive::Schar => two(SimpleString, T, Character, Own::Index),
            Primitive::SetSvref => three(SimpleVector, T, T, T, Own::Index),
            Primitive::SetSchar => three(SimpleString, T, Character, Character, Own::Index),
            Primitive::VectorLength => one(SimpleVector, Length, Own::Nothing),
            Primitive::StringLength => one(SimpleString, Length, Own::Nothing),
            Primitive::Eq => comparison(T),
            Primitive::Add | Primitive::Subtract | Primitive::Multiply => integers(Own::Overflow),
            Primitive::Truncate | Primitive::Floor => integers(Own::ZeroOrOverflow),
            Primitive::Rem | Primitive::Mod => integers(Own::Zero),
            Primitive::Equal | Primitive::NotEqual => comparison(Integer),
            Primitive::Less | Primitive::Greater => comparison(Integer),
            Primitive::LessOrEqual | Primitive::GreaterOrEqual => comparison(Integer),
            Primitive::LogAnd | Primitive::LogIor | Primitive::LogXor => integers(Own::Nothing),
            Primitive::LogNot => one(Integer, Integer, Own::Nothing),
            Primitive::Ash => integers(Own::Overflow),
            Primitive::CharCode => one(Character, CodePoint, Own::Nothing),
            Primitive::CodeChar => one(CodePoint, CharacterOrNull, Own::Nothing),
            Primitive::CharEqual | Primitive::CharLess => comparison(Character),
            Primitive::ReadChar => three(NilOrT, T, T, T, Own::EndOfFile),
            Primitive::WriteChar => one(Character, Character, Own::Nothing),
            Primitive::SymbolName => one(Symbol, SimpleString, Own::Nothing),
            Primitive::SymbolValue => one(Symbol, T, Own::Unbound),
            Primitive::SymbolFunction => one(Symbol, Function, Own::Undefined),
            Primitive::SetValue => two(Settable, T, T, Own::Nothing),
            Primitive::Boundp | Primitive::Fboundp => one(Symbol, Boolean, Own::Nothing),
            Primitive::Uninternedp => one(Symbol, Boolean, Own::Nothing),
            Primitive::Error => two(T, List, Never, Own::SimpleError),
            Primitive::ValuesList => one(List, T, Own::ProperList),
        }
    }
}

/// The row of a primitive of any number of arguments.
fn any_number(gives: PrimType) -> PrimRow
    ensures { result ≡ record (takes [] gives Own.Nothing) { rest = Some PrimType.T } }
{
    PrimRow {
        args: [PrimType::T; 3],
        count: 0,
        rest: Some(PrimType::T),
        gives,
        own: Own::Nothing,
    }
}

/// The row of a primitive of one argument.
fn one(a: PrimType, gives: PrimType, own: Own) -> PrimRow
    ensures { result ≡ takes (a ∷ []) gives own }
{
    PrimRow {
        args: [a, PrimType::T, PrimType::T],
        count: 1,
        rest: None,
        gives,
        own,
    }
}

/// The row of a primitive of two arguments.
fn two(a: PrimType, b: PrimType, gives: PrimType, own: Own) -> PrimRow
    ensures { result ≡ takes (a ∷ b ∷ []) gives own }
{
    PrimRow {
        args: [a, b, PrimType::T],
        count: 2,
        rest: None,
        gives,
        own,
    }
}

/// The row of a primitive of three arguments.
fn three(a: PrimType, b: PrimType, c: PrimType, gives: PrimType, own: Own) -> PrimRow
    ensures { result ≡ takes (a ∷ b ∷ c ∷ []) gives own }
{
    PrimRow {
        args: [a, b, c],
        count: 3,
        rest: None,
        gives,
        own,
    }
}

/// The row of a primitive that gives an integer for two.
fn integers(own: Own) -> PrimRow
    ensures { result ≡ takes (PrimType.Integer ∷ PrimType.Integer ∷ []) PrimType.Integer own }
{
    two(PrimType::Integer, PrimType::Integer, PrimType::Integer, own)
}

/// The row of a primitive that compares two values of a type.
fn comparison(of: PrimType) -> PrimRow
    ensures { result ≡ takes (of ∷ of ∷ []) PrimType.Boolean Own.Nothing }
{
    two(of, of, PrimType::Boolean, Own::Nothing)
}
