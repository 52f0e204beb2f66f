// Type specifiers.
use crate::values::{Val, Vals};

/// A type that is written as a name alone.
#[derive(Clone, Copy, PartialEq, Eq, Debug)]
pub enum TypeName {
    /// Everything.
    T,
    /// Nothing.
    Nil,
    Integer,
    Number,
    Real,
    Rational,
    /// -2^61 to 2^61-1.
    Fixnum,
    /// 0 and 1.
    Bit,
    /// The integers from 0 on.
    UnsignedByte,
    Character,
    BaseChar,
    Symbol,
    Keyword,
    /// NIL alone.
    Null,
    /// NIL and T.
    Boolean,
    Cons,
    /// Conses and NIL.
    List,
    /// All but conses.
    Atom,
    SimpleVector,
    SimpleString,
    /// The same as `SimpleString`.
    String,
    /// Vectors and strings.
    Vector,
    /// The same as `Vector`.
    Array,
    /// Vectors, strings and lists.
    Sequence,
    Function,
}

/// A bound of a range of integers.
#[derive(Clone, Copy, PartialEq, Eq, Debug)]
pub enum Bound {
    /// No bound, written `*`.
    Open,
    /// The number itself is within.
    At(i128),
    /// The number itself is outside, written `(n)`.
    Past(i128),
}

/// A type specifier: a set of values.
#[derive(PartialEq, Eq, Debug, Drop)]
pub enum TypeSpec {
    /// A type by its name.
    Named(TypeName),
    /// The integers between two bounds.
    Integer { lo: Bound, hi: Bound },
    /// The integers of this many bits in two's complement, 1 to 127.
    Signed(u32),
    /// The integers from 0 of this many bits, 1 to 127.
    Unsigned(u32),
    /// The integers from 0 to below this number, which is at least 1.
    Mod(i128),
    /// These integers, characters and symbols.
    Member(Vals),
    /// This integer, character or symbol.
    Eql(Val),
    /// What is in all of these.
    And(Specs),
    /// What is in one of these.
    Or(Specs),
    /// What is not in this.
    Not(Box<TypeSpec>),
}

/// A list of type specifiers.
pub type Specs = Vec<TypeSpec>;
