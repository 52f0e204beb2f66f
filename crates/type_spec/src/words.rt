//! Names of types, and the operators of specifiers that are lists.

ghost use Rattle.std.specs.Prelude.{◌≡◌};
ghost use Rattle.std.specs.Option.{option_map};
ghost use Rattle.type_spec.specs.Forms.{operator_of as operator_named, number_type_of, atom_type_of, object_type_of, type_of as type_named, word_at, operator_at, type_at};

use lisp_base::{SymKind, SymTab, TypeName, Val};

/// What a specifier that is a list begins with.
#[derive(Clone, Copy, PartialEq, Eq, Debug)]
pub(crate) enum Operator {
    Integer,
    /// `SIGNED-BYTE`
    Signed,
    /// `UNSIGNED-BYTE`
    Unsigned,
    Mod,
    Member,
    Eql,
    And,
    Or,
    Not,
}

/// The operator of a name.
#[tactic(auto, unfolding(crate::specs::Forms::operator_of))]
fn operator_of(word: &str) -> Option<Operator>
    ensures { result ≡ operator_named word.now }
{
    if word == "INTEGER" {
        Some(Operator::Integer)
    } else if word == "SIGNED-BYTE" {
        Some(Operator::Signed)
    } else if word == "UNSIGNED-BYTE" {
        Some(Operator::Unsigned)
    } else if word == "MOD" {
        Some(Operator::Mod)
    } else if word == "MEMBER" {
        Some(Operator::Member)
    } else if word == "EQL" {
        Some(Operator::Eql)
    } else if word == "AND" {
        Some(Operator::And)
    } else if word == "OR" {
        Some(Operator::Or)
    } else if word == "NOT" {
        Some(Operator::Not)
    } else {
        None
    }
}

/// The type of integers of a name.
#[tactic(auto, unfolding(crate::specs::Forms::number_type_of))]
fn number_type_of(word: &str) -> Option<TypeName>
    ensures { result ≡ number_type_of word.now }
{
    if word == "INTEGER" {
        Some(TypeName::Integer)
    } else if word == "NUMBER" {
        Some(TypeName::Number)
    } else if word == "REAL" {
        Some(TypeName::Real)
    } else if word == "RATIONAL" {
        Some(TypeName::Rational)
    } else if word == "FIXNUM" {
        Some(TypeName::Fixnum)
    } else if word == "BIT" {
        Some(TypeName::Bit)
    } else if word == "UNSIGNED-BYTE" {
        Some(TypeName::UnsignedByte)
    } else {
        None
    }
}

/// The type of characters or symbols of a name, or one that is no kind of value.
#[tactic(auto, unfolding(crate::specs::Forms::atom_type_of))]
fn atom_type_of(word: &str) -> Option<TypeName>
    ensures { result ≡ atom_type_of word.now }
{
    if word == "T" {
        Some(TypeName::T)
    } else if word == "NIL" {
        Some(TypeName::Nil)
    } else if word == "CHARACTER" {
        Some(TypeName::Character)
    } else if word == "BASE-CHAR" {
        Some(TypeName::BaseChar)
    } else if word == "SYMBOL" {
        Some(TypeName::Symbol)
    } else if word == "KEYWORD" {
        Some(TypeName::Keyword)
    } else if word == "NULL" {
        Some(TypeName::Null)
    } else if word == "BOOLEAN" {
        Some(TypeName::Boolean)
    } else if word == "ATOM" {
        Some(TypeName::Atom)
    } else {
        None
    }
}

/// The type of objects of a name.
#[tactic(auto, unfolding(crate::specs::Forms::object_type_of))]
fn object_type_of(word: &str) -> Option<TypeName>
    ensures { result ≡ object_type_of word.now }
{
    if word == "CONS" {
        Some(TypeName::Cons)
    } else if word == "LIST" {
        Some(TypeName::List)
    } else if word == "SIMPLE-VECTOR" {
        Some(TypeName::SimpleVector)
    } else if word == "SIMPLE-STRING" {
        Some(TypeName::SimpleString)
    } else if word == "STRING" {
        Some(TypeName::String)
    } else if word == "VECTOR" {
        Some(TypeName::Vector)
    } else if word == "ARRAY" {
        Some(TypeName::Array)
    } else if word == "SEQUENCE" {
        Some(TypeName::Sequence)
    } else if word == "FUNCTION" {
        Some(TypeName::Function)
    } else {
        None
    }
}

/// The type of a name.
fn type_of(word: &str) -> Option<TypeName>
    ensures { result ≡ type_named word.now }
{
    match number_type_of(word) {
        Some(name) => Some(name),
        None => match atom_type_of(word) {
            Some(name) => Some(name),
            None => object_type_of(word),
        },
    }
}

/// The name of a plain symbol; None for any other form.
pub fn word_of(symbols: &SymTab, v: Val) -> Option<&str>
    ensures { option_map (λ word. word.now) result ≡ word_at symbols.now v }
{
    let Val::Sym(id) = v else {
        return None;
    };
    match symbols.kind(id) {
        Some(SymKind::Plain) => symbols.name(id),
        Some(SymKind::Keyword) | Some(SymKind::Fresh) | None => None,
    }
}

/// The operator that a symbol names.
pub(crate) fn operator_at(symbols: &SymTab, v: Val) -> Option<Operator>
    ensures { result ≡ operator_at symbols.now v }
{
    match word_of(symbols, v) {
        Some(word) => operator_of(word),
        None => None,
    }
}

/// The type that a symbol names.
pub(crate) fn type_at(symbols: &SymTab, v: Val) -> Option<TypeName>
    ensures { result ≡ type_at symbols.now v }
{
    match word_of(symbols, v) {
        Some(word) => type_of(word),
        None => None,
    }
}
