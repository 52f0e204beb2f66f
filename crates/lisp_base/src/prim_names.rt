// The names of the primitives, and the primitive of a symbol.
ghost use Rattle.std.specs.Prelude.{◌≡◌};
ghost use Rattle.lisp_base.specs.Sort.{number_of};
ghost use Rattle.lisp_base.specs.PrimNames.{prim_name, prim_named, prim_at, EachPrimitiveIsNamed};

use crate::base::base_names;
use crate::primitives::Primitive;
use crate::values::SymId;

/// All primitives, in the order of their table.
const ALL: [Primitive; 48] = [
    Primitive::Cons,
    Primitive::List,
    Primitive::Car,
    Primitive::Cdr,
    Primitive::Rplaca,
    Primitive::Rplacd,
    Primitive::MakeVector,
    Primitive::MakeString,
    Primitive::Svref,
    Primitive::Schar,
    Primitive::SetSvref,
    Primitive::SetSchar,
    Primitive::VectorLength,
    Primitive::StringLength,
    Primitive::Eq,
    Primitive::Add,
    Primitive::Subtract,
    Primitive::Multiply,
    Primitive::Truncate,
    Primitive::Floor,
    Primitive::Rem,
    Primitive::Mod,
    Primitive::Equal,
    Primitive::NotEqual,
    Primitive::Less,
    Primitive::Greater,
    Primitive::LessOrEqual,
    Primitive::GreaterOrEqual,
    Primitive::LogAnd,
    Primitive::LogIor,
    Primitive::LogXor,
    Primitive::LogNot,
    Primitive::Ash,
    Primitive::CharCode,
    Primitive::CodeChar,
    Primitive::CharEqual,
    Primitive::CharLess,
    Primitive::ReadChar,
    Primitive::WriteChar,
    Primitive::SymbolName,
    Primitive::SymbolValue,
    Primitive::SymbolFunction,
    Primitive::SetValue,
    Primitive::Boundp,
    Primitive::Fboundp,
    Primitive::Uninternedp,
    Primitive::Error,
    Primitive::ValuesList,
];

impl Primitive {
    /// The name of the primitive's function, in upper case as a symbol has it.
    pub fn name(self) -> &'static str
        ensures { result.now ≡ prim_name self }
    {
        match self {
            Primitive::Cons => "CONS",
            Primitive::List => "LIST",
            Primitive::Car => "CAR",
            Primitive::Cdr => "CDR",
            Primitive::Rplaca => "RPLACA",
            Primitive::Rplacd => "RPLACD",
            Primitive::MakeVector => "%MAKE-VECTOR",
            Primitive::MakeString => "%MAKE-STRING",
            Primitive::Svref => "SVREF",
            Primitive::Schar => "SCHAR",
            Primitive::SetSvref => "%SVSET",
            Primitive::SetSchar => "%SCHARSET",
            Primitive::VectorLength => "%VECTOR-LENGTH",
            Primitive::StringLength => "%STRING-LENGTH",
            Primitive::Eq => "EQ",
            Primitive::Add => "+",
            Primitive::Subtract => "-",
            Primitive::Multiply => "*",
            Primitive::Truncate => "TRUNCATE",
            Primitive::Floor => "FLOOR",
            Primitive::Rem => "REM",
            Primitive::Mod => "MOD",
            Primitive::Equal => "=",
            Primitive::NotEqual => "/=",
            Primitive::Less => "<",
            Primitive::Greater => ">",
            Primitive::LessOrEqual => "<=",
            Primitive::GreaterOrEqual => ">=",
            Primitive::LogAnd => "LOGAND",
            Primitive::LogIor => "LOGIOR",
            Primitive::LogXor => "LOGXOR",
            Primitive::LogNot => "LOGNOT",
            Primitive::Ash => "ASH",
            Primitive::CharCode => "CHAR-CODE",
            Primitive::CodeChar => "CODE-CHAR",
            Primitive::CharEqual => "CHAR=",
            Primitive::CharLess => "CHAR<",
            Primitive::ReadChar => "READ-CHAR",
            Primitive::WriteChar => "WRITE-CHAR",
            Primitive::SymbolName => "SYMBOL-NAME",
            Primitive::SymbolValue => "SYMBOL-VALUE",
            Primitive::SymbolFunction => "SYMBOL-FUNCTION",
            Primitive::SetValue => "SET",
            Primitive::Boundp => "BOUNDP",
            Primitive::Fboundp => "FBOUNDP",
            Primitive::Uninternedp => "%UNINTERNEDP",
            Primitive::Error => "%ERROR",
            Primitive::ValuesList => "VALUES-LIST",
        }
    }
}

/// The primitive that a symbol names, by the symbol's number in a table that begins with the base
/// names, as each does. None exactly where the symbol has no primitive's name.
pub fn prim_of(name: SymId) -> Option<Primitive>
    ensures { result ≡ prim_at (number_of name) }
{
    match base_names().get(name.0 as usize) {
        Some(text) => named(text),
        None => None,
    }
}

/// The primitive of a name.
fn named(name: &str) -> Option<Primitive>
    ensures { result ≡ prim_named name.now }
{
    ALL.iter().copied().find(|p| p.name() == name)
}

/// Each primitive is that of some symbol.
pub fn each_primitive_is_named()
    ensures { EachPrimitiveIsNamed }
{}
