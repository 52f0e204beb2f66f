//! The built-in macros, and the macro of a symbol.

ghost use Rattle.std.specs.Prelude.{◌≡◌};
ghost use Rattle.lisp_base.specs.Sort.{number_of as index_of};
ghost use Rattle.std_macros.specs.Macros.{macro_at, macro_number, is_macro_number};

use lisp_base::SymId;

/// A built-in macro.
#[derive(Clone, Copy, PartialEq, Eq, Debug)]
pub enum Macro {
    /// `AND`
    And,
    /// `OR`
    Or,
    /// `COND`
    Cond,
    /// `WHEN`
    When,
    /// `UNLESS`
    Unless,
    /// `CASE`
    Case,
    /// `ECASE`
    Ecase,
    /// `TYPECASE`
    Typecase,
    /// `ETYPECASE`
    Etypecase,
    /// `LOOP`
    Loop,
    /// `DO`
    Do,
    /// `DO*`
    DoInOrder,
    /// `DOTIMES`
    Dotimes,
    /// `DOLIST`
    Dolist,
    /// `RETURN`
    Return,
    /// `PROG`
    Prog,
    /// `PROG*`
    ProgInOrder,
    /// `PROG1`
    Prog1,
    /// `PROG2`
    Prog2,
    /// `PSETQ`
    Psetq,
    /// `SETF`
    Setf,
    /// `INCF`
    Incf,
    /// `DECF`
    Decf,
    /// `PUSH`
    Push,
    /// `POP`
    Pop,
    /// `MULTIPLE-VALUE-BIND`
    MultipleValueBind,
    /// `MULTIPLE-VALUE-LIST`
    MultipleValueList,
    /// `MULTIPLE-VALUE-SETQ`
    MultipleValueSetq,
    /// `NTH-VALUE`
    NthValue,
    /// `LAMBDA`
    Lambda,
    /// `QUASIQUOTE`
    Quasiquote,
}

/// All built-in macros, in the order of their table.
const ALL: [Macro; 31] = [
    Macro::And,
    Macro::Or,
    Macro::Cond,
    Macro::When,
    Macro::Unless,
    Macro::Case,
    Macro::Ecase,
    Macro::Typecase,
    Macro::Etypecase,
    Macro::Loop,
    Macro::Do,
    Macro::DoInOrder,
    Macro::Dotimes,
    Macro::Dolist,
    Macro::Return,
    Macro::Prog,
    Macro::ProgInOrder,
    Macro::Prog1,
    Macro::Prog2,
    Macro::Psetq,
    Macro::Setf,
    Macro::Incf,
    Macro::Decf,
    Macro::Push,
    Macro::Pop,
    Macro::MultipleValueBind,
    Macro::MultipleValueList,
    Macro::MultipleValueSetq,
    Macro::NthValue,
    Macro::Lambda,
    Macro::Quasiquote,
];

/// The number of a macro's symbol in every symbol table.
fn number_of(name: Macro) -> u32
    ensures { result ≡ macro_number name }
{
    match name {
        Macro::And => 33,
        Macro::Or => 34,
        Macro::Cond => 131,
        Macro::When => 132,
        Macro::Unless => 133,
        Macro::Case => 134,
        Macro::Ecase => 135,
        Macro::Typecase => 137,
        Macro::Etypecase => 138,
        Macro::Loop => 139,
        Macro::Do => 140,
        Macro::DoInOrder => 141,
        Macro::Dotimes => 142,
        Macro::Dolist => 143,
        Macro::Return => 144,
        Macro::Prog => 145,
        Macro::ProgInOrder => 146,
        Macro::Prog1 => 147,
        Macro::Prog2 => 148,
        Macro::Psetq => 149,
        Macro::Setf => 150,
        Macro::Incf => 151,
        Macro::Decf => 152,
        Macro::Push => 153,
        Macro::Pop => 154,
        Macro::MultipleValueBind => 155,
        Macro::MultipleValueList => 156,
        Macro::MultipleValueSetq => 157,
        Macro::NthValue => 158,
        Macro::Lambda => 159,
        Macro::Quasiquote => 4,
    }
}

/// The built-in macro of a symbol.
pub(crate) fn macro_of(name: SymId) -> Option<Macro>
    ensures { result ≡ macro_at (index_of name) }
{
    ALL.iter().copied().find(|m| number_of(*m) == name.0)
}

/// Whether a symbol names a built-in macro. Those that define, declare or name a package are none:
/// the expander reads their forms itself.
pub fn is_builtin(name: SymId) -> bool
    ensures { result ≡ is_macro_number (index_of name) }
{
    macro_of(name).is_some()
}
