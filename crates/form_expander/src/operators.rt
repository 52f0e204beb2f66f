//! The operators whose forms the expander reads itself, the functions whose calls it writes
//! otherwise, and the names that a file may not give to a function.

ghost use Rattle.std.specs.Prelude.{◌≡◌};
ghost use Rattle.expansion.specs.Operators as plain;

use expansion::{Direct, Operator};
use lisp_base::{SymId, base_symbols};

/// All operators, in the order of their table.
const OPERATORS: [Operator; 30] = [
    Operator::Quote,
    Operator::Function,
    Operator::Setq,
    Operator::If,
    Operator::Progn,
    Operator::Let,
    Operator::LetInOrder,
    Operator::Flet,
    Operator::Labels,
    Operator::Locally,
    Operator::The,
    Operator::Block,
    Operator::ReturnFrom,
    Operator::Tagbody,
    Operator::Go,
    Operator::Catch,
    Operator::Throw,
    Operator::UnwindProtect,
    Operator::MultipleValueCall,
    Operator::MultipleValueProg1,
    Operator::Values,
    Operator::Funcall,
    Operator::Apply,
    Operator::Typep,
    Operator::Defun,
    Operator::Defvar,
    Operator::Defparameter,
    Operator::Defconstant,
    Operator::Declaim,
    Operator::InPackage,
];

/// All functions whose calls are written otherwise, in the order of their table.
const DIRECTS: [Direct; 29] = [
    Direct::Add,
    Direct::Subtract,
    Direct::Multiply,
    Direct::LogAnd,
    Direct::LogIor,
    Direct::LogXor,
    Direct::Increment,
    Direct::Decrement,
    Direct::Truncate,
    Direct::Floor,
    Direct::ReadChar,
    Direct::Error,
    Direct::Eql,
    Direct::Char,
    Direct::Not,
    Direct::Null,
    Direct::Consp,
    Direct::Listp,
    Direct::Atom,
    Direct::Symbolp,
    Direct::Keywordp,
    Direct::Integerp,
    Direct::Numberp,
    Direct::Characterp,
    Direct::Functionp,
    Direct::Stringp,
    Direct::SimpleStringP,
    Direct::Vectorp,
    Direct::SimpleVectorP,
];

/// The names that are taken, as ranges of the numbers of symbols; the upper end is the first number
/// past them.
const RESERVED: [(u32, u32); 11] = [
    (2, 5),
    (15, 16),
    (20, 21),
    (22, 25),
    (27, 29),
    (31, 37),
    (38, 39),
    (61, 127),
    (131, 136),
    (137, 165),
    (167, 310),
];

/// The symbol that names an operator.
fn operator_symbol(operator: Operator) -> SymId
    ensures { result ≡ plain.operator_symbol operator }
{
    match operator {
        Operator::Quote => base_symbols::QUOTE,
        Operator::Function => base_symbols::FUNCTION,
        Operator::Setq => base_symbols::SETQ,
        Operator::If => base_symbols::IF,
        Operator::Progn => base_symbols::PROGN,
        Operator::Let => base_symbols::LET,
        Operator::LetInOrder => base_symbols::LET_STAR,
        Operator::Flet => base_symbols::FLET,
        Operator::Labels => base_symbols::LABELS,
        Operator::Locally => base_symbols::LOCALLY,
        Operator::The => base_symbols::THE,
        Operator::Block => base_symbols::BLOCK,
        Operator::ReturnFrom => base_symbols::RETURN_FROM,
        Operator::Tagbody => base_symbols::TAGBODY,
        Operator::Go => base_symbols::GO,
        Operator::Catch => base_symbols::CATCH,
        Operator::Throw => base_symbols::THROW,
        Operator::UnwindProtect => base_symbols::UNWIND_PROTECT,
        Operator::MultipleValueCall => base_symbols::MULTIPLE_VALUE_CALL,
        Operator::MultipleValueProg1 => base_symbols::MULTIPLE_VALUE_PROG1,
        Operator::Values => base_symbols::VALUES,
        Operator::Funcall => base_symbols::FUNCALL,
        Operator::Apply => base_symbols::APPLY,
        Operator::Typep => base_symbols::TYPEP,
        Operator::Defun => base_symbols::DEFUN,
        Operator::Defvar => base_symbols::DEFVAR,
        Operator::Defparameter => base_symbols::DEFPARAMETER,
        Operator::Defconstant => base_symbols::DEFCONSTANT,
        Operator::Declaim => base_symbols::DECLAIM,
        Operator::InPackage => base_symbols::IN_PACKAGE,
    }
}

/// The operator that a symbol names.
#[tactic(auto, unfolding(expansion::specs::Operators::operator_of))]
pub(crate) fn operator_of(name: SymId) -> Option<Operator>
    ensures { result ≡ plain.operator_of name }
{
    OPERATORS
        .iter()
        .copied()
        .find(|operator| operator_symbol(*operator).0 == name.0)
}

/// The number of the symbol that names a function whose calls are written otherwise.
fn direct_number(call: Direct) -> u32
    ensures { result ≡ plain.direct_number call }
{
    match call {
        Direct::Add => base_symbols::ADD.0,
        Direct::Subtract => base_symbols::SUBTRACT.0,
        Direct::Multiply => base_symbols::STAR.0,
        Direct::LogAnd => 85,
        Direct::LogIor => 86,
        Direct::LogXor => 87,
        Direct::Increment => base_symbols::INCREMENT.0,
        Direct::Decrement => base_symbols::DECREMENT.0,
        Direct::Truncate => 76,
        Direct::Floor => 77,
        Direct::ReadChar => base_symbols::READ_CHAR.0,
        Direct::Error => base_symbols::ERROR.0,
        Direct::Eql => base_symbols::EQL.0,
        Direct::Char => base_symbols::CHAR.0,
        Direct::Not => base_symbols::NOT.0,
        Direct::Null => base_symbols::NULL.0,
        Direct::Consp => base_symbols::CONSP.0,
        Direct::Listp => base_symbols::LISTP.0,
        Direct::Atom => base_symbols::ATOM.0,
        Direct::Symbolp => base_symbols::SYMBOLP.0,
        Direct::Keywordp => base_symbols::KEYWORDP.0,
        Direct::Integerp => base_symbols::INTEGERP.0,
        Direct::Numberp => base_symbols::NUMBERP.0,
        Direct::Characterp => base_symbols::CHARACTERP.0,
        Direct::Functionp => base_symbols::FUNCTIONP.0,
        Direct::Stringp => base_symbols::STRINGP.0,
        Direct::SimpleStringP => base_symbols::SIMPLE_STRING_P.0,
        Direct::Vectorp => base_symbols::VECTORP.0,
        Direct::SimpleVectorP => base_symbols::SIMPLE_VECTOR_P.0,
    }
}

/// The function of a name, where its calls are written otherwise.
#[tactic(auto, unfolding(expansion::specs::Operators::direct_of))]
pub(crate) fn direct_of(name: SymId) -> Option<Direct>
    ensures { result ≡ plain.direct_of name }
{
    DIRECTS
        .iter()
        .copied()
        .find(|call| direct_number(*call) == name.0)
}

/// Whether a symbol names an operator of the standard that is left out.
#[tactic(auto, unfolding(expansion::specs::Operators::is_left_out))]
pub(crate) fn is_left_out(name: SymId) -> bool
    ensures { result ≡ plain.is_left_out name }
{
    183 <= name.0 && name.0 < 205
}

/// Whether a file may not give this name to a function: the name of an operator, a macro, a
/// primitive or a function of the prelude.
#[tactic(auto, unfolding(expansion::specs::Operators::is_reserved))]
pub(crate) fn is_reserved(name: SymId) -> bool
    ensures { result ≡ plain.is_reserved name }
{
    RESERVED
        .iter()
        .any(|range| range.0 <= name.0 && name.0 < range.1)
}
