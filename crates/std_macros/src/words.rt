//! The words that the forms of the macros are made of.

ghost use Rattle.std.specs.Prelude.{◌≡◌};
ghost use Rattle.std_macros.specs.Words.{word_symbol};

use lisp_base::SymId;

/// A word: one of the symbols that every symbol table begins with.
#[derive(Clone, Copy, PartialEq, Eq, Debug)]
pub(crate) enum Word {
    /// `NIL`
    Nil,
    /// `T`
    T,
    /// `QUOTE`
    Quote,
    /// `FUNCTION`
    Function,
    /// `QUASIQUOTE`
    Quasiquote,
    /// `UNQUOTE`
    Unquote,
    /// `UNQUOTE-SPLICING`
    UnquoteSplicing,
    /// `INTEGER`
    Integer,
    /// `CONS`
    Cons,
    /// `LIST`
    List,
    /// `MEMBER`
    Member,
    /// `AND`
    And,
    /// `OR`
    Or,
    /// `DECLARE`
    Declare,
    /// `CAR`
    Car,
    /// `CDR`
    Cdr,
    /// `RPLACA`
    Rplaca,
    /// `RPLACD`
    Rplacd,
    /// `SVREF`
    Svref,
    /// `SCHAR`
    Schar,
    /// `%SVSET`
    SetSvref,
    /// `%SCHARSET`
    SetSchar,
    /// `+`
    Add,
    /// `-`
    Subtract,
    /// `>=`
    NotLess,
    /// `SYMBOL-VALUE`
    SymbolValue,
    /// `SET`
    SetValue,
    /// `SETQ`
    Setq,
    /// `IF`
    If,
    /// `PROGN`
    Progn,
    /// `LET`
    Let,
    /// `LET*`
    LetInOrder,
    /// `THE`
    The,
    /// `BLOCK`
    Block,
    /// `RETURN-FROM`
    ReturnFrom,
    /// `TAGBODY`
    Tagbody,
    /// `GO`
    Go,
    /// `MULTIPLE-VALUE-CALL`
    MultipleValueCall,
    /// `TYPEP`
    Typep,
    /// `&OPTIONAL`
    Optional,
    /// `&REST`
    RestOf,
    /// `COND`
    Cond,
    /// `OTHERWISE`
    Otherwise,
    /// `RETURN`
    Return,
    /// `PROG1`
    Prog1,
    /// `PSETQ`
    Psetq,
    /// `SETF`
    Setf,
    /// `MULTIPLE-VALUE-LIST`
    MultipleValueList,
    /// `LAMBDA`
    Lambda,
    /// `CHAR`
    Char,
    /// `FIRST`
    First,
    /// `REST`
    Rest,
    /// `NTH`
    Nth,
    /// `AREF`
    Aref,
    /// `%APPEND`
    Append,
    /// `%NTHSET`
    SetNth,
    /// `%ASET`
    SetAref,
}

/// The symbol of a word.
pub(crate) fn symbol_of(word: Word) -> SymId
    ensures { result ≡ word_symbol word }
{
    let number = match word {
        Word::Nil => 0,
        Word::T => 1,
        Word::Quote => 2,
        Word::Function => 3,
        Word::Quasiquote => 4,
        Word::Unquote => 5,
        Word::UnquoteSplicing => 6,
        Word::Integer => 7,
        Word::Cons => 22,
        Word::List => 23,
        Word::Member => 31,
        Word::And => 33,
        Word::Or => 34,
        Word::Declare => 37,
        Word::Car => 61,
        Word::Cdr => 62,
        Word::Rplaca => 63,
        Word::Rplacd => 64,
        Word::Svref => 67,
        Word::Schar => 68,
        Word::SetSvref => 69,
        Word::SetSchar => 70,
        Word::Add => 74,
        Word::Subtract => 75,
        Word::NotLess => 84,
        Word::SymbolValue => 97,
        Word::SetValue => 99,
        Word::Setq => 105,
        Word::If => 106,
        Word::Progn => 107,
        Word::Let => 108,
        Word::LetInOrder => 109,
        Word::The => 113,
        Word::Block => 114,
        Word::ReturnFrom => 115,
        Word::Tagbody => 116,
        Word::Go => 117,
        Word::MultipleValueCall => 121,
        Word::Typep => 126,
        Word::Optional => 127,
        Word::RestOf => 128,
        Word::Cond => 131,
        Word::Otherwise => 136,
        Word::Return => 144,
        Word::Prog1 => 147,
        Word::Psetq => 149,
        Word::Setf => 150,
        Word::MultipleValueList => 156,
        Word::Lambda => 159,
        Word::Char => 170,
        Word::First => 235,
        Word::Rest => 238,
        Word::Nth => 240,
        Word::Aref => 272,
        Word::Append => 288,
        Word::SetNth => 289,
        Word::SetAref => 290,
    };
    SymId(number)
}
