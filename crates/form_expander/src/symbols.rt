//! Symbols as forms: constants, variables, and the words that stand first in a list.

ghost use Rattle.std.specs.Prelude.{◌≡◌};
ghost use Rattle.lisp_base.specs.Membership.{is_symbol_number};
ghost use Rattle.lisp_base.specs.Sort.{number_of};
ghost use Rattle.expansion.specs.Forms as plain;
ghost use Rattle.form_expander.specs.Reading.{scope_of};

use crate::operators::is_reserved;
use crate::scope::Scope;
use lisp_base::base_symbols::LAMBDA;
use lisp_base::{Heap, NIL, SymId, SymKind, SymTab, T, Val};
use lisp_forms::cons_of;

/// Whether a value is this symbol.
pub(crate) fn is_symbol(symbol: SymId, value: Val) -> bool
    ensures { result ≡ is_symbol_number (number_of symbol) value }
{
    match value {
        Val::Sym(id) => id.0 == symbol.0,
        Val::Int(_) | Val::Char(_) | Val::Ref(_) => false,
    }
}

/// The symbol that a value is.
pub(crate) fn symbol_in(value: Val) -> Option<SymId>
    ensures { result ≡ plain.symbol_in value }
{
    match value {
        Val::Sym(id) => Some(id),
        Val::Int(_) | Val::Char(_) | Val::Ref(_) => None,
    }
}

/// Whether a value is a tag: a symbol or an integer.
pub(crate) fn is_tag(value: Val) -> bool
    ensures { result ≡ plain.is_tag value }
{
    match value {
        Val::Int(_) | Val::Sym(_) => true,
        Val::Char(_) | Val::Ref(_) => false,
    }
}

/// Whether a symbol is a constant: NIL, T or a keyword.
pub(crate) fn is_constant_symbol(symbols: &SymTab, symbol: SymId) -> bool
    ensures { result ≡ plain.is_constant_symbol symbols.now symbol }
{
    symbol.0 <= T.0 || matches!(symbols.kind(symbol), Some(SymKind::Keyword))
}

/// The symbol that a value is, where it is a variable's: no constant.
pub(crate) fn variable_in(symbols: &SymTab, value: Val) -> Option<SymId>
    ensures { result ≡ plain.variable_in symbols.now value }
{
    let symbol = symbol_in(value)?;
    if is_constant_symbol(symbols, symbol) {
        None
    } else {
        Some(symbol)
    }
}

/// The symbol that a value is, where a file may give it to a function. The functions of the prelude
/// have names that a file may not give.
pub(crate) fn definable(scope: &Scope, name: Val) -> Option<SymId>
    ensures { result ≡ plain.definable (scope_of scope.now) name }
{
    let symbol = symbol_in(name)?;
    if is_reserved(symbol) && !scope.is_fixed {
        None
    } else {
        Some(symbol)
    }
}

/// All but the first element of a list.
pub(crate) fn tail_of(heap: &Heap, form: Val) -> Val
    ensures { result ≡ plain.tail_of heap.now form }
{
    match cons_of(heap, form) {
        Some((_, rest)) => rest,
        None => Val::Sym(NIL),
    }
}

/// The list after `LAMBDA`.
pub(crate) fn lambda_in(heap: &Heap, form: Val) -> Option<Val>
    ensures { result ≡ plain.lambda_in heap.now form }
{
    let (first, rest) = cons_of(heap, form)?;
    if is_symbol(LAMBDA, first) {
        Some(rest)
    } else {
        None
    }
}
