//! The symbols that can be variables.

ghost use Rattle.std.specs.Prelude.{◌≡◌, IfOk};
ghost use Rattle.std.specs.Option.{option_map};
ghost use Rattle.lambda_lists.specs.LambdaLists.{can_be_bound as can_be_bound_in, each, is_free_name as is_free_name_of, is_word as is_word_name, variable as variable_in};

use crate::lists::SymIds;
use lisp_base::{SymId, SymKind, SymTab, Val};
use std::alloc::{AllocError, Global};

/// Whether a name is a word of lambda lists (ANSI Common Lisp 3.4), also one that this language
/// leaves out.
fn is_word(name: &str) -> bool
    ensures { result ≡ is_word_name name.now }
{
    matches!(
        name,
        "&OPTIONAL"
            | "&REST"
            | "&KEY"
            | "&AUX"
            | "&BODY"
            | "&WHOLE"
            | "&ENVIRONMENT"
            | "&ALLOW-OTHER-KEYS"
    )
}

/// Whether a symbol of this kind and name is no keyword and no word of lambda lists.
fn is_free_name(kind: SymKind, name: &str) -> bool
    ensures { result ≡ is_free_name_of kind name.now }
{
    match kind {
        SymKind::Plain => !is_word(name),
        SymKind::Keyword => false,
        SymKind::Fresh => true,
    }
}

/// Whether a symbol can be bound: it is in the table, and is not NIL, not T, no keyword and no word
/// of lambda lists.
fn can_be_bound(symbols: &SymTab, id: SymId) -> bool
    ensures { result ≡ can_be_bound_in symbols.now id }
{
    let (Some(kind), Some(name)) = (symbols.kind(id), symbols.name(id)) else {
        return false;
    };
    id.0 > 1 && is_free_name(kind, name)
}

/// The variable that a value is, where it is a symbol that can be bound.
pub(crate) fn variable(symbols: &SymTab, value: Val) -> Option<SymId>
    ensures { result ≡ variable_in symbols.now value }
{
    match value {
        Val::Sym(id) => {
            if can_be_bound(symbols, id) {
                Some(id)
            } else {
                None
            }
        }
        Val::Int(_) | Val::Char(_) | Val::Ref(_) => None,
    }
}

/// The variables that all of these values are.
pub(crate) fn variables(
    alloc: Global,
    symbols: &SymTab,
    values: &[Val],
) -> Result<Option<SymIds>, AllocError>
    ensures { IfOk result (λ found. option_map (λ ids. ids.items) found ≡ each (variable_in symbols.now) values.now) }
{
    let mut ids = Vec::new(alloc);
    for value in values {
        let Some(id) = variable(symbols, *value) else {
            return Ok(None);
        };
        ids.push(id)?;
    }
    Ok(Some(ids))
}
