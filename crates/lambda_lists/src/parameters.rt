//! Parameters that may be left out, and those of `&AUX`.

ghost use Rattle.std.specs.Prelude.{◌≡◌, IfOk};
ghost use Rattle.std.specs.Option.{option_map};
ghost use Rattle.lambda_lists.specs.LambdaLists.{auxiliary_at as auxiliary_in, auxiliary_with as auxiliary_of_list, default_at as default_in, default_with as default_of_list, each, listed_default as default_of_section};
ghost use Rattle.lambda_lists.specs.Readings.{binding_of, bindings_of, default_of, defaults_of};
ghost use Rattle.lisp_base.specs.Membership.{is_symbol as is_symbol_value};

use crate::lists::{Binding, Defaulted};
use crate::variables::variable;
use lisp_base::{Heap, NIL, SymTab, Val};
use lisp_forms::elements;
use std::alloc::{AllocError, Global};

/// The form of a value where none is written.
const MISSING: Val = Val::Sym(NIL);

/// A section of parameters that may be left out.
#[derive(Clone, Copy, PartialEq, Eq, Debug)]
pub(crate) enum Section {
    /// `&OPTIONAL`
    Optional,
    /// `&KEY`
    Key,
}

/// Whether a value is a symbol.
fn is_symbol(value: Val) -> bool
    ensures { result ≡ is_symbol_value value }
{
    matches!(value, Val::Sym(_))
}

/// The parameter that `(V)`, `(V E)` or `(V E S)` is.
fn default_with(symbols: &SymTab, parts: &[Val]) -> Option<Defaulted>
    ensures { option_map default_of result ≡ default_of_list symbols.now parts.now }
{
    match parts {
        [name] => Some(Defaulted {
            variable: variable(symbols, *name)?,
            value: MISSING,
            supplied: None,
        }),
        [name, value] => Some(Defaulted {
            variable: variable(symbols, *name)?,
            value: *value,
            supplied: None,
        }),
        [name, value, supplied] => Some(Defaulted {
            variable: variable(symbols, *name)?,
            value: *value,
            supplied: Some(variable(symbols, *supplied)?),
        }),
        [] | [_, _, _, _, ..] => None,
    }
}

/// The parameter that a list is. After `&KEY` it has two elements at least.
fn listed_default(section: Section, symbols: &SymTab, parts: &[Val]) -> Option<Defaulted>
    ensures { option_map default_of result ≡ default_of_section section symbols.now parts.now }
{
    match section {
        Section::Optional => default_with(symbols, parts),
        Section::Key => match parts {
            [] | [_] => None,
            [_, _, ..] => default_with(symbols, parts),
        },
    }
}

/// The parameter that a value is: a variable, or a list.
fn default_at(
    alloc: Global,
    section: Section,
    symbols: &SymTab,
    heap: &Heap,
    value: Val,
) -> Result<Option<Defaulted>, AllocError>
    ensures { IfOk result (λ found. option_map default_of found ≡ default_in section heap.now symbols.now value) }
{
    if is_symbol(value) {
        return Ok(default_with(symbols, &[value]));
    }
    match elements(alloc, heap, value)? {
        Some(parts) => Ok(listed_default(section, symbols, &parts)),
        None => Ok(None),
    }
}

/// The parameters that all of these values are.
pub(crate) fn defaults(
    alloc: Global,
    section: Section,
    symbols: &SymTab,
    heap: &Heap,
    values: &[Val],
) -> Result<Option<Vec<Defaulted>>, AllocError>
    ensures { IfOk result (λ found. option_map (λ ds. defaults_of ds.items) found ≡ each (default_in section heap.now symbols.now) values.now) }
{
    let mut defaults = Vec::new(alloc);
    for value in values {
        let Some(parameter) = default_at(alloc, section, symbols, heap, *value)? else {
            return Ok(None);
        };
        defaults.push(parameter)?;
    }
    Ok(Some(defaults))
}

/// The binding that `(V)` or `(V E)` is.
fn auxiliary_with(symbols: &SymTab, parts: &[Val]) -> Option<Binding>
    ensures { option_map binding_of result ≡ auxiliary_of_list symbols.now parts.now }
{
    match parts {
        [name] => Some(Binding {
            variable: variable(symbols, *name)?,
            value: MISSING,
        }),
        [name, value] => Some(Binding {
            variable: variable(symbols, *name)?,
            value: *value,
        }),
        [] | [_, _, _, ..] => None,
    }
}

/// The binding that a value after `&AUX` is: a variable, or a list.
fn auxiliary_at(
    alloc: Global,
    symbols: &SymTab,
    heap: &Heap,
    value: Val,
) -> Result<Option<Binding>, AllocError>
    ensures { IfOk result (λ found. option_map binding_of found ≡ auxiliary_in heap.now symbols.now value) }
{
    if is_symbol(value) {
        return Ok(auxiliary_with(symbols, &[value]));
    }
    match elements(alloc, heap, value)? {
        Some(parts) => Ok(auxiliary_with(symbols, &parts)),
        None => Ok(None),
    }
}

/// The bindings that all of these values after `&AUX` are.
pub(crate) fn auxiliaries(
    alloc: Global,
    symbols: &SymTab,
    heap: &Heap,
    values: &[Val],
) -> Result<Option<Vec<Binding>>, AllocError>
    ensures { IfOk result (λ found. option_map (λ bs. bindings_of bs.items) found ≡ each (auxiliary_in heap.now symbols.now) values.now) }
{
    let mut bindings = Vec::new(alloc);
    for value in values {
        let Some(binding) = auxiliary_at(alloc, symbols, heap, *value)? else {
            return Ok(None);
        };
        bindings.push(binding)?;
    }
    Ok(Some(bindings))
}
