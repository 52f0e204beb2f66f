//! The parameters that a lambda list says.

ghost use Rattle.std.specs.Prelude.{◌≡◌, IfOk};
ghost use Rattle.std.specs.Option.{option_map};
ghost use Rattle.std.specs.List.{position};
ghost use Rattle.lambda_lists.specs.LambdaLists.{auxiliary_at, cut as cut_of, default_at, each_in, keys_in, lambda_list, list_of_sections as list_of_the_sections, rest_in, sections as sections_of_list};
ghost use Rattle.lambda_lists.specs.Readings.{bindings_of, defaults_of, list_of, sections_of};
ghost use Rattle.lambda_lists.specs.declared.parameters.Section.TheVariants.{Optional};
ghost use Rattle.lisp_base.specs.Membership.{is_symbol_number};
ghost use Rattle.lisp_base.specs.Sort.{number_of};

use crate::lists::{Binding, Defaulted, LambdaList};
use crate::parameters::{Section, auxiliaries, defaults};
use crate::variables::{variable, variables};
use lisp_base::base_symbols::{
    LAMBDA_LIST_AUX, LAMBDA_LIST_KEY, LAMBDA_LIST_OPTIONAL, LAMBDA_LIST_REST,
};
use lisp_base::{Heap, SymId, SymTab, Val};
use lisp_forms::elements;
use std::alloc::{AllocError, Global};

/// The sections of a lambda list: its required parameters, and what stands after each word.
#[derive(Clone, Copy)]
struct Sections<'a> {
    required: &'a [Val],
    optional: Option<&'a [Val]>,
    rest: Option<&'a [Val]>,
    keys: Option<&'a [Val]>,
    auxiliary: Option<&'a [Val]>,
}

/// Whether a value is this symbol.
fn is_symbol(symbol: SymId, value: Val) -> bool
    ensures { result ≡ is_symbol_number (number_of symbol) value }
{
    match value {
        Val::Sym(id) => id.0 == symbol.0,
        Val::Int(_) | Val::Char(_) | Val::Ref(_) => false,
    }
}

/// The index of a word, where it stands first.
fn place_of(word: SymId, values: &[Val]) -> Option<usize>
    ensures { result ≡ position (is_symbol_number (number_of word)) values.now }
{
    values.iter().position(|value| is_symbol(word, *value))
}

/// What stands before a word and what after it, where it stands first.
fn cut(word: SymId, values: &[Val]) -> (&[Val], Option<&[Val]>)
    ensures { (result.0.now, option_map (λ after. after.now) result.1) ≡ cut_of word values.now }
{
    match place_of(word, values) {
        Some(index) => (&values[..index], Some(&values[index + 1..])),
        None => (values, None),
    }
}

/// The sections of a lambda list, by its words from the last on.
fn cut_all(values: &[Val]) -> Sections<'_>
    ensures { sections_of result ≡ sections_of_list values.now }
{
    let (values, auxiliary) = cut(LAMBDA_LIST_AUX, values);
    let (values, keys) = cut(LAMBDA_LIST_KEY, values);
    let (values, rest) = cut(LAMBDA_LIST_REST, values);
    let (required, optional) = cut(LAMBDA_LIST_OPTIONAL, values);
    Sections {
        required,
        optional,
        rest,
        keys,
        auxiliary,
    }
}

/// The parameters of `&OPTIONAL`.
fn optionals(
    alloc: Global,
    symbols: &SymTab,
    heap: &Heap,
    section: Option<&[Val]>,
) -> Result<Option<Vec<Defaulted>>, AllocError>
    ensures { IfOk result (λ found. option_map (λ ds. defaults_of ds.items) found ≡ each_in (default_at Optional heap.now symbols.now) (option_map (λ values. values.now) section.entry)) }
{
    match section {
        Some(values) => defaults(alloc, Section::Optional, symbols, heap, values),
        None => Ok(Some(Vec::new(alloc))),
    }
}

/// The variable of `&REST`, which is followed by one.
fn rest_variable(symbols: &SymTab, section: Option<&[Val]>) -> Option<Option<SymId>>
    ensures { result ≡ rest_in symbols.now (option_map (λ values. values.now) section.entry) }
{
    match section {
        None => Some(None),
        Some([name]) => Some(Some(variable(symbols, *name)?)),
        Some([] | [_, _, ..]) => None,
    }
}

/// The parameters of `&KEY`, or its absence.
fn keys(
    alloc: Global,
    symbols: &SymTab,
    heap: &Heap,
    section: Option<&[Val]>,
) -> Result<Option<Option<Vec<Defaulted>>>, AllocError>
    ensures { IfOk result (λ found. option_map (option_map (λ ds. defaults_of ds.items)) found ≡ keys_in heap.now symbols.now (option_map (λ values. values.now) section.entry)) }
{
    match section {
        Some(values) => match defaults(alloc, Section::Key, symbols, heap, values)? {
            Some(keys) => Ok(Some(Some(keys))),
            None => Ok(None),
        },
        None => Ok(Some(None)),
    }
}

/// The bindings of `&AUX`.
fn auxiliary(
    alloc: Global,
    symbols: &SymTab,
    heap: &Heap,
    section: Option<&[Val]>,
) -> Result<Option<Vec<Binding>>, AllocError>
    ensures { IfOk result (λ found. option_map (λ bs. bindings_of bs.items) found ≡ each_in (auxiliary_at heap.now symbols.now) (option_map (λ values. values.now) section.entry)) }
{
    match section {
        Some(values) => auxiliaries(alloc, symbols, heap, values),
        None => Ok(Some(Vec::new(alloc))),
    }
}

/// The lambda list of these sections; None exactly where they are outside the syntax.
fn list_of_sections(
    alloc: Global,
    symbols: &SymTab,
    heap: &Heap,
    sections: Sections,
) -> Result<Option<LambdaList>, AllocError>
    ensures { IfOk result (λ found. option_map list_of found ≡ list_of_the_sections heap.now symbols.now (sections_of sections.entry)) }
{
    let Some(required) = variables(alloc, symbols, sections.required)? else {
        return Ok(None);
    };
    let Some(optional) = optionals(alloc, symbols, heap, sections.optional)? else {
        return Ok(None);
    };
    let Some(rest) = rest_variable(symbols, sections.rest) else {
        return Ok(None);
    };
    let Some(keys) = keys(alloc, symbols, heap, sections.keys)? else {
        return Ok(None);
    };
    let Some(auxiliary) = auxiliary(alloc, symbols, heap, sections.auxiliary)? else {
        return Ok(None);
    };
    Ok(Some(LambdaList {
        required,
        optional,
        rest,
        keys,
        auxiliary,
    }))
}

/// What a lambda list says (ANSI Common Lisp 3.4.1). None exactly where it is outside the syntax: it
/// or a parameter's list is improper or too long, a word stands twice or out of order, `&REST` is
/// not followed by one variable, or a variable is no symbol that can be bound.
///
/// # Errors
/// Want of memory alone.
#[tactic(auto, unfolding(crate::specs::LambdaLists::lambda_list))]
pub fn read_lambda_list(
    alloc: Global,
    list: Val,
    symbols: &SymTab,
    heap: &Heap,
) -> Result<Option<LambdaList>, AllocError>
    ensures { IfOk result (λ found. option_map list_of found ≡ lambda_list heap.now symbols.now list) }
{
    match elements(alloc, heap, list)? {
        Some(values) => list_of_sections(alloc, symbols, heap, cut_all(&values)),
        None => Ok(None),
    }
}
