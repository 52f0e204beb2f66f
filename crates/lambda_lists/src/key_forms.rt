//! The forms that `&KEY` parameters stand for.

ghost use Rattle.std.specs.Prelude.{◌≡◌, [], IfOk, OnOk, None, Some, map, slice_get};
ghost use Rattle.lisp_base.specs.Sort.{number_of};
ghost use Rattle.lisp_forms.specs.Growth.{Grows};
ghost use Rattle.lisp_forms.specs.Trees.{tree_of};
ghost use Rattle.lambda_lists.specs.LambdaLists.{bound as bound_of, bound_key as bound_key_of, bound_keys as bound_keys_of, key_forms, keyed, keyword_in, keyword_of as keyword_of_symbol, made as made_of, made_forms as made_forms_of, name_of as name_of_symbol};
ghost use Rattle.lambda_lists.specs.Readings.{KeepsSymbols, bindings_of, defaults_of, forms_of, keyed_of};

use crate::lists::{Binding, Defaulted, SymIds};
use crate::templates::{refusal, supplied, test, value};
use lisp_base::{Heap, NIL, SymFault, SymId, SymKind, SymTab, Val};
use lisp_forms::{Template, build};
use std::alloc::{AllocError, Global};

/// The forms that `&KEY` parameters stand for, over the list of a call's further arguments.
#[derive(Drop)]
pub struct KeyForms {
    /// Whether that list has an even number of elements, and every other one from the first on is
    /// one of the keywords.
    pub test: Val,
    /// The variables with their forms, in their order.
    pub bindings: Vec<Binding>,
    /// The form where the list is otherwise: a call with a wrong number of arguments.
    pub refusal: Val,
}

/// Why the forms cannot be made.
#[derive(Clone, Copy, PartialEq, Eq, Debug)]
pub enum KeyFault {
    /// A keyword is needed, and 65,536 symbols are there.
    TooManySymbols,
    /// Want of memory.
    Memory,
}

/// A parameter and its keyword.
#[derive(Clone, Copy)]
struct Keyed {
    keyword: SymId,
    parameter: Defaulted,
}

/// The name of a symbol.
fn name_of(symbols: &SymTab, id: SymId) -> &str
    ensures { result.now ≡ name_of_symbol (slice_get symbols.now.symbols (number_of id)) }
{
    match symbols.name(id) {
        Some(name) => name,
        None => "",
    }
}

/// The keyword of a variable's name.
fn keyword_of(alloc: Global, variable: SymId, symbols: &mut SymTab) -> Result<SymId, SymFault>
    ensures ok { IfOk result (λ id. keyword_of_symbol variable symbols.old ≡ Some (id, symbols.new)) }
    ensures too_many { result ≡ Err SymFault.TooMany → keyword_of_symbol variable symbols.old ≡ None }
    ensures kept { KeepsSymbols symbols.old symbols.new }
{
    let name = String::from_str(alloc, name_of(symbols, variable))?;
    symbols.intern(&name, SymKind::Keyword)
}

/// The parameters with their keywords, from left to right.
fn with_keywords(
    alloc: Global,
    parameters: &[Defaulted],
    symbols: &mut SymTab,
) -> Result<Vec<Keyed>, SymFault>
    ensures ok { IfOk result (λ keys. keyed (defaults_of parameters.now) symbols.old ≡ Some (map keyed_of keys.items, symbols.new)) }
    ensures too_many { result ≡ Err SymFault.TooMany → keyed (defaults_of parameters.now) symbols.old ≡ None }
    ensures kept { KeepsSymbols symbols.old symbols.new }
{
    let mut keys = Vec::new(alloc);
    for parameter in parameters {
        match keyword_of(alloc, parameter.variable, symbols) {
            Ok(keyword) => keys.push(Keyed {
                keyword,
                parameter: *parameter,
            })?,
            Err(fault) => return Err(fault),
        }
    }
    Ok(keys)
}

/// The keywords of parameters.
fn keywords(alloc: Global, keys: &[Keyed]) -> Result<SymIds, AllocError>
    ensures { IfOk result (λ ids. ids.items ≡ map keyword_in (map keyed_of keys.now)) }
{
    let mut ids = Vec::new(alloc);
    for key in keys {
        ids.push(key.keyword)?;
    }
    Ok(ids)
}

/// Makes the form of a template.
fn make(alloc: Global, heap: &mut Heap, template: &Template) -> Result<Val, AllocError>
    ensures ok { IfOk result (λ form. made_of (tree_of template.now) heap.old ≡ (form, heap.new)) }
    ensures grown { Grows heap.old heap.new }
{
    build(alloc, heap, template, &[], Val::Sym(NIL))
}

/// Adds the binding of a variable to the form of a template.
fn bind(
    alloc: Global,
    heap: &mut Heap,
    variable: SymId,
    template: &Template,
    bindings: &mut Vec<Binding>,
) -> Result<(), AllocError>
    ensures ok { OnOk result (bound_of variable (tree_of template.now) (bindings_of bindings.old.items, heap.old) ≡ (bindings_of bindings.new.items, heap.new)) }
    ensures grown { Grows heap.old heap.new }
{
    let value = make(alloc, heap, template)?;
    bindings.push(Binding { variable, value })?;
    Ok(())
}

/// Adds the binding of a parameter, and after it that of its supplied variable.
fn bind_key(
    alloc: Global,
    heap: &mut Heap,
    rest: SymId,
    key: &Keyed,
    bindings: &mut Vec<Binding>,
) -> Result<(), AllocError>
    ensures ok { OnOk result (bound_key_of rest (keyed_of key.now) (bindings_of bindings.old.items, heap.old) ≡ (bindings_of bindings.new.items, heap.new)) }
    ensures grown { Grows heap.old heap.new }
{
    let parameter = key.parameter;
    let form = value(alloc, rest, key.keyword, parameter.value)?;
    bind(alloc, heap, parameter.variable, &form, bindings)?;
    match parameter.supplied {
        Some(variable) => {
            let form = supplied(alloc, rest, key.keyword)?;
            bind(alloc, heap, variable, &form, bindings)
        }
        None => Ok(()),
    }
}

/// Adds the bindings of parameters.
fn bind_keys(
    alloc: Global,
    heap: &mut Heap,
    rest: SymId,
    keys: &[Keyed],
) -> Result<Vec<Binding>, AllocError>
    ensures ok { IfOk result (λ made. bound_keys_of rest (map keyed_of keys.now) ([], heap.old) ≡ (bindings_of made.items, heap.new)) }
    ensures grown { Grows heap.old heap.new }
{
    let mut bindings = Vec::new(alloc);
    for key in keys {
        bind_key(alloc, heap, rest, key, &mut bindings)?;
    }
    Ok(bindings)
}

/// The forms of parameters with their keywords.
#[tactic(auto, unfolding(crate::specs::LambdaLists::made_forms))]
fn make_forms(
    alloc: Global,
    heap: &mut Heap,
    rest: SymId,
    keys: &[Keyed],
) -> Result<KeyForms, AllocError>
    ensures ok { IfOk result (λ made. made_forms_of rest (map keyed_of keys.now) heap.old ≡ (forms_of made, heap.new)) }
    ensures grown { Grows heap.old heap.new }
{
    let test = make(alloc, heap, &test(alloc, rest, &keywords(alloc, keys)?)?)?;
    let bindings = bind_keys(alloc, heap, rest, keys)?;
    let refusal = make(alloc, heap, &refusal(alloc, rest)?)?;
    Ok(KeyForms {
        test,
        bindings,
        refusal,
    })
}

/// The forms that `&KEY` parameters stand for: their keywords are those of their variables' names,
/// and `rest` is the variable of a call's further arguments (ANSI Common Lisp 3.4.1.4; the forms
/// are this project's own).
///
/// # Errors
/// `TooManySymbols` exactly where a keyword has no room in the table; want of memory. Symbols and
/// objects that were there stay as they were, also after a refusal.
#[tactic(auto, unfolding(crate::specs::LambdaLists::key_forms))]
pub fn make_key_forms(
    alloc: Global,
    rest: SymId,
    parameters: &[Defaulted],
    symbols: &mut SymTab,
    heap: &mut Heap,
) -> Result<KeyForms, KeyFault>
    ensures ok { IfOk result (λ made. key_forms rest (defaults_of parameters.now) symbols.old heap.old ≡ Some (forms_of made, symbols.new, heap.new)) }
    ensures full { result ≡ Err KeyFault.TooManySymbols → key_forms rest (defaults_of parameters.now) symbols.old heap.old ≡ None }
    ensures symbols { KeepsSymbols symbols.old symbols.new }
    ensures heap { Grows heap.old heap.new }
{
    let keys = match with_keywords(alloc, parameters, symbols) {
        Ok(keys) => keys,
        Err(SymFault::TooMany) => return Err(KeyFault::TooManySymbols),
        Err(SymFault::Memory) => return Err(KeyFault::Memory),
    };
    match make_forms(alloc, heap, rest, &keys) {
        Ok(made) => Ok(made),
        Err(_) => Err(KeyFault::Memory),
    }
}
