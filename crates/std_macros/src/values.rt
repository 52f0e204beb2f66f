//! Macros for several values, and for functions.

ghost use Rattle.std.specs.Prelude.{◌≡◌, IfOk, map};
ghost use Rattle.std.specs.Option.{option_map};
ghost use Rattle.lisp_forms.specs.Trees.{tree_of};
ghost use Rattle.std_macros.specs.ManyValues.{bind_values as bind_values_of, bind_values_row, lambda_row, list_values_row, nth_value_row, receive_form as receive_form_of, set_form as set_form_of, set_values as set_values_of, set_values_row};
ghost use Rattle.std_macros.specs.Rules.{expansion_of};

use crate::making::{
    add_all, add_forms, add_fresh, add_fresh_sets, call, form, fresh, list, one, plain, two, word,
};
use crate::rule::Rule;
use crate::syntax::all_symbols;
use crate::words::Word;
use lisp_base::{Heap, Val};
use lisp_forms::{Template, Templates, elements};
use std::alloc::{AllocError, Global};

/// A call of a function that receives the values of a form: optional parameters, and one for the
/// rest of the values.
fn receive_form(
    alloc: Global,
    variables: Templates,
    rest: Template,
    body: Templates,
    value: Val,
) -> Result<Template, AllocError>
    ensures { IfOk result (λ made. tree_of made ≡ receive_form_of (map tree_of variables.items) (tree_of rest) (map tree_of body.items) value) }
{
    let mut parameters = vec![in alloc; word(Word::Optional)]?;
    add_all(&mut parameters, variables)?;
    add_all(&mut parameters, vec![in alloc; word(Word::RestOf), rest]?)?;
    let mut function = vec![in alloc; word(Word::Lambda), list(parameters)]?;
    add_all(&mut function, body)?;
    two(alloc, Word::MultipleValueCall, list(function), form(value))
}

/// `MULTIPLE-VALUE-BIND` of these variables.
fn bind_values(
    alloc: Global,
    value: Val,
    body: &[Val],
    variables: &[Val],
) -> Result<Option<Rule>, AllocError>
    ensures { IfOk result (λ found. option_map expansion_of found ≡ bind_values_of value body.now variables.now) }
{
    if !all_symbols(variables) {
        return Ok(None);
    }
    let mut parameters = Vec::new(alloc);
    add_forms(&mut parameters, variables)?;
    let mut forms = Vec::new(alloc);
    add_forms(&mut forms, body)?;
    let made = receive_form(alloc, parameters, fresh(0), forms, value)?;
    Ok(Some(plain(alloc, 1, made)))
}

/// `MULTIPLE-VALUE-BIND`.
pub(crate) fn bind(
    alloc: Global,
    heap: &Heap,
    arguments: &[Val],
) -> Result<Option<Rule>, AllocError>
    ensures { IfOk result (λ found. option_map expansion_of found ≡ bind_values_row heap.now arguments.now) }
{
    let [variables, value, body @ ..] = arguments else {
        return Ok(None);
    };
    match elements(alloc, heap, *variables)? {
        Some(variables) => bind_values(alloc, *value, body, &variables),
        None => Ok(None),
    }
}

/// `MULTIPLE-VALUE-LIST`.
pub(crate) fn list_values(alloc: Global, arguments: &[Val]) -> Result<Option<Rule>, AllocError>
    ensures { IfOk result (λ found. option_map expansion_of found ≡ list_values_row arguments.now) }
{
    let [value] = arguments else {
        return Ok(None);
    };
    let function = one(alloc, Word::Function, word(Word::List))?;
    let made = two(alloc, Word::MultipleValueCall, function, form(*value))?;
    Ok(Some(plain(alloc, 0, made)))
}

/// The call that sets these variables.
fn set_form(alloc: Global, value: Val, variables: &[Val]) -> Result<Template, AllocError>
    ensures { IfOk result (λ made. tree_of made ≡ set_form_of value variables.now) }
{
    let count = variables.len();
    let mut parameters = Vec::new(alloc);
    add_fresh(&mut parameters, 0, count)?;
    let mut settings = vec![in alloc; word(Word::Progn)]?;
    add_fresh_sets(alloc, &mut settings, variables)?;
    let body = vec![in alloc; list(settings), fresh(0)]?;
    receive_form(alloc, parameters, fresh(count), body, value)
}

/// `MULTIPLE-VALUE-SETQ` of these variables.
fn set_values(alloc: Global, value: Val, variables: &[Val]) -> Result<Option<Rule>, AllocError>
    ensures { IfOk result (λ found. option_map expansion_of found ≡ set_values_of value variables.now) }
{
    if variables.is_empty() {
        return Ok(Some(plain(alloc, 0, one(alloc, Word::Prog1, form(value))?)));
    }
    if !all_symbols(variables) {
        return Ok(None);
    }
    let made = set_form(alloc, value, variables)?;
    Ok(Some(plain(alloc, variables.len() + 1, made)))
}

/// `MULTIPLE-VALUE-SETQ`.
pub(crate) fn set(alloc: Global, heap: &Heap, arguments: &[Val]) -> Result<Option<Rule>, AllocError>
    ensures { IfOk result (λ found. option_map expansion_of found ≡ set_values_row heap.now arguments.now) }
{
    let [variables, value] = arguments else {
        return Ok(None);
    };
    match elements(alloc, heap, *variables)? {
        Some(variables) => set_values(alloc, *value, &variables),
        None => Ok(None),
    }
}

/// `NTH-VALUE`.
pub(crate) fn nth_value(alloc: Global, arguments: &[Val]) -> Result<Option<Rule>, AllocError>
    ensures { IfOk result (λ found. option_map expansion_of found ≡ nth_value_row arguments.now) }
{
    let [number, value] = arguments else {
        return Ok(None);
    };
    let values = one(alloc, Word::MultipleValueList, form(*value))?;
    let made = two(alloc, Word::Nth, form(*number), values)?;
    Ok(Some(plain(alloc, 0, made)))
}

/// `LAMBDA`.
pub(crate) fn lambda(alloc: Global, arguments: &[Val]) -> Result<Option<Rule>, AllocError>
    ensures { IfOk result (λ found. option_map expansion_of found ≡ lambda_row arguments.now) }
{
    if arguments.is_empty() {
        return Ok(None);
    }
    let function = call(alloc, Word::Lambda, arguments)?;
    Ok(Some(plain(alloc, 0, one(alloc, Word::Function, function)?)))
}
