//! Macros that bind, keep a value or leave a block.

ghost use Rattle.std.specs.Prelude.{◌≡◌, IfOk};
ghost use Rattle.std.specs.Option.{option_map};
ghost use Rattle.lisp_forms.specs.Trees.{tree_of};
ghost use Rattle.std_macros.specs.Bindings.{kept_form as kept_form_of, prog1_row, prog2_row, prog_form as prog_form_of, prog_row, psetq_form as psetq_form_of, psetq_row, psetq_with as psetq_of, return_row};
ghost use Rattle.std_macros.specs.Rules.{expansion_of};
ghost use Rattle.std_macros.specs.Syntax.{parted};

use crate::loops::{Order, binder};
use crate::making::{
    add_all, add_fresh_bindings, add_fresh_sets, call, form, fresh, kept, let_form, list,
    nil_block, plain, two, word,
};
use crate::rule::Rule;
use crate::syntax::{add_declarations, after_declarations, all_symbols, pairs, undocumented};
use crate::words::Word;
use lisp_base::{Heap, Val};
use lisp_forms::Template;
use std::alloc::{AllocError, Global};

/// `RETURN`.
pub(crate) fn leave(alloc: Global, arguments: &[Val]) -> Result<Option<Rule>, AllocError>
    ensures { IfOk result (λ found. option_map expansion_of found ≡ return_row arguments.now) }
{
    let value = match arguments {
        [] => word(Word::Nil),
        [value] => form(*value),
        [_, _, ..] => return Ok(None),
    };
    let made = two(alloc, Word::ReturnFrom, word(Word::Nil), value)?;
    Ok(Some(plain(alloc, 0, made)))
}

/// The form of `PROG`.
fn prog_form(
    alloc: Global,
    order: Order,
    bindings: Val,
    heap: &Heap,
    body: &[Val],
) -> Result<Template, AllocError>
    ensures { IfOk result (λ made. tree_of made ≡ prog_form_of order bindings (parted heap.now body.now)) }
{
    let round = call(alloc, Word::Tagbody, after_declarations(heap, body))?;
    let mut elements = vec![in alloc; word(binder(order)), form(bindings)]?;
    add_declarations(&mut elements, heap, body)?;
    add_all(&mut elements, vec![in alloc; round]?)?;
    nil_block(alloc, list(elements))
}

/// `PROG` and `PROG*`.
pub(crate) fn prog(
    alloc: Global,
    order: Order,
    heap: &Heap,
    arguments: &[Val],
) -> Result<Option<Rule>, AllocError>
    ensures { IfOk result (λ found. option_map expansion_of found ≡ prog_row order heap.now arguments.now) }
{
    let [bindings, body @ ..] = arguments else {
        return Ok(None);
    };
    let made = prog_form(alloc, order, *bindings, heap, undocumented(heap, body))?;
    Ok(Some(plain(alloc, 0, made)))
}

/// `(LET ((G A)) (PROGN E*) G)`
fn kept_form(alloc: Global, value: Val, forms: &[Val]) -> Result<Template, AllocError>
    ensures { IfOk result (λ made. tree_of made ≡ kept_form_of value forms.now) }
{
    let others = call(alloc, Word::Progn, forms)?;
    kept(alloc, value, vec![in alloc; others, fresh(0)]?)
}

/// `PROG1`.
pub(crate) fn prog1(alloc: Global, arguments: &[Val]) -> Result<Option<Rule>, AllocError>
    ensures { IfOk result (λ found. option_map expansion_of found ≡ prog1_row arguments.now) }
{
    let [value, forms @ ..] = arguments else {
        return Ok(None);
    };
    Ok(Some(plain(alloc, 1, kept_form(alloc, *value, forms)?)))
}

/// `PROG2`.
pub(crate) fn prog2(alloc: Global, arguments: &[Val]) -> Result<Option<Rule>, AllocError>
    ensures { IfOk result (λ found. option_map expansion_of found ≡ prog2_row arguments.now) }
{
    let [first, value, forms @ ..] = arguments else {
        return Ok(None);
    };
    let second = kept_form(alloc, *value, forms)?;
    let made = two(alloc, Word::Progn, form(*first), second)?;
    Ok(Some(plain(alloc, 1, made)))
}

/// `(LET ((G E)*) (PROGN (SETQ V G)*) NIL)`
fn psetq_form(alloc: Global, variables: &[Val], values: &[Val]) -> Result<Template, AllocError>
    ensures { IfOk result (λ made. tree_of made ≡ psetq_form_of variables.now values.now) }
{
    let mut bindings = Vec::new(alloc);
    add_fresh_bindings(alloc, &mut bindings, 0, values)?;
    let mut settings = vec![in alloc; word(Word::Progn)]?;
    add_fresh_sets(alloc, &mut settings, variables)?;
    let body = vec![in alloc; list(settings), word(Word::Nil)]?;
    let_form(alloc, bindings, body)
}

/// `PSETQ` of these variables and forms.
fn psetq_with(alloc: Global, variables: &[Val], values: &[Val]) -> Result<Option<Rule>, AllocError>
    ensures { IfOk result (λ found. option_map expansion_of found ≡ psetq_of (variables.now, values.now)) }
{
    if !all_symbols(variables) {
        return Ok(None);
    }
    let made = psetq_form(alloc, variables, values)?;
    Ok(Some(plain(alloc, variables.len(), made)))
}

/// `PSETQ`.
pub(crate) fn psetq(alloc: Global, arguments: &[Val]) -> Result<Option<Rule>, AllocError>
    ensures { IfOk result (λ found. option_map expansion_of found ≡ psetq_row arguments.now) }
{
    match pairs(alloc, arguments)? {
        Some((variables, values)) => psetq_with(alloc, &variables, &values),
        None => Ok(None),
    }
}
