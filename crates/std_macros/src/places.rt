//! Macros that change places.

ghost use Rattle.std.specs.Prelude.{◌≡◌, ◌+◌, ◌<◌, ◌^◌, ◌++◌, ◌∷◌, [], IfOk, find, map, length};
ghost use Rattle.std.specs.Option.{option_map};
ghost use Rattle.lisp_forms.specs.Trees.{tree_of, form as form_tree, fresh as fresh_tree};
ghost use Rattle.std_macros.specs.Places.{change_row, change_target as change_target_of, pop_row, pop_target as pop_target_of, popped_form as popped_form_of, push_row, push_target as push_target_of, read_form as read_form_of, setf_each as setf_each_of, setf_forms as setf_forms_of, setf_row, setf_target as setf_target_of, store_form as store_form_of, target_at, target_from as target_in, target_of, variable as variable_of, write_form as write_form_of, writer_of, writers};
ghost use Rattle.std_macros.specs.Rules.{binding as binding_of, expansion_of, fresh_bindings, plain as plain_of, two as two_of};
ghost use Rattle.std_macros.specs.Syntax.{is_word as is_the_word};

use crate::making::{
    add_all, add_fresh, add_fresh_bindings, binding, form, fresh, kept, let_form, list, one, plain,
    two, word,
};
use crate::rule::Rule;
use crate::syntax::{is_symbol, is_word};
use crate::words::Word;
use lisp_base::{Heap, Val, Vals};
use lisp_forms::{Template, Templates, elements};
use std::alloc::{AllocError, Global};

/// What is changed.
#[derive(Drop)]
pub(crate) enum Target {
    /// A variable.
    Variable(Val),
    /// A place, with its operator's writer.
    Access {
        operator: Val,
        writer: Word,
        arguments: Vals,
    },
}

/// The operators of places, and their writers.
const WRITERS: [(Word, Word); 10] = [
    (Word::Car, Word::Rplaca),
    (Word::First, Word::Rplaca),
    (Word::Cdr, Word::Rplacd),
    (Word::Rest, Word::Rplacd),
    (Word::Nth, Word::SetNth),
    (Word::Svref, Word::SetSvref),
    (Word::Aref, Word::SetAref),
    (Word::Schar, Word::SetSchar),
    (Word::Char, Word::SetSchar),
    (Word::SymbolValue, Word::SetValue),
];

/// The operator of a place, with its writer.
fn operator_with_writer(operator: Val) -> Option<(Word, Word)>
    ensures { result ≡ find (λ p. is_the_word p.0 operator) writers }
{
    WRITERS.iter().copied().find(|p| is_word(p.0, operator))
}

/// The writer of a place's operator.
fn writer(operator: Val) -> Option<Word>
    ensures { result ≡ writer_of operator }
{
    match operator_with_writer(operator) {
        Some(found) => Some(found.1),
        None => None,
    }
}

/// The place that these parts are.
fn target_from(alloc: Global, parts: &[Val]) -> Result<Option<Target>, AllocError>
    ensures { IfOk result (λ found. option_map target_of found ≡ target_in parts.now) }
{
    let [operator, arguments @ ..] = parts else {
        return Ok(None);
    };
    let Some(writer) = writer(*operator) else {
        return Ok(None);
    };
    let arguments = Vec::from_slice(alloc, arguments)?;
    Ok(Some(Target::Access {
        operator: *operator,
        writer,
        arguments,
    }))
}

/// What a form names to be changed.
fn target_of_form(alloc: Global, heap: &Heap, form: Val) -> Result<Option<Target>, AllocError>
    ensures { IfOk result (λ found. option_map target_of found ≡ target_at heap.now form) }
{
    if is_symbol(form) {
        return Ok(Some(Target::Variable(form)));
    }
    match elements(alloc, heap, form)? {
        Some(parts) => target_from(alloc, &parts),
        None => Ok(None),
    }
}

/// `(OP G*)`, with so many fresh symbols from the first on.
fn read_form(
    alloc: Global,
    operator: Val,
    first: usize,
    count: usize,
) -> Result<Template, AllocError>
    requires { first + count < 2 ^ 64 }
    ensures { IfOk result (λ made. tree_of made ≡ read_form_of operator first count) }
{
    let mut elements = vec![in alloc; form(operator)]?;
    add_fresh(&mut elements, first, count)?;
    Ok(list(elements))
}

/// `(WRITER G* H)`, with so many fresh symbols from the first on.
fn write_form(
    alloc: Global,
    writer: Word,
    first: usize,
    count: usize,
    value: Template,
) -> Result<Template, AllocError>
    requires { first + count < 2 ^ 64 }
    ensures { IfOk result (λ made. tree_of made ≡ write_form_of writer first count (tree_of value)) }
{
    let mut elements = vec![in alloc; word(writer)]?;
    add_fresh(&mut elements, first, count)?;
    add_all(&mut elements, vec![in alloc; value]?)?;
    Ok(list(elements))
}

/// `(LET ((H NEW)) (WRITER G* H) H)`, H being the fresh symbol of a number.
fn store_form(
    alloc: Global,
    writer: Word,
    first: usize,
    count: usize,
    number: usize,
    new: Template,
) -> Result<Template, AllocError>
    requires { first + count < 2 ^ 64 }
    ensures { IfOk result (λ made. tree_of made ≡ store_form_of writer first count number (tree_of new)) }
{
    let bindings = vec![in alloc; binding(alloc, fresh(number), new)?]?;
    let writing = write_form(alloc, writer, first, count, fresh(number))?;
    let_form(alloc, bindings, vec![in alloc; writing, fresh(number)]?)
}

/// Bindings of fresh symbols to a place's arguments, and of one more to another form.
fn argument_bindings(alloc: Global, arguments: &[Val], last: Val) -> Result<Templates, AllocError>
    ensures { IfOk result (λ made. map tree_of made.items ≡ fresh_bindings 0 arguments.now ++ binding_of (fresh_tree (length arguments.now)) (form_tree last) ∷ []) }
{
    let mut bindings = Vec::new(alloc);
    add_fresh_bindings(alloc, &mut bindings, 0, arguments)?;
    let more = binding(alloc, fresh(arguments.len()), form(last))?;
    add_all(&mut bindings, vec![in alloc; more]?)?;
    Ok(bindings)
}

/// `SETF` of a variable: `(SETQ V E)`.
fn set_variable(alloc: Global, variable: Val, value: Template) -> Result<Rule, AllocError>
    ensures { IfOk result (λ made. expansion_of made ≡ plain_of 0 (two_of Word.Setq (form_tree variable) (tree_of value))) }
{
    Ok(plain(alloc, 0, two(alloc, Word::Setq, form(variable), value)?))
}

/// `SETF` of one place.
fn setf_target(alloc: Global, value: Val, target: &Target) -> Result<Rule, AllocError>
    ensures { IfOk result (λ made. expansion_of made ≡ setf_target_of value (target_of target.now)) }
{
    match target {
        Target::Variable(variable) => set_variable(alloc, *variable, form(value)),
        Target::Access {
            writer,
            arguments,
            ..
        } => {
            let count = arguments.len();
            let bindings = argument_bindings(alloc, arguments, value)?;
            let writing = write_form(alloc, *writer, 0, count, fresh(count))?;
            let body = vec![in alloc; writing, fresh(count)]?;
            Ok(plain(alloc, count + 1, let_form(alloc, bindings, body)?))
        }
    }
}

/// `(SETF P E)` of each two.
fn setf_forms(alloc: Global, arguments: &[Val]) -> Result<Option<Templates>, AllocError>
    ensures { IfOk result (λ found. option_map (λ made. map tree_of made.items) found ≡ setf_forms_of arguments.now) }
{
    let mut made = Vec::new(alloc);
    let mut rest = arguments;
    while let [place, value, others @ ..] = rest {
        made.push(two(alloc, Word::Setf, form(*place), form(*value))?)?;
        rest = others;
    }
    if !rest.is_empty() {
        return Ok(None);
    }
    Ok(Some(made))
}

/// `SETF` of several places.
fn setf_each(alloc: Global, arguments: &[Val]) -> Result<Option<Rule>, AllocError>
    ensures { IfOk result (λ found. option_map expansion_of found ≡ option_map setf_each_of (setf_forms_of arguments.now)) }
{
    let Some(forms) = setf_forms(alloc, arguments)? else {
        return Ok(None);
    };
    let mut elements = vec![in alloc; word(Word::Progn)]?;
    add_all(&mut elements, forms)?;
    Ok(Some(plain(alloc, 0, list(elements))))
}

/// `SETF`.
pub(crate) fn setf(
    alloc: Global,
    heap: &Heap,
    arguments: &[Val],
) -> Result<Option<Rule>, AllocError>
    ensures { IfOk result (λ found. option_map expansion_of found ≡ setf_row heap.now arguments.now) }
{
    match arguments {
        [] => Ok(Some(plain(alloc, 0, word(Word::Nil)))),
        [_] => Ok(None),
        [place, value] => {
            let Some(target) = target_of_form(alloc, heap, *place)? else {
                return Ok(None);
            };
            Ok(Some(setf_target(alloc, *value, &target)?))
        }
        [_, _, _, ..] => setf_each(alloc, arguments),
    }
}

/// `INCF` and `DECF` of one place, with the operator of the sum.
fn change_target(alloc: Global, sum: Word, delta: Val, target: &Target) -> Result<Rule, AllocError>
    ensures { IfOk result (λ made. expansion_of made ≡ change_target_of sum delta (target_of target.now)) }
{
    match target {
        Target::Variable(variable) => {
            set_variable(
                alloc,
                *variable,
                two(alloc, sum, form(*variable), form(delta))?,
            )
        }
        Target::Access {
            operator,
            writer,
            arguments,
        } => {
            let count = arguments.len();
            let bindings = argument_bindings(alloc, arguments, delta)?;
            let old = read_form(alloc, *operator, 0, count)?;
            let new = two(alloc, sum, old, fresh(count))?;
            let storing = store_form(alloc, *writer, 0, count, count + 1, new)?;
            let made = let_form(alloc, bindings, vec![in alloc; storing]?)?;
            Ok(plain(alloc, count + 2, made))
        }
    }
}

/// `INCF` and `DECF`, with the operator of the sum.
pub(crate) fn change(
    alloc: Global,
    sum: Word,
    heap: &Heap,
    arguments: &[Val],
) -> Result<Option<Rule>, AllocError>
    ensures { IfOk result (λ found. option_map expansion_of found ≡ change_row sum heap.now arguments.now) }
{
    let (place, delta) = match arguments {
        [place] => (*place, Val::Int(1)),
        [place, delta] => (*place, *delta),
        [] | [_, _, _, ..] => return Ok(None),
    };
    let Some(target) = target_of_form(alloc, heap, place)? else {
        return Ok(None);
    };
    Ok(Some(change_target(alloc, sum, delta, &target)?))
}

/// `PUSH` on one place.
fn push_target(alloc: Global, value: Val, target: &Target) -> Result<Rule, AllocError>
    ensures { IfOk result (λ made. expansion_of made ≡ push_target_of value (target_of target.now)) }
{
    match target {
        Target::Variable(variable) => {
            set_variable(
                alloc,
                *variable,
                two(alloc, Word::Cons, form(value), form(*variable))?,
            )
        }
        Target::Access {
            operator,
            writer,
            arguments,
        } => {
            let count = arguments.len();
            let mut bindings = vec![in alloc; binding(alloc, fresh(0), form(value))?]?;
            add_fresh_bindings(alloc, &mut bindings, 1, arguments)?;
            let old = read_form(alloc, *operator, 1, count)?;
            let new = two(alloc, Word::Cons, fresh(0), old)?;
            let storing = store_form(alloc, *writer, 1, count, count + 1, new)?;
            let made = let_form(alloc, bindings, vec![in alloc; storing]?)?;
            Ok(plain(alloc, count + 2, made))
        }
    }
}

/// `PUSH`.
pub(crate) fn push(
    alloc: Global,
    heap: &Heap,
    arguments: &[Val],
) -> Result<Option<Rule>, AllocError>
    ensures { IfOk result (λ found. option_map expansion_of found ≡ push_row heap.now arguments.now) }
{
    let [value, place] = arguments else {
        return Ok(None);
    };
    let Some(target) = target_of_form(alloc, heap, *place)? else {
        return Ok(None);
    };
    Ok(Some(push_target(alloc, *value, &target)?))
}

/// `POP` of a variable.
fn pop_variable(alloc: Global, variable: Val) -> Result<Rule, AllocError>
    ensures { IfOk result (λ made. expansion_of made ≡ pop_target_of (variable_of variable)) }
{
    let rest = one(alloc, Word::Cdr, fresh(0))?;
    let setting = two(alloc, Word::Setq, form(variable), rest)?;
    let first = one(alloc, Word::Car, fresh(0))?;
    Ok(plain(
        alloc,
        1,
        kept(alloc, variable, vec![in alloc; setting, first]?)?,
    ))
}

/// `(LET ((H OLD)) (WRITER G* (CDR H)) (CAR H))`, H being the fresh symbol after the others.
fn popped_form(
    alloc: Global,
    operator: Val,
    writer: Word,
    count: usize,
) -> Result<Template, AllocError>
    ensures { IfOk result (λ made. tree_of made ≡ popped_form_of operator writer count) }
{
    let old = read_form(alloc, operator, 0, count)?;
    let bindings = vec![in alloc; binding(alloc, fresh(count), old)?]?;
    let rest = one(alloc, Word::Cdr, fresh(count))?;
    let writing = write_form(alloc, writer, 0, count, rest)?;
    let first = one(alloc, Word::Car, fresh(count))?;
    let_form(alloc, bindings, vec![in alloc; writing, first]?)
}

/// `POP` of one place.
fn pop_target(alloc: Global, target: &Target) -> Result<Rule, AllocError>
    ensures { IfOk result (λ made. expansion_of made ≡ pop_target_of (target_of target.now)) }
{
    match target {
        Target::Variable(variable) => pop_variable(alloc, *variable),
        Target::Access {
            operator,
            writer,
            arguments,
        } => {
            let count = arguments.len();
            let mut bindings = Vec::new(alloc);
            add_fresh_bindings(alloc, &mut bindings, 0, arguments)?;
            let popped = popped_form(alloc, *operator, *writer, count)?;
            let made = let_form(alloc, bindings, vec![in alloc; popped]?)?;
            Ok(plain(alloc, count + 1, made))
        }
    }
}

/// `POP`.
pub(crate) fn pop(alloc: Global, heap: &Heap, arguments: &[Val]) -> Result<Option<Rule>, AllocError>
    ensures { IfOk result (λ found. option_map expansion_of found ≡ pop_row heap.now arguments.now) }
{
    let [place] = arguments else {
        return Ok(None);
    };
    let Some(target) = target_of_form(alloc, heap, *place)? else {
        return Ok(None);
    };
    Ok(Some(pop_target(alloc, &target)?))
}
