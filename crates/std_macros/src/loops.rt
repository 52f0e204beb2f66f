//! Macros that repeat.

ghost use Rattle.std.specs.Prelude.{◌≡◌, ◌∷◌, ◌++◌, [], IfOk, OnOk, map};
ghost use Rattle.std.specs.Option.{option_map, is_some};
ghost use Rattle.std.specs.List.{list_all, flat_map};
ghost use Rattle.lisp_forms.specs.Conses.{cons_at};
ghost use Rattle.lisp_forms.specs.Trees.{tree_of, fresh as fresh_tree, list as list_tree};
ghost use Rattle.std_macros.specs.Loops.{binder as binder_of, count_round as count_round_of, do_form as do_form_of, do_round as do_round_of, do_row, do_with as do_with_of, dolist_form as dolist_form_of, dolist_row, dotimes_bindings as dotimes_bindings_of, dotimes_form as dotimes_form_of, dotimes_row, end_test as end_test_of, go_to as go_to_of, list_body as list_body_of, list_round as list_round_of, list_test as list_test_of, loop_row, next_value as next_value_of, repeat as repeat_of, repeat_from as repeat_in, setter as setter_of, step as step_of, step_at, step_binding, step_from as step_in, step_sets, the_list as the_list_of};
ghost use Rattle.std_macros.specs.Rules.{expansion_of, forms as forms_of, word as word_of};
ghost use Rattle.std_macros.specs.Syntax.{each, parted};

use crate::making::{
    add_all, add_forms, binding, call, form, fresh, let_form, list, nil_block, one, plain, three,
    two, word,
};
use crate::rule::Rule;
use crate::syntax::{add_declarations, after_declarations, is_symbol, undocumented};
use crate::words::Word;
use lisp_base::{Heap, NIL, Val};
use lisp_forms::{Template, Templates, cons_of, elements};
use std::alloc::{AllocError, Global};

/// In which order variables are bound and set.
#[derive(Clone, Copy, PartialEq, Eq, Debug)]
pub(crate) enum Order {
    /// All values first: `DO` and `PROG`.
    Together,
    /// One after another: `DO*` and `PROG*`.
    InOrder,
}

/// The operator that binds in this order.
pub(crate) fn binder(order: Order) -> Word
    ensures { result ≡ binder_of order }
{
    match order {
        Order::Together => Word::Let,
        Order::InOrder => Word::LetInOrder,
    }
}

/// The operator that sets in this order.
fn setter(order: Order) -> Word
    ensures { result ≡ setter_of order }
{
    match order {
        Order::Together => Word::Psetq,
        Order::InOrder => Word::Setq,
    }
}

/// `(GO G)`, with the fresh symbol of a number.
fn go_to(alloc: Global, number: usize) -> Result<Template, AllocError>
    ensures { IfOk result (λ made. tree_of made ≡ go_to_of (fresh_tree number)) }
{
    one(alloc, Word::Go, fresh(number))
}

/// Whether all of these are conses.
fn all_conses(heap: &Heap, forms: &[Val]) -> bool
    ensures { result ≡ list_all (λ e. is_some (cons_at heap.now e)) forms.now }
{
    for form in forms {
        if cons_of(heap, *form).is_none() {
            return false;
        }
    }
    true
}

/// `LOOP`.
pub(crate) fn repeat_always(
    alloc: Global,
    heap: &Heap,
    arguments: &[Val],
) -> Result<Option<Rule>, AllocError>
    ensures { IfOk result (λ found. option_map expansion_of found ≡ loop_row heap.now arguments.now) }
{
    if !all_conses(heap, arguments) {
        return Ok(None);
    }
    let mut items = vec![in alloc; word(Word::Tagbody), fresh(0)]?;
    add_forms(&mut items, arguments)?;
    add_all(&mut items, vec![in alloc; go_to(alloc, 0)?]?)?;
    Ok(Some(plain(alloc, 1, nil_block(alloc, list(items))?)))
}

/// A variable of `DO`, its first value, and its next value where it has one.
#[derive(Clone, Copy, PartialEq, Eq, Debug)]
pub(crate) struct Step {
    pub(crate) variable: Val,
    pub(crate) first: Val,
    pub(crate) next: Option<Val>,
}

fn new_step(variable: Val, first: Val, next: Option<Val>) -> Option<Step>
    ensures { result ≡ step_of variable first next }
{
    if !is_symbol(variable) {
        return None;
    }
    Some(Step {
        variable,
        first,
        next,
    })
}

/// The variable of a binding list.
fn step_from(parts: &[Val]) -> Option<Step>
    ensures { result ≡ step_in parts.now }
{
    match parts {
        [] => None,
        [variable] => new_step(*variable, Val::Sym(NIL), None),
        [variable, first] => new_step(*variable, *first, None),
        [variable, first, next] => new_step(*variable, *first, Some(*next)),
        [_, _, _, _, ..] => None,
    }
}

/// The variable of a binding.
fn step_of_form(alloc: Global, heap: &Heap, form: Val) -> Result<Option<Step>, AllocError>
    ensures { IfOk result (λ found. found ≡ step_at heap.now form) }
{
    if is_symbol(form) {
        return Ok(new_step(form, Val::Sym(NIL), None));
    }
    match elements(alloc, heap, form)? {
        Some(parts) => Ok(step_from(&parts)),
        None => Ok(None),
    }
}

/// The variables of several bindings.
fn steps(alloc: Global, heap: &Heap, forms: &[Val]) -> Result<Option<Vec<Step>>, AllocError>
    ensures { IfOk result (λ found. option_map (λ steps. steps.items) found ≡ each (step_at heap.now) forms.now) }
{
    let mut steps = Vec::new(alloc);
    for form in forms {
        let Some(step) = step_of_form(alloc, heap, *form)? else {
            return Ok(None);
        };
        steps.push(step)?;
    }
    Ok(Some(steps))
}

/// The bindings of variables to their first values.
fn step_bindings(alloc: Global, steps: &[Step]) -> Result<Templates, AllocError>
    ensures { IfOk result (λ made. map tree_of made.items ≡ map step_binding steps.now) }
{
    let mut made = Vec::new(alloc);
    for step in steps {
        made.push(binding(alloc, form(step.variable), form(step.first))?)?;
    }
    Ok(made)
}

/// Adds a variable and its next value, where it has one.
fn add_next(elements: &mut Templates, variable: Val, next: Option<Val>) -> Result<(), AllocError>
    ensures { OnOk result (map tree_of elements.new.items ≡ map tree_of elements.old.items ++ next_value_of variable next) }
{
    let Some(next) = next else {
        return Ok(());
    };
    add_forms(elements, &[variable, next])
}

/// The form that sets all variables that have next values.
fn step_setting(alloc: Global, order: Order, steps: &[Step]) -> Result<Template, AllocError>
    ensures { IfOk result (λ made. tree_of made ≡ list_tree (word_of (setter_of order) ∷ flat_map step_sets steps.now)) }
{
    let mut elements = vec![in alloc; word(setter(order))]?;
    for step in steps {
        add_next(&mut elements, step.variable, step.next)?;
    }
    Ok(list(elements))
}

/// `(IF END (RETURN (PROGN R*)) NIL)`
fn end_test(alloc: Global, end: Val, results: &[Val]) -> Result<Template, AllocError>
    ensures { IfOk result (λ made. tree_of made ≡ end_test_of end results.now) }
{
    let result = call(alloc, Word::Progn, results)?;
    let leave = one(alloc, Word::Return, result)?;
    three(alloc, Word::If, form(end), leave, word(Word::Nil))
}

/// The TAGBODY of `DO`.
fn do_round(
    alloc: Global,
    order: Order,
    steps: &[Step],
    test: Template,
    body: &[Val],
) -> Result<Template, AllocError>
    ensures { IfOk result (λ made. tree_of made ≡ do_round_of order steps.now (tree_of test) body.now) }
{
    let mut items = vec![in alloc; word(Word::Tagbody), fresh(0), test]?;
    add_forms(&mut items, body)?;
    let setting = step_setting(alloc, order, steps)?;
    add_all(&mut items, vec![in alloc; setting, go_to(alloc, 0)?]?)?;
    Ok(list(items))
}

/// The form of `DO`.
fn do_form(
    alloc: Global,
    heap: &Heap,
    order: Order,
    steps: &[Step],
    test: Template,
    body: &[Val],
) -> Result<Template, AllocError>
    ensures { IfOk result (λ made. tree_of made ≡ do_form_of order steps.now (tree_of test) (parted heap.now body.now)) }
{
    let round = do_round(alloc, order, steps, test, after_declarations(heap, body))?;
    let bindings = list(step_bindings(alloc, steps)?);
    let mut elements = vec![in alloc; word(binder(order)), bindings]?;
    add_declarations(&mut elements, heap, body)?;
    add_all(&mut elements, vec![in alloc; round]?)?;
    nil_block(alloc, list(elements))
}

/// `DO` with these variables and this ending.
fn do_with(
    alloc: Global,
    order: Order,
    heap: &Heap,
    body: &[Val],
    steps: &[Step],
    ending: &[Val],
) -> Result<Option<Rule>, AllocError>
    ensures { IfOk result (λ found. option_map expansion_of found ≡ do_with_of order heap.now body.now steps.now ending.now) }
{
    let [end, results @ ..] = ending else {
        return Ok(None);
    };
    let test = end_test(alloc, *end, results)?;
    let body = undocumented(heap, body);
    let made = do_form(alloc, heap, order, steps, test, body)?;
    Ok(Some(plain(alloc, 1, made)))
}

/// `DO` and `DO*`.
pub(crate) fn repeat_until(
    alloc: Global,
    order: Order,
    heap: &Heap,
    arguments: &[Val],
) -> Result<Option<Rule>, AllocError>
    ensures { IfOk result (λ found. option_map expansion_of found ≡ do_row order heap.now arguments.now) }
{
    let [bindings, ending, body @ ..] = arguments else {
        return Ok(None);
    };
    let Some(bindings) = elements(alloc, heap, *bindings)? else {
        return Ok(None);
    };
    let Some(steps) = steps(alloc, heap, &bindings)? else {
        return Ok(None);
    };
    match elements(alloc, heap, *ending)? {
        Some(ending) => do_with(alloc, order, heap, body, &steps, &ending),
        None => Ok(None),
    }
}

/// The head of `DOTIMES` and `DOLIST`: a variable, a count or list, and the result.
#[derive(Clone, Copy, PartialEq, Eq, Debug)]
pub(crate) struct Repeat {
    pub(crate) variable: Val,
    pub(crate) over: Val,
    pub(crate) result: Val,
}

fn new_head(variable: Val, over: Val, last: Val) -> Option<Repeat>
    ensures { result ≡ repeat_of variable over last }
{
    if !is_symbol(variable) {
        return None;
    }
    Some(Repeat {
        variable,
        over,
        result: last,
    })
}

/// The head that these parts are.
fn head_from(parts: &[Val]) -> Option<Repeat>
    ensures { result ≡ repeat_in parts.now }
{
    match parts {
        [] | [_] => None,
        [variable, over] => new_head(*variable, *over, Val::Sym(NIL)),
        [variable, over, result] => new_head(*variable, *over, *result),
        [_, _, _, _, ..] => None,
    }
}

/// The TAGBODY of `DOTIMES`.
fn count_round(alloc: Global, head: Repeat, body: &[Val]) -> Result<Template, AllocError>
    ensures { IfOk result (λ made. tree_of made ≡ count_round_of head body.now) }
{
    let variable = head.variable;
    let done = two(alloc, Word::NotLess, form(variable), fresh(0))?;
    let leave = one(alloc, Word::Return, form(head.result))?;
    let test = three(alloc, Word::If, done, leave, word(Word::Nil))?;
    let mut items = vec![in alloc; word(Word::Tagbody), fresh(1), test]?;
    add_forms(&mut items, body)?;
    let next = two(alloc, Word::Add, form(variable), form(Val::Int(1)))?;
    let setting = two(alloc, Word::Setq, form(variable), next)?;
    add_all(&mut items, vec![in alloc; setting, go_to(alloc, 1)?]?)?;
    Ok(list(items))
}

/// `((V 0) (G (THE INTEGER N)))`
fn dotimes_bindings(alloc: Global, head: Repeat) -> Result<Templates, AllocError>
    ensures { IfOk result (λ made. map tree_of made.items ≡ dotimes_bindings_of head) }
{
    let counter = binding(alloc, form(head.variable), form(Val::Int(0)))?;
    let limit = two(alloc, Word::The, word(Word::Integer), form(head.over))?;
    let limited = binding(alloc, fresh(0), limit)?;
    Ok(vec![in alloc; counter, limited]?)
}

/// The declarations at the front of a body, and one more form.
fn declared(
    alloc: Global,
    heap: &Heap,
    body: &[Val],
    round: Template,
) -> Result<Templates, AllocError>
    ensures { IfOk result (λ made. map tree_of made.items ≡ forms_of (parted heap.now body.now).declarations ++ tree_of round ∷ []) }
{
    let mut inside = Vec::new(alloc);
    add_declarations(&mut inside, heap, body)?;
    add_all(&mut inside, vec![in alloc; round]?)?;
    Ok(inside)
}

/// The form of `DOTIMES`.
fn dotimes_form(
    alloc: Global,
    heap: &Heap,
    head: Repeat,
    body: &[Val],
) -> Result<Template, AllocError>
    ensures { IfOk result (λ made. tree_of made ≡ dotimes_form_of head (parted heap.now body.now)) }
{
    let round = count_round(alloc, head, after_declarations(heap, body))?;
    let bindings = dotimes_bindings(alloc, head)?;
    let inside = declared(alloc, heap, body, round)?;
    nil_block(alloc, let_form(alloc, bindings, inside)?)
}

/// `DOTIMES`.
pub(crate) fn dotimes(
    alloc: Global,
    heap: &Heap,
    arguments: &[Val],
) -> Result<Option<Rule>, AllocError>
    ensures { IfOk result (λ found. option_map expansion_of found ≡ dotimes_row heap.now arguments.now) }
{
    let [head, body @ ..] = arguments else {
        return Ok(None);
    };
    let Some(parts) = elements(alloc, heap, *head)? else {
        return Ok(None);
    };
    let Some(head) = head_from(&parts) else {
        return Ok(None);
    };
    let made = dotimes_form(alloc, heap, head, undocumented(heap, body))?;
    Ok(Some(plain(alloc, 2, made)))
}

/// `(THE LIST E)`
fn the_list(alloc: Global, list: Template) -> Result<Template, AllocError>
    ensures { IfOk result (λ made. tree_of made ≡ the_list_of (tree_of list)) }
{
    two(alloc, Word::The, word(Word::List), list)
}

/// The end test of `DOLIST`.
fn list_test(alloc: Global, head: Repeat) -> Result<Template, AllocError>
    ensures { IfOk result (λ made. tree_of made ≡ list_test_of head) }
{
    let bindings = vec![in alloc; binding(alloc, form(head.variable), word(Word::Nil))?]?;
    let body = vec![in alloc; form(head.result)]?;
    let leave = one(alloc, Word::Return, let_form(alloc, bindings, body)?)?;
    three(alloc, Word::If, fresh(0), word(Word::Nil), leave)
}

/// The body of `DOLIST`, for one element.
fn list_body(alloc: Global, heap: &Heap, head: Repeat, body: &[Val]) -> Result<Template, AllocError>
    ensures { IfOk result (λ made. tree_of made ≡ list_body_of head (parted heap.now body.now)) }
{
    let round = call(alloc, Word::Tagbody, after_declarations(heap, body))?;
    let element = one(alloc, Word::Car, fresh(0))?;
    let bindings = vec![in alloc; binding(alloc, form(head.variable), element)?]?;
    let_form(alloc, bindings, declared(alloc, heap, body, round)?)
}

/// The TAGBODY of `DOLIST`.
fn list_round(
    alloc: Global,
    heap: &Heap,
    head: Repeat,
    body: &[Val],
) -> Result<Template, AllocError>
    ensures { IfOk result (λ made. tree_of made ≡ list_round_of head (parted heap.now body.now)) }
{
    let test = list_test(alloc, head)?;
    let body = list_body(alloc, heap, head, body)?;
    let rest = the_list(alloc, one(alloc, Word::Cdr, fresh(0))?)?;
    let setting = two(alloc, Word::Setq, fresh(0), rest)?;
    let again = go_to(alloc, 1)?;
    Ok(list(vec![in alloc; word(Word::Tagbody), fresh(1), test, body, setting, again]?))
}

/// `DOLIST`.
pub(crate) fn dolist(
    alloc: Global,
    heap: &Heap,
    arguments: &[Val],
) -> Result<Option<Rule>, AllocError>
    ensures { IfOk result (λ found. option_map expansion_of found ≡ dolist_row heap.now arguments.now) }
{
    let [head, body @ ..] = arguments else {
        return Ok(None);
    };
    let Some(parts) = elements(alloc, heap, *head)? else {
        return Ok(None);
    };
    let Some(head) = head_from(&parts) else {
        return Ok(None);
    };
    let made = dolist_form(alloc, heap, head, undocumented(heap, body))?;
    Ok(Some(plain(alloc, 2, made)))
}

/// The form of `DOLIST`.
fn dolist_form(
    alloc: Global,
    heap: &Heap,
    head: Repeat,
    body: &[Val],
) -> Result<Template, AllocError>
    ensures { IfOk result (λ made. tree_of made ≡ dolist_form_of head (parted heap.now body.now)) }
{
    let round = list_round(alloc, heap, head, body)?;
    let whole = the_list(alloc, form(head.over))?;
    let bindings = vec![in alloc; binding(alloc, fresh(0), whole)?]?;
    nil_block(alloc, let_form(alloc, bindings, vec![in alloc; round]?)?)
}
