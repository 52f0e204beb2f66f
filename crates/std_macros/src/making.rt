//! Templates of words and forms.

ghost use Rattle.std.specs.Prelude.{◌≡◌, ◌+◌, ◌<◌, ◌^◌, ◌∷◌, ◌++◌, [], IfOk, OnOk, map, length, pos};
ghost use Rattle.lisp_forms.specs.Trees.{tree_of, form as form_tree, fresh as fresh_tree, list as list_tree, list_before as list_tree_before};
ghost use Rattle.std_macros.specs.Rules.{binding as binding_of, call as call_of, expansion_of, forms as forms_of, fresh_bindings, fresh_from, fresh_sets, let_form as let_form_of, kept as kept_of, nil_block as nil_block_of, one as one_of, plain as plain_of, three as three_of, two as two_of, word as word_of};

use crate::rule::Rule;
use crate::words::{Word, symbol_of};
use lisp_base::{NIL, Val};
use lisp_forms::{Template, Templates, reads_templates};
use std::alloc::{AllocError, Global};

/// A form that is there.
pub(crate) fn form(form: Val) -> Template
    ensures { tree_of result ≡ form_tree form }
{
    Template::Form(form)
}

/// A word.
pub(crate) fn word(word: Word) -> Template
    ensures { tree_of result ≡ word_of word }
{
    Template::Form(Val::Sym(symbol_of(word)))
}

/// The fresh symbol of a number.
pub(crate) fn fresh(number: usize) -> Template
    ensures { tree_of result ≡ fresh_tree number }
{
    Template::Fresh(number)
}

/// A list of these elements.
pub(crate) fn list(elements: Templates) -> Template
    ensures { tree_of result ≡ list_tree (map tree_of elements.items) }
{
    reads_templates();
    Template::List {
        elements,
        tail: Val::Sym(NIL),
    }
}

/// A word before the elements of another list.
pub(crate) fn word_before(alloc: Global, operator: Word, tail: Val) -> Result<Template, AllocError>
    ensures { IfOk result (λ made. tree_of made ≡ list_tree_before (word_of operator ∷ []) tail) }
{
    let elements = vec![in alloc; word(operator)]?;
    Ok(list_before(elements, tail))
}

/// A list of these elements before those of another list.
fn list_before(elements: Templates, tail: Val) -> Template
    ensures { tree_of result ≡ list_tree_before (map tree_of elements.items) tail }
{
    reads_templates();
    Template::List { elements, tail }
}

/// Adds forms to the elements of a list.
pub(crate) fn add_forms(elements: &mut Templates, forms: &[Val]) -> Result<(), AllocError>
    ensures { OnOk result (map tree_of elements.new.items ≡ map tree_of elements.old.items ++ forms_of forms.now) }
{
    for form in forms {
        elements.push(Template::Form(*form))?;
    }
    Ok(())
}

/// Adds templates to the elements of a list.
pub(crate) fn add_all(elements: &mut Templates, mut more: Templates) -> Result<(), AllocError>
    ensures { OnOk result (map tree_of elements.new.items ≡ map tree_of elements.old.items ++ map tree_of more.items) }
{
    elements.append(&mut more)?;
    Ok(())
}

/// A word, and these forms after it.
pub(crate) fn call(alloc: Global, operator: Word, forms: &[Val]) -> Result<Template, AllocError>
    ensures { IfOk result (λ made. tree_of made ≡ call_of operator forms.now) }
{
    let mut elements = vec![in alloc; word(operator)]?;
    add_forms(&mut elements, forms)?;
    Ok(list(elements))
}

/// A word, and one more element.
pub(crate) fn one(alloc: Global, operator: Word, a: Template) -> Result<Template, AllocError>
    ensures { IfOk result (λ made. tree_of made ≡ one_of operator (tree_of a)) }
{
    Ok(list(vec![in alloc; word(operator), a]?))
}

/// A word, and two more elements.
pub(crate) fn two(
    alloc: Global,
    operator: Word,
    a: Template,
    b: Template,
) -> Result<Template, AllocError>
    ensures { IfOk result (λ made. tree_of made ≡ two_of operator (tree_of a) (tree_of b)) }
{
    Ok(list(vec![in alloc; word(operator), a, b]?))
}

/// A word, and three more elements.
pub(crate) fn three(
    alloc: Global,
    operator: Word,
    a: Template,
    b: Template,
    c: Template,
) -> Result<Template, AllocError>
    ensures { IfOk result (λ made. tree_of made ≡ three_of operator (tree_of a) (tree_of b) (tree_of c)) }
{
    Ok(list(vec![in alloc; word(operator), a, b, c]?))
}

/// A binding: `(V E)`.
pub(crate) fn binding(alloc: Global, v: Template, e: Template) -> Result<Template, AllocError>
    ensures { IfOk result (λ made. tree_of made ≡ binding_of (tree_of v) (tree_of e)) }
{
    Ok(list(vec![in alloc; v, e]?))
}

/// `(LET (BINDING*) FORM*)`.
pub(crate) fn let_form(
    alloc: Global,
    bindings: Templates,
    body: Templates,
) -> Result<Template, AllocError>
    ensures { IfOk result (λ made. tree_of made ≡ let_form_of (map tree_of bindings.items) (map tree_of body.items)) }
{
    let mut elements = vec![in alloc; word(Word::Let), list(bindings)]?;
    add_all(&mut elements, body)?;
    Ok(list(elements))
}

/// `(LET ((G A)) FORM*)`, G being the first fresh symbol.
pub(crate) fn kept(alloc: Global, a: Val, body: Templates) -> Result<Template, AllocError>
    ensures { IfOk result (λ made. tree_of made ≡ kept_of a (map tree_of body.items)) }
{
    let bindings = vec![in alloc; binding(alloc, fresh(0), form(a))?]?;
    let_form(alloc, bindings, body)
}

/// `(BLOCK NIL FORM)`.
pub(crate) fn nil_block(alloc: Global, form: Template) -> Result<Template, AllocError>
    ensures { IfOk result (λ made. tree_of made ≡ nil_block_of (tree_of form)) }
{
    two(alloc, Word::Block, word(Word::Nil), form)
}

/// Adds so many fresh symbols, from the first on.
pub(crate) fn add_fresh(
    elements: &mut Templates,
    first: usize,
    count: usize,
) -> Result<(), AllocError>
    requires { first + count < 2 ^ 64 }
    ensures { OnOk result (map tree_of elements.new.items ≡ map tree_of elements.old.items ++ fresh_from first count) }
{
    for offset in 0..count {
        elements.push(Template::Fresh(first + offset))?;
    }
    Ok(())
}

/// Adds bindings `(G E)` of fresh symbols, from the first on, to each of these forms.
pub(crate) fn add_fresh_bindings(
    alloc: Global,
    elements: &mut Templates,
    first: usize,
    forms: &[Val],
) -> Result<(), AllocError>
    requires { first + length forms.now < 2 ^ 64 }
    ensures { OnOk result (map tree_of elements.new.items ≡ map tree_of elements.old.items ++ fresh_bindings first forms.now) }
{
    let mut number = first;
    for form in forms {
        elements.push(binding(alloc, Template::Fresh(number), Template::Form(*form))?)?;
        number += 1;
    }
    Ok(())
}

/// Adds a `(SETQ V G)` for each of these variables, from the first fresh symbol on.
pub(crate) fn add_fresh_sets(
    alloc: Global,
    elements: &mut Templates,
    variables: &[Val],
) -> Result<(), AllocError>
    requires { length variables.now < 2 ^ 63 }
    ensures { OnOk result (map tree_of elements.new.items ≡ map tree_of elements.old.items ++ fresh_sets 0 variables.now) }
{
    let mut number = 0;
    for variable in variables {
        elements.push(two(
            alloc,
            Word::Setq,
            Template::Form(*variable),
            Template::Fresh(number),
        )?)?;
        number += 1;
    }
    Ok(())
}

/// A rule that makes one form.
pub(crate) fn plain(alloc: Global, fresh: usize, first: Template) -> Rule
    ensures { expansion_of result ≡ plain_of fresh (tree_of first) }
{
    Rule {
        fresh,
        first,
        around: Vec::new(alloc),
    }
}
