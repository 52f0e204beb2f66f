//! The templates of the forms that `&KEY` parameters stand for.

ghost use Rattle.std.specs.Prelude.{◌≡◌, IfOk, map};
ghost use Rattle.lisp_forms.specs.Trees.{tree_of, list as list_of_trees};
ghost use Rattle.lambda_lists.specs.Trees.{call as call_of, found as found_tree, quoted as quoted_tree, refusal_tree, supplied_tree, test_tree, value_tree, word as word_tree};

use lisp_base::base_symbols::{CAR, FUNCALL, HELPER_KEY, HELPER_KEYP, IF, LAMBDA, QUOTE};
use lisp_base::{NIL, SymId, T, Val};
use lisp_forms::{Template, Templates, reads_templates};
use std::alloc::{AllocError, Global};

/// A symbol.
fn word(id: SymId) -> Template
    ensures { tree_of result ≡ word_tree id }
{
    Template::Form(Val::Sym(id))
}

/// A list of these elements.
fn list(elements: Templates) -> Template
    ensures { tree_of result ≡ list_of_trees (map tree_of elements.items) }
{
    reads_templates();
    Template::List {
        elements,
        tail: Val::Sym(NIL),
    }
}

/// A quoted form.
fn quoted(alloc: Global, form: Template) -> Result<Template, AllocError>
    ensures { IfOk result (λ made. tree_of made ≡ quoted_tree (tree_of form)) }
{
    Ok(list(vec![in alloc; word(QUOTE), form]?))
}

/// `(%KEY G 'K)`
fn found(alloc: Global, rest: SymId, keyword: SymId) -> Result<Template, AllocError>
    ensures { IfOk result (λ made. tree_of made ≡ found_tree rest keyword) }
{
    let key = quoted(alloc, word(keyword))?;
    Ok(list(vec![in alloc; word(HELPER_KEY), word(rest), key]?))
}

/// `(%KEYP G '(K*))`
pub(crate) fn test(alloc: Global, rest: SymId, keywords: &[SymId]) -> Result<Template, AllocError>
    ensures { IfOk result (λ made. tree_of made ≡ test_tree rest keywords.now) }
{
    let mut words = Vec::new(alloc);
    for keyword in keywords {
        words.push(word(*keyword))?;
    }
    let keys = quoted(alloc, list(words))?;
    Ok(list(vec![in alloc; word(HELPER_KEYP), word(rest), keys]?))
}

/// `(IF (%KEY G 'K) (CAR (%KEY G 'K)) E)`
pub(crate) fn value(
    alloc: Global,
    rest: SymId,
    keyword: SymId,
    default: Val,
) -> Result<Template, AllocError>
    ensures { IfOk result (λ made. tree_of made ≡ value_tree rest keyword default) }
{
    let condition = found(alloc, rest, keyword)?;
    let tail = found(alloc, rest, keyword)?;
    let first = list(vec![in alloc; word(CAR), tail]?);
    let otherwise = Template::Form(default);
    Ok(list(vec![in alloc; word(IF), condition, first, otherwise]?))
}

/// `(IF (%KEY G 'K) T NIL)`
pub(crate) fn supplied(alloc: Global, rest: SymId, keyword: SymId) -> Result<Template, AllocError>
    ensures { IfOk result (λ made. tree_of made ≡ supplied_tree rest keyword) }
{
    let condition = found(alloc, rest, keyword)?;
    Ok(list(vec![in alloc; word(IF), condition, word(T), word(NIL)]?))
}

/// `(FUNCALL (LAMBDA ()) G)`
pub(crate) fn refusal(alloc: Global, rest: SymId) -> Result<Template, AllocError>
    ensures { IfOk result (λ made. tree_of made ≡ refusal_tree rest) }
{
    let function = list(vec![in alloc; word(LAMBDA), word(NIL)]?);
    Ok(list(vec![in alloc; word(FUNCALL), function, word(rest)]?))
}
