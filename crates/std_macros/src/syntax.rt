//! What the arguments of macros hold: words, pairs, variables, and bodies with their declarations.

ghost use Rattle.std.specs.Prelude.{◌≡◌, ◌++◌, IfOk, OnOk, map};
ghost use Rattle.std.specs.Option.{option_map};
ghost use Rattle.lisp_base.specs.Membership.{is_symbol as is_symbol_value};
ghost use Rattle.lisp_forms.specs.Trees.{tree_of};
ghost use Rattle.std_macros.specs.Rules.{forms as forms_of};
ghost use Rattle.std_macros.specs.Syntax.{is_word as is_the_word, pairs as pairs_of, all_symbols as are_all_symbols, only_of as only_at, marked as marked_at, is_string as is_string_at, is_declaration as is_declaration_at, undocumented as undocumented_of, parted};

use crate::words::{Word, symbol_of};
use lisp_base::{Heap, Obj, Val, Vals};
use lisp_forms::{Template, Templates, cons_of, is_nil};
use std::alloc::{AllocError, Global};

/// Whether a value is a word.
pub(crate) fn is_word(word: Word, value: Val) -> bool
    ensures { result ≡ is_the_word word value }
{
    match value {
        Val::Sym(id) => id.0 == symbol_of(word).0,
        Val::Int(_) | Val::Char(_) | Val::Ref(_) => false,
    }
}

/// Whether a value is a symbol.
pub(crate) fn is_symbol(value: Val) -> bool
    ensures { result ≡ is_symbol_value value }
{
    matches!(value, Val::Sym(_))
}

/// Whether all of these are symbols.
pub(crate) fn all_symbols(values: &[Val]) -> bool
    ensures { result ≡ are_all_symbols values.now }
{
    for value in values {
        if !is_symbol(*value) {
            return false;
        }
    }
    true
}

/// The first and the second of each two; None exactly where their number is odd.
pub(crate) fn pairs(alloc: Global, values: &[Val]) -> Result<Option<(Vals, Vals)>, AllocError>
    ensures { IfOk result (λ found. option_map (λ ps. (ps.0.items, ps.1.items)) found ≡ pairs_of values.now) }
{
    let mut firsts = Vec::new(alloc);
    let mut seconds = Vec::new(alloc);
    let mut rest = values;
    while let [first, second, others @ ..] = rest {
        firsts.push(*first)?;
        seconds.push(*second)?;
        rest = others;
    }
    if !rest.is_empty() {
        return Ok(None);
    }
    Ok(Some((firsts, seconds)))
}

/// The element of a list of one.
pub(crate) fn only_of(heap: &Heap, list: Val) -> Option<Val>
    ensures { result ≡ only_at heap.now list }
{
    match cons_of(heap, list) {
        Some((first, rest)) if is_nil(rest) => Some(first),
        _ => None,
    }
}

/// The form after a word, in a list of these two.
pub(crate) fn marked(word: Word, heap: &Heap, form: Val) -> Option<Val>
    ensures { result ≡ marked_at word heap.now form }
{
    match cons_of(heap, form) {
        Some((first, rest)) if is_word(word, first) => only_of(heap, rest),
        _ => None,
    }
}

/// Whether a form is a string.
fn is_string(heap: &Heap, form: Val) -> bool
    ensures { result ≡ is_string_at heap.now form }
{
    match form {
        Val::Ref(id) => match heap.get(id) {
            Some(Obj::Str(_)) => true,
            Some(Obj::Cons { .. } | Obj::Vector(_) | Obj::Fun { .. } | Obj::Cell(_)) | None => {
                false
            }
        },
        Val::Int(_) | Val::Char(_) | Val::Sym(_) => false,
    }
}

/// Whether a form is a list that begins with `DECLARE`.
fn is_declaration(heap: &Heap, form: Val) -> bool
    ensures { result ≡ is_declaration_at heap.now form }
{
    match cons_of(heap, form) {
        Some((operator, _)) => is_word(Word::Declare, operator),
        None => false,
    }
}

/// A body without a string that stands first before more forms.
pub(crate) fn undocumented<'a>(heap: &Heap, body: &'a [Val]) -> &'a [Val]
    ensures { result.now ≡ undocumented_of heap.now body.now }
{
    match body {
        [first, _, ..] if is_string(heap, *first) => &body[1..],
        _ => body,
    }
}

/// Adds the declarations at the front of a body to the elements of a list.
pub(crate) fn add_declarations(
    elements: &mut Templates,
    heap: &Heap,
    body: &[Val],
) -> Result<(), AllocError>
    ensures { OnOk result (map tree_of elements.new.items ≡ map tree_of elements.old.items ++ forms_of (parted heap.now body.now).declarations) }
{
    for form in body {
        if !is_declaration(heap, *form) {
            return Ok(());
        }
        elements.push(Template::Form(*form))?;
    }
    Ok(())
}

/// The forms after the declarations of a body.
pub(crate) fn after_declarations<'a>(heap: &Heap, body: &'a [Val]) -> &'a [Val]
    ensures { result.now ≡ (parted heap.now body.now).rest }
{
    let mut rest = body;
    while let [first, others @ ..] = rest {
        if !is_declaration(heap, *first) {
            return rest;
        }
        rest = others;
    }
    rest
}
