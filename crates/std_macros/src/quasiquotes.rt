//! The macro of the backquote.

ghost use Rattle.std.specs.Prelude.{◌≡◌, IfOk};
ghost use Rattle.std.specs.Option.{option_map};
ghost use Rattle.lisp_forms.specs.Conses.{cons_at};
ghost use Rattle.lisp_forms.specs.Trees.{tree_of};
ghost use Rattle.std_macros.specs.Quasiquotes.{joined as joined_of, quasi_form as quasi_form_of, quasi_parts as quasi_parts_of, quasiquote_row, under as under_of};
ghost use Rattle.std_macros.specs.Rules.{expansion_of};

use crate::making::{form, one, plain, two};
use crate::rule::Rule;
use crate::syntax::marked;
use crate::words::Word;
use lisp_base::{Heap, Val};
use lisp_forms::{Template, cons_of};
use std::alloc::{AllocError, Global};

/// `(QUASIQUOTE X)`
fn under(alloc: Global, value: Val) -> Result<Template, AllocError>
    ensures { IfOk result (λ made. tree_of made ≡ under_of value) }
{
    one(alloc, Word::Quasiquote, form(value))
}

/// An element, of which this may be spliced in, before the rest of its list.
fn joined(
    alloc: Global,
    spliced: Option<Val>,
    first: Val,
    rest: Val,
) -> Result<Template, AllocError>
    ensures { IfOk result (λ made. tree_of made ≡ joined_of spliced first rest) }
{
    let rest = under(alloc, rest)?;
    match spliced {
        Some(value) => two(alloc, Word::Append, form(value), rest),
        None => {
            let first = under(alloc, first)?;
            two(alloc, Word::Cons, first, rest)
        }
    }
}

/// A value that no comma stands before.
fn quasi_parts(alloc: Global, heap: &Heap, value: Val) -> Result<Template, AllocError>
    ensures { IfOk result (λ made. tree_of made ≡ quasi_parts_of heap.now value (cons_at heap.now value)) }
{
    match cons_of(heap, value) {
        Some((first, rest)) => {
            joined(
                alloc,
                marked(Word::UnquoteSplicing, heap, first),
                first,
                rest,
            )
        }
        None => one(alloc, Word::Quote, form(value)),
    }
}

/// `QUASIQUOTE`.
pub(crate) fn quasiquote(
    alloc: Global,
    heap: &Heap,
    arguments: &[Val],
) -> Result<Option<Rule>, AllocError>
    ensures { IfOk result (λ found. option_map expansion_of found ≡ quasiquote_row heap.now arguments.now) }
{
    let [value] = arguments else {
        return Ok(None);
    };
    let made = match marked(Word::Unquote, heap, *value) {
        Some(unquoted) => form(unquoted),
        None => quasi_parts(alloc, heap, *value)?,
    };
    Ok(Some(plain(alloc, 0, made)))
}
