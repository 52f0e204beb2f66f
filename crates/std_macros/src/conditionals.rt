//! Macros that choose by tests.

ghost use Rattle.std.specs.Prelude.{◌≡◌, IfOk};
ghost use Rattle.std.specs.Option.{option_map};
ghost use Rattle.std_macros.specs.Conditionals.{and_row, or_row, clause_row, cond_row, when_row, unless_row};
ghost use Rattle.std_macros.specs.Rules.{expansion_of};

use crate::making::{call, form, fresh, kept, plain, three, two, word, word_before};
use crate::rule::Rule;
use crate::words::Word;
use lisp_base::{Heap, Val};
use lisp_forms::elements;
use std::alloc::{AllocError, Global};

/// `AND`, with the list of all arguments but the first.
pub(crate) fn and(alloc: Global, rest: Val, arguments: &[Val]) -> Result<Option<Rule>, AllocError>
    ensures { IfOk result (λ found. option_map expansion_of found ≡ and_row rest arguments.now) }
{
    let first = match arguments {
        [] => word(Word::T),
        [only] => form(*only),
        [first, ..] => {
            let others = word_before(alloc, Word::And, rest)?;
            three(alloc, Word::If, form(*first), others, word(Word::Nil))?
        }
    };
    Ok(Some(plain(alloc, 0, first)))
}

/// `OR`, with the list of all arguments but the first.
pub(crate) fn or(alloc: Global, rest: Val, arguments: &[Val]) -> Result<Option<Rule>, AllocError>
    ensures { IfOk result (λ found. option_map expansion_of found ≡ or_row rest arguments.now) }
{
    match arguments {
        [] => Ok(Some(plain(alloc, 0, word(Word::Nil)))),
        [only] => Ok(Some(plain(alloc, 0, form(*only)))),
        [first, ..] => {
            let others = word_before(alloc, Word::Or, rest)?;
            let body = vec![in alloc; three(alloc, Word::If, fresh(0), fresh(0), others)?]?;
            Ok(Some(plain(alloc, 1, kept(alloc, *first, body)?)))
        }
    }
}

/// A first clause of `COND`, with the list of the others.
fn clause(alloc: Global, rest: Val, clause: &[Val]) -> Result<Option<Rule>, AllocError>
    ensures { IfOk result (λ found. option_map expansion_of found ≡ clause_row rest clause.now) }
{
    match clause {
        [] => Ok(None),
        [only] => {
            let others = word_before(alloc, Word::Cond, rest)?;
            Ok(Some(plain(alloc, 0, two(alloc, Word::Or, form(*only), others)?)))
        }
        [test, body @ ..] => {
            let body = call(alloc, Word::Progn, body)?;
            let others = word_before(alloc, Word::Cond, rest)?;
            Ok(Some(plain(alloc, 0, three(alloc, Word::If, form(*test), body, others)?)))
        }
    }
}

/// `COND`, with the list of all clauses but the first.
pub(crate) fn cond(
    alloc: Global,
    heap: &Heap,
    rest: Val,
    arguments: &[Val],
) -> Result<Option<Rule>, AllocError>
    ensures { IfOk result (λ found. option_map expansion_of found ≡ cond_row heap.now rest arguments.now) }
{
    let [first, ..] = arguments else {
        return Ok(Some(plain(alloc, 0, word(Word::Nil))));
    };
    match elements(alloc, heap, *first)? {
        Some(parts) => clause(alloc, rest, &parts),
        None => Ok(None),
    }
}

/// `WHEN`.
pub(crate) fn when(alloc: Global, arguments: &[Val]) -> Result<Option<Rule>, AllocError>
    ensures { IfOk result (λ found. option_map expansion_of found ≡ when_row arguments.now) }
{
    let [test, body @ ..] = arguments else {
        return Ok(None);
    };
    let body = call(alloc, Word::Progn, body)?;
    let chosen = three(alloc, Word::If, form(*test), body, word(Word::Nil))?;
    Ok(Some(plain(alloc, 0, chosen)))
}

/// `UNLESS`.
pub(crate) fn unless(alloc: Global, arguments: &[Val]) -> Result<Option<Rule>, AllocError>
    ensures { IfOk result (λ found. option_map expansion_of found ≡ unless_row arguments.now) }
{
    let [test, body @ ..] = arguments else {
        return Ok(None);
    };
    let body = call(alloc, Word::Progn, body)?;
    let chosen = three(alloc, Word::If, form(*test), word(Word::Nil), body)?;
    Ok(Some(plain(alloc, 0, chosen)))
}
