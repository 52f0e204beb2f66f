//! Macros that choose by keys or types.

ghost use Rattle.std.specs.Prelude.{◌≡◌, ◌∷◌, [], IfOk, map, not};
ghost use Rattle.std.specs.Option.{option_map};
ghost use Rattle.std.specs.List.{list_all};
ghost use Rattle.lisp_forms.specs.Conses.{cons_at};
ghost use Rattle.lisp_forms.specs.Trees.{tree_of, inner as inner_tree};
ghost use Rattle.std_macros.specs.Cases.{all_tests as all_tests_of, before_default, case_row, choice as choice_of, clause_at, clause_form as clause_form_of, clause_of, clause_with as clause_from, exhaustive_row, is_default as is_default_head, keys_by, open_choice as open_choice_of, test_type as test_type_of, tests_at};
ghost use Rattle.std_macros.specs.Rules.{expansion_of, kept as kept_of};
ghost use Rattle.std_macros.specs.Syntax.{each};

use crate::making::{add_forms, call, form, fresh, kept, list, one, three, two, word};
use crate::rule::Rule;
use crate::syntax::is_word;
use crate::words::Word;
use lisp_base::{Heap, Val, Vals};
use lisp_forms::{Template, Templates, cons_of, elements, is_nil};
use std::alloc::{AllocError, Global};

/// What a macro chooses by.
#[derive(Clone, Copy, PartialEq, Eq, Debug)]
pub(crate) enum Choice {
    /// By equal keys: `CASE` and `ECASE`.
    ByKey,
    /// By types: `TYPECASE` and `ETYPECASE`.
    ByType,
}

/// A clause: what it begins with, what it tests, and its forms.
#[derive(Drop)]
pub(crate) struct Clause {
    pub(crate) head: Val,
    pub(crate) tests: Vals,
    pub(crate) body: Vals,
}

/// The keys of a clause: a list, or one atom other than NIL.
fn keys(alloc: Global, heap: &Heap, head: Val) -> Result<Option<Vals>, AllocError>
    ensures { IfOk result (λ found. option_map (λ xs. xs.items) found ≡ keys_by (cons_at heap.now head) heap.now head) }
{
    match cons_of(heap, head) {
        Some(_) => elements(alloc, heap, head),
        None => {
            if is_nil(head) {
                return Ok(Some(Vec::new(alloc)));
            }
            Ok(Some(vec![in alloc; head]?))
        }
    }
}

/// What a clause tests.
fn tests(alloc: Global, by: Choice, heap: &Heap, head: Val) -> Result<Option<Vals>, AllocError>
    ensures { IfOk result (λ found. option_map (λ xs. xs.items) found ≡ tests_at by heap.now head) }
{
    match by {
        Choice::ByKey => keys(alloc, heap, head),
        Choice::ByType => Ok(Some(vec![in alloc; head]?)),
    }
}

/// The clause of these elements.
fn clause_with(
    alloc: Global,
    by: Choice,
    heap: &Heap,
    parts: &[Val],
) -> Result<Option<Clause>, AllocError>
    ensures { IfOk result (λ found. option_map clause_of found ≡ clause_from by heap.now parts.now) }
{
    let [head, body @ ..] = parts else {
        return Ok(None);
    };
    let Some(tests) = tests(alloc, by, heap, *head)? else {
        return Ok(None);
    };
    let body = Vec::from_slice(alloc, body)?;
    Ok(Some(Clause {
        head: *head,
        tests,
        body,
    }))
}

/// The clause that a form is.
fn clause_of_form(
    alloc: Global,
    by: Choice,
    heap: &Heap,
    form: Val,
) -> Result<Option<Clause>, AllocError>
    ensures { IfOk result (λ found. option_map clause_of found ≡ clause_at by heap.now form) }
{
    match elements(alloc, heap, form)? {
        Some(parts) => clause_with(alloc, by, heap, &parts),
        None => Ok(None),
    }
}

/// The clauses that these forms are.
fn clauses(
    alloc: Global,
    by: Choice,
    heap: &Heap,
    forms: &[Val],
) -> Result<Option<Vec<Clause>>, AllocError>
    ensures { IfOk result (λ found. option_map (λ cs. map clause_of cs.items) found ≡ each (clause_at by heap.now) forms.now) }
{
    let mut clauses = Vec::new(alloc);
    for form in forms {
        let Some(clause) = clause_of_form(alloc, by, heap, *form)? else {
            return Ok(None);
        };
        clauses.push(clause)?;
    }
    Ok(Some(clauses))
}

/// Whether a clause that begins so stands for all that is left.
fn is_default(head: Val) -> bool
    ensures { result ≡ is_default_head head }
{
    is_word(Word::T, head) || is_word(Word::Otherwise, head)
}

/// Whether no clause stands for all that is left.
fn has_no_default(clauses: &[Clause]) -> bool
    ensures { result ≡ list_all (λ c. not (is_default_head c.head)) (map clause_of clauses.now) }
{
    for clause in clauses {
        if is_default(clause.head) {
            return false;
        }
    }
    true
}

/// The type that a clause tests for.
fn test_type(alloc: Global, by: Choice, tests: &[Val]) -> Result<Template, AllocError>
    ensures { IfOk result (λ made. tree_of made ≡ test_type_of by tests.now) }
{
    match by {
        Choice::ByKey => call(alloc, Word::Member, tests),
        Choice::ByType => Ok(match tests {
            [] => word(Word::Nil),
            [first, ..] => form(*first),
        }),
    }
}

/// The form of a clause, around what comes after it.
fn clause_form(alloc: Global, by: Choice, clause: &Clause) -> Result<Template, AllocError>
    ensures { IfOk result (λ made. tree_of made ≡ clause_form_of by (clause_of clause.now)) }
{
    let tested = test_type(alloc, by, &clause.tests)?;
    let quoted = one(alloc, Word::Quote, tested)?;
    let test = two(alloc, Word::Typep, fresh(0), quoted)?;
    let body = call(alloc, Word::Progn, &clause.body)?;
    three(alloc, Word::If, test, body, Template::Inner)
}

/// The forms of several clauses.
fn clause_forms(alloc: Global, by: Choice, clauses: &[Clause]) -> Result<Templates, AllocError>
    ensures { IfOk result (λ made. map tree_of made.items ≡ map (clause_form_of by) (map clause_of clauses.now)) }
{
    let mut made = Vec::new(alloc);
    for clause in clauses {
        made.push(clause_form(alloc, by, clause)?)?;
    }
    Ok(made)
}

/// `(LET ((G A)) REST)`, around the rest.
fn kept_inner(alloc: Global, value: Val) -> Result<Template, AllocError>
    ensures { IfOk result (λ made. tree_of made ≡ kept_of value (inner_tree ∷ [])) }
{
    kept(alloc, value, vec![in alloc; Template::Inner]?)
}

/// The choice among clauses, with what is at the end.
fn choose(
    alloc: Global,
    by: Choice,
    value: Val,
    end: Template,
    clauses: &[Clause],
) -> Result<Rule, AllocError>
    ensures { IfOk result (λ rule. expansion_of rule ≡ choice_of by value (tree_of end) (map clause_of clauses.now)) }
{
    let mut around = clause_forms(alloc, by, clauses)?;
    around.reverse();
    around.push(kept_inner(alloc, value)?)?;
    Ok(Rule {
        fresh: 1,
        first: end,
        around,
    })
}

/// The choice among clauses of which none stands for all that is left.
fn closed_choice(
    alloc: Global,
    by: Choice,
    value: Val,
    end: Template,
    clauses: &[Clause],
) -> Result<Option<Rule>, AllocError>
    ensures { IfOk result (λ found. option_map expansion_of found ≡ open_choice_of by value (map clause_of clauses.now, tree_of end)) }
{
    if !has_no_default(clauses) {
        return Ok(None);
    }
    Ok(Some(choose(alloc, by, value, end, clauses)?))
}

/// The choice among clauses of which the last may stand for all that is left.
fn open_choice(
    alloc: Global,
    by: Choice,
    value: Val,
    clauses: &[Clause],
) -> Result<Option<Rule>, AllocError>
    ensures { IfOk result (λ found. option_map expansion_of found ≡ open_choice_of by value (before_default (map clause_of clauses.now))) }
{
    let [front @ .., last] = clauses else {
        return closed_choice(alloc, by, value, word(Word::Nil), clauses);
    };
    if is_default(last.head) {
        let end = call(alloc, Word::Progn, &last.body)?;
        return closed_choice(alloc, by, value, end, front);
    }
    closed_choice(alloc, by, value, word(Word::Nil), clauses)
}

/// `CASE` and `TYPECASE`.
pub(crate) fn case(
    alloc: Global,
    by: Choice,
    heap: &Heap,
    arguments: &[Val],
) -> Result<Option<Rule>, AllocError>
    ensures { IfOk result (λ found. option_map expansion_of found ≡ case_row by heap.now arguments.now) }
{
    let [value, forms @ ..] = arguments else {
        return Ok(None);
    };
    match clauses(alloc, by, heap, forms)? {
        Some(clauses) => open_choice(alloc, by, *value, &clauses),
        None => Ok(None),
    }
}

/// The type of all that the clauses test.
fn all_tests(alloc: Global, by: Choice, clauses: &[Clause]) -> Result<Template, AllocError>
    ensures { IfOk result (λ made. tree_of made ≡ all_tests_of by (map clause_of clauses.now)) }
{
    let operator = match by {
        Choice::ByKey => Word::Member,
        Choice::ByType => Word::Or,
    };
    let mut elements = vec![in alloc; word(operator)]?;
    for clause in clauses {
        add_forms(&mut elements, &clause.tests)?;
    }
    Ok(list(elements))
}

/// `ECASE` and `ETYPECASE`.
pub(crate) fn exhaustive(
    alloc: Global,
    by: Choice,
    heap: &Heap,
    arguments: &[Val],
) -> Result<Option<Rule>, AllocError>
    ensures { IfOk result (λ found. option_map expansion_of found ≡ exhaustive_row by heap.now arguments.now) }
{
    let [value, forms @ ..] = arguments else {
        return Ok(None);
    };
    match clauses(alloc, by, heap, forms)? {
        Some(clauses) => {
            let tests = all_tests(alloc, by, &clauses)?;
            let end = two(alloc, Word::The, tests, fresh(0))?;
            Ok(Some(choose(alloc, by, *value, end, &clauses)?))
        }
        None => Ok(None),
    }
}
