// The closed variables of functions, round by round.
ghost use Rattle.std.specs.Prelude.{◌≡◌, [], true, OnOk, IfOk};
ghost use Rattle.core_form.specs.Facts.{union};
ghost use Rattle.closed_copies.specs.Walked.{entry_of, entries_list};
ghost use Rattle.form_facts.specs.View.{list_at, lists_of};
ghost use Rattle.form_facts.specs.Lists.{lists_at, closed_from, one_round, rounds as rounds_of, none_closed, joined};

use crate::numbers::{Numbers, others_of};
use closed_copies::functions::Function;
use std::alloc::{AllocError, Global};

/// The list at a place; an empty one where there is none.
pub fn list_at(lists: &[Vec<u32>], place: usize) -> &[u32]
    ensures { result.now ≡ list_at (lists_of lists.now) place }
{
    match lists.get(place) {
        Some(list) => list,
        None => &[],
    }
}

/// Adds the numbers of the lists at these places.
fn unite_at(all: &mut Numbers, lists: &[Vec<u32>], places: &[usize]) -> Result<(), AllocError>
    ensures { OnOk result (all.new ≡ union all.old (lists_at (lists_of lists.now) places.now)) }
{
    for place in places {
        all.unite(list_at(lists, *place))?;
    }
    Ok(())
}

/// The closed variables of a function, from those of the local functions one round before.
pub fn closed_with(
    alloc: Global,
    function: &Function,
    lists: &[Vec<u32>],
) -> Result<Vec<u32>, AllocError>
    ensures { IfOk result (λ closed. closed.items ≡ closed_from (lists_of lists.now) (entry_of function.now)) }
{
    let mut all = Numbers::of(alloc, &function.refers)?;
    unite_at(&mut all, lists, &function.calls)?;
    let inner = Numbers::of(alloc, &function.inner)?;
    others_of(alloc, all.as_slice(), &inner)
}

fn no_lists(alloc: Global, table: &[Function]) -> Result<Vec<Vec<u32>>, AllocError>
    ensures { IfOk result (λ lists. lists_of lists.items ≡ none_closed (entries_list table.now)) }
{
    let mut lists = Vec::new(alloc);
    for _function in table {
        lists.push(Vec::new(alloc))?;
    }
    Ok(lists)
}

/// One round more: the lists of all functions from those before.
fn next_lists(
    alloc: Global,
    table: &[Function],
    lists: &[Vec<u32>],
) -> Result<Vec<Vec<u32>>, AllocError>
    ensures { IfOk result (λ next. lists_of next.items ≡ one_round (entries_list table.now) (lists_of lists.now)) }
{
    let mut next = Vec::new(alloc);
    for function in table {
        next.push(closed_with(alloc, function, lists)?)?;
    }
    Ok(next)
}

fn is_same(one: &[u32], other: &[u32]) -> bool
    ensures { result ≡ true → one.now ≡ other.now }
{
    one == other
}

fn are_same(ones: &[Vec<u32>], others: &[Vec<u32>]) -> bool
    ensures { result ≡ true → lists_of ones.now ≡ lists_of others.now }
{
    if ones.len() != others.len() {
        return false;
    }
    for i in 0..ones.len() {
        if !is_same(&ones[i], &others[i]) {
            return false;
        }
    }
    true
}

/// The lists after so many rounds. A round that changes nothing is the last.
pub fn settle(alloc: Global, rounds: usize, table: &[Function]) -> Result<Vec<Vec<u32>>, AllocError>
    ensures { IfOk result (λ lists. lists_of lists.items ≡ rounds_of rounds (entries_list table.now) (none_closed (entries_list table.now))) }
{
    let mut lists = no_lists(alloc, table)?;
    for _round in 0..rounds {
        let next = next_lists(alloc, table, &lists)?;
        if are_same(&next, &lists) {
            return Ok(lists);
        }
        lists = next;
    }
    Ok(lists)
}

/// The numbers of all lists together.
pub fn joined_in(alloc: Global, lists: &[Vec<u32>]) -> Result<Numbers, AllocError>
    ensures { IfOk result (λ all. all ≡ union [] (joined (lists_of lists.now))) }
{
    let mut all = Numbers::new(alloc);
    for list in lists {
        all.unite(list)?;
    }
    Ok(all)
}
