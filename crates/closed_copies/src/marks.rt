// Which functions close over one variable.
ghost use Rattle.std.specs.Prelude.{◌≡◌, ◌≤◌, length, IfOk};
ghost use Rattle.std.specs.List.{list_any};
ghost use Rattle.closed_copies.specs.Walked.{entry_of, entries_list};
ghost use Rattle.closed_copies.specs.Marks.{is_marked as marked_at, closes_over, one_round, rounds as rounds_of, unmarked as none_marked, count_true as true_ones, count_marked as marked_ones};

use crate::functions::{Function, has};
use std::alloc::{AllocError, Global};

fn is_marked(marks: &[bool], place: usize) -> bool
    ensures { result ≡ marked_at marks.now place }
{
    match marks.get(place) {
        Some(mark) => *mark,
        None => false,
    }
}

fn has_marked(marks: &[bool], places: &[usize]) -> bool
    ensures { result ≡ list_any (marked_at marks.now) places.now }
{
    for place in places {
        if is_marked(marks, *place) {
            return true;
        }
    }
    false
}

/// Whether a function closes over a variable, where the functions that are marked do.
fn closes(variable: u32, marks: &[bool], function: &Function) -> bool
    ensures { result ≡ closes_over variable marks.now (entry_of function.now) }
{
    (has(&function.refers, variable) || has_marked(marks, &function.calls))
        && !has(&function.inner, variable)
}

fn unmarked(alloc: Global, table: &[Function]) -> Result<Vec<bool>, AllocError>
    ensures { IfOk result (λ marks. marks.items ≡ none_marked (entries_list table.now)) }
{
    let mut marks = Vec::new(alloc);
    for _function in table {
        marks.push(false)?;
    }
    Ok(marks)
}

/// One round more: the marks of all functions from those before.
fn next_marks(
    alloc: Global,
    variable: u32,
    table: &[Function],
    marks: &[bool],
) -> Result<Vec<bool>, AllocError>
    ensures { IfOk result (λ next. next.items ≡ one_round variable (entries_list table.now) marks.now) }
{
    let mut next = Vec::new(alloc);
    for function in table {
        next.push(closes(variable, marks, function))?;
    }
    Ok(next)
}

/// The marks after so many rounds. A round that changes nothing is the last.
pub(crate) fn settle(
    alloc: Global,
    rounds: usize,
    variable: u32,
    table: &[Function],
) -> Result<Vec<bool>, AllocError>
    ensures { IfOk result (λ marks. marks.items ≡ rounds_of rounds variable (entries_list table.now) (none_marked (entries_list table.now))) }
{
    let mut marks = unmarked(alloc, table)?;
    for _round in 0..rounds {
        let next = next_marks(alloc, variable, table, &marks)?;
        if next == marks {
            return Ok(marks);
        }
        marks = next;
    }
    Ok(marks)
}

/// How many are marked.
pub(crate) fn count_true(marks: &[bool]) -> usize
    ensures counted { result ≡ true_ones marks.now }
    ensures most { result ≤ length marks.now }
{
    let mut count = 0;
    for mark in marks {
        if *mark {
            count += 1;
        }
    }
    count
}

/// How many of these places are marked.
pub(crate) fn count_marked(marks: &[bool], places: &[usize]) -> usize
    ensures counted { result ≡ marked_ones marks.now places.now }
    ensures most { result ≤ length places.now }
{
    let mut count = 0;
    for place in places {
        if is_marked(marks, *place) {
            count += 1;
        }
    }
    count
}
