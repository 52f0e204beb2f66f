// How often what the functions of a form close over is copied.
ghost use Rattle.std.specs.Prelude.{◌≡◌, ◌≤◌, length, IfOk};
ghost use Rattle.core_form.specs.Reading.{core_of};
ghost use Rattle.closed_copies.specs.Copies.{closed_copies as copies_in, within};
ghost use Rattle.closed_copies.specs.Walked.{entries_list};
ghost use Rattle.closed_copies.specs.Marks.{marks_of, copies_with, copies_of_all};

use crate::functions::{Function, called_in, functions_in, numbers_in, tags_in, variables_in};
use crate::marks::{count_marked, count_true, settle};
use crate::walk::walk;
use core_form::TopForm;
use std::alloc::{AllocError, Global};

/// How often a variable is copied, where these functions close over it.
fn count_copies(locals: usize, calls: &[usize], marks: &[bool]) -> u64
    requires { locals ≤ length marks.now }
    ensures { result ≡ copies_with locals calls.now marks.now }
{
    count_marked(marks, calls) as u64 + count_true(&marks[locals..]) as u64
}

/// How often a variable is copied.
fn copies_of(
    alloc: Global,
    locals: usize,
    calls: &[usize],
    table: &[Function],
    variable: u32,
) -> Result<u64, AllocError>
    requires { locals ≤ length table.now }
    ensures { IfOk result (λ n. n ≡ copies_with locals calls.now (marks_of locals variable (entries_list table.now))) }
{
    let marks = settle(alloc, locals + 1, variable, table)?;
    Ok(count_copies(locals, calls, &marks))
}

/// How often these variables are copied together, where that is not above a limit.
fn copies_of_these(
    alloc: Global,
    locals: usize,
    calls: &[usize],
    table: &[Function],
    variables: &[u32],
    most: u32,
) -> Result<Option<u32>, AllocError>
    requires { locals ≤ length table.now }
    ensures { IfOk result (λ n. n ≡ within most (copies_of_all locals calls.now (entries_list table.now) variables.now)) }
{
    let mut total: u32 = 0;
    for variable in variables {
        let more = copies_of(alloc, locals, calls, table, *variable)?;
        if more > (most - total) as u64 {
            return Ok(None);
        }
        total += more as u32;
    }
    Ok(Some(total))
}

/// The number of closed copies of a top-level form, where it is not above a limit: the numbers of
/// closed variables of the local functions that are called or taken as values, each as often as
/// that is written, and of the functions that are made without a name. None exactly where the
/// number is above `most`.
///
/// # Errors
/// Want of memory alone.
pub fn closed_copies(alloc: Global, form: &TopForm, most: u32) -> Result<Option<u32>, AllocError>
    ensures { IfOk result (λ n. n ≡ within most (copies_in (core_of form.now.core))) }
{
    let mut events = Vec::new(alloc);
    walk(&mut events, &form.core)?;
    let numbers = numbers_in(alloc, &events)?;
    let tags = tags_in(alloc, &events)?;
    let calls = called_in(alloc, &events, &numbers)?;
    let table = functions_in(alloc, &events, &tags, &numbers)?;
    let variables = variables_in(alloc, &table)?;
    copies_of_these(alloc, numbers.len(), &calls, &table, &variables, most)
}
