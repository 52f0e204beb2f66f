// What the functions of a form close over.
ghost use Rattle.std.specs.Prelude.{◌≡◌, IfOk, flat_map};
ghost use Rattle.core_form.specs.Reading.{core_of, lambda_of};
ghost use Rattle.closed_copies.specs.Table.{local_entry};
ghost use Rattle.closed_copies.specs.Walked.{events_list, tags_list, entries_list};
ghost use Rattle.form_facts.specs.View.{lists_of};
ghost use Rattle.form_facts.specs.Read.{parts_list};
ghost use Rattle.form_facts.specs.Lists.{tags_in as tags_of, locals_in as locals_of, local_lists, closed_of_lambda, closed_of_parts};

use crate::lists::{closed_with, settle};
use crate::parts::Part;
use closed_copies::functions::{Function, Tag, function_of, numbers_in, tags_in};
use closed_copies::walk::{Event, walk};
use core_form::{Core, Lambda};
use std::alloc::{AllocError, Global};

/// The local functions of a form.
#[derive(Drop)]
pub struct Locals {
    /// The tags of the form.
    pub tags: Vec<Tag>,
    /// The numbers of the local functions.
    pub numbers: Vec<u32>,
    /// What each closes over, as functions that refer to it see it.
    pub lists: Vec<Vec<u32>>,
}

/// The local functions, as far as their closed variables go.
fn table_in(
    alloc: Global,
    events: &[Event<'_>],
    tags: &[Tag],
    locals: &[u32],
) -> Result<Vec<Function>, AllocError>
    ensures { IfOk result (λ table. entries_list table.items ≡ flat_map (local_entry (tags_list tags.now) locals.now) (events_list events.now)) }
{
    let mut table = Vec::new(alloc);
    for event in events {
        if let Event::Define(definition) = *event {
            table.push(function_of(alloc, &definition.lambda, tags, locals)?)?;
        }
    }
    Ok(table)
}

/// The local functions of a form with what they close over.
///
/// # Errors
/// Want of memory alone.
pub fn locals_in(alloc: Global, core: &Core) -> Result<Locals, AllocError>
    ensures tags { IfOk result (λ locals. tags_list locals.tags.items ≡ tags_of (core_of core.now)) }
    ensures numbers { IfOk result (λ locals. locals.numbers.items ≡ locals_of (core_of core.now)) }
    ensures lists { IfOk result (λ locals. lists_of locals.lists.items ≡ local_lists (core_of core.now)) }
{
    let mut events = Vec::new(alloc);
    walk(&mut events, core)?;
    let tags = tags_in(alloc, &events)?;
    let numbers = numbers_in(alloc, &events)?;
    let table = table_in(alloc, &events, &tags, &numbers)?;
    let lists = settle(alloc, numbers.len(), &table)?;
    Ok(Locals {
        tags,
        numbers,
        lists,
    })
}

/// What a function closes over.
fn closed_of(alloc: Global, lambda: &Lambda, locals: &Locals) -> Result<Vec<u32>, AllocError>
    ensures { IfOk result (λ closed. closed.items ≡ closed_of_lambda (tags_list locals.now.tags.items) locals.now.numbers.items (lists_of locals.now.lists.items) (lambda_of lambda.now)) }
{
    let function = function_of(alloc, lambda, &locals.tags, &locals.numbers)?;
    closed_with(alloc, &function, &locals.lists)
}

/// What each function among these parts closes over, in their order.
///
/// # Errors
/// Want of memory alone.
pub fn closed_lists(
    alloc: Global,
    parts: &[Part<'_>],
    locals: &Locals,
) -> Result<Vec<Vec<u32>>, AllocError>
    ensures { IfOk result (λ closed. lists_of closed.items ≡ closed_of_parts (tags_list locals.now.tags.items) locals.now.numbers.items (lists_of locals.now.lists.items) (parts_list parts.now)) }
{
    let mut closed = Vec::new(alloc);
    for part in parts {
        if let Part::Make(lambda) = *part {
            closed.push(closed_of(alloc, lambda, locals)?)?;
        }
    }
    Ok(closed)
}
