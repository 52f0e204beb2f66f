// The functions of a form: to what each refers, which it calls, what is bound inside it.
ghost use Rattle.std.specs.Prelude.{◌≡◌, ◌++◌, [], OnOk, IfOk, flat_map};
ghost use Rattle.core_form.specs.Reading.{lambda_of};
ghost use Rattle.core_form.specs.Facts.{has_number, union as union_of, lookup};
ghost use Rattle.closed_copies.specs.Table.{as_list, place_from, tag_of, number_of, referred_of, called_of, bound_of, opened_of, entry, local_entry, made_entry, entries, all_referred};
ghost use Rattle.closed_copies.specs.Walked.{event_of, events_list, tags_list, entry_of, entries_list};

use crate::walk::{Event, walk_lambda};
use core_form::Lambda;
use std::alloc::{AllocError, Global};

/// A tag with the number of its tagbody.
#[derive(Clone, Copy)]
pub struct Tag {
    pub number: u32,
    pub tagbody: u32,
}

/// A function, as far as its closed variables go.
#[derive(Drop)]
pub struct Function {
    /// The variables to which it refers and the blocks and tagbodies that it leaves.
    pub refers: Vec<u32>,
    /// The places of the local functions to which it refers.
    pub calls: Vec<usize>,
    /// What is bound inside it.
    pub inner: Vec<u32>,
}

/// Whether a number is among others.
pub fn has(numbers: &[u32], number: u32) -> bool
    ensures { result ≡ has_number number numbers.now }
{
    for other in numbers {
        if number == *other {
            return true;
        }
    }
    false
}

/// The place of the first of these numbers that is this.
pub fn place_of(numbers: &[u32], number: u32) -> Option<usize>
    ensures { result ≡ place_from 0 number numbers.now }
{
    for (i, other) in numbers.iter().enumerate() {
        if number == *other {
            return Some(i);
        }
    }
    None
}

/// The tagbody in which a tag stands.
fn tagbody_of(tags: &[Tag], number: u32) -> Option<u32>
    ensures { result ≡ lookup number (tags_list tags.now) }
{
    for tag in tags {
        if number == tag.number {
            return Some(tag.tagbody);
        }
    }
    None
}

fn referred(event: Event<'_>, tags: &[Tag]) -> Option<u32>
    ensures { as_list result ≡ referred_of (tags_list tags.now) (event_of event.entry) }
{
    match event {
        Event::Refer(number) => Some(number),
        Event::Go(tag) => tagbody_of(tags, tag),
        Event::Bind(_)
        | Event::Open(_)
        | Event::Call(_)
        | Event::Make(_)
        | Event::Define(_)
        | Event::Stand(_, _) => None,
    }
}

fn called(event: Event<'_>, numbers: &[u32]) -> Option<usize>
    ensures { as_list result ≡ called_of numbers.now (event_of event.entry) }
{
    match event {
        Event::Call(function) => place_of(numbers, function),
        Event::Refer(_)
        | Event::Go(_)
        | Event::Bind(_)
        | Event::Open(_)
        | Event::Make(_)
        | Event::Define(_)
        | Event::Stand(_, _) => None,
    }
}

/// The tags of a form.
pub fn tags_in(alloc: Global, events: &[Event<'_>]) -> Result<Vec<Tag>, AllocError>
    ensures { IfOk result (λ tags. tags_list tags.items ≡ flat_map tag_of (events_list events.now)) }
{
    let mut tags = Vec::new(alloc);
    for event in events {
        if let Event::Stand(number, tagbody) = *event {
            tags.push(Tag { number, tagbody })?;
        }
    }
    Ok(tags)
}

/// The numbers of the local functions of a form.
pub fn numbers_in(alloc: Global, events: &[Event<'_>]) -> Result<Vec<u32>, AllocError>
    ensures { IfOk result (λ numbers. numbers.items ≡ flat_map number_of (events_list events.now)) }
{
    let mut numbers = Vec::new(alloc);
    for event in events {
        if let Event::Define(definition) = *event {
            numbers.push(definition.number)?;
        }
    }
    Ok(numbers)
}

fn referred_in(alloc: Global, events: &[Event<'_>], tags: &[Tag]) -> Result<Vec<u32>, AllocError>
    ensures { IfOk result (λ numbers. numbers.items ≡ flat_map (referred_of (tags_list tags.now)) (events_list events.now)) }
{
    let mut numbers = Vec::new(alloc);
    for event in events {
        if let Some(number) = referred(*event, tags) {
            numbers.push(number)?;
        }
    }
    Ok(numbers)
}

/// The places, among the local functions of these numbers, of those that are called or taken.
pub fn called_in(
    alloc: Global,
    events: &[Event<'_>],
    functions: &[u32],
) -> Result<Vec<usize>, AllocError>
    ensures { IfOk result (λ places. places.items ≡ flat_map (called_of functions.now) (events_list events.now)) }
{
    let mut places = Vec::new(alloc);
    for event in events {
        if let Some(place) = called(*event, functions) {
            places.push(place)?;
        }
    }
    Ok(places)
}

fn add_bound(numbers: &mut Vec<u32>, events: &[Event<'_>]) -> Result<(), AllocError>
    ensures { OnOk result (numbers.new.items ≡ numbers.old.items ++ flat_map bound_of (events_list events.now)) }
{
    for event in events {
        if let Event::Bind(number) = *event {
            numbers.push(number)?;
        }
    }
    Ok(())
}

fn add_opened(numbers: &mut Vec<u32>, events: &[Event<'_>]) -> Result<(), AllocError>
    ensures { OnOk result (numbers.new.items ≡ numbers.old.items ++ flat_map opened_of (events_list events.now)) }
{
    for event in events {
        if let Event::Open(number) = *event {
            numbers.push(number)?;
        }
    }
    Ok(())
}

fn inner_in(alloc: Global, events: &[Event<'_>]) -> Result<Vec<u32>, AllocError>
    ensures { IfOk result (λ numbers. numbers.items ≡ flat_map bound_of (events_list events.now) ++ flat_map opened_of (events_list events.now)) }
{
    let mut numbers = Vec::new(alloc);
    add_bound(&mut numbers, events)?;
    add_opened(&mut numbers, events)?;
    Ok(numbers)
}

/// A function, as far as its closed variables go, among local functions of these numbers.
pub fn function_of(
    alloc: Global,
    lambda: &Lambda,
    tags: &[Tag],
    functions: &[u32],
) -> Result<Function, AllocError>
    ensures { IfOk result (λ function. entry_of function ≡ entry (tags_list tags.now) functions.now (lambda_of lambda.now)) }
{
    let mut events = Vec::new(alloc);
    walk_lambda(&mut events, lambda)?;
    let refers = referred_in(alloc, &events, tags)?;
    let calls = called_in(alloc, &events, functions)?;
    let inner = inner_in(alloc, &events)?;
    Ok(Function {
        refers,
        calls,
        inner,
    })
}

fn add_local(
    alloc: Global,
    table: &mut Vec<Function>,
    events: &[Event<'_>],
    tags: &[Tag],
    functions: &[u32],
) -> Result<(), AllocError>
    ensures { OnOk result (entries_list table.new.items ≡ entries_list table.old.items ++ flat_map (local_entry (tags_list tags.now) functions.now) (events_list events.now)) }
{
    for event in events {
        if let Event::Define(definition) = *event {
            table.push(function_of(alloc, &definition.lambda, tags, functions)?)?;
        }
    }
    Ok(())
}

fn add_made(
    alloc: Global,
    table: &mut Vec<Function>,
    events: &[Event<'_>],
    tags: &[Tag],
    functions: &[u32],
) -> Result<(), AllocError>
    ensures { OnOk result (entries_list table.new.items ≡ entries_list table.old.items ++ flat_map (made_entry (tags_list tags.now) functions.now) (events_list events.now)) }
{
    for event in events {
        if let Event::Make(lambda) = *event {
            table.push(function_of(alloc, lambda, tags, functions)?)?;
        }
    }
    Ok(())
}

/// The functions of a form: the local ones in the order of their numbers, and then the others.
pub fn functions_in(
    alloc: Global,
    events: &[Event<'_>],
    tags: &[Tag],
    functions: &[u32],
) -> Result<Vec<Function>, AllocError>
    ensures { IfOk result (λ table. entries_list table.items ≡ entries (tags_list tags.now) functions.now (events_list events.now)) }
{
    let mut table = Vec::new(alloc);
    add_local(alloc, &mut table, events, tags, functions)?;
    add_made(alloc, &mut table, events, tags, functions)?;
    Ok(table)
}

/// Adds the numbers that are not there yet, in their order.
pub fn unite(numbers: &mut Vec<u32>, others: &[u32]) -> Result<(), AllocError>
    ensures { OnOk result (numbers.new.items ≡ union_of numbers.old.items others.now) }
{
    for other in others {
        if !has(numbers, *other) {
            numbers.push(*other)?;
        }
    }
    Ok(())
}

/// All to which these functions refer, each once.
pub fn variables_in(alloc: Global, table: &[Function]) -> Result<Vec<u32>, AllocError>
    ensures { IfOk result (λ numbers. numbers.items ≡ all_referred [] (entries_list table.now)) }
{
    let mut numbers = Vec::new(alloc);
    for function in table {
        unite(&mut numbers, &function.refers)?;
    }
    Ok(numbers)
}
