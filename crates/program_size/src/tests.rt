// Sizes of small programs, with ample memory.
use crate::{PreludeFunction, Sizes};
use core_form::{Core, Form, TopForm, quote, sequence};
use lisp_base::{Heap, Obj, ObjId, Place, SymId, Val};
use std::alloc::{AllocError, Global};
use std::test::Fail;

fn place() -> Place {
    Place::File { offset: 0, tail: 0 }
}

fn top(core: Core, nodes: u32) -> TopForm {
    TopForm {
        place: place(),
        core,
        nodes,
    }
}

/// A form of one node that quotes a value.
fn constant(value: Val) -> TopForm {
    top(quote(place(), value), 1)
}

/// A call of the function with the number 10, inside a sequence.
fn call(alloc: Global, nodes: u32) -> Result<TopForm, AllocError> {
    let form = Form::CallGlobal(SymId(10), Vec::new(alloc));
    let place = place();
    let mut parts = Vec::new(alloc);
    parts.push(Core { place, form })?;
    Ok(top(sequence(place, parts), nodes))
}

fn function(name: u32, value: Val, nodes: u32) -> PreludeFunction {
    PreludeFunction {
        name: SymId(name),
        form: top(quote(place(), value), nodes),
        copies: 7,
    }
}

/// Functions with the numbers 12, 11, 13 and 10, of which 11 and 13 quote this value and 10 quotes 11.
fn prelude(alloc: Global, value: Val) -> Result<Vec<PreludeFunction>, AllocError> {
    let mut prelude = Vec::new(alloc);
    prelude.push(function(12, Val::Char(97), 1))?;
    prelude.push(function(11, value, 1))?;
    prelude.push(function(13, value, 1))?;
    prelude.push(function(10, Val::Sym(SymId(11)), 299_998))?;
    Ok(prelude)
}

/// A list of a thousand conses, which ends in a vector that has the symbol 12.
fn list(alloc: Global, heap: &mut Heap) -> Result<Val, AllocError> {
    let mut items = Vec::new(alloc);
    items.push(Val::Sym(SymId(12)))?;
    let mut list = Val::Ref(heap.add(Obj::Vector(items))?);
    for _ in 0..1000 {
        let car = Val::Int(0);
        let cdr = list;
        let place = None;
        list = Val::Ref(heap.add(Obj::Cons { car, cdr, place })?);
    }
    Ok(list)
}

#[test]
fn holds_functions_through_others(rt: HostRuntime) -> Result<(), Fail> {
    let alloc = rt.alloc();
    let mut heap = Heap::new(alloc);
    let list = list(alloc, &mut heap)?;
    let prelude = prelude(alloc, list)?;
    let mut sizes = Sizes::new(alloc);
    sizes.add(&call(alloc, 2)?, 0, &prelude, &heap)?;
    let own = sizes.mentions(SymId(12));
    assert!(rt; own);
    let other = sizes.mentions(SymId(13));
    assert!(rt; !other);
    Ok(())
}

/// Whether a program of two forms that hold the function with the number 10 is too large.
fn is_too_large(alloc: Global, nodes: u32, copies: u32) -> Result<bool, AllocError> {
    let heap = Heap::new(alloc);
    let prelude = prelude(alloc, Val::Sym(SymId(12)))?;
    let mut sizes = Sizes::new(alloc);
    sizes.add(&constant(Val::Sym(SymId(10))), copies, &prelude, &heap)?;
    sizes.add(&call(alloc, nodes)?, 0, &prelude, &heap)?;
    Ok(sizes.is_too_large())
}

#[test]
fn counts_nodes_and_copies(rt: HostRuntime) -> Result<(), Fail> {
    let alloc = rt.alloc();
    let at_limits = is_too_large(alloc, 99_999, 399_979)?;
    assert!(rt; !at_limits);
    let nodes = is_too_large(alloc, 100_000, 0)?;
    assert!(rt; nodes);
    let copies = is_too_large(alloc, 1, 399_980)?;
    assert!(rt; copies);
    Ok(())
}

/// Whether a program of these constants is too large, which may refer to a string of two words less than are allowed.
fn is_too_large_with(alloc: Global, values: &[Val]) -> Result<bool, AllocError> {
    let mut heap = Heap::new(alloc);
    let mut letters = Vec::new(alloc);
    for _ in 0..8_388_602 {
        letters.push(97)?;
    }
    heap.add(Obj::Str(letters))?;
    let prelude = Vec::new(alloc);
    let mut sizes = Sizes::new(alloc);
    for value in values {
        sizes.add(&constant(*value), 0, &prelude, &heap)?;
    }
    Ok(sizes.is_too_large())
}

#[test]
fn counts_each_constant_once(rt: HostRuntime) -> Result<(), Fail> {
    let alloc = rt.alloc();
    let text = Val::Ref(ObjId(0));
    let past = Val::Int(2_305_843_009_213_693_952);
    let least = Val::Int(-2_305_843_009_213_693_952);
    let below = Val::Int(-2_305_843_009_213_693_953);
    let at_limit = is_too_large_with(alloc, &[text, past, text, past, least])?;
    assert!(rt; !at_limit);
    let after = is_too_large_with(alloc, &[text, past, below])?;
    assert!(rt; after);
    Ok(())
}
