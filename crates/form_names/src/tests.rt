// Small trees whose names and functions are known, made with ample memory.
use crate::{form_names, functions_in};
use core_form::{Core, Definition, Form, Item, Lambda};
use lisp_base::{NIL, Place, SymId, T, Val};
use std::alloc::{AllocError, Global};
use std::test::Fail;

fn place() -> Place {
    Place::File { offset: 0, tail: 0 }
}

fn node(form: Form) -> Core {
    Core {
        place: place(),
        form,
    }
}

/// A function without parameters.
fn thunk(alloc: Global, number: u32, body: Core) -> Result<Lambda, AllocError> {
    Ok(Lambda {
        number,
        required: Vec::new(alloc),
        optional: Vec::new(alloc),
        rest: None,
        body: Box::new(alloc, body)?,
    })
}

fn nested(alloc: Global) -> Result<Core, AllocError> {
    let inner = thunk(alloc, 1, node(Form::Local(9)))?;
    Ok(node(Form::Lambda(inner)))
}

/// A local function, with a function inside it, round another function.
fn local(alloc: Global) -> Result<Core, AllocError> {
    let mut definitions = Vec::new(alloc);
    definitions.push(Definition {
        place: place(),
        number: 4,
        name: T,
        lambda: thunk(alloc, 0, nested(alloc)?)?,
    })?;
    let body = thunk(alloc, 2, node(Form::FunLocal(4)))?;
    let body = Box::new(alloc, node(Form::Lambda(body)))?;
    Ok(node(Form::Labels(definitions, body)))
}

/// A block in a tagbody, behind two tags.
fn tagged(alloc: Global, block: u32) -> Result<Core, AllocError> {
    let mut items = Vec::new(alloc);
    let body = Box::new(alloc, node(Form::Go(8)))?;
    items.push(Item::Tag(7, Val::Int(1)))?;
    items.push(Item::Tag(8, Val::Int(2)))?;
    items.push(Item::Step(node(Form::Block(block, T, body))))?;
    Ok(node(Form::Tagbody(items)))
}

#[test]
fn functions_stand_in_order(rt: HostRuntime) -> Result<(), Fail> {
    let alloc = rt.alloc();
    let form = local(alloc)?;
    let texts = functions_in(alloc, &form)?;
    assert!(rt; texts.len() == 3);
    for (i, text) in texts.iter().enumerate() {
        assert!(rt; text.lambda.number as usize == i);
        let name: Option<SymId> = if i == 0 { Some(T) } else { None };
        assert!(rt; text.name == name);
    }
    Ok(())
}

#[test]
fn numbers_name_what_stands_there(rt: HostRuntime) -> Result<(), Fail> {
    let alloc = rt.alloc();
    let names = form_names(alloc, &tagged(alloc, 5)?)?;
    assert!(rt; names.is_extent(5) && names.is_extent(7) && !names.is_extent(8));
    assert!(rt; names.block_name(5) == Some(T) && names.block_name(7).is_none());
    let Some(tag) = names.tag(8) else {
        return Ok(assert!(rt; false));
    };
    assert!(rt; tag.tagbody == 7 && tag.name == Val::Int(2));
    let names = form_names(alloc, &local(alloc)?)?;
    assert!(rt; names.local_function(4) == Some(0) && names.local_function(9).is_none());
    Ok(())
}

#[test]
fn first_block_of_a_number(rt: HostRuntime) -> Result<(), Fail> {
    let alloc = rt.alloc();
    let inner = Box::new(alloc, node(Form::Local(1)))?;
    let inner = Box::new(alloc, node(Form::Block(5, NIL, inner)))?;
    let names = form_names(alloc, &node(Form::Block(5, T, inner)))?;
    assert!(rt; names.block_name(5) == Some(T));
    Ok(())
}
