// Small trees whose numbers are counted by hand, made with ample memory.
use crate::closed_copies;
use core_form::{Binding, Core, Definition, Form, Item, Lambda, Parameter, TopForm, Variable};
use lisp_base::{NIL, Place, Val};
use std::alloc::{AllocError, Global};
use std::test::Fail;

fn place() -> Place {
    Place::File { offset: 0, tail: 0 }
}

fn node(form: Form) -> Core {
    Core {
        place: place(),
        form,
    }
}

fn parameter(alloc: Global, number: u32) -> Parameter {
    let variable = Variable::Lexical { number, name: NIL };
    let types = Vec::new(alloc);
    Parameter { variable, types }
}

/// A function without parameters.
fn thunk(alloc: Global, body: Core) -> Result<Lambda, AllocError> {
    Ok(Lambda {
        number: 0,
        required: Vec::new(alloc),
        optional: Vec::new(alloc),
        rest: None,
        body: Box::new(alloc, body)?,
    })
}

fn progn(alloc: Global, first: Core, second: Core) -> Result<Core, AllocError> {
    let mut parts = Vec::new(alloc);
    parts.push(first)?;
    parts.push(second)?;
    Ok(node(Form::Progn(parts)))
}

fn call(alloc: Global, function: u32) -> Core {
    node(Form::CallLocal(function, Vec::new(alloc)))
}

fn define(alloc: Global, number: u32, body: Core) -> Result<Definition, AllocError> {
    Ok(Definition {
        place: place(),
        number,
        name: NIL,
        lambda: thunk(alloc, body)?,
    })
}

fn bound(alloc: Global, number: u32, body: Core) -> Result<Core, AllocError> {
    let mut bindings = Vec::new(alloc);
    bindings.push(Binding {
        parameter: parameter(alloc, number),
        value: node(Form::Quote(Val::Int(5))),
    })?;
    Ok(node(Form::Let(bindings, Box::new(alloc, body)?)))
}

fn copies(alloc: Global, core: Core, most: u32) -> Result<Option<u32>, AllocError> {
    let form = TopForm {
        place: place(),
        core,
        nodes: 0,
    };
    closed_copies(alloc, &form, most)
}

#[test]
fn counts_functions_made(rt: HostRuntime) -> Result<(), Fail> {
    let alloc = rt.alloc();
    let mut inner = thunk(
        alloc,
        progn(alloc, node(Form::Local(1)), node(Form::Local(2)))?,
    )?;
    inner.required.push(parameter(alloc, 2))?;
    let mut outer = thunk(alloc, node(Form::Lambda(inner)))?;
    outer.required.push(parameter(alloc, 1))?;
    let found = copies(alloc, node(Form::Lambda(outer)), 3000)?;
    assert!(rt; found == Some(1));
    Ok(())
}

#[test]
fn counts_references_not_definitions(rt: HostRuntime) -> Result<(), Fail> {
    let alloc = rt.alloc();
    let mut definitions = Vec::new(alloc);
    definitions.push(define(alloc, 2, node(Form::Local(1)))?)?;
    let calls = progn(alloc, call(alloc, 2), node(Form::FunLocal(2)))?;
    let body = progn(alloc, calls, call(alloc, 2))?;
    let labels = node(Form::Labels(definitions, Box::new(alloc, body)?));
    let found = copies(alloc, bound(alloc, 1, labels)?, 3000)?;
    assert!(rt; found == Some(3));
    Ok(())
}

/// Two functions that call each other, each with a variable of its own.
fn mutual(alloc: Global) -> Result<Core, AllocError> {
    let mut definitions = Vec::new(alloc);
    let first = progn(alloc, node(Form::Local(1)), call(alloc, 4))?;
    definitions.push(define(alloc, 3, first)?)?;
    let second = progn(alloc, node(Form::Local(2)), call(alloc, 3))?;
    definitions.push(define(alloc, 4, second)?)?;
    let body = Box::new(alloc, call(alloc, 3))?;
    let labels = node(Form::Labels(definitions, body));
    bound(alloc, 1, bound(alloc, 2, labels)?)
}

#[test]
fn follows_calls_and_keeps_the_limit(rt: HostRuntime) -> Result<(), Fail> {
    let alloc = rt.alloc();
    let found = copies(alloc, mutual(alloc)?, 6)?;
    assert!(rt; found == Some(6));
    let found = copies(alloc, mutual(alloc)?, 5)?;
    assert!(rt; found.is_none());
    Ok(())
}

#[test]
fn counts_what_is_left(rt: HostRuntime) -> Result<(), Fail> {
    let alloc = rt.alloc();
    let leaving = node(Form::ReturnFrom(7, Box::new(alloc, node(Form::Go(8)))?));
    let function = node(Form::Lambda(thunk(alloc, leaving)?));
    let mut items = Vec::new(alloc);
    items.push(Item::Tag(9, Val::Int(1)))?;
    items.push(Item::Tag(8, Val::Int(2)))?;
    items.push(Item::Step(function))?;
    let tagbody = Box::new(alloc, node(Form::Tagbody(items)))?;
    let found = copies(alloc, node(Form::Block(7, NIL, tagbody)), 3000)?;
    assert!(rt; found == Some(2));
    Ok(())
}
