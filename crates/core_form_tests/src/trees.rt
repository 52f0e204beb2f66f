// Nodes, made with ample memory.
use core_form::{
    Binding, Core, Form, Item, Lambda, Optional, Parameter, TopForm, Variable, call, check_core,
    checked, choice, quote, sequence,
};
use lisp_base::{NIL, Place, Primitive, TypeName, TypeSpec, Val};
use std::alloc::{AllocError, Global};
use std::test::Fail;

#[test]
fn makes_nodes(rt: HostRuntime) -> Result<(), Fail> {
    let alloc = rt.alloc();
    let place = Place::File { offset: 3, tail: 0 };
    let nil = Val::Sym(NIL);
    let expected = TypeSpec::Named(TypeName::Character);
    let arm = checked(alloc, place, expected, quote(place, Val::Char(97)))?;
    let test = call(place, Primitive::ReadChar, Vec::new(alloc));
    let node = choice(alloc, place, test, arm, sequence(place, Vec::new(alloc)))?;
    let is_choice = matches!(&node.form, Form::If(_, _, _));
    assert!(rt; is_choice);
    let other = quote(place, nil);
    let is_nil = matches!(&other.form, Form::Quote(Val::Sym(NIL)));
    assert!(rt; is_nil);
    Ok(())
}

fn place() -> Place {
    Place::File { offset: 0, tail: 0 }
}

fn node(form: Form) -> Core {
    Core {
        place: place(),
        form,
    }
}

fn constant() -> Core {
    quote(place(), Val::Int(5))
}

fn constants(alloc: Global, n: u32) -> Result<Vec<Core>, AllocError> {
    let mut parts = Vec::new(alloc);
    for _ in 0..n {
        parts.push(constant())?;
    }
    Ok(parts)
}

fn is_form(core: Core, nodes: u32) -> bool {
    check_core(&TopForm {
        place: place(),
        core,
        nodes,
    })
}

fn parameter(alloc: Global, number: u32) -> Parameter {
    let variable = Variable::Lexical { number, name: NIL };
    let types = Vec::new(alloc);
    Parameter { variable, types }
}

fn binding(alloc: Global, number: u32, value: Core) -> Result<Vec<Binding>, AllocError> {
    let mut bindings = Vec::new(alloc);
    let parameter = parameter(alloc, number);
    bindings.push(Binding { parameter, value })?;
    Ok(bindings)
}

/// A function of one optional parameter, with the number 2, behind one that is required, with the number 1.
fn with_default(alloc: Global, default: Core, body: Core) -> Result<Core, AllocError> {
    let mut required = Vec::new(alloc);
    required.push(parameter(alloc, 1))?;
    let mut optional = Vec::new(alloc);
    let second = parameter(alloc, 2);
    optional.push(Optional {
        parameter: second,
        default,
        supplied: None,
    })?;
    let body = Box::new(alloc, body)?;
    Ok(node(Form::Lambda(Lambda {
        number: 0,
        required,
        optional,
        rest: None,
        body,
    })))
}

#[test]
fn arguments_of_primitives(rt: HostRuntime) -> Result<(), Fail> {
    let alloc = rt.alloc();
    let mut parts = Vec::new(alloc);
    parts.push(call(place(), Primitive::WriteChar, constants(alloc, 1)?))?;
    parts.push(call(place(), Primitive::Car, constants(alloc, 1)?))?;
    parts.push(call(place(), Primitive::WriteChar, constants(alloc, 1)?))?;
    assert!(rt; is_form(sequence(place(), parts), 7));
    let two = call(place(), Primitive::Car, constants(alloc, 2)?);
    assert!(rt; !is_form(two, 3));
    Ok(())
}

#[test]
fn counted_nodes(rt: HostRuntime) -> Result<(), Fail> {
    let alloc = rt.alloc();
    assert!(rt; is_form(constant(), 1));
    assert!(rt; !is_form(constant(), 2));
    let character = TypeSpec::Named(TypeName::Character);
    assert!(rt; is_form(checked(alloc, place(), character, constant())?, 3));
    let value = binding(alloc, 1, constant())?;
    let body = Box::new(alloc, node(Form::Local(1)))?;
    assert!(rt; is_form(node(Form::Let(value, body)), 4));
    Ok(())
}

#[test]
fn most_arguments_and_values(rt: HostRuntime) -> Result<(), Fail> {
    let alloc = rt.alloc();
    let most = call(place(), Primitive::List, constants(alloc, 1024)?);
    assert!(rt; is_form(most, 1025));
    let more = call(place(), Primitive::List, constants(alloc, 1025)?);
    assert!(rt; !is_form(more, 1026));
    let called = node(Form::CallGlobal(NIL, constants(alloc, 1025)?));
    assert!(rt; !is_form(called, 1026));
    assert!(rt; is_form(node(Form::Values(constants(alloc, 20)?)), 21));
    assert!(rt; !is_form(node(Form::Values(constants(alloc, 21)?)), 22));
    Ok(())
}

#[test]
fn what_is_not_bound(rt: HostRuntime) -> Result<(), Fail> {
    let alloc = rt.alloc();
    assert!(rt; !is_form(node(Form::Local(1)), 1));
    assert!(rt; !is_form(node(Form::FunLocal(1)), 1));
    assert!(rt; !is_form(node(Form::Go(1)), 1));
    let leaves = Form::ReturnFrom(1, Box::new(alloc, constant())?);
    assert!(rt; !is_form(node(leaves), 2));
    let own = binding(alloc, 1, node(Form::Local(1)))?;
    let body = Box::new(alloc, constant())?;
    assert!(rt; !is_form(node(Form::Let(own, body)), 4));
    Ok(())
}

#[test]
fn what_is_bound(rt: HostRuntime) -> Result<(), Fail> {
    let alloc = rt.alloc();
    let leaves = Form::ReturnFrom(1, Box::new(alloc, constant())?);
    let block = Form::Block(1, NIL, Box::new(alloc, node(leaves))?);
    assert!(rt; is_form(node(block), 3));
    let mut items = Vec::new(alloc);
    items.push(Item::Tag(1, Val::Sym(NIL)))?;
    items.push(Item::Step(node(Form::Go(1))))?;
    assert!(rt; is_form(node(Form::Tagbody(items)), 2));
    Ok(())
}

#[test]
fn forms_for_optional_parameters(rt: HostRuntime) -> Result<(), Fail> {
    let alloc = rt.alloc();
    let before = with_default(alloc, node(Form::Local(1)), node(Form::Local(2)))?;
    assert!(rt; is_form(before, 5));
    let itself = with_default(alloc, node(Form::Local(2)), node(Form::Local(2)))?;
    assert!(rt; !is_form(itself, 5));
    Ok(())
}
