// Small trees whose facts are told by hand, made with ample memory.
use crate::{FormFacts, form_facts};
use core_form::{Binding, Core, Definition, Form, Lambda, Parameter, TopForm, Variable};
use lisp_base::{NIL, Place, Primitive, SymTab, TypeName, TypeSpec, Val};
use std::alloc::{AllocError, Global};
use std::test::Fail;

fn place() -> Place {
    Place::File { offset: 0, tail: 0 }
}

fn node(form: Form) -> Core {
    Core {
        place: place(),
        form,
    }
}

fn parameter(alloc: Global, number: u32, name: TypeName) -> Result<Parameter, AllocError> {
    let mut types = Vec::new(alloc);
    types.push(TypeSpec::Named(name))?;
    let variable = Variable::Lexical { number, name: NIL };
    Ok(Parameter { variable, types })
}

/// Binds a variable of a type to 5.
fn bound(alloc: Global, number: u32, name: TypeName, body: Core) -> Result<Core, AllocError> {
    let mut bindings = Vec::new(alloc);
    bindings.push(Binding {
        parameter: parameter(alloc, number, name)?,
        value: node(Form::Quote(Val::Int(5))),
    })?;
    Ok(node(Form::Let(bindings, Box::new(alloc, body)?)))
}

/// A function without parameters.
fn thunk(alloc: Global, number: u32, body: Core) -> Result<Lambda, AllocError> {
    Ok(Lambda {
        number,
        required: Vec::new(alloc),
        optional: Vec::new(alloc),
        rest: None,
        body: Box::new(alloc, body)?,
    })
}

fn set(alloc: Global, number: u32, value: Core) -> Result<Core, AllocError> {
    Ok(node(Form::SetLocal(number, Box::new(alloc, value)?)))
}

/// A primitive of two variables.
fn of_both(
    alloc: Global,
    operation: Primitive,
    first: u32,
    second: u32,
) -> Result<Core, AllocError> {
    let mut operands = Vec::new(alloc);
    operands.push(node(Form::Local(first)))?;
    operands.push(node(Form::Local(second)))?;
    Ok(node(Form::Primitive(operation, operands)))
}

fn facts(alloc: Global, core: Core) -> Result<FormFacts, AllocError> {
    let symbols = SymTab::new(alloc)?;
    let form = TopForm {
        place: place(),
        core,
        nodes: 0,
    };
    form_facts(alloc, &form, &symbols)
}

/// `(labels ((7 () (setq 1 1))) (7))`
fn setting(alloc: Global) -> Result<Core, AllocError> {
    let mut definitions = Vec::new(alloc);
    definitions.push(Definition {
        place: place(),
        number: 7,
        name: NIL,
        lambda: thunk(alloc, 0, set(alloc, 1, node(Form::Local(1)))?)?,
    })?;
    let call = node(Form::CallLocal(7, Vec::new(alloc)));
    Ok(node(Form::Labels(definitions, Box::new(alloc, call)?)))
}

/// The same where variable 1 is bound.
fn of_setting(alloc: Global) -> Result<FormFacts, AllocError> {
    facts(alloc, bound(alloc, 1, TypeName::Integer, setting(alloc)?)?)
}

/// A primitive of variable 1, an integer, and variable 2, of this type.
fn of_operation(
    alloc: Global,
    operation: Primitive,
    second: TypeName,
) -> Result<FormFacts, AllocError> {
    let inner = bound(alloc, 2, second, of_both(alloc, operation, 1, 2)?)?;
    facts(alloc, bound(alloc, 1, TypeName::Integer, inner)?)
}

#[test]
fn tells_cells(rt: HostRuntime) -> Result<(), Fail> {
    let facts = of_setting(rt.alloc())?;
    assert!(rt; facts.is_cell(1) && !facts.is_word(1));
    assert_eq!(rt; facts.closed_of(0), [1].as_slice());
    assert_eq!(rt; facts.closed_of(1).len(), 0);
    Ok(())
}

#[test]
fn tells_words(rt: HostRuntime) -> Result<(), Fail> {
    let facts = of_operation(rt.alloc(), Primitive::Add, TypeName::Fixnum)?;
    assert!(rt; facts.is_word(1) && facts.is_word(2));
    Ok(())
}

#[test]
fn tells_what_is_no_word(rt: HostRuntime) -> Result<(), Fail> {
    let facts = of_operation(rt.alloc(), Primitive::Add, TypeName::List)?;
    assert!(rt; facts.is_word(1) && !facts.is_word(2));
    Ok(())
}
