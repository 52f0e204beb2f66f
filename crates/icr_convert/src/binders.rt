// The binders of a tree: its variables, blocks and tagbodies.
use core_form::{Binding, Core, Definition, Form, Item, Lambda, Optional, Parameter};
use std::alloc::AllocError;

/// What has a number in a tree.
#[derive(Clone, Copy)]
pub(crate) enum Binder<'a> {
    /// A variable, lexical or special.
    Variable(&'a Parameter),
    /// A block or a tagbody.
    Extent(u32),
}

fn note_given<'a>(
    binders: &mut Vec<Binder<'a>>,
    parameter: &'a Option<Parameter>,
) -> Result<(), AllocError> {
    if let Some(parameter) = parameter {
        binders.push(Binder::Variable(parameter))?;
    }
    Ok(())
}

fn tagbody_number(items: &[Item]) -> u32 {
    for item in items {
        if let Item::Tag(number, _) = item {
            return *number;
        }
    }
    0
}

#[cycle(noting)]
fn note_all<'a>(binders: &mut Vec<Binder<'a>>, parts: &'a [Core]) -> Result<(), AllocError> {
    for part in parts {
        note(binders, part)?;
    }
    Ok(())
}

#[cycle(noting)]
fn note_bindings<'a>(
    binders: &mut Vec<Binder<'a>>,
    bindings: &'a [Binding],
) -> Result<(), AllocError> {
    for binding in bindings {
        binders.push(Binder::Variable(&binding.parameter))?;
        note(binders, &binding.value)?;
    }
    Ok(())
}

#[cycle(noting)]
fn note_optionals<'a>(
    binders: &mut Vec<Binder<'a>>,
    optionals: &'a [Optional],
) -> Result<(), AllocError> {
    for optional in optionals {
        binders.push(Binder::Variable(&optional.parameter))?;
        note_given(binders, &optional.supplied)?;
        note(binders, &optional.default)?;
    }
    Ok(())
}

#[cycle(noting)]
fn note_definitions<'a>(
    binders: &mut Vec<Binder<'a>>,
    definitions: &'a [Definition],
) -> Result<(), AllocError> {
    for definition in definitions {
        note_lambda(binders, &definition.lambda)?;
    }
    Ok(())
}

#[cycle(noting)]
fn note_items<'a>(binders: &mut Vec<Binder<'a>>, items: &'a [Item]) -> Result<(), AllocError> {
    for item in items {
        if let Item::Step(form) = item {
            note(binders, form)?;
        }
    }
    Ok(())
}

#[cycle(noting)]
fn note_lambda<'a>(binders: &mut Vec<Binder<'a>>, lambda: &'a Lambda) -> Result<(), AllocError> {
    for parameter in &lambda.required {
        binders.push(Binder::Variable(parameter))?;
    }
    note_optionals(binders, &lambda.optional)?;
    note_given(binders, &lambda.rest)?;
    note(binders, &lambda.body)
}

/// Notes the binders of a tree.
#[cycle(noting)]
pub(crate) fn note<'a>(binders: &mut Vec<Binder<'a>>, core: &'a Core) -> Result<(), AllocError> {
    match &core.form {
        Form::Quote(_)
        | Form::Local(_)
        | Form::Global(_)
        | Form::FunLocal(_)
        | Form::FunGlobal(_)
        | Form::Go(_) => Ok(()),
        Form::SetLocal(_, part)
        | Form::SetGlobal(_, part)
        | Form::SetFun(_, part)
        | Form::Is(_, part)
        | Form::The(_, part)
        | Form::ReturnFrom(_, part) => note(binders, part),
        Form::Block(number, _, part) => {
            binders.push(Binder::Extent(*number))?;
            note(binders, part)
        }
        Form::If(test, yes, no) => {
            note(binders, test)?;
            note(binders, yes)?;
            note(binders, no)
        }
        Form::Catch(first, second)
        | Form::Throw(first, second)
        | Form::Unwind(first, second)
        | Form::MvProg1(first, second) => {
            note(binders, first)?;
            note(binders, second)
        }
        Form::Progn(parts)
        | Form::Values(parts)
        | Form::CallGlobal(_, parts)
        | Form::CallLocal(_, parts)
        | Form::Primitive(_, parts) => note_all(binders, parts),
        Form::Funcall(function, parts)
        | Form::Apply(function, parts)
        | Form::MvCall(function, parts) => {
            note(binders, function)?;
            note_all(binders, parts)
        }
        Form::Let(bindings, body) => {
            note_bindings(binders, bindings)?;
            note(binders, body)
        }
        Form::Labels(definitions, body) => {
            note_definitions(binders, definitions)?;
            note(binders, body)
        }
        Form::Lambda(lambda) => note_lambda(binders, lambda),
        Form::Tagbody(items) => {
            binders.push(Binder::Extent(tagbody_number(items)))?;
            note_items(binders, items)
        }
    }
}
