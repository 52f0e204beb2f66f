// What a tree mentions: the data that it quotes, and the symbols whose global functions it calls or gives.
ghost use Rattle.std.specs.Prelude.{◌≡◌, ◌++◌, OnOk, IfOk};
ghost use Rattle.core_form.specs.Reading.{core_of, cores_list, lambda_of};
ghost use Rattle.core_form.specs.ListReading.{bindings_list, optionals_list, definitions_list, items_list};
ghost use Rattle.program_size.specs.Mentions.{mentioned};
ghost use Rattle.program_size.specs.Walk.{with_core, with_cores, with_bindings, with_optionals, with_lambda, with_definitions, with_items};

use core_form::{
    Binding, Core, Definition, Form, Item, Lambda, Optional, reads_lists, reads_nodes,
};
use lisp_base::Val;
use std::alloc::{AllocError, Global};

#[cycle(walking)]
fn note_all(parts: &[Core], found: &mut Vec<Val>) -> Result<(), AllocError>
    ensures { OnOk result (found.new.items ≡ with_cores found.old.items (cores_list parts.now)) }
{
    for part in parts {
        note(part, found)?;
    }
    Ok(())
}

#[cycle(walking)]
fn note_bindings(bindings: &[Binding], found: &mut Vec<Val>) -> Result<(), AllocError>
    ensures { OnOk result (found.new.items ≡ with_bindings found.old.items (bindings_list bindings.now)) }
{
    for binding in bindings {
        note(&binding.value, found)?;
    }
    Ok(())
}

#[cycle(walking)]
fn note_optionals(optionals: &[Optional], found: &mut Vec<Val>) -> Result<(), AllocError>
    ensures { OnOk result (found.new.items ≡ with_optionals found.old.items (optionals_list optionals.now)) }
{
    for optional in optionals {
        note(&optional.default, found)?;
    }
    Ok(())
}

#[cycle(walking)]
fn note_lambda(lambda: &Lambda, found: &mut Vec<Val>) -> Result<(), AllocError>
    ensures { OnOk result (found.new.items ≡ with_lambda found.old.items (lambda_of lambda.now)) }
{
    reads_nodes();
    note_optionals(&lambda.optional, found)?;
    note(&lambda.body, found)
}

#[cycle(walking)]
fn note_definitions(definitions: &[Definition], found: &mut Vec<Val>) -> Result<(), AllocError>
    ensures { OnOk result (found.new.items ≡ with_definitions found.old.items (definitions_list definitions.now)) }
{
    for definition in definitions {
        note_lambda(&definition.lambda, found)?;
    }
    Ok(())
}

#[cycle(walking)]
fn note_items(items: &[Item], found: &mut Vec<Val>) -> Result<(), AllocError>
    ensures { OnOk result (found.new.items ≡ with_items found.old.items (items_list items.now)) }
{
    for item in items {
        if let Item::Step(form) = item {
            note(form, found)?;
        }
    }
    Ok(())
}

/// Adds what a tree mentions.
#[cycle(walking)]
fn note(core: &Core, found: &mut Vec<Val>) -> Result<(), AllocError>
    ensures { OnOk result (found.new.items ≡ with_core found.old.items (core_of core.now)) }
{
    reads_lists();
    reads_nodes();
    match &core.form {
        Form::Quote(value) => {
            found.push(*value)?;
            Ok(())
        }
        Form::FunGlobal(symbol) => {
            found.push(Val::Sym(*symbol))?;
            Ok(())
        }
        Form::CallGlobal(symbol, parts) => {
            found.push(Val::Sym(*symbol))?;
            note_all(parts, found)
        }
        Form::Local(_) | Form::Global(_) | Form::FunLocal(_) | Form::Go(_) => Ok(()),
        Form::SetLocal(_, part)
        | Form::SetGlobal(_, part)
        | Form::SetFun(_, part)
        | Form::Is(_, part)
        | Form::The(_, part)
        | Form::Block(_, _, part)
        | Form::ReturnFrom(_, part) => note(part, found),
        Form::If(test, yes, no) => {
            note(test, found)?;
            note(yes, found)?;
            note(no, found)
        }
        Form::Catch(first, second)
        | Form::Throw(first, second)
        | Form::Unwind(first, second)
        | Form::MvProg1(first, second) => {
            note(first, found)?;
            note(second, found)
        }
        Form::Progn(parts)
        | Form::Values(parts)
        | Form::CallLocal(_, parts)
        | Form::Primitive(_, parts) => note_all(parts, found),
        Form::Funcall(function, parts)
        | Form::Apply(function, parts)
        | Form::MvCall(function, parts) => {
            note(function, found)?;
            note_all(parts, found)
        }
        Form::Let(bindings, body) => {
            note_bindings(bindings, found)?;
            note(body, found)
        }
        Form::Labels(definitions, body) => {
            note_definitions(definitions, found)?;
            note(body, found)
        }
        Form::Lambda(lambda) => note_lambda(lambda, found),
        Form::Tagbody(items) => note_items(items, found),
    }
}

/// What a tree mentions, in the order of its nodes.
#[tactic(auto, using(crate::proofs::Walked::mentioned_is))]
pub(crate) fn mentioned(alloc: Global, core: &Core) -> Result<Vec<Val>, AllocError>
    ensures { IfOk result (λ found. found.items ≡ mentioned (core_of core.now)) }
{
    let mut found = Vec::new(alloc);
    note(core, &mut found)?;
    Ok(found)
}
