// The events of a tree, noted in one walk over it.
ghost use Rattle.std.specs.Prelude.{◌≡◌, ◌++◌, ◌∷◌, [], OnOk, option_map};
ghost use Rattle.core_form.specs.Reading.{parameter_of, core_of, cores_list, lambda_of};
ghost use Rattle.core_form.specs.ListReading.{parameters_list, bindings_list, optionals_list, definitions_list, items_list};
ghost use Rattle.core_form.specs.Facts.{binding_parameters, optional_parameters, if_given, tagbody_number, gather_all, gather_bindings, gather_optionals, gather_definitions, gather_items};
ghost use Rattle.closed_copies.specs.Events.{one_parameter, parameter_events, definition_events, tag_events, tagbody_events, node_events, function_events, events as events_of, lambda_events};
ghost use Rattle.closed_copies.specs.Walked.{event_of, events_list};

use core_form::{
    Binding, Core, Definition, Form, Item, Lambda, Optional, Parameter, Variable, reads_lists,
    reads_nodes,
};
use std::alloc::AllocError;

/// What a node has to do with closed variables.
#[derive(Clone, Copy)]
pub enum Event<'a> {
    /// A variable is read or set, or a block left.
    Refer(u32),
    /// A tag is gone to.
    Go(u32),
    /// A variable is bound.
    Bind(u32),
    /// A block or tagbody begins.
    Open(u32),
    /// A local function is called, or taken as a value.
    Call(u32),
    /// A function is made.
    Make(&'a Lambda),
    /// A local function is defined.
    Define(&'a Definition),
    /// A tag stands in the tagbody of a number.
    Stand(u32, u32),
}

fn note<'a>(events: &mut Vec<Event<'a>>, event: Event<'a>) -> Result<(), AllocError>
    ensures { OnOk result (events_list events.new.items ≡ events_list events.old.items ++ event_of event.entry ∷ []) }
{
    events.push(event)?;
    Ok(())
}

fn note_parameter(events: &mut Vec<Event<'_>>, parameter: &Parameter) -> Result<(), AllocError>
    ensures { OnOk result (events_list events.new.items ≡ events_list events.old.items ++ one_parameter (parameter_of parameter.now)) }
{
    match parameter.variable {
        Variable::Lexical { number, .. } => note(events, Event::Bind(number)),
        Variable::Special(_) => Ok(()),
    }
}

fn note_given(events: &mut Vec<Event<'_>>, parameter: &Option<Parameter>) -> Result<(), AllocError>
    ensures { OnOk result (events_list events.new.items ≡ events_list events.old.items ++ parameter_events (if_given (option_map parameter_of parameter.now))) }
{
    match parameter {
        Some(parameter) => note_parameter(events, parameter),
        None => Ok(()),
    }
}

fn note_parameters(events: &mut Vec<Event<'_>>, parameters: &[Parameter]) -> Result<(), AllocError>
    ensures { OnOk result (events_list events.new.items ≡ events_list events.old.items ++ parameter_events (parameters_list parameters.now)) }
{
    for parameter in parameters {
        note_parameter(events, parameter)?;
    }
    Ok(())
}

fn note_optionals(events: &mut Vec<Event<'_>>, optionals: &[Optional]) -> Result<(), AllocError>
    ensures { OnOk result (events_list events.new.items ≡ events_list events.old.items ++ parameter_events (optional_parameters (optionals_list optionals.now))) }
{
    for optional in optionals {
        note_parameter(events, &optional.parameter)?;
        note_given(events, &optional.supplied)?;
    }
    Ok(())
}

fn note_bindings(events: &mut Vec<Event<'_>>, bindings: &[Binding]) -> Result<(), AllocError>
    ensures { OnOk result (events_list events.new.items ≡ events_list events.old.items ++ parameter_events (binding_parameters (bindings_list bindings.now))) }
{
    for binding in bindings {
        note_parameter(events, &binding.parameter)?;
    }
    Ok(())
}

fn note_definitions<'a>(
    events: &mut Vec<Event<'a>>,
    definitions: &'a [Definition],
) -> Result<(), AllocError>
    ensures { OnOk result (events_list events.new.items ≡ events_list events.old.items ++ definition_events (definitions_list definitions.now)) }
{
    for definition in definitions {
        note(events, Event::Define(definition))?;
    }
    Ok(())
}

/// The number of a tagbody: that of its first tag, or 0.
fn number_of(items: &[Item]) -> u32
    ensures { result ≡ tagbody_number (items_list items.now) }
{
    for item in items {
        if let Item::Tag(number, _) = item {
            return *number;
        }
    }
    0
}

fn note_tags(events: &mut Vec<Event<'_>>, items: &[Item], tagbody: u32) -> Result<(), AllocError>
    ensures { OnOk result (events_list events.new.items ≡ events_list events.old.items ++ tag_events tagbody (items_list items.now)) }
{
    for item in items {
        if let Item::Tag(number, _) = item {
            note(events, Event::Stand(*number, tagbody))?;
        }
    }
    Ok(())
}

fn note_tagbody(events: &mut Vec<Event<'_>>, items: &[Item]) -> Result<(), AllocError>
    ensures { OnOk result (events_list events.new.items ≡ events_list events.old.items ++ tagbody_events (items_list items.now)) }
{
    let tagbody = number_of(items);
    note(events, Event::Open(tagbody))?;
    note_tags(events, items, tagbody)
}

/// The events of a node itself, without its parts.
fn note_node<'a>(events: &mut Vec<Event<'a>>, core: &'a Core) -> Result<(), AllocError>
    ensures { OnOk result (events_list events.new.items ≡ events_list events.old.items ++ node_events (core_of core.now)) }
{
    reads_lists();
    reads_nodes();
    match &core.form {
        Form::Local(number) | Form::SetLocal(number, _) | Form::ReturnFrom(number, _) => {
            note(events, Event::Refer(*number))
        }
        Form::Go(tag) => note(events, Event::Go(*tag)),
        Form::Block(number, _, _) => note(events, Event::Open(*number)),
        Form::CallLocal(function, _) | Form::FunLocal(function) => {
            note(events, Event::Call(*function))
        }
        Form::Lambda(lambda) => note(events, Event::Make(lambda)),
        Form::Let(bindings, _) => note_bindings(events, bindings),
        Form::Labels(definitions, _) => note_definitions(events, definitions),
        Form::Tagbody(items) => note_tagbody(events, items),
        Form::Quote(_)
        | Form::Global(_)
        | Form::FunGlobal(_)
        | Form::SetGlobal(_, _)
        | Form::SetFun(_, _)
        | Form::If(_, _, _)
        | Form::Progn(_)
        | Form::CallGlobal(_, _)
        | Form::Funcall(_, _)
        | Form::Apply(_, _)
        | Form::MvCall(_, _)
        | Form::Primitive(_, _)
        | Form::Is(_, _)
        | Form::The(_, _)
        | Form::Catch(_, _)
        | Form::Throw(_, _)
        | Form::Unwind(_, _)
        | Form::Values(_)
        | Form::MvProg1(_, _) => Ok(()),
    }
}

#[cycle(walking)]
#[tactic(auto, using(std::proofs::lemmas::List::append_assoc), unfolding(core_form::specs::Facts::gather))]
fn walk_all<'a>(events: &mut Vec<Event<'a>>, parts: &'a [Core]) -> Result<(), AllocError>
    ensures { OnOk result (events_list events.new.items ≡ events_list events.old.items ++ gather_all node_events function_events (cores_list parts.now)) }
{
    for part in parts {
        walk(events, part)?;
    }
    Ok(())
}

#[cycle(walking)]
#[tactic(auto, using(std::proofs::lemmas::List::append_assoc), unfolding(core_form::specs::Facts::gather))]
fn walk_bindings<'a>(events: &mut Vec<Event<'a>>, bindings: &'a [Binding]) -> Result<(), AllocError>
    ensures { OnOk result (events_list events.new.items ≡ events_list events.old.items ++ gather_bindings node_events function_events (bindings_list bindings.now)) }
{
    for binding in bindings {
        walk(events, &binding.value)?;
    }
    Ok(())
}

#[cycle(walking)]
#[tactic(auto, using(std::proofs::lemmas::List::append_assoc), unfolding(core_form::specs::Facts::gather))]
fn walk_optionals<'a>(
    events: &mut Vec<Event<'a>>,
    optionals: &'a [Optional],
) -> Result<(), AllocError>
    ensures { OnOk result (events_list events.new.items ≡ events_list events.old.items ++ gather_optionals node_events function_events (optionals_list optionals.now)) }
{
    for optional in optionals {
        walk(events, &optional.default)?;
    }
    Ok(())
}

#[cycle(walking)]
#[tactic(auto, using(std::proofs::lemmas::List::append_assoc), unfolding(core_form::specs::Facts::gather))]
fn walk_definitions<'a>(
    events: &mut Vec<Event<'a>>,
    definitions: &'a [Definition],
) -> Result<(), AllocError>
    ensures { OnOk result (events_list events.new.items ≡ events_list events.old.items ++ gather_definitions node_events function_events (definitions_list definitions.now)) }
{
    for definition in definitions {
        walk_lambda(events, &definition.lambda)?;
    }
    Ok(())
}

#[cycle(walking)]
#[tactic(auto, using(std::proofs::lemmas::List::append_assoc), unfolding(core_form::specs::Facts::gather))]
fn walk_items<'a>(events: &mut Vec<Event<'a>>, items: &'a [Item]) -> Result<(), AllocError>
    ensures { OnOk result (events_list events.new.items ≡ events_list events.old.items ++ gather_items node_events function_events (items_list items.now)) }
{
    for item in items {
        if let Item::Step(form) = item {
            walk(events, form)?;
        }
    }
    Ok(())
}

/// Notes the events of a function, its own parameters first.
#[cycle(walking)]
#[tactic(auto, using(std::proofs::lemmas::List::append_assoc), unfolding(core_form::specs::Facts::gather))]
pub fn walk_lambda<'a>(events: &mut Vec<Event<'a>>, lambda: &'a Lambda) -> Result<(), AllocError>
    ensures { OnOk result (events_list events.new.items ≡ events_list events.old.items ++ lambda_events (lambda_of lambda.now)) }
{
    reads_nodes();
    note_parameters(events, &lambda.required)?;
    note_optionals(events, &lambda.optional)?;
    note_given(events, &lambda.rest)?;
    walk_optionals(events, &lambda.optional)?;
    walk(events, &lambda.body)
}

/// Notes the events of a tree, those of a node before those of its parts.
#[cycle(walking)]
#[tactic(auto, using(std::proofs::lemmas::List::append_assoc), unfolding(core_form::specs::Facts::gather))]
pub fn walk<'a>(events: &mut Vec<Event<'a>>, core: &'a Core) -> Result<(), AllocError>
    ensures { OnOk result (events_list events.new.items ≡ events_list events.old.items ++ events_of (core_of core.now)) }
{
    reads_lists();
    reads_nodes();
    note_node(events, core)?;
    match &core.form {
        Form::Quote(_)
        | Form::Local(_)
        | Form::Global(_)
        | Form::FunLocal(_)
        | Form::FunGlobal(_)
        | Form::Go(_) => Ok(()),
        Form::SetLocal(_, part)
        | Form::SetGlobal(_, part)
        | Form::SetFun(_, part)
        | Form::Is(_, part)
        | Form::The(_, part)
        | Form::Block(_, _, part)
        | Form::ReturnFrom(_, part) => walk(events, part),
        Form::If(test, yes, no) => {
            walk(events, test)?;
            walk(events, yes)?;
            walk(events, no)
        }
        Form::Catch(first, second)
        | Form::Throw(first, second)
        | Form::Unwind(first, second)
        | Form::MvProg1(first, second) => {
            walk(events, first)?;
            walk(events, second)
        }
        Form::Progn(parts)
        | Form::Values(parts)
        | Form::CallGlobal(_, parts)
        | Form::CallLocal(_, parts)
        | Form::Primitive(_, parts) => walk_all(events, parts),
        Form::Funcall(function, parts)
        | Form::Apply(function, parts)
        | Form::MvCall(function, parts) => {
            walk(events, function)?;
            walk_all(events, parts)
        }
        Form::Let(bindings, body) => {
            walk_bindings(events, bindings)?;
            walk(events, body)
        }
        Form::Labels(definitions, body) => {
            walk_definitions(events, definitions)?;
            walk(events, body)
        }
        Form::Lambda(lambda) => walk_lambda(events, lambda),
        Form::Tagbody(items) => walk_items(events, items),
    }
}
