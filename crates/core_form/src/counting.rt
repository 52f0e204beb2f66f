// The nodes of a tree, counted up to the greatest number of 64 bits.
ghost use Rattle.std.specs.Prelude.{◌≡◌, length, map, option_map};
ghost use Rattle.lisp_base.specs.Reading.{spec_of};
ghost use Rattle.lisp_base.specs.Laws.{specs_list};
ghost use Rattle.core_form.specs.Reading.{parameter_of, core_of, cores_list, lambda_of};
ghost use Rattle.core_form.specs.ListReading.{parameters_list, bindings_list, optionals_list, definitions_list, items_list};
ghost use Rattle.core_form.specs.Counting.{plus as sum, with_size, with_sizes, with_types, with_parameter, with_parameters, with_given, with_core, with_cores, with_bindings, with_optionals, with_lambda, with_definitions, with_items};

use crate::tree::{Binding, Core, Definition, Form, Item, Lambda, Optional, Parameter};
use lisp_base::{TypeSpec, Val, reads_specs};

/// A sum, or the greatest number where it is past that.
#[tactic(auto, unfolding(crate::specs::Counting::greatest_count))]
fn plus(total: u64, more: u64) -> u64
    ensures { result ≡ sum total more }
{
    total.saturating_add(more)
}

fn add_values(values: &[Val], total: u64) -> u64
    ensures { result ≡ sum total (length values.now) }
{
    plus(total, values.len() as u64)
}

#[cycle(sizing)]
fn add_sizes(parts: &[TypeSpec], total: u64) -> u64
    ensures { result ≡ with_sizes total (specs_list parts.now) }
{
    let mut total = total;
    for part in parts {
        total = add_size(part, total);
    }
    total
}

/// A total with the size of a type.
#[cycle(sizing)]
fn add_size(spec: &TypeSpec, total: u64) -> u64
    ensures { result ≡ with_size total (spec_of spec.now) }
{
    reads_specs();
    let total = plus(total, 1);
    match spec {
        TypeSpec::Named(_)
        | TypeSpec::Integer { .. }
        | TypeSpec::Signed(_)
        | TypeSpec::Unsigned(_)
        | TypeSpec::Mod(_)
        | TypeSpec::Eql(_) => total,
        TypeSpec::Member(items) => add_values(items, total),
        TypeSpec::And(parts) | TypeSpec::Or(parts) => add_sizes(parts, total),
        TypeSpec::Not(part) => add_size(part, total),
    }
}

fn add_types(types: &[TypeSpec], total: u64) -> u64
    ensures { result ≡ with_types total (map spec_of types.now) }
{
    let mut total = total;
    for spec in types {
        total = add_size(spec, total);
    }
    total
}

/// A total with a parameter and the sizes of its checks.
fn add_parameter(parameter: &Parameter, total: u64) -> u64
    ensures { result ≡ with_parameter total (parameter_of parameter.now) }
{
    add_types(&parameter.types, plus(total, 1))
}

fn add_parameters(parameters: &[Parameter], total: u64) -> u64
    ensures { result ≡ with_parameters total (parameters_list parameters.now) }
{
    let mut total = total;
    for parameter in parameters {
        total = add_parameter(parameter, total);
    }
    total
}

fn add_given(parameter: &Option<Parameter>, total: u64) -> u64
    ensures { result ≡ with_given total (option_map parameter_of parameter.now) }
{
    match parameter {
        Some(parameter) => add_parameter(parameter, total),
        None => total,
    }
}

#[cycle(counting)]
fn add_all(parts: &[Core], total: u64) -> u64
    ensures { result ≡ with_cores total (cores_list parts.now) }
{
    let mut total = total;
    for part in parts {
        total = add_nodes(part, total);
    }
    total
}

#[cycle(counting)]
fn add_bindings(bindings: &[Binding], total: u64) -> u64
    ensures { result ≡ with_bindings total (bindings_list bindings.now) }
{
    let mut total = total;
    for binding in bindings {
        total = add_nodes(&binding.value, plus(total, 1));
    }
    total
}

#[cycle(counting)]
fn add_optionals(optionals: &[Optional], total: u64) -> u64
    ensures { result ≡ with_optionals total (optionals_list optionals.now) }
{
    let mut total = total;
    for optional in optionals {
        total = add_parameter(&optional.parameter, total);
        total = add_nodes(&optional.default, total);
        total = add_given(&optional.supplied, total);
    }
    total
}

#[cycle(counting)]
fn add_lambda(lambda: &Lambda, total: u64) -> u64
    ensures { result ≡ with_lambda total (lambda_of lambda.now) }
{
    let total = add_parameters(&lambda.required, plus(total, 1));
    let total = add_optionals(&lambda.optional, total);
    let total = add_given(&lambda.rest, total);
    add_nodes(&lambda.body, total)
}

#[cycle(counting)]
fn add_definitions(definitions: &[Definition], total: u64) -> u64
    ensures { result ≡ with_definitions total (definitions_list definitions.now) }
{
    let mut total = total;
    for definition in definitions {
        total = add_lambda(&definition.lambda, total);
    }
    total
}

#[cycle(counting)]
fn add_items(items: &[Item], total: u64) -> u64
    ensures { result ≡ with_items total (items_list items.now) }
{
    let mut total = total;
    for item in items {
        if let Item::Step(form) = item {
            total = add_nodes(form, total);
        }
    }
    total
}

/// A total with the nodes of a tree.
#[cycle(counting)]
fn add_nodes(core: &Core, total: u64) -> u64
    ensures { result ≡ with_core total (core_of core.now) }
{
    let more = plus(total, 1);
    match &core.form {
        Form::Quote(_)
        | Form::Local(_)
        | Form::Global(_)
        | Form::FunLocal(_)
        | Form::FunGlobal(_)
        | Form::Go(_) => more,
        Form::SetLocal(_, part)
        | Form::SetGlobal(_, part)
        | Form::SetFun(_, part)
        | Form::Block(_, _, part)
        | Form::ReturnFrom(_, part) => add_nodes(part, more),
        Form::Is(spec, part) | Form::The(spec, part) => add_nodes(part, add_size(spec, more)),
        Form::If(test, yes, no) => add_nodes(no, add_nodes(yes, add_nodes(test, more))),
        Form::Catch(first, second)
        | Form::Throw(first, second)
        | Form::Unwind(first, second)
        | Form::MvProg1(first, second) => add_nodes(second, add_nodes(first, more)),
        Form::Progn(parts)
        | Form::Values(parts)
        | Form::CallGlobal(_, parts)
        | Form::CallLocal(_, parts)
        | Form::Primitive(_, parts) => add_all(parts, more),
        Form::Funcall(function, parts)
        | Form::Apply(function, parts)
        | Form::MvCall(function, parts) => add_all(parts, add_nodes(function, more)),
        Form::Let(bindings, body) => add_nodes(body, add_bindings(bindings, more)),
        Form::Labels(definitions, body) => add_nodes(body, add_definitions(definitions, more)),
        Form::Lambda(lambda) => add_lambda(lambda, total),
        Form::Tagbody(items) => add_items(items, more),
    }
}

/// The number of nodes of a tree, or the greatest number of 64 bits where it is past that.
pub fn count(core: &Core) -> u64
    ensures { result ≡ with_core 0 (core_of core.now) }
{
    add_nodes(core, 0)
}
