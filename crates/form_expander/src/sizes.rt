//! What nodes count beside their parts: the sizes of types, and the parameters of functions. A
//! number past 32 bits is None.

ghost use Rattle.std.specs.Prelude.{◌≡◌, ◌+◌, IfSome, length, map};
ghost use Rattle.std.specs.Option.{option_map};
ghost use Rattle.lisp_base.specs.Laws.{specs_list};
ghost use Rattle.lisp_base.specs.Reading.{spec_of};
ghost use Rattle.lisp_base.specs.Spec.{spec_size, specs_size};
ghost use Rattle.core_form.specs.Reading.{parameter_of};
ghost use Rattle.core_form.specs.Tree.{if_there, parameter_count, parameters_count, types_size};
ghost use Rattle.expansion.specs.Sketches as plain;
ghost use Rattle.form_expander.specs.Beginnings.{pairs_count};
ghost use Rattle.form_expander.specs.Besides.{pair_of};
ghost use Rattle.form_expander.specs.Reading.{unary_of};

use crate::parameters::OptionalParameter;
use crate::sketch::Unary;
use core_form::Parameter;
use lisp_base::{TypeSpec, reads_specs};

/// A sum.
fn plus(total: u32, more: usize) -> Option<u32>
    ensures { IfSome result (λ sum. sum ≡ total + more) }
{
    match u32::try_from(more) {
        Ok(more) => total.checked_add(more),
        Err(_) => None,
    }
}

/// A total with the sizes of the parts of a type.
#[cycle(sizes)]
fn add_parts(total: u32, parts: &[TypeSpec]) -> Option<u32>
    ensures { IfSome result (λ sum. sum ≡ total + specs_size (specs_list parts.now)) }
{
    let mut total = total;
    for part in parts {
        total = add_type(total, part)?;
    }
    Some(total)
}

/// A total with the size of a type.
#[cycle(sizes)]
fn add_type(total: u32, spec: &TypeSpec) -> Option<u32>
    ensures { IfSome result (λ sum. sum ≡ total + spec_size (spec_of spec.now)) }
{
    reads_specs();
    let total = total.checked_add(1)?;
    match spec {
        TypeSpec::Named(_)
        | TypeSpec::Integer { .. }
        | TypeSpec::Signed(_)
        | TypeSpec::Unsigned(_)
        | TypeSpec::Mod(_)
        | TypeSpec::Eql(_) => Some(total),
        TypeSpec::Member(items) => plus(total, items.len()),
        TypeSpec::And(parts) | TypeSpec::Or(parts) => add_parts(total, parts),
        TypeSpec::Not(part) => add_type(total, part),
    }
}

/// A total with the sizes of types.
fn add_types(total: u32, types: &[TypeSpec]) -> Option<u32>
    ensures { IfSome result (λ sum. sum ≡ total + types_size (map spec_of types.now)) }
{
    let mut total = total;
    for spec in types {
        total = add_type(total, spec)?;
    }
    Some(total)
}

/// What a node of one part counts.
pub(crate) fn unary_count(node: &Unary) -> Option<u32>
    ensures { IfSome result (λ count. count ≡ plain.unary_count (unary_of node.now)) }
{
    match node {
        Unary::SettingLocal(_)
        | Unary::SettingGlobal(_)
        | Unary::SettingFunction(_)
        | Unary::Returning(_) => Some(1),
        Unary::Testing(spec) | Unary::Checking(spec) => add_type(1, spec),
    }
}

/// A total with a parameter and its checks.
pub(crate) fn add_parameter(total: u32, parameter: &Parameter) -> Option<u32>
    ensures { IfSome result (λ sum. sum ≡ total + parameter_count (parameter_of parameter.now)) }
{
    add_types(total.checked_add(1)?, &parameter.types)
}

/// A total with parameters and their checks.
pub(crate) fn add_parameters(total: u32, parameters: &[Parameter]) -> Option<u32>
    ensures { IfSome result (λ sum. sum ≡ total + parameters_count (map parameter_of parameters.now)) }
{
    let mut total = total;
    for parameter in parameters {
        total = add_parameter(total, parameter)?;
    }
    Some(total)
}

/// A total with a parameter that may be missing.
pub(crate) fn add_if_there(total: u32, parameter: &Option<Parameter>) -> Option<u32>
    ensures { IfSome result (λ sum. sum ≡ total + if_there (option_map parameter_of parameter.now)) }
{
    match parameter {
        Some(parameter) => add_parameter(total, parameter),
        None => Some(total),
    }
}

/// A total with optional parameters and their checks.
pub(crate) fn add_optionals(total: u32, optionals: &[OptionalParameter]) -> Option<u32>
    ensures { IfSome result (λ sum. sum ≡ total + pairs_count (map pair_of optionals.now)) }
{
    let mut total = total;
    for optional in optionals {
        total = add_if_there(
            add_parameter(total, &optional.parameter)?,
            &optional.supplied,
        )?;
    }
    Some(total)
}
