// The variables that a form binds.
ghost use Rattle.std.specs.Prelude.{◌≡◌, ◌++◌, ◌∷◌, [], OnOk, IfOk, flat_map, option_map};
ghost use Rattle.core_form.specs.Reading.{parameter_of, lambda_of};
ghost use Rattle.core_form.specs.ListReading.{parameters_list, bindings_list, optionals_list};
ghost use Rattle.core_form.specs.Facts.{binding_parameters, optional_parameters, if_given, parameters_of};
ghost use Rattle.form_facts.specs.Parts.{bound_by};
ghost use Rattle.form_facts.specs.Read.{part_of, parts_list, those_parameters};

use crate::parts::Part;
use core_form::{Binding, Lambda, Optional, Parameter, reads_nodes};
use std::alloc::{AllocError, Global};

fn note<'a>(noted: &mut Vec<&'a Parameter>, parameter: &'a Parameter) -> Result<(), AllocError>
    ensures { OnOk result (those_parameters noted.new.items ≡ those_parameters noted.old.items ++ parameter_of parameter.now ∷ []) }
{
    noted.push(parameter)?;
    Ok(())
}

fn note_given<'a>(
    noted: &mut Vec<&'a Parameter>,
    parameter: &'a Option<Parameter>,
) -> Result<(), AllocError>
    ensures { OnOk result (those_parameters noted.new.items ≡ those_parameters noted.old.items ++ if_given (option_map parameter_of parameter.now)) }
{
    match parameter {
        Some(parameter) => note(noted, parameter),
        None => Ok(()),
    }
}

fn note_required<'a>(
    noted: &mut Vec<&'a Parameter>,
    parameters: &'a [Parameter],
) -> Result<(), AllocError>
    ensures { OnOk result (those_parameters noted.new.items ≡ those_parameters noted.old.items ++ parameters_list parameters.now) }
{
    for parameter in parameters {
        note(noted, parameter)?;
    }
    Ok(())
}

fn note_optionals<'a>(
    noted: &mut Vec<&'a Parameter>,
    optionals: &'a [Optional],
) -> Result<(), AllocError>
    ensures { OnOk result (those_parameters noted.new.items ≡ those_parameters noted.old.items ++ optional_parameters (optionals_list optionals.now)) }
{
    for optional in optionals {
        note(noted, &optional.parameter)?;
        note_given(noted, &optional.supplied)?;
    }
    Ok(())
}

fn note_bindings<'a>(
    noted: &mut Vec<&'a Parameter>,
    bindings: &'a [Binding],
) -> Result<(), AllocError>
    ensures { OnOk result (those_parameters noted.new.items ≡ those_parameters noted.old.items ++ binding_parameters (bindings_list bindings.now)) }
{
    for binding in bindings {
        note(noted, &binding.parameter)?;
    }
    Ok(())
}

fn note_lambda<'a>(noted: &mut Vec<&'a Parameter>, lambda: &'a Lambda) -> Result<(), AllocError>
    ensures { OnOk result (those_parameters noted.new.items ≡ those_parameters noted.old.items ++ parameters_of (lambda_of lambda.now)) }
{
    reads_nodes();
    note_required(noted, &lambda.required)?;
    note_optionals(noted, &lambda.optional)?;
    note_given(noted, &lambda.rest)
}

fn note_part<'a>(noted: &mut Vec<&'a Parameter>, part: Part<'a>) -> Result<(), AllocError>
    ensures { OnOk result (those_parameters noted.new.items ≡ those_parameters noted.old.items ++ bound_by (part_of part.entry)) }
{
    match part {
        Part::Bind(bindings) => note_bindings(noted, bindings),
        Part::Make(lambda) => note_lambda(noted, lambda),
        Part::Read(_) | Part::Set(_, _) | Part::Leave(_) | Part::Go(_) | Part::Compute(_) => Ok(()),
    }
}

/// The variables that are bound by these parts.
///
/// # Errors
/// Want of memory alone.
pub fn parameters_in<'a>(
    alloc: Global,
    parts: &[Part<'a>],
) -> Result<Vec<&'a Parameter>, AllocError>
    ensures { IfOk result (λ noted. those_parameters noted.items ≡ flat_map bound_by (parts_list parts.now)) }
{
    let mut noted = Vec::new(alloc);
    for part in parts {
        note_part(&mut noted, *part)?;
    }
    Ok(noted)
}
