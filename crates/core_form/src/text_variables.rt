// The variables of a program's text: how they are written, and what they bind.
ghost use Rattle.std.specs.Prelude.{◌≡◌, OnOk, map};
ghost use Rattle.std.specs.Option.{option_map};
ghost use Rattle.lisp_base.specs.Reading.{spec_of};
ghost use Rattle.core_form.specs.Reading.{parameter_of};
ghost use Rattle.core_form.specs.ListReading.{bindings_list, definitions_list, items_list};
ghost use Rattle.core_form.specs.TextNames.{variable_names, parameter_names, given_names, binding_names, function_names, tag_names};
ghost use Rattle.core_form.specs.TextPage.{page_of, put, puts, bound};
ghost use Rattle.core_form.specs.Text.{variable_text, checked_text, parameter_text, parameter_texts, flag_texts, rest_texts};

use crate::text_page::{Known, Page};
use crate::text_words::{Source, write_label, write_symbol, write_type};
use crate::tree::{Binding, Definition, Item, Parameter, Variable};
use lisp_base::{TypeSpec, Val};
use std::alloc::AllocError;

/// Writes a variable, where it is bound.
pub(crate) fn write_variable(
    page: &mut Page,
    source: &Source<'_>,
    variable: Variable,
) -> Result<(), AllocError>
    ensures { OnOk result (page_of page.new ≡ put (page_of page.old) (variable_text source.now variable)) }
{
    match variable {
        Variable::Lexical { number, name } => {
            let name = Val::Sym(name);
            write_label(page, source, Known { number, name })
        }
        Variable::Special(symbol) => {
            page.open()?;
            page.word("special")?;
            write_symbol(page, source, symbol)?;
            page.close()
        }
    }
}

/// Writes a variable with its checks, the first of them innermost.
fn write_checked(
    page: &mut Page,
    source: &Source<'_>,
    variable: Variable,
    types: &[TypeSpec],
) -> Result<(), AllocError>
    ensures { OnOk result (page_of page.new ≡ put (page_of page.old) (checked_text source.now (variable_text source.now variable) (map spec_of types.now))) }
{
    match types.split_last() {
        Some((last, before)) => {
            page.open()?;
            page.word("check")?;
            write_type(page, source, last)?;
            write_checked(page, source, variable, before)?;
            page.close()
        }
        None => write_variable(page, source, variable),
    }
}

/// Writes a parameter.
pub(crate) fn write_parameter(
    page: &mut Page,
    source: &Source<'_>,
    parameter: &Parameter,
) -> Result<(), AllocError>
    ensures { OnOk result (page_of page.new ≡ put (page_of page.old) (parameter_text source.now (parameter_of parameter.now))) }
{
    write_checked(page, source, parameter.variable, &parameter.types)
}

/// Binds a variable, if it is lexical.
pub(crate) fn know_variable(page: &mut Page, variable: Variable) -> Result<(), AllocError>
    ensures { OnOk result (page_of page.new ≡ bound (page_of page.old) (variable_names variable)) }
{
    match variable {
        Variable::Lexical { number, name } => page.know(number, Val::Sym(name)),
        Variable::Special(_) => Ok(()),
    }
}

/// Writes the required parameters of a function, and binds them.
pub(crate) fn write_required(
    page: &mut Page,
    source: &Source<'_>,
    parameters: &[Parameter],
) -> Result<(), AllocError>
    ensures { OnOk result (page_of page.new ≡ bound (puts (page_of page.old) (parameter_texts source.now (map parameter_of parameters.now))) (parameter_names (map parameter_of parameters.now))) }
{
    for parameter in parameters {
        write_parameter(page, source, parameter)?;
        know_variable(page, parameter.variable)?;
    }
    Ok(())
}

/// Writes the variable that tells whether an argument was given, if there is one.
pub(crate) fn write_flag(
    page: &mut Page,
    source: &Source<'_>,
    flag: &Option<Parameter>,
) -> Result<(), AllocError>
    ensures { OnOk result (page_of page.new ≡ puts (page_of page.old) (flag_texts source.now (option_map parameter_of flag.now))) }
{
    match flag {
        Some(parameter) => write_parameter(page, source, parameter),
        None => Ok(()),
    }
}

/// Binds the variable of a parameter, if there is one.
pub(crate) fn know_given(page: &mut Page, given: &Option<Parameter>) -> Result<(), AllocError>
    ensures { OnOk result (page_of page.new ≡ bound (page_of page.old) (given_names (option_map parameter_of given.now))) }
{
    match given {
        Some(parameter) => know_variable(page, parameter.variable),
        None => Ok(()),
    }
}

/// Writes the parameter for the remaining arguments, if there is one.
pub(crate) fn write_rest(
    page: &mut Page,
    source: &Source<'_>,
    rest: &Option<Parameter>,
) -> Result<(), AllocError>
    ensures { OnOk result (page_of page.new ≡ puts (page_of page.old) (rest_texts source.now (option_map parameter_of rest.now))) }
{
    match rest {
        Some(parameter) => {
            page.open()?;
            page.word("rest")?;
            write_parameter(page, source, parameter)?;
            page.close()
        }
        None => Ok(()),
    }
}

/// Binds the variables of a `Let`.
pub(crate) fn know_bindings(page: &mut Page, bindings: &[Binding]) -> Result<(), AllocError>
    ensures { OnOk result (page_of page.new ≡ bound (page_of page.old) (binding_names (bindings_list bindings.now))) }
{
    for binding in bindings {
        know_variable(page, binding.parameter.variable)?;
    }
    Ok(())
}

/// Binds local functions.
pub(crate) fn know_functions(page: &mut Page, definitions: &[Definition]) -> Result<(), AllocError>
    ensures { OnOk result (page_of page.new ≡ bound (page_of page.old) (function_names (definitions_list definitions.now))) }
{
    for definition in definitions {
        page.know(definition.number, Val::Sym(definition.name))?;
    }
    Ok(())
}

/// Binds the tags of a `Tagbody`.
pub(crate) fn know_tags(page: &mut Page, items: &[Item]) -> Result<(), AllocError>
    ensures { OnOk result (page_of page.new ≡ bound (page_of page.old) (tag_names (items_list items.now))) }
{
    for item in items {
        if let Item::Tag(number, name) = item {
            page.know(*number, *name)?;
        }
    }
    Ok(())
}
