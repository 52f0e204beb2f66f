//! The parameters of a function with what is declared of them.

ghost use Rattle.std.specs.Prelude.{◌≡◌, ◌++◌, IfOk, OnOk, map};
ghost use Rattle.std.specs.Option.{option_map};
ghost use Rattle.declarations.specs.Declarations.{declared_of};
ghost use Rattle.lambda_lists.specs.Readings.{bindings_of, default_of, defaults_of, list_of};
ghost use Rattle.expansion.specs.Bindings.{bound_before as bound_before_of, if_supplied, names as names_of, optional_by, optional_names, parameter_names as parameter_names_of, parameters_round as parameters_round_of};
ghost use Rattle.form_expander.specs.Reading.{binder_of, function_from, optional_of, sketch_of};

use crate::bindings::bound_before;
use crate::sketch::{Binder, Function, Optional, Sketch};
use declarations::{Declared, SymIds};
use lambda_lists::{Binding, Defaulted, LambdaList};
use lisp_base::{SymId, Val};
use std::alloc::{AllocError, Global};

/// A list of bindings.
pub(crate) type Pairs = Vec<(SymId, Val)>;

/// Adds bindings.
pub(crate) fn add_pairs(pairs: &mut Pairs, more: &[Binding]) -> Result<(), AllocError>
    ensures { OnOk result (pairs.new.items ≡ pairs.old.items ++ bindings_of more.now) }
{
    for binding in more {
        pairs.push((binding.variable, binding.value))?;
    }
    Ok(())
}

/// Adds a variable, if there is one.
fn add_if_supplied(names: &mut SymIds, supplied: Option<SymId>) -> Result<(), AllocError>
    ensures { OnOk result (names.new.items ≡ names.old.items ++ if_supplied supplied) }
{
    if let Some(symbol) = supplied {
        names.push(symbol)?;
    }
    Ok(())
}

/// Adds the variables of optional parameters.
fn add_optional_names(names: &mut SymIds, optional: &[Defaulted]) -> Result<(), AllocError>
    ensures { OnOk result (names.new.items ≡ names.old.items ++ optional_names (defaults_of optional.now)) }
{
    for parameter in optional {
        names.push(parameter.variable)?;
        add_if_supplied(names, parameter.supplied)?;
    }
    Ok(())
}

/// The variables that a function itself binds.
pub(crate) fn parameter_names(
    alloc: Global,
    list: &LambdaList,
    rest: Option<SymId>,
) -> Result<SymIds, AllocError>
    ensures { IfOk result (λ names. names.items ≡ parameter_names_of (list_of list.now) rest) }
{
    let mut names = Vec::from_slice(alloc, &list.required)?;
    add_optional_names(&mut names, &list.optional)?;
    add_if_supplied(&mut names, rest)?;
    Ok(names)
}

/// Several variables, with what is declared of those that none of the later ones follows.
fn bound_each(
    alloc: Global,
    later: &[SymId],
    declared: &Declared,
    symbols: &[SymId],
) -> Result<Vec<Binder>, AllocError>
    ensures { IfOk result (λ made. map binder_of made.items ≡ map (bound_before_of later.now (declared_of declared.now)) symbols.now) }
{
    let mut made = Vec::new(alloc);
    for symbol in symbols {
        made.push(bound_before(alloc, later, declared, *symbol)?)?;
    }
    Ok(made)
}

/// A variable, if there is one, with what is declared of it.
fn bound_if(
    alloc: Global,
    later: &[SymId],
    declared: &Declared,
    symbol: Option<SymId>,
) -> Result<Option<Binder>, AllocError>
    ensures { IfOk result (λ made. option_map binder_of made ≡ option_map (bound_before_of later.now (declared_of declared.now)) symbol) }
{
    match symbol {
        Some(symbol) => Ok(Some(bound_before(alloc, later, declared, symbol)?)),
        None => Ok(None),
    }
}

/// An optional parameter with what is declared of its variables.
fn optional_before(
    alloc: Global,
    later: &[SymId],
    declared: &Declared,
    parameter: Defaulted,
) -> Result<Optional, AllocError>
    ensures { IfOk result (λ made. optional_of made ≡ optional_by later.now (declared_of declared.now) (default_of parameter)) }
{
    Ok(Optional {
        binder: bound_before(alloc, later, declared, parameter.variable)?,
        default: parameter.value,
        supplied: bound_if(alloc, later, declared, parameter.supplied)?,
    })
}

/// Optional parameters with what is declared of their variables.
fn optionals(
    alloc: Global,
    later: &[SymId],
    declared: &Declared,
    parameters: &[Defaulted],
) -> Result<Vec<Optional>, AllocError>
    ensures { IfOk result (λ made. map optional_of made.items ≡ map (optional_by later.now (declared_of declared.now)) (defaults_of parameters.now)) }
{
    let mut made = Vec::new(alloc);
    for parameter in parameters {
        made.push(optional_before(alloc, later, declared, *parameter)?)?;
    }
    Ok(made)
}

/// A function of these parameters, of which later bindings in its body may take the declarations.
pub(crate) fn parameters_round(
    alloc: Global,
    list: &LambdaList,
    rest: Option<SymId>,
    later: &[SymId],
    declared: &Declared,
    body: Sketch,
) -> Result<Function, AllocError>
    ensures { IfOk result (λ made. function_from made ≡ parameters_round_of (list_of list.now) rest later.now (declared_of declared.now) (sketch_of body)) }
{
    let required = bound_each(alloc, later, declared, &list.required)?;
    let optional = optionals(alloc, later, declared, &list.optional)?;
    let rest = bound_if(alloc, later, declared, rest)?;
    let body = Box::new(alloc, body)?;
    Ok(Function {
        required,
        optional,
        rest,
        body,
    })
}
