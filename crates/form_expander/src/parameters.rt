//! Parameters of the variables that a form binds.

ghost use Rattle.std.specs.Prelude.{◌≡◌, ◌++◌, IfOk, OnOk, map};
ghost use Rattle.std.specs.Option.{option_map};
ghost use Rattle.lisp_base.specs.Reading.{spec_of};
ghost use Rattle.core_form.specs.Reading.{parameter_of};
ghost use Rattle.declarations.specs.Declarations.{typed_of};
ghost use Rattle.expansion.specs.Bindings.{is_among as among, types_of};
ghost use Rattle.expansion.specs.Expanding.{bound_each, bound_initials, bound_optionals, bound_some, is_special as special_in, numbers_for as numbers_of, parameter, parameter_some, parameters, variable_for as variable_of};
ghost use Rattle.form_expander.specs.Besides.{beside, beside_some, initials_beside, initials_parameters, optionals_beside, optionals_parameters, pair_of};
ghost use Rattle.form_expander.specs.Outcomes.{Follows};
ghost use Rattle.form_expander.specs.Reading.{binder_of, initial_of, optional_of, world_of};

use crate::fault::Fault;
use crate::sketch::{Binder, Initial, Optional};
use crate::world::World;
use core_form::{Parameter, Variable};
use declarations::{Typed, copy_type};
use lisp_base::{Specs, SymId, TypeSpec};
use std::alloc::{AllocError, Global};

/// The parameters of an optional one: its own, and the one that tells whether an argument was
/// given.
#[derive(Drop)]
pub(crate) struct OptionalParameter {
    pub(crate) parameter: Parameter,
    pub(crate) supplied: Option<Parameter>,
}

/// Whether a symbol is among others.
fn is_among(symbols: &[SymId], name: SymId) -> bool
    ensures { result ≡ among symbols.now name }
{
    symbols.iter().any(|symbol| name.0 == symbol.0)
}

/// Whether a variable is special: where it has been proclaimed so, or is declared so.
fn is_special(world: &World, binder: &Binder) -> bool
    ensures { result ≡ special_in (world_of world.now) (binder_of binder.now) }
{
    binder.special || is_among(&world.specials, binder.variable)
}

/// How many numbers a variable takes.
fn numbers_for(is_special: bool) -> u32
    ensures { result ≡ numbers_of is_special }
{
    if is_special { 0 } else { 1 }
}

/// A variable of this name, by its number if it is lexical.
fn variable_for(is_special: bool, number: u32, name: SymId) -> Variable
    ensures { result ≡ variable_of is_special number name }
{
    if is_special {
        Variable::Special(name)
    } else {
        Variable::Lexical { number, name }
    }
}

/// Adds copies of the types that have been proclaimed of a variable.
fn add_declaimed(
    alloc: Global,
    name: SymId,
    declaimed: &[Typed],
    types: &mut Specs,
) -> Result<(), AllocError>
    ensures { OnOk result (map spec_of types.new.items ≡ map spec_of types.old.items ++ types_of name (map typed_of declaimed.now)) }
{
    for typed in declaimed {
        if name.0 == typed.variable.0 {
            types.push(copy_type(alloc, &typed.spec)?)?;
        }
    }
    Ok(())
}

/// Adds copies of types.
fn add_copies(alloc: Global, specs: &[TypeSpec], types: &mut Specs) -> Result<(), AllocError>
    ensures { OnOk result (map spec_of types.new.items ≡ map spec_of types.old.items ++ map spec_of specs.now) }
{
    for spec in specs {
        types.push(copy_type(alloc, spec)?)?;
    }
    Ok(())
}

/// The types of a variable: those that have been proclaimed of it come before those that are
/// declared.
fn types_for(world: &World, alloc: Global, binder: &Binder) -> Result<Specs, AllocError>
    ensures { IfOk result (λ types. map spec_of types.items ≡ types_of binder.now.variable (world_of world.now).declaimed ++ (binder_of binder.now).types) }
{
    let mut types = Vec::new(alloc);
    add_declaimed(alloc, binder.variable, &world.declaimed, &mut types)?;
    add_copies(alloc, &binder.types, &mut types)?;
    Ok(types)
}

/// A variable with its number, if it is lexical, and its types.
///
/// # Errors
/// Want of memory alone.
#[tactic(auto, unfolding(crate::specs::Stepping::steps, expansion::specs::Expanding::parameter, expansion::specs::Steps::take_numbers))]
pub(crate) fn make_parameter(
    world: &mut World,
    alloc: Global,
    binder: &Binder,
) -> Result<Parameter, Fault>
    ensures follows { Follows parameter_of (parameter (binder_of binder.now) (world_of world.old)) result (world_of world.new) }
    ensures symbols { world.new.symbols ≡ world.old.symbols }
{
    let is_special = is_special(world, binder);
    let number = world.take_numbers(numbers_for(is_special))?;
    let types = types_for(world, alloc, binder)?;
    Ok(Parameter {
        variable: variable_for(is_special, number, binder.variable),
        types,
    })
}

/// The parameters of several variables, in their order.
///
/// # Errors
/// Want of memory alone.
pub(crate) fn make_parameters(
    world: &mut World,
    alloc: Global,
    binders: &[Binder],
) -> Result<Vec<Parameter>, Fault>
    ensures follows { Follows (λ made. beside (map binder_of binders.now) (map parameter_of made.items)) (bound_each (map binder_of binders.now) (world_of world.old)) result (world_of world.new) }
    ensures all { IfOk result (λ made. parameters (beside (map binder_of binders.now) (map parameter_of made.items)) ≡ map parameter_of made.items) }
    ensures symbols { world.new.symbols ≡ world.old.symbols }
{
    let mut made = Vec::new(alloc);
    for binder in binders {
        let parameter = make_parameter(world, alloc, binder)?;
        made.push(parameter)?;
    }
    Ok(made)
}

/// The parameter of a variable, if there is one.
///
/// # Errors
/// Want of memory alone.
#[tactic(auto, unfolding(crate::specs::Stepping::steps, expansion::specs::Expanding::bound_some, expansion::specs::Expanding::bound))]
pub(crate) fn make_some(
    world: &mut World,
    alloc: Global,
    binder: &Option<Binder>,
) -> Result<Option<Parameter>, Fault>
    ensures follows { Follows (λ made. beside_some (option_map binder_of binder.now) (option_map parameter_of made)) (bound_some (option_map binder_of binder.now) (world_of world.old)) result (world_of world.new) }
    ensures all { IfOk result (λ made. parameter_some (beside_some (option_map binder_of binder.now) (option_map parameter_of made)) ≡ option_map parameter_of made) }
    ensures symbols { world.new.symbols ≡ world.old.symbols }
{
    match binder {
        Some(binder) => Ok(Some(make_parameter(world, alloc, binder)?)),
        None => Ok(None),
    }
}

/// The parameters of the variables of bindings, in their order.
///
/// # Errors
/// Want of memory alone.
pub(crate) fn make_initials(
    world: &mut World,
    alloc: Global,
    initials: &[Initial],
) -> Result<Vec<Parameter>, Fault>
    ensures follows { Follows (λ made. initials_beside (map initial_of initials.now) (map parameter_of made.items)) (bound_initials (map initial_of initials.now) (world_of world.old)) result (world_of world.new) }
    ensures all { IfOk result (λ made. initials_parameters (initials_beside (map initial_of initials.now) (map parameter_of made.items)) ≡ map parameter_of made.items) }
    ensures symbols { world.new.symbols ≡ world.old.symbols }
{
    let mut made = Vec::new(alloc);
    for binding in initials {
        let parameter = make_parameter(world, alloc, &binding.binder)?;
        made.push(parameter)?;
    }
    Ok(made)
}

/// The parameters of optional ones, in their order, each before the one that tells whether an
/// argument was given.
///
/// # Errors
/// Want of memory alone.
pub(crate) fn make_optionals(
    world: &mut World,
    alloc: Global,
    optionals: &[Optional],
) -> Result<Vec<OptionalParameter>, Fault>
    ensures follows { Follows (λ made. optionals_beside (map optional_of optionals.now) (map pair_of made.items)) (bound_optionals (map optional_of optionals.now) (world_of world.old)) result (world_of world.new) }
    ensures all { IfOk result (λ made. optionals_parameters (optionals_beside (map optional_of optionals.now) (map pair_of made.items)) ≡ map pair_of made.items) }
    ensures symbols { world.new.symbols ≡ world.old.symbols }
{
    let mut made = Vec::new(alloc);
    for optional in optionals {
        let parameter = make_parameter(world, alloc, &optional.binder)?;
        let supplied = make_some(world, alloc, &optional.supplied)?;
        let pair = OptionalParameter {
            parameter,
            supplied,
        };
        made.push(pair)?;
    }
    Ok(made)
}
