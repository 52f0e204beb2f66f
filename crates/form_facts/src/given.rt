// What variables are given: the variables that stand, under any number of types, where they are set.
ghost use Rattle.std.specs.Prelude.{◌≡◌, ◌++◌, ◌∷◌, ◌==◌, [], ℕ, IfOk, OnOk, if◌then◌else◌};
ghost use Rattle.core_form.specs.Facts.{union};
ghost use Rattle.form_facts.specs.Given.{TellsGiven, at_number, at_numbers, lost_next};
ghost use Rattle.form_facts.specs.Read.{parts_list};

use crate::cells::common;
use crate::numbers::{Numbers, others_of};
use crate::parts::Part;
use crate::words::variable_in;
use std::alloc::{AllocError, Global};
use std::collections::HashMap;

/// The variables that are given to each variable, by its number.
pub type Given = HashMap<u32, Vec<u32>>;

/// Notes a variable that is given to another.
fn note(alloc: Global, given: &mut Given, to: u32, variable: u32) -> Result<(), AllocError>
    ensures { OnOk result ((y : ℕ) → at_number given.new y ≡ at_number given.old y ++ (if y == to then variable ∷ [] else [])) }
{
    given.entry(to)?.or_insert(Vec::new(alloc)).push(variable)?;
    Ok(())
}

/// What the variables of a form of these parts are given.
///
/// # Errors
/// Want of memory alone.
pub fn given_in(alloc: Global, parts: &[Part<'_>]) -> Result<Given, AllocError>
    ensures { IfOk result (TellsGiven (parts_list parts.now)) }
{
    let mut given = HashMap::new(alloc);
    for part in parts {
        if let Part::Set(to, value) = *part
            && let Some(variable) = variable_in(value)
        {
            note(alloc, &mut given, to, variable)?;
        }
    }
    Ok(given)
}

/// The variables that a variable is given.
fn given_to(given: &Given, to: u32) -> &[u32]
    ensures { result.now ≡ at_number given.now to }
{
    match given.get(&to) {
        Some(variables) => variables,
        None => &[],
    }
}

fn add_all(numbers: &mut Vec<u32>, others: &[u32]) -> Result<(), AllocError>
    ensures { OnOk result (numbers.new.items ≡ numbers.old.items ++ others.now) }
{
    for other in others {
        numbers.push(*other)?;
    }
    Ok(())
}

/// What all of these variables are given.
fn all_given(alloc: Global, given: &Given, to: &[u32]) -> Result<Vec<u32>, AllocError>
    ensures { IfOk result (λ numbers. numbers.items ≡ at_numbers given.now to.now) }
{
    let mut numbers = Vec::new(alloc);
    for one in to {
        add_all(&mut numbers, given_to(given, *one))?;
    }
    Ok(numbers)
}

/// The words that are lost because they are given to what was lost just now, each once. They are
/// noted among those that are lost.
///
/// # Errors
/// Want of memory alone.
pub fn lose(
    alloc: Global,
    given: &Given,
    declared: &Numbers,
    lost: &mut Numbers,
    just: &Numbers,
) -> Result<Numbers, AllocError>
    ensures next { IfOk result (λ next. next ≡ lost_next (at_numbers given.now just.now) declared.now lost.old) }
    ensures noted { IfOk result (λ next. lost.new ≡ union lost.old next) }
{
    let variables = all_given(alloc, given, just.as_slice())?;
    let words = common(alloc, &variables, declared)?;
    let next = Numbers::of(alloc, &others_of(alloc, &words, lost)?)?;
    lost.unite(next.as_slice())?;
    Ok(next)
}
