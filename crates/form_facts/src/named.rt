// The values that a type names.
ghost use Rattle.std.specs.Prelude.{◌≡◌, ◌++◌, OnOk};
ghost use Rattle.lisp_base.specs.Laws.{specs_list};
ghost use Rattle.lisp_base.specs.Reading.{spec_of};
ghost use Rattle.core_form.specs.Facts.{items_named, all_items_named, greatest_letter as greatest_letter_of, greatest_symbol as greatest_symbol_of};
ghost use Rattle.form_facts.specs.Samples.{max_letter, max_symbol};

use lisp_base::{TypeSpec, Val, reads_specs};
use std::alloc::AllocError;

fn note_each(named: &mut Vec<Val>, items: &[Val]) -> Result<(), AllocError>
    ensures { OnOk result (named.new.items ≡ named.old.items ++ items.now) }
{
    for item in items {
        named.push(*item)?;
    }
    Ok(())
}

/// Notes the values that several types name.
#[cycle(naming)]
pub fn note_named(named: &mut Vec<Val>, types: &[TypeSpec]) -> Result<(), AllocError>
    ensures { OnOk result (named.new.items ≡ named.old.items ++ all_items_named (specs_list types.now)) }
{
    for spec in types {
        note_items(named, spec)?;
    }
    Ok(())
}

/// Notes the values that a type names.
#[cycle(naming)]
fn note_items(named: &mut Vec<Val>, spec: &TypeSpec) -> Result<(), AllocError>
    ensures { OnOk result (named.new.items ≡ named.old.items ++ items_named (spec_of spec.now)) }
{
    reads_specs();
    match spec {
        TypeSpec::Named(_)
        | TypeSpec::Integer { .. }
        | TypeSpec::Signed(_)
        | TypeSpec::Unsigned(_)
        | TypeSpec::Mod(_) => Ok(()),
        TypeSpec::Member(items) => note_each(named, items),
        TypeSpec::Eql(item) => {
            named.push(*item)?;
            Ok(())
        }
        TypeSpec::And(types) | TypeSpec::Or(types) => note_named(named, types),
        TypeSpec::Not(spec) => note_items(named, spec),
    }
}

fn letter_or(item: Val, least: u32) -> u32
    ensures { result ≡ max_letter item least }
{
    match item {
        Val::Char(letter) => letter.max(least),
        Val::Int(_) | Val::Sym(_) | Val::Ref(_) => least,
    }
}

/// The greatest character among these values, or 0.
pub fn greatest_letter(items: &[Val]) -> u32
    ensures { result ≡ greatest_letter_of items.now }
{
    let mut greatest = 0;
    for item in items {
        greatest = letter_or(*item, greatest);
    }
    greatest
}

fn symbol_or(item: Val, least: u32) -> u32
    ensures { result ≡ max_symbol item least }
{
    match item {
        Val::Sym(id) => id.0.max(least),
        Val::Int(_) | Val::Char(_) | Val::Ref(_) => least,
    }
}

/// The greatest number of a symbol among these values, or 1.
pub fn greatest_symbol(items: &[Val]) -> u32
    ensures { result ≡ greatest_symbol_of items.now }
{
    let mut greatest = 1;
    for item in items {
        greatest = symbol_or(*item, greatest);
    }
    greatest
}
