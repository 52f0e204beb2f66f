//! One declaration specifier.

ghost use Rattle.std.specs.Prelude.{◌≡◌, OnOk};
ghost use Rattle.lisp_base.specs.Reading.{spec_of};
ghost use Rattle.lisp_base.specs.Lawful.{IsLawful};
ghost use Rattle.declarations.specs.Declarations.{AreLawful, Gives, add_special, add_type, declared_of, read_each, read_parts as parts_read, read_specifier as specifier_read, set_quality, typing};

use crate::contents::{Declared, Typed};
use crate::copies::copy_type;
use crate::fault::DeclarationFault;
use crate::qualities::{setting_of, with_setting};
use crate::subject::{Subject, subject_of};
use lisp_base::{Heap, SymTab, TypeSpec, Val};
use lisp_forms::elements;
use std::alloc::Global;
use type_spec::parse_type;

/// Adds variables of a type.
fn add_types(
    alloc: Global,
    spec: &TypeSpec,
    variables: &[Val],
    symbols: &SymTab,
    declared: &mut Declared,
) -> Result<(), DeclarationFault>
    requires spec { IsLawful symbols.now (spec_of spec.now) }
    requires lawful { AreLawful symbols.now (declared_of declared.old) }
    ensures gives { Gives (λ _. declared_of declared.new) result (read_each (add_type (spec_of spec.now)) (declared_of declared.old) variables.now) }
    ensures lawful { OnOk result (AreLawful symbols.now (declared_of declared.new)) }
{
    for variable in variables {
        let Val::Sym(variable) = *variable else {
            return Err(DeclarationFault::BadForm);
        };
        let spec = copy_type(alloc, spec)?;
        declared.types.push(Typed { variable, spec })?;
    }
    Ok(())
}

/// Adds the variables after a type.
fn read_typing(
    alloc: Global,
    parts: &[Val],
    symbols: &SymTab,
    heap: &Heap,
    declared: &mut Declared,
) -> Result<(), DeclarationFault>
    requires { AreLawful symbols.now (declared_of declared.old) }
    ensures gives { Gives (λ _. declared_of declared.new) result (typing heap.now symbols.now (declared_of declared.old) parts.now) }
    ensures lawful { OnOk result (AreLawful symbols.now (declared_of declared.new)) }
{
    let [form, variables @ ..] = parts else {
        return Err(DeclarationFault::BadForm);
    };
    let spec = parse_type(alloc, *form, symbols, heap)?;
    add_types(alloc, &spec, variables, symbols, declared)
}

/// Adds special variables.
fn add_specials(variables: &[Val], declared: &mut Declared) -> Result<(), DeclarationFault>
    ensures gives { Gives (λ _. declared_of declared.new) result (read_each add_special (declared_of declared.old) variables.now) }
    ensures types { declared.new.types ≡ declared.old.types }
{
    for variable in variables {
        let Val::Sym(variable) = *variable else {
            return Err(DeclarationFault::BadForm);
        };
        declared.specials.push(variable)?;
    }
    Ok(())
}

/// Sets qualities of the policy.
fn set_qualities(
    qualities: &[Val],
    heap: &Heap,
    declared: &mut Declared,
) -> Result<(), DeclarationFault>
    ensures gives { Gives (λ _. declared_of declared.new) result (read_each (set_quality heap.now) (declared_of declared.old) qualities.now) }
    ensures types { declared.new.types ≡ declared.old.types }
{
    for quality in qualities {
        let Some(setting) = setting_of(heap, *quality) else {
            return Err(DeclarationFault::BadForm);
        };
        declared.policy = with_setting(setting, declared.policy);
    }
    Ok(())
}

/// Adds what a specifier of these elements says.
fn read_parts(
    alloc: Global,
    parts: &[Val],
    symbols: &SymTab,
    heap: &Heap,
    declared: &mut Declared,
) -> Result<(), DeclarationFault>
    requires { AreLawful symbols.now (declared_of declared.old) }
    ensures gives { Gives (λ _. declared_of declared.new) result (parts_read heap.now symbols.now (declared_of declared.old) parts.now) }
    ensures lawful { OnOk result (AreLawful symbols.now (declared_of declared.new)) }
{
    let [first, rest @ ..] = parts else {
        return Err(DeclarationFault::BadForm);
    };
    match subject_of(*first) {
        Subject::Type => read_typing(alloc, rest, symbols, heap, declared),
        Subject::Special => add_specials(rest, declared),
        Subject::Policy => set_qualities(rest, heap, declared),
        Subject::Nothing => Ok(()),
        Subject::ThatType => read_typing(alloc, parts, symbols, heap, declared),
    }
}

/// Adds what a declaration specifier says.
#[tactic(auto, unfolding(crate::specs::Declarations::read_specifier))]
pub(crate) fn read_specifier(
    alloc: Global,
    specifier: Val,
    symbols: &SymTab,
    heap: &Heap,
    declared: &mut Declared,
) -> Result<(), DeclarationFault>
    requires { AreLawful symbols.now (declared_of declared.old) }
    ensures gives { Gives (λ _. declared_of declared.new) result (specifier_read heap.now symbols.now (declared_of declared.old) specifier) }
    ensures lawful { OnOk result (AreLawful symbols.now (declared_of declared.new)) }
{
    match elements(alloc, heap, specifier)? {
        Some(parts) => read_parts(alloc, &parts, symbols, heap, declared),
        None => Err(DeclarationFault::BadForm),
    }
}
