//! Declarations and declamations.

ghost use Rattle.std.specs.Prelude.{◌≡◌, IfOk, OnOk};
ghost use Rattle.declarations.specs.Declarations.{AreLawful, Gives, declared_of, nothing, read_declaration as declaration_read, read_declarations as declarations_read, read_each, read_list as list_read, read_specifier as specifier_read, read_specifiers as specifiers_read, tested as tested_reading};

use crate::contents::Declared;
use crate::fault::DeclarationFault;
use crate::policy::Policy;
use crate::qualities::is_refused;
use crate::specifiers::read_specifier;
use lisp_base::{Heap, SymTab, Val};
use lisp_forms::{cons_of, elements};
use std::alloc::Global;

/// Adds what several specifiers say.
fn read_all(
    alloc: Global,
    specifiers: &[Val],
    symbols: &SymTab,
    heap: &Heap,
    declared: &mut Declared,
) -> Result<(), DeclarationFault>
    requires { AreLawful symbols.now (declared_of declared.old) }
    ensures gives { Gives (λ _. declared_of declared.new) result (read_each (specifier_read heap.now symbols.now) (declared_of declared.old) specifiers.now) }
    ensures lawful { OnOk result (AreLawful symbols.now (declared_of declared.new)) }
{
    for specifier in specifiers {
        read_specifier(alloc, *specifier, symbols, heap, declared)?;
    }
    Ok(())
}

/// Adds what the specifiers of a list say.
#[tactic(auto, unfolding(crate::specs::Declarations::read_list))]
fn read_list(
    alloc: Global,
    list: Val,
    symbols: &SymTab,
    heap: &Heap,
    declared: &mut Declared,
) -> Result<(), DeclarationFault>
    requires { AreLawful symbols.now (declared_of declared.old) }
    ensures gives { Gives (λ _. declared_of declared.new) result (list_read heap.now symbols.now (declared_of declared.old) list) }
    ensures lawful { OnOk result (AreLawful symbols.now (declared_of declared.new)) }
{
    match elements(alloc, heap, list)? {
        Some(specifiers) => read_all(alloc, &specifiers, symbols, heap, declared),
        None => Err(DeclarationFault::BadForm),
    }
}

/// Adds what a declaration says.
fn read_declaration(
    alloc: Global,
    declaration: Val,
    symbols: &SymTab,
    heap: &Heap,
    declared: &mut Declared,
) -> Result<(), DeclarationFault>
    requires { AreLawful symbols.now (declared_of declared.old) }
    ensures gives { Gives (λ _. declared_of declared.new) result (declaration_read heap.now symbols.now (declared_of declared.old) declaration) }
    ensures lawful { OnOk result (AreLawful symbols.now (declared_of declared.new)) }
{
    match cons_of(heap, declaration) {
        Some((_, specifiers)) => read_list(alloc, specifiers, symbols, heap, declared),
        None => Err(DeclarationFault::BadForm),
    }
}

/// Adds what several declarations say.
fn read_each_declaration(
    alloc: Global,
    declarations: &[Val],
    symbols: &SymTab,
    heap: &Heap,
    declared: &mut Declared,
) -> Result<(), DeclarationFault>
    requires { AreLawful symbols.now (declared_of declared.old) }
    ensures gives { Gives (λ _. declared_of declared.new) result (read_each (declaration_read heap.now symbols.now) (declared_of declared.old) declarations.now) }
    ensures lawful { OnOk result (AreLawful symbols.now (declared_of declared.new)) }
{
    for declaration in declarations {
        read_declaration(alloc, *declaration, symbols, heap, declared)?;
    }
    Ok(())
}

/// Nothing but the policy in force.
fn nothing_declared(alloc: Global, policy: Policy) -> Declared
    ensures { declared_of result ≡ nothing policy }
{
    Declared {
        types: Vec::new(alloc),
        specials: Vec::new(alloc),
        policy,
    }
}

/// What is declared, where its policy is not refused.
fn tested(declared: Declared) -> Result<Declared, DeclarationFault>
    ensures gives { Gives declared_of result (tested_reading (declared_of declared)) }
    ensures same { IfOk result (λ same. same ≡ declared) }
{
    if is_refused(declared.policy) {
        return Err(DeclarationFault::BadPolicy);
    }
    Ok(declared)
}

/// What the declarations of one form say: each is a list that begins with `DECLARE`. They are read
/// from left to right, and the policy goes on from the one in force (ANSI Common Lisp 3.3). Each
/// type is lawful.
///
/// # Errors
/// The first that there is. `BadForm` where a declaration or a specifier is no proper list, a
/// specifier is empty, a variable is no symbol, or a quality is none with a number from 0 to 3.
/// `BadType` where a type is none; a specifier that is not known is read as a type with its
/// variables, so that it is one. `BadPolicy`, after all others, where safety is 0 or speed is above
/// safety. Want of memory.
pub fn read_declarations(
    alloc: Global,
    declarations: &[Val],
    policy: Policy,
    symbols: &SymTab,
    heap: &Heap,
) -> Result<Declared, DeclarationFault>
    ensures gives { Gives declared_of result (declarations_read heap.now symbols.now policy declarations.now) }
    ensures lawful { IfOk result (λ d. AreLawful symbols.now (declared_of d)) }
{
    let mut declared = nothing_declared(alloc, policy);
    read_each_declaration(alloc, declarations, symbols, heap, &mut declared)?;
    tested(declared)
}

/// What the list of specifiers of a `DECLAIM` says, as `read_declarations` reads them.
///
/// # Errors
/// As those of `read_declarations`; `BadForm` too where it is no proper list.
pub fn read_specifiers(
    alloc: Global,
    specifiers: Val,
    policy: Policy,
    symbols: &SymTab,
    heap: &Heap,
) -> Result<Declared, DeclarationFault>
    ensures gives { Gives declared_of result (specifiers_read heap.now symbols.now policy specifiers) }
    ensures lawful { IfOk result (λ d. AreLawful symbols.now (declared_of d)) }
{
    let mut declared = nothing_declared(alloc, policy);
    read_list(alloc, specifiers, symbols, heap, &mut declared)?;
    tested(declared)
}
