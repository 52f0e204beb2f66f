//! The program that the forms of a file expand to.

ghost use Rattle.std.specs.Prelude.{◌≡◌, ◌++◌, ◌∷◌, All, IfErr, IfOk, OnOk, [], if◌then◌else◌, map};
ghost use Rattle.lisp_reader.specs.Building.{stock};
ghost use Rattle.core_form.specs.Lawful.{meant};
ghost use Rattle.form_expander.specs.Keeping.{Keeps};
ghost use Rattle.form_expander.specs.Reading.{scope_of, world_of};
ghost use Rattle.file_expansion.specs.Files as plain;
ghost use Rattle.file_expansion.specs.Files.{IsProgram};
ghost use Rattle.macroexpand.specs.Given.{Answered, AreGiven, Refuses, RefusesFile};
ghost use Rattle.macroexpand.specs.Going.{Comes, HoldsMentioned, IsGoing, RefusesAll};
ghost use Rattle.file_expansion.specs.Laws.{IsSoundWorld, IsThere};
ghost use Rattle.macroexpand.specs.Preludes.{IsFirst, stock_of};
ghost use Rattle.macroexpand.specs.Small.{IsSmall};

use crate::fault::ExpandFault;
use crate::preludes::{MOST_CHAIN, empty_scope, expand_prelude, file_place};
use crate::small::grown_are_small;
use crate::tops::Growing;
use core_form::{Program, Tops};
use declarations::FIRST_POLICY;
use form_expander::{Expander, Fault, World};
use lisp_base::{Heap, Place, SymTab};
use lisp_forms::place_of_form;
use lisp_reader::{Forms, TopRead};
use program_size::{PreludeFunction, Sizes};
use std::alloc::{AllocError, Global};

/// The place of the first form, or the start of the file.
fn first_place(heap: &Heap, forms: &[TopRead]) -> Place
    ensures { result ≡ plain.first_place heap.now forms.now }
{
    match forms.first() {
        Some(read) => place_of_form(heap, read.form).unwrap_or(file_place(read.offset)),
        None => file_place(0),
    }
}

/// What is known before a file.
fn first_world(alloc: Global, symbols: SymTab, heap: Heap) -> World
    ensures first { IsFirst result }
    ensures stock { stock_of result ≡ stock symbols heap }
{
    World {
        symbols,
        heap,
        specials: Vec::new(alloc),
        declaimed: Vec::new(alloc),
        policy: FIRST_POLICY,
        next: 1,
        functions: 0,
        nodes: 0,
    }
}

impl Growing {
    /// The trees of the forms of a file, behind those so far.
    fn expand_forms(
        &mut self,
        expander: &mut Expander,
        alloc: Global,
        forms: &[TopRead],
    ) -> Result<(), Fault>
        requires going { IsGoing self.old (world_of expander.old.world) }
        requires there { All (λ f. IsThere (world_of expander.old.world) f.form) forms.now }
        ensures comes { OnOk result (Comes self.old (world_of expander.old.world) (map plain.file_form forms.now) self.new (world_of expander.new.world) []) }
        ensures refused { IfErr result (RefusesAll self.old (world_of expander.old.world) (map plain.file_form forms.now)) }
        ensures going { OnOk result (IsGoing self.new (world_of expander.new.world)) }
        ensures prelude { OnOk result (self.new.prelude ≡ self.old.prelude) }
        ensures keeps { Keeps expander.old.world expander.new.world }
    {
        for read in forms {
            expander.scope = empty_scope(alloc, file_place(read.offset), false);
            self.expand(expander, alloc, false, MOST_CHAIN, read.form)?;
        }
        Ok(())
    }
}

/// The trees of the forms of a file, beside the functions of the prelude.
fn expand_all(expander: &mut Expander, alloc: Global, forms: &[TopRead]) -> Result<Growing, Fault>
    requires fresh { IsFirst expander.old.world }
    requires begins { IsSoundWorld (world_of expander.old.world) }
    requires given { AreGiven forms.now (stock_of expander.old.world) }
    ensures answered { IfOk result (λ grown. Answered forms.now (stock_of expander.old.world) grown (world_of expander.new.world)) }
    ensures going { IfOk result (λ grown. IsGoing grown (world_of expander.new.world)) }
    ensures refused { IfErr result (RefusesFile forms.now (stock_of expander.old.world)) }
    ensures keeps { Keeps expander.old.world expander.new.world }
{
    let first = first_place(&expander.world.heap, forms);
    let prelude = expand_prelude(expander, alloc, first)?;
    expander.world.symbols.restart();
    let mut grown = Growing {
        prelude,
        sizes: Sizes::new(alloc),
        forms: Vec::new(alloc),
    };
    grown.expand_forms(expander, alloc, forms)?;
    Ok(grown)
}

/// The form of a function behind others, where the function is mentioned.
fn hold(held: &mut Tops, is_mentioned: bool, function: PreludeFunction) -> Result<(), AllocError>
    ensures { OnOk result (held.new.items ≡ (if is_mentioned then held.old.items ++ function.form ∷ [] else held.old.items)) }
{
    if is_mentioned {
        held.push(function.form)?;
    }
    Ok(())
}

/// The functions of the prelude that a program of these sizes mentions.
fn hold_mentioned(
    alloc: Global,
    sizes: &Sizes,
    prelude: Vec<PreludeFunction>,
) -> Result<Tops, AllocError>
    ensures { IfOk result (λ held. HoldsMentioned sizes.now prelude.items held.items) }
{
    let mut held = Vec::new(alloc);
    for function in prelude {
        let is_mentioned = sizes.mentions(function.name);
        hold(&mut held, is_mentioned, function)?;
    }
    Ok(held)
}

/// The program that the forms of a file expand to, with the functions of the prelude that it
/// mentions. All that the forms reach is to be data of the language in this heap, with symbols of
/// this table.
///
/// # Errors
/// The first refusal in the order of expansion, each form before its parts and the prelude before
/// all; want of memory.
pub fn expand_file(
    alloc: Global,
    forms: Forms,
    symbols: SymTab,
    heap: Heap,
) -> Result<Program, ExpandFault>
    requires { AreGiven forms.items (stock symbols heap) }
    ensures program { IfOk result (IsProgram forms.items (stock symbols heap)) }
    ensures small { IfOk result (λ p. IsSmall (meant p)) }
    ensures refused { IfErr result (Refuses forms.items (stock symbols heap)) }
{
    grown_are_small();
    symbols.begins_with_names();
    let world = first_world(alloc, symbols, heap);
    let scope = empty_scope(alloc, file_place(0), false);
    let mut expander = Expander { world, scope };
    let grown = match expand_all(&mut expander, alloc, &forms) {
        Ok(grown) => grown,
        Err(Fault::Refused { kind, place }) => {
            return Err(ExpandFault::Refused {
                kind,
                place,
                symbols: expander.world.symbols,
            });
        }
        Err(Fault::Memory) => return Err(ExpandFault::Memory),
    };
    let Growing {
        prelude,
        sizes,
        forms,
    } = grown;
    let Ok(held) = hold_mentioned(alloc, &sizes, prelude) else {
        return Err(ExpandFault::Memory);
    };
    let World { symbols, heap, .. } = expander.world;
    symbols.begins_with_names();
    Ok(Program::new(held, forms, heap, symbols))
}
