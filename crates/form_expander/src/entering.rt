//! Scopes that grow where a form is entered, and are as before where it is left.

ghost use Rattle.std.specs.Prelude.{◌≡◌, ◌++◌, OnOk, fold, map};
ghost use Rattle.lisp_base.specs.Reading.{spec_of};
ghost use Rattle.lisp_forms.specs.Conses.{place_at};
ghost use Rattle.core_form.specs.Reading.{parameter_of};
ghost use Rattle.declarations.specs.Declarations.{declared_of, typed_of};
ghost use Rattle.expansion.specs.Expanding.{checks_for, target_of as target_meant, with_bound};
ghost use Rattle.expansion.specs.Scopes as plain;
ghost use Rattle.form_expander.specs.Marks.{cut, mark_of, with_checks};
ghost use Rattle.form_expander.specs.Reading.{binder_of, scope_of};

use crate::scope::{Check, Scope};
use crate::sketch::Binder;
use core_form::{Parameter, Variable};
use declarations::{Declared, Policy, Typed, copy_type};
use expansion::Target;
use lisp_base::{Heap, Place, SymId, TypeSpec, Val};
use lisp_forms::place_of_form;
use std::alloc::{AllocError, Global};

/// What a scope was when a form was entered.
#[derive(Clone, Copy)]
pub struct Mark {
    pub place: Place,
    pub policy: Policy,
    pub variables: usize,
    pub checks: usize,
    pub functions: usize,
    pub blocks: usize,
    pub tags: usize,
}

/// What the name of a variable that is bound means.
fn target_of(variable: Variable) -> Target
    ensures { result ≡ target_meant variable }
{
    match variable {
        Variable::Lexical { number, .. } => Target::Lexical(number),
        Variable::Special(name) => Target::Global(name),
    }
}

impl Scope {
    /// The place of a form: its own, where it has one, else that of the form around it.
    pub(crate) fn own_place(&self, heap: &Heap, form: Val) -> Place
        ensures { result ≡ plain.own_place (scope_of self.now) (place_at heap.now form) }
    {
        if self.is_fixed {
            return self.place;
        }
        place_of_form(heap, form).unwrap_or(self.place)
    }

    /// What the scope is, to be so again when a form is left.
    pub fn mark(&self) -> Mark
        ensures { result ≡ mark_of (scope_of self.now) }
    {
        Mark {
            place: self.place,
            policy: self.policy,
            variables: self.variables.len(),
            checks: self.checks.len(),
            functions: self.functions.len(),
            blocks: self.blocks.len(),
            tags: self.tags.len(),
        }
    }

    /// Takes away what was added after the mark.
    #[inline(never)]
    pub fn leave(&mut self, mark: Mark)
        ensures { scope_of self.new ≡ cut mark (scope_of self.old) }
    {
        self.place = mark.place;
        self.policy = mark.policy;
        self.variables.truncate(mark.variables);
        self.checks.truncate(mark.checks);
        self.functions.truncate(mark.functions);
        self.blocks.truncate(mark.blocks);
        self.tags.truncate(mark.tags);
    }

    /// Goes to the place of a form.
    #[tactic(auto, unfolding(expansion::specs::Scopes::at_form))]
    #[inline(never)]
    pub fn enter_form(&mut self, heap: &Heap, form: Val)
        ensures { scope_of self.new ≡ plain.at_form heap.now form (scope_of self.old) }
    {
        self.place = self.own_place(heap, form);
    }

    /// A local function of this name and number.
    ///
    /// # Errors
    /// Want of memory alone.
    #[inline(never)]
    pub(crate) fn add_function(&mut self, name: SymId, number: u32) -> Result<(), AllocError>
        ensures { OnOk result (scope_of self.new ≡ plain.with_function name number (scope_of self.old)) }
    {
        self.functions.push((name, number))?;
        Ok(())
    }

    /// A block of this name and number.
    ///
    /// # Errors
    /// Want of memory alone.
    #[inline(never)]
    pub(crate) fn add_block(&mut self, name: SymId, number: u32) -> Result<(), AllocError>
        ensures { OnOk result (scope_of self.new ≡ plain.with_block name number (scope_of self.old)) }
    {
        self.blocks.push((name, number))?;
        Ok(())
    }

    /// A tag of this number.
    ///
    /// # Errors
    /// Want of memory alone.
    pub(crate) fn add_tag(&mut self, tag: Val, number: u32) -> Result<(), AllocError>
        ensures { OnOk result (scope_of self.new ≡ plain.with_tag tag number (scope_of self.old)) }
    {
        self.tags.push((tag, number))?;
        Ok(())
    }

    /// A name that means the value of its symbol.
    fn add_special(&mut self, name: SymId) -> Result<(), AllocError>
        ensures { OnOk result (scope_of self.new ≡ plain.with_special (scope_of self.old) name) }
    {
        self.variables.push((name, Target::Global(name)))?;
        Ok(())
    }

    /// Names that mean the values of their symbols.
    fn add_specials(&mut self, names: &[SymId]) -> Result<(), AllocError>
        ensures { OnOk result (scope_of self.new ≡ fold plain.with_special (scope_of self.old) names.now) }
    {
        for name in names {
            self.add_special(*name)?;
        }
        Ok(())
    }

    /// A type that is declared of what a name means.
    fn add_type(&mut self, alloc: Global, typed: &Typed) -> Result<(), AllocError>
        ensures { OnOk result (scope_of self.new ≡ plain.with_type (scope_of self.old) (typed_of typed.now)) }
    {
        let target = self.variable_at(typed.variable);
        let spec = copy_type(alloc, &typed.spec)?;
        self.checks.push(Check::OfUses(target, spec))?;
        Ok(())
    }

    /// Types that are declared of what names mean.
    fn add_types(&mut self, alloc: Global, types: &[Typed]) -> Result<(), AllocError>
        ensures { OnOk result (scope_of self.new ≡ fold plain.with_type (scope_of self.old) (map typed_of types.now)) }
    {
        for typed in types {
            self.add_type(alloc, typed)?;
        }
        Ok(())
    }

    /// Declarations of variables that the form doesn't bind, and their policy.
    ///
    /// # Errors
    /// Want of memory alone.
    #[tactic(auto, unfolding(expansion::specs::Scopes::declared_in))]
    #[inline(never)]
    pub fn add_declared(&mut self, alloc: Global, declared: &Declared) -> Result<(), AllocError>
        ensures { OnOk result (scope_of self.new ≡ plain.declared_in (declared_of declared.now) (scope_of self.old)) }
    {
        self.add_specials(&declared.specials)?;
        self.add_types(alloc, &declared.types)?;
        self.policy = declared.policy;
        Ok(())
    }

    /// Types that the form which binds a variable declares of it.
    fn add_checks(
        &mut self,
        alloc: Global,
        target: Target,
        types: &[TypeSpec],
    ) -> Result<(), AllocError>
        ensures { OnOk result (scope_of self.new ≡ with_checks (checks_for target (map spec_of types.now)) (scope_of self.old)) }
    {
        for spec in types {
            let spec = copy_type(alloc, spec)?;
            self.checks.push(Check::OfBinding(target, spec))?;
        }
        Ok(())
    }

    /// A variable that the form binds, with its types.
    ///
    /// # Errors
    /// Want of memory alone.
    #[tactic(auto, unfolding(expansion::specs::Expanding::with_bound))]
    pub(crate) fn add_bound(
        &mut self,
        alloc: Global,
        binder: &Binder,
        parameter: &Parameter,
    ) -> Result<(), AllocError>
        ensures { OnOk result (scope_of self.new ≡ with_bound (scope_of self.old) (binder_of binder.now, parameter_of parameter.now)) }
    {
        let target = target_of(parameter.variable);
        self.variables.push((binder.variable, target))?;
        if let Target::Global(symbol) = target {
            self.checks.push(Check::Rebound(symbol))?;
        }
        self.add_checks(alloc, target, &binder.types)
    }
}
