//! What stands around a form: its place, and what names mean there.

ghost use Rattle.std.specs.Prelude.{◌≡◌, ◌∷◌, ◌++◌, IfOk, OnOk, [], if◌then◌else◌, map};
ghost use Rattle.lisp_base.specs.Reading.{spec_of};
ghost use Rattle.lisp_base.specs.Sort.{same as same_single};
ghost use Rattle.expansion.specs.Scopes as plain;
ghost use Rattle.form_expander.specs.Reading.{check_of, scope_of};

use declarations::{Policy, copy_type};
use expansion::Target;
use lisp_base::{Place, Specs, SymId, TypeSpec, Val};
use std::alloc::{AllocError, Global};

/// A type that is declared of a variable, or the end of such declarations.
#[derive(Drop)]
pub enum Check {
    /// By the form that binds it: for each value that it is set to.
    OfBinding(Target, TypeSpec),
    /// By another form: for each value that it is set to, and each use.
    OfUses(Target, TypeSpec),
    /// A new binding of a symbol's value ends what was declared of it before.
    Rebound(SymId),
}

/// What stands around a form. Of each list the later ones are the inner ones.
#[derive(Drop)]
pub struct Scope {
    /// The place of a form without one of its own.
    pub place: Place,
    /// Whether all places are this one.
    pub is_fixed: bool,
    pub variables: Vec<(SymId, Target)>,
    pub checks: Vec<Check>,
    pub functions: Vec<(SymId, u32)>,
    pub blocks: Vec<(SymId, u32)>,
    pub tags: Vec<(Val, u32)>,
    pub policy: Policy,
}

/// The last that stands at a name.
fn last_named<T: Copy>(entries: &[(SymId, T)], name: SymId) -> Option<T>
    ensures { result ≡ plain.second (plain.last_fit (plain.named name) entries.now) }
{
    let last = entries.iter().copied().fold(None, |found, entry| {
        if name.0 == entry.0.0 {
            Some(entry)
        } else {
            found
        }
    });
    last.map(|entry| entry.1)
}

/// Whether two values are one and the same.
fn same_value(a: Val, b: Val) -> bool
    ensures { result ≡ same_single a b }
{
    match (a, b) {
        (Val::Int(a), Val::Int(b)) => a == b,
        (Val::Char(a), Val::Char(b)) => a == b,
        (Val::Sym(a), Val::Sym(b)) => a.0 == b.0,
        (Val::Ref(a), Val::Ref(b)) => a.0 == b.0,
        _ => false,
    }
}

/// The last number of a tag.
fn number_of_tag(entries: &[(Val, u32)], tag: Val) -> Option<u32>
    ensures { result ≡ plain.second (plain.last_fit (λ p. same_single tag p.0) entries.now) }
{
    let last = entries.iter().copied().fold(None, |found, entry| {
        if same_value(tag, entry.0) {
            Some(entry)
        } else {
            found
        }
    });
    last.map(|entry| entry.1)
}

/// Whether two names mean the same variable.
fn same_target(a: Target, b: Target) -> bool
    ensures { result ≡ plain.same_target a b }
{
    match (a, b) {
        (Target::Lexical(a), Target::Lexical(b)) => a == b,
        (Target::Global(a), Target::Global(b)) => a.0 == b.0,
        (Target::Lexical(_), Target::Global(_)) | (Target::Global(_), Target::Lexical(_)) => false,
    }
}

/// Whether a new binding of a symbol's value ends what was declared of a variable.
fn ends(target: Target, rebound: SymId) -> bool
    ensures { result ≡ plain.ends target rebound }
{
    match target {
        Target::Lexical(_) => false,
        Target::Global(symbol) => symbol.0 == rebound.0,
    }
}

/// Adds a copy of a type, where it is declared of this variable.
fn add_type(
    alloc: Global,
    target: Target,
    of: Target,
    spec: &TypeSpec,
    types: &mut Specs,
) -> Result<(), AllocError>
    ensures { OnOk result (map spec_of types.new.items ≡ (if plain.same_target target of then map spec_of types.old.items ++ spec_of spec.now ∷ [] else map spec_of types.old.items)) }
{
    if same_target(target, of) {
        types.push(copy_type(alloc, spec)?)?;
    }
    Ok(())
}

/// The types for each value that a variable is set to, with one more declaration.
fn and_set(
    alloc: Global,
    target: Target,
    types: &mut Specs,
    check: &Check,
) -> Result<(), AllocError>
    ensures { OnOk result (map spec_of types.new.items ≡ plain.and_set target (map spec_of types.old.items) (check_of check.now)) }
{
    match check {
        Check::OfBinding(of, spec) | Check::OfUses(of, spec) => {
            add_type(alloc, target, *of, spec, types)
        }
        Check::Rebound(symbol) => {
            if ends(target, *symbol) {
                types.clear();
            }
            Ok(())
        }
    }
}

/// The types for each use of a variable, with one more declaration.
fn and_used(
    alloc: Global,
    target: Target,
    types: &mut Specs,
    check: &Check,
) -> Result<(), AllocError>
    ensures { OnOk result (map spec_of types.new.items ≡ plain.and_used target (map spec_of types.old.items) (check_of check.now)) }
{
    match check {
        Check::OfBinding(_, _) => Ok(()),
        Check::OfUses(of, spec) => add_type(alloc, target, *of, spec, types),
        Check::Rebound(symbol) => {
            if ends(target, *symbol) {
                types.clear();
            }
            Ok(())
        }
    }
}

impl Scope {
    /// The number of the local function of this name.
    #[tactic(auto, unfolding(expansion::specs::Scopes::function_at))]
    pub(crate) fn function_at(&self, name: SymId) -> Option<u32>
        ensures { result ≡ plain.function_at (scope_of self.now) name }
    {
        last_named(&self.functions, name)
    }

    /// The number of the block of this name.
    #[tactic(auto, unfolding(expansion::specs::Scopes::block_at))]
    pub(crate) fn block_at(&self, name: SymId) -> Option<u32>
        ensures { result ≡ plain.block_at (scope_of self.now) name }
    {
        last_named(&self.blocks, name)
    }

    /// The number of a tag, which is a symbol or an integer.
    #[tactic(auto, unfolding(expansion::specs::Scopes::tag_at))]
    pub(crate) fn tag_at(&self, tag: Val) -> Option<u32>
        ensures { result ≡ plain.tag_at (scope_of self.now) tag }
    {
        number_of_tag(&self.tags, tag)
    }

    /// What a variable's name means: one that is bound nowhere is the value of its symbol.
    #[tactic(auto, unfolding(expansion::specs::Scopes::variable_at))]
    pub(crate) fn variable_at(&self, name: SymId) -> Target
        ensures { result ≡ plain.variable_at (scope_of self.now) name }
    {
        last_named(&self.variables, name).unwrap_or(Target::Global(name))
    }

    /// Copies of the types that are declared of a variable for each value that it is set to.
    ///
    /// # Errors
    /// Want of memory alone.
    #[tactic(auto, unfolding(expansion::specs::Scopes::types_set))]
    pub(crate) fn types_set(&self, alloc: Global, target: Target) -> Result<Specs, AllocError>
        ensures { IfOk result (λ types. map spec_of types.items ≡ plain.types_set (scope_of self.now) target) }
    {
        let mut types = Vec::new(alloc);
        for check in &self.checks {
            and_set(alloc, target, &mut types, check)?;
        }
        Ok(types)
    }

    /// Copies of the types that are declared of a variable for each use.
    ///
    /// # Errors
    /// Want of memory alone.
    #[tactic(auto, unfolding(expansion::specs::Scopes::types_used))]
    pub(crate) fn types_used(&self, alloc: Global, target: Target) -> Result<Specs, AllocError>
        ensures { IfOk result (λ types. map spec_of types.items ≡ plain.types_used (scope_of self.now) target) }
    {
        let mut types = Vec::new(alloc);
        for check in &self.checks {
            and_used(alloc, target, &mut types, check)?;
        }
        Ok(types)
    }
}
