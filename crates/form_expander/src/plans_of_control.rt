//! What is to be done with constants, tests, types, blocks, tags and exits.

ghost use Rattle.std.specs.Prelude.{◌≡◌, IfOk, length, nat_le};
ghost use Rattle.lisp_base.specs.Reading.{spec_of};
ghost use Rattle.core_form.specs.Primitives.{most_values};
ghost use Rattle.expansion.specs.Forms as plain;
ghost use Rattle.expansion.specs.Scopes.{Scope as ScopeOf};
ghost use Rattle.expansion.specs.Sketches as sketches;
ghost use Rattle.expansion.specs.Steps.{World as WorldOf, and_then, expect};
ghost use Rattle.form_expander.specs.Outcomes.{Follows};
ghost use Rattle.form_expander.specs.Reading.{plan_from, scope_of, sketch_of, world_of};

use crate::bodies::refusal;
use crate::fault::Fault;
use crate::making::{block, body, choice, constant, forms, many, one, two};
use crate::scope::Scope;
use crate::sketch::{Plan, Sketch, Unary};
use crate::symbols::{is_symbol, is_tag, symbol_in};
use crate::world::World;
use expansion::{Binary, ExpandKind, Leaf, Many};
use lisp_base::base_symbols::QUOTE;
use lisp_base::{Heap, NIL, TypeSpec, Val};
use lisp_forms::{cons_of, elements};
use std::alloc::{AllocError, Global};
use type_spec::{TypeFault, parse_type};

/// `QUOTE`.
#[tactic(auto, unfolding(crate::specs::Opened::plans))]
pub(crate) fn quote_plan(scope: &Scope, arguments: &[Val]) -> Result<Plan, Fault>
    ensures { (w : WorldOf) → Follows plan_from (plain.quote_plan (scope_of scope.now) arguments.now w) result w }
{
    match arguments {
        [value] => Ok(Plan::Makes(constant(*value))),
        [] | [_, _, ..] => Err(refusal(ExpandKind::BadForm, scope)),
    }
}

/// `IF`.
#[tactic(auto, unfolding(crate::specs::Opened::plans))]
pub(crate) fn if_plan(alloc: Global, scope: &Scope, arguments: &[Val]) -> Result<Plan, Fault>
    ensures { (w : WorldOf) → Follows plan_from (plain.if_plan (scope_of scope.now) arguments.now w) result w }
{
    match arguments {
        [test, yes] => {
            let nothing = constant(Val::Sym(NIL));
            let made = choice(alloc, Sketch::Form(*test), Sketch::Form(*yes), nothing)?;
            Ok(Plan::Makes(made))
        }
        [test, yes, no] => {
            let no = Sketch::Form(*no);
            let made = choice(alloc, Sketch::Form(*test), Sketch::Form(*yes), no)?;
            Ok(Plan::Makes(made))
        }
        [] | [_] | [_, _, _, _, ..] => Err(refusal(ExpandKind::BadForm, scope)),
    }
}

/// `PROGN`: one form stands for itself.
#[tactic(auto, unfolding(crate::specs::Opened::plans))]
pub(crate) fn progn_plan(alloc: Global, arguments: &[Val]) -> Result<Plan, Fault>
    ensures { (sc : ScopeOf) → (w : WorldOf) → Follows plan_from (plain.progn_plan sc arguments.now w) result w }
{
    match arguments {
        [form] => Ok(Plan::Instead(*form)),
        [] | [_, _, ..] => Ok(Plan::Makes(body(alloc, arguments)?)),
    }
}

/// A type specifier.
#[tactic(auto, unfolding(crate::specs::Opened::plans))]
fn type_in(world: &World, alloc: Global, scope: &Scope, form: Val) -> Result<TypeSpec, Fault>
    ensures { Follows spec_of (plain.type_in (scope_of scope.now) form (world_of world.now)) result (world_of world.now) }
{
    match parse_type(alloc, form, &world.symbols, &world.heap) {
        Ok(spec) => Ok(spec),
        Err(TypeFault::BadType) => Err(refusal(ExpandKind::BadType, scope)),
        Err(TypeFault::Memory) => Err(Fault::Memory),
    }
}

/// `THE`.
#[tactic(auto, unfolding(crate::specs::Opened::plans))]
pub(crate) fn the_plan(
    world: &World,
    alloc: Global,
    scope: &Scope,
    arguments: &[Val],
) -> Result<Plan, Fault>
    ensures { Follows plan_from (plain.the_plan (scope_of scope.now) arguments.now (world_of world.now)) result (world_of world.now) }
{
    match arguments {
        [expected, form] => {
            let expected = type_in(world, alloc, scope, *expected)?;
            let made = one(alloc, Unary::Checking(expected), Sketch::Form(*form))?;
            Ok(Plan::Makes(made))
        }
        [] | [_] | [_, _, _, ..] => Err(refusal(ExpandKind::BadForm, scope)),
    }
}

/// The form in a list of `QUOTE` and this form.
fn quoted_in(alloc: Global, heap: &Heap, form: Val) -> Result<Option<Val>, AllocError>
    ensures { IfOk result (λ found. found ≡ plain.quoted_in heap.now form) }
{
    let Some(parts) = elements(alloc, heap, form)? else {
        return Ok(None);
    };
    match parts.as_slice() {
        [first, second] => {
            if is_symbol(QUOTE, *first) {
                Ok(Some(*second))
            } else {
                Ok(None)
            }
        }
        [] | [_] | [_, _, _, ..] => Ok(None),
    }
}

/// `TYPEP`, where the type is a constant.
#[tactic(auto, unfolding(crate::specs::Opened::plans))]
pub(crate) fn typep_plan(
    world: &World,
    alloc: Global,
    scope: &Scope,
    arguments: &[Val],
) -> Result<Plan, Fault>
    ensures { Follows plan_from (plain.typep_plan (scope_of scope.now) arguments.now (world_of world.now)) result (world_of world.now) }
{
    match arguments {
        [form, quoted] => {
            let Some(tested) = quoted_in(alloc, &world.heap, *quoted)? else {
                return Err(refusal(ExpandKind::BadForm, scope));
            };
            let tested = type_in(world, alloc, scope, tested)?;
            let made = one(alloc, Unary::Testing(tested), Sketch::Form(*form))?;
            Ok(Plan::Makes(made))
        }
        [] | [_] | [_, _, _, ..] => Err(refusal(ExpandKind::BadForm, scope)),
    }
}

/// `BLOCK`.
#[tactic(auto, unfolding(crate::specs::Opened::plans))]
pub(crate) fn block_plan(alloc: Global, scope: &Scope, arguments: &[Val]) -> Result<Plan, Fault>
    ensures { (w : WorldOf) → Follows plan_from (plain.block_plan (scope_of scope.now) arguments.now w) result w }
{
    let [name, forms @ ..] = arguments else {
        return Err(refusal(ExpandKind::BadForm, scope));
    };
    let Some(name) = symbol_in(*name) else {
        return Err(refusal(ExpandKind::BadForm, scope));
    };
    let body = body(alloc, forms)?;
    Ok(Plan::Makes(block(alloc, name, body)?))
}

/// Leaves the block of a name with the value of a form.
#[tactic(auto, unfolding(crate::specs::Opened::plans))]
fn return_plan(alloc: Global, scope: &Scope, name: Val, value: Val) -> Result<Plan, Fault>
    ensures { (w : WorldOf) → Follows plan_from (and_then (expect (scope_of scope.now) (plain.symbol_in name) w) (λ s. plain.return_plan (scope_of scope.now) s value)) result w }
{
    let Some(name) = symbol_in(name) else {
        return Err(refusal(ExpandKind::BadForm, scope));
    };
    let Some(number) = scope.block_at(name) else {
        return Err(refusal(ExpandKind::BadForm, scope));
    };
    let made = one(alloc, Unary::Returning(number), Sketch::Form(value))?;
    Ok(Plan::Makes(made))
}

/// `RETURN-FROM`.
#[tactic(auto, unfolding(crate::specs::Opened::plans))]
pub(crate) fn return_from_plan(
    alloc: Global,
    scope: &Scope,
    arguments: &[Val],
) -> Result<Plan, Fault>
    ensures { (w : WorldOf) → Follows plan_from (plain.return_from_plan (scope_of scope.now) arguments.now w) result w }
{
    match arguments {
        [name] => return_plan(alloc, scope, *name, Val::Sym(NIL)),
        [name, value] => return_plan(alloc, scope, *name, *value),
        [] | [_, _, _, ..] => Err(refusal(ExpandKind::BadForm, scope)),
    }
}

/// Whether each of these is a tag or a list that is no atom.
fn are_items(heap: &Heap, values: &[Val]) -> bool
    ensures { result ≡ plain.are_items heap.now values.now }
{
    for value in values {
        if !is_tag(*value) && cons_of(heap, *value).is_none() {
            return false;
        }
    }
    true
}

/// `TAGBODY`.
#[tactic(auto, unfolding(crate::specs::Opened::plans))]
pub(crate) fn tagbody_plan(
    world: &World,
    alloc: Global,
    scope: &Scope,
    arguments: &[Val],
) -> Result<Plan, Fault>
    ensures { Follows plan_from (plain.tagbody_plan (scope_of scope.now) arguments.now (world_of world.now)) result (world_of world.now) }
{
    if !are_items(&world.heap, arguments) {
        return Err(refusal(ExpandKind::BadForm, scope));
    }
    let items = Vec::from_slice(alloc, arguments)?;
    Ok(Plan::Makes(Sketch::Tagbody(items)))
}

/// `GO`.
#[tactic(auto, unfolding(crate::specs::Opened::plans))]
pub(crate) fn go_plan(scope: &Scope, arguments: &[Val]) -> Result<Plan, Fault>
    ensures { (w : WorldOf) → Follows plan_from (plain.go_plan (scope_of scope.now) arguments.now w) result w }
{
    match arguments {
        [tag] => match scope.tag_at(*tag) {
            Some(number) => Ok(Plan::Makes(Sketch::Leaf(Leaf::GoTo(number)))),
            None => Err(refusal(ExpandKind::BadForm, scope)),
        },
        [] | [_, _, ..] => Err(refusal(ExpandKind::BadForm, scope)),
    }
}

/// A node of a form and of the forms after it.
fn form_and_body(
    alloc: Global,
    node: Binary,
    first: Val,
    others: &[Val],
) -> Result<Plan, AllocError>
    ensures { IfOk result (λ plan. plan_from plan ≡ sketches.makes (sketches.two node (sketches.form first) (sketches.body others.now))) }
{
    let others = body(alloc, others)?;
    Ok(Plan::Makes(two(alloc, node, Sketch::Form(first), others)?))
}

/// `CATCH`.
#[tactic(auto, unfolding(crate::specs::Opened::plans))]
pub(crate) fn catch_plan(alloc: Global, scope: &Scope, arguments: &[Val]) -> Result<Plan, Fault>
    ensures { (w : WorldOf) → Follows plan_from (plain.catch_plan (scope_of scope.now) arguments.now w) result w }
{
    match arguments {
        [tag, forms @ ..] => Ok(form_and_body(alloc, Binary::Catching, *tag, forms)?),
        [] => Err(refusal(ExpandKind::BadForm, scope)),
    }
}

/// `THROW`.
#[tactic(auto, unfolding(crate::specs::Opened::plans))]
pub(crate) fn throw_plan(alloc: Global, scope: &Scope, arguments: &[Val]) -> Result<Plan, Fault>
    ensures { (w : WorldOf) → Follows plan_from (plain.throw_plan (scope_of scope.now) arguments.now w) result w }
{
    match arguments {
        [tag, value] => {
            let value = Sketch::Form(*value);
            let made = two(alloc, Binary::Throwing, Sketch::Form(*tag), value)?;
            Ok(Plan::Makes(made))
        }
        [] | [_] | [_, _, _, ..] => Err(refusal(ExpandKind::BadForm, scope)),
    }
}

/// `UNWIND-PROTECT`.
#[tactic(auto, unfolding(crate::specs::Opened::plans))]
pub(crate) fn unwind_plan(alloc: Global, scope: &Scope, arguments: &[Val]) -> Result<Plan, Fault>
    ensures { (w : WorldOf) → Follows plan_from (plain.unwind_plan (scope_of scope.now) arguments.now w) result w }
{
    match arguments {
        [form, forms @ ..] => Ok(form_and_body(alloc, Binary::Unwinding, *form, forms)?),
        [] => Err(refusal(ExpandKind::BadForm, scope)),
    }
}

/// `MULTIPLE-VALUE-PROG1`.
#[tactic(auto, unfolding(crate::specs::Opened::plans))]
pub(crate) fn keeping_plan(alloc: Global, scope: &Scope, arguments: &[Val]) -> Result<Plan, Fault>
    ensures { (w : WorldOf) → Follows plan_from (plain.keeping_plan (scope_of scope.now) arguments.now w) result w }
{
    match arguments {
        [form, forms @ ..] => Ok(form_and_body(alloc, Binary::KeepingValues, *form, forms)?),
        [] => Err(refusal(ExpandKind::BadForm, scope)),
    }
}

/// How many values there can be.
const MOST_VALUES: usize = 20;

/// Whether there can be so many values.
#[tactic(auto, unfolding(core_form::specs::Primitives::most_values))]
fn are_values(arguments: &[Val]) -> bool
    ensures { result ≡ nat_le (length arguments.now) most_values }
{
    arguments.len() <= MOST_VALUES
}

/// `VALUES`.
#[tactic(auto, unfolding(crate::specs::Opened::plans))]
pub(crate) fn values_plan(alloc: Global, scope: &Scope, arguments: &[Val]) -> Result<Plan, Fault>
    ensures { (w : WorldOf) → Follows plan_from (plain.values_plan (scope_of scope.now) arguments.now w) result w }
{
    if !are_values(arguments) {
        return Err(refusal(ExpandKind::BadForm, scope));
    }
    let parts = forms(alloc, arguments)?;
    Ok(Plan::Makes(many(Many::GivingValues, parts)))
}
