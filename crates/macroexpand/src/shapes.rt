//! Forms at the top as they are read: PROGN and LOCALLY have parts that are forms at the top.

ghost use Rattle.std.specs.Prelude.{◌≡◌, ◌<◌, ◌||◌, not, IfOk, OnOk};
ghost use Rattle.lisp_base.specs.Membership.{is_symbol_number};
ghost use Rattle.form_expander.specs.Keeping.{Keeps};
ghost use Rattle.form_expander.specs.Extending.{Extends};
ghost use Rattle.form_expander.specs.Outcomes.{Follows};
ghost use Rattle.form_expander.specs.Reading.{scope_of, world_of};
ghost use Rattle.lisp_forms.specs.Conses.{elements as elements_at};
ghost use Rattle.expansion.specs.Scopes.{Scope as AnyScope};
ghost use Rattle.expansion.specs.Steps.{World as AnyWorld, expect};
ghost use Rattle.macroexpand.specs.Going.{IsMeasured, IsShorter, IsSoundShape, IsSoundTop, at_top_from, parts_from, shape_from};
ghost use Rattle.file_expansion.specs.Laws.{IsSoundWorld, IsThere, IsTopScope};
ghost use Rattle.file_expansion.specs.Tops as plain;

use crate::trees::{Measured, top_tree};
use declarations::Policy;
use expansion::ExpandKind;
use file_expansion::{bodies_are_sound, trees_are_lawful};
use form_expander::{Contents, Expander, Fault, Scope, World, contents_of};
use lisp_base::base_symbols::{LOCALLY, PROGN};
use lisp_base::{SymId, Val, Vals};
use lisp_forms::{cons_of, elements};
use std::alloc::Global;

/// How a form at the top is read.
#[derive(Drop)]
pub(crate) enum Shape {
    /// The parts of a PROGN.
    Progn(Vals),
    /// The declarations and the parts of a LOCALLY.
    Locally(Contents),
    /// Any other form.
    Other,
}

/// What a form at the top gives.
#[derive(Drop)]
pub(crate) enum AtTop {
    /// Its tree.
    Tree(Measured),
    /// Forms at the top in its place.
    Parts(Parts),
}

/// Forms at the top in the place of one, in one scope.
#[derive(Drop)]
pub(crate) struct Parts {
    /// Whether a LOCALLY around them states a policy of its own.
    pub(crate) has_policy: bool,
    /// How many forms without a node may still follow.
    pub(crate) chain: u32,
    pub(crate) forms: Vals,
}

/// Whether a value is this symbol.
pub(crate) fn is_named(value: Val, name: SymId) -> bool
    ensures { result ≡ is_symbol_number name.0 value }
{
    match value {
        Val::Sym(symbol) => symbol.0 == name.0,
        Val::Int(_) | Val::Char(_) | Val::Ref(_) => false,
    }
}

/// The elements of a list, which is to be a proper one.
#[tactic(auto, using(crate::proofs::Steps::expect_given, crate::proofs::Steps::expect_refused))]
fn elements_of(world: &World, alloc: Global, scope: &Scope, list: Val) -> Result<Vals, Fault>
    ensures { Follows (λ found. found.items) (expect (scope_of scope.now) (elements_at world.now.heap list) (world_of world.now)) result (world_of world.now) }
{
    match elements(alloc, &world.heap, list)? {
        Some(found) => Ok(found),
        None => Err(Fault::Refused {
            kind: ExpandKind::BadForm,
            place: scope.place,
        }),
    }
}

/// How a form at the top is read.
///
/// # Errors
/// `BadForm` where the parts of a PROGN or LOCALLY are no proper list, the refusal of the
/// declarations of a LOCALLY, and want of memory.
fn shape_of(world: &World, alloc: Global, scope: &Scope, form: Val) -> Result<Shape, Fault>
    requires world { IsSoundWorld (world_of world.now) }
    requires there { IsThere (world_of world.now) form }
    ensures follows { Follows shape_from (plain.shape_at (scope_of scope.now) form (world_of world.now)) result (world_of world.now) }
    ensures sound { IfOk result (IsSoundShape (world_of world.now)) }
{
    bodies_are_sound();
    let Some((operator, arguments)) = cons_of(&world.heap, form) else {
        return Ok(Shape::Other);
    };
    if is_named(operator, PROGN) {
        let forms = elements_of(world, alloc, scope, arguments)?;
        return Ok(Shape::Progn(forms));
    }
    if is_named(operator, LOCALLY) {
        let body = elements_of(world, alloc, scope, arguments)?;
        let contents = contents_of(world, alloc, scope, &body)?;
        return Ok(Shape::Locally(contents));
    }
    Ok(Shape::Other)
}

/// Parts, where more forms without a node may follow.
///
/// # Errors
/// `TooNested` where none may.
fn parts_within(scope: &Scope, has_policy: bool, chain: u32, forms: Vals) -> Result<Parts, Fault>
    ensures follows { (within : AnyScope) (w : AnyWorld) → Follows (parts_from within) (plain.parts_within (scope_of scope.now) within has_policy chain forms.items w) result w }
    ensures shorter { IfOk result (λ parts. parts.chain < chain) }
    ensures forms { IfOk result (λ parts. parts.forms ≡ forms) }
{
    match chain.checked_sub(1) {
        Some(chain) => Ok(Parts {
            has_policy,
            chain,
            forms,
        }),
        None => Err(Fault::Refused {
            kind: ExpandKind::TooNested,
            place: scope.place,
        }),
    }
}

/// Whether two policies ask the same.
fn same_policy(a: Policy, b: Policy) -> bool
    ensures { result ≡ plain.same_policy a b }
{
    a.speed == b.speed && a.safety == b.safety
}

/// Whether parts stand in a LOCALLY that states a policy of its own.
fn states_policy(has_policy: bool, declared: Policy, around: Policy) -> bool
    ensures { result ≡ (has_policy || not (plain.same_policy declared around)) }
{
    has_policy || !same_policy(declared, around)
}

/// What a form at the top gives, by the way in which it is read. The scope becomes that of the
/// parts.
fn shaped(
    expander: &mut Expander,
    alloc: Global,
    has_policy: bool,
    chain: u32,
    form: Val,
    shape: Shape,
) -> Result<AtTop, Fault>
    requires world { IsSoundWorld (world_of expander.old.world) }
    requires scope { IsTopScope (world_of expander.old.world) (scope_of expander.old.scope) }
    requires there { IsThere (world_of expander.old.world) form }
    requires shape { IsSoundShape (world_of expander.old.world) shape }
    ensures follows { Follows (at_top_from (scope_of expander.new.scope)) (plain.shaped (scope_of expander.old.scope) has_policy chain form (shape_from shape) (world_of expander.old.world)) result (world_of expander.new.world) }
    ensures measured { IfOk result IsMeasured }
    ensures shorter { IfOk result (IsShorter chain) }
    ensures extends { OnOk result (Extends (scope_of expander.old.scope) (scope_of expander.new.scope)) }
    ensures sound { IfOk result (IsSoundTop (world_of expander.old.world) (world_of expander.new.world) (scope_of expander.new.scope)) }
    ensures keeps { Keeps expander.old.world expander.new.world }
{
    trees_are_lawful();
    match shape {
        Shape::Other => {
            let tree = top_tree(expander, alloc, chain, form)?;
            Ok(AtTop::Tree(tree))
        }
        Shape::Progn(forms) => {
            let parts = parts_within(&expander.scope, has_policy, chain, forms)?;
            Ok(AtTop::Parts(parts))
        }
        Shape::Locally(contents) => {
            let Contents { declared, forms } = contents;
            let has_policy = states_policy(has_policy, declared.policy, expander.scope.policy);
            let parts = parts_within(&expander.scope, has_policy, chain, forms)?;
            expander.scope.add_declared(alloc, &declared)?;
            Ok(AtTop::Parts(parts))
        }
    }
}

/// Goes to a form at the top: its place, and the policy of the file so far, unless a LOCALLY around
/// it states another.
#[tactic(auto, unfolding(expansion::specs::Scopes::at_form))]
fn enter(scope: &mut Scope, world: &World, has_policy: bool, form: Val)
    ensures { scope_of scope.new ≡ plain.own_scope (plain.pending (scope_of scope.old) has_policy 0 form) (world_of world.now) }
{
    if !has_policy {
        scope.policy = world.policy;
    }
    scope.enter_form(&world.heap, form);
}

/// What a form at the top gives. The scope becomes that of the form, or of the parts in its place.
///
/// # Errors
/// The form's first refusal; want of memory.
pub(crate) fn at_top(
    expander: &mut Expander,
    alloc: Global,
    has_policy: bool,
    chain: u32,
    form: Val,
) -> Result<AtTop, Fault>
    requires world { IsSoundWorld (world_of expander.old.world) }
    requires scope { IsTopScope (world_of expander.old.world) (scope_of expander.old.scope) }
    requires there { IsThere (world_of expander.old.world) form }
    ensures follows { Follows (at_top_from (scope_of expander.new.scope)) (plain.at_top (plain.pending (scope_of expander.old.scope) has_policy chain form) (world_of expander.old.world)) result (world_of expander.new.world) }
    ensures measured { IfOk result IsMeasured }
    ensures shorter { IfOk result (IsShorter chain) }
    ensures extends { OnOk result (Extends (scope_of expander.old.scope) (scope_of expander.new.scope)) }
    ensures sound { IfOk result (IsSoundTop (world_of expander.old.world) (world_of expander.new.world) (scope_of expander.new.scope)) }
    ensures keeps { Keeps expander.old.world expander.new.world }
{
    enter(&mut expander.scope, &expander.world, has_policy, form);
    let shape = shape_of(&expander.world, alloc, &expander.scope, form)?;
    shaped(expander, alloc, has_policy, chain, form, shape)
}
