//! What is to be done with variables, and with the forms that set and bind them.

ghost use Rattle.std.specs.Prelude.{◌≡◌, IfOk, map};
ghost use Rattle.std.specs.Option.{option_map};
ghost use Rattle.declarations.specs.Declarations.{declared_of};
ghost use Rattle.expansion.specs.Bindings.{contents_of as contents_at, let_in_order as let_in_order_of, let_sketch as let_sketch_of, names as names_of, others as others_of};
ghost use Rattle.expansion.specs.Forms as plain;
ghost use Rattle.expansion.specs.Sketches as sketches;
ghost use Rattle.expansion.specs.Steps.{and_then};
ghost use Rattle.form_expander.specs.Outcomes.{Follows};
ghost use Rattle.form_expander.specs.Reading.{plan_from, scope_of, sketch_of, world_of};

use crate::bindings::{let_in_order, let_sketch, names, others, types_of};
use crate::bodies::{Contents, contents_of, refusal};
use crate::fault::Fault;
use crate::making::{body, checked, constant, many, one, within};
use crate::parameter_lists::Pairs;
use crate::scope::Scope;
use crate::sketch::{Plan, Sketch, Unary};
use crate::symbols::variable_in;
use crate::world::World;
use expansion::{ExpandKind, Leaf, Many, Target};
use lisp_base::{Heap, NIL, SymId, SymTab, Val};
use lisp_forms::elements;
use std::alloc::{AllocError, Global};

/// The value of a variable.
fn reference(target: Target) -> Sketch
    ensures { sketch_of result ≡ plain.reference target }
{
    match target {
        Target::Lexical(number) => Sketch::Leaf(Leaf::LocalVariable(number)),
        Target::Global(symbol) => Sketch::Leaf(Leaf::GlobalVariable(symbol)),
    }
}

/// The value of a variable, with the checks of a use.
pub(crate) fn use_of(alloc: Global, scope: &Scope, target: Target) -> Result<Sketch, AllocError>
    ensures { IfOk result (λ made. sketch_of made ≡ plain.use_of (scope_of scope.now) target) }
{
    checked(alloc, scope.types_used(alloc, target)?, reference(target))
}

/// A variable that takes the value of a part.
fn setting(alloc: Global, target: Target, part: Sketch) -> Result<Sketch, AllocError>
    ensures { IfOk result (λ made. sketch_of made ≡ plain.setting target (sketch_of part)) }
{
    match target {
        Target::Lexical(number) => one(alloc, Unary::SettingLocal(number), part),
        Target::Global(symbol) => one(alloc, Unary::SettingGlobal(symbol), part),
    }
}

/// A variable of this name that takes the value of a part: first the checks that have been
/// proclaimed, then those of the scope.
#[tactic(auto, using(crate::proofs::Setting::checked_on))]
fn set_target(
    world: &World,
    alloc: Global,
    scope: &Scope,
    target: Target,
    name: SymId,
    part: Sketch,
) -> Result<Sketch, AllocError>
    ensures { IfOk result (λ made. sketch_of made ≡ plain.set_target (scope_of scope.now) target name (sketch_of part) (world_of world.now)) }
{
    let proclaimed = types_of(alloc, name, &world.declaimed)?;
    let part = checked(alloc, proclaimed, part)?;
    let part = checked(alloc, scope.types_set(alloc, target)?, part)?;
    setting(alloc, target, part)
}

/// The variable that a name means takes the value of a form, with its checks.
///
/// # Errors
/// Want of memory alone.
#[tactic(auto, unfolding(expansion::specs::Forms::set_variable))]
#[inline(never)]
pub(crate) fn set_variable(
    world: &World,
    alloc: Global,
    scope: &Scope,
    name: SymId,
    value: Val,
) -> Result<Sketch, AllocError>
    ensures { IfOk result (λ made. sketch_of made ≡ plain.set_variable (scope_of scope.now) name value (world_of world.now)) }
{
    let target = scope.variable_at(name);
    set_target(world, alloc, scope, target, name, Sketch::Form(value))
}

/// The value of a symbol becomes the value of a form, with its checks.
#[tactic(auto, unfolding(expansion::specs::Forms::global_set))]
pub(crate) fn global_set(
    world: &World,
    alloc: Global,
    scope: &Scope,
    name: SymId,
    value: Val,
) -> Result<Sketch, AllocError>
    ensures { IfOk result (λ made. sketch_of made ≡ plain.global_set (scope_of scope.now) name value (world_of world.now)) }
{
    let target = Target::Global(name);
    set_target(world, alloc, scope, target, name, Sketch::Form(value))
}

/// Pairs of variables and forms as assignments; None exactly where a form is missing or a variable
/// is none.
fn settings(
    alloc: Global,
    symbols: &SymTab,
    arguments: &[Val],
) -> Result<Option<Vec<Sketch>>, AllocError>
    ensures { IfOk result (λ found. option_map (λ parts. map sketch_of parts.items) found ≡ plain.settings symbols.now arguments.now) }
{
    let mut parts = Vec::new(alloc);
    let mut rest = arguments;
    while let [variable, value, others @ ..] = rest {
        let Some(variable) = variable_in(symbols, *variable) else {
            return Ok(None);
        };
        parts.push(Sketch::Assign(variable, *value))?;
        rest = others;
    }
    if !rest.is_empty() {
        return Ok(None);
    }
    Ok(Some(parts))
}

/// Parts one after another: of no part NIL, of one that part.
#[tactic(auto, using(crate::proofs::Setting::progn_many, crate::proofs::Setting::progn_last))]
fn progn(parts: Vec<Sketch>) -> Sketch
    ensures { sketch_of result ≡ sketches.progn (map sketch_of parts.items) }
{
    let mut parts = parts;
    if parts.len() > 1 {
        return many(Many::Sequence, parts);
    }
    match parts.pop() {
        Some(part) => part,
        None => constant(Val::Sym(NIL)),
    }
}

/// `SETQ`: pairs of variables and forms.
#[tactic(auto, unfolding(crate::specs::Opened::plans))]
pub(crate) fn setq_plan(
    world: &World,
    alloc: Global,
    scope: &Scope,
    arguments: &[Val],
) -> Result<Plan, Fault>
    ensures { Follows plan_from (plain.setq_plan (scope_of scope.now) arguments.now (world_of world.now)) result (world_of world.now) }
{
    match settings(alloc, &world.symbols, arguments)? {
        Some(parts) => Ok(Plan::Makes(progn(parts))),
        None => Err(refusal(ExpandKind::BadForm, scope)),
    }
}

/// The binding of these elements: `(V)` or `(V E)`.
fn binding_with(symbols: &SymTab, parts: &[Val]) -> Option<(SymId, Val)>
    ensures { result ≡ plain.binding_with symbols.now parts.now }
{
    match parts {
        [variable] => Some((variable_in(symbols, *variable)?, Val::Sym(NIL))),
        [variable, value] => Some((variable_in(symbols, *variable)?, *value)),
        [] | [_, _, _, ..] => None,
    }
}

/// The binding of a form: `V`, `(V)` or `(V E)`.
fn binding_at(
    alloc: Global,
    symbols: &SymTab,
    heap: &Heap,
    form: Val,
) -> Result<Option<(SymId, Val)>, AllocError>
    ensures { IfOk result (λ found. found ≡ plain.binding_at heap.now symbols.now form) }
{
    match form {
        Val::Sym(_) => Ok(binding_with(symbols, &[form])),
        Val::Ref(_) => match elements(alloc, heap, form)? {
            Some(parts) => Ok(binding_with(symbols, &parts)),
            None => Ok(None),
        },
        Val::Int(_) | Val::Char(_) => Ok(None),
    }
}

/// The bindings of several forms, where each is one.
fn bindings_among(
    alloc: Global,
    symbols: &SymTab,
    heap: &Heap,
    forms: &[Val],
) -> Result<Option<Pairs>, AllocError>
    ensures { IfOk result (λ found. option_map (λ bindings. bindings.items) found ≡ plain.bindings_among heap.now symbols.now forms.now) }
{
    let mut bindings = Vec::new(alloc);
    for form in forms {
        let Some(binding) = binding_at(alloc, symbols, heap, *form)? else {
            return Ok(None);
        };
        bindings.push(binding)?;
    }
    Ok(Some(bindings))
}

/// The bindings in a list.
#[tactic(auto, unfolding(expansion::specs::Forms::bindings_in))]
fn bindings_in(world: &World, alloc: Global, list: Val) -> Result<Option<Pairs>, AllocError>
    ensures { IfOk result (λ found. option_map (λ bindings. bindings.items) found ≡ plain.bindings_in (world_of world.now) list) }
{
    match elements(alloc, &world.heap, list)? {
        Some(forms) => bindings_among(alloc, &world.symbols, &world.heap, &forms),
        None => Ok(None),
    }
}

/// Bindings side by side round the forms of a body.
#[tactic(auto, unfolding(crate::specs::Opened::plans))]
fn let_round(
    world: &World,
    alloc: Global,
    scope: &Scope,
    bindings: &[(SymId, Val)],
    forms: &[Val],
) -> Result<Plan, Fault>
    ensures { Follows plan_from (and_then (contents_at (scope_of scope.now) forms.now (world_of world.now)) (λ c. plain.makes_node (let_sketch_of c.declared bindings.now (sketches.body c.forms)))) result (world_of world.now) }
{
    let contents = contents_of(world, alloc, scope, forms)?;
    let body = body(alloc, &contents.forms)?;
    let made = let_sketch(alloc, contents.declared, bindings, body)?;
    Ok(Plan::Makes(made))
}

/// `LET`.
#[tactic(auto, unfolding(crate::specs::Opened::plans))]
pub(crate) fn let_plan(
    world: &World,
    alloc: Global,
    scope: &Scope,
    arguments: &[Val],
) -> Result<Plan, Fault>
    ensures { Follows plan_from (plain.let_plan (scope_of scope.now) arguments.now (world_of world.now)) result (world_of world.now) }
{
    let [bindings, forms @ ..] = arguments else {
        return Err(refusal(ExpandKind::BadForm, scope));
    };
    match bindings_in(world, alloc, *bindings)? {
        Some(bindings) => let_round(world, alloc, scope, &bindings, forms),
        None => Err(refusal(ExpandKind::BadForm, scope)),
    }
}

/// The body of a `LET*` within the declarations of other variables than it binds, and its bindings
/// round it.
fn in_order(
    alloc: Global,
    contents: &Contents,
    bindings: &[(SymId, Val)],
) -> Result<Sketch, AllocError>
    ensures { IfOk result (λ made. sketch_of made ≡ let_in_order_of (declared_of contents.now.declared) bindings.now (sketches.within (others_of (names_of bindings.now) (declared_of contents.now.declared)) (sketches.body contents.now.forms.items))) }
{
    let bound = names(alloc, bindings)?;
    let body = body(alloc, &contents.forms)?;
    let body = within(alloc, others(alloc, &bound, &contents.declared)?, body)?;
    let_in_order(alloc, &contents.declared, bindings, body)
}

/// Bindings one inside the other round the forms of a body.
#[tactic(auto, unfolding(crate::specs::Opened::plans))]
fn let_in_order_round(
    world: &World,
    alloc: Global,
    scope: &Scope,
    bindings: &[(SymId, Val)],
    forms: &[Val],
) -> Result<Plan, Fault>
    ensures { Follows plan_from (and_then (contents_at (scope_of scope.now) forms.now (world_of world.now)) (λ c. plain.makes_node (let_in_order_of c.declared bindings.now (sketches.within (others_of (names_of bindings.now) c.declared) (sketches.body c.forms))))) result (world_of world.now) }
{
    let contents = contents_of(world, alloc, scope, forms)?;
    Ok(Plan::Makes(in_order(alloc, &contents, bindings)?))
}

/// `LET*`.
#[tactic(auto, unfolding(crate::specs::Opened::plans))]
pub(crate) fn let_in_order_plan(
    world: &World,
    alloc: Global,
    scope: &Scope,
    arguments: &[Val],
) -> Result<Plan, Fault>
    ensures { Follows plan_from (plain.let_in_order_plan (scope_of scope.now) arguments.now (world_of world.now)) result (world_of world.now) }
{
    let [bindings, forms @ ..] = arguments else {
        return Err(refusal(ExpandKind::BadForm, scope));
    };
    match bindings_in(world, alloc, *bindings)? {
        Some(bindings) => let_in_order_round(world, alloc, scope, &bindings, forms),
        None => Err(refusal(ExpandKind::BadForm, scope)),
    }
}

/// `LOCALLY`: one form stands for itself, within the declarations.
#[tactic(auto, unfolding(crate::specs::Opened::plans))]
pub(crate) fn locally_plan(
    world: &World,
    alloc: Global,
    scope: &Scope,
    arguments: &[Val],
) -> Result<Plan, Fault>
    ensures { Follows plan_from (plain.locally_plan (scope_of scope.now) arguments.now (world_of world.now)) result (world_of world.now) }
{
    let contents = contents_of(world, alloc, scope, arguments)?;
    if let [form] = contents.forms.as_slice() {
        let form = *form;
        return Ok(Plan::DeclaredAround(contents.declared, form));
    }
    let body = body(alloc, &contents.forms)?;
    Ok(Plan::Makes(within(alloc, contents.declared, body)?))
}
