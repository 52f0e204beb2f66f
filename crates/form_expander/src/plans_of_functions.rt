//! What is to be done with functions as values, local functions, and calls.

ghost use Rattle.std.specs.Prelude.{◌≡◌, ◌∷◌, [], IfOk};
ghost use Rattle.std.specs.List.{zip};
ghost use Rattle.std.specs.Option.{option_map};
ghost use Rattle.lambda_lists.specs.Readings.{list_of};
ghost use Rattle.expansion.specs.Calls.{calls_local, global_call as global_call_of};
ghost use Rattle.expansion.specs.Forms as plain;
ghost use Rattle.expansion.specs.Sketches as sketches;
ghost use Rattle.expansion.specs.Steps.{World as WorldOf};
ghost use Rattle.form_expander.specs.Calling.{bindings_and_body};
ghost use Rattle.form_expander.specs.Keeping.{Keeps};
ghost use Rattle.form_expander.specs.Outcomes.{Follows};
ghost use Rattle.form_expander.specs.Reading.{plan_from, scope_of, sketch_of, world_of};

use crate::bindings::let_sketch;
use crate::bodies::{contents_of, refusal};
use crate::calls::{are_few, call_local, global_call};
use crate::fault::Fault;
use crate::functions::function_sketch;
use crate::making::{body, calling, forms, functions, within};
use crate::parameter_lists::Pairs;
use crate::scope::Scope;
use crate::sketch::{Plan, Sketch};
use crate::symbols::lambda_in;
use crate::world::World;
use declarations::SymIds;
use expansion::{Calling, ExpandKind, Leaf, Reach};
use lambda_lists::{LambdaList, read_lambda_list};
use lisp_base::{SymId, Val, Vals};
use lisp_forms::elements;
use std::alloc::{AllocError, Global};

/// The function of a name as a value: a local one, or the symbol's.
fn named_function(local: Option<u32>, name: SymId) -> Sketch
    ensures { sketch_of result ≡ plain.named_function local name }
{
    match local {
        Some(number) => Sketch::Leaf(Leaf::LocalFunction(number)),
        None => Sketch::Leaf(Leaf::GlobalFunction(name)),
    }
}

/// The function of a list after `LAMBDA`.
#[tactic(auto, unfolding(crate::specs::Opened::plans))]
fn lambda_plan(
    world: &mut World,
    alloc: Global,
    scope: &Scope,
    list: Option<Val>,
) -> Result<Plan, Fault>
    ensures follows { Follows plan_from (plain.lambda_plan (scope_of scope.now) list (world_of world.old)) result (world_of world.new) }
    ensures keeps { Keeps world.old world.new }
{
    let Some(list) = list else {
        return Err(refusal(ExpandKind::BadForm, scope));
    };
    let function = function_sketch(world, alloc, scope, None, list)?;
    Ok(Plan::Makes(Sketch::Function(function)))
}

/// What is to be done with the one argument of `FUNCTION`: the name of a function, or a lambda
/// expression.
#[tactic(auto, unfolding(crate::specs::Opened::plans))]
fn designated_plan(
    world: &mut World,
    alloc: Global,
    scope: &Scope,
    designator: Val,
) -> Result<Plan, Fault>
    ensures follows { Follows plan_from (plain.function_plan (scope_of scope.now) (designator ∷ []) (world_of world.old)) result (world_of world.new) }
    ensures keeps { Keeps world.old world.new }
{
    match designator {
        Val::Sym(name) => {
            let local = scope.function_at(name);
            Ok(Plan::Makes(named_function(local, name)))
        }
        Val::Ref(_) => {
            let list = lambda_in(&world.heap, designator);
            lambda_plan(world, alloc, scope, list)
        }
        Val::Int(_) | Val::Char(_) => Err(refusal(ExpandKind::BadForm, scope)),
    }
}

/// `FUNCTION`.
#[tactic(auto, unfolding(crate::specs::Opened::plans))]
pub(crate) fn function_plan(
    world: &mut World,
    alloc: Global,
    scope: &Scope,
    arguments: &[Val],
) -> Result<Plan, Fault>
    ensures follows { Follows plan_from (plain.function_plan (scope_of scope.now) arguments.now (world_of world.old)) result (world_of world.new) }
    ensures keeps { Keeps world.old world.new }
{
    match arguments {
        [designator] => designated_plan(world, alloc, scope, *designator),
        [] | [_, _, ..] => Err(refusal(ExpandKind::BadForm, scope)),
    }
}

/// `FLET` and `LABELS`: the definitions are forms that are read when their turn comes.
#[tactic(auto, unfolding(crate::specs::Opened::plans))]
pub(crate) fn functions_plan(
    world: &World,
    alloc: Global,
    scope: &Scope,
    reach: Reach,
    arguments: &[Val],
) -> Result<Plan, Fault>
    ensures { Follows plan_from (plain.functions_plan reach (scope_of scope.now) arguments.now (world_of world.now)) result (world_of world.now) }
{
    let [definitions, forms @ ..] = arguments else {
        return Err(refusal(ExpandKind::BadForm, scope));
    };
    let Some(definitions) = elements(alloc, &world.heap, *definitions)? else {
        return Err(refusal(ExpandKind::BadForm, scope));
    };
    let contents = contents_of(world, alloc, scope, forms)?;
    let body = body(alloc, &contents.forms)?;
    let body = within(alloc, contents.declared, body)?;
    Ok(Plan::Makes(functions(alloc, reach, definitions, body)?))
}

/// A node of a form that gives a function, and of its arguments.
fn calling_plan(
    alloc: Global,
    node: Calling,
    function: Val,
    arguments: &[Val],
) -> Result<Plan, AllocError>
    ensures { IfOk result (λ plan. plan_from plan ≡ sketches.makes (sketches.calling node (sketches.form function) (sketches.sketches (sketches.forms arguments.now)))) }
{
    let parts = forms(alloc, arguments)?;
    let made = calling(alloc, node, Sketch::Form(function), parts)?;
    Ok(Plan::Makes(made))
}

/// `MULTIPLE-VALUE-CALL`.
#[tactic(auto, unfolding(crate::specs::Opened::plans))]
pub(crate) fn values_call_plan(
    alloc: Global,
    scope: &Scope,
    arguments: &[Val],
) -> Result<Plan, Fault>
    ensures { (w : WorldOf) → Follows plan_from (plain.values_call_plan (scope_of scope.now) arguments.now w) result w }
{
    match arguments {
        [function, others @ ..] => {
            Ok(calling_plan(alloc, Calling::CallingWithValues, *function, others)?)
        }
        [] => Err(refusal(ExpandKind::BadForm, scope)),
    }
}

/// `FUNCALL`.
#[tactic(auto, unfolding(crate::specs::Opened::plans))]
pub(crate) fn funcall_plan(alloc: Global, scope: &Scope, arguments: &[Val]) -> Result<Plan, Fault>
    ensures { (w : WorldOf) → Follows plan_from (plain.funcall_plan (scope_of scope.now) arguments.now w) result w }
{
    let [function, others @ ..] = arguments else {
        return Err(refusal(ExpandKind::BadForm, scope));
    };
    if !are_few(others) {
        return Err(refusal(ExpandKind::BadForm, scope));
    }
    Ok(calling_plan(alloc, Calling::Funcalling, *function, others)?)
}

/// `APPLY`: the last argument is a list of arguments, so there is one.
#[tactic(auto, unfolding(crate::specs::Opened::plans))]
pub(crate) fn apply_plan(alloc: Global, scope: &Scope, arguments: &[Val]) -> Result<Plan, Fault>
    ensures { (w : WorldOf) → Follows plan_from (plain.apply_plan (scope_of scope.now) arguments.now w) result w }
{
    let [function, _, ..] = arguments else {
        return Err(refusal(ExpandKind::BadForm, scope));
    };
    let others = &arguments[1..];
    if !are_few(others) {
        return Err(refusal(ExpandKind::BadForm, scope));
    }
    Ok(calling_plan(alloc, Calling::Applying, *function, others)?)
}

/// A call of a local function.
#[tactic(auto, unfolding(crate::specs::Opened::plans))]
pub(crate) fn local_call_plan(
    world: &World,
    alloc: Global,
    scope: &Scope,
    function: u32,
    arguments: Val,
) -> Result<Plan, Fault>
    ensures { Follows plan_from (plain.called (scope_of scope.now) (calls_local function) arguments (world_of world.now)) result (world_of world.now) }
{
    let Some(arguments) = elements(alloc, &world.heap, arguments)? else {
        return Err(refusal(ExpandKind::BadForm, scope));
    };
    if !are_few(&arguments) {
        return Err(refusal(ExpandKind::BadForm, scope));
    }
    Ok(Plan::Makes(call_local(alloc, function, &arguments)?))
}

/// A call of the global function of a symbol.
#[tactic(auto, unfolding(crate::specs::Opened::plans))]
pub(crate) fn global_call_plan(
    world: &World,
    alloc: Global,
    scope: &Scope,
    name: SymId,
    arguments: Val,
) -> Result<Plan, Fault>
    ensures { Follows plan_from (plain.called (scope_of scope.now) (global_call_of name) arguments (world_of world.now)) result (world_of world.now) }
{
    let Some(arguments) = elements(alloc, &world.heap, arguments)? else {
        return Err(refusal(ExpandKind::BadForm, scope));
    };
    if !are_few(&arguments) {
        return Err(refusal(ExpandKind::BadForm, scope));
    }
    Ok(Plan::Makes(global_call(alloc, name, &arguments)?))
}

/// The parameters of a lambda list that has only required ones.
fn only_required(list: LambdaList) -> Option<SymIds>
    ensures { option_map (λ names. names.items) result ≡ plain.only_required (list_of list) }
{
    let LambdaList {
        required,
        optional,
        rest,
        keys,
        auxiliary,
    } = list;
    if !optional.is_empty() || rest.is_some() || keys.is_some() || !auxiliary.is_empty() {
        return None;
    }
    Some(required)
}

/// Each of several variables with the form at its place, as far as both go.
fn zipped(alloc: Global, names: &[SymId], values: &[Val]) -> Result<Pairs, AllocError>
    ensures { IfOk result (λ pairs. pairs.items ≡ zip names.now values.now) }
{
    names
        .iter()
        .copied()
        .zip(values.iter().copied())
        .collect(alloc)
}

/// Variables beside forms; None exactly where there is another number of these.
#[tactic(auto, using(crate::proofs::Pairing::paired_zip, crate::proofs::Pairing::unpaired))]
fn paired(alloc: Global, names: &[SymId], values: &[Val]) -> Result<Option<Pairs>, AllocError>
    ensures { IfOk result (λ found. option_map (λ pairs. pairs.items) found ≡ plain.paired names.now values.now) }
{
    if names.len() != values.len() {
        return Ok(None);
    }
    Ok(Some(zipped(alloc, names, values)?))
}

/// Bindings, and the forms of a body.
#[derive(Drop)]
pub(crate) struct LambdaCall {
    bindings: Pairs,
    forms: Vals,
}

/// The bindings that a lambda list and body make of as many arguments as the list requires.
fn bindings_of_lambda(
    world: &World,
    alloc: Global,
    arguments: &[Val],
    lambda: &[Val],
) -> Result<Option<LambdaCall>, AllocError>
    ensures { IfOk result (λ found. option_map bindings_and_body found ≡ plain.bindings_of_lambda (world_of world.now) arguments.now lambda.now) }
{
    let [list, forms @ ..] = lambda else {
        return Ok(None);
    };
    let Some(list) = read_lambda_list(alloc, *list, &world.symbols, &world.heap)? else {
        return Ok(None);
    };
    let Some(names) = only_required(list) else {
        return Ok(None);
    };
    let Some(bindings) = paired(alloc, &names, arguments)? else {
        return Ok(None);
    };
    let forms = Vec::from_slice(alloc, forms)?;
    Ok(Some(LambdaCall { bindings, forms }))
}

/// The bindings that a lambda expression makes of as many arguments as it requires.
#[tactic(auto, unfolding(expansion::specs::Forms::lambda_bindings))]
fn lambda_bindings(
    world: &World,
    alloc: Global,
    operator: Val,
    arguments: &[Val],
) -> Result<Option<LambdaCall>, AllocError>
    ensures { IfOk result (λ found. option_map bindings_and_body found ≡ plain.lambda_bindings operator arguments.now (world_of world.now)) }
{
    let Some(list) = lambda_in(&world.heap, operator) else {
        return Ok(None);
    };
    match elements(alloc, &world.heap, list)? {
        Some(lambda) => bindings_of_lambda(world, alloc, arguments, &lambda),
        None => Ok(None),
    }
}

/// Binds the arguments of a lambda expression round its body, or calls it as a function.
#[tactic(auto, unfolding(crate::specs::Opened::plans))]
fn lambda_call(
    world: &World,
    alloc: Global,
    scope: &Scope,
    operator: Val,
    arguments: &[Val],
    call: Option<LambdaCall>,
) -> Result<Plan, Fault>
    ensures { Follows plan_from (plain.lambda_call (scope_of scope.now) operator arguments.now (option_map bindings_and_body call) (world_of world.now)) result (world_of world.now) }
{
    let Some(call) = call else {
        let plan = calling_plan(alloc, Calling::Funcalling, operator, arguments)?;
        return Ok(plan);
    };
    let contents = contents_of(world, alloc, scope, &call.forms)?;
    let body = body(alloc, &contents.forms)?;
    let made = let_sketch(alloc, contents.declared, &call.bindings, body)?;
    Ok(Plan::Makes(made))
}

/// A lambda expression on arguments.
#[tactic(auto, unfolding(crate::specs::Opened::plans))]
pub(crate) fn lambda_plan_of(
    world: &World,
    alloc: Global,
    scope: &Scope,
    operator: Val,
    arguments: Val,
) -> Result<Plan, Fault>
    ensures { Follows plan_from (plain.lambda_plan_of (scope_of scope.now) operator arguments (world_of world.now)) result (world_of world.now) }
{
    if lambda_in(&world.heap, operator).is_none() {
        return Err(refusal(ExpandKind::BadForm, scope));
    }
    let Some(arguments) = elements(alloc, &world.heap, arguments)? else {
        return Err(refusal(ExpandKind::BadForm, scope));
    };
    if !are_few(&arguments) {
        return Err(refusal(ExpandKind::BadForm, scope));
    }
    let call = lambda_bindings(world, alloc, operator, &arguments)?;
    lambda_call(world, alloc, scope, operator, &arguments, call)
}
