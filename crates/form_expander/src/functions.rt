//! The sketches of functions.

ghost use Rattle.std.specs.Prelude.{◌≡◌, ◌++◌, ◌∷◌, IfOk};
ghost use Rattle.lambda_lists.specs.Readings.{defaults_of, forms_of, list_of};
ghost use Rattle.expansion.specs.Bindings.{body_within as body_within_of, fresh_symbol as fresh_symbol_of, function_from as function_from_of, function_sketch as function_sketch_of, function_with as function_with_of, in_block as in_block_of, keyed_function as keyed_function_of, make_keys as make_keys_of, names as names_of, parameter_names as parameter_names_of, plain_function as plain_function_of, rest_or_fresh as rest_or_fresh_of, with_keys as with_keys_of};
ghost use Rattle.form_expander.specs.Contained.{contents_from};
ghost use Rattle.form_expander.specs.Keeping.{Keeps};
ghost use Rattle.form_expander.specs.Outcomes.{Follows};
ghost use Rattle.form_expander.specs.Reading.{function_from as function_read, scope_of, sketch_of, world_of};

use crate::bindings::{let_in_order, names, nested, others};
use crate::bodies::{Contents, contents_of, refusal};
use crate::fault::Fault;
use crate::making::{block, body, choice, within};
use crate::parameter_lists::{Pairs, add_pairs, parameter_names, parameters_round};
use crate::scope::Scope;
use crate::sketch::{Function, Sketch};
use crate::world::World;
use declarations::SymIds;
use expansion::ExpandKind;
use lambda_lists::{Defaulted, KeyFault, KeyForms, LambdaList, make_key_forms, read_lambda_list};
use lisp_base::{SymFault, SymId, Val};
use lisp_forms::elements;
use std::alloc::{AllocError, Global};

/// A body in a block of this name, if any.
fn in_block(alloc: Global, name: Option<SymId>, body: Sketch) -> Result<Sketch, AllocError>
    ensures { IfOk result (λ made. sketch_of made ≡ in_block_of name (sketch_of body)) }
{
    match name {
        Some(name) => block(alloc, name, body),
        None => Ok(body),
    }
}

/// A body within the declarations that no binding takes.
fn body_within(
    alloc: Global,
    bound: &[SymId],
    name: Option<SymId>,
    contents: &Contents,
) -> Result<Sketch, AllocError>
    ensures { IfOk result (λ made. sketch_of made ≡ body_within_of bound.now name (contents_from contents.now)) }
{
    let inner = in_block(alloc, name, body(alloc, &contents.forms)?)?;
    within(alloc, others(alloc, bound, &contents.declared)?, inner)
}

/// The variables that a function and bindings in its body bind.
fn bound_names(
    alloc: Global,
    list: &LambdaList,
    rest: Option<SymId>,
    later: &[SymId],
) -> Result<SymIds, AllocError>
    ensures { IfOk result (λ made. made.items ≡ parameter_names_of (list_of list.now) rest ++ later.now) }
{
    let mut bound = parameter_names(alloc, list, rest)?;
    bound.extend_from_slice(later)?;
    Ok(bound)
}

/// A function without `&KEY`: its `&AUX` bindings stand round the body.
#[tactic(auto, unfolding(expansion::specs::Bindings::plain_function))]
fn plain_function(
    alloc: Global,
    list: &LambdaList,
    name: Option<SymId>,
    contents: &Contents,
) -> Result<Function, AllocError>
    ensures { IfOk result (λ made. function_read made ≡ plain_function_of (list_of list.now) name (contents_from contents.now)) }
{
    let mut bindings: Pairs = Vec::new(alloc);
    add_pairs(&mut bindings, &list.auxiliary)?;
    let later = names(alloc, &bindings)?;
    let bound = bound_names(alloc, list, list.rest, &later)?;
    let inner = body_within(alloc, &bound, name, contents)?;
    let inner = nested(alloc, &contents.declared, &bindings, inner)?;
    parameters_round(alloc, list, list.rest, &later, &contents.declared, inner)
}

/// A function with `&KEY`: the bindings of the keys stand before the `&AUX` bindings, where the rest
/// of the arguments is a list of these keys; else it is refused when it is called.
#[tactic(auto, unfolding(expansion::specs::Bindings::keyed_function))]
fn keyed_function(
    alloc: Global,
    list: &LambdaList,
    rest: SymId,
    name: Option<SymId>,
    contents: &Contents,
    keys: &KeyForms,
) -> Result<Function, AllocError>
    ensures { IfOk result (λ made. function_read made ≡ keyed_function_of (list_of list.now) rest name (contents_from contents.now) (forms_of keys.now)) }
{
    let mut bindings: Pairs = Vec::new(alloc);
    add_pairs(&mut bindings, &keys.bindings)?;
    add_pairs(&mut bindings, &list.auxiliary)?;
    let later = names(alloc, &bindings)?;
    let bound = bound_names(alloc, list, Some(rest), &later)?;
    let inner = body_within(alloc, &bound, name, contents)?;
    let given = let_in_order(alloc, &contents.declared, &bindings, inner)?;
    let test = Sketch::Form(keys.test);
    let chosen = choice(alloc, test, given, Sketch::Form(keys.refusal))?;
    parameters_round(alloc, list, Some(rest), &later, &contents.declared, chosen)
}

/// A fresh symbol, where there is room.
#[tactic(auto, unfolding(expansion::specs::Bindings::fresh_symbol, expansion::specs::Bindings::fresh_by, expansion::specs::Steps::refuse))]
fn fresh_symbol(world: &mut World, scope: &Scope) -> Result<SymId, Fault>
    ensures follows { Follows (λ id. id) (fresh_symbol_of (scope_of scope.now) (world_of world.old)) result (world_of world.new) }
    ensures keeps { Keeps world.old world.new }
{
    match world.symbols.fresh() {
        Ok(id) => Ok(id),
        Err(SymFault::TooMany) => Err(refusal(ExpandKind::TooManySymbols, scope)),
        Err(SymFault::Memory) => Err(Fault::Memory),
    }
}

/// The variable of the rest of the arguments: its own, or a fresh one.
#[tactic(auto, unfolding(expansion::specs::Bindings::rest_or_fresh, expansion::specs::Steps::pure))]
fn rest_or_fresh(world: &mut World, scope: &Scope, rest: Option<SymId>) -> Result<SymId, Fault>
    ensures follows { Follows (λ id. id) (rest_or_fresh_of (scope_of scope.now) rest (world_of world.old)) result (world_of world.new) }
    ensures keeps { Keeps world.old world.new }
{
    match rest {
        Some(rest) => Ok(rest),
        None => fresh_symbol(world, scope),
    }
}

/// The forms that parameters of `&KEY` stand for.
#[tactic(auto, unfolding(expansion::specs::Bindings::make_keys, expansion::specs::Bindings::keys_by, expansion::specs::Steps::refuse))]
fn make_keys(
    world: &mut World,
    alloc: Global,
    scope: &Scope,
    rest: SymId,
    parameters: &[Defaulted],
) -> Result<KeyForms, Fault>
    ensures follows { Follows forms_of (make_keys_of (scope_of scope.now) rest (defaults_of parameters.now) (world_of world.old)) result (world_of world.new) }
    ensures keeps { Keeps world.old world.new }
{
    match make_key_forms(alloc, rest, parameters, &mut world.symbols, &mut world.heap) {
        Ok(keys) => Ok(keys),
        Err(KeyFault::TooManySymbols) => Err(refusal(ExpandKind::TooManySymbols, scope)),
        Err(KeyFault::Memory) => Err(Fault::Memory),
    }
}

/// The function of a lambda list and of its body's contents.
#[tactic(auto, unfolding(crate::specs::Stepping::steps, expansion::specs::Bindings::with_keys))]
fn with_keys(
    world: &mut World,
    alloc: Global,
    scope: &Scope,
    list: &LambdaList,
    name: Option<SymId>,
    contents: &Contents,
) -> Result<Function, Fault>
    ensures follows { Follows function_read (with_keys_of (scope_of scope.now) (list_of list.now) name (contents_from contents.now) (list_of list.now).keys (world_of world.old)) result (world_of world.new) }
    ensures keeps { Keeps world.old world.new }
{
    match &list.keys {
        Some(parameters) => {
            let rest = rest_or_fresh(world, scope, list.rest)?;
            let keys = make_keys(world, alloc, scope, rest, parameters)?;
            Ok(keyed_function(alloc, list, rest, name, contents, &keys)?)
        }
        None => Ok(plain_function(alloc, list, name, contents)?),
    }
}

/// The function of a lambda list and of a body.
#[tactic(auto, unfolding(crate::specs::Stepping::steps, expansion::specs::Bindings::function_with))]
fn function_with(
    world: &mut World,
    alloc: Global,
    scope: &Scope,
    name: Option<SymId>,
    body: &[Val],
    list: &LambdaList,
) -> Result<Function, Fault>
    ensures follows { Follows function_read (function_with_of (scope_of scope.now) name body.now (list_of list.now) (world_of world.old)) result (world_of world.new) }
    ensures keeps { Keeps world.old world.new }
{
    let contents = contents_of(world, alloc, scope, body)?;
    with_keys(world, alloc, scope, list, name, &contents)
}

/// The function of a form for its lambda list and of a body.
#[tactic(auto, unfolding(crate::specs::Stepping::steps, expansion::specs::Bindings::function_from))]
fn function_of(
    world: &mut World,
    alloc: Global,
    scope: &Scope,
    name: Option<SymId>,
    list: Val,
    body: &[Val],
) -> Result<Function, Fault>
    ensures follows { Follows function_read (function_from_of (scope_of scope.now) name (list ∷ body.now) (world_of world.old)) result (world_of world.new) }
    ensures keeps { Keeps world.old world.new }
{
    match read_lambda_list(alloc, list, &world.symbols, &world.heap)? {
        Some(list) => function_with(world, alloc, scope, name, body, &list),
        None => Err(refusal(ExpandKind::BadForm, scope)),
    }
}

/// The function of the elements of a list, the first being its lambda list.
#[tactic(auto, unfolding(crate::specs::Stepping::steps, expansion::specs::Bindings::function_from))]
fn function_from(
    world: &mut World,
    alloc: Global,
    scope: &Scope,
    name: Option<SymId>,
    elements: &[Val],
) -> Result<Function, Fault>
    ensures follows { Follows function_read (function_from_of (scope_of scope.now) name elements.now (world_of world.old)) result (world_of world.new) }
    ensures keeps { Keeps world.old world.new }
{
    match elements {
        [list, body @ ..] => function_of(world, alloc, scope, name, *list, body),
        [] => Err(refusal(ExpandKind::BadForm, scope)),
    }
}

/// The function of a list that begins with its lambda list; its body is a block of this name, if
/// any (ANSI Common Lisp 3.4.1, 3.4.11).
///
/// # Errors
/// `BadForm` where it is no proper list, is empty, or begins with no lambda list; then those of its
/// declarations; then `TooManySymbols` where a fresh symbol or a keyword has no room. Want of
/// memory.
#[tactic(auto, unfolding(crate::specs::Stepping::steps, expansion::specs::Bindings::function_sketch))]
pub(crate) fn function_sketch(
    world: &mut World,
    alloc: Global,
    scope: &Scope,
    name: Option<SymId>,
    list: Val,
) -> Result<Function, Fault>
    ensures follows { Follows function_read (function_sketch_of (scope_of scope.now) name list (world_of world.old)) result (world_of world.new) }
    ensures keeps { Keeps world.old world.new }
{
    match elements(alloc, &world.heap, list)? {
        Some(elements) => function_from(world, alloc, scope, name, &elements),
        None => Err(refusal(ExpandKind::BadForm, scope)),
    }
}
