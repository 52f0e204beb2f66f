//! What is to be done with the forms that define, declare and name a package.

ghost use Rattle.std.specs.Prelude.{◌≡◌, IfOk, OnOk};
ghost use Rattle.std.specs.Str.{bytes_eq};
ghost use Rattle.declarations.specs.Bodies.{is_string as is_string_at};
ghost use Rattle.declarations.specs.Declarations.{declared_of, read_specifiers as specifiers_read};
ghost use Rattle.expansion.specs.Bindings.{declared_or};
ghost use Rattle.expansion.specs.Forms as plain;
ghost use Rattle.form_expander.specs.Keeping.{Keeps};
ghost use Rattle.form_expander.specs.Outcomes.{Follows};
ghost use Rattle.form_expander.specs.Reading.{function_from, plan_from, scope_of, sketch_of, world_of};

use crate::bodies::{fault_of, refusal};
use crate::fault::Fault;
use crate::functions::function_sketch;
use crate::making::{choice, constant, many, one, primitive};
use crate::plans_of_variables::global_set;
use crate::scope::Scope;
use crate::sketch::{Function, Plan, Sketch, Unary};
use crate::symbols::{definable, tail_of, variable_in};
use crate::world::World;
use declarations::{Declared, read_specifiers};
use expansion::{ExpandKind, Many};
use lisp_base::{Heap, NIL, Obj, Primitive, SymId, Val};
use std::alloc::{AllocError, Global};

/// A part, and then a symbol as the value.
fn and_name(alloc: Global, name: SymId, part: Sketch) -> Result<Sketch, AllocError>
    ensures { IfOk result (λ made. sketch_of made ≡ plain.and_name name (sketch_of part)) }
{
    let parts = vec![in alloc; part, constant(Val::Sym(name))]?;
    Ok(many(Many::Sequence, parts))
}

/// A function is given to its name, which is the value.
#[tactic(auto, unfolding(expansion::specs::Forms::definition))]
fn definition(alloc: Global, name: SymId, function: Function) -> Result<Sketch, AllocError>
    ensures { IfOk result (λ made. sketch_of made ≡ plain.definition name (function_from function)) }
{
    let function = Sketch::Recursive(name, function);
    let part = one(alloc, Unary::SettingFunction(name), function)?;
    and_name(alloc, name, part)
}

/// `DEFUN`. The arguments are given as a list too.
#[tactic(auto, unfolding(crate::specs::Opened::plans))]
pub(crate) fn defun_plan(
    world: &mut World,
    alloc: Global,
    scope: &Scope,
    list: Val,
    arguments: &[Val],
) -> Result<Plan, Fault>
    ensures follows { Follows plan_from (plain.defun_plan (scope_of scope.now) list arguments.now (world_of world.old)) result (world_of world.new) }
    ensures keeps { Keeps world.old world.new }
{
    let [name, ..] = arguments else {
        return Err(refusal(ExpandKind::BadForm, scope));
    };
    let Some(name) = definable(scope, *name) else {
        return Err(refusal(ExpandKind::BadForm, scope));
    };
    let lambda = tail_of(&world.heap, list);
    let function = function_sketch(world, alloc, scope, Some(name), lambda)?;
    Ok(Plan::Makes(definition(alloc, name, function)?))
}

/// A variable is special from now on.
fn proclaim(world: &mut World, name: SymId) -> Result<(), AllocError>
    ensures is { OnOk result (world_of world.new ≡ plain.with_proclaimed name (world_of world.old)) }
    ensures keeps { Keeps world.old world.new }
{
    world.specials.push(name)?;
    Ok(())
}

/// Whether a form is a string.
fn is_string(heap: &Heap, form: Val) -> bool
    ensures { result ≡ is_string_at heap.now form }
{
    match form {
        Val::Ref(id) => match heap.get(id) {
            Some(Obj::Str(_)) => true,
            Some(Obj::Cons { .. } | Obj::Vector(_) | Obj::Fun { .. } | Obj::Cell(_)) | None => {
                false
            }
        },
        Val::Int(_) | Val::Char(_) | Val::Sym(_) => false,
    }
}

/// The form of a variable's value; a string after it is dropped.
fn value_among(heap: &Heap, forms: &[Val]) -> Option<Val>
    ensures { result ≡ plain.value_among heap.now forms.now }
{
    match forms {
        [value] => Some(*value),
        [value, text] => {
            if is_string(heap, *text) {
                Some(*value)
            } else {
                None
            }
        }
        [] | [_, _, _, ..] => None,
    }
}

/// A part, unless the symbol has a value.
#[tactic(auto, unfolding(expansion::specs::Forms::unless_bound))]
fn unless_bound(alloc: Global, name: SymId, part: Sketch) -> Result<Sketch, AllocError>
    ensures { IfOk result (λ made. sketch_of made ≡ plain.unless_bound name (sketch_of part)) }
{
    let symbol = vec![in alloc; constant(Val::Sym(name))]?;
    let test = primitive(Primitive::Boundp, symbol);
    choice(alloc, test, constant(Val::Sym(NIL)), part)
}

/// `DEFVAR`: the variable is special, and takes the value of the form, if any, unless it has one.
#[tactic(auto, unfolding(crate::specs::Opened::plans))]
pub(crate) fn defvar_plan(
    world: &mut World,
    alloc: Global,
    scope: &Scope,
    arguments: &[Val],
) -> Result<Plan, Fault>
    ensures follows { Follows plan_from (plain.defvar_plan (scope_of scope.now) arguments.now (world_of world.old)) result (world_of world.new) }
    ensures keeps { Keeps world.old world.new }
{
    let [name, values @ ..] = arguments else {
        return Err(refusal(ExpandKind::BadForm, scope));
    };
    let Some(name) = variable_in(&world.symbols, *name) else {
        return Err(refusal(ExpandKind::BadForm, scope));
    };
    if let [] = values {
        proclaim(world, name)?;
        return Ok(Plan::Makes(constant(Val::Sym(name))));
    }
    let Some(value) = value_among(&world.heap, values) else {
        return Err(refusal(ExpandKind::BadForm, scope));
    };
    proclaim(world, name)?;
    let setting = global_set(world, alloc, scope, name, value)?;
    let setting = unless_bound(alloc, name, setting)?;
    Ok(Plan::Makes(and_name(alloc, name, setting)?))
}

/// `DEFPARAMETER` and `DEFCONSTANT`: the variable is special, and takes the value of the form.
#[tactic(auto, unfolding(crate::specs::Opened::plans))]
pub(crate) fn defparameter_plan(
    world: &mut World,
    alloc: Global,
    scope: &Scope,
    arguments: &[Val],
) -> Result<Plan, Fault>
    ensures follows { Follows plan_from (plain.defparameter_plan (scope_of scope.now) arguments.now (world_of world.old)) result (world_of world.new) }
    ensures keeps { Keeps world.old world.new }
{
    let [name, values @ ..] = arguments else {
        return Err(refusal(ExpandKind::BadForm, scope));
    };
    let Some(name) = variable_in(&world.symbols, *name) else {
        return Err(refusal(ExpandKind::BadForm, scope));
    };
    let Some(value) = value_among(&world.heap, values) else {
        return Err(refusal(ExpandKind::BadForm, scope));
    };
    proclaim(world, name)?;
    let setting = global_set(world, alloc, scope, name, value)?;
    Ok(Plan::Makes(and_name(alloc, name, setting)?))
}

/// What the list of specifiers of a `DECLAIM` says, by the policy in force.
fn declaimed_in(
    world: &World,
    alloc: Global,
    scope: &Scope,
    specifiers: Val,
) -> Result<Declared, Fault>
    ensures { Follows declared_of (declared_or (scope_of scope.now) (specifiers_read world.now.heap world.now.symbols world.now.policy specifiers) (world_of world.now)) result (world_of world.now) }
{
    let policy = world.policy;
    match read_specifiers(alloc, specifiers, policy, &world.symbols, &world.heap) {
        Ok(declared) => Ok(declared),
        Err(fault) => Err(fault_of(fault, scope)),
    }
}

/// What is declared holds from now on.
fn declaim(world: &mut World, declared: Declared) -> Result<(), AllocError>
    ensures is { OnOk result (world_of world.new ≡ plain.with_declaimed (declared_of declared) (world_of world.old)) }
    ensures keeps { Keeps world.old world.new }
{
    let Declared {
        mut types,
        specials,
        policy,
    } = declared;
    world.specials.extend_from_slice(&specials)?;
    world.declaimed.append(&mut types)?;
    world.policy = policy;
    Ok(())
}

/// `DECLAIM`.
#[tactic(auto, unfolding(crate::specs::Opened::plans))]
pub(crate) fn declaim_plan(
    world: &mut World,
    alloc: Global,
    scope: &Scope,
    specifiers: Val,
) -> Result<Plan, Fault>
    ensures follows { Follows plan_from (plain.declaim_plan (scope_of scope.now) specifiers (world_of world.old)) result (world_of world.new) }
    ensures keeps { Keeps world.old world.new }
{
    let declared = declaimed_in(world, alloc, scope, specifiers)?;
    declaim(world, declared)?;
    Ok(Plan::Makes(constant(Val::Sym(NIL))))
}

/// Whether characters spell a name of ASCII letters.
fn spells(letters: &[u32], name: &[u8]) -> bool
    ensures { result ≡ bytes_eq letters.now name.now }
{
    let mut letters = letters;
    let mut name = name;
    while let [letter, more_letters @ ..] = letters {
        let [byte, more_bytes @ ..] = name else {
            return false;
        };
        if *letter != u32::from(*byte) {
            return false;
        }
        letters = more_letters;
        name = more_bytes;
    }
    name.is_empty()
}

/// Whether a symbol, a keyword or a string names the one package.
fn names_package(world: &World, name: Val) -> bool
    ensures { result ≡ plain.names_package (plain.name_written (world_of world.now) name) }
{
    match name {
        Val::Sym(id) => match world.symbols.name(id) {
            Some(name) => name == "CL-USER" || name == "COMMON-LISP-USER",
            None => false,
        },
        Val::Ref(id) => match world.heap.get(id) {
            Some(Obj::Str(letters)) => {
                spells(letters, b"CL-USER") || spells(letters, b"COMMON-LISP-USER")
            }
            Some(Obj::Cons { .. } | Obj::Vector(_) | Obj::Fun { .. } | Obj::Cell(_)) | None => {
                false
            }
        },
        Val::Int(_) | Val::Char(_) => false,
    }
}

/// `IN-PACKAGE`.
#[tactic(auto, unfolding(crate::specs::Opened::plans))]
pub(crate) fn in_package_plan(
    world: &World,
    scope: &Scope,
    arguments: &[Val],
) -> Result<Plan, Fault>
    ensures { Follows plan_from (plain.in_package_plan (scope_of scope.now) arguments.now (world_of world.now)) result (world_of world.now) }
{
    match arguments {
        [name] => {
            if !names_package(world, *name) {
                return Err(refusal(ExpandKind::BadForm, scope));
            }
            Ok(Plan::Makes(constant(Val::Sym(NIL))))
        }
        [] | [_, _, ..] => Err(refusal(ExpandKind::BadForm, scope)),
    }
}
