//! What is to be done with a form: constants, variables, operators, macros and calls.

ghost use Rattle.std.specs.Prelude.{◌≡◌, IsSome, false};
ghost use Rattle.lisp_base.specs.declared.values.Val.TheVariants.{Sym};
ghost use Rattle.lisp_forms.specs.Conses.{cons_at};
ghost use Rattle.std_macros.specs.Expanding.{macro_of_form as macro_of_the_form};
ghost use Rattle.expansion.specs.Forms as plain;
ghost use Rattle.expansion.specs.Operators.{operator_of as operator_of_symbol};
ghost use Rattle.expansion.specs.Scopes.{function_at as function_at_of};
ghost use Rattle.form_expander.specs.Keeping.{Keeps};
ghost use Rattle.form_expander.specs.Outcomes.{Follows};
ghost use Rattle.form_expander.specs.Reading.{plan_from, scope_of, world_of};

use crate::bodies::refusal;
use crate::fault::Fault;
use crate::making::constant;
use crate::operators::{is_left_out, operator_of};
use crate::plans_of_control::{
    block_plan, catch_plan, go_plan, if_plan, keeping_plan, progn_plan, quote_plan,
    return_from_plan, tagbody_plan, the_plan, throw_plan, typep_plan, unwind_plan, values_plan,
};
use crate::plans_of_definitions::{
    declaim_plan, defparameter_plan, defun_plan, defvar_plan, in_package_plan,
};
use crate::plans_of_functions::{
    apply_plan, funcall_plan, function_plan, functions_plan, global_call_plan, lambda_plan_of,
    local_call_plan, values_call_plan,
};
use crate::plans_of_variables::{let_in_order_plan, let_plan, locally_plan, setq_plan, use_of};
use crate::scope::Scope;
use crate::sketch::Plan;
use crate::symbols::is_constant_symbol;
use crate::world::World;
use expansion::{ExpandKind, Operator, Reach};
use lisp_base::base_symbols::DECLARE;
use lisp_base::{SymId, Val};
use lisp_forms::{cons_of, elements};
use std::alloc::Global;
use std_macros::{MacroFault, builtin, macro_of_form};

/// What is to be done with a form of an operator, by its arguments, which are given as a list too.
#[tactic(auto, unfolding(expansion::specs::Forms::operator_plan))]
fn operator_plan(
    world: &mut World,
    alloc: Global,
    scope: &Scope,
    operator: Operator,
    list: Val,
    arguments: &[Val],
) -> Result<Plan, Fault>
    ensures follows { Follows plan_from (plain.operator_plan operator (scope_of scope.now) list arguments.now (world_of world.old)) result (world_of world.new) }
    ensures keeps { Keeps world.old world.new }
{
    match operator {
        Operator::Quote => quote_plan(scope, arguments),
        Operator::Function => function_plan(world, alloc, scope, arguments),
        Operator::Setq => setq_plan(world, alloc, scope, arguments),
        Operator::If => if_plan(alloc, scope, arguments),
        Operator::Progn => progn_plan(alloc, arguments),
        Operator::Let => let_plan(world, alloc, scope, arguments),
        Operator::LetInOrder => let_in_order_plan(world, alloc, scope, arguments),
        Operator::Flet => functions_plan(world, alloc, scope, Reach::ForBody, arguments),
        Operator::Labels => functions_plan(world, alloc, scope, Reach::ForAll, arguments),
        Operator::Locally => locally_plan(world, alloc, scope, arguments),
        Operator::The => the_plan(world, alloc, scope, arguments),
        Operator::Block => block_plan(alloc, scope, arguments),
        Operator::ReturnFrom => return_from_plan(alloc, scope, arguments),
        Operator::Tagbody => tagbody_plan(world, alloc, scope, arguments),
        Operator::Go => go_plan(scope, arguments),
        Operator::Catch => catch_plan(alloc, scope, arguments),
        Operator::Throw => throw_plan(alloc, scope, arguments),
        Operator::UnwindProtect => unwind_plan(alloc, scope, arguments),
        Operator::MultipleValueCall => values_call_plan(alloc, scope, arguments),
        Operator::MultipleValueProg1 => keeping_plan(alloc, scope, arguments),
        Operator::Values => values_plan(alloc, scope, arguments),
        Operator::Funcall => funcall_plan(alloc, scope, arguments),
        Operator::Apply => apply_plan(alloc, scope, arguments),
        Operator::Typep => typep_plan(world, alloc, scope, arguments),
        Operator::Defun => defun_plan(world, alloc, scope, list, arguments),
        Operator::Defvar => defvar_plan(world, alloc, scope, arguments),
        Operator::Defparameter => defparameter_plan(world, alloc, scope, arguments),
        Operator::Defconstant => defparameter_plan(world, alloc, scope, arguments),
        Operator::Declaim => declaim_plan(world, alloc, scope, list),
        Operator::InPackage => in_package_plan(world, scope, arguments),
    }
}

/// What is to be done with a form of an operator, by the list of its arguments.
#[tactic(auto, unfolding(crate::specs::Opened::plans))]
fn operated(
    world: &mut World,
    alloc: Global,
    scope: &Scope,
    operator: Operator,
    list: Val,
) -> Result<Plan, Fault>
    ensures follows { Follows plan_from (plain.operated operator (scope_of scope.now) list (world_of world.old)) result (world_of world.new) }
    ensures keeps { Keeps world.old world.new }
{
    match elements(alloc, &world.heap, list)? {
        Some(arguments) => operator_plan(world, alloc, scope, operator, list, &arguments),
        None => Err(refusal(ExpandKind::BadForm, scope)),
    }
}

/// A macro form stands for the form that it gives.
#[tactic(auto, unfolding(crate::specs::Opened::plans))]
fn macro_plan(world: &mut World, alloc: Global, scope: &Scope, form: Val) -> Result<Plan, Fault>
    requires { IsSome (macro_of_the_form world.old.heap form) }
    ensures follows { Follows plan_from (plain.macro_plan (scope_of scope.now) form (world_of world.old)) result (world_of world.new) }
    ensures keeps { Keeps world.old world.new }
{
    match builtin(alloc, form, &mut world.symbols, &mut world.heap) {
        Ok(made) => Ok(Plan::Instead(made)),
        Err(MacroFault::BadForm { .. }) => Err(refusal(ExpandKind::BadForm, scope)),
        Err(MacroFault::TooManySymbols) => Err(refusal(ExpandKind::TooManySymbols, scope)),
        Err(MacroFault::Memory) => Err(Fault::Memory),
    }
}

/// What is to be done with a form whose operator is no local function and no macro.
#[tactic(auto, unfolding(crate::specs::Opened::plans))]
fn other_plan(
    world: &mut World,
    alloc: Global,
    scope: &Scope,
    form: Val,
    name: SymId,
    list: Val,
) -> Result<Plan, Fault>
    ensures follows { Follows plan_from (plain.global_plan (scope_of scope.now) form name list false (operator_of_symbol name) (world_of world.old)) result (world_of world.new) }
    ensures keeps { Keeps world.old world.new }
{
    if let Some(operator) = operator_of(name) {
        return operated(world, alloc, scope, operator, list);
    }
    if is_left_out(name) {
        return Err(refusal(ExpandKind::UnknownOperator, scope));
    }
    if name.0 == DECLARE.0 {
        return Err(refusal(ExpandKind::BadForm, scope));
    }
    global_call_plan(world, alloc, scope, name, list)
}

/// What is to be done with a form that begins with a symbol.
#[tactic(auto, unfolding(crate::specs::Opened::plans))]
fn named_plan(
    world: &mut World,
    alloc: Global,
    scope: &Scope,
    form: Val,
    name: SymId,
    list: Val,
) -> Result<Plan, Fault>
    ensures follows { Follows plan_from (plain.named_plan (scope_of scope.now) form name list (function_at_of (scope_of scope.now) name) (world_of world.old)) result (world_of world.new) }
    ensures keeps { Keeps world.old world.new }
{
    if let Some(function) = scope.function_at(name) {
        return local_call_plan(world, alloc, scope, function, list);
    }
    if macro_of_form(&world.heap, form).is_some() {
        return macro_plan(world, alloc, scope, form);
    }
    other_plan(world, alloc, scope, form, name, list)
}

/// What is to be done with a symbol.
#[tactic(auto, unfolding(crate::specs::Opened::plans))]
fn symbol_plan(world: &World, alloc: Global, scope: &Scope, name: SymId) -> Result<Plan, Fault>
    ensures { Follows plan_from (plain.plan_of (scope_of scope.now) (Sym name) (world_of world.now)) result (world_of world.now) }
{
    if is_constant_symbol(&world.symbols, name) {
        return Ok(Plan::Makes(constant(Val::Sym(name))));
    }
    let target = scope.variable_at(name);
    Ok(Plan::Makes(use_of(alloc, scope, target)?))
}

/// What is to be done with a list or another object.
#[tactic(auto, unfolding(crate::specs::Opened::plans))]
fn object_plan(world: &mut World, alloc: Global, scope: &Scope, form: Val) -> Result<Plan, Fault>
    ensures follows { Follows plan_from (plain.list_plan (scope_of scope.now) form (cons_at world.old.heap form) (world_of world.old)) result (world_of world.new) }
    ensures keeps { Keeps world.old world.new }
{
    let Some((operator, list)) = cons_of(&world.heap, form) else {
        return Ok(Plan::Makes(constant(form)));
    };
    match operator {
        Val::Sym(name) => named_plan(world, alloc, scope, form, name, list),
        Val::Ref(_) => lambda_plan_of(world, alloc, scope, operator, list),
        Val::Int(_) | Val::Char(_) => Err(refusal(ExpandKind::BadForm, scope)),
    }
}

/// What is to be done with a form in its scope (ANSI Common Lisp 3.1.2.1).
///
/// # Errors
/// `BadForm` where the form breaks the syntax of its operator, `BadType` and `BadPolicy` by what it
/// declares, `UnknownOperator` where its operator is left out, `TooManySymbols` where a fresh symbol
/// has no room, each at the place of the scope. Want of memory.
#[tactic(auto, unfolding(crate::specs::Opened::plans))]
pub(crate) fn plan_of(
    world: &mut World,
    alloc: Global,
    scope: &Scope,
    form: Val,
) -> Result<Plan, Fault>
    ensures follows { Follows plan_from (plain.plan_of (scope_of scope.now) form (world_of world.old)) result (world_of world.new) }
    ensures keeps { Keeps world.old world.new }
{
    match form {
        Val::Int(_) | Val::Char(_) => Ok(Plan::Makes(constant(form))),
        Val::Sym(name) => symbol_plan(world, alloc, scope, name),
        Val::Ref(_) => object_plan(world, alloc, scope, form),
    }
}
