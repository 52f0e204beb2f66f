// Whether a tree is one that a program may have.
ghost use Rattle.std.specs.Prelude.{◌≡◌, ◌&&◌, ◌==◌, [], nat_le};
ghost use Rattle.core_form.specs.Tree.{cores_length, node_count};
ghost use Rattle.core_form.specs.Reading.{core_of, cores_list, lambda_of};
ghost use Rattle.core_form.specs.Primitives.{most_values, most_arguments};
ghost use Rattle.core_form.specs.Checked.{no_scope, operation_takes, is_checked as checked, are_checked as all_checked, values_checked, lambda_checked, optionals_checked, definitions_checked, items_checked, few_enough};
ghost use Rattle.core_form.specs.ListReading.{bindings_list, optionals_list, definitions_list, items_list};
ghost use Rattle.core_form.specs.Checking.{scope_of};

use crate::counting::count;
use crate::scopes::{Scope, has_block, has_function, has_tag, has_variable};
use crate::tree::{Binding, Core, Definition, Form, Item, Lambda, Optional, TopForm};
use lisp_base::Primitive;

/// Whether a primitive takes so many arguments.
#[tactic(auto, unfolding(crate::specs::Primitives::most_arguments))]
fn takes_number(operation: Primitive, arguments: usize) -> bool
    ensures { result ≡ operation_takes operation arguments }
{
    let row = operation.row();
    let fits = match row.rest {
        Some(_) => arguments >= row.count as usize,
        None => arguments == row.count as usize,
    };
    fits && arguments <= 1024
}

/// Whether a primitive takes as many arguments as these.
#[tactic(auto, using(crate::proofs::NodeLists::cores_length_is))]
fn takes(operation: Primitive, arguments: &[Core]) -> bool
    ensures { result ≡ operation_takes operation (cores_length (cores_list arguments.now)) }
{
    takes_number(operation, arguments.len())
}

/// Whether a call may have these arguments.
#[tactic(auto, using(crate::proofs::NodeLists::cores_length_is), unfolding(crate::specs::Primitives::most_arguments))]
fn are_few(arguments: &[Core]) -> bool
    ensures { result ≡ few_enough (cores_list arguments.now) }
{
    arguments.len() <= 1024
}

/// Whether these forms may give their values together.
#[tactic(auto, using(crate::proofs::NodeLists::cores_length_is), unfolding(crate::specs::Primitives::most_values))]
fn are_few_values(forms: &[Core]) -> bool
    ensures { result ≡ nat_le (cores_length (cores_list forms.now)) most_values }
{
    forms.len() <= 20
}

#[cycle(checking)]
fn are_checked<'a>(parts: &'a [Core], scope: &'a Scope<'a>) -> bool
    ensures { result ≡ all_checked (scope_of scope.now) (cores_list parts.now) }
{
    for part in parts {
        if !is_checked(part, scope) {
            return false;
        }
    }
    true
}

#[cycle(checking)]
fn are_values_checked<'a>(bindings: &'a [Binding], scope: &'a Scope<'a>) -> bool
    ensures { result ≡ values_checked (scope_of scope.now) (bindings_list bindings.now) }
{
    for binding in bindings {
        if !is_checked(&binding.value, scope) {
            return false;
        }
    }
    true
}

/// Whether the forms for optional parameters are checked, each behind the parameters before it.
#[cycle(checking)]
fn are_optionals_checked<'a>(optionals: &'a [Optional], scope: &'a Scope<'a>) -> bool
    ensures { result ≡ optionals_checked (scope_of scope.now) [] (optionals_list optionals.now) }
{
    for (i, optional) in optionals.iter().enumerate() {
        let inner = Scope::Optionals(&optionals[..i], scope);
        if !is_checked(&optional.default, &inner) {
            return false;
        }
    }
    true
}

#[cycle(checking)]
fn is_lambda_checked<'a>(lambda: &'a Lambda, scope: &'a Scope<'a>) -> bool
    ensures { result ≡ lambda_checked (scope_of scope.now) (lambda_of lambda.now) }
{
    let required = Scope::Required(&lambda.required, scope);
    let optional = Scope::Optionals(&lambda.optional, &required);
    if !are_optionals_checked(&lambda.optional, &required) {
        return false;
    }
    match &lambda.rest {
        Some(rest) => is_checked(&lambda.body, &Scope::Rest(rest, &optional)),
        None => is_checked(&lambda.body, &optional),
    }
}

#[cycle(checking)]
fn are_definitions_checked<'a>(definitions: &'a [Definition], scope: &'a Scope<'a>) -> bool
    ensures { result ≡ definitions_checked (scope_of scope.now) (definitions_list definitions.now) }
{
    for definition in definitions {
        if !is_lambda_checked(&definition.lambda, scope) {
            return false;
        }
    }
    true
}

#[cycle(checking)]
fn are_items_checked<'a>(items: &'a [Item], scope: &'a Scope<'a>) -> bool
    ensures { result ≡ items_checked (scope_of scope.now) (items_list items.now) }
{
    for item in items {
        if let Item::Step(form) = item
            && !is_checked(form, scope)
        {
            return false;
        }
    }
    true
}

/// Whether each number used in a tree is bound, in it or round it, and its operators take as many
/// forms as they may.
#[cycle(checking)]
fn is_checked<'a>(core: &'a Core, scope: &'a Scope<'a>) -> bool
    ensures { result ≡ checked (scope_of scope.now) (core_of core.now) }
{
    match &core.form {
        Form::Quote(_) | Form::Global(_) | Form::FunGlobal(_) => true,
        Form::Local(variable) => has_variable(scope, *variable),
        Form::FunLocal(function) => has_function(scope, *function),
        Form::Go(tag) => has_tag(scope, *tag),
        Form::SetLocal(variable, value) => {
            has_variable(scope, *variable) && is_checked(value, scope)
        }
        Form::ReturnFrom(block, value) => has_block(scope, *block) && is_checked(value, scope),
        Form::SetGlobal(_, part) | Form::SetFun(_, part) | Form::Is(_, part) | Form::The(_, part) =>
            is_checked(part, scope),
        Form::If(test, yes, no) => {
            is_checked(test, scope) && is_checked(yes, scope) && is_checked(no, scope)
        }
        Form::Catch(first, second)
        | Form::Throw(first, second)
        | Form::Unwind(first, second)
        | Form::MvProg1(first, second) => is_checked(first, scope) && is_checked(second, scope),
        Form::Progn(parts) => are_checked(parts, scope),
        Form::Values(parts) => are_few_values(parts) && are_checked(parts, scope),
        Form::CallGlobal(_, parts) => are_few(parts) && are_checked(parts, scope),
        Form::CallLocal(function, parts) => {
            has_function(scope, *function) && (are_few(parts) && are_checked(parts, scope))
        }
        Form::Funcall(function, parts) | Form::Apply(function, parts) => {
            is_checked(function, scope) && (are_few(parts) && are_checked(parts, scope))
        }
        Form::MvCall(function, parts) => is_checked(function, scope) && are_checked(parts, scope),
        Form::Primitive(operation, parts) => {
            takes(*operation, parts) && are_checked(parts, scope)
        }
        Form::Let(bindings, body) => {
            are_values_checked(bindings, scope)
                && is_checked(body, &Scope::Bindings(bindings, scope))
        }
        Form::Labels(definitions, body) => {
            let inner = Scope::Functions(definitions, scope);
            are_definitions_checked(definitions, &inner) && is_checked(body, &inner)
        }
        Form::Lambda(lambda) => is_lambda_checked(lambda, scope),
        Form::Block(block, _, body) => is_checked(body, &Scope::Block(*block, scope)),
        Form::Tagbody(items) => are_items_checked(items, &Scope::Tags(items, scope)),
    }
}

/// Whether a top-level form is one that a program may have: each number used in its tree is bound
/// round it, each primitive has as many arguments as it takes, no call or primitive has more than
/// 1,024 arguments (the function of a `Funcall` or `Apply` aside) and no `Values` more than 20
/// forms, and `nodes` is its number of nodes.
#[tactic(auto, using(crate::proofs::NodeCounts::is_count))]
pub fn check_core(t: &TopForm) -> bool
    ensures { result ≡ (checked no_scope (core_of t.now.core) && t.now.nodes == node_count (core_of t.now.core)) }
{
    is_checked(&t.core, &Scope::Top) && u64::from(t.nodes) == count(&t.core)
}
