//! Nodes of trees made of their parts, by what a sketch has of them.

ghost use Rattle.std.specs.Prelude.{◌≡◌, IfOk, map};
ghost use Rattle.std.specs.Option.{option_map};
ghost use Rattle.lisp_base.specs.Reading.{spec_of};
ghost use Rattle.core_form.specs.Reading.{core_of, cores_list, form_of, lambda_of, parameter_of};
ghost use Rattle.core_form.specs.ListReading.{bindings_list, definitions_list, items_list};
ghost use Rattle.core_form.specs.Tree as tree;
ghost use Rattle.expansion.specs.Sketches as plain;
ghost use Rattle.expansion.specs.Expanding.{parameter_some};
ghost use Rattle.form_expander.specs.Besides.{beside_some, pair_of};
ghost use Rattle.form_expander.specs.Reading.{binder_of, optional_of, unary_of};

use crate::parameters::OptionalParameter;
use crate::sketch::{Binder, Optional, Unary};
use core_form::{
    Binding, Core, Definition, Form, Item, Lambda, Optional as OptionalPart, Parameter,
    reads_lists, reads_nodes,
};
use declarations::copy_type;
use expansion::{Binary, Calling, Leaf, Many};
use lisp_base::{Place, Specs, SymId, TypeSpec};
use std::alloc::{AllocError, Global};

/// What a node does, at its place.
fn at(place: Place, form: Form) -> Core
    ensures { core_of result ≡ form_of place form }
{
    Core { place, form }
}

/// A node without parts.
#[inline(never)]
pub(crate) fn leaf_node(leaf: Leaf, place: Place) -> Core
    ensures { core_of result ≡ plain.leaf_node leaf place }
{
    match leaf {
        Leaf::Constant(value) => at(place, Form::Quote(value)),
        Leaf::LocalVariable(number) => at(place, Form::Local(number)),
        Leaf::GlobalVariable(name) => at(place, Form::Global(name)),
        Leaf::LocalFunction(number) => at(place, Form::FunLocal(number)),
        Leaf::GlobalFunction(name) => at(place, Form::FunGlobal(name)),
        Leaf::GoTo(tag) => at(place, Form::Go(tag)),
    }
}

/// A node of one part.
#[inline(never)]
pub(crate) fn unary_node(
    alloc: Global,
    node: &Unary,
    place: Place,
    part: Core,
) -> Result<Core, AllocError>
    ensures { IfOk result (λ made. core_of made ≡ plain.unary_node (unary_of node.now) place (core_of part)) }
{
    let part = Box::new(alloc, part)?;
    match node {
        Unary::SettingLocal(number) => Ok(at(place, Form::SetLocal(*number, part))),
        Unary::SettingGlobal(name) => Ok(at(place, Form::SetGlobal(*name, part))),
        Unary::SettingFunction(name) => Ok(at(place, Form::SetFun(*name, part))),
        Unary::Testing(spec) => Ok(at(place, Form::Is(copy_type(alloc, spec)?, part))),
        Unary::Checking(spec) => Ok(at(place, Form::The(copy_type(alloc, spec)?, part))),
        Unary::Returning(block) => Ok(at(place, Form::ReturnFrom(*block, part))),
    }
}

/// A node of two parts.
#[inline(never)]
pub(crate) fn binary_node(
    alloc: Global,
    node: Binary,
    place: Place,
    first: Core,
    second: Core,
) -> Result<Core, AllocError>
    ensures { IfOk result (λ made. core_of made ≡ plain.binary_node node place (core_of first) (core_of second)) }
{
    let first = Box::new(alloc, first)?;
    let second = Box::new(alloc, second)?;
    match node {
        Binary::Catching => Ok(at(place, Form::Catch(first, second))),
        Binary::Throwing => Ok(at(place, Form::Throw(first, second))),
        Binary::Unwinding => Ok(at(place, Form::Unwind(first, second))),
        Binary::KeepingValues => Ok(at(place, Form::MvProg1(first, second))),
    }
}

/// A node of any number of parts.
#[inline(never)]
pub(crate) fn many_node(node: Many, place: Place, parts: Vec<Core>) -> Core
    ensures { core_of result ≡ plain.many_node node place (cores_list parts.items) }
{
    reads_lists();
    reads_nodes();
    match node {
        Many::Sequence => at(place, Form::Progn(parts)),
        Many::CallingLocal(number) => at(place, Form::CallLocal(number, parts)),
        Many::CallingGlobal(name) => at(place, Form::CallGlobal(name, parts)),
        Many::Operating(operation) => at(place, Form::Primitive(operation, parts)),
        Many::GivingValues => at(place, Form::Values(parts)),
    }
}

/// A node of a part that gives a function, and of others.
#[inline(never)]
pub(crate) fn calling_node(
    alloc: Global,
    node: Calling,
    place: Place,
    function: Core,
    parts: Vec<Core>,
) -> Result<Core, AllocError>
    ensures { IfOk result (λ made. core_of made ≡ plain.calling_node node place (core_of function) (cores_list parts.items)) }
{
    reads_nodes();
    let function = Box::new(alloc, function)?;
    match node {
        Calling::Funcalling => Ok(at(place, Form::Funcall(function, parts))),
        Calling::Applying => Ok(at(place, Form::Apply(function, parts))),
        Calling::CallingWithValues => Ok(at(place, Form::MvCall(function, parts))),
    }
}

/// Bindings round a body.
#[inline(never)]
pub(crate) fn binding_node(
    alloc: Global,
    place: Place,
    bindings: Vec<Binding>,
    body: Core,
) -> Result<Core, AllocError>
    ensures { IfOk result (λ made. core_of made ≡ tree.Let place (bindings_list bindings.items) (core_of body)) }
{
    reads_nodes();
    let body = Box::new(alloc, body)?;
    Ok(at(place, Form::Let(bindings, body)))
}

/// A function as a value.
#[inline(never)]
pub(crate) fn function_node(place: Place, function: Lambda) -> Core
    ensures { core_of result ≡ tree.Function place (lambda_of function) }
{
    at(place, Form::Lambda(function))
}

/// Local functions round a body.
#[inline(never)]
pub(crate) fn functions_node(
    alloc: Global,
    place: Place,
    definitions: Vec<Definition>,
    body: Core,
) -> Result<Core, AllocError>
    ensures { IfOk result (λ made. core_of made ≡ tree.Labels place (definitions_list definitions.items) (core_of body)) }
{
    reads_nodes();
    let body = Box::new(alloc, body)?;
    Ok(at(place, Form::Labels(definitions, body)))
}

/// A local function of this number and name as a value, within its own definition.
#[inline(never)]
pub(crate) fn recursive_node(
    alloc: Global,
    place: Place,
    number: u32,
    name: SymId,
    lambda: Lambda,
) -> Result<Core, AllocError>
    ensures { IfOk result (λ made. core_of made ≡ tree.Labels place (tree.define place number name (lambda_of lambda) tree.no_definition) (tree.FunLocal place number)) }
{
    let mut definitions = Vec::new(alloc);
    definitions.push(Definition {
        place,
        number,
        name,
        lambda,
    })?;
    functions_node(alloc, place, definitions, at(place, Form::FunLocal(number)))
}

/// A block round a body.
#[inline(never)]
pub(crate) fn block_node(
    alloc: Global,
    place: Place,
    number: u32,
    name: SymId,
    body: Core,
) -> Result<Core, AllocError>
    ensures { IfOk result (λ made. core_of made ≡ tree.Block place number name (core_of body)) }
{
    Ok(at(place, Form::Block(number, name, Box::new(alloc, body)?)))
}

/// Tags and forms.
#[inline(never)]
pub(crate) fn tagbody_node(place: Place, items: Vec<Item>) -> Core
    ensures { core_of result ≡ tree.Tagbody place (items_list items.items) }
{
    reads_nodes();
    at(place, Form::Tagbody(items))
}

/// A copy of types.
pub(crate) fn copy_types(alloc: Global, types: &[TypeSpec]) -> Result<Specs, AllocError>
    ensures { IfOk result (λ copies. map spec_of copies.items ≡ map spec_of types.now) }
{
    let mut copies = Vec::new(alloc);
    for spec in types {
        copies.push(copy_type(alloc, spec)?)?;
    }
    Ok(copies)
}

/// A copy of a parameter.
#[inline(never)]
pub(crate) fn copy_parameter(alloc: Global, parameter: &Parameter) -> Result<Parameter, AllocError>
    ensures { IfOk result (λ copy. parameter_of copy ≡ parameter_of parameter.now) }
{
    let types = copy_types(alloc, &parameter.types)?;
    Ok(Parameter {
        variable: parameter.variable,
        types,
    })
}

/// A copy of the parameter of a variable that may be missing.
fn copy_some(
    alloc: Global,
    binder: &Option<Binder>,
    parameter: &Option<Parameter>,
) -> Result<Option<Parameter>, AllocError>
    ensures { IfOk result (λ copy. option_map parameter_of copy ≡ parameter_some (beside_some (option_map binder_of binder.now) (option_map parameter_of parameter.now))) }
{
    match (binder, parameter) {
        (Some(_), Some(parameter)) => Ok(Some(copy_parameter(alloc, parameter)?)),
        (Some(_), None) | (None, Some(_)) | (None, None) => Ok(None),
    }
}

/// An optional parameter with the form for its value.
#[inline(never)]
pub(crate) fn optional_part(
    alloc: Global,
    optional: &Optional,
    parameter: &OptionalParameter,
    default: Core,
) -> Result<OptionalPart, AllocError>
    ensures parameter { IfOk result (λ made. parameter_of made.parameter ≡ (pair_of parameter.now).0) }
    ensures supplied { IfOk result (λ made. option_map parameter_of made.supplied ≡ parameter_some (beside_some (optional_of optional.now).supplied (pair_of parameter.now).1)) }
    ensures default { IfOk result (λ made. made.default ≡ default) }
{
    let supplied = copy_some(alloc, &optional.supplied, &parameter.supplied)?;
    let parameter = copy_parameter(alloc, &parameter.parameter)?;
    Ok(OptionalPart {
        parameter,
        default,
        supplied,
    })
}
