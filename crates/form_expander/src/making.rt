//! Sketches made of their parts.

ghost use Rattle.std.specs.Prelude.{◌≡◌, IfOk, map};
ghost use Rattle.lisp_base.specs.Reading.{spec_of};
ghost use Rattle.declarations.specs.Declarations.{declared_of};
ghost use Rattle.expansion.specs.Sketches as plain;
ghost use Rattle.expansion.specs.declared.heads.Many.TheVariants as heads;
ghost use Rattle.form_expander.specs.Reading.{function_from, initial_of, sketch_of, sketches_list, unary_of};

use crate::sketch::{Function, Initial, Sketch, Unary};
use declarations::Declared;
use expansion::{Binary, Calling, Leaf, Many, Reach};
use lisp_base::{NIL, Primitive, Specs, SymId, Val, Vals};
use std::alloc::{AllocError, Global};

/// A constant.
pub(crate) fn constant(value: Val) -> Sketch
    ensures { sketch_of result ≡ plain.constant value }
{
    Sketch::Leaf(Leaf::Constant(value))
}

/// A node of one part.
pub(crate) fn one(alloc: Global, node: Unary, part: Sketch) -> Result<Sketch, AllocError>
    ensures { IfOk result (λ made. sketch_of made ≡ plain.one (unary_of node) (sketch_of part)) }
{
    Ok(Sketch::One(node, Box::new(alloc, part)?))
}

/// A node of two parts.
pub(crate) fn two(
    alloc: Global,
    node: Binary,
    first: Sketch,
    second: Sketch,
) -> Result<Sketch, AllocError>
    ensures { IfOk result (λ made. sketch_of made ≡ plain.two node (sketch_of first) (sketch_of second)) }
{
    let first = Box::new(alloc, first)?;
    let second = Box::new(alloc, second)?;
    Ok(Sketch::Two(node, first, second))
}

/// The choice between two parts by a third.
pub(crate) fn choice(
    alloc: Global,
    test: Sketch,
    yes: Sketch,
    no: Sketch,
) -> Result<Sketch, AllocError>
    ensures { IfOk result (λ made. sketch_of made ≡ plain.choice (sketch_of test) (sketch_of yes) (sketch_of no)) }
{
    let test = Box::new(alloc, test)?;
    let yes = Box::new(alloc, yes)?;
    let no = Box::new(alloc, no)?;
    Ok(Sketch::Choice(test, yes, no))
}

/// A node of any number of parts.
pub(crate) fn many(node: Many, parts: Vec<Sketch>) -> Sketch
    ensures { sketch_of result ≡ plain.many node (sketches_list parts.items) }
{
    Sketch::Many(node, parts)
}

/// A node of a part that gives a function, and of others.
pub(crate) fn calling(
    alloc: Global,
    node: Calling,
    function: Sketch,
    parts: Vec<Sketch>,
) -> Result<Sketch, AllocError>
    ensures { IfOk result (λ made. sketch_of made ≡ plain.calling node (sketch_of function) (sketches_list parts.items)) }
{
    Ok(Sketch::Calling(node, Box::new(alloc, function)?, parts))
}

/// Bindings round a body.
pub(crate) fn bind(
    alloc: Global,
    bindings: Vec<Initial>,
    body: Sketch,
) -> Result<Sketch, AllocError>
    ensures { IfOk result (λ made. sketch_of made ≡ plain.bind (map initial_of bindings.items) (sketch_of body)) }
{
    Ok(Sketch::Bind(bindings, Box::new(alloc, body)?))
}

/// Local functions round a body.
pub(crate) fn functions(
    alloc: Global,
    reach: Reach,
    definitions: Vals,
    body: Sketch,
) -> Result<Sketch, AllocError>
    ensures { IfOk result (λ made. sketch_of made ≡ plain.functions reach definitions.items (sketch_of body)) }
{
    Ok(Sketch::Functions(reach, definitions, Box::new(alloc, body)?))
}

/// A block.
pub(crate) fn block(alloc: Global, name: SymId, body: Sketch) -> Result<Sketch, AllocError>
    ensures { IfOk result (λ made. sketch_of made ≡ plain.block name (sketch_of body)) }
{
    Ok(Sketch::Block(name, Box::new(alloc, body)?))
}

/// A part within declarations.
pub(crate) fn within(alloc: Global, declared: Declared, body: Sketch) -> Result<Sketch, AllocError>
    ensures { IfOk result (λ made. sketch_of made ≡ plain.within (declared_of declared) (sketch_of body)) }
{
    Ok(Sketch::Within(declared, Box::new(alloc, body)?))
}

/// Forms as parts.
pub(crate) fn forms(alloc: Global, values: &[Val]) -> Result<Vec<Sketch>, AllocError>
    ensures { IfOk result (λ made. sketches_list made.items ≡ plain.sketches (plain.forms values.now)) }
{
    let mut parts = Vec::new(alloc);
    for value in values {
        parts.push(Sketch::Form(*value))?;
    }
    Ok(parts)
}

/// Forms one after another: of no form NIL, of one that form.
pub(crate) fn body(alloc: Global, values: &[Val]) -> Result<Sketch, AllocError>
    ensures { IfOk result (λ made. sketch_of made ≡ plain.body values.now) }
{
    match values {
        [] => Ok(constant(Val::Sym(NIL))),
        [value] => Ok(Sketch::Form(*value)),
        _ => Ok(many(Many::Sequence, forms(alloc, values)?)),
    }
}

/// A primitive on parts.
pub(crate) fn primitive(operation: Primitive, parts: Vec<Sketch>) -> Sketch
    ensures { sketch_of result ≡ plain.many (heads.Operating operation) (sketches_list parts.items) }
{
    many(Many::Operating(operation), parts)
}

/// A part with checks, the first innermost.
pub(crate) fn checked(alloc: Global, types: Specs, part: Sketch) -> Result<Sketch, AllocError>
    ensures { IfOk result (λ made. sketch_of made ≡ plain.checked (map spec_of types.items) (sketch_of part)) }
{
    let mut made = part;
    for expected in types {
        made = one(alloc, Unary::Checking(expected), made)?;
    }
    Ok(made)
}
