// Nodes made of their parts.
ghost use Rattle.std.specs.Prelude.{◌≡◌, OnOk, IfOk};
ghost use Rattle.lisp_base.specs.Reading.{spec_of};
ghost use Rattle.core_form.specs.Reading.{core_of, cores_list};
ghost use Rattle.core_form.specs.Tree as plain;

use crate::tree::{Core, Form};
use lisp_base::{Place, Primitive, TypeSpec, Val};
use std::alloc::{AllocError, Global};

/// A constant.
pub fn quote(place: Place, value: Val) -> Core
    ensures { core_of result ≡ plain.Quote place value }
{
    Core {
        place,
        form: Form::Quote(value),
    }
}

/// The choice between two forms by a third.
///
/// # Errors
///
/// Only for want of memory.
pub fn choice(
    alloc: Global,
    place: Place,
    test: Core,
    yes: Core,
    no: Core,
) -> Result<Core, AllocError>
    ensures { IfOk result (λ c. core_of c ≡ plain.If place (core_of test) (core_of yes) (core_of no)) }
{
    let test = Box::new(alloc, test)?;
    let yes = Box::new(alloc, yes)?;
    let no = Box::new(alloc, no)?;
    let form = Form::If(test, yes, no);
    Ok(Core { place, form })
}

/// Forms one after another.
pub fn sequence(place: Place, parts: Vec<Core>) -> Core
    ensures { core_of result ≡ plain.Progn place (cores_list parts.items) }
{
    Core {
        place,
        form: Form::Progn(parts),
    }
}

/// A primitive on its arguments.
pub fn call(place: Place, operation: Primitive, arguments: Vec<Core>) -> Core
    ensures { core_of result ≡ plain.Primitive place operation (cores_list arguments.items) }
{
    Core {
        place,
        form: Form::Primitive(operation, arguments),
    }
}

/// A form whose first value must be of a type.
///
/// # Errors
///
/// Only for want of memory.
pub fn checked(
    alloc: Global,
    place: Place,
    expected: TypeSpec,
    form: Core,
) -> Result<Core, AllocError>
    ensures { IfOk result (λ c. core_of c ≡ plain.The place (spec_of expected) (core_of form)) }
{
    let form = Form::The(expected, Box::new(alloc, form)?);
    Ok(Core { place, form })
}
