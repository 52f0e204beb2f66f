//! Calls: of local functions, of primitives, of functions whose calls are written otherwise, and of
//! global functions.

ghost use Rattle.std.specs.Prelude.{◌≡◌, ◌∷◌, [], IfOk, Some, length, nat_le};
ghost use Rattle.std.specs.Option.{option_and_then, option_map};
ghost use Rattle.lisp_base.specs.declared.primitives.Primitive.TheVariants as q;
ghost use Rattle.lisp_base.specs.declared.values.Val.TheVariants.{Int, Sym};
ghost use Rattle.core_form.specs.Checked.{operation_takes};
ghost use Rattle.core_form.specs.Primitives.{most_arguments};
ghost use Rattle.expansion.specs.Calls as plain;
ghost use Rattle.expansion.specs.Operators.{direct_of as plain_direct};
ghost use Rattle.expansion.specs.Sketches as sketches;
ghost use Rattle.form_expander.specs.Reading.{sketch_of};

use crate::making::{constant, forms, many, one, primitive};
use crate::operators::direct_of;
use crate::sketch::{Sketch, Unary};
use expansion::{Direct, Many};
use lisp_base::{NIL, Primitive, SymId, T, TypeName, TypeSpec, Val, prim_of};
use std::alloc::{AllocError, Global};

/// The most arguments that a call may have.
const MOST_ARGUMENTS: usize = 1024;

/// A symbol as a constant.
fn symbol(name: SymId) -> Sketch
    ensures { sketch_of result ≡ sketches.constant (Sym name) }
{
    constant(Val::Sym(name))
}

/// An integer as a constant.
fn integer(value: i128) -> Sketch
    ensures { sketch_of result ≡ sketches.constant (Int value) }
{
    constant(Val::Int(value))
}

/// A primitive on two parts.
fn on_both(
    alloc: Global,
    operation: Primitive,
    first: Sketch,
    second: Sketch,
) -> Result<Sketch, AllocError>
    ensures { IfOk result (λ made. sketch_of made ≡ sketches.primitive operation (sketch_of first ∷ sketch_of second ∷ [])) }
{
    Ok(primitive(operation, vec![in alloc; first, second]?))
}

/// An operation on the first two of several, then on what that gives and the next, and so on.
fn folded(
    alloc: Global,
    operation: Primitive,
    first: Sketch,
    others: &[Val],
) -> Result<Sketch, AllocError>
    ensures { IfOk result (λ made. sketch_of made ≡ plain.folded operation (sketch_of first) others.now) }
{
    let mut made = first;
    for value in others {
        made = on_both(alloc, operation, made, Sketch::Form(*value))?;
    }
    Ok(made)
}

/// Of no argument the identity, of one that argument, which must be an integer, and of more the
/// operation on all of them.
fn fold_call(
    alloc: Global,
    operation: Primitive,
    identity: Sketch,
    arguments: &[Val],
) -> Result<Option<Sketch>, AllocError>
    ensures { IfOk result (λ found. option_map sketch_of found ≡ plain.fold_call operation (sketch_of identity) arguments.now) }
{
    match arguments {
        [] => Ok(Some(identity)),
        [value] => {
            let integer = Unary::Checking(TypeSpec::Named(TypeName::Integer));
            Ok(Some(one(alloc, integer, Sketch::Form(*value))?))
        }
        [first, others @ ..] => {
            let first = Sketch::Form(*first);
            Ok(Some(folded(alloc, operation, first, others)?))
        }
    }
}

/// A difference; of one argument, its difference from 0.
fn subtraction(alloc: Global, arguments: &[Val]) -> Result<Option<Sketch>, AllocError>
    ensures { IfOk result (λ found. option_map sketch_of found ≡ plain.subtraction arguments.now) }
{
    match arguments {
        [] => Ok(None),
        [value] => {
            let zero = integer(0);
            let value = Sketch::Form(*value);
            Ok(Some(on_both(alloc, Primitive::Subtract, zero, value)?))
        }
        [first, others @ ..] => {
            let first = Sketch::Form(*first);
            Ok(Some(folded(alloc, Primitive::Subtract, first, others)?))
        }
    }
}

/// An operation on the one argument and 1.
fn with_one(
    alloc: Global,
    operation: Primitive,
    arguments: &[Val],
) -> Result<Option<Sketch>, AllocError>
    ensures { IfOk result (λ found. option_map sketch_of found ≡ plain.with_one operation arguments.now) }
{
    match arguments {
        [value] => {
            let value = Sketch::Form(*value);
            Ok(Some(on_both(alloc, operation, value, integer(1))?))
        }
        _ => Ok(None),
    }
}

/// An operation on two arguments.
fn on_two(
    alloc: Global,
    operation: Primitive,
    arguments: &[Val],
) -> Result<Option<Sketch>, AllocError>
    ensures { IfOk result (λ found. option_map sketch_of found ≡ plain.on_two operation arguments.now) }
{
    match arguments {
        [first, second] => {
            let second = Sketch::Form(*second);
            Ok(Some(on_both(alloc, operation, Sketch::Form(*first), second)?))
        }
        _ => Ok(None),
    }
}

/// Reads a character from a stream; what to do at its end.
fn read_char(
    alloc: Global,
    stream: Sketch,
    is_error: Sketch,
    at_end: Sketch,
) -> Result<Option<Sketch>, AllocError>
    ensures { IfOk result (λ made. option_map sketch_of made ≡ Some (sketches.primitive q.ReadChar (sketch_of stream ∷ sketch_of is_error ∷ sketch_of at_end ∷ []))) }
{
    let parts = vec![in alloc; stream, is_error, at_end]?;
    Ok(Some(primitive(Primitive::ReadChar, parts)))
}

/// A call of `READ-CHAR`: the stream, whether the end of the input is an error, and what is given
/// there else; by default NIL, T and NIL.
fn reading(alloc: Global, arguments: &[Val]) -> Result<Option<Sketch>, AllocError>
    ensures { IfOk result (λ found. option_map sketch_of found ≡ plain.reading arguments.now) }
{
    match arguments {
        [] => read_char(alloc, symbol(NIL), symbol(T), symbol(NIL)),
        [stream] => read_char(alloc, Sketch::Form(*stream), symbol(T), symbol(NIL)),
        [stream, is_error] => {
            let is_error = Sketch::Form(*is_error);
            read_char(alloc, Sketch::Form(*stream), is_error, symbol(NIL))
        }
        [stream, is_error, at_end] => {
            let is_error = Sketch::Form(*is_error);
            read_char(
                alloc,
                Sketch::Form(*stream),
                is_error,
                Sketch::Form(*at_end),
            )
        }
        _ => Ok(None),
    }
}

/// A call of `ERROR`: the first argument, and the list of the others.
fn signalling(alloc: Global, arguments: &[Val]) -> Result<Option<Sketch>, AllocError>
    ensures { IfOk result (λ found. option_map sketch_of found ≡ plain.signalling arguments.now) }
{
    match arguments {
        [] => Ok(None),
        [first, others @ ..] => {
            let others = primitive(Primitive::List, forms(alloc, others)?);
            let first = Sketch::Form(*first);
            Ok(Some(on_both(alloc, Primitive::Error, first, others)?))
        }
    }
}

/// Whether the one argument is of a type.
fn type_test(
    alloc: Global,
    expected: TypeName,
    arguments: &[Val],
) -> Result<Option<Sketch>, AllocError>
    ensures { IfOk result (λ found. option_map sketch_of found ≡ plain.type_test expected arguments.now) }
{
    match arguments {
        [value] => {
            let test = Unary::Testing(TypeSpec::Named(expected));
            Ok(Some(one(alloc, test, Sketch::Form(*value))?))
        }
        _ => Ok(None),
    }
}

/// A call that is written otherwise than as a call of the primitive of its name; None exactly
/// where its number of arguments is wrong.
#[tactic(auto, unfolding(expansion::specs::Calls::direct_sketch))]
fn direct_sketch(
    alloc: Global,
    call: Direct,
    arguments: &[Val],
) -> Result<Option<Sketch>, AllocError>
    ensures { IfOk result (λ found. option_map sketch_of found ≡ plain.direct_sketch call arguments.now) }
{
    match call {
        Direct::Add => fold_call(alloc, Primitive::Add, integer(0), arguments),
        Direct::Subtract => subtraction(alloc, arguments),
        Direct::Multiply => fold_call(alloc, Primitive::Multiply, integer(1), arguments),
        Direct::LogAnd => fold_call(alloc, Primitive::LogAnd, integer(-1), arguments),
        Direct::LogIor => fold_call(alloc, Primitive::LogIor, integer(0), arguments),
        Direct::LogXor => fold_call(alloc, Primitive::LogXor, integer(0), arguments),
        Direct::Increment => with_one(alloc, Primitive::Add, arguments),
        Direct::Decrement => with_one(alloc, Primitive::Subtract, arguments),
        Direct::Truncate => with_one(alloc, Primitive::Truncate, arguments),
        Direct::Floor => with_one(alloc, Primitive::Floor, arguments),
        Direct::ReadChar => reading(alloc, arguments),
        Direct::Error => signalling(alloc, arguments),
        Direct::Eql => on_two(alloc, Primitive::Eq, arguments),
        Direct::Char => on_two(alloc, Primitive::Schar, arguments),
        Direct::Not | Direct::Null => type_test(alloc, TypeName::Null, arguments),
        Direct::Consp => type_test(alloc, TypeName::Cons, arguments),
        Direct::Listp => type_test(alloc, TypeName::List, arguments),
        Direct::Atom => type_test(alloc, TypeName::Atom, arguments),
        Direct::Symbolp => type_test(alloc, TypeName::Symbol, arguments),
        Direct::Keywordp => type_test(alloc, TypeName::Keyword, arguments),
        Direct::Integerp => type_test(alloc, TypeName::Integer, arguments),
        Direct::Numberp => type_test(alloc, TypeName::Number, arguments),
        Direct::Characterp => type_test(alloc, TypeName::Character, arguments),
        Direct::Functionp => type_test(alloc, TypeName::Function, arguments),
        Direct::Stringp => type_test(alloc, TypeName::String, arguments),
        Direct::SimpleStringP => type_test(alloc, TypeName::SimpleString, arguments),
        Direct::Vectorp => type_test(alloc, TypeName::Vector, arguments),
        Direct::SimpleVectorP => type_test(alloc, TypeName::SimpleVector, arguments),
    }
}

/// The call of a function whose calls are written otherwise, where the symbol names one.
fn direct_call(alloc: Global, name: SymId, arguments: &[Val]) -> Result<Option<Sketch>, AllocError>
    ensures { IfOk result (λ found. option_map sketch_of found ≡ option_and_then (λ d. plain.direct_sketch d arguments.now) (plain_direct name)) }
{
    match direct_of(name) {
        Some(call) => direct_sketch(alloc, call, arguments),
        None => Ok(None),
    }
}

/// Whether a primitive takes so many arguments.
#[tactic(auto, unfolding(core_form::specs::Primitives::most_arguments))]
fn takes(operation: Primitive, count: usize) -> bool
    ensures { result ≡ operation_takes operation count }
{
    let row = operation.row();
    let fits = match row.rest {
        Some(_) => count >= row.count as usize,
        None => count == row.count as usize,
    };
    fits && count <= MOST_ARGUMENTS
}

/// A primitive on as many arguments as it takes.
fn primitive_on(
    alloc: Global,
    operation: Primitive,
    arguments: &[Val],
) -> Result<Option<Sketch>, AllocError>
    ensures { IfOk result (λ found. option_map sketch_of found ≡ plain.primitive_on arguments.now operation) }
{
    if takes(operation, arguments.len()) {
        Ok(Some(primitive(operation, forms(alloc, arguments)?)))
    } else {
        Ok(None)
    }
}

/// The call of a primitive, where the symbol names one that takes as many arguments.
fn primitive_sketch(
    alloc: Global,
    name: SymId,
    arguments: &[Val],
) -> Result<Option<Sketch>, AllocError>
    ensures { IfOk result (λ found. option_map sketch_of found ≡ plain.primitive_sketch name arguments.now) }
{
    match prim_of(name) {
        Some(operation) => primitive_on(alloc, operation, arguments),
        None => Ok(None),
    }
}

/// A call of the global function of a symbol (ANSI Common Lisp 3.1.2.1.2.3).
///
/// # Errors
/// Want of memory alone.
#[tactic(auto, unfolding(expansion::specs::Calls::global_call))]
pub(crate) fn global_call(
    alloc: Global,
    name: SymId,
    arguments: &[Val],
) -> Result<Sketch, AllocError>
    ensures { IfOk result (λ made. sketch_of made ≡ plain.global_call name arguments.now) }
{
    if let Some(made) = direct_call(alloc, name, arguments)? {
        return Ok(made);
    }
    if let Some(made) = primitive_sketch(alloc, name, arguments)? {
        return Ok(made);
    }
    Ok(many(Many::CallingGlobal(name), forms(alloc, arguments)?))
}

/// A call of a local function.
///
/// # Errors
/// Want of memory alone.
pub(crate) fn call_local(
    alloc: Global,
    function: u32,
    arguments: &[Val],
) -> Result<Sketch, AllocError>
    ensures { IfOk result (λ made. sketch_of made ≡ plain.calls_local function arguments.now) }
{
    Ok(many(Many::CallingLocal(function), forms(alloc, arguments)?))
}

/// Whether a call may have these arguments.
#[tactic(auto, unfolding(core_form::specs::Primitives::most_arguments))]
pub(crate) fn are_few(arguments: &[Val]) -> bool
    ensures { result ≡ nat_le (length arguments.now) most_arguments }
{
    arguments.len() <= MOST_ARGUMENTS
}
