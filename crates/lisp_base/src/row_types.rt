// The type specifiers of the types in the table of primitives.
ghost use Rattle.std.specs.Prelude.{◌≡◌, pos, IfOk};
ghost use Rattle.lisp_base.specs.Reading.{spec_of};
ghost use Rattle.lisp_base.specs.Rows.{either_of, nil_or_truth, settable_symbols, prim_type_spec};
ghost use Rattle.lisp_base.specs.Spec as spec;
ghost use Rattle.lisp_base.specs.SpecLists.{specs_list};

use crate::rows::PrimType;
use crate::types::{Bound, Specs, TypeName, TypeSpec};
use crate::values::{NIL, T, Val};
use std::alloc::{AllocError, Global};

/// The type specifier of a type in the table of primitives.
///
/// # Errors
///
/// Only for want of memory.
#[tactic(auto, unfolding(crate::specs::Rows::greatest_code, crate::specs::Shown::most_elements))]
pub fn prim_spec(alloc: Global, t: PrimType) -> Result<TypeSpec, AllocError>
    ensures { IfOk result (λ s. spec_of s ≡ prim_type_spec t) }
{
    let name = match t {
        PrimType::T => TypeName::T,
        PrimType::Never => TypeName::Nil,
        PrimType::Integer => TypeName::Integer,
        PrimType::Character => TypeName::Character,
        PrimType::Boolean => TypeName::Boolean,
        PrimType::Symbol => TypeName::Symbol,
        PrimType::List => TypeName::List,
        PrimType::Cons => TypeName::Cons,
        PrimType::SimpleVector => TypeName::SimpleVector,
        PrimType::SimpleString => TypeName::SimpleString,
        PrimType::Function => TypeName::Function,
        PrimType::CodePoint => return Ok(up_to(1_114_111)),
        PrimType::Length => return Ok(up_to(16_777_215)),
        PrimType::NilOrT => return nil_or_t(alloc),
        PrimType::CharacterOrNull => {
            let character = TypeSpec::Named(TypeName::Character);
            return either(alloc, character, TypeSpec::Named(TypeName::Null));
        }
        PrimType::Settable => return settable(alloc),
    };
    Ok(TypeSpec::Named(name))
}

/// The integers from 0 to a number.
fn up_to(most: i128) -> TypeSpec
    ensures { spec_of result ≡ spec.Integer (Bound.At (pos 0)) (Bound.At most) }
{
    TypeSpec::Integer {
        lo: Bound::At(0),
        hi: Bound::At(most),
    }
}

/// NIL and T, by name.
fn nil_or_t(alloc: Global) -> Result<TypeSpec, AllocError>
    ensures { IfOk result (λ s. spec_of s ≡ nil_or_truth) }
{
    let mut items = Vec::new(alloc);
    items.push(Val::Sym(NIL))?;
    items.push(Val::Sym(T))?;
    Ok(TypeSpec::Member(items))
}

/// What is in one of two.
fn either(alloc: Global, a: TypeSpec, b: TypeSpec) -> Result<TypeSpec, AllocError>
    ensures { IfOk result (λ s. spec_of s ≡ either_of (spec_of a) (spec_of b)) }
{
    let mut parts = Vec::new(alloc);
    parts.push(a)?;
    parts.push(b)?;
    Ok(any_of(parts))
}

/// The symbols whose value may be set: no keyword, and neither NIL nor T.
fn settable(alloc: Global) -> Result<TypeSpec, AllocError>
    ensures { IfOk result (λ s. spec_of s ≡ settable_symbols) }
{
    let fixed = either(alloc, nil_or_t(alloc)?, TypeSpec::Named(TypeName::Keyword))?;
    let mut parts = Vec::new(alloc);
    parts.push(TypeSpec::Named(TypeName::Symbol))?;
    parts.push(TypeSpec::Not(Box::new(alloc, fixed)?))?;
    Ok(all_of(parts))
}

/// What is in one of these.
fn any_of(parts: Specs) -> TypeSpec
    ensures { spec_of result ≡ spec.Or (specs_list parts.items) }
{
    TypeSpec::Or(parts)
}

/// What is in all of these.
fn all_of(parts: Specs) -> TypeSpec
    ensures { spec_of result ≡ spec.And (specs_list parts.items) }
{
    TypeSpec::And(parts)
}
