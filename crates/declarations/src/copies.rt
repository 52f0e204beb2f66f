//! Copies of type specifiers.

ghost use Rattle.std.specs.Prelude.{◌≡◌, IfOk};
ghost use Rattle.lisp_base.specs.Reading.{spec_of};
ghost use Rattle.lisp_base.specs.Laws.{specs_list};

use lisp_base::{Specs, TypeSpec, reads_specs};
use std::alloc::{AllocError, Global};

/// Copies of several specifiers.
#[cycle(copies)]
fn copy_types(alloc: Global, specs: &[TypeSpec]) -> Result<Specs, AllocError>
    ensures { IfOk result (λ copies. specs_list copies.items ≡ specs_list specs.now) }
{
    let mut copies = Vec::new(alloc);
    for spec in specs {
        copies.push(copy_type(alloc, spec)?)?;
    }
    Ok(copies)
}

/// A copy of a type specifier.
///
/// # Errors
/// Want of memory alone.
#[cycle(copies)]
pub fn copy_type(alloc: Global, spec: &TypeSpec) -> Result<TypeSpec, AllocError>
    ensures { IfOk result (λ copy. spec_of copy ≡ spec_of spec.now) }
{
    reads_specs();
    match spec {
        TypeSpec::Named(name) => Ok(TypeSpec::Named(*name)),
        TypeSpec::Integer { lo, hi } => Ok(TypeSpec::Integer { lo: *lo, hi: *hi }),
        TypeSpec::Signed(bits) => Ok(TypeSpec::Signed(*bits)),
        TypeSpec::Unsigned(bits) => Ok(TypeSpec::Unsigned(*bits)),
        TypeSpec::Mod(limit) => Ok(TypeSpec::Mod(*limit)),
        TypeSpec::Member(items) => Ok(TypeSpec::Member(Vec::from_slice(alloc, items)?)),
        TypeSpec::Eql(item) => Ok(TypeSpec::Eql(*item)),
        TypeSpec::And(parts) => Ok(TypeSpec::And(copy_types(alloc, parts)?)),
        TypeSpec::Or(parts) => Ok(TypeSpec::Or(copy_types(alloc, parts)?)),
        TypeSpec::Not(part) => Ok(TypeSpec::Not(Box::new(alloc, copy_type(alloc, part)?)?)),
    }
}
