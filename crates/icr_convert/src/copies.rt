// Copies of type specifiers, and their sizes.
ghost use Rattle.std.specs.Prelude.{◌≡◌, ◌+◌, IfOk};
ghost use Rattle.lisp_base.specs.Laws.{specs_list};
ghost use Rattle.lisp_base.specs.Reading.{spec_of};
ghost use Rattle.lisp_base.specs.Spec.{spec_size, specs_size};

use lisp_base::{Specs, TypeSpec, reads_specs};
use std::alloc::{AllocError, Global};

/// A list of the same type specifiers.
#[cycle(copies)]
pub(crate) fn copies_of(alloc: Global, specs: &[TypeSpec]) -> Result<Specs, AllocError>
    ensures { IfOk result (λ copies. specs_list copies.items ≡ specs_list specs.now) }
{
    let mut copies = Vec::new(alloc);
    for spec in specs {
        copies.push(copy_of(alloc, spec)?)?;
    }
    Ok(copies)
}

/// A type specifier that is the same.
#[cycle(copies)]
pub(crate) fn copy_of(alloc: Global, spec: &TypeSpec) -> Result<TypeSpec, AllocError>
    ensures { IfOk result (λ copy. spec_of copy ≡ spec_of spec.now) }
{
    reads_specs();
    match spec {
        TypeSpec::Named(name) => Ok(TypeSpec::Named(*name)),
        TypeSpec::Integer { lo, hi } => Ok(TypeSpec::Integer { lo: *lo, hi: *hi }),
        TypeSpec::Signed(bits) => Ok(TypeSpec::Signed(*bits)),
        TypeSpec::Unsigned(bits) => Ok(TypeSpec::Unsigned(*bits)),
        TypeSpec::Mod(limit) => Ok(TypeSpec::Mod(*limit)),
        TypeSpec::Member(items) => Ok(TypeSpec::Member(Vec::from_slice(alloc, items)?)),
        TypeSpec::Eql(item) => Ok(TypeSpec::Eql(*item)),
        TypeSpec::And(parts) => Ok(TypeSpec::And(copies_of(alloc, parts)?)),
        TypeSpec::Or(parts) => Ok(TypeSpec::Or(copies_of(alloc, parts)?)),
        TypeSpec::Not(part) => Ok(TypeSpec::Not(Box::new(alloc, copy_of(alloc, part)?)?)),
    }
}

/// A sum of sizes.
///
/// # Errors
/// Told as want of memory: it has more than 32 bits.
fn plus(size: u32, more: usize) -> Result<u32, AllocError>
    ensures { IfOk result (λ n. n ≡ size + more) }
{
    let Ok(more) = u32::try_from(more) else {
        return Err(AllocError);
    };
    match size.checked_add(more) {
        Some(sum) => Ok(sum),
        None => Err(AllocError),
    }
}

#[cycle(sizes)]
fn sizes_of(parts: &[TypeSpec]) -> Result<u32, AllocError>
    ensures { IfOk result (λ n. n ≡ specs_size (specs_list parts.now)) }
{
    let mut total = 0;
    for part in parts {
        total = plus(total, size_of(part)? as usize)?;
    }
    Ok(total)
}

/// The number of a specifier's tree nodes and MEMBER items.
///
/// # Errors
/// Told as want of memory: it has more than 32 bits.
#[cycle(sizes)]
pub(crate) fn size_of(spec: &TypeSpec) -> Result<u32, AllocError>
    ensures { IfOk result (λ n. n ≡ spec_size (spec_of spec.now)) }
{
    reads_specs();
    match spec {
        TypeSpec::Named(_)
        | TypeSpec::Integer { .. }
        | TypeSpec::Signed(_)
        | TypeSpec::Unsigned(_)
        | TypeSpec::Mod(_)
        | TypeSpec::Eql(_) => Ok(1),
        TypeSpec::Member(items) => plus(1, items.len()),
        TypeSpec::And(parts) | TypeSpec::Or(parts) => plus(1, sizes_of(parts)? as usize),
        TypeSpec::Not(part) => plus(1, size_of(part)? as usize),
    }
}
