//! The sets of type specifiers.

ghost use Rattle.std.specs.Prelude.{◌≡◌, true, IfOk, length};
ghost use Rattle.std.specs.List.{list_all};
ghost use Rattle.lisp_base.specs.Tables.{Table};
ghost use Rattle.lisp_base.specs.Reading.{spec_of};
ghost use Rattle.lisp_base.specs.Laws.{specs_list};
ghost use Rattle.lisp_base.specs.Lawful.{IsLawful, has_lawful_parts, all_lawful_parts, is_item, is_bound, is_width, is_integer_value};
ghost use Rattle.lisp_base.specs.Spec.{Named, Integer, Signed, Unsigned, Mod, Member, Eql};
ghost use Rattle.type_lattice.specs.Described.{Describes, DescribesAll};

use crate::kinds::Kinds;
use crate::made::{one_character, one_symbol};
use crate::named::{highest, highest_signed, highest_unsigned, lowest, lowest_signed, of_name};
use crate::ranges::Ranges;
use crate::ty::Ty;
use crate::walk::Combination;
use lisp_base::{Bound, SymKind, SymTab, TypeName, TypeSpec, Val, reads_specs};
use std::alloc::{AllocError, Global};

/// The set of a named type.
fn name_set(alloc: Global, name: TypeName) -> Result<Ty, AllocError>
    ensures { IfOk result (λ t. (table : Table) → Describes table (Named name) t) }
{
    of_name(alloc, name)
}

/// The integers between two bounds.
fn range_set(alloc: Global, lo: Bound, hi: Bound) -> Result<Ty, AllocError>
    requires lo { is_bound lo ≡ true }
    requires hi { is_bound hi ≡ true }
    ensures { IfOk result (λ t. (table : Table) → Describes table (Integer lo hi) t) }
{
    Ty::of_integers(alloc, lowest(lo), highest(hi))
}

/// The integers of so many bits in two's complement.
fn signed_set(alloc: Global, bits: u32) -> Result<Ty, AllocError>
    requires { is_width bits ≡ true }
    ensures { IfOk result (λ t. (table : Table) → Describes table (Signed bits) t) }
{
    Ty::of_integers(alloc, lowest_signed(bits), highest_signed(bits))
}

/// The integers of so many bits without a sign.
fn unsigned_set(alloc: Global, bits: u32) -> Result<Ty, AllocError>
    requires { is_width bits ≡ true }
    ensures { IfOk result (λ t. (table : Table) → Describes table (Unsigned bits) t) }
{
    Ty::of_integers(alloc, 0, highest_unsigned(bits))
}

/// The integers from 0 to below a number.
fn below_set(alloc: Global, below: i128) -> Result<Ty, AllocError>
    requires { is_integer_value below ≡ true }
    ensures { IfOk result (λ t. (table : Table) → Describes table (Mod below) t) }
{
    Ty::of_integers(alloc, 0, highest(Bound::Past(below)))
}

/// One integer, character or symbol.
fn item_set(alloc: Global, item: Val, symbols: &SymTab) -> Result<Ty, AllocError>
    requires { is_item symbols.now item ≡ true }
    ensures { IfOk result (Describes symbols.now (Eql item)) }
{
    match item {
        Val::Int(number) => Ty::of_integers(alloc, number, number),
        Val::Char(letter) => {
            let letters = one_character(alloc, letter)?;
            Ok(Ty::of_characters(alloc, letters))
        }
        Val::Sym(id) => {
            let one = one_symbol(alloc, id.0)?;
            let others = Ranges::nothing(alloc);
            match symbols.kind(id) {
                Some(SymKind::Keyword) => Ok(Ty::of_symbols(alloc, others, one)),
                Some(SymKind::Plain) | Some(SymKind::Fresh) | None => {
                    Ok(Ty::of_symbols(alloc, one, others))
                }
            }
        }
        Val::Ref(_) => Ok(Ty::of_kinds(alloc, Kinds::NONE)),
    }
}

/// Several integers, characters and symbols.
fn items_set(alloc: Global, items: &[Val], symbols: &SymTab) -> Result<Ty, AllocError>
    requires { list_all (is_item symbols.now) items.now ≡ true }
    ensures { IfOk result (Describes symbols.now (Member items.now)) }
{
    if items.is_empty() {
        return Ok(Ty::of_kinds(alloc, Kinds::NONE));
    }
    if items.len() == 1 {
        return item_set(alloc, items[0], symbols);
    }
    let (front, back) = items.split_at(items.len() / 2);
    let front = items_set(alloc, front, symbols)?;
    let back = items_set(alloc, back, symbols)?;
    front.union(alloc, &back)
}

/// What is in one of several types, or in all of them.
#[cycle(spec)]
fn parts_set(
    alloc: Global,
    parts: &[TypeSpec],
    symbols: &SymTab,
    how: Combination,
) -> Result<Ty, AllocError>
    requires { all_lawful_parts symbols.now (specs_list parts.now) ≡ true }
    ensures { IfOk result (DescribesAll how symbols.now (specs_list parts.now)) }
{
    let mut all = match how {
        Combination::Union => Ty::of_kinds(alloc, Kinds::NONE),
        Combination::Meet => Ty::all_but(alloc, Kinds::NONE),
    };
    for part in parts {
        let one = tree_set(alloc, part, symbols)?;
        all = all.combine(alloc, &one, how)?;
    }
    Ok(all)
}

/// The set of a type specifier.
#[cycle(spec)]
fn tree_set(alloc: Global, spec: &TypeSpec, symbols: &SymTab) -> Result<Ty, AllocError>
    requires { has_lawful_parts symbols.now (spec_of spec.now) ≡ true }
    ensures { IfOk result (Describes symbols.now (spec_of spec.now)) }
{
    reads_specs();
    match spec {
        TypeSpec::Named(name) => name_set(alloc, *name),
        TypeSpec::Integer { lo, hi } => range_set(alloc, *lo, *hi),
        TypeSpec::Signed(bits) => signed_set(alloc, *bits),
        TypeSpec::Unsigned(bits) => unsigned_set(alloc, *bits),
        TypeSpec::Mod(below) => below_set(alloc, *below),
        TypeSpec::Member(items) => items_set(alloc, items, symbols),
        TypeSpec::Eql(item) => item_set(alloc, *item, symbols),
        TypeSpec::And(parts) => parts_set(alloc, parts, symbols, Combination::Meet),
        TypeSpec::Or(parts) => parts_set(alloc, parts, symbols, Combination::Union),
        TypeSpec::Not(part) => tree_set(alloc, part, symbols)?.not(alloc),
    }
}

impl Ty {
    /// The set of the values that a type specifier holds, in every store and with every symbol
    /// table that goes on from this one.
    ///
    /// # Errors
    /// Want of memory alone.
    pub fn of_spec(alloc: Global, spec: &TypeSpec, symbols: &SymTab) -> Result<Ty, AllocError>
        requires { IsLawful symbols.now (spec_of spec.now) }
        ensures { IfOk result (Describes symbols.now (spec_of spec.now)) }
    {
        tree_set(alloc, spec, symbols)
    }
}
