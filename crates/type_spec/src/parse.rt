//! From forms to type specifiers.

ghost use Rattle.std.specs.Prelude.{◌≡◌, ◌+◌, OnOk, OnErr, IfOk};
ghost use Rattle.lisp_base.specs.Reading.{spec_of};
ghost use Rattle.lisp_base.specs.Laws.{specs_list};
ghost use Rattle.lisp_base.specs.Lawful.{IsLawful, most_parts};
ghost use Rattle.type_spec.specs.Parsing.{specifier};
ghost use Rattle.type_spec.specs.Writing.{Writes, IsRead, AreRead, AreListed, IsReadAfter, WritesNone, ListsNone, HasNoItems, WritesNoneAfter};

use crate::fault::TypeFault;
use crate::operands::{bounds, cons_of, count, is_nil, item_of, only_item, only_operand, width};
use crate::words::{Operator, operator_at, type_at};
use lisp_base::{Heap, Specs, SymTab, TypeSpec, Val, Vals, reads_specs};
use std::alloc::Global;

/// Takes room for one more node or item.
fn take_room(room: &mut u32) -> Result<(), TypeFault>
    ensures ok { OnOk result (room.old ≡ room.new + 1) }
    ensures bad { OnErr result (room.old ≡ 0) }
{
    if *room == 0 {
        return Err(TypeFault::BadType);
    }
    *room -= 1;
    Ok(())
}

/// The items of a list.
fn items(
    alloc: Global,
    list: Val,
    symbols: &SymTab,
    heap: &Heap,
    room: &mut u32,
) -> Result<Vals, TypeFault>
    ensures ok { IfOk result (λ v. AreListed heap.now symbols.now list v.items room.old room.new) }
    ensures bad { result ≡ Err TypeFault.BadType → HasNoItems heap.now symbols.now list room.old }
{
    let mut items = Vec::new(alloc);
    let mut rest = list;
    while !is_nil(rest) {
        take_room(room)?;
        let Some((first, others)) = cons_of(heap, rest) else {
            return Err(TypeFault::BadType);
        };
        let Some(item) = item_of(symbols, first) else {
            return Err(TypeFault::BadType);
        };
        items.push(item)?;
        rest = others;
    }
    Ok(items)
}

/// The specifiers of a list.
#[cycle(parse)]
fn parts(
    alloc: Global,
    list: Val,
    symbols: &SymTab,
    heap: &Heap,
    room: &mut u32,
) -> Result<Specs, TypeFault>
    ensures ok { IfOk result (λ v. AreRead heap.now symbols.now list (specs_list v.items) room.old room.new) }
    ensures bad { result ≡ Err TypeFault.BadType → ListsNone heap.now symbols.now list room.old }
{
    let mut parts = Vec::new(alloc);
    let mut rest = list;
    while !is_nil(rest) {
        let Some((first, others)) = cons_of(heap, rest) else {
            return Err(TypeFault::BadType);
        };
        let part = tree(alloc, first, symbols, heap, room)?;
        parts.push(part)?;
        rest = others;
    }
    Ok(parts)
}

/// The specifier of an operator with its operands.
#[cycle(parse)]
fn call(
    alloc: Global,
    operator: Operator,
    operands: Val,
    symbols: &SymTab,
    heap: &Heap,
    room: &mut u32,
) -> Result<TypeSpec, TypeFault>
    ensures ok { IfOk result (λ t. IsReadAfter heap.now symbols.now operator operands (spec_of t) room.old room.new) }
    ensures bad { result ≡ Err TypeFault.BadType → WritesNoneAfter heap.now symbols.now operator operands room.old }
{
    reads_specs();
    match operator {
        Operator::Integer => match bounds(heap, symbols, operands) {
            Some((lo, hi)) => Ok(TypeSpec::Integer { lo, hi }),
            None => Err(TypeFault::BadType),
        },
        Operator::Signed => match width(heap, operands) {
            Some(bits) => Ok(TypeSpec::Signed(bits)),
            None => Err(TypeFault::BadType),
        },
        Operator::Unsigned => match width(heap, operands) {
            Some(bits) => Ok(TypeSpec::Unsigned(bits)),
            None => Err(TypeFault::BadType),
        },
        Operator::Mod => match count(heap, operands) {
            Some(number) => Ok(TypeSpec::Mod(number)),
            None => Err(TypeFault::BadType),
        },
        Operator::Member => Ok(TypeSpec::Member(items(alloc, operands, symbols, heap, room)?)),
        Operator::Eql => match only_item(heap, symbols, operands) {
            Some(item) => Ok(TypeSpec::Eql(item)),
            None => Err(TypeFault::BadType),
        },
        Operator::And => Ok(TypeSpec::And(parts(alloc, operands, symbols, heap, room)?)),
        Operator::Or => Ok(TypeSpec::Or(parts(alloc, operands, symbols, heap, room)?)),
        Operator::Not => {
            let Some(part) = only_operand(heap, operands) else {
                return Err(TypeFault::BadType);
            };
            let part = tree(alloc, part, symbols, heap, room)?;
            Ok(TypeSpec::Not(Box::new(alloc, part)?))
        }
    }
}

/// The specifier that a form writes, if there is room for it.
#[cycle(parse)]
fn tree(
    alloc: Global,
    form: Val,
    symbols: &SymTab,
    heap: &Heap,
    room: &mut u32,
) -> Result<TypeSpec, TypeFault>
    ensures ok { IfOk result (λ t. IsRead heap.now symbols.now form (spec_of t) room.old room.new) }
    ensures bad { result ≡ Err TypeFault.BadType → WritesNone heap.now symbols.now form room.old }
{
    take_room(room)?;
    if let Some(name) = type_at(symbols, form) {
        return Ok(TypeSpec::Named(name));
    }
    let Some((head, operands)) = cons_of(heap, form) else {
        return Err(TypeFault::BadType);
    };
    let Some(operator) = operator_at(symbols, head) else {
        return Err(TypeFault::BadType);
    };
    call(alloc, operator, operands, symbols, heap, room)
}

/// How many nodes and MEMBER items a specifier may have.
const MOST_PARTS: u32 = 4000;

/// The type specifier that a form writes, which is lawful.
///
/// # Errors
/// `BadType` exactly where the form writes none of at most 4,000 nodes and MEMBER items: other
/// forms, lists that are improper or circular, and numbers out of their ranges among them. Want of
/// memory.
#[tactic(auto, unfolding(lisp_base::specs::Lawful::most_parts))]
pub fn parse_type(
    alloc: Global,
    form: Val,
    symbols: &SymTab,
    heap: &Heap,
) -> Result<TypeSpec, TypeFault>
    ensures writes { IfOk result (λ t. Writes heap.now symbols.now (spec_of t) form) }
    ensures lawful { IfOk result (λ t. IsLawful symbols.now (spec_of t)) }
    ensures bad { result ≡ Err TypeFault.BadType → WritesNone heap.now symbols.now form most_parts }
    ensures found { IfOk result (λ t. specifier heap.now symbols.now form ≡ Some (spec_of t)) }
    ensures none { result ≡ Err TypeFault.BadType → specifier heap.now symbols.now form ≡ None }
{
    let mut room = MOST_PARTS;
    tree(alloc, form, symbols, heap, &mut room)
}
