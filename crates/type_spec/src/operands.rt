//! The operands of specifiers that are lists.

ghost use Rattle.std.specs.Prelude.{◌≡◌};
ghost use Rattle.std.specs.Option.{option_and_then};
ghost use Rattle.type_spec.specs.Forms.{cons_at, is_nil as nil_of, only_of, width_of, count_of, item_of as item_at, integer_of as integer_at, bound_of as bound_at, upper_of, bounds_of as bounds_at};

use crate::words::word_of;
use lisp_base::{Bound, Heap, Obj, SymTab, Val};

/// The least integer of the language.
const LEAST: i128 = -(1 << 63);

/// The greatest integer of the language.
const GREATEST: i128 = (1 << 63) - 1;

/// Whether a form is the empty list.
pub(crate) fn is_nil(v: Val) -> bool
    ensures { result ≡ nil_of v }
{
    match v {
        Val::Sym(id) => id.0 == 0,
        Val::Int(_) | Val::Char(_) | Val::Ref(_) => false,
    }
}

/// The CAR and the CDR of a cons.
pub(crate) fn cons_of(heap: &Heap, v: Val) -> Option<(Val, Val)>
    ensures { result ≡ cons_at heap.now v }
{
    let Val::Ref(id) = v else {
        return None;
    };
    match heap.get(id) {
        Some(Obj::Cons { car, cdr, .. }) => Some((*car, *cdr)),
        Some(Obj::Vector(_) | Obj::Str(_) | Obj::Fun { .. } | Obj::Cell(_)) | None => None,
    }
}

/// The element of a list of one.
pub(crate) fn only_operand(heap: &Heap, operands: Val) -> Option<Val>
    ensures { result ≡ only_of heap.now operands }
{
    match cons_of(heap, operands) {
        Some((first, rest)) if is_nil(rest) => Some(first),
        _ => None,
    }
}

/// A number of bits, where that is the only operand.
pub(crate) fn width(heap: &Heap, operands: Val) -> Option<u32>
    ensures { result ≡ option_and_then width_of (only_of heap.now operands) }
{
    match only_operand(heap, operands) {
        Some(Val::Int(bits)) if 1 <= bits && bits <= 127 => Some(bits as u32),
        _ => None,
    }
}

/// An integer from 1 on, where that is the only operand.
#[tactic(auto, unfolding(lisp_base::specs::Lawful::least_integer, lisp_base::specs::Lawful::greatest_integer))]
pub(crate) fn count(heap: &Heap, operands: Val) -> Option<i128>
    ensures { result ≡ option_and_then count_of (only_of heap.now operands) }
{
    match only_operand(heap, operands) {
        Some(Val::Int(number)) if 1 <= number && number <= GREATEST => Some(number),
        _ => None,
    }
}

/// An integer, character or symbol, where a form is one.
#[tactic(auto, unfolding(lisp_base::specs::Lawful::least_integer, lisp_base::specs::Lawful::greatest_integer, lisp_base::specs::Lawful::is_character_value))]
pub(crate) fn item_of(symbols: &SymTab, v: Val) -> Option<Val>
    ensures { result ≡ item_at symbols.now v }
{
    let is_item = match v {
        Val::Int(number) => LEAST <= number && number <= GREATEST,
        Val::Char(letter) => letter < 0xD800 || (0xE000 <= letter && letter <= 0x10_FFFF),
        Val::Sym(id) => symbols.kind(id).is_some(),
        Val::Ref(_) => false,
    };
    if is_item { Some(v) } else { None }
}

/// An integer, character or symbol, where that is the only operand.
pub(crate) fn only_item(heap: &Heap, symbols: &SymTab, operands: Val) -> Option<Val>
    ensures { result ≡ option_and_then (item_at symbols.now) (only_of heap.now operands) }
{
    match only_operand(heap, operands) {
        Some(only) => item_of(symbols, only),
        None => None,
    }
}

/// An integer, where a form is one.
#[tactic(auto, unfolding(lisp_base::specs::Lawful::least_integer, lisp_base::specs::Lawful::greatest_integer))]
fn integer_of(v: Val) -> Option<i128>
    ensures { result ≡ integer_at v }
{
    match v {
        Val::Int(number) if LEAST <= number && number <= GREATEST => Some(number),
        _ => None,
    }
}

/// The bound that a form writes.
fn bound_of(heap: &Heap, symbols: &SymTab, v: Val) -> Option<Bound>
    ensures { result ≡ bound_at heap.now symbols.now v }
{
    match v {
        Val::Int(_) => match integer_of(v) {
            Some(number) => Some(Bound::At(number)),
            None => None,
        },
        Val::Sym(_) => match word_of(symbols, v) {
            Some(word) if word == "*" => Some(Bound::Open),
            _ => None,
        },
        Val::Ref(_) => match only_operand(heap, v) {
            Some(only) => match integer_of(only) {
                Some(number) => Some(Bound::Past(number)),
                None => None,
            },
            None => None,
        },
        Val::Char(_) => None,
    }
}

/// The upper bound, where it is the only operand that is left, or there is none.
fn upper_bound(heap: &Heap, symbols: &SymTab, operands: Val) -> Option<Bound>
    ensures { result ≡ upper_of heap.now symbols.now operands }
{
    if is_nil(operands) {
        return Some(Bound::Open);
    }
    bound_of(heap, symbols, only_operand(heap, operands)?)
}

/// The bounds that operands give.
pub(crate) fn bounds(heap: &Heap, symbols: &SymTab, operands: Val) -> Option<(Bound, Bound)>
    ensures { result ≡ bounds_at heap.now symbols.now operands }
{
    if is_nil(operands) {
        return Some((Bound::Open, Bound::Open));
    }
    let (first, rest) = cons_of(heap, operands)?;
    let lo = bound_of(heap, symbols, first)?;
    let hi = upper_bound(heap, symbols, rest)?;
    Some((lo, hi))
}
