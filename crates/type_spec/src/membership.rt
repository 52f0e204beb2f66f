//! Which values a type specifier holds.

ghost use Rattle.std.specs.Prelude.{◌≡◌, ◌<◌, ◌-◌, ◌^◌, true, pos};
ghost use Rattle.lisp_base.specs.Sort.{ObjectKind, ConsObject, VectorObject, StringObject, FunctionObject, same as same_value};
ghost use Rattle.lisp_base.specs.Membership.{above as above_of, below as below_of, in_range, is_signed, is_unsigned, is_integer, is_character, is_symbol, is_keyword, is_symbol_number, is_object, is_list, has_named, is_one_of, has as holds, has_all, has_some};
ghost use Rattle.lisp_base.specs.Kinds.{kinds_of, symbol_kinds_of};
ghost use Rattle.lisp_base.specs.Reading.{spec_of};
ghost use Rattle.lisp_base.specs.Laws.{specs_list};
ghost use Rattle.lisp_base.specs.Lawful.{IsLawful, is_width, has_lawful_parts, all_lawful_parts};

use lisp_base::{Bound, Heap, Obj, SymKind, SymTab, TypeName, TypeSpec, Val, reads_specs};

/// Whether an integer is at or above a lower bound.
fn above(lo: Bound, number: i128) -> bool
    ensures { result ≡ above_of lo number }
{
    match lo {
        Bound::Open => true,
        Bound::At(bound) => bound <= number,
        Bound::Past(bound) => bound < number,
    }
}

/// Whether an integer is at or below an upper bound.
fn below(hi: Bound, number: i128) -> bool
    ensures { result ≡ below_of hi number }
{
    match hi {
        Bound::Open => true,
        Bound::At(bound) => number <= bound,
        Bound::Past(bound) => number < bound,
    }
}

/// Whether a value is an integer between two bounds.
fn is_in_range(v: Val, lo: Bound, hi: Bound) -> bool
    ensures { result ≡ in_range lo hi v }
{
    match v {
        Val::Int(number) => above(lo, number) && below(hi, number),
        Val::Char(_) | Val::Sym(_) | Val::Ref(_) => false,
    }
}

/// The number of integers from 0 of so many bits in two's complement.
fn half_width(bits: u32) -> i128
    requires { is_width bits ≡ true }
    ensures power { result ≡ pos (2 ^ (bits - 1)) }
    ensures small { 2 ^ (bits - 1) < 2 ^ 127 }
{
    (1u128 << (bits - 1)) as i128
}

/// Whether a value is an integer of so many bits in two's complement.
fn is_of_signed_width(v: Val, bits: u32) -> bool
    requires { is_width bits ≡ true }
    ensures { result ≡ is_signed bits v }
{
    let half = half_width(bits);
    is_in_range(v, Bound::At(-half), Bound::Past(half))
}

/// Whether a value is an integer from 0 of so many bits.
fn is_of_width(v: Val, bits: u32) -> bool
    requires { is_width bits ≡ true }
    ensures { result ≡ is_unsigned bits v }
{
    match v {
        Val::Int(number) => number >= 0 && (number as u128) < 1u128 << bits,
        Val::Char(_) | Val::Sym(_) | Val::Ref(_) => false,
    }
}

/// Whether two values are one and the same.
fn same(a: Val, b: Val) -> bool
    ensures { result ≡ same_value a b }
{
    match (a, b) {
        (Val::Int(a), Val::Int(b)) => a == b,
        (Val::Char(a), Val::Char(b)) => a == b,
        (Val::Sym(a), Val::Sym(b)) => a.0 == b.0,
        (Val::Ref(a), Val::Ref(b)) => a.0 == b.0,
        _ => false,
    }
}

fn is_integer_value(v: Val) -> bool
    ensures { result ≡ is_integer v }
{
    matches!(v, Val::Int(_))
}

fn is_character_value(v: Val) -> bool
    ensures { result ≡ is_character v }
{
    matches!(v, Val::Char(_))
}

fn is_symbol_value(v: Val) -> bool
    ensures { result ≡ is_symbol v }
{
    matches!(v, Val::Sym(_))
}

/// Whether a value is the symbol of a number.
fn is_symbol_of(v: Val, number: u32) -> bool
    ensures { result ≡ is_symbol_number number v }
{
    match v {
        Val::Sym(id) => id.0 == number,
        Val::Int(_) | Val::Char(_) | Val::Ref(_) => false,
    }
}

fn is_keyword_symbol(symbols: &SymTab, v: Val) -> bool
    ensures { result ≡ is_keyword (symbol_kinds_of symbols.now) v }
{
    match v {
        Val::Sym(id) => match symbols.kind(id) {
            Some(SymKind::Keyword) => true,
            Some(SymKind::Plain) | Some(SymKind::Fresh) | None => false,
        },
        Val::Int(_) | Val::Char(_) | Val::Ref(_) => false,
    }
}

fn is_cons(heap: &Heap, v: Val) -> bool
    ensures { result ≡ is_object ConsObject (kinds_of heap.now) v }
{
    match v {
        Val::Ref(id) => match heap.get(id) {
            Some(Obj::Cons { .. }) => true,
            Some(Obj::Vector(_) | Obj::Str(_) | Obj::Fun { .. } | Obj::Cell(_)) | None => false,
        },
        Val::Int(_) | Val::Char(_) | Val::Sym(_) => false,
    }
}

fn is_vector(heap: &Heap, v: Val) -> bool
    ensures { result ≡ is_object VectorObject (kinds_of heap.now) v }
{
    match v {
        Val::Ref(id) => match heap.get(id) {
            Some(Obj::Vector(_)) => true,
            Some(Obj::Cons { .. } | Obj::Str(_) | Obj::Fun { .. } | Obj::Cell(_)) | None => false,
        },
        Val::Int(_) | Val::Char(_) | Val::Sym(_) => false,
    }
}

fn is_string(heap: &Heap, v: Val) -> bool
    ensures { result ≡ is_object StringObject (kinds_of heap.now) v }
{
    match v {
        Val::Ref(id) => match heap.get(id) {
            Some(Obj::Str(_)) => true,
            Some(Obj::Cons { .. } | Obj::Vector(_) | Obj::Fun { .. } | Obj::Cell(_)) | None => {
                false
            }
        },
        Val::Int(_) | Val::Char(_) | Val::Sym(_) => false,
    }
}

fn is_function(heap: &Heap, v: Val) -> bool
    ensures { result ≡ is_object FunctionObject (kinds_of heap.now) v }
{
    match v {
        Val::Ref(id) => match heap.get(id) {
            Some(Obj::Fun { .. }) => true,
            Some(Obj::Cons { .. } | Obj::Vector(_) | Obj::Str(_) | Obj::Cell(_)) | None => false,
        },
        Val::Int(_) | Val::Char(_) | Val::Sym(_) => false,
    }
}

fn is_cons_or_nil(heap: &Heap, v: Val) -> bool
    ensures { result ≡ is_list (kinds_of heap.now) v }
{
    is_cons(heap, v) || is_symbol_of(v, 0)
}

/// Whether a type that is written as a name holds a value.
fn has_name(name: TypeName, symbols: &SymTab, heap: &Heap, v: Val) -> bool
    ensures { result ≡ has_named (kinds_of heap.now) (symbol_kinds_of symbols.now) name v }
{
    match name {
        TypeName::T => true,
        TypeName::Nil => false,
        TypeName::Integer | TypeName::Number | TypeName::Real | TypeName::Rational => {
            is_integer_value(v)
        }
        TypeName::Fixnum => is_of_signed_width(v, 62),
        TypeName::Bit => is_of_width(v, 1),
        TypeName::UnsignedByte => is_in_range(v, Bound::At(0), Bound::Open),
        TypeName::Character | TypeName::BaseChar => is_character_value(v),
        TypeName::Symbol => is_symbol_value(v),
        TypeName::Keyword => is_keyword_symbol(symbols, v),
        TypeName::Null => is_symbol_of(v, 0),
        TypeName::Boolean => is_symbol_of(v, 0) || is_symbol_of(v, 1),
        TypeName::Cons => is_cons(heap, v),
        TypeName::List => is_cons_or_nil(heap, v),
        TypeName::Atom => !is_cons(heap, v),
        TypeName::SimpleVector => is_vector(heap, v),
        TypeName::SimpleString | TypeName::String => is_string(heap, v),
        TypeName::Vector | TypeName::Array => is_vector(heap, v) || is_string(heap, v),
        TypeName::Sequence => is_vector(heap, v) || is_string(heap, v) || is_cons_or_nil(heap, v),
        TypeName::Function => is_function(heap, v),
    }
}

/// Whether a value is one of several.
fn is_among(items: &[Val], v: Val) -> bool
    ensures { result ≡ is_one_of items.now v }
{
    for item in items {
        if same(*item, v) {
            return true;
        }
    }
    false
}

/// Whether each of several types holds a value.
#[cycle(has)]
fn all_have(parts: &[TypeSpec], symbols: &SymTab, heap: &Heap, v: Val) -> bool
    requires { all_lawful_parts symbols.now (specs_list parts.now) ≡ true }
    ensures { result ≡ has_all (kinds_of heap.now) (symbol_kinds_of symbols.now) (specs_list parts.now) v }
{
    for part in parts {
        if !part_has(part, symbols, heap, v) {
            return false;
        }
    }
    true
}

/// Whether one of several types holds a value.
#[cycle(has)]
fn some_has(parts: &[TypeSpec], symbols: &SymTab, heap: &Heap, v: Val) -> bool
    requires { all_lawful_parts symbols.now (specs_list parts.now) ≡ true }
    ensures { result ≡ has_some (kinds_of heap.now) (symbol_kinds_of symbols.now) (specs_list parts.now) v }
{
    for part in parts {
        if part_has(part, symbols, heap, v) {
            return true;
        }
    }
    false
}

/// Whether a type holds a value.
#[cycle(has)]
fn part_has(spec: &TypeSpec, symbols: &SymTab, heap: &Heap, v: Val) -> bool
    requires { has_lawful_parts symbols.now (spec_of spec.now) ≡ true }
    ensures { result ≡ holds (kinds_of heap.now) (symbol_kinds_of symbols.now) (spec_of spec.now) v }
{
    reads_specs();
    match spec {
        TypeSpec::Named(name) => has_name(*name, symbols, heap, v),
        TypeSpec::Integer { lo, hi } => is_in_range(v, *lo, *hi),
        TypeSpec::Signed(bits) => is_of_signed_width(v, *bits),
        TypeSpec::Unsigned(bits) => is_of_width(v, *bits),
        TypeSpec::Mod(limit) => is_in_range(v, Bound::At(0), Bound::Past(*limit)),
        TypeSpec::Member(items) => is_among(items, v),
        TypeSpec::Eql(item) => same(*item, v),
        TypeSpec::And(parts) => all_have(parts, symbols, heap, v),
        TypeSpec::Or(parts) => some_has(parts, symbols, heap, v),
        TypeSpec::Not(part) => !part_has(part, symbols, heap, v),
    }
}

/// Whether a type specifier holds a value.
pub fn has(spec: &TypeSpec, symbols: &SymTab, heap: &Heap, v: Val) -> bool
    requires { IsLawful symbols.now (spec_of spec.now) }
    ensures { result ≡ holds (kinds_of heap.now) (symbol_kinds_of symbols.now) (spec_of spec.now) v }
{
    part_has(spec, symbols, heap, v)
}
