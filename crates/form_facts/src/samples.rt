// Whether types are within the integers, by values of each kind that is no integer.
ghost use Rattle.std.specs.Prelude.{◌≡◌, ℕ, IfOk, flat_map, map};
ghost use Rattle.lisp_base.specs.Sort.{ConsObject, VectorObject, StringObject, FunctionObject, same};
ghost use Rattle.lisp_base.specs.Laws.{specs_list};
ghost use Rattle.lisp_base.specs.Reading.{spec_of};
ghost use Rattle.lisp_base.specs.Membership.{is_character, is_symbol, is_keyword, keyword_kind, is_symbol_number, is_object, has_named, is_one_of, has as has_value, has_all, has_some};
ghost use Rattle.core_form.specs.Facts.{sample_objects, sample_symbols, greatest_symbol as greatest_symbol_of, not_integer, samples as samples_of};
ghost use Rattle.form_facts.specs.Samples.{value_of, other_symbol, lacks_all, within_integers};
ghost use Rattle.form_facts.specs.Words.{kinds_of};

use crate::named::{greatest_letter, greatest_symbol, note_named};
use lisp_base::{ObjId, SymId, SymKind, SymTab, TypeName, TypeSpec, Val, reads_specs};
use std::alloc::{AllocError, Global};

/// A value that is no integer: of an object, one of each kind; of the characters and the symbols,
/// those that the type names, and one of each kind that it does not name.
#[derive(Clone, Copy)]
pub enum Sample {
    Cons,
    Vector,
    Text,
    Function,
    /// A character by its code point, or one past the last.
    Letter(u64),
    /// A symbol by its number.
    Named(u32),
    /// A symbol of this kind, above all that are named.
    Other(SymKind),
}

/// The number of the symbol of a kind above those that are named.
fn other_number(kind: SymKind, greatest: u32) -> u64
    ensures { result ≡ other_symbol greatest kind }
{
    match kind {
        SymKind::Plain => greatest as u64 + 1,
        SymKind::Keyword => greatest as u64 + 2,
        SymKind::Fresh => greatest as u64 + 3,
    }
}

/// Whether a sample is the symbol of a number.
fn is_symbol_of(sample: Sample, number: u32, greatest: u32) -> bool
    ensures { result ≡ is_symbol_number number (value_of greatest sample) }
{
    match sample {
        Sample::Named(named) => named == number,
        Sample::Other(kind) => other_number(kind, greatest) == number as u64,
        Sample::Cons | Sample::Vector | Sample::Text | Sample::Function | Sample::Letter(_) =>
            false,
    }
}

fn is_symbol_sample(sample: Sample) -> bool
    ensures { (greatest : ℕ) → result ≡ is_symbol (value_of greatest sample) }
{
    match sample {
        Sample::Named(_) | Sample::Other(_) => true,
        Sample::Cons | Sample::Vector | Sample::Text | Sample::Function | Sample::Letter(_) =>
            false,
    }
}

fn is_letter_sample(sample: Sample) -> bool
    ensures { (greatest : ℕ) → result ≡ is_character (value_of greatest sample) }
{
    match sample {
        Sample::Letter(_) => true,
        Sample::Cons
        | Sample::Vector
        | Sample::Text
        | Sample::Function
        | Sample::Named(_)
        | Sample::Other(_) => false,
    }
}

fn is_cons(sample: Sample) -> bool
    ensures { (greatest : ℕ) → result ≡ is_object ConsObject sample_objects (value_of greatest sample) }
{
    match sample {
        Sample::Cons => true,
        Sample::Vector
        | Sample::Text
        | Sample::Function
        | Sample::Letter(_)
        | Sample::Named(_)
        | Sample::Other(_) => false,
    }
}

fn is_vector(sample: Sample) -> bool
    ensures { (greatest : ℕ) → result ≡ is_object VectorObject sample_objects (value_of greatest sample) }
{
    match sample {
        Sample::Vector => true,
        Sample::Cons
        | Sample::Text
        | Sample::Function
        | Sample::Letter(_)
        | Sample::Named(_)
        | Sample::Other(_) => false,
    }
}

fn is_text(sample: Sample) -> bool
    ensures { (greatest : ℕ) → result ≡ is_object StringObject sample_objects (value_of greatest sample) }
{
    match sample {
        Sample::Text => true,
        Sample::Cons
        | Sample::Vector
        | Sample::Function
        | Sample::Letter(_)
        | Sample::Named(_)
        | Sample::Other(_) => false,
    }
}

fn is_function(sample: Sample) -> bool
    ensures { (greatest : ℕ) → result ≡ is_object FunctionObject sample_objects (value_of greatest sample) }
{
    match sample {
        Sample::Function => true,
        Sample::Cons
        | Sample::Vector
        | Sample::Text
        | Sample::Letter(_)
        | Sample::Named(_)
        | Sample::Other(_) => false,
    }
}

/// What the symbol of a number is, with the samples among the symbols.
fn kind_at(number: u32, greatest: u32, symbols: &SymTab) -> Option<SymKind>
    ensures { result ≡ sample_symbols greatest (kinds_of symbols.now) number }
{
    let above = greatest as u64;
    if number as u64 == above + 1 {
        return Some(SymKind::Plain);
    }
    if number as u64 == above + 2 {
        return Some(SymKind::Keyword);
    }
    if number as u64 == above + 3 {
        return Some(SymKind::Fresh);
    }
    symbols.kind(SymId(number))
}

fn is_keyword_kind(kind: Option<SymKind>) -> bool
    ensures { result ≡ keyword_kind kind }
{
    match kind {
        Some(SymKind::Keyword) => true,
        Some(SymKind::Plain) | Some(SymKind::Fresh) | None => false,
    }
}

fn is_keyword_sample(sample: Sample, greatest: u32, symbols: &SymTab) -> bool
    ensures { result ≡ is_keyword (sample_symbols greatest (kinds_of symbols.now)) (value_of greatest sample) }
{
    match sample {
        Sample::Named(number) => is_keyword_kind(kind_at(number, greatest, symbols)),
        Sample::Other(kind) => is_keyword_kind(Some(kind)),
        Sample::Cons | Sample::Vector | Sample::Text | Sample::Function | Sample::Letter(_) =>
            false,
    }
}

/// Whether a sample is in a type that is written as a name.
fn has_name(name: TypeName, sample: Sample, greatest: u32, symbols: &SymTab) -> bool
    ensures { result ≡ has_named sample_objects (sample_symbols greatest (kinds_of symbols.now)) name (value_of greatest sample) }
{
    match name {
        TypeName::T => true,
        TypeName::Nil
        | TypeName::Integer
        | TypeName::Number
        | TypeName::Real
        | TypeName::Rational
        | TypeName::Fixnum
        | TypeName::Bit
        | TypeName::UnsignedByte => false,
        TypeName::Character | TypeName::BaseChar => is_letter_sample(sample),
        TypeName::Symbol => is_symbol_sample(sample),
        TypeName::Keyword => is_keyword_sample(sample, greatest, symbols),
        TypeName::Null => is_symbol_of(sample, 0, greatest),
        TypeName::Boolean => {
            is_symbol_of(sample, 0, greatest) || is_symbol_of(sample, 1, greatest)
        }
        TypeName::Cons => is_cons(sample),
        TypeName::List => is_cons(sample) || is_symbol_of(sample, 0, greatest),
        TypeName::Atom => !is_cons(sample),
        TypeName::SimpleVector => is_vector(sample),
        TypeName::SimpleString | TypeName::String => is_text(sample),
        TypeName::Vector | TypeName::Array => is_vector(sample) || is_text(sample),
        TypeName::Sequence => {
            is_vector(sample)
                || is_text(sample)
                || (is_cons(sample) || is_symbol_of(sample, 0, greatest))
        }
        TypeName::Function => is_function(sample),
    }
}

fn letter_is(letter: u32, sample: Sample) -> bool
    ensures { (greatest : ℕ) → result ≡ same (Val.Char letter) (value_of greatest sample) }
{
    match sample {
        Sample::Letter(other) => letter as u64 == other,
        Sample::Cons
        | Sample::Vector
        | Sample::Text
        | Sample::Function
        | Sample::Named(_)
        | Sample::Other(_) => false,
    }
}

fn symbol_is(id: SymId, sample: Sample, greatest: u32) -> bool
    ensures { result ≡ same (Val.Sym id) (value_of greatest sample) }
{
    match sample {
        Sample::Named(number) => id.0 == number,
        Sample::Other(kind) => id.0 as u64 == other_number(kind, greatest),
        Sample::Cons | Sample::Vector | Sample::Text | Sample::Function | Sample::Letter(_) =>
            false,
    }
}

fn object_is(id: ObjId, sample: Sample) -> bool
    ensures { (greatest : ℕ) → result ≡ same (Val.Ref id) (value_of greatest sample) }
{
    match sample {
        Sample::Cons => id.0 == 0,
        Sample::Vector => id.0 == 1,
        Sample::Text => id.0 == 2,
        Sample::Function => id.0 == 3,
        Sample::Letter(_) | Sample::Named(_) | Sample::Other(_) => false,
    }
}

/// Whether a sample is this value.
fn item_is(item: Val, sample: Sample, greatest: u32) -> bool
    ensures { result ≡ same item (value_of greatest sample) }
{
    match item {
        Val::Int(_) => false,
        Val::Char(letter) => letter_is(letter, sample),
        Val::Sym(id) => symbol_is(id, sample, greatest),
        Val::Ref(id) => object_is(id, sample),
    }
}

/// Whether a sample is one of several values.
fn is_among(items: &[Val], sample: Sample, greatest: u32) -> bool
    ensures { result ≡ is_one_of items.now (value_of greatest sample) }
{
    for item in items {
        if item_is(*item, sample, greatest) {
            return true;
        }
    }
    false
}

/// Whether a sample is in each of several types.
#[cycle(holding)]
fn all_hold(types: &[TypeSpec], sample: Sample, greatest: u32, symbols: &SymTab) -> bool
    ensures { result ≡ has_all sample_objects (sample_symbols greatest (kinds_of symbols.now)) (specs_list types.now) (value_of greatest sample) }
{
    for spec in types {
        if !holds(spec, sample, greatest, symbols) {
            return false;
        }
    }
    true
}

/// Whether a sample is in one of several types.
#[cycle(holding)]
fn some_holds(types: &[TypeSpec], sample: Sample, greatest: u32, symbols: &SymTab) -> bool
    ensures { result ≡ has_some sample_objects (sample_symbols greatest (kinds_of symbols.now)) (specs_list types.now) (value_of greatest sample) }
{
    for spec in types {
        if holds(spec, sample, greatest, symbols) {
            return true;
        }
    }
    false
}

/// Whether a sample is in a type.
#[cycle(holding)]
fn holds(spec: &TypeSpec, sample: Sample, greatest: u32, symbols: &SymTab) -> bool
    ensures { result ≡ has_value sample_objects (sample_symbols greatest (kinds_of symbols.now)) (spec_of spec.now) (value_of greatest sample) }
{
    reads_specs();
    match spec {
        TypeSpec::Named(name) => has_name(*name, sample, greatest, symbols),
        TypeSpec::Integer { .. } | TypeSpec::Signed(_) | TypeSpec::Unsigned(_) | TypeSpec::Mod(_) =>
            false,
        TypeSpec::Member(items) => is_among(items, sample, greatest),
        TypeSpec::Eql(item) => item_is(*item, sample, greatest),
        TypeSpec::And(types) => all_hold(types, sample, greatest, symbols),
        TypeSpec::Or(types) => some_holds(types, sample, greatest, symbols),
        TypeSpec::Not(spec) => !holds(spec, sample, greatest, symbols),
    }
}

/// Whether none of these samples is in all of the types.
fn lacks_each(types: &[TypeSpec], samples: &[Sample], greatest: u32, symbols: &SymTab) -> bool
    ensures { result ≡ lacks_all greatest (kinds_of symbols.now) (specs_list types.now) (map (value_of greatest) samples.now) }
{
    for sample in samples {
        if all_hold(types, *sample, greatest, symbols) {
            return false;
        }
    }
    true
}

/// Whether a value, if it is no integer, is not in all of the types.
fn lacks_item(types: &[TypeSpec], item: Val, greatest: u32, symbols: &SymTab) -> bool
    ensures { result ≡ lacks_all greatest (kinds_of symbols.now) (specs_list types.now) (not_integer item) }
{
    match item {
        Val::Char(letter) => !all_hold(types, Sample::Letter(letter as u64), greatest, symbols),
        Val::Sym(id) => !all_hold(types, Sample::Named(id.0), greatest, symbols),
        Val::Int(_) | Val::Ref(_) => true,
    }
}

/// Whether none of these values that is no integer is in all of the types.
fn lacks_items(types: &[TypeSpec], items: &[Val], greatest: u32, symbols: &SymTab) -> bool
    ensures { result ≡ lacks_all greatest (kinds_of symbols.now) (specs_list types.now) (flat_map not_integer items.now) }
{
    for item in items {
        if !lacks_item(types, *item, greatest, symbols) {
            return false;
        }
    }
    true
}

/// Whether types, of which these values are named, are all together within the integers.
fn is_within_by(types: &[TypeSpec], named: &[Val], symbols: &SymTab) -> bool
    ensures { result ≡ lacks_all (greatest_symbol_of named.now) (kinds_of symbols.now) (specs_list types.now) (samples_of named.now) }
{
    let greatest = greatest_symbol(named);
    let samples = [
        Sample::Cons,
        Sample::Vector,
        Sample::Text,
        Sample::Function,
        Sample::Letter(greatest_letter(named) as u64 + 1),
        Sample::Named(0),
        Sample::Named(1),
        Sample::Other(SymKind::Plain),
        Sample::Other(SymKind::Keyword),
        Sample::Other(SymKind::Fresh),
    ];
    lacks_each(types, &samples, greatest, symbols) && lacks_items(types, named, greatest, symbols)
}

/// Whether types, all together, are within the integers.
///
/// # Errors
/// Want of memory alone.
pub fn is_within_integers(
    alloc: Global,
    types: &[TypeSpec],
    symbols: &SymTab,
) -> Result<bool, AllocError>
    ensures { IfOk result (λ within. within ≡ within_integers (kinds_of symbols.now) (specs_list types.now)) }
{
    let mut named = Vec::new(alloc);
    note_named(&mut named, types)?;
    Ok(is_within_by(types, &named, symbols))
}
