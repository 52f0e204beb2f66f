//! The text of a type specifier.

ghost use Rattle.std.specs.Prelude.{◌≡◌, ◌++◌, [], OnOk, IfOk, codes, decimal};
ghost use Rattle.std.specs.Fmt.{signed_decimal};
ghost use Rattle.std.specs.String.{string_bytes};
ghost use Rattle.lisp_base.specs.Reading.{spec_of};
ghost use Rattle.lisp_base.specs.Laws.{specs_list};
ghost use Rattle.lisp_base.specs.Names.{type_name_text};
ghost use Rattle.type_spec.specs.Texts.{item_text, items_text, bound_text, spec_text as text_of, specs_text};

use lisp_base::{Bound, Heap, HeapView, SymTab, TypeName, TypeSpec, Val, reads_specs};
use lisp_print::{Limits, print};
use std::alloc::{AllocError, Global};

/// The name of a type.
fn name_text(name: TypeName) -> &'static str
    ensures { result.now ≡ type_name_text name }
{
    match name {
        TypeName::T => "T",
        TypeName::Nil => "NIL",
        TypeName::Integer => "INTEGER",
        TypeName::Number => "NUMBER",
        TypeName::Real => "REAL",
        TypeName::Rational => "RATIONAL",
        TypeName::Fixnum => "FIXNUM",
        TypeName::Bit => "BIT",
        TypeName::UnsignedByte => "UNSIGNED-BYTE",
        TypeName::Character => "CHARACTER",
        TypeName::BaseChar => "BASE-CHAR",
        TypeName::Symbol => "SYMBOL",
        TypeName::Keyword => "KEYWORD",
        TypeName::Null => "NULL",
        TypeName::Boolean => "BOOLEAN",
        TypeName::Cons => "CONS",
        TypeName::List => "LIST",
        TypeName::Atom => "ATOM",
        TypeName::SimpleVector => "SIMPLE-VECTOR",
        TypeName::SimpleString => "SIMPLE-STRING",
        TypeName::String => "STRING",
        TypeName::Vector => "VECTOR",
        TypeName::Array => "ARRAY",
        TypeName::Sequence => "SEQUENCE",
        TypeName::Function => "FUNCTION",
    }
}

/// Adds a number in decimal.
fn add_number(alloc: Global, text: &mut String, number: i128) -> Result<(), AllocError>
    ensures { OnOk result (string_bytes text.new ≡ string_bytes text.old ++ signed_decimal number) }
{
    let digits = format!(in alloc; "{number}")?;
    text.push_str(&digits)
}

/// Adds an operator, a number of bits and the end.
fn add_width(alloc: Global, text: &mut String, opening: &str, bits: u32) -> Result<(), AllocError>
    ensures { OnOk result (string_bytes text.new ≡ string_bytes text.old ++ (opening.now ++ decimal bits ++ codes ")")) }
{
    let digits = format!(in alloc; "{bits}")?;
    text.push_str(opening)?;
    text.push_str(&digits)?;
    text.push_str(")")
}

/// Adds the operator MOD, a number and the end.
fn add_count(alloc: Global, text: &mut String, below: i128) -> Result<(), AllocError>
    ensures { OnOk result (string_bytes text.new ≡ string_bytes text.old ++ (codes "(MOD " ++ signed_decimal below ++ codes ")")) }
{
    text.push_str("(MOD ")?;
    add_number(alloc, text, below)?;
    text.push_str(")")
}

/// Adds a bound.
fn add_bound(alloc: Global, text: &mut String, bound: Bound) -> Result<(), AllocError>
    ensures { OnOk result (string_bytes text.new ≡ string_bytes text.old ++ bound_text bound) }
{
    match bound {
        Bound::Open => text.push_str("*"),
        Bound::At(number) => add_number(alloc, text, number),
        Bound::Past(number) => {
            text.push_str("(")?;
            add_number(alloc, text, number)?;
            text.push_str(")")
        }
    }
}

/// Adds a range of integers.
fn add_range(alloc: Global, text: &mut String, lo: Bound, hi: Bound) -> Result<(), AllocError>
    ensures { OnOk result (string_bytes text.new ≡ string_bytes text.old ++ (codes "(INTEGER " ++ bound_text lo ++ codes " " ++ bound_text hi ++ codes ")")) }
{
    text.push_str("(INTEGER ")?;
    add_bound(alloc, text, lo)?;
    text.push_str(" ")?;
    add_bound(alloc, text, hi)?;
    text.push_str(")")
}

/// Adds an integer, character or symbol, which needs no heap.
fn add_item(
    alloc: Global,
    text: &mut String,
    item: Val,
    symbols: &SymTab,
    heap: &Heap,
) -> Result<(), AllocError>
    requires { heap.now ≡ [] }
    ensures { OnOk result (string_bytes text.new ≡ string_bytes text.old ++ item_text symbols.now item) }
{
    let view = HeapView::new(heap, symbols);
    let limits = Limits {
        level: 1,
        length: 1,
        total: 1,
    };
    let shown = print(alloc, &view, item, limits)?;
    text.push_str(&shown)
}

/// Adds the operator EQL, an item and the end.
fn add_one(
    alloc: Global,
    text: &mut String,
    item: Val,
    symbols: &SymTab,
    heap: &Heap,
) -> Result<(), AllocError>
    requires { heap.now ≡ [] }
    ensures { OnOk result (string_bytes text.new ≡ string_bytes text.old ++ (codes "(EQL " ++ item_text symbols.now item ++ codes ")")) }
{
    text.push_str("(EQL ")?;
    add_item(alloc, text, item, symbols, heap)?;
    text.push_str(")")
}

/// Adds the operator MEMBER, items, each after a space, and the end.
fn add_members(
    alloc: Global,
    text: &mut String,
    items: &[Val],
    symbols: &SymTab,
    heap: &Heap,
) -> Result<(), AllocError>
    requires { heap.now ≡ [] }
    ensures { OnOk result (string_bytes text.new ≡ string_bytes text.old ++ (codes "(MEMBER" ++ items_text symbols.now items.now ++ codes ")")) }
{
    text.push_str("(MEMBER")?;
    for item in items {
        text.push_str(" ")?;
        add_item(alloc, text, *item, symbols, heap)?;
    }
    text.push_str(")")
}

/// Adds an operator, specifiers, each after a space, and the end.
#[cycle(text)]
fn add_parts(
    alloc: Global,
    text: &mut String,
    opening: &str,
    parts: &[TypeSpec],
    symbols: &SymTab,
    heap: &Heap,
) -> Result<(), AllocError>
    requires { heap.now ≡ [] }
    ensures { OnOk result (string_bytes text.new ≡ string_bytes text.old ++ (opening.now ++ specs_text symbols.now (specs_list parts.now) ++ codes ")")) }
{
    text.push_str(opening)?;
    for part in parts {
        text.push_str(" ")?;
        add_spec(alloc, text, part, symbols, heap)?;
    }
    text.push_str(")")
}

/// Adds a specifier.
#[cycle(text)]
fn add_spec(
    alloc: Global,
    text: &mut String,
    spec: &TypeSpec,
    symbols: &SymTab,
    heap: &Heap,
) -> Result<(), AllocError>
    requires { heap.now ≡ [] }
    ensures { OnOk result (string_bytes text.new ≡ string_bytes text.old ++ text_of symbols.now (spec_of spec.now)) }
{
    reads_specs();
    match spec {
        TypeSpec::Named(name) => text.push_str(name_text(*name)),
        TypeSpec::Integer { lo, hi } => add_range(alloc, text, *lo, *hi),
        TypeSpec::Signed(bits) => add_width(alloc, text, "(SIGNED-BYTE ", *bits),
        TypeSpec::Unsigned(bits) => add_width(alloc, text, "(UNSIGNED-BYTE ", *bits),
        TypeSpec::Mod(below) => add_count(alloc, text, *below),
        TypeSpec::Member(items) => add_members(alloc, text, items, symbols, heap),
        TypeSpec::Eql(item) => add_one(alloc, text, *item, symbols, heap),
        TypeSpec::And(parts) => add_parts(alloc, text, "(AND", parts, symbols, heap),
        TypeSpec::Or(parts) => add_parts(alloc, text, "(OR", parts, symbols, heap),
        TypeSpec::Not(part) => {
            text.push_str("(NOT ")?;
            add_spec(alloc, text, part, symbols, heap)?;
            text.push_str(")")
        }
    }
}

/// The text of a type specifier, in upper case with single spaces.
///
/// # Errors
/// Want of memory alone.
pub fn spec_text(alloc: Global, spec: &TypeSpec, symbols: &SymTab) -> Result<String, AllocError>
    ensures { IfOk result (λ text. string_bytes text ≡ text_of symbols.now (spec_of spec.now)) }
{
    let heap = Heap::new(alloc);
    let mut text = String::new(alloc);
    add_spec(alloc, &mut text, spec, symbols, &heap)?;
    Ok(text)
}
