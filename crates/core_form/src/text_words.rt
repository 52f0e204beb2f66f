// The words of a program's text: constants, symbols, types, and names with their numbers.
ghost use Rattle.std.specs.Prelude.{◌≡◌, ◌++◌, OnOk, IfOk, codes, decimal};
ghost use Rattle.std.specs.String.{string_bytes};
ghost use Rattle.lisp_base.specs.InStore.{make_store};
ghost use Rattle.lisp_base.specs.Reading.{spec_of};
ghost use Rattle.core_form.specs.TextNames.{name_of};
ghost use Rattle.core_form.specs.TextPage.{page_of, put};
ghost use Rattle.core_form.specs.Text.{bare_text, datum_text, label_text, symbol_text, type_text, used_text};

use crate::text_page::{Known, Page};
use lisp_base::{Heap, HeapView, SymId, SymTab, TypeSpec, Val};
use lisp_print::{Limits, print};
use std::alloc::{AllocError, Global};
use std::marker::Model;
use type_spec::spec_text;

/// Where the objects and the symbols of a program are.
#[derive(Drop)]
pub(crate) struct Source<'a> {
    alloc: Global,
    heap: &'a Heap,
    symbols: &'a SymTab,
}

impl<'a> Model for Source<'a> {
    ghost use Rattle.lisp_base.specs.InStore.{Store, make_store};

    ghost Value = { Store };

    ghost view = { λ s. make_store s.heap.now s.symbols.now.symbols };
}

impl<'a> Source<'a> {
    /// This heap and this table.
    pub(crate) fn new(alloc: Global, heap: &'a Heap, symbols: &'a SymTab) -> Source<'a>
        ensures { result ≡ make_store heap.now symbols.now.symbols }
    {
        Source {
            alloc,
            heap,
            symbols,
        }
    }
}

/// Writes a constant.
pub(crate) fn write_datum(
    page: &mut Page,
    source: &Source<'_>,
    value: Val,
) -> Result<(), AllocError>
    ensures { OnOk result (page_of page.new ≡ put (page_of page.old) (datum_text source.now value)) }
{
    let view = HeapView::new(source.heap, source.symbols);
    let limits = Limits {
        level: 20,
        length: 1_000,
        total: 10_000,
    };
    let text = print(source.alloc, &view, value, limits)?;
    page.word(&text)
}

/// Writes a symbol that stands for itself.
pub(crate) fn write_symbol(
    page: &mut Page,
    source: &Source<'_>,
    symbol: SymId,
) -> Result<(), AllocError>
    ensures { OnOk result (page_of page.new ≡ put (page_of page.old) (symbol_text source.now symbol)) }
{
    write_datum(page, source, Val::Sym(symbol))
}

/// Writes a type.
pub(crate) fn write_type(
    page: &mut Page,
    source: &Source<'_>,
    spec: &TypeSpec,
) -> Result<(), AllocError>
    ensures { OnOk result (page_of page.new ≡ put (page_of page.old) (type_text source.now (spec_of spec.now))) }
{
    let text = spec_text(source.alloc, spec, source.symbols)?;
    page.word(&text)
}

/// Adds the name of a variable, function, block or tag.
fn add_name(text: &mut String, source: &Source<'_>, name: Val) -> Result<(), AllocError>
    ensures { OnOk result (string_bytes text.new ≡ string_bytes text.old ++ bare_text source.now name) }
{
    match name {
        Val::Int(number) => {
            let alloc = source.alloc;
            let digits = format!(in alloc; "{number}")?;
            text.push_str(&digits)
        }
        Val::Sym(symbol) => text.push_str(source.symbols.name(symbol).unwrap_or("")),
        Val::Char(_) | Val::Ref(_) => Ok(()),
    }
}

/// The text of a number, a dot before it.
fn number_text(alloc: Global, number: u32) -> Result<String, AllocError>
    ensures { IfOk result (λ text. string_bytes text ≡ codes "." ++ decimal number) }
{
    format!(in alloc; ".{number}")
}

/// Writes a name, a dot and its number.
pub(crate) fn write_label(
    page: &mut Page,
    source: &Source<'_>,
    label: Known,
) -> Result<(), AllocError>
    ensures { OnOk result (page_of page.new ≡ put (page_of page.old) (label_text source.now label)) }
{
    let mut text = String::new(source.alloc);
    add_name(&mut text, source, label.name)?;
    text.push_str(&number_text(source.alloc, label.number)?)?;
    page.word(&text)
}

/// Writes a number that is used, with the name that is bound to it.
pub(crate) fn write_used(
    page: &mut Page,
    source: &Source<'_>,
    number: u32,
) -> Result<(), AllocError>
    ensures { OnOk result (page_of page.new ≡ put (page_of page.old) (used_text source.now (name_of page.old.names.items number) number)) }
{
    match page.find(number) {
        Some(label) => write_label(page, source, label),
        None => {
            let text = number_text(source.alloc, number)?;
            page.word(&text)
        }
    }
}
