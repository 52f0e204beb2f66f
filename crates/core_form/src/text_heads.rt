// The beginning of a node's text: what the node does, and what it names.
ghost use Rattle.std.specs.Prelude.{◌≡◌, ◌∷◌, [], OnOk, codes};
ghost use Rattle.lisp_base.specs.declared.values.Val.TheVariants.{Sym};
ghost use Rattle.lisp_base.specs.Reading.{spec_of};
ghost use Rattle.core_form.specs.Reading.{core_of};
ghost use Rattle.core_form.specs.TextNames.{name_of, known};
ghost use Rattle.core_form.specs.TextPage.{page_of, puts};
ghost use Rattle.core_form.specs.TextParts.{head_texts};
ghost use Rattle.core_form.specs.Text.{datum_text, label_text, symbol_text, type_text, used_text};

use crate::laws::reads_lists;
use crate::node_laws::reads_nodes;
use crate::text_page::{Known, Page};
use crate::text_words::{Source, write_datum, write_label, write_symbol, write_type, write_used};
use crate::tree::{Core, Form};
use lisp_base::{SymId, TypeSpec, Val};
use std::alloc::AllocError;

/// Writes an operator and a number that is used.
fn write_use(
    page: &mut Page,
    source: &Source<'_>,
    operator: &str,
    number: u32,
) -> Result<(), AllocError>
    ensures { OnOk result (page_of page.new ≡ puts (page_of page.old) (operator.now ∷ used_text source.now (name_of page.old.names.items number) number ∷ [])) }
{
    page.word(operator)?;
    write_used(page, source, number)
}

/// Writes an operator and a symbol.
fn write_global(
    page: &mut Page,
    source: &Source<'_>,
    operator: &str,
    symbol: SymId,
) -> Result<(), AllocError>
    ensures { OnOk result (page_of page.new ≡ puts (page_of page.old) (operator.now ∷ symbol_text source.now symbol ∷ [])) }
{
    page.word(operator)?;
    write_symbol(page, source, symbol)
}

/// Writes an operator and a type.
fn write_test(
    page: &mut Page,
    source: &Source<'_>,
    operator: &str,
    spec: &TypeSpec,
) -> Result<(), AllocError>
    ensures { OnOk result (page_of page.new ≡ puts (page_of page.old) (operator.now ∷ type_text source.now (spec_of spec.now) ∷ [])) }
{
    page.word(operator)?;
    write_type(page, source, spec)
}

/// Writes `quote` and a constant.
fn write_quote(page: &mut Page, source: &Source<'_>, value: Val) -> Result<(), AllocError>
    ensures { OnOk result (page_of page.new ≡ puts (page_of page.old) (codes "quote" ∷ datum_text source.now value ∷ [])) }
{
    page.word("quote")?;
    write_datum(page, source, value)
}

/// Writes `block` and a block's name and number.
fn write_block(
    page: &mut Page,
    source: &Source<'_>,
    number: u32,
    name: SymId,
) -> Result<(), AllocError>
    ensures { OnOk result (page_of page.new ≡ puts (page_of page.old) (codes "block" ∷ label_text source.now (known number (Sym name)) ∷ [])) }
{
    page.word("block")?;
    let name = Val::Sym(name);
    write_label(page, source, Known { number, name })
}

/// Writes what stands in a node's parentheses before its parts.
pub(crate) fn write_head(
    page: &mut Page,
    source: &Source<'_>,
    core: &Core,
) -> Result<(), AllocError>
    ensures { OnOk result (page_of page.new ≡ puts (page_of page.old) (head_texts source.now page.old.names.items (core_of core.now))) }
{
    reads_lists();
    reads_nodes();
    match &core.form {
        Form::Local(_) | Form::Lambda(_) => Ok(()),
        Form::Quote(value) => write_quote(page, source, *value),
        Form::SetLocal(number, _) => write_use(page, source, "set", *number),
        Form::Global(symbol) => write_global(page, source, "global", *symbol),
        Form::SetGlobal(symbol, _) => write_global(page, source, "setglobal", *symbol),
        Form::If(_, _, _) => page.word("if"),
        Form::Progn(_) => page.word("progn"),
        Form::Let(_, _) => page.word("let"),
        Form::Labels(_, _) => page.word("labels"),
        Form::CallLocal(number, _) => write_use(page, source, "call", *number),
        Form::CallGlobal(symbol, _) => write_global(page, source, "callglobal", *symbol),
        Form::Funcall(_, _) => page.word("funcall"),
        Form::Apply(_, _) => page.word("apply"),
        Form::MvCall(_, _) => page.word("mvcall"),
        Form::FunLocal(number) => write_use(page, source, "fun", *number),
        Form::FunGlobal(symbol) => write_global(page, source, "funglobal", *symbol),
        Form::SetFun(symbol, _) => write_global(page, source, "setfun", *symbol),
        Form::Primitive(operation, _) => page.word(operation.name()),
        Form::Is(spec, _) => write_test(page, source, "is", spec),
        Form::The(spec, _) => write_test(page, source, "the", spec),
        Form::Block(number, name, _) => write_block(page, source, *number, *name),
        Form::ReturnFrom(number, _) => write_use(page, source, "return", *number),
        Form::Tagbody(_) => page.word("tagbody"),
        Form::Go(number) => write_use(page, source, "go", *number),
        Form::Catch(_, _) => page.word("catch"),
        Form::Throw(_, _) => page.word("throw"),
        Form::Unwind(_, _) => page.word("unwind"),
        Form::Values(_) => page.word("values"),
        Form::MvProg1(_, _) => page.word("mvprog1"),
    }
}
