// The text of a program after expansion.
ghost use Rattle.std.specs.Prelude.{◌≡◌, ◌∷◌, ◌++◌, [], false, OnOk, IfOk};
ghost use Rattle.std.specs.String.{string_bytes};
ghost use Rattle.lisp_base.specs.InStore.{make_store};
ghost use Rattle.core_form.specs.Reading.{core_of, cores_list, lambda_of, tops_of};
ghost use Rattle.core_form.specs.ListReading.{bindings_list, optionals_list, definitions_list, items_list};
ghost use Rattle.core_form.specs.TextNames.{binding_names, optional_names, function_names, tag_names};
ghost use Rattle.core_form.specs.TextPage.{page_of, make_page, put, puts, bound};
ghost use Rattle.core_form.specs.TextParts.{part_texts};
ghost use Rattle.core_form.specs.Text.{core_text as text_of, core_texts, group, binding_texts, lambda_text, optional_texts, definition_texts, item_texts, lines, program_text};

use crate::laws::reads_lists;
use crate::node_laws::reads_nodes;
use crate::programs::Program;
use crate::text_heads::write_head;
use crate::text_page::{Known, Page};
use crate::text_variables::{
    know_bindings, know_functions, know_given, know_tags, know_variable, write_flag,
    write_parameter, write_required, write_rest, write_variable,
};
use crate::text_words::{Source, write_label, write_used};
use crate::tree::{Binding, Core, Definition, Form, Item, Lambda, Optional, TopForm};
use lisp_base::{Heap, SymTab, Val};
use std::alloc::{AllocError, Global};

/// Writes nodes.
#[cycle(text)]
fn write_nodes(page: &mut Page, source: &Source<'_>, nodes: &[Core]) -> Result<(), AllocError>
    ensures { OnOk result (page_of page.new ≡ puts (page_of page.old) (core_texts source.now page.old.names.items (cores_list nodes.now))) }
{
    for node in nodes {
        write_node(page, source, node)?;
    }
    Ok(())
}

/// Writes the variables of a `Let` with their forms.
#[cycle(text)]
fn write_bindings(
    page: &mut Page,
    source: &Source<'_>,
    bindings: &[Binding],
) -> Result<(), AllocError>
    ensures { OnOk result (page_of page.new ≡ put (page_of page.old) (group (binding_texts source.now page.old.names.items (bindings_list bindings.now)))) }
{
    page.open()?;
    for binding in bindings {
        page.open()?;
        write_variable(page, source, binding.parameter.variable)?;
        write_node(page, source, &binding.value)?;
        page.close()?;
    }
    page.close()
}

/// Writes the optional parameters of a function, and binds them.
#[cycle(text)]
fn write_optionals(
    page: &mut Page,
    source: &Source<'_>,
    optionals: &[Optional],
) -> Result<(), AllocError>
    ensures { OnOk result (page_of page.new ≡ bound (puts (page_of page.old) (optional_texts source.now page.old.names.items (optionals_list optionals.now))) (optional_names (optionals_list optionals.now))) }
{
    for optional in optionals {
        page.open()?;
        page.word("opt")?;
        write_parameter(page, source, &optional.parameter)?;
        write_node(page, source, &optional.default)?;
        write_flag(page, source, &optional.supplied)?;
        page.close()?;
        know_variable(page, optional.parameter.variable)?;
        know_given(page, &optional.supplied)?;
    }
    Ok(())
}

/// Writes a function.
#[cycle(text)]
fn write_lambda(page: &mut Page, source: &Source<'_>, lambda: &Lambda) -> Result<(), AllocError>
    ensures { OnOk result (page_of page.new ≡ put (page_of page.old) (lambda_text source.now page.old.names.items (lambda_of lambda.now))) }
{
    let outer = page.known();
    page.open()?;
    page.word("lambda")?;
    page.open()?;
    write_required(page, source, &lambda.required)?;
    write_optionals(page, source, &lambda.optional)?;
    write_rest(page, source, &lambda.rest)?;
    know_given(page, &lambda.rest)?;
    page.close()?;
    write_node(page, source, &lambda.body)?;
    page.close()?;
    page.forget(outer);
    Ok(())
}

/// Writes local functions.
#[cycle(text)]
fn write_definitions(
    page: &mut Page,
    source: &Source<'_>,
    definitions: &[Definition],
) -> Result<(), AllocError>
    ensures { OnOk result (page_of page.new ≡ put (page_of page.old) (group (definition_texts source.now page.old.names.items (definitions_list definitions.now)))) }
{
    page.open()?;
    for definition in definitions {
        let number = definition.number;
        let name = Val::Sym(definition.name);
        page.open()?;
        write_label(page, source, Known { number, name })?;
        write_lambda(page, source, &definition.lambda)?;
        page.close()?;
    }
    page.close()
}

/// Writes tags and forms, where these tags are bound.
#[cycle(text)]
fn write_items(page: &mut Page, source: &Source<'_>, items: &[Item]) -> Result<(), AllocError>
    ensures { OnOk result (page_of page.new ≡ puts (page_of page.old) (item_texts source.now (page.old.names.items ++ tag_names (items_list items.now)) (items_list items.now))) }
{
    let outer = page.known();
    know_tags(page, items)?;
    for item in items {
        match item {
            Item::Tag(number, name) => {
                let number = *number;
                let name = *name;
                write_label(page, source, Known { number, name })?;
            }
            Item::Step(node) => write_node(page, source, node)?,
        }
    }
    page.forget(outer);
    Ok(())
}

/// Writes the parts of a node.
#[cycle(text)]
fn write_parts(page: &mut Page, source: &Source<'_>, core: &Core) -> Result<(), AllocError>
    ensures { OnOk result (page_of page.new ≡ puts (page_of page.old) (part_texts source.now page.old.names.items (core_of core.now))) }
{
    reads_lists();
    reads_nodes();
    match &core.form {
        Form::Quote(_)
        | Form::Local(_)
        | Form::Global(_)
        | Form::Lambda(_)
        | Form::FunLocal(_)
        | Form::FunGlobal(_)
        | Form::Go(_) => Ok(()),
        Form::SetLocal(_, part)
        | Form::SetGlobal(_, part)
        | Form::SetFun(_, part)
        | Form::Is(_, part)
        | Form::The(_, part)
        | Form::ReturnFrom(_, part) => write_node(page, source, part),
        Form::If(test, yes, no) => {
            write_node(page, source, test)?;
            write_node(page, source, yes)?;
            write_node(page, source, no)
        }
        Form::Catch(first, second)
        | Form::Throw(first, second)
        | Form::Unwind(first, second)
        | Form::MvProg1(first, second) => {
            write_node(page, source, first)?;
            write_node(page, source, second)
        }
        Form::Progn(parts) => write_nodes(page, source, parts),
        Form::Values(parts) => write_nodes(page, source, parts),
        Form::CallLocal(_, parts) => write_nodes(page, source, parts),
        Form::CallGlobal(_, parts) => write_nodes(page, source, parts),
        Form::Primitive(_, parts) => write_nodes(page, source, parts),
        Form::Funcall(function, parts) => {
            write_node(page, source, function)?;
            write_nodes(page, source, parts)
        }
        Form::Apply(function, parts) => {
            write_node(page, source, function)?;
            write_nodes(page, source, parts)
        }
        Form::MvCall(function, parts) => {
            write_node(page, source, function)?;
            write_nodes(page, source, parts)
        }
        Form::Let(bindings, body) => {
            let outer = page.known();
            write_bindings(page, source, bindings)?;
            know_bindings(page, bindings)?;
            write_node(page, source, body)?;
            page.forget(outer);
            Ok(())
        }
        Form::Labels(definitions, body) => {
            let outer = page.known();
            know_functions(page, definitions)?;
            write_definitions(page, source, definitions)?;
            write_node(page, source, body)?;
            page.forget(outer);
            Ok(())
        }
        Form::Block(number, name, body) => {
            let outer = page.known();
            page.know(*number, Val::Sym(*name))?;
            write_node(page, source, body)?;
            page.forget(outer);
            Ok(())
        }
        Form::Tagbody(items) => write_items(page, source, items),
    }
}

/// Writes a node.
#[cycle(text)]
fn write_node(page: &mut Page, source: &Source<'_>, core: &Core) -> Result<(), AllocError>
    ensures { OnOk result (page_of page.new ≡ put (page_of page.old) (text_of source.now page.old.names.items (core_of core.now))) }
{
    match &core.form {
        Form::Local(number) => write_used(page, source, *number),
        Form::Lambda(lambda) => write_lambda(page, source, lambda),
        _ => {
            page.open()?;
            write_head(page, source, core)?;
            write_parts(page, source, core)?;
            page.close()
        }
    }
}

/// Writes a line for each form.
fn write_lines(page: &mut Page, source: &Source<'_>, forms: &[TopForm]) -> Result<(), AllocError>
    requires { page_of page.old ≡ make_page [] false [] }
    ensures { OnOk result (page_of page.new ≡ make_page (lines source.now (tops_of forms.now)) false []) }
{
    for form in forms {
        write_node(page, source, &form.core)?;
        page.end_line()?;
    }
    Ok(())
}

/// The text of top-level forms, one line a form, by the objects and the symbols that they name.
///
/// # Errors
/// Want of memory alone.
pub fn forms_text(
    alloc: Global,
    forms: &[TopForm],
    heap: &Heap,
    symbols: &SymTab,
) -> Result<String, AllocError>
    ensures { IfOk result (λ text. string_bytes text ≡ lines (make_store heap.now symbols.now.symbols) (tops_of forms.now)) }
{
    let source = Source::new(alloc, heap, symbols);
    let mut page = Page::new(alloc);
    write_lines(&mut page, &source, forms)?;
    Ok(page.text)
}

/// The text of a program, a line for each of its top-level forms.
///
/// A node is a list of what it does, what it names and its parts. What it does is in lower case, a
/// primitive in upper case. Variables, functions, blocks and tags are shown as name, dot and
/// number, and constants as the printer shows them, within 20 levels, 1,000 elements and 10,000
/// objects. The functions of the prelude have no line.
///
/// # Errors
///
/// Only for want of memory.
pub fn core_text(alloc: Global, program: &Program) -> Result<String, AllocError>
    ensures { IfOk result (λ text. string_bytes text ≡ program_text program.now) }
{
    forms_text(alloc, program.forms(), program.heap(), program.symbols())
}
