// What a form has under numbers, noted in one walk over it.
ghost use Rattle.std.specs.Prelude.{◌≡◌, ◌++◌, ◌∷◌, [], OnOk};
ghost use Rattle.core_form.specs.Reading.{core_of, cores_list, lambda_of};
ghost use Rattle.core_form.specs.ListReading.{bindings_list, optionals_list, definitions_list, items_list};
ghost use Rattle.core_form.specs.Facts.{tagbody_number, gather_all, gather_bindings, gather_optionals, gather_lambda, gather_definitions, gather_items};
ghost use Rattle.form_names.specs.Parts.{definition_parts, tag_parts, tagbody_parts, node_parts, function_parts, parts as parts_of};
ghost use Rattle.form_names.specs.Read.{part_of, parts_list};

use core_form::{
    Binding, Core, Definition, Form, Item, Lambda, Optional, reads_lists, reads_nodes,
};
use lisp_base::{Place, SymId, Val};
use std::alloc::AllocError;

/// A function as the text has it: its name, the place of its form, and what it does.
#[derive(Clone, Copy)]
pub struct Text<'a> {
    pub name: Option<SymId>,
    pub place: Place,
    pub lambda: &'a Lambda,
}

/// A tag: the number of its tagbody, and its name.
#[derive(Clone, Copy)]
pub struct TagName {
    pub tagbody: u32,
    pub name: Val,
}

/// What a node or a function has under a number.
#[derive(Clone, Copy)]
pub enum Part<'a> {
    /// A function.
    Function(Text<'a>),
    /// A block, with its name.
    Block(u32, SymId),
    /// A tagbody.
    Tagbody(u32),
    /// A tag.
    Tag(u32, TagName),
    /// A local function.
    Local(&'a Definition),
}

fn note<'a>(noted: &mut Vec<Part<'a>>, part: Part<'a>) -> Result<(), AllocError>
    ensures { OnOk result (parts_list noted.new.items ≡ parts_list noted.old.items ++ part_of part.entry ∷ []) }
{
    noted.push(part)?;
    Ok(())
}

fn note_definitions<'a>(
    noted: &mut Vec<Part<'a>>,
    definitions: &'a [Definition],
) -> Result<(), AllocError>
    ensures { OnOk result (parts_list noted.new.items ≡ parts_list noted.old.items ++ definition_parts (definitions_list definitions.now)) }
{
    for definition in definitions {
        note(noted, Part::Local(definition))?;
    }
    Ok(())
}

/// The number of a tagbody: that of its first tag, or 0.
fn number_of(items: &[Item]) -> u32
    ensures { result ≡ tagbody_number (items_list items.now) }
{
    for item in items {
        if let Item::Tag(number, _) = item {
            return *number;
        }
    }
    0
}

fn note_tags(noted: &mut Vec<Part<'_>>, items: &[Item], tagbody: u32) -> Result<(), AllocError>
    ensures { OnOk result (parts_list noted.new.items ≡ parts_list noted.old.items ++ tag_parts tagbody (items_list items.now)) }
{
    for item in items {
        if let Item::Tag(number, name) = item {
            let name = *name;
            note(noted, Part::Tag(*number, TagName { tagbody, name }))?;
        }
    }
    Ok(())
}

fn note_tagbody(noted: &mut Vec<Part<'_>>, items: &[Item]) -> Result<(), AllocError>
    ensures { OnOk result (parts_list noted.new.items ≡ parts_list noted.old.items ++ tagbody_parts (items_list items.now)) }
{
    let tagbody = number_of(items);
    note(noted, Part::Tagbody(tagbody))?;
    note_tags(noted, items, tagbody)
}

/// Notes what a node itself has, without its parts.
fn note_node<'a>(noted: &mut Vec<Part<'a>>, core: &'a Core) -> Result<(), AllocError>
    ensures { OnOk result (parts_list noted.new.items ≡ parts_list noted.old.items ++ node_parts (core_of core.now)) }
{
    reads_lists();
    reads_nodes();
    match &core.form {
        Form::Block(number, name, _) => note(noted, Part::Block(*number, *name)),
        Form::Labels(definitions, _) => note_definitions(noted, definitions),
        Form::Tagbody(items) => note_tagbody(noted, items),
        Form::Quote(_)
        | Form::Local(_)
        | Form::SetLocal(_, _)
        | Form::Global(_)
        | Form::FunGlobal(_)
        | Form::SetGlobal(_, _)
        | Form::SetFun(_, _)
        | Form::If(_, _, _)
        | Form::Progn(_)
        | Form::Let(_, _)
        | Form::Lambda(_)
        | Form::CallLocal(_, _)
        | Form::CallGlobal(_, _)
        | Form::Funcall(_, _)
        | Form::Apply(_, _)
        | Form::MvCall(_, _)
        | Form::FunLocal(_)
        | Form::Primitive(_, _)
        | Form::Is(_, _)
        | Form::The(_, _)
        | Form::ReturnFrom(_, _)
        | Form::Go(_)
        | Form::Catch(_, _)
        | Form::Throw(_, _)
        | Form::Unwind(_, _)
        | Form::Values(_)
        | Form::MvProg1(_, _) => Ok(()),
    }
}

#[cycle(walking)]
#[tactic(auto, using(std::proofs::lemmas::List::append_assoc), unfolding(core_form::specs::Facts::gather))]
fn walk_all<'a>(noted: &mut Vec<Part<'a>>, parts: &'a [Core]) -> Result<(), AllocError>
    ensures { OnOk result (parts_list noted.new.items ≡ parts_list noted.old.items ++ gather_all node_parts function_parts (cores_list parts.now)) }
{
    for part in parts {
        walk(noted, part)?;
    }
    Ok(())
}

#[cycle(walking)]
#[tactic(auto, using(std::proofs::lemmas::List::append_assoc), unfolding(core_form::specs::Facts::gather))]
fn walk_bindings<'a>(noted: &mut Vec<Part<'a>>, bindings: &'a [Binding]) -> Result<(), AllocError>
    ensures { OnOk result (parts_list noted.new.items ≡ parts_list noted.old.items ++ gather_bindings node_parts function_parts (bindings_list bindings.now)) }
{
    for binding in bindings {
        walk(noted, &binding.value)?;
    }
    Ok(())
}

#[cycle(walking)]
#[tactic(auto, using(std::proofs::lemmas::List::append_assoc), unfolding(core_form::specs::Facts::gather))]
fn walk_optionals<'a>(
    noted: &mut Vec<Part<'a>>,
    optionals: &'a [Optional],
) -> Result<(), AllocError>
    ensures { OnOk result (parts_list noted.new.items ≡ parts_list noted.old.items ++ gather_optionals node_parts function_parts (optionals_list optionals.now)) }
{
    for optional in optionals {
        walk(noted, &optional.default)?;
    }
    Ok(())
}

#[cycle(walking)]
#[tactic(auto, using(std::proofs::lemmas::List::append_assoc), unfolding(core_form::specs::Facts::gather))]
fn walk_definitions<'a>(
    noted: &mut Vec<Part<'a>>,
    definitions: &'a [Definition],
) -> Result<(), AllocError>
    ensures { OnOk result (parts_list noted.new.items ≡ parts_list noted.old.items ++ gather_definitions node_parts function_parts (definitions_list definitions.now)) }
{
    for definition in definitions {
        let name = Some(definition.name);
        walk_lambda(noted, name, definition.place, &definition.lambda)?;
    }
    Ok(())
}

#[cycle(walking)]
#[tactic(auto, using(std::proofs::lemmas::List::append_assoc), unfolding(core_form::specs::Facts::gather))]
fn walk_items<'a>(noted: &mut Vec<Part<'a>>, items: &'a [Item]) -> Result<(), AllocError>
    ensures { OnOk result (parts_list noted.new.items ≡ parts_list noted.old.items ++ gather_items node_parts function_parts (items_list items.now)) }
{
    for item in items {
        if let Item::Step(form) = item {
            walk(noted, form)?;
        }
    }
    Ok(())
}

/// Notes a function, and then what stands in it.
#[cycle(walking)]
#[tactic(auto, using(std::proofs::lemmas::List::append_assoc), unfolding(core_form::specs::Facts::gather))]
fn walk_lambda<'a>(
    noted: &mut Vec<Part<'a>>,
    name: Option<SymId>,
    place: Place,
    lambda: &'a Lambda,
) -> Result<(), AllocError>
    ensures { OnOk result (parts_list noted.new.items ≡ parts_list noted.old.items ++ gather_lambda node_parts function_parts name place (lambda_of lambda.now)) }
{
    reads_nodes();
    let text = Text {
        name,
        place,
        lambda,
    };
    note(noted, Part::Function(text))?;
    walk_optionals(noted, &lambda.optional)?;
    walk(noted, &lambda.body)
}

/// Notes what a tree has, each node before its parts.
///
/// # Errors
/// Want of memory alone; some may then have been noted.
#[cycle(walking)]
#[tactic(auto, using(std::proofs::lemmas::List::append_assoc), unfolding(core_form::specs::Facts::gather))]
pub fn walk<'a>(noted: &mut Vec<Part<'a>>, core: &'a Core) -> Result<(), AllocError>
    ensures { OnOk result (parts_list noted.new.items ≡ parts_list noted.old.items ++ parts_of (core_of core.now)) }
{
    reads_lists();
    reads_nodes();
    note_node(noted, core)?;
    match &core.form {
        Form::Quote(_)
        | Form::Local(_)
        | Form::Global(_)
        | Form::FunLocal(_)
        | Form::FunGlobal(_)
        | Form::Go(_) => Ok(()),
        Form::SetLocal(_, part)
        | Form::SetGlobal(_, part)
        | Form::SetFun(_, part)
        | Form::Is(_, part)
        | Form::The(_, part)
        | Form::Block(_, _, part)
        | Form::ReturnFrom(_, part) => walk(noted, part),
        Form::If(test, yes, no) => {
            walk(noted, test)?;
            walk(noted, yes)?;
            walk(noted, no)
        }
        Form::Catch(first, second)
        | Form::Throw(first, second)
        | Form::Unwind(first, second)
        | Form::MvProg1(first, second) => {
            walk(noted, first)?;
            walk(noted, second)
        }
        Form::Progn(parts)
        | Form::Values(parts)
        | Form::CallGlobal(_, parts)
        | Form::CallLocal(_, parts)
        | Form::Primitive(_, parts) => walk_all(noted, parts),
        Form::Funcall(function, parts)
        | Form::Apply(function, parts)
        | Form::MvCall(function, parts) => {
            walk(noted, function)?;
            walk_all(noted, parts)
        }
        Form::Let(bindings, body) => {
            walk_bindings(noted, bindings)?;
            walk(noted, body)
        }
        Form::Labels(definitions, body) => {
            walk_definitions(noted, definitions)?;
            walk(noted, body)
        }
        Form::Lambda(lambda) => walk_lambda(noted, None, core.place, lambda),
        Form::Tagbody(items) => walk_items(noted, items),
    }
}
