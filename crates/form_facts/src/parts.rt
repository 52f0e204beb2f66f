// What a form has to do with cells and words, noted in one walk over it.
ghost use Rattle.std.specs.Prelude.{◌≡◌, ◌++◌, ◌∷◌, [], OnOk, IfOk};
ghost use Rattle.core_form.specs.Reading.{core_of, cores_list, lambda_of};
ghost use Rattle.core_form.specs.ListReading.{bindings_list, optionals_list, definitions_list, items_list};
ghost use Rattle.core_form.specs.Facts.{gather_all, gather_bindings, gather_optionals, gather_definitions, gather_items};
ghost use Rattle.core_form.specs.Arithmetic.{arithmetic};
ghost use Rattle.form_facts.specs.Parts.{node_parts, function_parts, operand_parts, lambda_parts, parts as parts_of};
ghost use Rattle.form_facts.specs.Read.{part_of, parts_list};

use core_form::{
    Binding, Core, Definition, Form, Item, Lambda, Optional, reads_lists, reads_nodes,
};
use lisp_base::Primitive;
use std::alloc::{AllocError, Global};

/// What a form has to do with cells and words.
#[derive(Clone, Copy)]
pub enum Part<'a> {
    /// A variable is read.
    Read(u32),
    /// A variable is given the value of a form.
    Set(u32, &'a Core),
    /// A block is left.
    Leave(u32),
    /// A tag is gone to.
    Go(u32),
    /// Variables are bound.
    Bind(&'a [Binding]),
    /// An arithmetic primitive has these operands.
    Compute(&'a [Core]),
    /// A function is made or defined.
    Make(&'a Lambda),
}

fn note<'a>(parts: &mut Vec<Part<'a>>, part: Part<'a>) -> Result<(), AllocError>
    ensures { OnOk result (parts_list parts.new.items ≡ parts_list parts.old.items ++ part_of part.entry ∷ []) }
{
    parts.push(part)?;
    Ok(())
}

/// Whether the operands of a primitive may stay words.
fn is_arithmetic(operation: Primitive) -> bool
    ensures { result ≡ arithmetic operation }
{
    match operation {
        Primitive::Add
        | Primitive::Subtract
        | Primitive::Multiply
        | Primitive::Truncate
        | Primitive::Floor
        | Primitive::Rem
        | Primitive::Mod
        | Primitive::Equal
        | Primitive::NotEqual
        | Primitive::Less
        | Primitive::Greater
        | Primitive::LessOrEqual
        | Primitive::GreaterOrEqual
        | Primitive::LogAnd
        | Primitive::LogIor
        | Primitive::LogXor
        | Primitive::LogNot
        | Primitive::Ash => true,
        Primitive::Cons
        | Primitive::List
        | Primitive::Car
        | Primitive::Cdr
        | Primitive::Rplaca
        | Primitive::Rplacd
        | Primitive::MakeVector
        | Primitive::MakeString
        | Primitive::Svref
        | Primitive::Schar
        | Primitive::SetSvref
        | Primitive::SetSchar
        | Primitive::VectorLength
        | Primitive::StringLength
        | Primitive::Eq
        | Primitive::CharCode
        | Primitive::CodeChar
        | Primitive::CharEqual
        | Primitive::CharLess
        | Primitive::ReadChar
        | Primitive::WriteChar
        | Primitive::SymbolName
        | Primitive::SymbolValue
        | Primitive::SymbolFunction
        | Primitive::SetValue
        | Primitive::Boundp
        | Primitive::Fboundp
        | Primitive::Uninternedp
        | Primitive::Error
        | Primitive::ValuesList => false,
    }
}

/// Notes the operands of a primitive.
fn note_operands<'a>(
    parts: &mut Vec<Part<'a>>,
    operation: Primitive,
    operands: &'a [Core],
) -> Result<(), AllocError>
    ensures { OnOk result (parts_list parts.new.items ≡ parts_list parts.old.items ++ operand_parts operation (cores_list operands.now)) }
{
    if is_arithmetic(operation) {
        note(parts, Part::Compute(operands))?;
    }
    Ok(())
}

/// Notes what a node itself tells, without its parts.
fn note_node<'a>(parts: &mut Vec<Part<'a>>, core: &'a Core) -> Result<(), AllocError>
    ensures { OnOk result (parts_list parts.new.items ≡ parts_list parts.old.items ++ node_parts (core_of core.now)) }
{
    reads_lists();
    reads_nodes();
    match &core.form {
        Form::Local(number) => note(parts, Part::Read(*number)),
        Form::SetLocal(number, value) => note(parts, Part::Set(*number, value)),
        Form::ReturnFrom(block, _) => note(parts, Part::Leave(*block)),
        Form::Go(tag) => note(parts, Part::Go(*tag)),
        Form::Let(bindings, _) => note(parts, Part::Bind(bindings)),
        Form::Primitive(operation, operands) => note_operands(parts, *operation, operands),
        Form::Quote(_)
        | Form::Global(_)
        | Form::FunLocal(_)
        | Form::FunGlobal(_)
        | Form::SetGlobal(_, _)
        | Form::SetFun(_, _)
        | Form::If(_, _, _)
        | Form::Progn(_)
        | Form::Lambda(_)
        | Form::Labels(_, _)
        | Form::CallLocal(_, _)
        | Form::CallGlobal(_, _)
        | Form::Funcall(_, _)
        | Form::Apply(_, _)
        | Form::MvCall(_, _)
        | Form::Is(_, _)
        | Form::The(_, _)
        | Form::Block(_, _, _)
        | Form::Tagbody(_)
        | Form::Catch(_, _)
        | Form::Throw(_, _)
        | Form::Unwind(_, _)
        | Form::Values(_)
        | Form::MvProg1(_, _) => Ok(()),
    }
}

#[cycle(walking)]
#[tactic(auto, using(std::proofs::lemmas::List::append_assoc), unfolding(core_form::specs::Facts::gather))]
fn walk_all<'a>(parts: &mut Vec<Part<'a>>, cores: &'a [Core]) -> Result<(), AllocError>
    ensures { OnOk result (parts_list parts.new.items ≡ parts_list parts.old.items ++ gather_all node_parts function_parts (cores_list cores.now)) }
{
    for core in cores {
        walk(parts, core)?;
    }
    Ok(())
}

#[cycle(walking)]
#[tactic(auto, using(std::proofs::lemmas::List::append_assoc), unfolding(core_form::specs::Facts::gather))]
fn walk_bindings<'a>(parts: &mut Vec<Part<'a>>, bindings: &'a [Binding]) -> Result<(), AllocError>
    ensures { OnOk result (parts_list parts.new.items ≡ parts_list parts.old.items ++ gather_bindings node_parts function_parts (bindings_list bindings.now)) }
{
    for binding in bindings {
        walk(parts, &binding.value)?;
    }
    Ok(())
}

#[cycle(walking)]
#[tactic(auto, using(std::proofs::lemmas::List::append_assoc), unfolding(core_form::specs::Facts::gather))]
fn walk_optionals<'a>(
    parts: &mut Vec<Part<'a>>,
    optionals: &'a [Optional],
) -> Result<(), AllocError>
    ensures { OnOk result (parts_list parts.new.items ≡ parts_list parts.old.items ++ gather_optionals node_parts function_parts (optionals_list optionals.now)) }
{
    for optional in optionals {
        walk(parts, &optional.default)?;
    }
    Ok(())
}

#[cycle(walking)]
#[tactic(auto, using(std::proofs::lemmas::List::append_assoc), unfolding(core_form::specs::Facts::gather))]
fn walk_definitions<'a>(
    parts: &mut Vec<Part<'a>>,
    definitions: &'a [Definition],
) -> Result<(), AllocError>
    ensures { OnOk result (parts_list parts.new.items ≡ parts_list parts.old.items ++ gather_definitions node_parts function_parts (definitions_list definitions.now)) }
{
    for definition in definitions {
        walk_lambda(parts, &definition.lambda)?;
    }
    Ok(())
}

#[cycle(walking)]
#[tactic(auto, using(std::proofs::lemmas::List::append_assoc), unfolding(core_form::specs::Facts::gather))]
fn walk_items<'a>(parts: &mut Vec<Part<'a>>, items: &'a [Item]) -> Result<(), AllocError>
    ensures { OnOk result (parts_list parts.new.items ≡ parts_list parts.old.items ++ gather_items node_parts function_parts (items_list items.now)) }
{
    for item in items {
        if let Item::Step(form) = item {
            walk(parts, form)?;
        }
    }
    Ok(())
}

/// Notes the parts of a function, itself first.
#[cycle(walking)]
#[tactic(auto, using(std::proofs::lemmas::List::append_assoc), unfolding(core_form::specs::Facts::gather))]
fn walk_lambda<'a>(parts: &mut Vec<Part<'a>>, lambda: &'a Lambda) -> Result<(), AllocError>
    ensures { OnOk result (parts_list parts.new.items ≡ parts_list parts.old.items ++ lambda_parts (lambda_of lambda.now)) }
{
    reads_nodes();
    note(parts, Part::Make(lambda))?;
    walk_optionals(parts, &lambda.optional)?;
    walk(parts, &lambda.body)
}

/// Notes the parts of a tree, each node before its own parts.
#[cycle(walking)]
#[tactic(auto, using(std::proofs::lemmas::List::append_assoc), unfolding(core_form::specs::Facts::gather))]
fn walk<'a>(parts: &mut Vec<Part<'a>>, core: &'a Core) -> Result<(), AllocError>
    ensures { OnOk result (parts_list parts.new.items ≡ parts_list parts.old.items ++ parts_of (core_of core.now)) }
{
    reads_lists();
    reads_nodes();
    note_node(parts, core)?;
    match &core.form {
        Form::Quote(_)
        | Form::Local(_)
        | Form::Global(_)
        | Form::FunLocal(_)
        | Form::FunGlobal(_)
        | Form::Go(_) => Ok(()),
        Form::SetLocal(_, part)
        | Form::SetGlobal(_, part)
        | Form::SetFun(_, part)
        | Form::Is(_, part)
        | Form::The(_, part)
        | Form::Block(_, _, part)
        | Form::ReturnFrom(_, part) => walk(parts, part),
        Form::If(test, yes, no) => {
            walk(parts, test)?;
            walk(parts, yes)?;
            walk(parts, no)
        }
        Form::Catch(first, second)
        | Form::Throw(first, second)
        | Form::Unwind(first, second)
        | Form::MvProg1(first, second) => {
            walk(parts, first)?;
            walk(parts, second)
        }
        Form::Progn(cores)
        | Form::Values(cores)
        | Form::CallGlobal(_, cores)
        | Form::CallLocal(_, cores)
        | Form::Primitive(_, cores) => walk_all(parts, cores),
        Form::Funcall(function, cores)
        | Form::Apply(function, cores)
        | Form::MvCall(function, cores) => {
            walk(parts, function)?;
            walk_all(parts, cores)
        }
        Form::Let(bindings, body) => {
            walk_bindings(parts, bindings)?;
            walk(parts, body)
        }
        Form::Labels(definitions, body) => {
            walk_definitions(parts, definitions)?;
            walk(parts, body)
        }
        Form::Lambda(lambda) => walk_lambda(parts, lambda),
        Form::Tagbody(items) => walk_items(parts, items),
    }
}

/// The parts of a form, each node before its own parts.
///
/// # Errors
/// Want of memory alone.
pub fn parts_in<'a>(alloc: Global, core: &'a Core) -> Result<Vec<Part<'a>>, AllocError>
    ensures { IfOk result (λ parts. parts_list parts.items ≡ parts_of (core_of core.now)) }
{
    let mut parts = Vec::new(alloc);
    walk(&mut parts, core)?;
    Ok(parts)
}
