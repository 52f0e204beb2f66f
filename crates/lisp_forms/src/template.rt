//! Forms that are still to be made.

ghost use Rattle.std.specs.Prelude.{◌≡◌, IfOk, map};
ghost use Rattle.lisp_forms.specs.Trees.{tree_of, trees};
ghost use Rattle.lisp_forms.specs.Building.{built, built_each, made_list};
ghost use Rattle.lisp_forms.specs.Growth.{Grows};

use crate::laws::reads_templates;
use lisp_base::{Heap, NIL, Obj, Val, Vals};
use std::alloc::{AllocError, Global};

/// A form that is still to be made.
#[derive(Drop)]
pub enum Template {
    /// This form.
    Form(Val),
    /// The fresh symbol of this number, from 0.
    Fresh(usize),
    /// The form that was made just before.
    Inner,
    /// A list of these elements, and what stands after the last of them: NIL in a proper list.
    List { elements: Templates, tail: Val },
}

/// A list of templates.
pub type Templates = Vec<Template>;

/// Makes a list of these elements before a tail, its last cons first. No cons has a place.
///
/// # Errors
/// Want of memory alone.
pub fn make_list(heap: &mut Heap, items: &[Val], tail: Val) -> Result<Val, AllocError>
    ensures ok { IfOk result (λ value. made_list items.now tail heap.old ≡ (value, heap.new)) }
    ensures grown { Grows heap.old heap.new }
{
    let mut value = tail;
    for index in (0..items.len()).rev() {
        let cell = Obj::Cons {
            car: items[index],
            cdr: value,
            place: None,
        };
        value = Val::Ref(heap.add(cell)?);
    }
    Ok(value)
}

// The forms of several templates, from left to right.
#[cycle(build)]
fn build_each(
    alloc: Global,
    heap: &mut Heap,
    elements: &[Template],
    symbols: &[Val],
    before: Val,
) -> Result<Vals, AllocError>
    ensures ok { IfOk result (λ values. built_each symbols.now before (trees (map tree_of elements.now)) heap.old ≡ (values.items, heap.new)) }
    ensures grown { Grows heap.old heap.new }
{
    let mut values = Vec::new(alloc);
    for element in elements {
        values.push(build(alloc, heap, element, symbols, before)?)?;
    }
    Ok(values)
}

/// Makes the form of a template, with these fresh symbols and this form made just before.
///
/// # Errors
/// Want of memory alone. The heap then holds what it held, unchanged, and maybe more.
#[cycle(build)]
#[tactic(auto, unfolding(crate::specs::Building::built))]
pub fn build(
    alloc: Global,
    heap: &mut Heap,
    template: &Template,
    symbols: &[Val],
    before: Val,
) -> Result<Val, AllocError>
    ensures ok { IfOk result (λ value. built symbols.now before (tree_of template.now) heap.old ≡ (value, heap.new)) }
    ensures grown { Grows heap.old heap.new }
{
    reads_templates();
    match template {
        Template::Form(form) => Ok(*form),
        Template::Fresh(number) => Ok(symbols.get(*number).copied().unwrap_or(Val::Sym(NIL))),
        Template::Inner => Ok(before),
        Template::List { elements, tail } => {
            let values = build_each(alloc, heap, elements, symbols, before)?;
            make_list(heap, &values, *tail)
        }
    }
}
